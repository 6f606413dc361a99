//! What is drawn in a picture: the rows of threads and of mutexes, the mains without a tick, the groups, the holds, the lines
//! that make a child, and what a configuration promises.
ghost use Rattle.std.specs.Prelude.{◌≡◌, ◌≤◌, ◌<◌, ◌^◌, IfOk, length};
ghost use Rattle.dk_picture.specs.Scenes.{frame_of, scene_of};

use crate::frame::Frame;
use crate::hold_bars::mutex_rows;
use crate::promise::Promise;
use crate::row_list::{quiet_mains, rows_of};
use crate::rows::Rows;
use dk_config::NoMemory;
use dk_hold_spans::Hold;
use dk_ledger::{Header, LedgerLine};
use std::alloc::Global;
use std::marker::Model;

/// What is drawn, seen as a `Scene`.
#[derive(Drop)]
pub(crate) struct Drawing {
    rows: Rows,
    quiet: Vec<u8>,
    mutexes: Vec<u8>,
    groups: Vec<LedgerLine>,
    holds: Vec<Hold>,
    makings: Vec<LedgerLine>,
    promise: Promise,
}

impl Model for Drawing {
    ghost use Rattle.std.specs.Prelude.{length, ◌<◌, ◌≤◌, ◌^◌};
    ghost use Rattle.dk_picture.specs.Scenes.{Scene};

    ghost Value = { Scene };

    ghost view = { λ d. record {
      rows = d.rows;
      quiet = d.quiet.items;
      mutexes = d.mutexes.items;
      groups = d.groups.items;
      holds = d.holds.items;
      makings = d.makings.items;
      promised = d.promise;
    } };

    ghost invariant = { λ d. (length d.quiet.items ≤ 32) × (length d.mutexes.items ≤ 16)
        × (length d.groups.items < 2 ^ 16) × (length d.holds.items < 2 ^ 32) };
}

impl Drawing {
    /// These groups, holds, lines and promises, with the rows of the first two and the mains without a tick.
    pub(crate) fn of(
        alloc: Global,
        header: &Header,
        groups: Vec<LedgerLine>,
        holds: Vec<Hold>,
        makings: Vec<LedgerLine>,
        promise: Promise,
    ) -> Result<Drawing, NoMemory>
        requires levels { length header.now.levels ≤ 12 }
        requires processes { length header.now.processes ≤ 32 }
        requires few { length groups.items < 2 ^ 16 }
        requires few_holds { length holds.items < 2 ^ 32 }
        ensures { IfOk result (λ d. d ≡ scene_of header.now promise groups.items holds.items makings.items) }
    {
        let rows = rows_of(alloc, header, groups.as_slice())?;
        let quiet = quiet_mains(alloc, header, groups.as_slice())?;
        let mutexes = mutex_rows(alloc, holds.as_slice())?;
        Ok(Drawing {
            rows,
            quiet,
            mutexes,
            groups,
            holds,
            makings,
            promise,
        })
    }

    pub(crate) fn rows(&self) -> &Rows
        ensures { result.now ≡ self.now.rows }
    {
        &self.rows
    }

    /// The processes whose mains have no tick.
    pub(crate) fn quiet(&self) -> &[u8]
        ensures mains { result.now ≡ self.now.quiet }
        ensures few { length result.now ≤ 32 }
    {
        self.quiet.as_slice()
    }

    pub(crate) fn mutexes(&self) -> &[u8]
        ensures mutexes { result.now ≡ self.now.mutexes }
        ensures few { length result.now ≤ 16 }
    {
        self.mutexes.as_slice()
    }

    pub(crate) fn groups(&self) -> &[LedgerLine]
        ensures groups { result.now ≡ self.now.groups }
        ensures few { length result.now < 2 ^ 16 }
    {
        self.groups.as_slice()
    }

    pub(crate) fn holds(&self) -> &[Hold]
        ensures holds { result.now ≡ self.now.holds }
        ensures few { length result.now < 2 ^ 32 }
    {
        self.holds.as_slice()
    }

    /// The lines up to the range's end whose event makes a child.
    pub(crate) fn makings(&self) -> &[LedgerLine]
        ensures { result.now ≡ self.now.makings }
    {
        self.makings.as_slice()
    }

    /// What a configuration promises.
    pub(crate) fn promise(&self) -> &Promise
        ensures { result.now ≡ self.now.promised }
    {
        &self.promise
    }

    /// How many levels and rows the picture has.
    pub(crate) fn frame(&self, header: &Header) -> Frame
        requires { length header.now.levels ≤ 12 }
        ensures { result ≡ frame_of header.now self.now }
    {
        Frame {
            levels: header.levels.len() as u8,
            rows: self.rows.len(),
            quiet: self.quiet.len() as u8,
            mutexes: self.mutexes.len() as u8,
        }
    }
}
