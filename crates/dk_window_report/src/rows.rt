//! The rows of all threads.
ghost use Rattle.std.specs.Prelude.{[], ◌≡◌, ◌<◌, ◌+◌, ◌++◌, ◌∷◌, map, IfOk, OnOk};
ghost use Rattle.dk_window_report.specs.Rows.{stepped};
ghost use Rattle.dk_window_report.specs.Late.{late_with, rows_at};
ghost use Rattle.dk_window_report.specs.Touched.{changed_at, changed_by, ArePlaced};

use crate::family::{Family, add_place, families, place_of};
use crate::late::{Late, late_with};
use crate::row::Row;
use crate::touched::{Touched, touched_by};
use dk_config::{MAX_RUN_TICKS, NoMemory};
use dk_trace::Entry;
use std::alloc::Global;

/// The rows of all threads, each as it was when something last happened to its thread. So an entry costs as much as it
/// changes rows, however many there are.
#[derive(Drop)]
pub struct Rows {
    pub lates: Vec<Late>,
    /// Where the rows stand, by process.
    pub families: Vec<Family>,
    /// Whether each thread was the next one of its process, by serial. So it is in each ledger that follows the rules.
    /// Where it isn't so, each entry may change all rows.
    pub known: bool,
}

/// Changes the row at the place by the entry of tick `now`, where there is one.
fn change_at(lates: &mut Vec<Late>, place: Option<usize>, now: u32, entry: Entry)
    requires { now < MAX_RUN_TICKS }
    ensures { lates.new.items ≡ changed_at (late_with now entry) place lates.old.items }
{
    if let Some(place) = place {
        if place < lates.len() {
            lates[place] = late_with(now, entry, lates[place]);
        }
    }
}

/// Changes all rows by the entry of tick `now`.
fn change_all(lates: &mut [Late], now: u32, entry: Entry)
    requires { now < MAX_RUN_TICKS }
    ensures { lates.new ≡ map (late_with now entry) lates.old }
{
    for late in lates.iter_mut() {
        *late = late_with(now, entry, *late);
    }
}

/// Changes the rows that are touched by the entry of tick `now`.
fn change(lates: &mut Vec<Late>, families: &[Family], touched: Touched, now: u32, entry: Entry)
    requires { now < MAX_RUN_TICKS }
    ensures { lates.new.items ≡ changed_by (late_with now entry) families.now touched lates.old.items }
{
    match touched {
        Touched::Nobody => {},
        Touched::One(thread) => change_at(lates, place_of(families, thread), now, entry),
        Touched::Two(main, child) => {
            change_at(lates, place_of(families, main), now, entry);
            change_at(lates, place_of(families, child), now, entry);
        },
        Touched::All => change_all(lates.as_mut_slice(), now, entry),
    }
}

impl Rows {
    /// No rows, of so many processes.
    pub fn new(alloc: Global, processes: usize) -> Result<Rows, NoMemory>
        ensures rows { IfOk result (λ r. r.lates.items ≡ []) }
        ensures placed { IfOk result (ArePlaced 0) }
    {
        Ok(Rows {
            lates: Vec::new(alloc),
            families: families(alloc, processes)?,
            known: true,
        })
    }

    /// Steps all rows by the entry of tick `now`.
    pub fn step(&mut self, now: u32, entry: Entry)
        requires placed { ArePlaced now self.old }
        requires few { now < MAX_RUN_TICKS }
        ensures rows { rows_at (now + 1) self.new.lates.items ≡ map (stepped now entry) (rows_at now self.old.lates.items) }
        ensures placed { ArePlaced (now + 1) self.new }
    {
        let touched = touched_by(self.known, entry);
        change(
            &mut self.lates,
            self.families.as_slice(),
            touched,
            now,
            entry,
        );
    }

    /// Adds a row before that tick.
    pub fn push(&mut self, row: Row, tick: u32) -> Result<(), NoMemory>
        requires { ArePlaced tick self.old }
        ensures rows { OnOk result (rows_at tick self.new.lates.items ≡ rows_at tick self.old.lates.items ++ row ∷ []) }
        ensures placed { OnOk result (ArePlaced tick self.new) }
    {
        let is_next = add_place(&mut self.families, row.thread, self.lates.len())?;
        self.known = is_next && self.known;
        self.lates.push(Late { row, tick })?;
        Ok(())
    }
}
