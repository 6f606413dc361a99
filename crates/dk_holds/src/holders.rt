ghost use Rattle.std.specs.Prelude.{ℕ, List, [], Some, ◌≡◌, ◌+◌, ◌<◌, ◌^◌, ◌++◌, length, option_map, reverse, slice_get};
ghost use Rattle.dk_trace.specs.declared.Entry.{Entry as AnEntry};
ghost use Rattle.dk_ledger.specs.Cuts.{entries_of};
ghost use Rattle.dk_holds.specs.Holds.{AreHolders, behind, ended, holding, last_entry};

use crate::Holding;
use crate::entries::{behind, ended};
use dk_config::MAX_MUTEXES;
use dk_ledger::LedgerLine;
use dk_trace::Entry;
use std::marker::Model;

/// Who holds each mutex after some lines of a ledger. It is seen as the list of the holds by mutex, None where nobody
/// holds it.
#[derive(Drop)]
pub struct Holders {
    rows: [Option<Holding>; MAX_MUTEXES],
}

impl Model for Holders {
    ghost use Rattle.std.specs.Prelude.{List, Option};
    ghost use Rattle.dk_holds.specs.declared.holding.Holding.{Holding};

    ghost Value = { List (Option Holding) };

    ghost view = { λ h. h.rows };
}

impl Holders {
    /// Before the first line nobody holds a mutex.
    pub fn new() -> Holders
        ensures { AreHolders [] result }
    {
        Holders {
            rows: [None; MAX_MUTEXES],
        }
    }

    /// The hold of the mutex, where there is one.
    pub fn of(&self, mutex: u8) -> Option<Holding>
        requires { mutex < MAX_MUTEXES }
        ensures row { slice_get self.now mutex ≡ Some result }
        ensures holding { (past : List AnEntry) → AreHolders past self.now → result ≡ holding mutex past }
    {
        self.rows[mutex as usize]
    }

    /// The hold of the mutex that the next line ends, at its last tick. To be asked before the step.
    pub fn ended(&self, mutex: u8, line: &LedgerLine) -> Option<Holding>
        requires { mutex < MAX_MUTEXES }
        ensures { (past : List AnEntry) → AreHolders past self.now
            → result ≡ ended mutex (last_entry line.now) (holding mutex past) }
    {
        let entry = Entry {
            label: line.label,
            event: line.event,
        };
        ended(mutex, &entry, self.rows[mutex as usize])
    }

    /// Goes on behind the next line.
    pub fn step(&mut self, line: &LedgerLine)
        requires some { 0 < line.now.count }
        requires short { line.now.start + line.now.count < 2 ^ 32 }
        ensures { (es : List AnEntry) → line.now.start ≡ length es → AreHolders (reverse es) self.old
            → AreHolders (reverse (es ++ entries_of line.now)) self.new }
    {
        if line.event.is_none() {
            return;
        }
        let entry = Entry {
            label: line.label,
            event: line.event,
        };
        let tick = line.start + (line.count - 1);
        step_all(&mut self.rows, tick, &entry);
    }
}

/// The holds of all mutexes behind the entry of this tick.
fn step_all(rows: &mut [Option<Holding>; MAX_MUTEXES], tick: u32, entry: &Entry)
    requires { tick + 1 < 2 ^ 32 }
    ensures { (m : ℕ) → m < MAX_MUTEXES
        → slice_get rows.new m ≡ option_map (behind m tick entry.now) (slice_get rows.old m) }
{
    for mutex in 0..MAX_MUTEXES {
        rows[mutex] = behind(mutex as u8, tick, entry, rows[mutex]);
    }
}
