//! The create of a child by the tables: its row, loan and seat. No past is read.
ghost use Rattle.std.specs.Prelude.{◌≡◌, ◌<◌, ◌==◌, true};
ghost use Rattle.dk_threads.specs.Table.{begun, changed_at, children_at, free_slot, has_room, has_serials, new_row, next_id, stands};

use crate::node::node_on;
use crate::tables::AllTables;
use dk_steps::Steps;
use dk_threads::{ThreadRow, Threads};
use dk_trace::{Refusal, ThreadId};
use std::sync::ledger::Ledger;

/// Adds a child of the process, and gives its row.
fn begin(threads: &mut Threads, process: u8, level: u8, start: u32) -> ThreadRow
    requires stands { stands threads.old process ≡ true }
    requires room { has_room threads.old process ≡ true }
    requires few { has_serials threads.old process ≡ true }
    requires known { level < threads.old.levels }
    ensures row { result ≡ new_row (next_id threads.old process) level
        (free_slot (children_at threads.old process)) start }
    ensures rows { threads.new ≡ changed_at (begun process level start) process threads.old }
{
    threads.rows_are_in_order();
    let id = threads.begin(process, level, start);
    match threads.find(id) {
        Some(row) => row,
        None => unreachable!(),
    }
}

impl AllTables {
    ghost use Rattle.std.specs.Prelude.{MatchResult, None, Some, IsNone, length};
    ghost use Rattle.dk_rail.specs.Queues.{holder};
    ghost use Rattle.dk_ready.specs.Roster.{released};
    ghost use Rattle.dk_recount.specs.Creating.{MayCreate, child_row, create_refusal_in, free_node, new_seat, with_child};

    /// The create by the tables. No step.
    pub(crate) fn create<L: Ledger>(
        &mut self,
        id: ThreadId,
        level: u32,
        quota: u32,
        entry: u32,
        instructions: u32,
        steps: &mut Steps<L>,
    ) -> Result<ThreadRow, Refusal>
        requires { (id.serial == 0) ≡ true → MayCreate id.process level quota entry instructions self.old }
        ensures told { MatchResult result
            (λ row. (create_refusal_in self.old id level quota entry instructions ≡ None)
            × (row ≡ child_row id.process level self.old) × (self.new ≡ with_child id.process level quota self.old))
            (λ refusal. (create_refusal_in self.old id level quota entry instructions ≡ Some refusal)
            × (self.new ≡ self.old)) }
        ensures steps { steps.new ≡ steps.old }
    {
        if id.serial != 0 {
            return Err(Refusal::NotMain);
        }
        let serial = self.threads.next_serial(id.process);
        let windows = self.demand.windows();
        let start = match self.loans.lend(
            windows,
            id.process,
            serial,
            level,
            quota,
            entry,
            instructions,
        ) {
            Ok(start) => start,
            Err(refusal) => return Err(refusal),
        };
        Ok(self.seat_child(id.process, level as u8, start, steps))
    }

    /// The next child of the process, which starts at that tick: it has a row, and a seat with nothing to do
    /// before. No step.
    fn seat_child<L: Ledger>(
        &mut self,
        process: u8,
        level: u8,
        start: u32,
        steps: &mut Steps<L>,
    ) -> ThreadRow
        requires stands { stands self.old.threads process ≡ true }
        requires room { has_room self.old.threads process ≡ true }
        requires few { has_serials self.old.threads process ≡ true }
        requires known { level < self.old.threads.levels }
        requires node { free_node self.old.threads process < length self.old.jobs.seats }
        requires free { IsNone (holder self.old.jobs.ready.lists (free_node self.old.threads process)) }
        ensures row { result ≡ new_row (next_id self.old.threads process) level
            (free_slot (children_at self.old.threads process)) start }
        ensures tables { self.new ≡ record self.old {
          threads = changed_at (begun process level start) process self.old.threads;
          jobs = released (free_node self.old.threads process) (new_seat self.old.threads process level) self.old.jobs;
        } }
        ensures steps { steps.new ≡ steps.old }
    {
        let row = begin(&mut self.threads, process, level, start);
        self.jobs.release(node_on(row), row.id, level, 0, steps);
        row
    }
}
