//! One child is stopped, and what its levels lose by it, by the tables alone.
ghost use Rattle.std.specs.Prelude.{ℕ, ◌≡◌, ◌+◌, ◌*◌, ◌<◌, ◌≤◌, length, slice_index};
ghost use Rattle.dk_mutex.specs.Rows.{left_up_to};
ghost use Rattle.dk_demand.specs.Levels.{by_level, at_level, less as less_by};
ghost use Rattle.dk_recount.specs.Stopping.{cells_freed, node_on, running_child};

use crate::node::node_on;
use crate::tables::AllTables;
use dk_demand::Demand;
use dk_mutex::Mutexes;
use dk_steps::Steps;
use dk_threads::{ThreadRow, Threads};
use dk_trace::{Refusal, ThreadId};
use std::sync::ledger::Ledger;

/// No level faster than the thread's waits for it any longer. A step for each of these levels at most.
fn free_levels<L: Ledger>(
    demand: &mut Demand,
    mutexes: &Mutexes,
    id: ThreadId,
    level: u8,
    steps: &mut Steps<L>,
)
    requires known { level < length demand.old.windows.periods }
    requires low { (j : ℕ) → j < level → left_up_to id j mutexes.now ≤ slice_index demand.old.blocking j }
    ensures cells { demand.new ≡ cells_freed id level mutexes.now demand.old }
    ensures steps { steps.new ≤ steps.old + level }
{
    for faster in 0..level {
        lower_wait(demand, faster, mutexes.left_up_to(id, faster), steps);
    }
}

/// The level, which isn't the slowest, waits for so many ticks less. A step at most.
fn lower_wait<L: Ledger>(demand: &mut Demand, level: u8, less: u32, steps: &mut Steps<L>)
    requires known { level + 1 < length demand.old.windows.periods }
    requires few { level < 255 }
    requires low { less ≤ slice_index demand.old.blocking level }
    ensures cells { demand.new ≡ record demand.old {
      blocking = by_level
          (at_level level (less_by less)) demand.old.blocking;
    } }
    ensures steps { steps.new ≤ steps.old + 1 }
{
    // A cell that is read fits its type.
    let _before = demand.blocking(level);
    if less > 0 {
        demand.lower_blocking(level..level + 1, less, steps);
    }
}

/// The row of the child, where it has one and hasn't been stopped.
fn running_child(threads: &Threads, id: ThreadId) -> Option<ThreadRow>
    ensures { result ≡ running_child threads.now id }
{
    if id.serial != 0 && threads.runs(id) {
        threads.find(id)
    } else {
        None
    }
}

impl AllTables {
    ghost use Rattle.std.specs.Prelude.{Some};
    ghost use Rattle.dk_threads.specs.declared.row.ThreadRow.{ThreadRow};
    ghost use Rattle.dk_recount.specs.Stopping.{MayShut, MayStopChild, child_of, delete_refusal_in, shut, without_child, without_running};
    ghost use Rattle.dk_dispatch.specs.Calls.{Makes};

    /// Closes the thread of the row, drops its wish and frees what it holds. At most five steps more
    /// than there are levels.
    pub(crate) fn shut<L: Ledger>(&mut self, row: ThreadRow, steps: &mut Steps<L>)
        requires { MayShut row self.old }
        ensures tables { self.new ≡ shut row self.old }
        ensures steps { steps.new ≤ steps.old + 5 + length self.old.kernel }
    {
        self.close_job(node_on(row), row.level, steps);
        free_levels(&mut self.demand, &self.mutexes, row.id, row.level, steps);
        self.mutexes.give_up(row.id);
    }

    /// Stops the child of the row.
    pub(crate) fn stop_child<L: Ledger>(&mut self, row: ThreadRow, steps: &mut Steps<L>)
        requires { MayStopChild row self.old }
        ensures tables { self.new ≡ without_child row self.old }
        ensures steps { steps.new ≤ steps.old + 5 + length self.old.kernel }
    {
        self.shut(row, steps);
        let windows = self.demand.windows();
        self.loans.stop(windows, row.id.process, row.id.serial);
        self.threads.stop(row.id, windows);
    }

    /// The delete by the tables. At most as many steps as there are levels, and five more.
    pub(crate) fn delete<L: Ledger>(
        &mut self,
        id: ThreadId,
        serial: u32,
        steps: &mut Steps<L>,
    ) -> Result<(), Refusal>
        requires { (row : ThreadRow) → running_child self.old.threads (child_of id serial) ≡ Some row
            → MayStopChild row self.old }
        ensures told { Makes result (delete_refusal_in self.old.threads id serial) self.old
            (without_running (child_of id serial) self.old) self.new }
        ensures steps { steps.new ≤ steps.old + 5 + length self.old.kernel }
    {
        if id.serial != 0 {
            return Err(Refusal::NotMain);
        }
        let child = ThreadId {
            process: id.process,
            serial,
        };
        match running_child(&self.threads, child) {
            Some(row) => {
                self.stop_child(row, steps);
                Ok(())
            },
            None => Err(Refusal::NoThread),
        }
    }
}
