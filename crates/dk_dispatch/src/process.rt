//! A thread exits or faults, and a main stops its whole process with its loans and shares. By the tables alone.
ghost use Rattle.std.specs.Prelude.{ℕ, ◌≡◌, ◌+◌, ◌*◌, ◌<◌, ◌≤◌, length, slice_index};
ghost use Rattle.dk_budget.specs.Shares.{future_shares};
ghost use Rattle.dk_demand.specs.Levels.{at_level, by_level, less};
ghost use Rattle.dk_recount.specs.Process.{cells_lost};

use crate::tables::AllTables;
use dk_budget::Loans;
use dk_config::MAX_CHILDREN;
use dk_demand::Demand;
use dk_steps::Steps;
use dk_threads::{State, ThreadRow};
use dk_trace::ThreadId;
use std::sync::ledger::Ledger;

/// The level needs so many ticks less before its window ends. A step.
fn lower_need<L: Ledger>(demand: &mut Demand, level: u8, lost: u64, steps: &mut Steps<L>)
    requires known { level < length demand.old.windows.periods }
    requires low { lost ≤ slice_index demand.old.remaining level }
    ensures cells { demand.new ≡ record demand.old {
      remaining = by_level
          (at_level level (less lost)) demand.old.remaining;
    } }
    ensures steps { steps.new ≡ steps.old + 1 }
{
    // A cell that is read fits its type.
    let _before = demand.remaining(level);
    demand.lower_remaining(level, lost, steps);
}

/// No level needs the shares to come of the process any longer. A step for each level.
fn lose_shares<L: Ledger>(
    demand: &mut Demand,
    loans: &Loans,
    process: u8,
    levels: u8,
    steps: &mut Steps<L>,
)
    requires known { process < length loans.now.lenders }
    requires same_levels { demand.old.windows.periods ≡ loans.now.periods }
    requires levels { levels ≡ length demand.old.windows.periods }
    requires each { length demand.old.remaining ≡ length demand.old.windows.periods }
    requires low { (j : ℕ) → j < levels
        → future_shares loans.now demand.old.windows process j ≤ slice_index demand.old.remaining j }
    ensures cells { demand.new ≡ cells_lost loans.now process demand.old }
    ensures steps { steps.new ≤ steps.old + levels }
{
    for level in 0..levels {
        let lost = loans.future_shares(demand.windows(), process, level);
        lower_need(demand, level, lost, steps);
    }
}

impl AllTables {
    ghost use Rattle.std.specs.Prelude.{◌≡◌, Some};
    ghost use Rattle.dk_threads.specs.declared.row.ThreadRow.{ThreadRow};
    ghost use Rattle.dk_threads.specs.Table.{children_at, find_row};
    ghost use Rattle.dk_recount.specs.Process.{MayShutAll, MayStop, MayStopProcess, running_at, running_children, shut_all, stop_steps, without_process, without_thread};

    /// Shuts the children of the process that haven't been stopped. Five steps more than there are levels,
    /// at most, for each of them.
    fn shut_children<L: Ledger>(&mut self, process: u8, steps: &mut Steps<L>)
        requires few { length (children_at self.old.threads process) ≤ MAX_CHILDREN }
        requires may { MayShutAll (running_children self.old.threads process) self.old }
        ensures tables { self.new ≡ shut_all (running_children self.old.threads process) self.old }
        ensures steps { steps.new ≤ steps.old + (5 + length self.old.kernel) * length
            (running_children self.old.threads process) }
    {
        for index in 0..MAX_CHILDREN as u8 {
            self.shut_child(process, index, steps);
        }
    }

    /// Shuts the child at that place, if there is one that hasn't been stopped.
    fn shut_child<L: Ledger>(&mut self, process: u8, index: u8, steps: &mut Steps<L>)
        requires may { MayShutAll (running_at (children_at self.old.threads process) index) self.old }
        ensures tables { self.new ≡ shut_all (running_at (children_at self.old.threads process) index) self.old }
        ensures steps { steps.new ≤ steps.old + (5 + length self.old.kernel) * length
            (running_at (children_at self.old.threads process) index) }
    {
        if let Some(row) = self.threads.child(process, index) {
            if !matches!(row.state, State::Stopped) {
                self.shut(row, steps);
            }
        }
    }

    /// Stops the process of the main of that row: the main, and its children that haven't been stopped.
    /// For each of them at most five steps more than there are levels, and one more for each level.
    pub(crate) fn stop_family<L: Ledger>(&mut self, main: ThreadRow, steps: &mut Steps<L>)
        requires { MayStopProcess main self.old }
        ensures tables { self.new ≡ without_process main self.old }
        ensures steps { steps.new ≤ steps.old + (5 + length self.old.kernel)
            * (1 + length (running_children self.old.threads main.id.process)) + length self.old.kernel }
    {
        let process = main.id.process;
        self.shut(main, steps);
        self.shut_children(process, steps);
        let levels = self.kernel.len() as u8;
        lose_shares(&mut self.demand, &self.loans, process, levels, steps);
        let windows = self.demand.windows();
        self.loans.stop_process(windows, process);
        self.threads.stop_process(process, windows);
    }

    /// The stop by the tables.
    pub(crate) fn stop<L: Ledger>(&mut self, id: ThreadId, steps: &mut Steps<L>)
        requires { (row : ThreadRow) → find_row self.old.threads id ≡ Some row → MayStop id row self.old }
        ensures tables { self.new ≡ without_thread id self.old }
        ensures steps { steps.new ≤ steps.old + stop_steps id self.old }
    {
        if let Some(row) = self.threads.find(id) {
            if id.serial == 0 {
                self.stop_family(row, steps);
            } else {
                self.stop_child(row, steps);
            }
        }
    }
}
