//! The tick is booked to whoever is chosen, by the tables: its job, holds and demand, and the unclaimed ticks.
ghost use Rattle.std.specs.Prelude.{ℕ, ◌≡◌, ◌+◌, ◌<◌, ◌≤◌, false, length, map, slice_index};
ghost use Rattle.dk_mutex.specs.Rows.{spent};
ghost use Rattle.dk_mutex.specs.Table.{effective_level, holds_within};
ghost use Rattle.dk_demand.specs.Cells.{held_cells};

use super::AllTables;
use dk_demand::Demand;
use dk_mutex::Mutexes;
use dk_ready::First;
use dk_steps::Steps;
use dk_trace::{Choice, ThreadId};
use std::sync::ledger::Ledger;

impl AllTables {
    ghost use Rattle.std.specs.Prelude.{◌*◌};
    ghost use Rattle.dk_trace.specs.declared.Phase.{Phase};
    ghost use Rattle.dk_trace.specs.declared.Source.{Source};
    ghost use Rattle.dk_trace.specs.declared.Choice.{Choice};
    ghost use Rattle.dk_recount.specs.Charging.{MayBudget, MayCharge, MayCount, MayKernel, MaySlack, OwnsFront, charged, counts};
    ghost use Rattle.dk_dispatch.specs.Levels.{IsSeatOf};

    /// Books the tick to the choice in the tables, with its event open. At most three steps, and two for each level.
    #[inline(always)]
    pub(crate) fn charge<L: Ledger>(&mut self, choice: Choice, steps: &mut Steps<L>)
        requires { MayCharge choice self.old }
        ensures tables { self.new ≡ charged choice self.old }
        ensures steps { steps.new ≤ steps.old + 3 + 2 * length self.old.kernel }
    {
        match choice {
            Choice::Kernel(level) => self.charge_kernel(level, steps),
            Choice::Budget { thread, .. } => self.charge_budget(thread, steps),
            Choice::Slack { thread, .. } => self.charge_slack(thread, steps),
            Choice::Idle => self.count(None),
        }
    }

    #[inline(always)]
    fn charge_kernel<L: Ledger>(&mut self, level: u8, steps: &mut Steps<L>)
        requires { MayKernel level self.old }
        ensures tables { self.new ≡ charged (Choice.Kernel level) self.old }
        ensures steps { steps.new ≤ steps.old + 1 + length self.old.kernel }
    {
        self.kernel.spend(level);
        self.demand.spent(level, steps);
        self.count(Some(level));
    }

    #[inline(always)]
    fn charge_budget<L: Ledger>(&mut self, id: ThreadId, steps: &mut Steps<L>)
        requires { MayBudget id self.old }
        ensures tables { (phase : Phase) → self.new ≡ charged (Choice.Budget id phase) self.old }
        ensures steps { steps.new ≤ steps.old + 3 + 2 * length self.old.kernel }
    {
        let seat = self.seat_of(id);
        self.jobs.spend(seat.node, steps);
        self.demand.spent(seat.level, steps);
        spend_holds(&mut self.mutexes, &mut self.demand, id, seat.level, steps);
        self.slack.count(Some(seat.level));
    }

    /// Where the thread sits, and its level. Mostly it is the one that stands first of all that are ready.
    #[inline(always)]
    pub(super) fn seat_of(&self, id: ThreadId) -> First
        requires { OwnsFront id self.now }
        ensures { IsSeatOf self.now id result }
    {
        if let Some(first) = self.jobs.first() {
            if first.thread.is_same(id) {
                return first;
            }
        }
        let node = self.node_of(id);
        First {
            node,
            level: self.jobs.level(node),
            thread: id,
        }
    }

    #[inline(always)]
    fn charge_slack<L: Ledger>(&mut self, id: ThreadId, steps: &mut Steps<L>)
        requires { MaySlack id self.old }
        ensures tables { (source : Source) (phase : Phase)
            → self.new ≡ charged (Choice.Slack id source phase) self.old }
        ensures steps { steps.new ≤ steps.old + 1 }
    {
        self.demand.foresee();
        let node = self.node_of(id);
        self.slack.spend(node, steps);
        self.mutexes.spend(id);
        self.count(None);
    }

    /// The tick counts as one on budget of the level, or of none.
    #[inline(always)]
    fn count(&mut self, level: Option<u8>)
        requires { MayCount level self.old.slack }
        ensures { self.new ≡ record self.old { slack = counts level self.old.slack } }
    {
        self.slack.count(level);
    }
}

/// A tick of the thread, of the level: it has one tick less left of each mutex that it holds, and can keep faster
/// levels waiting for one less. Mostly it is the thread that runs first of the holders: then no row is asked.
#[inline(always)]
fn spend_holds<L: Ledger>(
    mutexes: &mut Mutexes,
    demand: &mut Demand,
    id: ThreadId,
    level: u8,
    steps: &mut Steps<L>,
)
    requires known { level < length demand.old.windows.periods }
    requires holds { holds_within id 0 mutexes.old ≡ false }
    requires blocks { (j : ℕ) → effective_level id level mutexes.old ≤ j → j < level
        → 1 ≤ slice_index demand.old.blocking j }
    ensures mutexes { mutexes.new ≡ map (spent id) mutexes.old }
    ensures demand { demand.new ≡ held_cells level (effective_level id level mutexes.old) 1 0 demand.old }
    ensures steps { steps.new ≤ steps.old + level }
{
    if !mutexes.are_free() {
        let first = spend_first(mutexes, id, level);
        demand.lower_blocking(first..level, 1, steps);
    }
}

/// The same of the mutexes alone. Answers the level at which the thread runs, which is of the level.
#[inline(always)]
fn spend_first(mutexes: &mut Mutexes, id: ThreadId, level: u8) -> u8
    requires { holds_within id 0 mutexes.old ≡ false }
    ensures level { result ≡ effective_level id level mutexes.old }
    ensures mutexes { mutexes.new ≡ map (spent id) mutexes.old }
{
    match mutexes.spend_first(id) {
        Some(first) => first,
        None => spend_other(mutexes, id, level),
    }
}

/// Where another thread runs first of the holders, or nobody does.
#[inline(never)]
fn spend_other(mutexes: &mut Mutexes, id: ThreadId, level: u8) -> u8
    requires { holds_within id 0 mutexes.old ≡ false }
    ensures level { result ≡ effective_level id level mutexes.old }
    ensures mutexes { mutexes.new ≡ map (spent id) mutexes.old }
{
    let first = mutexes.effective_level(id, level);
    mutexes.spend(id);
    first
}
