//! The clock moves on, and the next tick is opened: ends, starts, and the windows that begin. By the tables alone.
use super::AllTables;
use crate::levels::{begin_cells, begin_counts, begin_parts};
use crate::opening::begin_threads;
use dk_config::MAX_TICKS;
use dk_steps::Steps;
use std::sync::ledger::Ledger;

impl AllTables {
    ghost use Rattle.std.specs.Prelude.{◌≡◌, ◌+◌, ◌<◌, ◌≤◌, length, false};
    ghost use Rattle.dk_windows.specs.Clock.{begins_at};
    ghost use Rattle.dk_recount.specs.Tables.{HasFamilies, IsSound};
    ghost use Rattle.dk_recount.specs.Closing.{moved_on};
    ghost use Rattle.dk_recount.specs.Opening.{MayBegin, begin_steps, begun, due, open_steps, opened};

    /// Goes to the next tick, by the tables.
    pub(crate) fn close(&mut self)
        requires { self.old.demand.windows.tick < MAX_TICKS }
        ensures { self.new ≡ moved_on self.old }
    {
        self.demand.tick();
    }

    /// Each table looks at one level more, whether anybody has something to do there, so that `choose` need
    /// not look at all of them. Where it is found who stands first, the wishes are left for the next tick. At most
    /// three steps.
    #[inline(always)]
    fn settle<L: Ledger>(&mut self, steps: &mut Steps<L>)
        ensures same { self.new ≡ self.old }
        ensures steps { steps.new ≤ steps.old + 3 }
    {
        self.kernel.settle(steps);
        if !self.jobs.settle(steps) {
            self.slack.settle(steps);
        }
    }

    /// The ends, starts and releases of the present tick, which the close left, by the tables.
    #[inline(always)]
    pub(crate) fn open<L: Ledger>(&mut self, steps: &mut Steps<L>)
        requires levels { 0 < length self.old.demand.windows.periods }
        requires still { begins_at self.old.demand.windows 0 ≡ false → due self.old ≡ self.old }
        requires may { IsSound self.old → HasFamilies self.old → HasFamilies (due self.old) → MayBegin (due self.old) }
        ensures tables { self.new ≡ opened self.old }
        ensures sound { IsSound self.old }
        ensures before { HasFamilies self.old }
        ensures after { HasFamilies (due self.old) }
        ensures steps { steps.new ≤ steps.old + 3 + open_steps self.old }
    {
        self.begin_due(steps);
        self.settle(steps);
    }

    /// The windows that are due begin, and the tick is open. Nobody ends or starts where no window begins.
    #[inline(always)]
    fn begin_due<L: Ledger>(&mut self, steps: &mut Steps<L>)
        requires levels { 0 < length self.old.demand.windows.periods }
        requires still { begins_at self.old.demand.windows 0 ≡ false → due self.old ≡ self.old }
        requires may { IsSound self.old → HasFamilies self.old → HasFamilies (due self.old) → MayBegin (due self.old) }
        ensures tables { self.new ≡ opened self.old }
        ensures sound { IsSound self.old }
        ensures before { HasFamilies self.old }
        ensures after { HasFamilies (due self.old) }
        ensures steps { steps.new ≡ steps.old + open_steps self.old }
    {
        self.threads.rows_are_in_order();
        // The periods divide each other: where a window begins, one of the fastest level does.
        if self.demand.windows().begins(0) {
            self.move_and_begin(steps);
        }
    }

    /// The ends and starts of the present tick, and then the windows that begin at it.
    #[inline(never)]
    fn move_and_begin<L: Ledger>(&mut self, steps: &mut Steps<L>)
        requires { HasFamilies (due self.old) → MayBegin (due self.old) }
        ensures tables { self.new ≡ begun (due self.old) }
        ensures after { HasFamilies (due self.old) }
        ensures steps { steps.new ≡ steps.old + begin_steps (due self.old) }
    {
        self.move_due();
        self.threads.rows_are_in_order();
        self.begin(steps);
    }

    /// The children that are due end, their loans come back, and those start that are due.
    fn move_due(&mut self)
        ensures { self.new ≡ due self.old }
    {
        let now = self.demand.windows().now();
        self.threads.end_due(now);
        self.loans.give_back_due(now);
        self.threads.start_due(now);
    }

    /// The windows that begin at the present tick: of the kernel's own parts, of the levels' cells, of the
    /// unclaimed ticks, and of the threads.
    fn begin<L: Ledger>(&mut self, steps: &mut Steps<L>)
        requires { MayBegin self.old }
        ensures tables { self.new ≡ begun self.old }
        ensures steps { steps.new ≡ steps.old + begin_steps self.old }
    {
        let processes = self.rights.len() as u8;
        let levels = self.releases.len() as u8;
        let windows = self.demand.windows();
        begin_threads(
            &self.threads,
            &self.loans,
            windows,
            &mut self.jobs,
            &mut self.slack,
            processes,
            steps,
        );
        begin_parts(&mut self.kernel, &self.releases, windows);
        begin_counts(&mut self.slack, windows, levels);
        begin_cells(
            &self.threads,
            &self.loans,
            &self.releases,
            &mut self.demand,
            processes,
            steps,
        );
    }
}
