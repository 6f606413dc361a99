//! Who has the next tick, and where slack is denied, by the tables: level by level, the first work and the oldest wish.
use super::AllTables;
use dk_steps::Steps;
use dk_trace::{Choice, Phase};
use std::sync::ledger::Ledger;

/// The first level that has work, and who does it: nobody, at the end of the levels, where there is none.
#[derive(Clone, Copy)]
struct FirstWork {
    level: usize,
    choice: Choice,
}

impl AllTables {
    ghost use Rattle.std.specs.Prelude.{◌≡◌, ◌+◌, ◌*◌, ◌<◌, ◌≤◌, MatchOption, length};
    ghost use Rattle.dk_recount.specs.Choosing.{HasNoWish, HasNoWork, budget_of, choice_of, denial_of, first_worker, loan_of, work_in};
    ghost use Rattle.dk_dispatch.specs.Levels.{IsFirstWish, IsFirstWork};

    /// The choice by the tables: the work of the first level that has any, unless a faster level asks for
    /// slack and it fits. Whether it fits is worked out only where somebody asks.
    #[inline(always)]
    pub(crate) fn choose<L: Ledger>(&self, steps: &mut Steps<L>) -> Choice
        ensures told { result ≡ choice_of self.now }
        ensures steps { steps.new ≤ steps.old + 4 * length self.now.kernel }
    {
        let work = self.first_work(steps);
        if let Some(node) = self.first_wish(work.level, steps) {
            if self.demand.first_unfit().is_none() {
                return self.on_slack(node);
            }
        }
        work.choice
    }

    /// The work of the first level that has any: the kernel's own, then a holder's, then a thread's.
    #[inline(always)]
    fn first_work<L: Ledger>(&self, steps: &mut Steps<L>) -> FirstWork
        ensures told { IsFirstWork self.now result }
        ensures steps { steps.new ≤ steps.old + 3 * length self.now.kernel }
    {
        if let Some(first) = self.jobs.first() {
            if self.kernel.quiet() > first.level as usize && self.mutexes.quiet() > first.level {
                return FirstWork {
                    level: first.level as usize,
                    choice: Choice::Budget {
                        thread: first.thread,
                        phase: Phase::Body,
                    },
                };
            }
        }
        self.search_work(steps)
    }

    /// The work of the first level that has any, from the first on that may have some.
    #[inline(always)]
    fn search_work<L: Ledger>(&self, steps: &mut Steps<L>) -> FirstWork
        ensures told { IsFirstWork self.now result }
        ensures steps { steps.new ≤ steps.old + 3 * length self.now.kernel }
    {
        for level in self.quiet()..self.kernel.len() {
            if let Some(choice) = self.work_at(level as u8, steps) {
                return FirstWork { level, choice };
            }
        }
        FirstWork {
            level: self.kernel.len(),
            choice: Choice::Idle,
        }
    }

    /// A level before which nobody has work. It need not be the last such level.
    #[inline(always)]
    pub(super) fn quiet(&self) -> usize
        ensures within { result ≤ length self.now.kernel }
        ensures quiet { HasNoWork self.now result }
    {
        let threads = self.jobs.quiet() as usize;
        let holders = self.mutexes.quiet() as usize;
        self.kernel.quiet().min(threads).min(holders)
    }

    /// The node of the oldest wish at the first level before the end that has any.
    fn first_wish<L: Ledger>(&self, end: usize, steps: &mut Steps<L>) -> Option<u32>
        requires { end ≤ length self.now.kernel }
        ensures told { MatchOption result (HasNoWish self.now end) (IsFirstWish self.now end) }
        ensures steps { steps.new ≤ steps.old + end }
    {
        let first = (self.slack.quiet() as usize).min(end);
        for level in first..end {
            if let Some(node) = self.slack.front(level as u8, steps) {
                return Some(node);
            }
        }
        None
    }

    /// The work of the level, if there is any.
    #[inline(always)]
    fn work_at<L: Ledger>(&self, level: u8, steps: &mut Steps<L>) -> Option<Choice>
        requires { level < length self.now.kernel }
        ensures told { result ≡ work_in self.now level }
        ensures steps { steps.new ≤ steps.old + 3 }
    {
        if self.kernel.left(level, steps) > 0 {
            return Some(Choice::Kernel(level));
        }
        let node = self.worker_at(level, steps)?;
        Some(self.on_budget(node, steps))
    }

    /// The node that works first at the level: the holder's that runs there, else the first of the ready queue.
    #[inline(always)]
    fn worker_at<L: Ledger>(&self, level: u8, steps: &mut Steps<L>) -> Option<u32>
        requires { level < length self.now.kernel }
        ensures told { result ≡ first_worker self.now level }
        ensures steps { steps.new ≤ steps.old + 1 }
    {
        match self.mutexes.holder_at(level) {
            Some(id) => Some(self.node_of(id)),
            None => self.jobs.front(level, steps),
        }
    }

    #[inline(always)]
    fn on_budget<L: Ledger>(&self, node: u32, steps: &mut Steps<L>) -> Choice
        ensures told { result ≡ budget_of self.now.jobs node }
        ensures steps { steps.new ≤ steps.old + 1 }
    {
        match self.jobs.phase(node, steps) {
            Some(phase) => Choice::Budget {
                thread: self.jobs.thread(node),
                phase,
            },
            None => Choice::Idle,
        }
    }

    fn on_slack(&self, node: u32) -> Choice
        ensures { result ≡ loan_of self.now node }
    {
        let phase = if self.slack.entering(node) {
            Phase::In
        } else {
            Phase::Body
        };
        Choice::Slack {
            thread: self.jobs.thread(node),
            source: self.slack.source(),
            phase,
        }
    }

    /// The level that slack is denied for by the tables.
    pub(crate) fn denial<L: Ledger>(&self, steps: &mut Steps<L>) -> Option<u8>
        ensures told { result ≡ denial_of self.now }
        ensures steps { steps.new ≤ steps.old + 4 * length self.now.kernel }
    {
        let work = self.first_work(steps);
        match self.first_wish(work.level, steps) {
            Some(_) => self.demand.first_unfit(),
            None => None,
        }
    }
}
