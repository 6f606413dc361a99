//! Some ticks of a kernel in one go.
use super::Kernel;
use crate::stretch::Stretch;
use dk_config::MAX_TICKS;
use dk_steps::Steps;
use dk_trace::{Label, Work};
use std::sync::ledger::Ledger;

impl Kernel {
    ghost use Rattle.std.specs.Prelude.{◌≡◌, ◌+◌, ◌≤◌, ◌++◌, IfSome, MatchOption, None, replicate};
    ghost use Rattle.dk_config.specs.Checked.{IsAccepted, IsChecked};
    ghost use Rattle.dk_trace.specs.declared.Label.{Label};
    ghost use Rattle.dk_trace.specs.Entries.{quiet};
    ghost use Rattle.dk_kernel.specs.Running.{trace_of};
    ghost use Rattle.dk_kernel.specs.Stretches.{IsComputed, entries_of};

    /// Does some ticks all at once, at most so many, where what the newest tick was makes that likely: a thread that
    /// computes goes on or begins, and ticks of slack and of nobody come together. They all have one label and no event,
    /// and are as so many calls of `tick`. None where it can't, or it is only not known, and then nothing has changed:
    /// the next one is a `tick`.
    #[inline(always)]
    pub fn at_once<L: Ledger>(&mut self, most: u32, steps: &mut Steps<L>) -> Option<Stretch>
        requires { self.old.ticks + most ≤ MAX_TICKS }
        ensures some { IfSome result (λ stretch. 1 ≤ stretch.count) }
        ensures few { IfSome result (λ stretch. stretch.count ≤ most) }
        ensures next { MatchOption result (self.new ≡ self.old)
            (λ stretch. self.new ≡ record self.old { ticks = self.old.ticks + stretch.count }) }
        ensures entries { IfSome result (λ stretch. trace_of self.new ≡ entries_of stretch ++ trace_of self.old) }
        ensures computes { IfSome result IsComputed }
        ensures checked { IsChecked self.new.config }
        ensures accepted { IsAccepted self.new.config }
        ensures steps { steps.new ≤ steps.old + 1 }
        ensures still { result ≡ None → steps.new ≡ steps.old }
    {
        let stretch = match self.newest.label {
            Label::Run(_) | Label::In(_) => self.work(most, steps),
            Label::Slack {
                work: Work::Run,
                ..
            } => self.lend(most),
            Label::Idle => self.idle(most),
            _ => None,
        };
        self.keeps_laws();
        stretch
    }

    /// Nobody's ticks. None where there are none, or it is only not known.
    fn idle(&mut self, most: u32) -> Option<Stretch>
        requires { self.old.ticks + most ≤ MAX_TICKS }
        ensures some { IfSome result (λ stretch. 1 ≤ stretch.count) }
        ensures few { IfSome result (λ stretch. stretch.count ≤ most) }
        ensures next { MatchOption result (self.new ≡ self.old)
            (λ stretch. self.new ≡ record self.old { ticks = self.old.ticks + stretch.count }) }
        ensures entries { IfSome result (λ stretch. trace_of self.new ≡ entries_of stretch ++ trace_of self.old) }
        ensures computes { IfSome result IsComputed }
    {
        let count = self.rest(most);
        if count == 0 {
            return None;
        }
        Some(Stretch {
            label: Label::Idle,
            count,
            event: None,
        })
    }

    /// Ticks in which nobody has anything to do go by, all at once and at most so many. Answers how many.
    fn rest(&mut self, most: u32) -> u32
        requires { self.old.ticks + most ≤ MAX_TICKS }
        ensures few { result ≤ most }
        ensures next { self.new ≡ record self.old { ticks = self.old.ticks + result } }
        ensures entries { trace_of self.new ≡ replicate result (quiet Label.Idle) ++ trace_of self.old }
    {
        let count = self.tables.rest(most);
        self.ticks += count;
        count
    }

    /// Ticks of a thread that computes while nobody holds a mutex go by, at most so many and before its next kernel
    /// call or fault: its image alone is stepped, and then the tables are told of all of them. None where nobody
    /// does, or it is only not known, and then nothing has changed.
    #[inline(always)]
    fn work<L: Ledger>(&mut self, most: u32, steps: &mut Steps<L>) -> Option<Stretch>
        requires { self.old.ticks + most ≤ MAX_TICKS }
        ensures some { IfSome result (λ worked. 1 ≤ worked.count) }
        ensures few { IfSome result (λ worked. worked.count ≤ most) }
        ensures next { MatchOption result (self.new ≡ self.old)
            (λ worked. self.new ≡ record self.old { ticks = self.old.ticks + worked.count }) }
        ensures entries { IfSome result (λ worked. trace_of self.new ≡ entries_of worked ++ trace_of self.old) }
        ensures computes { IfSome result IsComputed }
        ensures steps { steps.new ≤ steps.old + 1 }
        ensures still { result ≡ None → steps.new ≡ steps.old }
    {
        let cost = self.cost();
        let runner = self.tables.run_ahead(most)?;
        let process = runner.thread.process as usize;
        let count = self.images[process].run(runner.slot, cost, runner.ticks);
        if count == 0 {
            return None;
        }
        self.tables.run(runner.thread, count, steps);
        self.ticks += count;
        Some(Stretch {
            label: Label::Run(runner.thread),
            count,
            event: None,
        })
    }

    /// Ticks of slack of a thread go by, as those of its budget by `work`: at most so many, before its next kernel call
    /// or fault, and so that something of its wish is left after them. None where it has none, or it is only not known.
    #[inline(always)]
    fn lend(&mut self, most: u32) -> Option<Stretch>
        requires { self.old.ticks + most ≤ MAX_TICKS }
        ensures some { IfSome result (λ lent. 1 ≤ lent.count) }
        ensures few { IfSome result (λ lent. lent.count ≤ most) }
        ensures next { MatchOption result (self.new ≡ self.old)
            (λ lent. self.new ≡ record self.old { ticks = self.old.ticks + lent.count }) }
        ensures entries { IfSome result (λ lent. trace_of self.new ≡ entries_of lent ++ trace_of self.old) }
        ensures computes { IfSome result IsComputed }
    {
        let cost = self.cost();
        let borrower = self.tables.lend_ahead(most)?;
        let process = borrower.thread.process as usize;
        let count = self.images[process].run(borrower.slot, cost, borrower.ticks);
        if count == 0 {
            return None;
        }
        self.tables.lend(borrower.thread, borrower.source, count);
        self.ticks += count;
        Some(Stretch {
            label: Label::Slack {
                thread: borrower.thread,
                source: borrower.source,
                work: Work::Run,
            },
            count,
            event: None,
        })
    }

    /// The ticks of a kernel call.
    fn cost(&self) -> u8
        ensures cost { result ≡ self.now.config.costs.call }
        ensures some { 1 ≤ result }
    {
        self.tables.entries_follow();
        self.config.costs.call as u8
    }
}
