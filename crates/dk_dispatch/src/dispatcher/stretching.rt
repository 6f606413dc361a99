//! Many ticks at once: the past before them tells that each goes to one choice, and the past after them has them all.
use super::Dispatcher;
use crate::tables::{Borrower, Runner};
use dk_past::Note;
use dk_recount::{
    charging_makes_the_recount, choice_is_the_pasts, computing_makes_the_recount,
    holds_are_the_pasts, lending_makes_the_recount, rows_are_the_pasts, wishes_are_the_pasts,
};
use dk_steps::Steps;
use dk_trace::{Choice, Phase, Source, ThreadId};
use dk_windows::windows_are_the_configurations;
use std::sync::ledger::Ledger;

impl Dispatcher {
    ghost use Rattle.std.specs.Prelude.{◌≡◌, ◌+◌, ◌<◌, ◌≤◌, IfSome, length};
    ghost use Rattle.dk_config.specs.declared.TheConstants.{MAX_TICKS};
    ghost use Rattle.dk_trace.specs.declared.Phase.{Phase};
    ghost use Rattle.dk_trace.specs.declared.Choice.{Choice};
    ghost use Rattle.dk_past.specs.Past.{Ready, later};
    ghost use Rattle.dk_dispatch.specs.Ticks.{Borrows, Goes, MayLend, MayRun, Runs};

    /// Ticks go by, all at once and at most so many, in which nobody has work or asks for slack and no window
    /// begins. Answers how many: 0 also where it is only not known that nobody has. They are below
    /// 4,000,000,000.
    pub fn rest(&mut self, most: u32) -> u32
        requires ready { self.old.past.tick ≡ Ready }
        requires room { length self.old.past.entries + most ≤ MAX_TICKS }
        ensures few { result ≤ most }
        ensures goes { Goes Choice.Idle result self.old.past }
        ensures past { self.new.past ≡ later Choice.Idle result self.old.past }
        ensures rows { self.new.threads ≡ self.old.threads }
    {
        let count = self.tables.rest(most);
        self.history = self.history.then(&Note::Ticks {
            choice: Choice::Idle,
            count,
        });
        count
    }

    /// Who has the next ticks, at most so many, before a window begins, where it is known that it computes in all
    /// of them and nobody holds a mutex. None also where it is only not known.
    #[inline(always)]
    pub fn run_ahead(&self, most: u32) -> Option<Runner>
        requires ready { self.now.past.tick ≡ Ready }
        requires room { length self.now.past.entries + most ≤ MAX_TICKS }
        ensures runs { IfSome result (λ runner. Runs runner self.now) }
        ensures few { IfSome result (λ runner. runner.ticks ≤ most) }
    {
        computing_makes_the_recount();
        rows_are_the_pasts();
        windows_are_the_configurations();
        self.tables.are_sound();
        self.tables.run_ahead(most)
    }

    /// So many ticks of the thread, which computes as long, go by at once. One step.
    pub fn run<L: Ledger>(&mut self, thread: ThreadId, ticks: u32, steps: &mut Steps<L>)
        requires ready { self.old.past.tick ≡ Ready }
        requires room { length self.old.past.entries + ticks ≤ MAX_TICKS }
        requires may { MayRun thread ticks self.old.past }
        requires some { 0 < ticks }
        ensures goes { Goes (Choice.Budget thread Phase.Body) ticks self.old.past }
        ensures past { self.new.past ≡ later (Choice.Budget thread Phase.Body) ticks self.old.past }
        ensures rows { self.new.threads ≡ self.old.threads }
        ensures steps { steps.new ≡ steps.old + 1 }
    {
        charging_makes_the_recount();
        choice_is_the_pasts();
        computing_makes_the_recount();
        holds_are_the_pasts();
        windows_are_the_configurations();
        self.tables.are_sound();
        self.tables.run(thread, ticks, steps);
        self.history = self.history.then(&Note::Ticks {
            choice: Choice::Budget {
                thread,
                phase: Phase::Body,
            },
            count: ticks,
        });
    }
    /// Who has the next ticks as slack, at most so many, before a window begins, where it is known that it has all of
    /// them and nobody holds a mutex. None also where it is only not known.
    #[inline(always)]
    pub fn lend_ahead(&self, most: u32) -> Option<Borrower>
        requires ready { self.now.past.tick ≡ Ready }
        requires room { length self.now.past.entries + most ≤ MAX_TICKS }
        ensures borrows { IfSome result (λ borrower. Borrows borrower self.now) }
        ensures few { IfSome result (λ borrower. borrower.ticks ≤ most) }
    {
        lending_makes_the_recount();
        rows_are_the_pasts();
        wishes_are_the_pasts();
        windows_are_the_configurations();
        self.tables.are_sound();
        self.tables.lend_ahead(most)
    }

    /// So many ticks of slack of the thread, which computes as long, go by at once.
    pub fn lend(&mut self, thread: ThreadId, source: Source, ticks: u32)
        requires ready { self.old.past.tick ≡ Ready }
        requires room { length self.old.past.entries + ticks ≤ MAX_TICKS }
        requires may { MayLend thread source ticks self.old.past }
        requires some { 0 < ticks }
        ensures goes { Goes (Choice.Slack thread source Phase.Body) ticks self.old.past }
        ensures past { self.new.past ≡ later (Choice.Slack thread source Phase.Body) ticks self.old.past }
        ensures rows { self.new.threads ≡ self.old.threads }
    {
        charging_makes_the_recount();
        choice_is_the_pasts();
        lending_makes_the_recount();
        holds_are_the_pasts();
        wishes_are_the_pasts();
        windows_are_the_configurations();
        self.tables.are_sound();
        self.tables.lend(thread, ticks);
        self.history = self.history.then(&Note::Ticks {
            choice: Choice::Slack {
                thread,
                source,
                phase: Phase::Body,
            },
            count: ticks,
        });
    }
}
