//! Many ticks at once of a thread that computes while nobody holds a mutex, by the tables.
use super::AllTables;
use crate::node::slot_of;
use dk_recount::{
    callers_have_rows, choice_is_the_pasts, computing_makes_the_recount, holds_are_the_pasts,
    workers_are_the_pasts,
};
use dk_steps::Steps;
use dk_trace::ThreadId;
use std::sync::ledger::Ledger;

/// A thread that computes for so many ticks while nobody holds a mutex.
#[derive(Clone, Copy)]
pub struct Runner {
    pub thread: ThreadId,
    /// Its slot in its process.
    pub slot: u8,
    pub ticks: u32,
}

impl AllTables {
    ghost use Rattle.std.specs.Prelude.{◌≡◌, ◌+◌, ◌<◌, ◌≤◌, IfSome, Some, length};
    ghost use Rattle.dk_config.specs.declared.TheConstants.{MAX_TICKS};
    ghost use Rattle.dk_trace.specs.declared.Phase.{Phase};
    ghost use Rattle.dk_trace.specs.declared.Choice.{Choice};
    ghost use Rattle.dk_trace.specs.JobSteps.{HasBody};
    ghost use Rattle.dk_ready.specs.Roster.{seat_at};
    ghost use Rattle.dk_recount.specs.Tables.{node_in};
    ghost use Rattle.dk_recount.specs.Charging.{OwnsFront, level_in};
    ghost use Rattle.dk_recount.specs.Stretching.{EndsAfter, HasRoomFor, MayComputeFor, MayRun, Passes, computed};
    ghost use Rattle.dk_dispatch.specs.Leading.{Runs};

    /// Who has the next ticks, at most so many, before a window begins, where it is known that it computes in all
    /// of them and nobody holds a mutex. None also where it is only not known.
    #[inline(always)]
    pub fn run_ahead(&self, most: u32) -> Option<Runner>
        requires { HasRoomFor most self.now }
        ensures runs { IfSome result (λ runner. Runs runner self.now) }
        ensures few { IfSome result (λ runner. runner.ticks ≤ most) }
    {
        callers_have_rows();
        choice_is_the_pasts();
        holds_are_the_pasts();
        workers_are_the_pasts();
        self.threads.rows_are_in_order();
        let ahead = self.jobs.first_ahead()?;
        let first = ahead.first;
        if !self.mutexes.are_free()
            || self.mutexes.quiet() <= first.level
            || self.kernel.quiet() <= first.level as usize
            || self.slack.quiet() < first.level as u32
        {
            return None;
        }
        let most = self.before_window(most.min(ahead.ticks))?;
        Some(Runner {
            thread: first.thread,
            slot: slot_of(first.node),
            ticks: most,
        })
    }

    /// So many ticks of the thread, which computes as long, go by at once. One step.
    pub fn run<L: Ledger>(&mut self, thread: ThreadId, ticks: u32, steps: &mut Steps<L>)
        requires may { MayRun thread ticks self.old }
        requires some { 0 < ticks }
        ensures passes { Passes (Choice.Budget thread Phase.Body) ticks self.old self.new }
        ensures steps { steps.new ≡ steps.old + 1 }
    {
        computing_makes_the_recount();
        workers_are_the_pasts();
        self.threads.rows_are_in_order();
        self.compute(thread, ticks, steps);
    }

    fn compute<L: Ledger>(&mut self, thread: ThreadId, ticks: u32, steps: &mut Steps<L>)
        requires front { OwnsFront thread self.old }
        requires node { node_in self.old.threads thread < length self.old.jobs.seats }
        requires body { HasBody self.old.jobs.switch ticks (seat_at self.old.jobs (node_in self.old.threads thread)).job }
        requires may { MayComputeFor thread ticks self.old }
        requires room { self.old.demand.windows.tick + ticks ≤ MAX_TICKS }
        requires within { EndsAfter ticks self.old }
        ensures tables { self.new ≡ computed thread ticks self.old }
        ensures steps { steps.new ≡ steps.old + 1 }
    {
        let seat = self.seat_of(thread);
        self.jobs.spend_for(seat.node, ticks);
        self.demand.dropped(seat.level, ticks as u64, steps);
        self.demand.pass(ticks);
        self.slack.count_for(Some(seat.level), ticks);
    }
}
