use dk_steps::Steps;
use dk_trace::Phase;
use std::marker::Model;
use std::sync::ledger::Ledger;

/// A thread's numbers in the current window of its level: its share, its budget ticks so far, those
/// of them that were of the switch out, and whether it is closed. All are ticks.
#[derive(Clone, Copy)]
pub struct Job {
    share: u32,
    // Wider, since a closed job may go past its share where switch costs differ between calls.
    used: u64,
    out_ticks: u32,
    closed: bool,
}

impl Model for Job {
    ghost use Rattle.std.specs.Prelude.{◌≤◌, ◌+◌};
    ghost use Rattle.dk_trace.specs.Jobs.{Job as Numbers};

    ghost Value = { Numbers };

    ghost view = { λ j. record { share = j.share; used = j.used; out_ticks = j.out_ticks; closed = j.closed } };

    ghost invariant = { λ j. (j.used ≤ j.share + j.out_ticks) × (j.out_ticks ≤ j.used) };

    ghost inverse = { λ j. record { share = j.share; used = j.used; out_ticks = j.out_ticks; closed = j.closed } };
}

impl Job {
    ghost use Rattle.std.specs.Prelude.{ℕ, ◌≡◌, ◌+◌, ◌-◌, ◌<◌, ◌≤◌, if◌then◌else◌, Some, None, ◌==◌};
    ghost use Rattle.dk_trace.specs.Jobs.{rem, body_left, phase};
    ghost use Rattle.dk_trace.specs.JobSteps.{closed, released, HasBody, spent, worked_for};

    /// A share of which nothing is used.
    pub fn released(share: u32) -> Job
        ensures { result ≡ released share }
    {
        Job {
            share,
            used: 0,
            out_ticks: 0,
            closed: false,
        }
    }

    /// Uses one budget tick, which counts as one of the switch out where that is the phase.
    /// `switch` is the cost of a switch.
    pub fn spend(&mut self, switch: u32)
        requires { 0 < rem switch self.old }
        ensures { self.new ≡ spent switch self.old }
    {
        if self.phase_of(switch) == Phase::Out {
            self.out_ticks += 1;
        }
        self.used += 1;
    }

    /// Uses one tick of the body, where the job has one next, whatever a switch costs.
    #[inline(always)]
    pub fn spend_in_body(&mut self)
        requires { self.old.used < self.old.share }
        ensures { (W : ℕ) → HasBody W 1 self.old → self.new ≡ spent W self.old }
    {
        self.used += 1;
    }

    /// Uses so many ticks of the body, where the job has them next.
    #[inline(always)]
    pub fn work_for(&mut self, ticks: u32)
        requires { self.old.used + ticks ≤ self.old.share }
        ensures { self.new ≡ worked_for ticks self.old }
    {
        self.used += ticks as u64;
    }

    /// Closes the job: after a wait or a stop it owes what is left of its switch out, or nothing
    /// where it had no tick.
    pub fn close(&mut self)
        ensures { self.new ≡ closed self.old }
    {
        self.closed = true;
    }

    /// The ticks that the thread still has. One step.
    pub fn rem<L: Ledger>(&self, switch: u32, steps: &mut Steps<L>) -> u32
        ensures value { result ≡ rem switch self.now }
        ensures steps { steps.new ≡ steps.old + 1 }
    {
        steps.tick();
        self.left(switch)
    }

    /// The ticks of the body that the thread still has. One step.
    pub fn body_left<L: Ledger>(&self, switch: u32, steps: &mut Steps<L>) -> u32
        ensures value { result ≡ body_left switch self.now }
        ensures steps { steps.new ≡ steps.old + 1 }
    {
        steps.tick();
        if self.closed {
            0
        } else {
            self.unused().saturating_sub(switch)
        }
    }

    /// A number of ticks that are of the body and come next, one after the other, and leave something of the
    /// share. It is 0 where the next tick is of another part. One step.
    pub fn body_ahead<L: Ledger>(&self, switch: u32, steps: &mut Steps<L>) -> u32
        ensures ahead { 0 < result → HasBody switch result self.now }
        ensures steps { steps.new ≡ steps.old + 1 }
    {
        steps.tick();
        if self.closed || self.used < switch as u64 {
            0
        } else {
            self.unused().saturating_sub(switch.max(1))
        }
    }

    /// The part of the share that the next tick belongs to, or `None` where nothing is left. One step.
    pub fn phase<L: Ledger>(&self, switch: u32, steps: &mut Steps<L>) -> Option<Phase>
        ensures value { result ≡ (if rem switch self.now == 0 then None else Some (phase switch self.now)) }
        ensures steps { steps.new ≡ steps.old + 1 }
    {
        steps.tick();
        if self.left(switch) == 0 {
            None
        } else {
            Some(self.phase_of(switch))
        }
    }

    fn unused(&self) -> u32
        ensures { result ≡ self.now.share - self.now.used }
    {
        (self.share as u64).saturating_sub(self.used) as u32
    }

    fn left(&self, switch: u32) -> u32
        ensures { result ≡ rem switch self.now }
    {
        if !self.closed {
            self.unused()
        } else if self.used == 0 {
            0
        } else {
            switch.saturating_sub(self.out_ticks)
        }
    }

    fn phase_of(&self, switch: u32) -> Phase
        ensures { result ≡ phase switch self.now }
    {
        if self.closed {
            Phase::Out
        } else if self.used < switch as u64 {
            Phase::In
        } else if self.used < self.share.saturating_sub(switch) as u64 {
            Phase::Body
        } else {
            Phase::Out
        }
    }
}
