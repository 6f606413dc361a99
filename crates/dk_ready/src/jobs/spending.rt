ghost use Rattle.std.specs.Prelude.{◌<◌, ◌≤◌, ◌+◌, IfSome, get_or};
ghost use Rattle.dk_trace.specs.JobSteps.{HasBody};
ghost use Rattle.dk_ready.specs.First.{IsSeated};
ghost use Rattle.dk_ready.specs.Roster.{vacant};

use super::Jobs;
use crate::first::{Ahead, First};
use crate::seat::Seat;
use dk_rail::Waiting;
use dk_steps::Steps;
use std::sync::ledger::Ledger;

impl Jobs {
    ghost use Rattle.std.specs.Prelude.{◌≡◌, ◌+◌, ◌<◌, ◌≤◌, IsSome, if◌then◌else◌, length};
    ghost use Rattle.dk_rail.specs.Queues.{holder};
    ghost use Rattle.dk_trace.specs.Jobs.{rem};
    ghost use Rattle.dk_trace.specs.JobSteps.{HasBody};
    ghost use Rattle.dk_ready.specs.Roster.{seat_at, spent_for, spent_on};
    ghost use Rattle.dk_ready.specs.First.{IsComputing, IsComputingFor};

    /// Who stands first of all queues, where it is known and computes in its next tick.
    #[inline(always)]
    pub fn first(&self) -> Option<First>
        ensures { IfSome result (IsComputing self.now) }
    {
        if self.body > 0 { self.first } else { None }
    }

    /// Who stands first of all queues, and for how many ticks it computes, one after the other, and then still has
    /// something left, where that is known.
    #[inline(always)]
    pub fn first_ahead(&self) -> Option<Ahead>
        ensures { IfSome result (λ ahead. IsComputingFor self.now ahead.ticks ahead.first) }
    {
        if self.body > 0 {
            let first = self.first?;
            return Some(Ahead {
                first,
                ticks: self.body,
            });
        }
        None
    }

    /// The node uses so many ticks of its body, after which something is left.
    #[inline(always)]
    pub fn spend_for(&mut self, node: u32, ticks: u32)
        requires node { node < length self.old.seats }
        requires body { HasBody self.old.switch ticks (seat_at self.old node).job }
        ensures { self.new ≡ spent_for node ticks self.old }
    {
        self.seats[node as usize].job.work_for(ticks);
        self.body = match self.first {
            Some(first) if first.node == node => self.body.saturating_sub(ticks),
            _ => 0,
        };
    }

    /// The node uses one budget tick, and leaves its queue where nothing is left of its share. At most
    /// two steps.
    #[inline(always)]
    pub fn spend<L: Ledger>(&mut self, node: u32, steps: &mut Steps<L>)
        requires node { node < length self.old.seats }
        requires left { 0 < rem self.old.switch (seat_at self.old node).job }
        requires queued { IsSome (holder self.old.ready.lists node) }
        ensures seat { self.new ≡ spent_on node self.old }
        ensures steps { steps.new ≤ steps.old + 2 }
    {
        match self.first {
            Some(first) if self.body > 0 && first.node == node => {
                self.seats[node as usize].job.spend_in_body();
                self.body -= 1;
            }
            _ => self.spend_in_phase(node, steps),
        }
    }

    /// The node uses a tick of whatever part is next. If it stands first and stays there, it is asked for how
    /// many ticks more it computes.
    #[inline(always)]
    fn spend_in_phase<L: Ledger>(&mut self, node: u32, steps: &mut Steps<L>)
        requires node { node < length self.old.seats }
        requires left { 0 < rem self.old.switch (seat_at self.old node).job }
        requires queued { IsSome (holder self.old.ready.lists node) }
        ensures seat { self.new ≡ spent_on node self.old }
        ensures steps { steps.new ≤ steps.old + 2 }
    {
        let switch = self.switch;
        self.body = 0;
        let seat = &mut self.seats[node as usize];
        seat.job.spend(switch);
        if seat.job.rem(switch, steps) == 0 {
            self.first = None;
            self.ready.unlink(node, steps);
        } else if let Some(first) = self.first {
            if first.node == node {
                self.body = seat.job.body_ahead(switch, steps);
            }
        }
    }

    /// Where it isn't known who stands first, looks at one level more for `quiet`. Answers whether somebody was found:
    /// then at most two steps, else one.
    #[inline(always)]
    pub fn settle<L: Ledger>(&mut self, steps: &mut Steps<L>) -> bool
        ensures same { self.new ≡ self.old }
        ensures steps { steps.new ≤ steps.old + (if result then 2 else 1) }
    {
        self.first.is_none() && self.look(steps)
    }

    /// Looks at one level more for who stands first, and for how many ticks that one computes.
    fn look<L: Ledger>(&mut self, steps: &mut Steps<L>) -> bool
        ensures same { self.new ≡ self.old }
        ensures steps { steps.new ≤ steps.old + (if result then 2 else 1) }
    {
        self.first = match self.ready.settle(steps) {
            Some(waiting) => first_of(&self.seats, waiting),
            None => None,
        };
        match self.first {
            Some(first) => {
                self.body = body_of(&self.seats, first.node, self.switch, steps);
                true
            }
            None => {
                self.body = 0;
                false
            }
        }
    }
}

/// For how many ticks the node computes, one after the other, and then still has something left. One step.
#[inline(always)]
fn body_of<L: Ledger>(seats: &[Seat], node: u32, switch: u32, steps: &mut Steps<L>) -> u32
    ensures ahead { 0 < result → HasBody switch result (get_or seats.now node vacant).job }
    ensures steps { steps.new ≤ steps.old + 1 }
{
    match seats.get(node as usize) {
        Some(seat) => seat.job.body_ahead(switch, steps),
        None => 0,
    }
}

/// Who sits on the node that waits, where that one's level is the one at which it waits.
#[inline(always)]
fn first_of(seats: &[Seat], waiting: Waiting) -> Option<First>
    ensures { IfSome result (IsSeated seats.now waiting) }
{
    if let Some(seat) = seats.get(waiting.node as usize) {
        if seat.level as u32 == waiting.level {
            return Some(First {
                node: waiting.node,
                level: seat.level,
                thread: seat.thread,
            });
        }
    }
    None
}
