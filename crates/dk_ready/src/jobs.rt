ghost use Rattle.std.specs.Prelude.{◌≡◌, ◌==◌, IfSome, Some, false};

mod spending;

use crate::first::First;
use crate::seat::{Seat, vacant};
use dk_config::NoMemory;
use dk_overhead::Job;
use dk_rail::{LevelQueues, Rail};
use dk_steps::Steps;
use dk_trace::{Phase, ThreadId};
use std::alloc::Global;
use std::marker::Model;
use std::sync::ledger::Ledger;

/// The seats of all nodes and the ready queues of all levels. It is seen as the cost of a switch in
/// ticks, the list of the seats, and the queues. It keeps in mind who stands first of all queues, so that
/// nobody has to look for it in each tick.
#[derive(Drop)]
pub struct Jobs {
    switch: u32,
    seats: Vec<Seat>,
    ready: LevelQueues,
    first: Option<First>,
    // the ticks of its body that it has for sure, 0 where nobody is known
    body: u32,
}

impl Model for Jobs {
    ghost use Rattle.std.specs.Prelude.{◌≡◌, MatchOption, length};
    ghost use Rattle.dk_ready.specs.Roster.{Roster};
    ghost use Rattle.dk_ready.specs.First.{IsKept};

    ghost Value = { Roster };

    ghost view = { λ j. record { switch = j.switch; seats = j.seats.items; ready = j.ready } };

    ghost invariant = { λ j. (j.ready.nodes ≡ length j.seats.items)
        × MatchOption j.first (j.body ≡ 0)
        (IsKept (record { switch = j.switch; seats = j.seats.items; ready = j.ready }) j.body) };
}

impl Jobs {
    ghost use Rattle.std.specs.Prelude.{◌≡◌, ◌+◌, ◌<◌, ◌≤◌, ◌==◌, false, if◌then◌else◌, length, slice_get, IfOk, IsNone, IsSome};
    ghost use Rattle.dk_rail.specs.Queues.{AreQuiet, queue_at, holder};
    ghost use Rattle.dk_trace.specs.Jobs.{body_left, rem};
    ghost use Rattle.dk_ready.specs.Roster.{at_start, seat_at, left_on, told_phase, released, closed_on, dropped_on};

    /// Nodes on which nobody sits, and empty queues.
    ///
    /// The refusal is for want of memory alone.
    pub fn reserve(alloc: Global, switch: u32, nodes: u32, levels: u32) -> Result<Jobs, NoMemory>
        ensures { IfOk result (λ jobs. jobs ≡ at_start switch nodes levels) }
    {
        let ready = LevelQueues::new(alloc, nodes, levels)?;
        let seats = vec![in alloc; vacant(); nodes as usize]?;
        Ok(Jobs {
            switch,
            seats,
            ready,
            first: None,
            body: 0,
        })
    }

    /// The seat of the node: nobody's where there is no such node.
    #[inline(always)]
    fn seat(&self, node: u32) -> Seat
        ensures { result ≡ seat_at self.now node }
    {
        match self.seats.get(node as usize) {
            Some(seat) => *seat,
            None => vacant(),
        }
    }

    /// Who sits on the node: thread 0 of process 0 where nobody does.
    pub fn thread(&self, node: u32) -> ThreadId
        ensures { result ≡ (seat_at self.now node).thread }
    {
        self.seat(node).thread
    }

    /// The level of whoever sits on the node: 0 where nobody does.
    pub fn level(&self, node: u32) -> u8
        ensures { result ≡ (seat_at self.now node).level }
    {
        self.seat(node).level
    }

    /// The part of its share that the node's next tick belongs to, or `None` where nothing is left.
    /// One step.
    pub fn phase<L: Ledger>(&self, node: u32, steps: &mut Steps<L>) -> Option<Phase>
        ensures value { result ≡ told_phase self.now.switch (seat_at self.now node).job }
        ensures steps { steps.new ≡ steps.old + 1 }
    {
        match self.seats.get(node as usize) {
            Some(seat) => seat.job.phase(self.switch, steps),
            None => Job::released(0).phase(self.switch, steps),
        }
    }

    /// The ticks of its body that the node still has. One step.
    pub fn body_left<L: Ledger>(&self, node: u32, steps: &mut Steps<L>) -> u32
        ensures value { result ≡ body_left self.now.switch (seat_at self.now node).job }
        ensures steps { steps.new ≡ steps.old + 1 }
    {
        match self.seats.get(node as usize) {
            Some(seat) => seat.job.body_left(self.switch, steps),
            None => Job::released(0).body_left(self.switch, steps),
        }
    }

    /// The ticks of its share that the node still has. One step.
    pub fn rem<L: Ledger>(&self, node: u32, steps: &mut Steps<L>) -> u32
        ensures value { result ≡ left_on self.now node }
        ensures steps { steps.new ≡ steps.old + 1 }
    {
        match self.seats.get(node as usize) {
            Some(seat) => seat.job.rem(self.switch, steps),
            None => Job::released(0).rem(self.switch, steps),
        }
    }

    /// The node at that index of the level's queue, counted from its front. `None` exactly where there
    /// are not so many. One step for each node on the way.
    pub fn ready_at<L: Ledger>(&self, level: u8, index: u32, steps: &mut Steps<L>) -> Option<u32>
        ensures found { result ≡ slice_get (queue_at self.now.ready.lists level) index }
        ensures steps { steps.new ≤ steps.old + index + 1 }
    {
        self.ready.rail().node_at(level as u32, index, steps)
    }

    /// The first node of the level's queue, or `None` where it is empty. One step.
    pub fn front<L: Ledger>(&self, level: u8, steps: &mut Steps<L>) -> Option<u32>
        requires { level < length self.now.ready.lists }
        ensures first { result ≡ slice_get (queue_at self.now.ready.lists level) 0 }
        ensures steps { steps.new ≡ steps.old + 1 }
    {
        self.ready.front(level as u32, steps)
    }

    /// The thread sits down on the node with a new share of its level's window, and its node goes behind
    /// the last one of the level's queue, where the share is not 0. One step there, else none.
    pub fn release<L: Ledger>(
        &mut self,
        node: u32,
        thread: ThreadId,
        level: u8,
        share: u32,
        steps: &mut Steps<L>,
    )
        requires node { node < length self.old.seats }
        requires level { level < length self.old.ready.lists }
        requires free { IsNone (holder self.old.ready.lists node) }
        ensures seat { self.new
            ≡ released node (record {
              thread = thread;
              level = level;
              job = record { share = share; used = 0; out_ticks = 0; closed = false };
            }) self.old }
        ensures steps { steps.new ≡ steps.old + (if share == 0 then 0 else 1) }
    {
        self.first = None;
        self.body = 0;
        self.seats[node as usize] = Seat {
            thread,
            level,
            job: Job::released(share),
        };
        if share > 0 {
            self.ready.push_back(level as u32, node, steps);
        }
    }

    /// Closes the job of the node, and tells how many ticks of work it no longer has. It leaves its
    /// queue where it owes nothing. At most three steps.
    pub fn close<L: Ledger>(&mut self, node: u32, steps: &mut Steps<L>) -> u32
        requires node { node < length self.old.seats }
        requires queued { 0 < rem self.old.switch (seat_at self.old node).job
            → IsSome (holder self.old.ready.lists node) }
        ensures dropped { result ≡ dropped_on node self.old }
        ensures seat { self.new ≡ closed_on node self.old }
        ensures steps { steps.new ≤ steps.old + 3 }
    {
        self.first = unless_on(self.first, node); // What is closed computes no more.
        self.body = if self.first.is_some() { self.body } else { 0 };
        let switch = self.switch;
        let seat = &mut self.seats[node as usize];
        let before = seat.job.rem(switch, steps);
        seat.job.close();
        let after = seat.job.rem(switch, steps);
        if before > 0 && after == 0 {
            self.ready.unlink(node, steps);
        }
        before.saturating_sub(after)
    }

    /// The ready queues.
    pub fn ready(&self) -> &Rail
        ensures { result.now ≡ self.now.ready }
    {
        self.ready.rail()
    }

    /// A level before which no node is queued. It need not be the last such level.
    pub fn quiet(&self) -> u32
        ensures within { result ≤ length self.now.ready.lists }
        ensures quiet { AreQuiet result self.now.ready.lists }
    {
        self.ready.quiet()
    }
}

/// Who stands first, where it isn't known to be on the node.
#[inline(always)]
fn unless_on(first: Option<First>, node: u32) -> Option<First>
    ensures { IfSome result (λ kept. (first ≡ Some kept) × ((kept.node == node) ≡ false)) }
{
    match first {
        Some(kept) if kept.node != node => Some(kept),
        _ => None,
    }
}
