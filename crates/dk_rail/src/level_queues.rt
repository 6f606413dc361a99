//! A queue for each level, up to which level nobody waits, and who waits first.
ghost use Rattle.std.specs.Prelude.{◌≡◌, ℕ, ◌+◌, ◌<◌, ◌≤◌, length, [], replicate, slice_get, IfOk, IsSome, IsNone};
ghost use Rattle.dk_rail.specs.Queues.{queue_at, holder, pushed, unlinked};

use crate::{NoMemory, Rail};
use dk_steps::Steps;
use std::alloc::Global;
use std::marker::Model;
use std::sync::ledger::Ledger;

/// A node that waits first of all, and its level.
#[derive(Clone, Copy, PartialEq, Eq)]
pub struct Waiting {
    pub level: u32,
    pub node: u32,
}

/// The queues of the levels, the fastest first, seen as a rail is. It keeps in mind a level before which
/// all queues are empty, and who waits first there, so that nobody has to look into them in each tick.
#[derive(Drop)]
pub struct LevelQueues {
    rail: Rail,
    levels: u32,
    quiet: u32,
    /// Who waits first at the level `quiet`, where it is known.
    first: Option<u32>,
}

impl Model for LevelQueues {
    ghost use Rattle.std.specs.Prelude.{◌≡◌, ◌≤◌, IfSome, length};
    ghost use Rattle.dk_rail.specs.Queues.{Queues, AreQuiet};
    ghost use Rattle.dk_rail.specs.Waits.{IsFirst};

    ghost Value = { Queues };

    ghost view = { λ q. q.rail };

    ghost invariant = { λ q. (length q.rail.lists ≡ q.levels) × (q.quiet ≤ q.levels) × AreQuiet q.quiet q.rail.lists
        × IfSome q.first (λ node. IsFirst q.rail.lists (record { level = q.quiet; node = node })) };
}

impl LevelQueues {
    ghost use Rattle.std.specs.Prelude.{IfSome};
    ghost use Rattle.dk_rail.specs.Queues.{AreQuiet};
    ghost use Rattle.dk_rail.specs.Waits.{IsFirst};

    /// This many nodes, each in no queue, and a queue for each of so many levels.
    ///
    /// The refusal is for want of memory alone.
    pub fn new(alloc: Global, nodes: u32, levels: u32) -> Result<LevelQueues, NoMemory>
        ensures { IfOk result (λ queues. (queues.nodes ≡ nodes) × (queues.lists ≡ replicate levels [])) }
    {
        let rail = Rail::new(alloc, nodes, levels)?;
        Ok(LevelQueues {
            rail,
            levels,
            quiet: 0,
            first: None,
        })
    }

    /// Puts a node behind the last one of the level. One step.
    pub fn push_back<L: Ledger>(&mut self, level: u32, node: u32, steps: &mut Steps<L>)
        requires level { level < length self.old.lists }
        requires node { node < self.old.nodes }
        requires free { IsNone (holder self.old.lists node) }
        ensures nodes { self.new.nodes ≡ self.old.nodes }
        ensures lists { self.new.lists ≡ pushed self.old.lists level node }
        ensures steps { steps.new ≡ steps.old + 1 }
    {
        self.rail.push_back(level, node, steps);
        if level < self.quiet {
            self.quiet = level;
            self.first = Some(node);
        }
    }

    /// Takes a node out of its queue. All others keep their order. One step.
    pub fn unlink<L: Ledger>(&mut self, node: u32, steps: &mut Steps<L>)
        requires { IsSome (holder self.old.lists node) }
        ensures nodes { self.new.nodes ≡ self.old.nodes }
        ensures lists { self.new.lists ≡ unlinked self.old.lists node }
        ensures steps { steps.new ≡ steps.old + 1 }
    {
        self.rail.unlink(node, steps);
        if self.first == Some(node) {
            self.first = None;
        }
    }

    /// The first node of the level, or None where nobody waits there. One step.
    pub fn front<L: Ledger>(&self, level: u32, steps: &mut Steps<L>) -> Option<u32>
        requires { level < length self.now.lists }
        ensures first { result ≡ slice_get (queue_at self.now.lists level) 0 }
        ensures steps { steps.new ≡ steps.old + 1 }
    {
        self.rail.front(level, steps)
    }

    /// A level before which nobody waits. It need not be the last such level.
    pub fn quiet(&self) -> u32
        ensures within { result ≤ length self.now.lists }
        ensures quiet { AreQuiet result self.now.lists }
    {
        self.quiet
    }

    /// Who waits first of all, where that is known. It looks into no queue, and takes no step.
    #[inline(always)]
    pub fn first(&self) -> Option<Waiting>
        ensures { IfSome result (IsFirst self.now.lists) }
    {
        let node = self.first?;
        Some(Waiting {
            level: self.quiet,
            node,
        })
    }

    /// Tells who waits first of all. Where that isn't known it looks at one level more: where nobody waits there,
    /// `quiet` is the next one from now on, and else it is known from now on. At most one step.
    pub fn settle<L: Ledger>(&mut self, steps: &mut Steps<L>) -> Option<Waiting>
        ensures same { self.new ≡ self.old }
        ensures first { IfSome result (IsFirst self.old.lists) }
        ensures steps { steps.new ≤ steps.old + 1 }
    {
        if self.quiet == self.levels {
            return None;
        }
        if self.first.is_none() {
            self.first = self.rail.front(self.quiet, steps);
            if self.first.is_none() {
                self.quiet += 1;
            }
        }
        self.first()
    }

    /// The rail in which the queues stand.
    pub fn rail(&self) -> &Rail
        ensures { result.now ≡ self.now }
    {
        &self.rail
    }
}
