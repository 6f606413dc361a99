//! The rail: queues in which a node stands at most once.
ghost use Rattle.std.specs.Prelude.{◌≡◌, ◌≢◌, ℕ, ◌+◌, ◌*◌, ◌<◌, ◌≤◌, ◌^◌, length, [], replicate, slice_get, slice_index, IfOk, IsSome, IsNone};
ghost use Rattle.dk_rail.specs.Queues.{queue_at, holder, pushed, unlinked};
ghost use Rattle.dk_rail.specs.Links.{prev, next, IsPushed, IsUnlinked};

use crate::NoMemory;
use crate::block::Block;
use dk_steps::Steps;
use std::alloc::Global;
use std::marker::Model;
use std::sync::ledger::Ledger;

/// Queues of numbered nodes in one block of memory, seen as the number of nodes and a list of lists,
/// in which each node stands at most once. Nodes and queues are counted from 0.
///
/// `push_back`, `unlink` and `front` take one step each, whatever the queues hold, and `node_at` one for each
/// node that it passes.
#[derive(Drop)]
pub struct Rail {
    block: Block,
    nodes: usize,
    queues: usize,
}

impl Model for Rail {
    ghost use Rattle.dk_rail.specs.Queues.{Queues};
    ghost use Rattle.dk_rail.specs.Links.{lists_of};
    ghost use Rattle.dk_rail.specs.Sound.{IsSound};

    ghost Value = { Queues };

    ghost view = { λ r. record { nodes = r.nodes; lists = lists_of r.block r.nodes r.queues } };

    ghost invariant = { λ r. IsSound r.block r.nodes r.queues };
}

impl Rail {
    /// This many nodes, each in no queue, and this many queues. Either number may be 0.
    ///
    /// The refusal is for want of memory alone.
    pub fn new(alloc: Global, nodes: u32, queues: u32) -> Result<Rail, NoMemory>
        ensures { IfOk result (λ rail. (rail.nodes ≡ nodes) × (rail.lists ≡ replicate queues [])) }
    {
        let (nodes, queues) = (nodes as usize, queues as usize);
        let ends = nodes + queues;
        let mut block = Block::new(alloc, 2 * ends + nodes)?;
        for end in nodes..ends {
            block.write(end, end);
            block.write(ends + end, end);
        }
        Ok(Rail {
            block,
            nodes,
            queues,
        })
    }

    /// Puts a node behind the last one of a queue.
    pub fn push_back<L: Ledger>(&mut self, queue: u32, node: u32, steps: &mut Steps<L>)
        requires queue { queue < length self.old.lists }
        requires node { node < self.old.nodes }
        requires free { IsNone (holder self.old.lists node) }
        ensures nodes { self.new.nodes ≡ self.old.nodes }
        ensures lists { self.new.lists ≡ pushed self.old.lists queue node }
        ensures steps { steps.new ≡ steps.old + 1 }
    {
        steps.tick();
        let ends = self.nodes + self.queues;
        let end = self.nodes + queue as usize;
        put_before(
            &mut self.block,
            ends,
            end,
            node as usize,
            queue as usize + 1,
        );
    }

    /// Takes a node out of its queue. All others keep their order.
    pub fn unlink<L: Ledger>(&mut self, node: u32, steps: &mut Steps<L>)
        requires { IsSome (holder self.old.lists node) }
        ensures nodes { self.new.nodes ≡ self.old.nodes }
        ensures lists { self.new.lists ≡ unlinked self.old.lists node }
        ensures steps { steps.new ≡ steps.old + 1 }
    {
        steps.tick();
        let ends = self.nodes + self.queues;
        take_out(&mut self.block, ends, node as usize);
    }

    /// The first node of a queue, or None where the queue is empty.
    pub fn front<L: Ledger>(&self, queue: u32, steps: &mut Steps<L>) -> Option<u32>
        requires { queue < length self.now.lists }
        ensures first { result ≡ slice_get (queue_at self.now.lists queue) 0 }
        ensures steps { steps.new ≡ steps.old + 1 }
    {
        steps.tick();
        let first = self.block.read(self.nodes + queue as usize);
        if first < self.nodes {
            Some(first as u32)
        } else {
            None
        }
    }

    /// The node at that index of a queue, counted from its front. None exactly where there are not so many.
    ///
    /// It is looked for from the front on: one step for each node on the way.
    pub fn node_at<L: Ledger>(&self, queue: u32, index: u32, steps: &mut Steps<L>) -> Option<u32>
        ensures found { result ≡ slice_get (queue_at self.now.lists queue) index }
        ensures steps { steps.new ≤ steps.old + index + 1 }
    {
        if queue as usize >= self.queues {
            return None;
        }
        steps.tick();
        let mut end = self.nodes + queue as usize;
        for _passed in 0..index {
            steps.tick();
            end = self.block.read(end);
            if end >= self.nodes {
                return None;
            }
        }
        let node = self.block.read(end);
        if node < self.nodes {
            Some(node as u32)
        } else {
            None
        }
    }
}

/// Puts a node before the end of a queue.
fn put_before(block: &mut Block, ends: usize, end: usize, node: usize, owner: usize)
    requires room { ends < 2 ^ 34 }
    requires node { node < end }
    requires end { end < ends }
    requires cells { 2 * ends + node < length block.old }
    requires last { prev block.old ends end < ends }
    requires other { prev block.old ends end ≢ node }
    ensures { (k : ℕ) → owner ≡ k + 1 → IsPushed block.old block.new ends end node k }
{
    let last = block.read(ends + end);
    block.write(last, node);
    block.write(node, end);
    block.write(ends + node, last);
    block.write(ends + end, node);
    block.write(2 * ends + node, owner);
}

/// Joins the ends before and after a node.
fn take_out(block: &mut Block, ends: usize, node: usize)
    requires room { ends < 2 ^ 34 }
    requires node { node < ends }
    requires cells { 2 * ends + node < length block.old }
    requires before { prev block.old ends node < ends }
    requires after { next block.old node < ends }
    ensures { IsUnlinked block.old block.new ends node }
{
    let before = block.read(ends + node);
    let after = block.read(node);
    block.write(before, after);
    block.write(ends + after, before);
    block.write(2 * ends + node, 0);
}
