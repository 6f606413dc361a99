mod ahead;
mod counting;

use crate::starting::{listed, zeros};
use crate::unclaimed::Lasting;
use crate::wanted::{NOTHING, Wanted, row_of};
pub use ahead::Ahead;
use arrayvec::ArrayVec;
use dk_config::{Config, MAX_LEVELS, MAX_THREADS, NoMemory};
use dk_rail::LevelQueues;
use dk_steps::Steps;
use std::alloc::Global;
use std::marker::Model;
use std::sync::ledger::Ledger;

/// The wishes for slack of each level, the oldest call first, and how much of each level's window no
/// level up to it claimed. Nodes stand for threads, and are counted from 0, as levels are.
///
/// It is seen as the number of nodes, the cost of a switch in ticks, the list of each level's wishes,
/// the list of the levels' unclaimed ticks and that of their spares. A node has at most one wish, and
/// none of 0 ticks.
///
/// So that a tick writes one number whatever the levels, each level has a counter of its ticks that is
/// never set back, and so have the ticks of nobody. What is unclaimed of a level is how far the counters
/// of nobody and of all slower levels have run since its mark, which was their sum when its window began.
/// They all begin anew after 2^32, and their differences hold all the same.
///
/// Where a tick of slack comes from is kept in mind, as long as it lasts, since slack mostly comes in many ticks one
/// after the other.
#[derive(Drop)]
pub struct SlackTable {
    /// The nodes that have a wish: one queue for each level, in the order of the last call.
    rail: LevelQueues,
    /// For each node what it asks for.
    rows: Vec<Wanted>,
    switch: u32,
    /// The ticks of each level since the start, and those of nobody, among them the ones of slack.
    counters: ArrayVec<u32, MAX_LEVELS>,
    nobodys: u32,
    /// The sum of the counters of nobody and of all slower levels when each level's window began.
    marks: ArrayVec<u32, MAX_LEVELS>,
    spares: ArrayVec<u32, MAX_LEVELS>,
    /// Known for no tick once another level than nobody has had one, or a window has begun.
    lasting: Lasting,
}

impl Model for SlackTable {
    ghost use Rattle.dk_slack.specs.Slack.{Slack};
    ghost use Rattle.dk_slack.specs.Kept.{IsSound, wishes_in};
    ghost use Rattle.dk_slack.specs.Counters.{unclaimed_by, AreCounters};
    ghost use Rattle.dk_slack.specs.Lasting.{Lasts};

    ghost Value = { Slack };

    ghost view = { λ t. record {
      nodes = t.rail.nodes;
      switch = t.switch;
      wishes = wishes_in t.rows.items t.rail.lists;
      unclaimed = unclaimed_by t.nobodys t.counters.items t.marks.items;
      spares = t.spares.items;
    } };

    ghost invariant = { λ t. IsSound t.rail t.rows.items t.switch t.spares.items
        × AreCounters t.counters.items t.marks.items t.spares.items
        × Lasts t.lasting (unclaimed_by t.nobodys t.counters.items t.marks.items) t.spares.items };
}

impl SlackTable {
    ghost use Rattle.std.specs.Prelude.{ℕ, ◌≡◌, ◌+◌, ◌*◌, ◌<◌, ◌≤◌, ◌==◌, nat_lt, if◌then◌else◌, length, IfOk, None};
    ghost use Rattle.dk_config.specs.Checked.{IsWithinLimits};
    ghost use Rattle.dk_slack.specs.Slack.{at_start};
    ghost use Rattle.dk_slack.specs.Wishes.{want, wish_of, is_entering, first_node, dropped, put_last, asked, spent, spent_for};

    /// Nobody asks for slack. There are nine nodes for each process, and `spare` has for each level the
    /// ticks of its window that nobody can claim.
    ///
    /// The refusal is for want of memory alone.
    pub fn reserve(alloc: Global, config: &Config, spare: &[u32]) -> Result<SlackTable, NoMemory>
        requires limits { IsWithinLimits config.now }
        requires spares { length spare.now ≡ length config.now.levels }
        ensures { IfOk result (λ table. table ≡ at_start config.now spare.now) }
    {
        let nodes = MAX_THREADS * config.processes.len();
        let rail = LevelQueues::new(alloc, nodes as u32, spare.len() as u32)?;
        let rows = vec![in alloc; NOTHING; nodes]?;
        Ok(SlackTable {
            rail,
            rows,
            switch: config.costs.switch,
            counters: zeros(spare.len()),
            nobodys: 0,
            marks: zeros(spare.len()),
            spares: listed(spare),
            lasting: Lasting::unknown(),
        })
    }

    /// The node asks for so many ticks of slack at the level, of which the first ones, twice the cost of
    /// a switch, are its switch in. The wish stands last at the level, in place of an earlier wish of the
    /// node.
    ///
    /// It takes one step, and one more where there was an earlier wish.
    pub fn ask<L: Ledger>(&mut self, node: u32, level: u8, amount: u32, steps: &mut Steps<L>)
        requires node { node < self.old.nodes }
        requires level { level < length self.old.wishes }
        requires some { 0 < amount }
        ensures table { self.new ≡ record self.old {
          wishes = asked level
              (record { node = node; amount = amount; entering = 2 * self.old.switch }) self.old.wishes;
        } }
        ensures steps { steps.new ≡ steps.old + (if nat_lt 0 (want node self.old.wishes) then 2 else 1) }
    {
        self.drop_request(node, steps);
        self.put(node, level, amount, steps);
    }

    /// Puts a wish behind the last one of the level.
    fn put<L: Ledger>(&mut self, node: u32, level: u8, amount: u32, steps: &mut Steps<L>)
        requires node { node < self.old.nodes }
        requires level { level < length self.old.wishes }
        requires some { 0 < amount }
        requires free { want node self.old.wishes ≡ 0 }
        ensures table { self.new ≡ record self.old {
          wishes = put_last level
              (record { node = node; amount = amount; entering = 2 * self.old.switch }) self.old.wishes;
        } }
        ensures steps { steps.new ≡ steps.old + 1 }
    {
        let entering = 2 * self.switch;
        self.rail.push_back(level as u32, node, steps);
        self.rows[node as usize] = Wanted { amount, entering };
    }

    /// One tick of slack of the node: its wish, and what is left of its switch in, fall by one tick. A
    /// wish that reaches 0 goes.
    ///
    /// It takes one step where the wish goes, else none.
    pub fn spend<L: Ledger>(&mut self, node: u32, steps: &mut Steps<L>)
        requires { 0 < want node self.old.wishes }
        ensures table { self.new ≡ record self.old { wishes = spent node self.old.wishes } }
        ensures steps { steps.new ≡ steps.old + (if want node self.old.wishes == 1 then 1 else 0) }
    {
        self.foresee();
        if self.want(node) == 1 {
            self.remove(node, steps);
        } else {
            self.spend_for(node, 1);
        }
    }

    /// So many ticks of slack of the node at once, after which something of its wish is left.
    #[inline(always)]
    pub fn spend_for(&mut self, node: u32, ticks: u32)
        requires { ticks < want node self.old.wishes }
        ensures { self.new ≡ record self.old { wishes = spent_for node ticks self.old.wishes } }
    {
        let row = row_of(&self.rows, node);
        self.rows[node as usize] = Wanted {
            amount: row.amount - ticks,
            entering: row.entering.saturating_sub(ticks),
        };
    }

    /// The node's wish goes, if it has one. It takes one step where there is a wish, else none.
    pub fn drop_request<L: Ledger>(&mut self, node: u32, steps: &mut Steps<L>)
        ensures table { self.new ≡ record self.old { wishes = dropped node self.old.wishes } }
        ensures steps { steps.new ≡ steps.old + (if nat_lt 0 (want node self.old.wishes) then 1 else 0) }
    {
        if self.want(node) > 0 {
            self.remove(node, steps);
        }
    }

    /// Takes out the wish of the node.
    fn remove<L: Ledger>(&mut self, node: u32, steps: &mut Steps<L>)
        requires { 0 < want node self.old.wishes }
        ensures table { self.new ≡ record self.old { wishes = dropped node self.old.wishes } }
        ensures steps { steps.new ≡ steps.old + 1 }
    {
        self.rail.unlink(node, steps);
        self.rows[node as usize] = NOTHING;
    }

    /// The node of the oldest wish of the level, or None where the level has none. It takes one step.
    pub fn front<L: Ledger>(&self, level: u8, steps: &mut Steps<L>) -> Option<u32>
        requires { level < length self.now.wishes }
        ensures first { result ≡ first_node level self.now.wishes }
        ensures steps { steps.new ≡ steps.old + 1 }
    {
        self.rail.front(level as u32, steps)
    }

    /// A level before which nobody asks for slack. It need not be the last such level.
    pub fn quiet(&self) -> u32
        ensures within { result ≤ length self.now.wishes }
        ensures quiet { (k : ℕ) → k < result → first_node k self.now.wishes ≡ None }
    {
        self.rail.quiet()
    }

    /// Looks at one level more for `quiet`. At most one step.
    pub fn settle<L: Ledger>(&mut self, steps: &mut Steps<L>)
        ensures same { self.new ≡ self.old }
        ensures steps { steps.new ≤ steps.old + 1 }
    {
        self.rail.settle(steps);
    }

    /// How many ticks of slack the node still asks for, and 0 exactly where it has no wish.
    pub fn want(&self, node: u32) -> u32
        ensures amount { result ≡ want node self.now.wishes }
        ensures none { result ≡ 0 → wish_of node self.now.wishes ≡ None }
    {
        row_of(&self.rows, node).amount
    }

    /// Whether the next tick of slack of the node is its switch in. False where it has no wish.
    pub fn entering(&self, node: u32) -> bool
        ensures { result ≡ is_entering node self.now.wishes }
    {
        let row = row_of(&self.rows, node);
        row.amount > 0 && row.entering > 0
    }
}
