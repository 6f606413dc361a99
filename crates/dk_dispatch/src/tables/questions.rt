//! What the tables tell of threads and levels, and that every past that they are the recount of tells the same.
use super::AllTables;
use dk_config::MAX_CHILDREN;
use dk_demand::Demand;
use dk_recount::{
    holds_are_the_pasts, jobs_are_the_pasts, rows_are_the_pasts, wishes_are_the_pasts,
    workers_are_the_pasts,
};
use dk_steps::Steps;
use dk_threads::ThreadRow;
use dk_trace::{Phase, ThreadId};
use std::sync::ledger::Ledger;

impl AllTables {
    ghost use Rattle.std.specs.Prelude.{ℕ, suc, ◌≡◌, ◌+◌, ◌<◌, true, List, length, find, slice_get, is_some, option_map, ◌≤◌, IfSome};
    ghost use Rattle.dk_recount.specs.Facing.{HasOwn, slots};
    ghost use Rattle.std.specs.List.{list_any};
    ghost use Rattle.dk_config.specs.Configuration.{Configuration};
    ghost use Rattle.dk_trace.specs.declared.Entry.{Entry};
    ghost use Rattle.dk_trace.specs.Members.{Has};
    ghost use Rattle.dk_trace.specs.Threads.{Thread, threads};
    ghost use Rattle.dk_trace.specs.Jobs.{job, thread_body_left, thread_rem};
    ghost use Rattle.dk_trace.specs.Holds.{held_by, innermost_left};
    ghost use Rattle.dk_trace.specs.Slack.{want as past_want, is_entering as is_past_entering};
    ghost use Rattle.dk_trace.specs.Choices.{holder_at as past_holder_at};
    ghost use Rattle.dk_threads.specs.Rows.{is_row_of};
    ghost use Rattle.dk_threads.specs.Table.{AreFamilies, children_at, find_row};
    ghost use Rattle.dk_threads.specs.Recount.{counted_rows, has_row, is_there, unplaced};
    ghost use Rattle.dk_recount.specs.Tables.{HasFamilies, IsSound, node_in};
    ghost use Rattle.dk_recount.specs.Recount.{IsReady, IsRecount};
    ghost use Rattle.dk_mutex.specs.Recount.{last_locked};
    ghost use Rattle.dk_mutex.specs.Table.{holder_at};
    ghost use Rattle.dk_slack.specs.Wishes.{want, is_entering};
    ghost use Rattle.dk_ready.specs.Roster.{told_phase};
    ghost use Rattle.dk_recount.specs.Events.{body_in};
    ghost use Rattle.dk_recount.specs.Questions.{TellsOf, phase_in, ready_in, ready_thread, rem_in};

    /// The rows of each process stand by rising serial, and no two of them have one slot.
    pub fn rows_are_in_order(&self)
        ensures { AreFamilies self.now.threads.levels self.now.threads.families }
    {
        self.threads.rows_are_in_order();
    }

    /// What always holds of the tables.
    pub(crate) fn are_sound(&self)
        ensures sound { IsSound self.now }
        ensures families { HasFamilies self.now }
    {
        self.threads.rows_are_in_order();
    }

    /// The row of the thread: of a main, or of a child that is neither ended nor void. None of any other.
    pub fn find(&self, id: ThreadId) -> Option<ThreadRow>
        ensures table { result ≡ find_row self.now.threads id }
        ensures there { (c : Configuration) (now : ℕ) (past : List Entry) → IsRecount c now past self.now
            → is_some result ≡ list_any (is_there c now id) (threads c past) }
        ensures told { (c : Configuration) (now : ℕ) (past : List Entry) → IsRecount c now past self.now
            → id.process < length c.processes
            → option_map unplaced result ≡ find (is_row_of id) (counted_rows c now past id.process) }
        ensures fits { IfSome result (λ row. row.slot ≤ MAX_CHILDREN) }
        ensures own { IfSome result (λ row. HasOwn (slots self.now) id row.slot) }
    {
        rows_are_the_pasts();
        self.threads.rows_are_in_order();
        self.threads.find(id)
    }

    /// The row of the child at that place of the process, by rising serial and counted from 0. None exactly
    /// where there are not so many.
    pub fn child(&self, process: u8, index: u8) -> Option<ThreadRow>
        ensures table { result ≡ slice_get (children_at self.now.threads process) index }
        ensures told { (c : Configuration) (now : ℕ) (past : List Entry) → IsRecount c now past self.now
            → process < length c.processes
            → option_map unplaced result ≡ slice_get (counted_rows c now past process) (suc index) }
    {
        rows_are_the_pasts();
        self.threads.child(process, index)
    }

    /// The ticks that the thread, which has a row, has left of the body of its share. One step.
    pub fn body_left<L: Ledger>(&self, id: ThreadId, steps: &mut Steps<L>) -> u32
        ensures table { result ≡ body_in self.now id }
        ensures told { (c : Configuration) (now : ℕ) (past : List Entry) (x : Thread) → IsRecount c now past self.now
            → Has (threads c past) x → x.id ≡ id → has_row c now x ≡ true
            → result ≡ thread_body_left c now past x }
        ensures steps { steps.new ≡ steps.old + 1 }
    {
        rows_are_the_pasts();
        self.jobs.body_left(self.node_of(id), steps)
    }

    /// The ticks that the thread, which has a row, has left of its share. One step.
    pub fn rem<L: Ledger>(&self, id: ThreadId, steps: &mut Steps<L>) -> u32
        ensures table { result ≡ rem_in self.now id }
        ensures told { (c : Configuration) (now : ℕ) (past : List Entry) (x : Thread) → IsRecount c now past self.now
            → Has (threads c past) x → x.id ≡ id → has_row c now x ≡ true
            → result ≡ thread_rem c now past x }
        ensures steps { steps.new ≡ steps.old + 1 }
    {
        jobs_are_the_pasts();
        self.jobs.rem(self.node_of(id), steps)
    }

    /// The part of its share that the next tick of the thread, which has a row, belongs to. None where
    /// nothing is left. One step.
    pub fn phase<L: Ledger>(&self, id: ThreadId, steps: &mut Steps<L>) -> Option<Phase>
        ensures table { result ≡ phase_in self.now id }
        ensures told { (c : Configuration) (now : ℕ) (past : List Entry) (x : Thread) → IsRecount c now past self.now
            → Has (threads c past) x → x.id ≡ id → has_row c now x ≡ true
            → result ≡ told_phase c.costs.switch (job c now past x) }
        ensures steps { steps.new ≡ steps.old + 1 }
    {
        jobs_are_the_pasts();
        self.jobs.phase(self.node_of(id), steps)
    }

    /// The thread at that place of the level's ready queue, counted from 0. None exactly where there are
    /// not so many. One step for each thread on the way.
    pub fn ready_at<L: Ledger>(
        &self,
        level: u8,
        index: u32,
        steps: &mut Steps<L>,
    ) -> Option<ThreadId>
        ensures table { result ≡ ready_in self.now level index }
        ensures told { (c : Configuration) (past : List Entry) → IsReady c past self.now → level < length c.levels
            → result ≡ ready_thread c past level index }
        ensures steps { steps.new ≤ steps.old + index + 1 }
    {
        workers_are_the_pasts();
        self.threads.rows_are_in_order();
        let node = self.jobs.ready_at(level, index, steps)?;
        Some(self.jobs.thread(node))
    }

    /// The thread that holds a mutex and runs at the level. None where no holder runs there.
    pub fn holder_at(&self, level: u8) -> Option<ThreadId>
        ensures table { result ≡ holder_at level self.now.mutexes }
        ensures told { (c : Configuration) (past : List Entry) → IsReady c past self.now
            → result ≡ option_map (λ x. x.id) (past_holder_at c past level) }
    {
        workers_are_the_pasts();
        self.threads.rows_are_in_order();
        self.mutexes.holder_at(level)
    }

    /// How many ticks of slack the thread, which has a row, still asks for.
    pub fn want(&self, id: ThreadId) -> u32
        ensures table { result ≡ want (node_in self.now.threads id) self.now.slack.wishes }
        ensures told { (c : Configuration) (past : List Entry) (x : Thread) → IsReady c past self.now
            → Has (threads c past) x → x.id ≡ id → has_row c (length past) x ≡ true
            → result ≡ past_want c (length past) past x }
    {
        wishes_are_the_pasts();
        self.threads.rows_are_in_order();
        self.slack.want(self.node_of(id))
    }

    /// Whether the next tick of slack of the thread, which asks for slack, is its switch in.
    pub fn entering(&self, id: ThreadId) -> bool
        ensures table { result ≡ is_entering (node_in self.now.threads id) self.now.slack.wishes }
        ensures told { (c : Configuration) (past : List Entry) (x : Thread) → IsReady c past self.now
            → Has (threads c past) x → x.id ≡ id → 0 < past_want c (length past) past x
            → result ≡ is_past_entering c (length past) past x }
    {
        wishes_are_the_pasts();
        self.threads.rows_are_in_order();
        self.slack.entering(self.node_of(id))
    }

    /// For how many ticks more the thread may hold the mutex that it locked last, and 0 where it holds none.
    pub fn hold_left(&self, id: ThreadId) -> u32
        ensures { (c : Configuration) (past : List Entry) → TellsOf self.now c past
            → result ≡ innermost_left c (held_by id past) }
    {
        holds_are_the_pasts();
        self.mutexes.hold_left(id)
    }

    /// The mutex that the thread locked last of those that it holds. None where it holds none.
    pub fn held_by(&self, id: ThreadId) -> Option<u8>
        ensures { (c : Configuration) (past : List Entry) → TellsOf self.now c past
            → result ≡ last_locked (held_by id past) }
    {
        holds_are_the_pasts();
        self.mutexes.held_by(id)
    }

    /// The demand cells.
    pub fn demand(&self) -> &Demand
        ensures { result.now ≡ self.now.demand }
    {
        &self.demand
    }

    /// The present tick.
    pub fn now(&self) -> u32
        ensures { result ≡ self.now.demand.windows.tick }
    {
        self.demand.windows().now()
    }
}
