//! What is asked of the threads and levels, told by the entries so far, with the open tick's as far as it is known.
use super::Dispatcher;
use dk_config::{MAX_CHILDREN, MAX_THREADS};
use dk_demand::Demand;
use dk_recount::callers_have_rows;
use dk_steps::Steps;
use dk_threads::ThreadRow;
use dk_trace::{Phase, ThreadId};
use std::sync::ledger::Ledger;

impl Dispatcher {
    ghost use Rattle.std.specs.Prelude.{ℕ, suc, ◌≡◌, ◌+◌, ◌<◌, ◌≤◌, true, length, Some, find, slice_get, is_some, option_map, IfSome};
    ghost use Rattle.std.specs.List.{list_any};
    ghost use Rattle.dk_trace.specs.declared.Work.{Work};
    ghost use Rattle.dk_trace.specs.Entries.{thread_of};
    ghost use Rattle.dk_trace.specs.Audit.{work_of};
    ghost use Rattle.dk_trace.specs.Members.{Has};
    ghost use Rattle.dk_trace.specs.Threads.{Thread, threads};
    ghost use Rattle.dk_trace.specs.Jobs.{job, thread_body_left, thread_rem};
    ghost use Rattle.dk_trace.specs.Holds.{held_by, innermost_left};
    ghost use Rattle.dk_trace.specs.Slack.{want, is_entering};
    ghost use Rattle.dk_trace.specs.Choices.{holder_at};
    ghost use Rattle.dk_threads.specs.Rows.{is_row_of};
    ghost use Rattle.dk_threads.specs.Table.{find_row};
    ghost use Rattle.dk_threads.specs.Recount.{counted_rows, has_row, is_there, unplaced};
    ghost use Rattle.dk_mutex.specs.Recount.{last_locked};
    ghost use Rattle.dk_demand.specs.Recount.{IsRecount as AreCells};
    ghost use Rattle.dk_ready.specs.Roster.{told_phase};
    ghost use Rattle.dk_recount.specs.Facing.{CallerIsThere, HasOwn};
    ghost use Rattle.dk_recount.specs.Recount.{IsRuled};
    ghost use Rattle.dk_recount.specs.Questions.{ready_thread};
    ghost use Rattle.dk_past.specs.Past.{Ready, call_label, told};
    ghost use Rattle.dk_trace.specs.declared.ThreadId.{ThreadId};
    ghost use Rattle.dk_dispatch.specs.Standing.{slots};
    ghost use Rattle.dk_dispatch.specs.Calls.{IsInCall};
    ghost use Rattle.dk_dispatch.specs.Questions.{IsTelling};

    /// Whoever is in a call is a thread that has a row, and the entries follow the rules.
    pub fn callers_are_there(&self)
        ensures there { (x : ThreadId) → IsInCall x self.now.past
            → CallerIsThere self.now.past.config (call_label self.now.past) self.now.past.entries x }
        ensures ruled { (x : ThreadId) → IsInCall x self.now.past
            → IsRuled self.now.past.config self.now.past.entries }
    {
        callers_have_rows();
        let _ = &self.tables;
    }

    /// Between two ticks the configuration is certified, and the entries follow the rules.
    pub fn entries_follow(&self)
        requires { self.now.past.tick ≡ Ready }
        ensures { IsRuled self.now.past.config self.now.past.entries }
    {
        let _ = &self.tables;
    }

    /// Whoever has the next tick, and would be in a call in it, has a row.
    pub fn callers_have_slots(&self)
        requires { self.now.past.tick ≡ Ready }
        ensures { (x : ThreadId) → thread_of (call_label self.now.past) ≡ Some x
            → work_of (call_label self.now.past) ≡ Work.Call → (s : ℕ) × (slots self.now x ≡ Some s) }
    {
        callers_have_rows();
        let _ = &self.tables;
    }

    /// Between two ticks no process has more than nine threads that have a row.
    pub fn rows_are_few(&self)
        requires { self.now.past.tick ≡ Ready }
        ensures { (p : ℕ) → p < length self.now.past.config.processes
            → length (counted_rows self.now.past.config (length self.now.past.entries) self.now.past.entries p)
            ≤ MAX_THREADS }
    {
        self.tables.rows_are_in_order();
    }

    /// Between two ticks each row is of a process that there is, and its slot is one of nine.
    pub fn slots_fit(&self)
        requires { self.now.past.tick ≡ Ready }
        ensures { (x : ThreadId) (s : ℕ) → slots self.now x ≡ Some s
            → (x.process < length self.now.past.config.processes) × (s ≤ MAX_CHILDREN) }
    {
        self.tables.rows_are_in_order();
    }

    /// The row of the thread: of a main, or of a child that is neither ended nor void. None of any other.
    pub fn find(&self, id: ThreadId) -> Option<ThreadRow>
        requires { IsTelling self.now.past }
        ensures table { result ≡ find_row self.now.threads id }
        ensures there { is_some result ≡ list_any (is_there self.now.past.config (length self.now.past.entries) id)
            (threads self.now.past.config (told self.now.past)) }
        ensures told { id.process < length self.now.past.config.processes → option_map unplaced result
            ≡ find (is_row_of id)
            (counted_rows self.now.past.config (length self.now.past.entries) (told self.now.past) id.process) }
        ensures fits { IfSome result (λ row. row.slot ≤ MAX_CHILDREN) }
        ensures own { IfSome result (λ row. HasOwn (slots self.now) id row.slot) }
    {
        self.tables.find(id)
    }

    /// The row of the child at that place of the process, by rising serial and counted from 0. None exactly
    /// where there are not so many.
    pub fn child(&self, process: u8, index: u8) -> Option<ThreadRow>
        requires { IsTelling self.now.past }
        ensures told { process < length self.now.past.config.processes → option_map unplaced result
            ≡ slice_get
            (counted_rows self.now.past.config (length self.now.past.entries) (told self.now.past) process) (suc index) }
    {
        self.tables.child(process, index)
    }

    /// The ticks that the thread, which has a row, has left of the body of its share. One step.
    pub fn body_left<L: Ledger>(&self, id: ThreadId, steps: &mut Steps<L>) -> u32
        ensures told { (x : Thread) → IsTelling self.now.past
            → Has (threads self.now.past.config (told self.now.past)) x → x.id ≡ id
            → has_row self.now.past.config (length self.now.past.entries) x ≡ true → result
            ≡ thread_body_left self.now.past.config (length self.now.past.entries) (told self.now.past) x }
        ensures steps { steps.new ≡ steps.old + 1 }
    {
        self.tables.body_left(id, steps)
    }

    /// The ticks that the thread, which has a row, has left of its share. One step.
    pub fn rem<L: Ledger>(&self, id: ThreadId, steps: &mut Steps<L>) -> u32
        requires { IsTelling self.now.past }
        ensures told { (x : Thread) → Has (threads self.now.past.config (told self.now.past)) x → x.id ≡ id
            → has_row self.now.past.config (length self.now.past.entries) x ≡ true → result
            ≡ thread_rem self.now.past.config (length self.now.past.entries) (told self.now.past) x }
        ensures steps { steps.new ≡ steps.old + 1 }
    {
        self.tables.rem(id, steps)
    }

    /// The part of its share that the next tick of the thread, which has a row, belongs to. None where
    /// nothing is left. One step.
    pub fn phase<L: Ledger>(&self, id: ThreadId, steps: &mut Steps<L>) -> Option<Phase>
        requires { IsTelling self.now.past }
        ensures told { (x : Thread) → Has (threads self.now.past.config (told self.now.past)) x → x.id ≡ id
            → has_row self.now.past.config (length self.now.past.entries) x ≡ true → result
            ≡ told_phase self.now.past.config.costs.switch
            (job self.now.past.config (length self.now.past.entries) (told self.now.past) x) }
        ensures steps { steps.new ≡ steps.old + 1 }
    {
        self.tables.phase(id, steps)
    }

    /// The thread at that place of the level's ready queue, counted from 0. None exactly where there are
    /// not so many. One step for each thread on the way.
    pub fn ready_at<L: Ledger>(
        &self,
        level: u8,
        index: u32,
        steps: &mut Steps<L>,
    ) -> Option<ThreadId>
        requires { self.now.past.tick ≡ Ready }
        ensures told { level < length self.now.past.config.levels
            → result ≡ ready_thread self.now.past.config self.now.past.entries level index }
        ensures steps { steps.new ≤ steps.old + index + 1 }
    {
        self.tables.ready_at(level, index, steps)
    }

    /// The thread that holds a mutex and runs at the level. None where no holder runs there.
    pub fn holder_at(&self, level: u8) -> Option<ThreadId>
        requires { self.now.past.tick ≡ Ready }
        ensures { result ≡ option_map (λ x. x.id) (holder_at self.now.past.config self.now.past.entries level) }
    {
        self.tables.holder_at(level)
    }

    /// How many ticks of slack the thread, which has a row, still asks for.
    pub fn want(&self, id: ThreadId) -> u32
        requires { self.now.past.tick ≡ Ready }
        ensures { (x : Thread) → Has (threads self.now.past.config self.now.past.entries) x → x.id ≡ id
            → has_row self.now.past.config (length self.now.past.entries) x ≡ true
            → result ≡ want self.now.past.config (length self.now.past.entries) self.now.past.entries x }
    {
        self.tables.want(id)
    }

    /// Whether the next tick of slack of the thread, which asks for slack, is its switch in.
    pub fn entering(&self, id: ThreadId) -> bool
        requires { self.now.past.tick ≡ Ready }
        ensures { (x : Thread) → Has (threads self.now.past.config self.now.past.entries) x → x.id ≡ id
            → 0 < want self.now.past.config (length self.now.past.entries) self.now.past.entries x
            → result ≡ is_entering self.now.past.config (length self.now.past.entries) self.now.past.entries x }
    {
        self.tables.entering(id)
    }

    /// For how many ticks more the thread may hold the mutex that it locked last, and 0 where it holds none.
    pub fn hold_left(&self, id: ThreadId) -> u32
        ensures { IsTelling self.now.past
            → result ≡ innermost_left self.now.past.config (held_by id (told self.now.past)) }
    {
        self.tables.hold_left(id)
    }

    /// The mutex that the thread locked last of those that it holds. None where it holds none.
    pub fn held_by(&self, id: ThreadId) -> Option<u8>
        ensures { IsTelling self.now.past → result ≡ last_locked (held_by id (told self.now.past)) }
    {
        self.tables.held_by(id)
    }

    /// The demand cells at the present tick, which are those of the entries.
    pub fn demand(&self) -> &Demand
        requires { self.now.past.tick ≡ Ready }
        ensures tick { result.now.windows.tick ≡ length self.now.past.entries }
        ensures cells { AreCells self.now.past.config self.now.past.entries result.now }
    {
        self.tables.demand()
    }

    /// The present tick.
    pub fn now(&self) -> u32
        requires { IsTelling self.now.past }
        ensures { result ≡ length self.now.past.entries }
    {
        self.tables.now()
    }
}
