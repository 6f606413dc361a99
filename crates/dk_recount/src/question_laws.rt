ghost use Rattle.std.specs.Prelude.{ℕ, suc, ◌≡◌, ◌<◌, true, List, length, find, slice_get, is_some, option_map};
ghost use Rattle.std.specs.List.{list_any};
ghost use Rattle.dk_config.specs.Configuration.{Configuration};
ghost use Rattle.dk_trace.specs.declared.ThreadId.{ThreadId};
ghost use Rattle.dk_trace.specs.declared.Entry.{Entry};
ghost use Rattle.dk_trace.specs.Members.{Has};
ghost use Rattle.dk_trace.specs.Threads.{Thread, threads};
ghost use Rattle.dk_trace.specs.Jobs.{job, thread_body_left, thread_rem};
ghost use Rattle.dk_trace.specs.Holds.{held_by, innermost_left};
ghost use Rattle.dk_trace.specs.Slack.{want as past_want, is_entering as is_past_entering};
ghost use Rattle.dk_trace.specs.Choices.{holder_at as past_holder_at};
ghost use Rattle.dk_threads.specs.Rows.{is_row_of};
ghost use Rattle.dk_threads.specs.Table.{children_at, find_row};
ghost use Rattle.dk_threads.specs.Recount.{counted_rows, has_row, is_there, unplaced};
ghost use Rattle.dk_mutex.specs.Table.{hold_left, holder_at, innermost};
ghost use Rattle.dk_slack.specs.Wishes.{want, is_entering};
ghost use Rattle.dk_ready.specs.Roster.{told_phase};
ghost use Rattle.dk_recount.specs.Tables.{HasFamilies, IsSound, Tables, node_in};
ghost use Rattle.dk_recount.specs.Recount.{IsReady, IsRecount};
ghost use Rattle.dk_mutex.specs.Recount.{last_locked};
ghost use Rattle.dk_recount.specs.Charging.{OwnsFront};
ghost use Rattle.dk_recount.specs.Events.{body_in};
ghost use Rattle.dk_recount.specs.Questions.{TellsOf, phase_in, ready_in, ready_thread, rem_in};

use crate::needed::choosing_laws;
use dk_bound::nesting_law;

/// The rows of tables that are a recount are those of its threads, with the bodies that the threads have left.
pub fn rows_are_the_pasts()
    ensures there { (c : Configuration) (now : ℕ) (past : List Entry) (d : Tables) (id : ThreadId)
        → IsRecount c now past d → is_some (find_row d.threads id)
        ≡ list_any (is_there c now id) (threads c past) }
    ensures found { (c : Configuration) (now : ℕ) (past : List Entry) (d : Tables) (id : ThreadId)
        → IsRecount c now past d → id.process < length c.processes
        → option_map unplaced (find_row d.threads id) ≡ find (is_row_of id) (counted_rows c now past id.process) }
    ensures child { (c : Configuration) (now : ℕ) (past : List Entry) (d : Tables) (process index : ℕ)
        → IsRecount c now past d → process < length c.processes
        → option_map unplaced (slice_get (children_at d.threads process) index)
        ≡ slice_get (counted_rows c now past process) (suc index) }
    ensures body { (c : Configuration) (now : ℕ) (past : List Entry) (d : Tables) (id : ThreadId) (x : Thread)
        → IsRecount c now past d → Has (threads c past) x → x.id ≡ id → has_row c now x ≡ true
        → body_in d id ≡ thread_body_left c now past x }
{
    dk_threads::rows_are_the_pasts();
}

/// The jobs of the threads that have rows are those of the past.
pub fn jobs_are_the_pasts()
    ensures left { (c : Configuration) (now : ℕ) (past : List Entry) (d : Tables) (id : ThreadId) (x : Thread)
        → IsRecount c now past d → Has (threads c past) x → x.id ≡ id → has_row c now x ≡ true
        → rem_in d id ≡ thread_rem c now past x }
    ensures phase { (c : Configuration) (now : ℕ) (past : List Entry) (d : Tables) (id : ThreadId) (x : Thread)
        → IsRecount c now past d → Has (threads c past) x → x.id ≡ id → has_row c now x ≡ true
        → phase_in d id ≡ told_phase c.costs.switch (job c now past x) }
{}

/// The ready queues have the threads that have something left, by process and then serial, each of them on its own
/// node, and the tables tell the holder that runs at a level.
pub fn workers_are_the_pasts()
    ensures ready { (c : Configuration) (past : List Entry) (d : Tables) (level index : ℕ) → IsReady c past d
        → HasFamilies d → level < length c.levels
        → ready_in d level index ≡ ready_thread c past level index }
    ensures holder { (c : Configuration) (past : List Entry) (d : Tables) (level : ℕ)
        → IsReady c past d → HasFamilies d → holder_at level d.mutexes
        ≡ option_map (λ x. x.id) (past_holder_at c past level) }
    ensures front { (c : Configuration) (past : List Entry) (d : Tables) (id : ThreadId)
        → IsReady c past d → HasFamilies d → IsSound d → OwnsFront id d }
{
    choosing_laws();
}

/// The wishes of the threads that have rows are those of the past.
pub fn wishes_are_the_pasts()
    ensures amount { (c : Configuration) (past : List Entry) (d : Tables) (id : ThreadId) (x : Thread)
        → IsReady c past d → HasFamilies d → Has (threads c past) x → x.id ≡ id
        → has_row c (length past) x ≡ true
        → want (node_in d.threads id) d.slack.wishes ≡ past_want c (length past) past x }
    ensures switch { (c : Configuration) (past : List Entry) (d : Tables) (id : ThreadId) (x : Thread)
        → IsReady c past d → HasFamilies d → Has (threads c past) x → x.id ≡ id
        → 0 < past_want c (length past) past x
        → is_entering (node_in d.threads id) d.slack.wishes ≡ is_past_entering c (length past) past x }
{
    choosing_laws();
    dk_slack::wishes_are_the_pasts();
}

/// The tables tell for how long each thread may still hold the mutex that it locked last, and which that is.
pub fn holds_are_the_pasts()
    ensures left { (c : Configuration) (past : List Entry) (d : Tables) (id : ThreadId) → TellsOf d c past
        → hold_left id d.mutexes ≡ innermost_left c (held_by id past) }
    ensures mutex { (c : Configuration) (past : List Entry) (d : Tables) (id : ThreadId) → TellsOf d c past
        → innermost id d.mutexes ≡ last_locked (held_by id past) }
{
    nesting_law();
    dk_mutex::holds_are_the_pasts();
}
