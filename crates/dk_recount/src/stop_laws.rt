ghost use Rattle.std.specs.Prelude.{ℕ, ◌≡◌, ◌+◌, ◌≤◌, ◌∷◌, List, length, Some, true};
ghost use Rattle.dk_config.specs.Configuration.{Configuration};
ghost use Rattle.dk_trace.specs.declared.Label.{Label};
ghost use Rattle.dk_trace.specs.declared.ThreadId.{ThreadId};
ghost use Rattle.dk_trace.specs.declared.Event.{Event};
ghost use Rattle.dk_trace.specs.declared.Entry.{Entry};
ghost use Rattle.dk_trace.specs.Entries.{has_event, is_end, is_of};
ghost use Rattle.dk_trace.specs.Audit.{Follows};
ghost use Rattle.dk_threads.specs.declared.row.ThreadRow.{ThreadRow};
ghost use Rattle.dk_threads.specs.Table.{find_row, is_child, runs};
ghost use Rattle.dk_recount.specs.Tables.{HasFamilies, IsSound, Tables};
ghost use Rattle.dk_recount.specs.Recount.{IsBooked, IsCharged};
ghost use Rattle.dk_recount.specs.Counts.{stopped};
ghost use Rattle.dk_recount.specs.Events.{IsCalling, refusal_of};
ghost use Rattle.dk_recount.specs.Process.{MayStopProcess, running_children, without_process};
ghost use Rattle.dk_recount.specs.Premises.{WhereMainStops};
ghost use Rattle.dk_recount.specs.Stopping.{MayStopChild, RunsByRow, StopsChild, delete_refusal_in, without_child};

use crate::needed::stopping_laws;
use dk_bound::{
    callers_law, chosen_law, closers_law, event_cases_law, event_closes_law, holders_law, rows_law,
};
use dk_budget::future_shares_are_the_pasts;

/// Charged tables have what the stop of a child needs, and once a child that exits, faults or is deleted
/// is stopped they are the recount of the past with that entry.
pub fn stopping_a_child_is_booked()
    ensures may { (c : Configuration) (label : Label) (past : List Entry) (d : Tables) (row : ThreadRow)
        → IsSound d → HasFamilies d → IsCharged c label past d → find_row d.threads row.id ≡ Some row
        → is_child row.id ≡ true → runs d.threads row.id ≡ true
        → MayStopChild row d }
    ensures stands { (c : Configuration) (e : Entry) (past : List Entry) (d : Tables) (row : ThreadRow)
        → IsSound d → HasFamilies d → IsCharged c e.label past d → Follows c past e
        → StopsChild e row.id → find_row d.threads row.id ≡ Some row → runs d.threads row.id ≡ true
        → IsBooked c e past (without_child row d) }
{
    stopping_laws();
    event_cases_law();
    dk_threads::stops_keep_the_recount();
    dk_budget::stops_keep_the_recount();
}

/// The rows refuse a delete as the past does.
pub fn deletes_are_refused_by_the_rows()
    ensures { (x : ThreadId) (c : Configuration) (label : Label) (past : List Entry) (d : Tables) (serial : ℕ)
        → IsCalling x c label past d
        → delete_refusal_in d.threads x serial ≡ refusal_of c label past x (Event.Delete serial) }
{
    callers_law();
    rows_law();
}

/// A thread that exits or faults has a row and hasn't been stopped.
pub fn ending_threads_run()
    ensures { (c : Configuration) (e : Entry) (past : List Entry) (d : Tables) (x : ThreadId)
        → IsCharged c e.label past d → Follows c past e → is_of x e ≡ true → has_event is_end e ≡ true
        → RunsByRow d.threads x }
{
    rows_law();
    callers_law();
    chosen_law();
}

/// Charged tables have what the stop of a whole process needs where its main exits or faults, and once it is
/// stopped they are the recount of the past with that entry. The threads that the tick stops are no fewer than
/// the rows that are shut.
pub fn stopping_a_main_is_booked()
    ensures may { WhereMainStops (λ c e past d main. MayStopProcess main d) }
    ensures stands { WhereMainStops (λ c e past d main. IsBooked c e past (without_process main d)) }
    ensures counts { WhereMainStops (λ c e past d main.
        1 + length (running_children d.threads main.id.process) ≤ stopped c (e ∷ past)) }
{
    stopping_laws();
    event_cases_law();
    event_closes_law();
    closers_law();
    holders_law();
    dk_threads::stops_keep_the_recount();
    dk_budget::stops_keep_the_recount();
    future_shares_are_the_pasts();
}
