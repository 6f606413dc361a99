ghost use Rattle.dk_recount.specs.Needed.{CallerLaws, ChoosingLaws, HoldLaws, StoppingLaws};

use dk_bound::{
    blocking_law, callers_law, event_closes_law, event_moves_blocking_law, holders_law,
    holds_move_blocking_law, known_holders_law, levels_law, lock_law, nesting_law, rows_law,
    standing_law, threads_law, tick_spends_law,
};
use dk_demand::{cells_are_changed_by_level, first_unfit_is_the_pasts};
use dk_mutex::{
    free_mutexes_are_the_pasts, holds_are_the_pasts, lefts_are_the_pasts, levels_are_the_pasts,
    refusals_are_the_pasts,
};
use dk_slack::{source_is_the_pasts, wishes_are_the_pasts};

/// What the laws below say together for the choice.
pub fn choosing_laws()
    ensures { ChoosingLaws }
{
    threads_law();
    rows_law();
    standing_law();
    known_holders_law();
    holders_law();
    levels_law();
    levels_are_the_pasts();
    first_unfit_is_the_pasts();
    source_is_the_pasts();
    wishes_are_the_pasts();
}

/// And of whoever is in a call.
pub fn caller_laws()
    ensures { CallerLaws }
{
    callers_law();
    rows_law();
    standing_law();
    threads_law();
}

/// And for a lock and an unlock.
pub fn hold_laws()
    ensures { HoldLaws }
{
    caller_laws();
    nesting_law();
    blocking_law();
    known_holders_law();
    levels_law();
    lock_law();
    holds_move_blocking_law();
    dk_mutex::call_keeps_the_recount();
    dk_demand::call_keeps_the_recount();
    levels_are_the_pasts();
    holds_are_the_pasts();
    free_mutexes_are_the_pasts();
    refusals_are_the_pasts();
}

/// And for a wait and a stop.
pub fn stopping_laws()
    ensures { StoppingLaws }
{
    tick_spends_law();
    rows_law();
    event_closes_law();
    event_moves_blocking_law();
    callers_law();
    threads_law();
    standing_law();
    known_holders_law();
    dk_budget::tick_keeps_the_recount();
    dk_slack::tick_keeps_the_recount();
    dk_ready::call_keeps_the_recount();
    dk_ready::jobs_are_the_pasts();
    dk_mutex::stops_keep_the_recount();
    dk_slack::stops_keep_the_recount();
    lefts_are_the_pasts();
    cells_are_changed_by_level();
}
