ghost use Rattle.dk_trace.specs.Demand.{fits};
ghost use Rattle.dk_trace.specs.Holds.{blocking};
ghost use Rattle.dk_bound.specs.Moves.{AtEachEntry, AtEachTick};
ghost use Rattle.dk_demand.specs.Moves.{CellsStart, ClockMovesCells, EndMovesCells, EventMovesCells, TickMovesCells};
ghost use Rattle.dk_demand.specs.Laws.{TellsOwn, TellsRemaining, TellsBlocking, TellsFit, TellsDenied, ChangesAt, ChangesRecount};

use dk_bound::{
    clock_law, event_cases_law, holds_move_blocking_law, rows_law, tick_keeps_threads_law,
    tick_lowers_demand_law, tick_moves_blocking_law, windows_release_law,
};
use dk_windows::windows_are_the_configurations;

/// Cells of which each is released at the start are the recount of no entries.
pub fn start_is_the_recount()
    ensures { CellsStart }
{
    windows_release_law();
    holds_move_blocking_law();
    cells_are_changed_by_level();
}

/// A tick keeps them the recount by `spent` of its level and `held` of its thread.
pub fn tick_keeps_the_recount()
    ensures { AtEachTick TickMovesCells }
{
    tick_lowers_demand_law();
    tick_moves_blocking_law();
    holds_move_blocking_law();
    rows_law();
    cells_are_changed_by_level();
}

/// An event that isn't the end of a main keeps them the recount by `dropped` of what is given up and
/// `held` of each hold.
pub fn call_keeps_the_recount()
    ensures { AtEachEntry EventMovesCells }
{
    event_cases_law();
    holds_move_blocking_law();
    tick_keeps_threads_law();
    cells_are_changed_by_level();
}

/// The end of a main keeps them the recount by `dropped`, `held` and `future`, of all threads of its process.
pub fn stops_keep_the_recount()
    ensures { AtEachEntry EndMovesCells }
{
    event_cases_law();
    holds_move_blocking_law();
    tick_keeps_threads_law();
    rows_law();
    cells_are_changed_by_level();
}

/// At the next tick `released` of each level of which a window begins keeps them the recount, and the
/// cells of all other levels stay.
pub fn opening_keeps_the_recount()
    ensures { AtEachEntry ClockMovesCells }
{
    clock_law();
    windows_release_law();
    cells_are_changed_by_level();
}

/// Each cell of a recount is the past's.
pub fn cells_are_the_pasts()
    ensures own { TellsOwn }
    ensures remaining { TellsRemaining }
    ensures blocking { TellsBlocking }
{}

/// Where the cells are the recount of a past, one tick of slack fits exactly where no level is unfit. As
/// long as no level is late, the first unfit level is the one that slack is denied for: the first that has
/// work and no tick to give.
pub fn first_unfit_is_the_pasts()
    ensures fits { TellsFit }
    ensures denied { TellsDenied }
{
    windows_are_the_configurations();
}

/// What a change by levels does at one level, and that it turns the old recount of the levels into the
/// new one where it does so at each level.
pub fn cells_are_changed_by_level()
    ensures at { ChangesAt }
    ensures recount { ChangesRecount }
{}
