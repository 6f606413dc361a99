ghost use Rattle.dk_bound.specs.Laws.{Always};
ghost use Rattle.dk_bound.specs.Moves.{AtEachEntry, AtEachTick};
ghost use Rattle.dk_bound.specs.TickMoves.{TickKeepsThreads, TickSpends, TickLowersRem, TickLowersKernel, TickLowersOwn, TickLowersRemaining, TickMovesBlocking};
ghost use Rattle.dk_bound.specs.EventMoves.{EventCloses, EventKeepsKernel, EventLowersOwn, EventLowersRem, EventLowersRemaining, EventMovesBlocking, EventMovesHolds, GivenUp, NewHaveNothing};
ghost use Rattle.dk_bound.specs.ClockMoves.{ClockKeeps, WindowsAreDone, WindowsRelease};
ghost use Rattle.dk_bound.specs.ReadyMoves.{EventKeepsReady, ClockMovesReady};
ghost use Rattle.dk_bound.specs.EventCases.{StopsFreeBlocking, EventKeeps, OneIsClosed, ProcessIsClosed, WhoCloses};
ghost use Rattle.dk_bound.specs.HoldMoves.{TickLowersBlocking, TickAgesHolds, BlockingIsByHolds, NothingBlocksAtStart, TickBlocksByHolds, LockRaisesBlocking, UnlockLowersBlocking};
ghost use Rattle.dk_bound.specs.Rows.{FamiliesStand, RowsAreNamed, IdsTellLevels, AbsentHaveNothing};

/// The tick of a choice makes and stops nobody, and changes no share.
pub fn tick_keeps_threads_law()
    ensures { AtEachTick TickKeepsThreads }
{}

/// It is a tick of the job of the thread whose budget pays for it, which has one less left, and of no other.
#[tactic(auto, using(crate::proofs::TickMoves::tick_spends, crate::proofs::TickMoves::tick_lowers_rem))]
pub fn tick_spends_law()
    ensures job { AtEachTick TickSpends }
    ensures rem { AtEachTick TickLowersRem }
{}

/// It lowers what the level whose work it is has to do, and what that level and all slower ones need, by one.
#[tactic(auto, using(crate::proofs::TickMoves::tick_lowers_kernel, crate::proofs::TickMoves::tick_lowers_own, crate::proofs::TickMoves::tick_lowers_remaining))]
pub fn tick_lowers_demand_law()
    ensures kernel { AtEachTick TickLowersKernel }
    ensures own { AtEachTick TickLowersOwn }
    ensures remaining { AtEachTick TickLowersRemaining }
{}

/// Each level waits a tick less for the thread that has it, and as long as before for all others.
#[tactic(auto, using(crate::proofs::TickMoves::tick_moves_blocking))]
pub fn tick_moves_blocking_law()
    ensures { AtEachTick TickMovesBlocking }
{}

/// The event at the end of a tick closes the jobs of the threads whose windows it closes, leaves nobody more than
/// before, and a child that it makes nothing yet.
#[tactic(auto, using(crate::proofs::EventMoves::event_closes, crate::proofs::EventMoves::event_lowers_rem, crate::proofs::EventMoves::new_have_nothing, crate::proofs::EventMoves::event_given_up))]
pub fn event_closes_law()
    ensures job { AtEachEntry EventCloses }
    ensures rem { AtEachEntry EventLowersRem }
    ensures new { AtEachEntry NewHaveNothing }
    ensures given_up { AtEachEntry GivenUp }
{}

/// It lowers demand by what is given up, and by the shares to come that a process loses with its main.
#[tactic(auto, using(crate::proofs::EventMoves::event_keeps_kernel, crate::proofs::EventMoves::event_lowers_own, crate::proofs::EventMoves::event_lowers_remaining))]
pub fn event_lowers_demand_law()
    ensures kernel { AtEachEntry EventKeepsKernel }
    ensures own { AtEachEntry EventLowersOwn }
    ensures remaining { AtEachEntry EventLowersRemaining }
{}

/// It changes the holds of its thread, takes all from those that it stops, and changes blocking by what their parts change.
#[tactic(auto, using(crate::proofs::EventMoves::event_moves_holds, crate::proofs::EventMoves::event_moves_blocking))]
pub fn event_moves_blocking_law()
    ensures holds { AtEachEntry EventMovesHolds }
    ensures blocking { AtEachEntry EventMovesBlocking }
{}

/// From one tick to the next nothing moves at a level of which no window begins, and nothing is left at one of which one
/// does. Blocking doesn't depend on the clock.
#[tactic(auto, using(crate::proofs::ClockMoves::clock_keeps, crate::proofs::ClockMoves::windows_are_done))]
pub fn clock_law()
    ensures keeps { AtEachEntry ClockKeeps }
    ensures done { AtEachEntry WindowsAreDone }
{}

/// Where a window begins jobs are fresh shares, and demand is what the kernel and the threads get in it.
#[tactic(auto, using(crate::proofs::ClockMoves::windows_release))]
pub fn windows_release_law()
    ensures { Always WindowsRelease }
{}

/// The ready list of a level, the threads of the level that have something left: an event that closes nobody's window
/// leaves it, and so does the clock, but where a window begins, of which nobody is left then.
#[tactic(auto, using(crate::proofs::ReadyMoves::event_keeps_ready, crate::proofs::ReadyMoves::clock_moves_ready))]
pub fn ready_law()
    ensures event { AtEachEntry EventKeepsReady }
    ensures clock { AtEachEntry ClockMovesReady }
{}

/// A wait closes its own thread, a child's end and a delete of it that child, and a main's end its whole process. No other
/// event closes anybody.
#[tactic(auto, using(crate::proofs::Closers::who_closes))]
pub fn closers_law()
    ensures { AtEachEntry WhoCloses }
{}

/// Blocking level by level: each hold of a thread keeps one stretch of levels waiting, and a tick of a holder, a lock and an
/// unlock change it at one stretch.
#[tactic(auto, using(crate::proofs::HoldMoves::tick_ages_holds, crate::proofs::HoldMoves::nothing_blocks_at_start, crate::proofs::HoldMoves::blocking_is_by_holds, crate::proofs::HoldMoves::tick_blocks_by_holds, crate::proofs::HoldMoves::tick_lowers_blocking, crate::proofs::HoldMoves::lock_raises_blocking))]
pub fn holds_move_blocking_law()
    ensures ages { AtEachTick TickAgesHolds }
    ensures start { NothingBlocksAtStart }
    ensures between { Always BlockingIsByHolds }
    ensures charged { AtEachTick TickBlocksByHolds }
    ensures tick { AtEachTick TickLowersBlocking }
    ensures lock { AtEachEntry LockRaisesBlocking }
    ensures unlock { AtEachEntry UnlockLowersBlocking }
{}

/// An event that closes nobody keeps all demand; one that closes one thread's window lowers it by what that thread gives
/// up; the end of a main lowers it by what its process gives up and by all its shares to come.
#[tactic(auto, using(crate::proofs::EventCases::stops_free_blocking, crate::proofs::EventCases::event_keeps, crate::proofs::EventCases::one_is_closed, crate::proofs::EventCases::process_is_closed))]
pub fn event_cases_law()
    ensures frees { AtEachEntry StopsFreeBlocking }
    ensures nobody { AtEachEntry EventKeeps }
    ensures one { AtEachEntry OneIsClosed }
    ensures process { AtEachEntry ProcessIsClosed }
{}

/// The rows of the threads: a process's main comes first, each row has an id of its own, which tells its level, and who is
/// gone or hasn't started has nothing.
#[tactic(auto, using(crate::proofs::AbsentRows::families_stand, crate::proofs::AbsentRows::rows_are_named, crate::proofs::AbsentRows::ids_tell_levels, crate::proofs::AbsentRows::absent_have_nothing))]
pub fn rows_law()
    ensures families { Always FamiliesStand }
    ensures named { Always RowsAreNamed }
    ensures levels { Always IdsTellLevels }
    ensures absent { Always AbsentHaveNothing }
{}
