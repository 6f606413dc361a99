//! The bound: what the rules promise whatever the programs do.
//!
//! Each function carries one law in its contract, and does nothing. A law speaks of every configuration that `check`
//! passes and certification accepts, and of every list of entries that follows the rules, with children, nested holds,
//! slack and any costs. All rules are this project's own; the order of levels is the rate-monotonic one of Liu and
//! Layland (1973).
//!
//! No function here has a body that could be wrong, so there are no edits that must fail. That each law hangs on its
//! rules is shown in `proofs/Opposites.antt`: lists of entries of which a law is false under a wrong rule.
#![tactic(auto)]

ghost use Rattle.dk_bound.specs.Laws.{Always, AlwaysGranted, AcceptsUnfailing};
ghost use Rattle.dk_bound.specs.Standing.{ThreadsPlaced, AskersThere, ChosenHolds, HoldersKnown, StartsWithBudgets, StartsWithDemand};
ghost use Rattle.dk_config.specs.Configuration.{Configuration};
ghost use Rattle.dk_config.specs.Checked.{IsChecked};
ghost use Rattle.dk_bound.specs.Statements.{DemandFits, LockFindsFree, OneBlocks, BlocksAtMost, DenialIsTight, TimelineFits, SourceFits, ChoosesKnown, ChoosesWithCause, EndsSpent, LastTickExecutes, HoldersStand, LevelsDiffer, BeginsFree};
ghost use Rattle.dk_trace.specs.Guarantees.{Received, Bounded};

mod by_when;
mod calls;
mod lasting;
mod moves;

pub use by_when::{all_by_when_law, by_when_law, by_when_met_law};
pub use calls::{callers_law, nesting_law};
pub use lasting::lasting_law;
pub use moves::{
    clock_law, closers_law, event_cases_law, event_closes_law, event_lowers_demand_law,
    event_moves_blocking_law, holds_move_blocking_law, ready_law, rows_law, tick_keeps_threads_law,
    tick_lowers_demand_law, tick_moves_blocking_law, tick_spends_law, windows_release_law,
};

/// Window demand: each level with unfinished work still fits its window. For each level j with r_j above 0,
/// R_j + h_j is at most e_j - t, at every tick t.
#[tactic(auto, using(crate::proofs::Laws::demand_fits))]
pub fn window_demand_law()
    ensures { Always DemandFits }
{}

/// Of each window that has ended each thread had its whole share, or it was closed in the window (it waited or was
/// stopped) and paid its way out; and the kernel had exactly the ticks of its own work.
pub fn received_law()
    ensures { Always Received }
{}

/// In no window, whole or not, did a thread have more than its share, or the kernel more than its own work needs.
#[tactic(auto, using(crate::proofs::Laws::bounded))]
pub fn bounded_law()
    ensures { Always Bounded }
{}

/// A tick is one of slack exactly where a thread asks for it before anybody has work and slack fits, and then it is that
/// thread's. This needs no acceptance.
#[tactic(auto, using(crate::proofs::Laws::granted))]
pub fn granted_law()
    ensures { AlwaysGranted }
{}

/// A lock never finds its mutex held: where the thread that has the tick may lock a mutex (refusals 8, 9 and 10 don't
/// hold), nobody holds it.
#[tactic(auto, using(crate::proofs::Laws::lock_finds_free))]
pub fn lock_law()
    ensures { Always LockFindsFree }
{}

/// At most one thread keeps a level waiting.
#[tactic(auto, using(crate::proofs::Laws::one_blocks_all))]
pub fn one_blocker_law()
    ensures { Always OneBlocks }
{}

/// No level waits for a slower level's mutex longer than certification counts: h_j is at most X_j.
#[tactic(auto, using(crate::proofs::Laws::blocks_at_most))]
pub fn blocking_law()
    ensures { Always BlocksAtMost }
{}

/// A denial is tight: where slack is denied there is a level with work, and R_j + h_j is exactly e_j - t; and a denial is
/// told only there.
pub fn denial_law()
    ensures { Always DenialIsTight }
{}

/// While every level has ticks left that nobody can claim, slack fits and nobody is denied.
#[tactic(auto, using(crate::proofs::Laws::timeline_fits))]
pub fn timeline_law()
    ensures { Always TimelineFits }
{}

/// So slack whose source is the timeline fits.
#[tactic(auto, using(crate::proofs::Laws::source_fits))]
pub fn source_law()
    ensures { Always SourceFits }
{}

/// Every choice names a thread that has a row.
#[tactic(auto, using(crate::proofs::Laws::choice_known))]
pub fn choice_law()
    ensures { Always ChoosesKnown }
{}

/// A tick goes to the kernel, or to a thread on budget, only where it has something left, and in the phase that comes
/// next; and on slack only to a thread that has nothing left and asks for it.
#[tactic(auto, using(crate::proofs::Laws::with_cause))]
pub fn cause_law()
    ensures { Always ChoosesWithCause }
{}

/// Where a window ends, the threads of its level have nothing left of their shares.
#[tactic(auto, using(crate::proofs::Laws::ends_spent))]
pub fn spent_law()
    ensures { Always EndsSpent }
{}

/// A holder that is chosen in the last tick of its innermost hold executes in it: it has body left, and is not on slack.
#[tactic(auto, using(crate::proofs::Laws::last_tick))]
pub fn last_tick_law()
    ensures { Always LastTickExecutes }
{}

/// A holder has not been stopped and is not closed, and it has time for each mutex that it holds.
pub fn holders_law()
    ensures { Always HoldersStand }
{}

/// No two holders run at one level.
#[tactic(auto, using(crate::proofs::Laws::all_levels_differ))]
pub fn levels_law()
    ensures { Always LevelsDiffer }
{}

/// Nobody holds a mutex where a window of its level begins.
#[tactic(auto, using(crate::proofs::Laws::begins_free))]
pub fn begin_law()
    ensures { Always BeginsFree }
{}

/// A configuration of which no level fails is accepted.
#[tactic(auto, using(crate::proofs::Laws::accepts))]
pub fn accepted_law()
    ensures { AcceptsUnfailing }
{}

/// Each thread of a past is of a process and a level that there are.
pub fn threads_law()
    ensures { Always ThreadsPlaced }
{}

/// A thread that asks for slack is neither void nor ended.
pub fn standing_law()
    ensures { Always AskersThere }
{}

/// Whoever holds a mutex is a thread of the past, and a user of each mutex that it holds.
#[tactic(auto, using(crate::proofs::Standing::holders_known))]
pub fn known_holders_law()
    ensures { Always HoldersKnown }
{}

/// At tick 0 a level has its release work and its budgets to do, and the levels up to it need what certification counts.
pub fn start_law()
    ensures budgets { (c : Configuration) → StartsWithBudgets c }
    ensures demand { (c : Configuration) → IsChecked c → StartsWithDemand c }
{}

/// The choice goes to work that there is, or to a thread that asks for slack and has nothing left.
pub fn chosen_law()
    ensures { Always ChosenHolds }
{}
