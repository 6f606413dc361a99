ghost use Rattle.std.specs.Prelude.{ℕ, ◌+◌, ◌<◌, ◌≤◌, List, None, length};
ghost use Rattle.dk_config.specs.declared.TheConstants.{MAX_TICKS};
ghost use Rattle.dk_config.specs.Configuration.{Configuration};
ghost use Rattle.dk_trace.specs.declared.ThreadId.{ThreadId};
ghost use Rattle.dk_trace.specs.declared.Phase.{Phase};
ghost use Rattle.dk_trace.specs.declared.Source.{Source};
ghost use Rattle.dk_trace.specs.declared.Choice.{Choice};
ghost use Rattle.dk_trace.specs.declared.Entry.{Entry};
ghost use Rattle.dk_recount.specs.Tables.{HasFamilies, IsSound, Tables};
ghost use Rattle.dk_recount.specs.Recount.{IsReady};
ghost use Rattle.dk_recount.specs.Stretching.{Computes, EndsAfter, Lends, MayComputeFor, MayCountFor, Passes, Rests, computed, lent, rested};

use crate::event_laws::untold_event_is_booked;
use crate::laws::{charging_makes_the_recount, choice_is_the_pasts};
use crate::question_laws::holds_are_the_pasts;
use crate::turning::opening_makes_the_next_tick;

/// Where nobody has work or asks for slack, the ticks before the end of the fastest level's window are nobody's,
/// and move nothing but the clock and the unclaimed ticks.
pub fn resting_makes_the_recount()
    ensures passes { (n : ℕ) (d : Tables) → IsSound d → HasFamilies d → Rests d → EndsAfter n d
        → Passes Choice.Idle n d (rested n d) }
    ensures counts { (n : ℕ) (c : Configuration) (past : List Entry) (d : Tables) → IsReady c past d → IsSound d
        → HasFamilies d → Rests d → EndsAfter n d → length past + n ≤ MAX_TICKS → MayCountFor n None d.slack }
{
    choice_is_the_pasts();
    charging_makes_the_recount();
    opening_makes_the_next_tick();
    untold_event_is_booked();
    holds_are_the_pasts();
}

/// Where a thread that holds nothing computes for so many ticks and the tables choose it as long, the ticks before the
/// end of the fastest level's window are its own, and move its job, the demand, the clock and the unclaimed ticks.
pub fn computing_makes_the_recount()
    ensures passes { (n : ℕ) (x : ThreadId) (d : Tables) → IsSound d → HasFamilies d → Computes x n d → EndsAfter n d
        → Passes (Choice.Budget x Phase.Body) n d (computed x n d) }
    ensures may { (n : ℕ) (x : ThreadId) (c : Configuration) (past : List Entry) (d : Tables) → IsReady c past d → IsSound d
        → HasFamilies d → Computes x n d → EndsAfter n d → length past + n ≤ MAX_TICKS → 0 < n
        → MayComputeFor x n d }
{
    choice_is_the_pasts();
    charging_makes_the_recount();
    opening_makes_the_next_tick();
    untold_event_is_booked();
    holds_are_the_pasts();
}

/// Where a thread that holds nothing has so many ticks of slack, after which it asks for more, and the tables choose it
/// as long, the ticks before the end of the fastest level's window are its own, and move its wish, the clock and the
/// unclaimed ticks.
pub fn lending_makes_the_recount()
    ensures passes { (n : ℕ) (x : ThreadId) (source : Source) (d : Tables) → IsSound d → HasFamilies d → Lends x source n d
        → EndsAfter n d → Passes (Choice.Slack x source Phase.Body) n d (lent x n d) }
    ensures counts { (n : ℕ) (x : ThreadId) (source : Source) (c : Configuration) (past : List Entry) (d : Tables)
        → IsReady c past d → IsSound d → HasFamilies d → Lends x source n d → EndsAfter n d
        → length past + n ≤ MAX_TICKS → 0 < n → MayCountFor n None d.slack }
{
    choice_is_the_pasts();
    charging_makes_the_recount();
    opening_makes_the_next_tick();
    untold_event_is_booked();
    holds_are_the_pasts();
}
