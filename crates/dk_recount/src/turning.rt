ghost use Rattle.std.specs.Prelude.{◌≡◌, ◌+◌, ◌*◌, ◌≤◌, ◌∷◌, List, length, false};
ghost use Rattle.dk_config.specs.Configuration.{Configuration};
ghost use Rattle.dk_trace.specs.declared.Entry.{Entry};
ghost use Rattle.dk_trace.specs.Audit.{Audited};
ghost use Rattle.dk_windows.specs.Clock.{begins_at};
ghost use Rattle.dk_recount.specs.Tables.{Tables};
ghost use Rattle.dk_recount.specs.Premises.{WhereClosed};
ghost use Rattle.dk_recount.specs.Recount.{IsClosed, IsReady};
ghost use Rattle.dk_recount.specs.Counts.{moved};
ghost use Rattle.dk_recount.specs.Opening.{MayBegin, due, open_steps, opened};

use dk_bound::{clock_law, lasting_law, ready_law, rows_law, standing_law, windows_release_law};
use dk_budget::{
    child_shares_are_the_pasts, future_shares_are_the_pasts, main_shares_are_the_pasts,
};
use dk_windows::windows_are_the_configurations;

/// Tables of a closed tick whose entry follows the rules are those of the next tick once it is opened. Its
/// windows may begin once those have ended and started who are due. It takes at most three steps for each
/// level, and two for each thread that the tick moves. Where no window begins nobody is due.
pub fn opening_makes_the_next_tick()
    ensures may { WhereClosed (λ c e past d. MayBegin (due d)) }
    ensures opens { WhereClosed (λ c e past d. IsReady c (e ∷ past) (opened d)) }
    ensures steps { WhereClosed (λ c e past d. open_steps d ≤ 3 * length c.levels + 2 * moved c (e ∷ past)) }
    ensures rests { (c : Configuration) (e : Entry) (past : List Entry) (d : Tables)
        → IsClosed c e past d → Audited c (e ∷ past) → begins_at d.demand.windows 0 ≡ false → due d ≡ d }
{
    windows_are_the_configurations();
    dk_threads::opening_keeps_the_recount();
    dk_budget::opening_keeps_the_recount();
    dk_slack::opening_keeps_the_recount();
    main_shares_are_the_pasts();
    child_shares_are_the_pasts();
    future_shares_are_the_pasts();
    clock_law();
    ready_law();
    windows_release_law();
    rows_law();
    standing_law();
    lasting_law();
    dk_demand::opening_keeps_the_recount();
}
