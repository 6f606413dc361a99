ghost use Rattle.std.specs.Prelude.{◌≡◌, ◌<◌, List, [], length};
ghost use Rattle.dk_config.specs.Checked.{IsAccepted, IsChecked, IsWithinLimits};
ghost use Rattle.dk_recount.specs.Start.{tables_at_start};
ghost use Rattle.dk_config.specs.Configuration.{Configuration};
ghost use Rattle.dk_trace.specs.declared.Entry.{Entry};
ghost use Rattle.dk_trace.specs.Choices.{chosen, denied};
ghost use Rattle.dk_recount.specs.Charging.{MayCharge, charged};
ghost use Rattle.dk_recount.specs.Tables.{HasFamilies, Tables};
ghost use Rattle.dk_recount.specs.Recount.{IsCharged, IsReady};
ghost use Rattle.dk_recount.specs.Choosing.{choice_of, denial_of};
ghost use Rattle.dk_recount.specs.Premises.{WhereReady};

use crate::needed::choosing_laws;
use dk_bound::{
    blocking_law, chosen_law, holds_move_blocking_law, nesting_law, rows_law, start_law,
    tick_lowers_demand_law, tick_spends_law, window_demand_law,
};
use dk_config::MAX_TICKS;
use dk_demand::first_unfit_is_the_pasts;
use dk_mutex::{holds_are_the_pasts, levels_are_the_pasts};
use dk_slack::wishes_are_the_pasts;

/// The tables at the start are the recount of no entries.
pub fn start_is_the_recount()
    ensures { (c : Configuration) → IsChecked c → IsWithinLimits c → IsAccepted c
        → IsReady c [] (tables_at_start c) }
{
    dk_threads::start_is_the_recount();
    dk_budget::start_is_the_recount();
    dk_mutex::start_is_the_recount();
    dk_slack::start_is_the_recount();
    dk_ready::start_is_the_recount();
    start_law();
}

/// Tables that are the recount of a past choose as the past does.
pub fn choice_is_the_pasts()
    ensures { (c : Configuration) (past : List Entry) (d : Tables) → IsReady c past d → HasFamilies d
        → choice_of d ≡ chosen c past }
{
    choosing_laws();
}

/// And they tell the level that slack is denied for, where it is denied.
pub fn denial_is_the_pasts()
    ensures { (c : Configuration) (past : List Entry) (d : Tables) → IsReady c past d → HasFamilies d
        → denial_of d ≡ denied c past }
{
    choosing_laws();
    window_demand_law();
    first_unfit_is_the_pasts();
}

/// Tables that are the recount of a past may be charged with the tick that it chooses, and are then the
/// recount of the past with that tick's entry, whatever is done in it, where there is room for one more.
pub fn charging_makes_the_recount()
    ensures may { WhereReady (λ c label past d. MayCharge (chosen c past) d) }
    ensures charged { WhereReady (λ c label past d. length past < MAX_TICKS
        → IsCharged c label past (charged (chosen c past) d)) }
{
    choosing_laws();
    rows_law();
    nesting_law();
    chosen_law();
    blocking_law();
    tick_spends_law();
    tick_lowers_demand_law();
    holds_move_blocking_law();
    dk_threads::tick_keeps_the_recount();
    dk_demand::tick_keeps_the_recount();
    dk_mutex::tick_keeps_the_recount();
    dk_slack::tick_keeps_the_recount();
    dk_ready::tick_keeps_the_recount();
    dk_ready::jobs_are_the_pasts();
    levels_are_the_pasts();
    holds_are_the_pasts();
    wishes_are_the_pasts();
}
