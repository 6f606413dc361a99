//! How far each number of a layout can go.
ghost use Rattle.std.specs.Prelude.{◌≡◌, ◌≤◌, ◌<◌, length, None, option_and_then, IfSome};
ghost use Rattle.dk_config.specs.declared.TheConstants.{MAX_COST, MAX_SPAN};
ghost use Rattle.dk_plan.specs.Budget.{with_budget};
ghost use Rattle.dk_margins.specs.Margins.{IsGreatest, Stands, limit_of, switch_limit_of, with_hold, with_release, with_switch};
ghost use Rattle.show_layout.specs.Margins.{IsGrowthReach, IsReach, IsSwitchReach};

use dk_config::Layout;
use dk_growth::{greatest_growth, growth_limit};
use dk_margins::{
    budget_limit, greatest_hold, greatest_release, greatest_switch, hold_limit, release_limit,
    switch_limit,
};
use dk_plan::greatest_budget;

/// How far a number can go.
#[derive(Clone, Copy)]
pub struct Reach {
    /// The greatest that it can be, if there is one.
    pub most: Option<u32>,
    /// The row that stands in the way of one more, if one does.
    pub limit: Option<u32>,
}

/// A number that can't be any.
fn nowhere() -> Reach
    ensures { result ≡ record { most = None; limit = None } }
{
    Reach {
        most: None,
        limit: None,
    }
}

fn most_budget(layout: &Layout, process: u32) -> Option<u32>
    requires exists { process < length layout.now.processes }
    ensures greatest { IsGreatest (λ n. Stands (with_budget layout.now process n)) result }
    ensures few { IfSome result (λ most. most ≤ MAX_SPAN) }
{
    greatest_budget(layout.config(), process)
}

/// How far the budget can go.
pub(crate) fn budget_reach(layout: &Layout, process: u32) -> Reach
    requires exists { process < length layout.now.processes }
    ensures { IsReach (with_budget layout.now process) result }
{
    match most_budget(layout, process) {
        Some(most) => Reach {
            most: Some(most),
            limit: budget_limit(layout.config(), process, most),
        },
        None => nowhere(),
    }
}

/// How far the hold can go.
pub(crate) fn hold_reach(layout: &Layout, mutex: u32) -> Reach
    requires exists { mutex < length layout.now.mutexes }
    ensures { IsReach (with_hold layout.now mutex) result }
{
    let config = layout.config();
    match greatest_hold(config, mutex) {
        Some(most) => Reach {
            most: Some(most),
            limit: hold_limit(config, mutex, most),
        },
        None => nowhere(),
    }
}

/// How far the release can go.
pub(crate) fn release_reach(layout: &Layout, level: u32) -> Reach
    requires exists { level < length layout.now.levels }
    ensures { IsReach (with_release layout.now level) result }
{
    let config = layout.config();
    match greatest_release(config, level) {
        Some(most) => Reach {
            most: Some(most),
            limit: release_limit(config, level, most),
        },
        None => nowhere(),
    }
}

/// The first process whose budget has no room for a switch of one tick more.
fn short_process(layout: &Layout, most: u32) -> Option<u32>
    requires { most ≤ MAX_COST }
    ensures limit { result ≡ switch_limit_of layout.now most }
    ensures exists { IfSome result (λ p. p < length layout.now.processes) }
{
    match switch_limit(layout.config(), most) {
        Some(process) => Some(process as u32),
        None => None,
    }
}

/// How far the cost of a switch can go.
pub(crate) fn switch_reach(layout: &Layout) -> Reach
    ensures is { IsSwitchReach layout.now result }
    ensures exists { IfSome result.limit (λ p. p < length layout.now.processes) }
{
    match greatest_switch(layout.config()) {
        Some(most) => Reach {
            most: Some(most),
            limit: short_process(layout, most),
        },
        None => nowhere(),
    }
}

/// By how many percent all budgets can grow at once.
pub(crate) fn growth_reach(layout: &Layout) -> Reach
    ensures { IsGrowthReach layout.now result }
{
    let config = layout.config();
    match greatest_growth(config) {
        Some(most) => Reach {
            most: Some(most),
            limit: growth_limit(config, most),
        },
        None => nowhere(),
    }
}
