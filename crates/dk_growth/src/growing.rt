//! The greatest percentage by which all budgets can grow at once.
ghost use Rattle.std.specs.Prelude.{◌≡◌, ◌+◌, ◌<◌, ◌≤◌, ◌↔◌, true, false, length, All, IsTrue, IfSome, IfNone};
ghost use Rattle.dk_config.specs.Checked.{BreaksNoRule, IsAccepted, IsChecked, IsWithinLimits};
ghost use Rattle.dk_plan.specs.Budget.{IsCertified};
ghost use Rattle.dk_margins.specs.Margins.{Stands};
ghost use Rattle.dk_growth.specs.Growth.{FitsGrown, GrowsUpTo, IsGrowth, StaysInRange, grown};
ghost use Rattle.dk_growth.specs.declared.TheConstants.{TOO_MANY_PERCENT};

use crate::TOO_MANY_PERCENT;
use crate::demands::{grown_budget, grown_demand};
use dk_certify::{level_row, longest_delay};
use dk_config::{Config, MAX_SPAN, ProcessRow};

/// Whether the budget is in its range when it has grown.
fn stays_in_range(percent: u32, row: &ProcessRow) -> bool
    ensures { IsTrue result ↔ StaysInRange percent row.now }
{
    grown_budget(row.budget, percent) <= MAX_SPAN as u64
}

/// Whether all budgets are.
pub(crate) fn all_stay_in_range(percent: u32, processes: &[ProcessRow]) -> bool
    ensures { IsTrue result ↔ All (StaysInRange percent) processes.now }
{
    processes.iter().all(|row| stays_in_range(percent, row))
}

/// Whether the level fits its windows with the budgets grown.
pub(crate) fn fits_grown(config: &Config, percent: u32, level: u32) -> bool
    requires checked { IsChecked config.now }
    requires limits { IsWithinLimits config.now }
    requires grown { IsWithinLimits (grown config.now percent) }
    requires level { level < length config.now.levels }
    ensures fits { result ≡ true → FitsGrown config.now percent level }
    ensures fails { result ≡ false → ¬ FitsGrown config.now percent level }
{
    let window = level_row(config, level as usize).period;
    let demand = grown_demand(config, percent, level);
    let blocking = longest_delay(config, level, config.mutexes.as_slice());
    demand + blocking as u64 <= window as u64
}

/// Whether all levels do.
fn all_fit_grown(config: &Config, percent: u32) -> bool
    requires checked { IsChecked config.now }
    requires limits { IsWithinLimits config.now }
    requires grown { IsWithinLimits (grown config.now percent) }
    ensures fit { result ≡ true → IsAccepted (grown config.now percent) }
    ensures fails { result ≡ false → ¬ IsAccepted (grown config.now percent) }
{
    for level in 0..config.levels.len() as u32 {
        if !fits_grown(config, percent, level) {
            return false;
        }
    }
    true
}

/// Whether the configuration breaks none of the rules C4 to C13 and is accepted with the budgets grown.
fn stands_grown(config: &Config, percent: u32) -> bool
    requires unbroken { BreaksNoRule config.now }
    requires checked { IsChecked config.now }
    requires limits { IsWithinLimits config.now }
    ensures stands { result ≡ true → Stands (grown config.now percent) }
    ensures fails { result ≡ false → ¬ Stands (grown config.now percent) }
{
    if !all_stay_in_range(percent, config.processes.as_slice()) {
        return false;
    }
    all_fit_grown(config, percent)
}

/// The greatest percentage by which every budget can grow at once, each rounded up to a whole tick, so that the
/// configuration breaks none of the rules C4 to C13 and is accepted; `None` where it isn't accepted as it is.
///
/// A greater percentage makes no budget less, so the percentages are searched by halves, in at most 28 tests. The
/// field calls the answer the critical scaling factor of the budgets (Lehoczky, Sha and Ding, 1989), here in whole
/// percent above 100.
pub fn greatest_growth(config: &Config) -> Option<u32>
    requires unbroken { BreaksNoRule config.now }
    requires checked { IsChecked config.now }
    requires limits { IsWithinLimits config.now }
    ensures greatest { IsGrowth config.now result }
    ensures each { GrowsUpTo config.now result }
    ensures none { IfNone result (¬ IsCertified config.now) }
    ensures few { IfSome result (λ most. most < TOO_MANY_PERCENT) }
{
    if !stands_grown(config, 0) {
        return None;
    }
    let mut most = 0;
    let mut too_many = TOO_MANY_PERCENT;
    while most + 1 < too_many {
        let middle = (most + too_many) / 2;
        if stands_grown(config, middle) {
            most = middle;
        } else {
            too_many = middle;
        }
    }
    Some(most)
}
