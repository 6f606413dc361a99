//! What the levels need when every budget has grown.
ghost use Rattle.std.specs.Prelude.{◌≡◌, ◌<◌, ◌≤◌, length, sum_by};
ghost use Rattle.dk_config.specs.Certification.{level_demand};
ghost use Rattle.dk_config.specs.Checked.{IsChecked, IsWithinLimits};
ghost use Rattle.dk_certify.specs.Bounds.{most_budgets, most_demand, most_work};
ghost use Rattle.dk_plan.specs.Levels.{work_at};
ghost use Rattle.dk_growth.specs.Growth.{grown, grown_at, grown_budget};

use dk_certify::level_row;
use dk_config::{Config, ProcessRow};
use dk_plan::windows_in;

/// The budget and so many percent of it more, rounded up to a whole tick.
pub(crate) fn grown_budget(budget: u32, percent: u32) -> u64
    ensures { result ≡ grown_budget percent budget }
{
    budget as u64 + (budget as u64 * percent as u64 + 99) / 100
}

/// What the process adds to the budgets of the level when it has grown.
fn grown_at(row: &ProcessRow, percent: u32, level: u32) -> u64
    ensures { result ≡ grown_at percent level row.now }
{
    if row.level == level {
        grown_budget(row.budget, percent)
    } else {
        0
    }
}

/// The grown budgets of the level's processes together, in ticks per window of the level.
fn grown_budgets_of(processes: &[ProcessRow], percent: u32, level: u32) -> u64
    requires { sum_by (grown_at percent level) processes.now ≤ most_budgets }
    ensures { result ≡ sum_by (grown_at percent level) processes.now }
{
    processes
        .iter()
        .map(|row| grown_at(row, percent, level))
        .sum()
}

/// What a faster level, or the level itself, needs in a window of the level with the budgets grown.
fn grown_work(config: &Config, percent: u32, level: u32, faster: u32) -> u64
    requires checked { IsChecked config.now }
    requires limits { IsWithinLimits config.now }
    requires grown { IsWithinLimits (grown config.now percent) }
    requires faster { faster ≤ level }
    requires level { level < length config.now.levels }
    ensures work { result ≡ work_at (grown config.now percent) level faster }
    ensures bounded { result ≤ most_work }
{
    let release = level_row(config, faster as usize).release;
    let each = release as u64 + grown_budgets_of(config.processes.as_slice(), percent, faster);
    each * windows_in(config, level, faster) as u64
}

/// What the levels up to this one need in one of its windows with the budgets grown.
pub(crate) fn grown_demand(config: &Config, percent: u32, level: u32) -> u64
    requires checked { IsChecked config.now }
    requires limits { IsWithinLimits config.now }
    requires grown { IsWithinLimits (grown config.now percent) }
    requires level { level < length config.now.levels }
    ensures demand { result ≡ level_demand (grown config.now percent) level }
    ensures bounded { result ≤ most_demand }
{
    let mut demand = 0;
    for faster in 0..level + 1 {
        demand += grown_work(config, percent, level, faster);
    }
    demand
}
