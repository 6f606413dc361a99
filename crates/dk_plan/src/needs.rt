//! What the levels need without a process's budget.
ghost use Rattle.std.specs.Prelude.{◌≡◌, ◌/◌, ◌<◌, ◌≤◌, length, sum_by};
ghost use Rattle.dk_config.specs.Certification.{budgets_at, level_demand};
ghost use Rattle.dk_config.specs.Checked.{IsChecked, IsWithinLimits};
ghost use Rattle.dk_config.specs.Windows.{main_level, period};
ghost use Rattle.dk_certify.specs.Bounds.{most_budgets, most_demand, most_work};
ghost use Rattle.dk_plan.specs.Budget.{with_budget};
ghost use Rattle.dk_plan.specs.Levels.{budget_at, work_at};

use dk_certify::level_row;
use dk_config::{Config, MAX_SPAN, ProcessRow};

/// How many windows of the faster level, or of the level itself, lie in one of the level.
pub fn windows_in(config: &Config, level: u32, faster: u32) -> u32
    requires checked { IsChecked config.now }
    requires limits { IsWithinLimits config.now }
    requires faster { faster ≤ level }
    requires level { level < length config.now.levels }
    ensures windows { result ≡ period config.now level / period config.now faster }
    ensures positive { 0 < result }
    ensures few { result ≤ MAX_SPAN }
{
    level_row(config, level as usize).period / level_row(config, faster as usize).period
}

/// The level of the process.
pub(crate) fn own_level(config: &Config, process: u32) -> u32
    requires checked { IsChecked config.now }
    requires process { process < length config.now.processes }
    ensures own { result ≡ main_level config.now process }
    ensures exists { result < length config.now.levels }
{
    config.processes.as_slice()[process as usize].level
}

/// What the process adds to the budgets of the level.
fn budget_at(row: &ProcessRow, level: u32) -> u64
    ensures { result ≡ budget_at level row.now }
{
    if row.level == level {
        row.budget as u64
    } else {
        0
    }
}

/// The budgets of the level's processes together, in ticks per window of the level.
fn budgets_of(processes: &[ProcessRow], level: u32) -> u64
    requires { sum_by (budget_at level) processes.now ≤ most_budgets }
    ensures { result ≡ sum_by (budget_at level) processes.now }
{
    processes.iter().map(|row| budget_at(row, level)).sum()
}

/// The budgets of the level's processes other than this one.
fn others_at(config: &Config, process: u32, level: u32) -> u64
    requires limits { IsWithinLimits config.now }
    requires exists { process < length config.now.processes }
    ensures others { result ≡ budgets_at (with_budget config.now process 0) level }
    ensures bounded { result ≤ most_budgets }
{
    let processes = config.processes.as_slice();
    budgets_of(processes, level) - budget_at(&processes[process as usize], level)
}

/// What a faster level, or the level itself, needs in a window of the level without the process.
fn work_of_others(config: &Config, process: u32, level: u32, faster: u32) -> u64
    requires checked { IsChecked config.now }
    requires limits { IsWithinLimits config.now }
    requires process { process < length config.now.processes }
    requires faster { faster ≤ level }
    requires level { level < length config.now.levels }
    ensures work { result ≡ work_at (with_budget config.now process 0) level faster }
    ensures bounded { result ≤ most_work }
{
    let release = level_row(config, faster as usize).release;
    let each = release as u64 + others_at(config, process, faster);
    each * windows_in(config, level, faster) as u64
}

/// What the levels up to this one need in one of its windows without the process.
pub(crate) fn demand_of_others(config: &Config, process: u32, level: u32) -> u64
    requires checked { IsChecked config.now }
    requires limits { IsWithinLimits config.now }
    requires process { process < length config.now.processes }
    requires level { level < length config.now.levels }
    ensures demand { result ≡ level_demand (with_budget config.now process 0) level }
    ensures bounded { result ≤ most_demand }
{
    let mut demand = 0;
    for faster in 0..level + 1 {
        demand += work_of_others(config, process, level, faster);
    }
    demand
}
