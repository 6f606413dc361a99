//! The greatest budget of a process.
ghost use Rattle.std.specs.Prelude.{ℕ, ◌≡◌, ◌+◌, ◌<◌, ◌≤◌, length, IfSome, IfNone};
ghost use Rattle.dk_config.specs.Checked.{BreaksNoRule, IsChecked, IsWithinLimits};
ghost use Rattle.dk_config.specs.Windows.{period};
ghost use Rattle.dk_plan.specs.Budget.{CanHave, NoGreater};
ghost use Rattle.dk_plan.specs.Levels.{AllFit, HoldsUpTo, LevelFits, needs_of_others};

use crate::needs::{demand_of_others, own_level, windows_in};
use dk_certify::{level_row, longest_delay};
use dk_config::{Config, MAX_SPAN};

/// What the others leave of a window of the level, and `None` where they need more than all of it.
fn room_at(config: &Config, process: u32, level: u32) -> Option<u64>
    requires checked { IsChecked config.now }
    requires limits { IsWithinLimits config.now }
    requires process { process < length config.now.processes }
    requires level { level < length config.now.levels }
    ensures room { let needs = needs_of_others config.now process level in
        IfSome result (λ room. room + needs ≡ period config.now level) }
    ensures none { IfNone result (period config.now level < needs_of_others config.now process level) }
    ensures few { IfSome result (λ room. room ≤ MAX_SPAN) }
{
    let window = level_row(config, level as usize).period;
    let needs = demand_of_others(config, process, level)
        + longest_delay(config, level, config.mutexes.as_slice()) as u64;
    (window as u64).checked_sub(needs)
}

/// The greatest budget of the process up to 1,000,000 with which the level fits its windows, and
/// `None` where it doesn't with any.
pub fn most_at(config: &Config, process: u32, level: u32) -> Option<u32>
    requires checked { IsChecked config.now }
    requires limits { IsWithinLimits config.now }
    requires process { process < length config.now.processes }
    requires level { level < length config.now.levels }
    ensures limit { IfSome result (λ most. HoldsUpTo most (LevelFits config.now process level)) }
    ensures none { IfNone result ((b : ℕ) → ¬ LevelFits config.now process level b) }
{
    let room = room_at(config, process, level)?;
    let own = own_level(config, process);
    if level < own {
        return Some(MAX_SPAN);
    }
    Some(room as u32 / windows_in(config, level, own))
}

/// The greatest budget of the process up to 1,000,000 with which all levels fit, and `None` where
/// they don't with any.
fn most_accepted(config: &Config, process: u32) -> Option<u32>
    requires checked { IsChecked config.now }
    requires limits { IsWithinLimits config.now }
    requires process { process < length config.now.processes }
    ensures limit { IfSome result (λ most. HoldsUpTo most (AllFit config.now process)) }
    ensures none { IfNone result ((b : ℕ) → ¬ AllFit config.now process b) }
    ensures few { IfSome result (λ most. most ≤ MAX_SPAN) }
{
    let mut most = MAX_SPAN;
    for level in 0..config.levels.len() as u32 {
        most = most.min(most_at(config, process, level)?);
    }
    Some(most)
}

/// The greatest budget up to 1,000,000 with which the process leaves the configuration checked and
/// certified, whatever budget it has now; `None` where there is none. It needs no memory.
///
/// These budgets are an interval: each level bounds them from above, and the costs of both switches
/// and one tick of work from below. The rules are this project's own.
pub fn greatest_budget(config: &Config, process: u32) -> Option<u32>
    requires unbroken { BreaksNoRule config.now }
    requires checked { IsChecked config.now }
    requires limits { IsWithinLimits config.now }
    requires exists { process < length config.now.processes }
    ensures reached { IfSome result (CanHave config.now process) }
    ensures no_greater { NoGreater config.now process result }
    ensures few { IfSome result (λ most. most ≤ MAX_SPAN) }
{
    let most = most_accepted(config, process)?;
    if most < 2 * config.costs.switch + 1 {
        return None;
    }
    Some(most)
}
