//! What a process is allowed and can't use.
ghost use Rattle.std.specs.Prelude.{◌≡◌, ◌<◌, ◌==◌, length};
ghost use Rattle.dk_config.specs.Certification.{spare};
ghost use Rattle.dk_config.specs.Checked.{IsChecked, IsWithinLimits};
ghost use Rattle.dk_config.specs.Windows.{may_ask, slots};
ghost use Rattle.dk_warnings.specs.Found.{body, full_level, has_no_child, no_child, no_spare, short_body};

use crate::holds::child_share;
use crate::warning::Warning;
use dk_certify::{demand_of, level_row, longest_delay};
use dk_config::Config;

/// How many children the process may have, and 0 where there is no such row.
pub(crate) fn slots_of(config: &Config, process: u32) -> u32
    ensures { result ≡ slots config.now process }
{
    match config.processes.get(process as usize) {
        Some(row) => row.threads,
        None => 0,
    }
}

/// Whether the process may have children, and no child fits its budget.
fn has_no_child(config: &Config, process: u32) -> bool
    requires checked { IsChecked config.now }
    requires limits { IsWithinLimits config.now }
    requires exists { process < length config.now.processes }
    ensures { result ≡ has_no_child config.now process }
{
    let least = 2 * config.costs.switch + 1;
    slots_of(config, process) > 0 && child_share(config, process) < least as u64
}

pub(crate) fn no_child(config: &Config, process: u32) -> Option<Warning>
    requires checked { IsChecked config.now }
    requires limits { IsWithinLimits config.now }
    requires exists { process < length config.now.processes }
    ensures { result ≡ no_child config.now process }
{
    if has_no_child(config, process) {
        Some(Warning::NoChild { process })
    } else {
        None
    }
}

/// What both switches leave of the budget.
fn body_of(config: &Config, process: u32) -> u32
    requires checked { IsChecked config.now }
    requires limits { IsWithinLimits config.now }
    requires exists { process < length config.now.processes }
    ensures { result ≡ body config.now process }
{
    config.processes.as_slice()[process as usize].budget - 2 * config.costs.switch
}

pub(crate) fn short_body(config: &Config, process: u32) -> Option<Warning>
    requires checked { IsChecked config.now }
    requires limits { IsWithinLimits config.now }
    requires exists { process < length config.now.processes }
    ensures { result ≡ short_body config.now process }
{
    let body = body_of(config, process);
    if body < config.costs.call {
        Some(Warning::ShortBody { process, body })
    } else {
        None
    }
}

fn may_ask(config: &Config, process: u32) -> bool
    ensures { result ≡ may_ask config.now process }
{
    match config.processes.get(process as usize) {
        Some(row) => row.slack,
        None => false,
    }
}

/// Whether the level has no tick to spare.
fn is_full(config: &Config, level: u32) -> bool
    requires checked { IsChecked config.now }
    requires limits { IsWithinLimits config.now }
    requires exists { level < length config.now.levels }
    ensures { result ≡ (spare config.now level == 0) }
{
    let window = level_row(config, level as usize).period;
    let demand = demand_of(config, level as usize);
    let blocking = longest_delay(config, level, config.mutexes.as_slice());
    demand + blocking as u64 >= window as u64
}

/// The first level that has no tick to spare.
fn full_level(config: &Config) -> Option<u32>
    requires checked { IsChecked config.now }
    requires limits { IsWithinLimits config.now }
    ensures { result ≡ full_level config.now }
{
    for level in 0..config.levels.len() as u32 {
        if is_full(config, level) {
            return Some(level);
        }
    }
    None
}

pub(crate) fn no_spare(config: &Config, process: u32) -> Option<Warning>
    requires checked { IsChecked config.now }
    requires limits { IsWithinLimits config.now }
    ensures { result ≡ no_spare config.now process }
{
    if !may_ask(config, process) {
        return None;
    }
    match full_level(config) {
        Some(level) => Some(Warning::NoSpare { process, level }),
        None => None,
    }
}
