//! The rules of the version, of how many rows there are, and of the ranges of numbers.
ghost use Rattle.std.specs.Prelude.{◌≡◌, ◌==◌, ◌^◌, ◌<◌, ◌≤◌, IfNone, if◌then◌else◌, length};
ghost use Rattle.dk_config.specs.Tests.{first_broken, outside};
ghost use Rattle.dk_config.specs.Rules.{version_tests, count_tests, cost_ranges, level_ranges, process_ranges, mutex_ranges, range_tests};

use crate::checking::{first_fault, make_fault};
use crate::{
    Config, ConfigFault, Costs, Field, LevelRow, MAX_CHILDREN, MAX_COST, MAX_LEVELS, MAX_LEVELS_1,
    MAX_MEMORY, MAX_MUTEXES, MAX_PROCESSES, MAX_SPAN, MutexRow, ProcessRow, Section,
};

/// Whether the number is less than the least or more than the greatest that is allowed.
pub fn is_outside(low: u32, high: u32, n: u32) -> bool
    ensures { result ≡ outside low high n }
{
    n < low || n > high
}

/// Rule 4: the version is 1 or 2.
#[tactic(auto, unfolding(crate::specs::Rules::version_tests))]
pub fn version_fault(version: u32) -> Option<ConfigFault>
    ensures { result ≡ first_broken (version_tests version) }
{
    if is_outside(1, 2, version) {
        return Some(make_fault(4, Section::Top, 0, Field::Version));
    }
    None
}

/// The greatest number of levels in this version.
pub fn most_levels(version: u32) -> usize
    ensures { result ≡ (if version == 2 then MAX_LEVELS else MAX_LEVELS_1) }
{
    if version == 2 {
        MAX_LEVELS
    } else {
        MAX_LEVELS_1
    }
}

/// Rule 5: how many rows there are. At None there are few.
#[tactic(auto, unfolding(crate::specs::Rules::count_tests))]
pub fn count_fault(config: &Config) -> Option<ConfigFault>
    ensures fault { result ≡ first_broken
        (count_tests config.now.version (length config.now.levels) (length config.now.processes) (length config.now.mutexes)) }
    ensures few_levels { IfNone result (length config.now.levels ≤ MAX_LEVELS) }
    ensures few_processes { IfNone result (length config.now.processes ≤ MAX_PROCESSES) }
    ensures few_mutexes { IfNone result (length config.now.mutexes ≤ MAX_MUTEXES) }
{
    let levels = config.levels.len();
    if levels < 1 || levels > most_levels(config.version) {
        return Some(make_fault(5, Section::Top, 0, Field::Level));
    }
    let processes = config.processes.len();
    if processes < 1 || processes > MAX_PROCESSES {
        return Some(make_fault(5, Section::Top, 0, Field::Process));
    }
    if config.mutexes.len() > MAX_MUTEXES {
        return Some(make_fault(5, Section::Top, 0, Field::Mutex));
    }
    None
}

fn cost_range(costs: &Costs) -> Option<ConfigFault>
    ensures { result ≡ first_broken (cost_ranges costs.now) }
{
    if is_outside(0, MAX_COST, costs.switch) {
        return Some(make_fault(6, Section::Costs, 0, Field::Switch));
    }
    if is_outside(1, MAX_COST, costs.call) {
        return Some(make_fault(6, Section::Costs, 0, Field::Call));
    }
    None
}

fn level_range(i: u32, level: &LevelRow) -> Option<ConfigFault>
    ensures { result ≡ first_broken (level_ranges i level.now) }
{
    if is_outside(1, MAX_SPAN, level.period) {
        return Some(make_fault(6, Section::Level, i, Field::Period));
    }
    if is_outside(0, MAX_SPAN, level.release) {
        return Some(make_fault(6, Section::Level, i, Field::Release));
    }
    None
}

fn process_range(i: u32, process: &ProcessRow) -> Option<ConfigFault>
    ensures { result ≡ first_broken (process_ranges i process.now) }
{
    if is_outside(1, MAX_SPAN, process.budget) {
        return Some(make_fault(6, Section::Process, i, Field::Budget));
    }
    if is_outside(0, MAX_MEMORY, process.memory) {
        return Some(make_fault(6, Section::Process, i, Field::Memory));
    }
    if is_outside(0, MAX_CHILDREN as u32, process.threads) {
        return Some(make_fault(6, Section::Process, i, Field::Threads));
    }
    None
}

fn mutex_range(i: u32, mutex: &MutexRow) -> Option<ConfigFault>
    ensures { result ≡ first_broken (mutex_ranges i mutex.now) }
{
    if is_outside(1, MAX_SPAN, mutex.hold) {
        return Some(make_fault(6, Section::Mutex, i, Field::Hold));
    }
    None
}

/// Rule 6: the ranges of the numbers.
#[tactic(auto, using(crate::proofs::FirstBroken::append_some, crate::proofs::FirstBroken::append_none), unfolding(crate::specs::Rules::range_tests))]
pub fn range_fault(config: &Config) -> Option<ConfigFault>
    requires levels { length config.now.levels < 2 ^ 32 }
    requires processes { length config.now.processes < 2 ^ 32 }
    requires mutexes { length config.now.mutexes < 2 ^ 32 }
    ensures { result ≡ first_broken (range_tests config.now.costs config.now.levels config.now.processes config.now.mutexes) }
{
    if let Some(f) = cost_range(&config.costs) {
        return Some(f);
    }
    if let Some(f) = first_fault(&config.levels, level_range) {
        return Some(f);
    }
    if let Some(f) = first_fault(&config.processes, process_range) {
        return Some(f);
    }
    first_fault(&config.mutexes, mutex_range)
}
