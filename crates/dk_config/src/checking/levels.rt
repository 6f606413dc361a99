//! The rules of periods, of the levels that rows name, of budgets and of slowest levels.
ghost use Rattle.std.specs.Prelude.{◌≡◌, ◌^◌, ◌<◌, length};
ghost use Rattle.dk_config.specs.Tests.{first_broken};
ghost use Rattle.dk_config.specs.Rules.{follows, period_order, period_tests, process_level, mutex_ceiling, level_tests, budget_room, budget_tests, slowest_level, slowest_tests};

use crate::checking::{first_fault_in, make_fault};
use crate::{Config, ConfigFault, Field, LevelRow, MutexRow, ProcessRow, Section};

/// Whether the second level's period is a multiple of the first one's, and at least twice it.
pub fn is_in_order(before: &LevelRow, level: &LevelRow) -> bool
    ensures { result ≡ follows before.now level.now }
{
    level.period.is_multiple_of(before.period) && level.period as u64 >= 2 * before.period as u64
}

fn period_order_fault(config: &Config, i: u32, level: &LevelRow) -> Option<ConfigFault>
    ensures { result ≡ first_broken (period_order config.now.levels i level.now) }
{
    if i == 0 {
        return None;
    }
    if let Some(before) = config.levels.get(i as usize - 1) {
        if !is_in_order(before, level) {
            return Some(make_fault(7, Section::Level, i, Field::Period));
        }
    }
    None
}

/// Rule 7: each period is a multiple of the one before, and at least twice it.
#[tactic(auto, unfolding(crate::specs::Rules::period_tests))]
pub fn period_fault(config: &Config) -> Option<ConfigFault>
    requires { length config.now.levels < 2 ^ 32 }
    ensures { result ≡ first_broken (period_tests config.now.levels) }
{
    first_fault_in(config, &config.levels, period_order_fault)
}

fn process_level_fault(config: &Config, i: u32, process: &ProcessRow) -> Option<ConfigFault>
    ensures { result ≡ first_broken (process_level (length config.now.levels) i process.now) }
{
    if process.level as usize >= config.levels.len() {
        return Some(make_fault(10, Section::Process, i, Field::Level));
    }
    None
}

fn mutex_ceiling_fault(config: &Config, i: u32, mutex: &MutexRow) -> Option<ConfigFault>
    ensures { result ≡ first_broken (mutex_ceiling (length config.now.levels) i mutex.now) }
{
    if mutex.ceiling as usize >= config.levels.len() {
        return Some(make_fault(10, Section::Mutex, i, Field::Ceiling));
    }
    None
}

/// Rule 10: the levels of processes and mutexes are there.
#[tactic(auto, using(crate::proofs::FirstBroken::append_some, crate::proofs::FirstBroken::append_none), unfolding(crate::specs::Rules::level_tests))]
pub fn level_fault(config: &Config) -> Option<ConfigFault>
    requires processes { length config.now.processes < 2 ^ 32 }
    requires mutexes { length config.now.mutexes < 2 ^ 32 }
    ensures { result ≡ first_broken (level_tests (length config.now.levels) config.now.processes config.now.mutexes) }
{
    if let Some(f) = first_fault_in(config, &config.processes, process_level_fault) {
        return Some(f);
    }
    first_fault_in(config, &config.mutexes, mutex_ceiling_fault)
}

fn budget_room_fault(config: &Config, i: u32, process: &ProcessRow) -> Option<ConfigFault>
    ensures { result ≡ first_broken (budget_room config.now.costs.switch i process.now) }
{
    if (process.budget as u64) < 2 * config.costs.switch as u64 + 1 {
        return Some(make_fault(11, Section::Process, i, Field::Budget));
    }
    None
}

/// Rule 11: a budget has room for both switches and one tick.
#[tactic(auto, unfolding(crate::specs::Rules::budget_tests))]
pub fn budget_fault(config: &Config) -> Option<ConfigFault>
    requires { length config.now.processes < 2 ^ 32 }
    ensures { result ≡ first_broken (budget_tests config.now.costs.switch config.now.processes) }
{
    first_fault_in(config, &config.processes, budget_room_fault)
}

fn slowest_level_fault(config: &Config, i: u32, process: &ProcessRow) -> Option<ConfigFault>
    ensures { result ≡ first_broken (slowest_level config.now.version (length config.now.levels) i process.now) }
{
    let levels = config.levels.len();
    let slowest = process.max_level as usize;
    if process.max_level < process.level
        || slowest >= levels
        || (config.version == 1 && slowest + 1 != levels)
    {
        return Some(make_fault(13, Section::Process, i, Field::MaxLevel));
    }
    None
}

/// Rule 13: the slowest level of the children is there and no faster than the main's; in version 1 it is the last.
#[tactic(auto, unfolding(crate::specs::Rules::slowest_tests))]
pub fn slowest_fault(config: &Config) -> Option<ConfigFault>
    requires { length config.now.processes < 2 ^ 32 }
    ensures { result ≡ first_broken (slowest_tests config.now.version (length config.now.levels) config.now.processes) }
{
    first_fault_in(config, &config.processes, slowest_level_fault)
}
