//! The rules of periods, of the levels that rows name, of budgets and of slowest levels.
ghost use Rattle.std.specs.Prelude.{◌≡◌, ◌++◌, ◌-◌, ◌&&◌, ◌||◌, ◌+◌, ◌==◌, nat_lt, nat_le, not, false, slice_get, OnOk, length};
ghost use Rattle.std.specs.Option.{option_map_or};
ghost use Rattle.dk_config.specs.Tests.{each_row};
ghost use Rattle.dk_config.specs.Rules.{follows, period_order, period_tests, process_level, mutex_ceiling, level_tests, budget_room, budget_tests, slowest_level, slowest_tests};
ghost use Rattle.dk_faults.specs.Faults.{HasFewRows, broken, reported};

use crate::collecting::{RowFaults, add_rows, fault_if, one_fault};
use dk_config::{
    Config, ConfigFault, Field, LevelRow, MutexRow, NoMemory, ProcessRow, Section, is_in_order,
};

fn is_out_of_order(config: &Config, i: u32, level: &LevelRow) -> bool
    ensures { result
        ≡ (nat_lt 0 i
        && option_map_or (λ before. not (follows before level.now)) (slice_get config.now.levels (i - 1)) false) }
{
    if i == 0 {
        return false;
    }
    match config.levels.get(i as usize - 1) {
        Some(before) => !is_in_order(before, level),
        None => false,
    }
}

#[tactic(auto, using(crate::proofs::Broken::one))]
fn period_order(config: &Config, i: u32, level: &LevelRow) -> RowFaults
    ensures { reported result ≡ broken (period_order config.now.levels i level.now) }
{
    let wrong = is_out_of_order(config, i, level);
    one_fault(fault_if(wrong, 7, Section::Level, i, Field::Period))
}

/// Rule 7: each period is a multiple of the one before, and at least twice it.
#[tactic(auto, unfolding(dk_config::specs::Rules::period_tests))]
pub fn add_period_faults(found: &mut Vec<ConfigFault>, config: &Config) -> Result<(), NoMemory>
    requires few { HasFewRows config.now }
    ensures { OnOk result (found.new.items ≡ found.old.items ++ broken (period_tests config.now.levels)) }
{
    add_rows(found, config, &config.levels, period_order)
}

#[tactic(auto, using(crate::proofs::Broken::one))]
fn process_level(config: &Config, i: u32, process: &ProcessRow) -> RowFaults
    ensures { reported result ≡ broken (process_level (length config.now.levels) i process.now) }
{
    let past = process.level as usize >= config.levels.len();
    one_fault(fault_if(past, 10, Section::Process, i, Field::Level))
}

#[tactic(auto, using(crate::proofs::Broken::one))]
fn mutex_ceiling(config: &Config, i: u32, mutex: &MutexRow) -> RowFaults
    ensures { reported result ≡ broken (mutex_ceiling (length config.now.levels) i mutex.now) }
{
    let past = mutex.ceiling as usize >= config.levels.len();
    one_fault(fault_if(past, 10, Section::Mutex, i, Field::Ceiling))
}

fn add_process_levels(found: &mut Vec<ConfigFault>, config: &Config) -> Result<(), NoMemory>
    requires few { HasFewRows config.now }
    ensures { OnOk result (found.new.items ≡ found.old.items
        ++ broken (each_row (process_level (length config.now.levels)) 0 config.now.processes)) }
{
    add_rows(found, config, &config.processes, process_level)
}

fn add_mutex_ceilings(found: &mut Vec<ConfigFault>, config: &Config) -> Result<(), NoMemory>
    requires few { HasFewRows config.now }
    ensures { OnOk result (found.new.items ≡ found.old.items
        ++ broken (each_row (mutex_ceiling (length config.now.levels)) 0 config.now.mutexes)) }
{
    add_rows(found, config, &config.mutexes, mutex_ceiling)
}

/// Rule 10: the levels of processes and mutexes are there.
pub fn add_level_faults(found: &mut Vec<ConfigFault>, config: &Config) -> Result<(), NoMemory>
    requires few { HasFewRows config.now }
    ensures { OnOk result (found.new.items ≡ found.old.items
        ++ broken (level_tests (length config.now.levels) config.now.processes config.now.mutexes)) }
{
    add_process_levels(found, config)?;
    add_mutex_ceilings(found, config)?;
    Ok(())
}

#[tactic(auto, using(crate::proofs::Broken::one))]
fn budget_room(config: &Config, i: u32, process: &ProcessRow) -> RowFaults
    ensures { reported result ≡ broken (budget_room config.now.costs.switch i process.now) }
{
    let short = (process.budget as u64) < 2 * config.costs.switch as u64 + 1;
    one_fault(fault_if(short, 11, Section::Process, i, Field::Budget))
}

/// Rule 11: a budget has room for both switches and one tick.
#[tactic(auto, unfolding(dk_config::specs::Rules::budget_tests))]
pub fn add_budget_faults(found: &mut Vec<ConfigFault>, config: &Config) -> Result<(), NoMemory>
    requires few { HasFewRows config.now }
    ensures { OnOk result (found.new.items ≡ found.old.items
        ++ broken (budget_tests config.now.costs.switch config.now.processes)) }
{
    add_rows(found, config, &config.processes, budget_room)
}

fn is_wrong_slowest(config: &Config, process: &ProcessRow) -> bool
    ensures { let levels = length config.now.levels in
        result ≡ ((nat_lt process.now.max_level process.now.level || nat_le levels process.now.max_level)
        || (config.now.version == 1 && not (process.now.max_level + 1 == levels))) }
{
    let levels = config.levels.len();
    let slowest = process.max_level as usize;
    process.max_level < process.level
        || slowest >= levels
        || (config.version == 1 && slowest + 1 != levels)
}

#[tactic(auto, using(crate::proofs::Broken::one))]
fn slowest_level(config: &Config, i: u32, process: &ProcessRow) -> RowFaults
    ensures { reported result ≡ broken (slowest_level config.now.version (length config.now.levels) i process.now) }
{
    let wrong = is_wrong_slowest(config, process);
    one_fault(fault_if(wrong, 13, Section::Process, i, Field::MaxLevel))
}

/// Rule 13: the slowest level of the children is there and no faster than the main's; in version 1 it is the last.
#[tactic(auto, unfolding(dk_config::specs::Rules::slowest_tests))]
pub fn add_slowest_faults(found: &mut Vec<ConfigFault>, config: &Config) -> Result<(), NoMemory>
    requires few { HasFewRows config.now }
    ensures { OnOk result (found.new.items ≡ found.old.items
        ++ broken (slowest_tests config.now.version (length config.now.levels) config.now.processes)) }
{
    add_rows(found, config, &config.processes, slowest_level)
}
