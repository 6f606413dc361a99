//! The rules of the version, of how many rows there are, and of the ranges of numbers.
ghost use Rattle.std.specs.Prelude.{◌≡◌, ◌++◌, OnOk, length};
ghost use Rattle.dk_config.specs.Tests.{each_row, outside};
ghost use Rattle.dk_config.specs.Rules.{version_tests, count_tests, cost_ranges, level_ranges, process_ranges, mutex_ranges, range_tests};
ghost use Rattle.dk_faults.specs.Faults.{HasFewRows, broken, reported};

use crate::collecting::{RowFaults, add, add_rows, fault_if, one_fault};
use dk_config::{
    Config, ConfigFault, Costs, Field, LevelRow, MAX_CHILDREN, MAX_COST, MAX_MEMORY, MAX_MUTEXES,
    MAX_PROCESSES, MAX_SPAN, MutexRow, NoMemory, ProcessRow, Section, is_outside, most_levels,
};

#[tactic(auto, using(crate::proofs::Broken::one), unfolding(dk_config::specs::Rules::version_tests))]
fn version_faults(version: u32) -> RowFaults
    ensures { reported result ≡ broken (version_tests version) }
{
    let outside = is_outside(1, 2, version);
    one_fault(fault_if(outside, 4, Section::Top, 0, Field::Version))
}

/// Rule 4: the version is 1 or 2.
pub fn add_version_faults(found: &mut Vec<ConfigFault>, config: &Config) -> Result<(), NoMemory>
    ensures { OnOk result (found.new.items ≡ found.old.items ++ broken (version_tests config.now.version)) }
{
    add(found, version_faults(config.version))
}

fn is_count_outside(low: usize, high: usize, n: usize) -> bool
    ensures { result ≡ outside low high n }
{
    n < low || n > high
}

#[tactic(auto, using(crate::proofs::Broken::three), unfolding(dk_config::specs::Rules::count_tests))]
fn count_faults(config: &Config) -> RowFaults
    ensures { reported result
        ≡ broken (count_tests config.now.version (length config.now.levels) (length config.now.processes) (length config.now.mutexes)) }
{
    let levels = is_count_outside(1, most_levels(config.version), config.levels.len());
    let processes = is_count_outside(1, MAX_PROCESSES, config.processes.len());
    let mutexes = is_count_outside(0, MAX_MUTEXES, config.mutexes.len());
    RowFaults {
        first: fault_if(levels, 5, Section::Top, 0, Field::Level),
        second: fault_if(processes, 5, Section::Top, 0, Field::Process),
        third: fault_if(mutexes, 5, Section::Top, 0, Field::Mutex),
    }
}

/// Rule 5: how many rows there are.
pub fn add_count_faults(found: &mut Vec<ConfigFault>, config: &Config) -> Result<(), NoMemory>
    ensures { OnOk result (found.new.items ≡ found.old.items
        ++ broken (count_tests config.now.version (length config.now.levels) (length config.now.processes) (length config.now.mutexes))) }
{
    add(found, count_faults(config))
}

#[tactic(auto, using(crate::proofs::Broken::two))]
fn cost_faults(costs: &Costs) -> RowFaults
    ensures { reported result ≡ broken (cost_ranges costs.now) }
{
    let switch = is_outside(0, MAX_COST, costs.switch);
    let call = is_outside(1, MAX_COST, costs.call);
    RowFaults {
        first: fault_if(switch, 6, Section::Costs, 0, Field::Switch),
        second: fault_if(call, 6, Section::Costs, 0, Field::Call),
        third: None,
    }
}

#[tactic(auto, using(crate::proofs::Broken::two))]
fn level_range(_: &Config, i: u32, level: &LevelRow) -> RowFaults
    ensures { reported result ≡ broken (level_ranges i level.now) }
{
    let period = is_outside(1, MAX_SPAN, level.period);
    let release = is_outside(0, MAX_SPAN, level.release);
    RowFaults {
        first: fault_if(period, 6, Section::Level, i, Field::Period),
        second: fault_if(release, 6, Section::Level, i, Field::Release),
        third: None,
    }
}

#[tactic(auto, using(crate::proofs::Broken::three))]
fn process_range(_: &Config, i: u32, process: &ProcessRow) -> RowFaults
    ensures { reported result ≡ broken (process_ranges i process.now) }
{
    let budget = is_outside(1, MAX_SPAN, process.budget);
    let memory = is_outside(0, MAX_MEMORY, process.memory);
    let threads = is_outside(0, MAX_CHILDREN as u32, process.threads);
    RowFaults {
        first: fault_if(budget, 6, Section::Process, i, Field::Budget),
        second: fault_if(memory, 6, Section::Process, i, Field::Memory),
        third: fault_if(threads, 6, Section::Process, i, Field::Threads),
    }
}

#[tactic(auto, using(crate::proofs::Broken::one))]
fn mutex_range(_: &Config, i: u32, mutex: &MutexRow) -> RowFaults
    ensures { reported result ≡ broken (mutex_ranges i mutex.now) }
{
    let hold = is_outside(1, MAX_SPAN, mutex.hold);
    one_fault(fault_if(hold, 6, Section::Mutex, i, Field::Hold))
}

fn add_cost_ranges(found: &mut Vec<ConfigFault>, config: &Config) -> Result<(), NoMemory>
    ensures { OnOk result (found.new.items ≡ found.old.items ++ broken (cost_ranges config.now.costs)) }
{
    add(found, cost_faults(&config.costs))
}

fn add_level_ranges(found: &mut Vec<ConfigFault>, config: &Config) -> Result<(), NoMemory>
    requires few { HasFewRows config.now }
    ensures { OnOk result (found.new.items ≡ found.old.items ++ broken (each_row level_ranges 0 config.now.levels)) }
{
    add_rows(found, config, &config.levels, level_range)
}

fn add_process_ranges(found: &mut Vec<ConfigFault>, config: &Config) -> Result<(), NoMemory>
    requires few { HasFewRows config.now }
    ensures { OnOk result (found.new.items ≡ found.old.items
        ++ broken (each_row process_ranges 0 config.now.processes)) }
{
    add_rows(found, config, &config.processes, process_range)
}

fn add_mutex_ranges(found: &mut Vec<ConfigFault>, config: &Config) -> Result<(), NoMemory>
    requires few { HasFewRows config.now }
    ensures { OnOk result (found.new.items ≡ found.old.items ++ broken (each_row mutex_ranges 0 config.now.mutexes)) }
{
    add_rows(found, config, &config.mutexes, mutex_range)
}

/// Rule 6: the ranges of the numbers.
pub fn add_range_faults(found: &mut Vec<ConfigFault>, config: &Config) -> Result<(), NoMemory>
    requires few { HasFewRows config.now }
    ensures { OnOk result (found.new.items ≡ found.old.items
        ++ broken (range_tests config.now.costs config.now.levels config.now.processes config.now.mutexes)) }
{
    add_cost_ranges(found, config)?;
    add_level_ranges(found, config)?;
    add_process_ranges(found, config)?;
    add_mutex_ranges(found, config)?;
    Ok(())
}
