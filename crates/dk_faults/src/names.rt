//! The rules of names: their spelling, and that none stands twice.
ghost use Rattle.std.specs.Prelude.{◌≡◌, ◌++◌, OnOk};
ghost use Rattle.dk_config.specs.Tests.{each_row};
ghost use Rattle.dk_config.specs.Rules.{process_names, mutex_names, name_tests, process_again, mutex_again, again_tests};
ghost use Rattle.dk_faults.specs.Faults.{HasFewRows, broken, reported};

use crate::collecting::{RowFaults, add_rows, fault_if, one_fault};
use dk_config::{
    Config, ConfigFault, Field, MutexRow, NoMemory, ProcessRow, Section, has_mutex, has_process,
    is_file_name, is_name,
};

#[tactic(auto, using(crate::proofs::Broken::two))]
fn process_name(_: &Config, i: u32, process: &ProcessRow) -> RowFaults
    ensures { reported result ≡ broken (process_names i process.now) }
{
    let name = !is_name(process.name.as_str().as_bytes());
    let program = !is_file_name(process.program.as_str().as_bytes());
    RowFaults {
        first: fault_if(name, 8, Section::Process, i, Field::Name),
        second: fault_if(program, 8, Section::Process, i, Field::Program),
        third: None,
    }
}

#[tactic(auto, using(crate::proofs::Broken::one))]
fn mutex_name(_: &Config, i: u32, mutex: &MutexRow) -> RowFaults
    ensures { reported result ≡ broken (mutex_names i mutex.now) }
{
    let name = !is_name(mutex.name.as_str().as_bytes());
    one_fault(fault_if(name, 8, Section::Mutex, i, Field::Name))
}

#[tactic(auto, using(crate::proofs::Broken::one))]
fn process_name_again(config: &Config, i: u32, process: &ProcessRow) -> RowFaults
    ensures { reported result ≡ broken (process_again config.now.processes i process.now) }
{
    let before = config.processes.len().min(i as usize);
    let again = has_process(&config.processes[..before], process.name.as_str());
    one_fault(fault_if(again, 9, Section::Process, i, Field::Name))
}

#[tactic(auto, using(crate::proofs::Broken::one))]
fn mutex_name_again(config: &Config, i: u32, mutex: &MutexRow) -> RowFaults
    ensures { reported result ≡ broken (mutex_again config.now.mutexes i mutex.now) }
{
    let before = config.mutexes.len().min(i as usize);
    let again = has_mutex(&config.mutexes[..before], mutex.name.as_str());
    one_fault(fault_if(again, 9, Section::Mutex, i, Field::Name))
}

fn add_process_names(found: &mut Vec<ConfigFault>, config: &Config) -> Result<(), NoMemory>
    requires few { HasFewRows config.now }
    ensures { OnOk result (found.new.items ≡ found.old.items
        ++ broken (each_row process_names 0 config.now.processes)) }
{
    add_rows(found, config, &config.processes, process_name)
}

fn add_mutex_names(found: &mut Vec<ConfigFault>, config: &Config) -> Result<(), NoMemory>
    requires few { HasFewRows config.now }
    ensures { OnOk result (found.new.items ≡ found.old.items ++ broken (each_row mutex_names 0 config.now.mutexes)) }
{
    add_rows(found, config, &config.mutexes, mutex_name)
}

/// Rule 8: the spelling of names and of files' names.
pub fn add_name_faults(found: &mut Vec<ConfigFault>, config: &Config) -> Result<(), NoMemory>
    requires few { HasFewRows config.now }
    ensures { OnOk result (found.new.items ≡ found.old.items
        ++ broken (name_tests config.now.processes config.now.mutexes)) }
{
    add_process_names(found, config)?;
    add_mutex_names(found, config)?;
    Ok(())
}

fn add_processes_again(found: &mut Vec<ConfigFault>, config: &Config) -> Result<(), NoMemory>
    requires few { HasFewRows config.now }
    ensures { OnOk result (found.new.items ≡ found.old.items
        ++ broken (each_row (process_again config.now.processes) 0 config.now.processes)) }
{
    add_rows(found, config, &config.processes, process_name_again)
}

fn add_mutexes_again(found: &mut Vec<ConfigFault>, config: &Config) -> Result<(), NoMemory>
    requires few { HasFewRows config.now }
    ensures { OnOk result (found.new.items ≡ found.old.items
        ++ broken (each_row (mutex_again config.now.mutexes) 0 config.now.mutexes)) }
{
    add_rows(found, config, &config.mutexes, mutex_name_again)
}

/// Rule 9: no two processes, and no two mutexes, have one name.
pub fn add_again_faults(found: &mut Vec<ConfigFault>, config: &Config) -> Result<(), NoMemory>
    requires few { HasFewRows config.now }
    ensures { OnOk result (found.new.items ≡ found.old.items
        ++ broken (again_tests config.now.processes config.now.mutexes)) }
{
    add_processes_again(found, config)?;
    add_mutexes_again(found, config)?;
    Ok(())
}
