//! The rules of names: their spelling, and that none stands twice.
ghost use Rattle.std.specs.Prelude.{◌≡◌, ◌^◌, ◌<◌, length};
ghost use Rattle.std.specs.List.{list_any};
ghost use Rattle.std.specs.Str.{bytes_eq};
ghost use Rattle.dk_config.specs.Tests.{first_broken};
ghost use Rattle.dk_config.specs.Rules.{process_names, mutex_names, name_tests, process_again, mutex_again, again_tests};

use crate::checking::users::find_process;
use crate::checking::{first_fault, first_fault_in, make_fault};
use crate::name::{is_file_name, is_name};
use crate::{Config, ConfigFault, Field, MutexRow, ProcessRow, Section};

/// Whether a process has this name.
pub fn has_process(processes: &[ProcessRow], name: &str) -> bool
    ensures { result ≡ list_any (λ q. bytes_eq q.name name.now) processes.now }
{
    find_process(processes, name).is_some()
}

/// Whether a mutex has this name.
pub fn has_mutex(mutexes: &[MutexRow], name: &str) -> bool
    ensures { result ≡ list_any (λ q. bytes_eq q.name name.now) mutexes.now }
{
    mutexes.iter().any(|q| q.name.as_str() == name)
}

fn process_name(i: u32, process: &ProcessRow) -> Option<ConfigFault>
    ensures { result ≡ first_broken (process_names i process.now) }
{
    if !is_name(process.name.as_str().as_bytes()) {
        return Some(make_fault(8, Section::Process, i, Field::Name));
    }
    if !is_file_name(process.program.as_str().as_bytes()) {
        return Some(make_fault(8, Section::Process, i, Field::Program));
    }
    None
}

fn mutex_name(i: u32, mutex: &MutexRow) -> Option<ConfigFault>
    ensures { result ≡ first_broken (mutex_names i mutex.now) }
{
    if !is_name(mutex.name.as_str().as_bytes()) {
        return Some(make_fault(8, Section::Mutex, i, Field::Name));
    }
    None
}

/// Rule 8: the spelling of names and of files' names.
#[tactic(auto, using(crate::proofs::FirstBroken::append_some, crate::proofs::FirstBroken::append_none), unfolding(crate::specs::Rules::name_tests))]
pub fn name_fault(config: &Config) -> Option<ConfigFault>
    requires processes { length config.now.processes < 2 ^ 32 }
    requires mutexes { length config.now.mutexes < 2 ^ 32 }
    ensures { result ≡ first_broken (name_tests config.now.processes config.now.mutexes) }
{
    if let Some(f) = first_fault(&config.processes, process_name) {
        return Some(f);
    }
    first_fault(&config.mutexes, mutex_name)
}

fn process_name_again(config: &Config, i: u32, process: &ProcessRow) -> Option<ConfigFault>
    ensures { result ≡ first_broken (process_again config.now.processes i process.now) }
{
    let before = config.processes.len().min(i as usize);
    if has_process(&config.processes[..before], process.name.as_str()) {
        return Some(make_fault(9, Section::Process, i, Field::Name));
    }
    None
}

fn mutex_name_again(config: &Config, i: u32, mutex: &MutexRow) -> Option<ConfigFault>
    ensures { result ≡ first_broken (mutex_again config.now.mutexes i mutex.now) }
{
    let before = config.mutexes.len().min(i as usize);
    if has_mutex(&config.mutexes[..before], mutex.name.as_str()) {
        return Some(make_fault(9, Section::Mutex, i, Field::Name));
    }
    None
}

/// Rule 9: no two processes, and no two mutexes, have one name.
#[tactic(auto, using(crate::proofs::FirstBroken::append_some, crate::proofs::FirstBroken::append_none), unfolding(crate::specs::Rules::again_tests))]
pub fn again_fault(config: &Config) -> Option<ConfigFault>
    requires processes { length config.now.processes < 2 ^ 32 }
    requires mutexes { length config.now.mutexes < 2 ^ 32 }
    ensures { result ≡ first_broken (again_tests config.now.processes config.now.mutexes) }
{
    if let Some(f) = first_fault_in(config, &config.processes, process_name_again) {
        return Some(f);
    }
    first_fault_in(config, &config.mutexes, mutex_name_again)
}
