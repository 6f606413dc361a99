//! All warnings of a configuration.
ghost use Rattle.std.specs.Prelude.{◌≡◌, ◌++◌, ◌<◌, flat_map, length, option_to_list, IfOk, OnOk};
ghost use Rattle.dk_config.specs.Checked.{IsChecked, IsWithinLimits};
ghost use Rattle.dk_config.specs.Sums.{below};
ghost use Rattle.dk_warnings.specs.Found.{of_mutex, of_process, of_user, warnings};

use crate::mutexes::{fast_ceiling, long_hold, own_mutex};
use crate::processes::{no_child, no_spare, short_body};
use crate::warning::Warning;
use dk_config::{Config, NoMemory};
use std::alloc::Global;

fn add(found: &mut Vec<Warning>, warning: Option<Warning>) -> Result<(), NoMemory>
    ensures { OnOk result (found.new.items ≡ found.old.items ++ option_to_list warning) }
{
    if let Some(warning) = warning {
        found.push(warning)?;
    }
    Ok(())
}

fn add_of_process(found: &mut Vec<Warning>, config: &Config, process: u32) -> Result<(), NoMemory>
    requires checked { IsChecked config.now }
    requires limits { IsWithinLimits config.now }
    requires exists { process < length config.now.processes }
    ensures { OnOk result (found.new.items ≡ found.old.items ++ of_process config.now process) }
{
    add(found, no_child(config, process))?;
    add(found, short_body(config, process))?;
    add(found, no_spare(config, process))
}

fn add_of_processes(found: &mut Vec<Warning>, config: &Config) -> Result<(), NoMemory>
    requires checked { IsChecked config.now }
    requires limits { IsWithinLimits config.now }
    ensures { OnOk result (found.new.items
        ≡ found.old.items ++ flat_map (of_process config.now) (below (length config.now.processes))) }
{
    for process in 0..config.processes.len() as u32 {
        add_of_process(found, config, process)?;
    }
    Ok(())
}

fn add_of_user(
    found: &mut Vec<Warning>,
    config: &Config,
    mutex: u32,
    process: u32,
) -> Result<(), NoMemory>
    requires checked { IsChecked config.now }
    requires limits { IsWithinLimits config.now }
    requires process { process < length config.now.processes }
    requires mutex { mutex < length config.now.mutexes }
    ensures { OnOk result (found.new.items ≡ found.old.items ++ of_user config.now mutex process) }
{
    add(found, own_mutex(config, mutex, process))?;
    add(found, long_hold(config, mutex, process))
}

fn add_of_users(found: &mut Vec<Warning>, config: &Config, mutex: u32) -> Result<(), NoMemory>
    requires checked { IsChecked config.now }
    requires limits { IsWithinLimits config.now }
    requires exists { mutex < length config.now.mutexes }
    ensures { OnOk result (found.new.items
        ≡ found.old.items ++ flat_map (of_user config.now mutex) (below (length config.now.processes))) }
{
    for process in 0..config.processes.len() as u32 {
        add_of_user(found, config, mutex, process)?;
    }
    Ok(())
}

fn add_of_mutex(found: &mut Vec<Warning>, config: &Config, mutex: u32) -> Result<(), NoMemory>
    requires checked { IsChecked config.now }
    requires limits { IsWithinLimits config.now }
    requires exists { mutex < length config.now.mutexes }
    ensures { OnOk result (found.new.items ≡ found.old.items ++ of_mutex config.now mutex) }
{
    add(found, fast_ceiling(config, mutex))?;
    add_of_users(found, config, mutex)
}

fn add_of_mutexes(found: &mut Vec<Warning>, config: &Config) -> Result<(), NoMemory>
    requires checked { IsChecked config.now }
    requires limits { IsWithinLimits config.now }
    ensures { OnOk result (found.new.items
        ≡ found.old.items ++ flat_map (of_mutex config.now) (below (length config.now.mutexes))) }
{
    for mutex in 0..config.mutexes.len() as u32 {
        add_of_mutex(found, config, mutex)?;
    }
    Ok(())
}

/// All that the configuration allows and can't be meant: by processes, and then by mutexes and their users.
/// `warnings_law` says what each means for every run. `Err` is want of memory.
pub fn warnings(alloc: Global, config: &Config) -> Result<Vec<Warning>, NoMemory>
    requires checked { IsChecked config.now }
    requires limits { IsWithinLimits config.now }
    ensures { IfOk result (λ found. found.items ≡ warnings config.now) }
{
    let mut found = Vec::new(alloc);
    add_of_processes(&mut found, config)?;
    add_of_mutexes(&mut found, config)?;
    Ok(found)
}
