//! What stands at the place of a fault, and whose it is.
ghost use Rattle.std.specs.Prelude.{◌≡◌, string_bytes, IfOk};
ghost use Rattle.dk_faults.specs.Faults.{HasFewRows};
ghost use Rattle.dk_config_report.specs.Allowed.{costs_value, level_value, mutex_value, process_value, row_name, top_value, value_at, value_text, who};

use dk_config::{Config, Field, Section, is_name};
use std::alloc::{AllocError, Global};

fn top_value(config: &Config, field: Field) -> Option<u32>
    requires few { HasFewRows config.now }
    ensures { result ≡ top_value config.now field }
{
    match field {
        Field::Version => Some(config.version),
        Field::Level => Some(config.levels.len() as u32),
        Field::Process => Some(config.processes.len() as u32),
        Field::Mutex => Some(config.mutexes.len() as u32),
        _ => None,
    }
}

fn costs_value(config: &Config, field: Field) -> Option<u32>
    ensures { result ≡ costs_value config.now field }
{
    match field {
        Field::Switch => Some(config.costs.switch),
        Field::Call => Some(config.costs.call),
        _ => None,
    }
}

fn level_value(config: &Config, row: u32, field: Field) -> Option<u32>
    ensures { result ≡ level_value config.now row field }
{
    let level = config.levels.get(row as usize)?;
    match field {
        Field::Period => Some(level.period),
        Field::Release => Some(level.release),
        _ => None,
    }
}

fn process_value(config: &Config, row: u32, field: Field) -> Option<u32>
    ensures { result ≡ process_value config.now row field }
{
    let process = config.processes.get(row as usize)?;
    match field {
        Field::Level => Some(process.level),
        Field::Budget => Some(process.budget),
        Field::Memory => Some(process.memory),
        Field::Threads => Some(process.threads),
        Field::MaxLevel => Some(process.max_level),
        _ => None,
    }
}

fn mutex_value(config: &Config, row: u32, field: Field) -> Option<u32>
    ensures { result ≡ mutex_value config.now row field }
{
    let mutex = config.mutexes.get(row as usize)?;
    match field {
        Field::Ceiling => Some(mutex.ceiling),
        Field::Hold => Some(mutex.hold),
        _ => None,
    }
}

/// The number at the place of a fault, where it is one.
pub(crate) fn value_at(config: &Config, section: Section, row: u32, field: Field) -> Option<u32>
    requires few { HasFewRows config.now }
    ensures { result ≡ value_at config.now section row field }
{
    match section {
        Section::Top => top_value(config, field),
        Section::Costs => costs_value(config, field),
        Section::Level => level_value(config, row, field),
        Section::Process => process_value(config, row, field),
        Section::Mutex => mutex_value(config, row, field),
    }
}

fn row_name(config: &Config, section: Section, row: u32) -> &str
    ensures { result.now ≡ row_name config.now section row }
{
    match section {
        Section::Process => match config.processes.get(row as usize) {
            Some(process) => process.name.as_str(),
            None => "",
        },
        Section::Mutex => match config.mutexes.get(row as usize) {
            Some(mutex) => mutex.name.as_str(),
            None => "",
        },
        _ => "",
    }
}

/// The name of the row, where it has one that is a name.
pub(crate) fn who(config: &Config, section: Section, row: u32) -> &str
    ensures { result.now ≡ who config.now section row }
{
    let name = row_name(config, section, row);
    if is_name(name.as_bytes()) { name } else { "it" }
}

/// The value that is at fault, where it is a number.
pub(crate) fn value_text(alloc: Global, value: Option<u32>) -> Result<String, AllocError>
    ensures { IfOk result (λ s. string_bytes s ≡ value_text value) }
{
    match value {
        Some(value) => format!(in alloc; " has {value}, "),
        None => String::from_str(alloc, ": "),
    }
}
