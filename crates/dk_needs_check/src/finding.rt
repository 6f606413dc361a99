//! What the names of needs stand for.
ghost use Rattle.std.specs.Prelude.{◌≡◌, ◌<◌, length, position, IfSome};
ghost use Rattle.std.specs.Str.{bytes_eq};
ghost use Rattle.dk_config.specs.Checked.{IsWithinLimits};
ghost use Rattle.dk_config.specs.Mutex.{Mutex};
ghost use Rattle.dk_config.specs.declared.rows.ProcessRow.{ProcessRow as Process};
ghost use Rattle.dk_chain_report.specs.Finding.{process_named};
ghost use Rattle.dk_needs_check.specs.Meaning.{level_numbered, mutex_named};

use dk_config::{Config, MutexRow, ProcessRow};

fn process_row_named(rows: &[ProcessRow], name: &str) -> Option<usize>
    ensures found { result ≡ position (λ (row : Process). bytes_eq row.name name.now) rows.now }
    ensures exists { IfSome result (λ p. p < length rows.now) }
{
    rows.iter().position(|row| row.name.as_str() == name)
}

/// The number of the process of this name, in the order of the rows.
pub fn process_named(config: &Config, name: &str) -> Option<u32>
    requires limits { IsWithinLimits config.now }
    ensures found { result ≡ process_named config.now name.now }
    ensures exists { IfSome result (λ p. p < length config.now.processes) }
{
    match process_row_named(config.processes.as_slice(), name) {
        Some(process) => Some(process as u32),
        None => None,
    }
}

fn mutex_row_named(rows: &[MutexRow], name: &str) -> Option<usize>
    ensures found { result ≡ position (λ (row : Mutex). bytes_eq row.name name.now) rows.now }
    ensures exists { IfSome result (λ m. m < length rows.now) }
{
    rows.iter().position(|row| row.name.as_str() == name)
}

/// The mutex of this name.
pub(crate) fn mutex_named(config: &Config, name: &str) -> Option<u32>
    requires limits { IsWithinLimits config.now }
    ensures found { result ≡ mutex_named config.now name.now }
    ensures exists { IfSome result (λ m. m < length config.now.mutexes) }
{
    match mutex_row_named(config.mutexes.as_slice(), name) {
        Some(mutex) => Some(mutex as u32),
        None => None,
    }
}

/// The level of this number.
pub(crate) fn level_numbered(config: &Config, level: u32) -> Option<u32>
    ensures found { result ≡ level_numbered config.now level }
    ensures exists { IfSome result (λ j. j < length config.now.levels) }
{
    if (level as usize) < config.levels.len() {
        Some(level)
    } else {
        None
    }
}
