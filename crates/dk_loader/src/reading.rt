//! A configuration, read from a document and checked.
ghost use Rattle.std.specs.Prelude.{◌≡◌, ◌≢◌, ◌≤◌, IfOk, IfErr, IsErrOf, None, Some, Err, length};
ghost use Rattle.toml.specs.View.{table_view};
ghost use Rattle.dk_loader.specs.Keys.{HasFewRows};
ghost use Rattle.dk_loader.specs.Reading.{document, reading, reading_of, shaped, shaped_of, answer_of, HasCountedRows, IsReadFault};
ghost use Rattle.dk_config.specs.Checked.{BreaksNoRule, IsChecked, IsWithinLimits};
ghost use Rattle.dk_config.specs.Rules.{all_tests};
ghost use Rattle.dk_config.specs.Tests.{first_broken};

use crate::build::config_of;
use crate::fault::LoadFault;
use crate::shape::shape_fault;
use dk_config::{Config, MAX_CONFIG_BYTES, check};
use std::alloc::Global;
use toml::Table;

/// The table of a document. It has few rows, since each of them takes a byte or a line.
#[tactic(auto, unfolding(crate::specs::Reading::document))]
pub(crate) fn table_of(alloc: Global, bytes: &[u8]) -> Result<Table, LoadFault>
    requires { length bytes.now ≤ MAX_CONFIG_BYTES }
    ensures few { IfOk result (λ t. HasFewRows (table_view t)) }
    ensures ok { IfOk result (λ t. document bytes.now ≡ Some (table_view t)) }
    ensures not_toml { IsErrOf result LoadFault.NotToml → document bytes.now ≡ None }
    ensures only { IfErr result (λ e. e ≢ LoadFault.NotToml → e ≡ LoadFault.NoMemory) }
    ensures kind { IfErr result IsReadFault }
{
    match toml::de::table_from_slice(alloc, bytes) {
        Ok(table) => Ok(table),
        Err(e) if e.is_memory() => Err(LoadFault::NoMemory),
        Err(_) => Err(LoadFault::NotToml),
    }
}

/// The configuration, or the first of the rules C4 to C13 that it breaks.
fn checked(config: Config) -> Result<Config, LoadFault>
    ensures answer { result ≡ answer_of config (first_broken (all_tests config)) }
    ensures checked { IfOk result (λ c. BreaksNoRule c) }
    ensures rows { IfOk result IsChecked }
    ensures limits { IfOk result IsWithinLimits }
    ensures kind { IfErr result IsReadFault }
{
    match check(&config) {
        Some(f) => Err(LoadFault::Config(f)),
        None => Ok(config),
    }
}

fn read_table(alloc: Global, table: &Table) -> Result<Config, LoadFault>
    requires { HasFewRows (table_view table.now) }
    ensures reading { result ≢ Err LoadFault.NoMemory → result ≡ reading_of (table_view table.now) }
    ensures checked { IfOk result (λ c. BreaksNoRule c) }
    ensures rows { IfOk result IsChecked }
    ensures limits { IfOk result IsWithinLimits }
    ensures kind { IfErr result IsReadFault }
{
    if let Some(f) = shape_fault(table) {
        return Err(LoadFault::Config(f));
    }
    checked(config_of(alloc, table)?)
}

fn shaped_table(alloc: Global, table: &Table) -> Result<Config, LoadFault>
    requires { HasFewRows (table_view table.now) }
    ensures shaped { result ≢ Err LoadFault.NoMemory → result ≡ shaped_of (table_view table.now) }
    ensures few { IfOk result HasCountedRows }
    ensures kind { IfErr result IsReadFault }
{
    if let Some(f) = shape_fault(table) {
        return Err(LoadFault::Config(f));
    }
    Ok(config_of(alloc, table)?)
}

/// The configuration that a document of TOML stands for, whatever of the rules C4 to C13 it breaks.
///
/// - `NotToml`: the bytes are no document by the definition of `toml`.
/// - `Config(f)`: `f` is the first of the rules C1 to C3 that the document breaks.
/// - `NoMemory`: want of memory.
#[tactic(auto, unfolding(crate::specs::Reading::shaped))]
pub fn read_shaped(alloc: Global, bytes: &[u8]) -> Result<Config, LoadFault>
    requires { length bytes.now ≤ MAX_CONFIG_BYTES }
    ensures shaped { result ≢ Err LoadFault.NoMemory → result ≡ shaped bytes.now }
    ensures few { IfOk result HasCountedRows }
    ensures kind { IfErr result IsReadFault }
{
    let table = table_of(alloc, bytes)?;
    shaped_table(alloc, &table)
}

/// The configuration that a document of TOML stands for.
///
/// - `NotToml`: the bytes are no document by the definition of `toml`.
/// - `Config(f)`: `f` is the first of the rules C1 to C13 that the document breaks.
/// - `NoMemory`: want of memory.
///
/// Ok is a checked configuration. The call never answers `Depot` or `TooLong`.
#[tactic(auto, unfolding(crate::specs::Reading::reading))]
pub fn read_config(alloc: Global, bytes: &[u8]) -> Result<Config, LoadFault>
    requires { length bytes.now ≤ MAX_CONFIG_BYTES }
    ensures reading { result ≢ Err LoadFault.NoMemory → result ≡ reading bytes.now }
    ensures checked { IfOk result (λ c. BreaksNoRule c) }
    ensures rows { IfOk result IsChecked }
    ensures limits { IfOk result IsWithinLimits }
    ensures kind { IfErr result IsReadFault }
{
    let table = table_of(alloc, bytes)?;
    read_table(alloc, &table)
}
