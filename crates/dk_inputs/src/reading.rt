//! What commands read and test.
ghost use Rattle.std.specs.Prelude.{◌≡◌, ◌+◌, ◌^◌, ◌<◌, ◌≤◌, false, IfOk, IfSome, IsOk, length, position, vec_len};
ghost use Rattle.std.specs.Str.{bytes_eq};
ghost use Rattle.dk_config.specs.Checked.{BreaksNoRule, IsAccepted, IsChecked, IsWithinLimits};
ghost use Rattle.dk_config.specs.declared.rows.ProcessRow.{ProcessRow as Process};
ghost use Rattle.dk_ledger.specs.Heading.{IsPrintable, name_of as name_in};
ghost use Rattle.dk_inputs.specs.Answer.{is_failed_read, is_silent};
ghost use Rattle.dk_inputs.specs.Reads.{file_at, programs_at};
ghost use Rattle.dk_inputs.specs.Follows.{Finds, Gives};
ghost use Rattle.dk_inputs.specs.Jobs.{certified, config_at, config_in, process_in};
ghost use Rattle.dk_inputs.specs.Inputs.{CanBoot, heading};

use crate::Refusal;
use dk_bound::accepted_law;
use dk_certify::{Verdict, certify};
use dk_config::{Config, MAX_CONFIG_BYTES, NoMemory, ProcessRow, Text};
use dk_ledger::Header;
use dk_loader::{LoadFault, Loaded, load, read_config};
use dk_outside::{Depot, DepotError};
use std::alloc::Global;

/// A file of at most so many bytes. `long` is the refusal of a longer one.
pub fn file_at<D: Depot>(
    alloc: Global,
    depot: &mut D,
    name: &str,
    most: u32,
    long: Refusal,
) -> Result<Vec<u8>, Refusal>
    requires room { (D.seen depot.old).given + most + 1 < 2 ^ 64 }
    requires told { is_silent long ≡ false }
    requires late { is_failed_read long ≡ false }
    ensures found { Finds (λ v. v.items) (D.seen depot.old) (D.seen depot.new) result
        (λ at. file_at at name.now most long) }
    ensures short { IfOk result (λ v. vec_len v ≤ most) }
    ensures bounded { (D.seen depot.new).given ≤ (D.seen depot.old).given + (most + 1) }
{
    match depot.read(alloc, name, most) {
        Ok(bytes) => {
            if bytes.len() > most as usize {
                Err(long)
            } else {
                Ok(bytes)
            }
        }
        Err(DepotError::Failed) => Err(Refusal::Depot),
        Err(DepotError::NoMemory) => Err(Refusal::NoMemory),
    }
}

/// The configuration in these bytes.
fn config_in(alloc: Global, bytes: &[u8]) -> Result<Config, Refusal>
    requires { length bytes.now ≤ MAX_CONFIG_BYTES }
    ensures found { Gives (λ c. c) result (config_in bytes.now) }
    ensures unbroken { IfOk result (λ c. BreaksNoRule c) }
    ensures checked { IfOk result IsChecked }
    ensures limits { IfOk result IsWithinLimits }
{
    match read_config(alloc, bytes) {
        Ok(config) => Ok(config),
        Err(LoadFault::NotToml) => Err(Refusal::NotToml),
        Err(LoadFault::Config(fault)) => Err(Refusal::Rule(fault)),
        Err(_) => Err(Refusal::NoMemory),
    }
}

/// The configuration in the file of this name.
#[tactic(auto, unfolding(crate::specs::Jobs::config_at))]
pub fn config_at<D: Depot>(alloc: Global, depot: &mut D, name: &str) -> Result<Config, Refusal>
    requires { (D.seen depot.old).given + (MAX_CONFIG_BYTES + 1) < 2 ^ 64 }
    ensures found { Finds (λ c. c) (D.seen depot.old) (D.seen depot.new) result
        (λ at. config_at at name.now) }
    ensures bounded { (D.seen depot.new).given ≤ (D.seen depot.old).given + (MAX_CONFIG_BYTES + 1) }
    ensures unbroken { IfOk result (λ c. BreaksNoRule c) }
    ensures checked { IfOk result IsChecked }
    ensures limits { IfOk result IsWithinLimits }
{
    let bytes = file_at(alloc, depot, name, MAX_CONFIG_BYTES, Refusal::LongConfig)?;
    config_in(alloc, bytes.as_slice())
}

/// The header of the ledger, where the configuration passes the certification test.
pub fn certified(alloc: Global, config: &Config) -> Result<Header, Refusal>
    requires checked { IsChecked config.now }
    requires limits { IsWithinLimits config.now }
    ensures found { Gives (λ h. h.levels) result (certified config.now) }
    ensures header { IfOk result (λ h. h ≡ heading config.now) }
    ensures printable { IfOk result IsPrintable }
    ensures accepted { IsOk result → IsAccepted config.now }
{
    accepted_law();
    match certify(config) {
        Verdict::Accepted(table) => Ok(Header::of(alloc, config, &table)?),
        Verdict::Fails {
            level,
            needs,
            window,
        } => Err(Refusal::Uncertified {
            level,
            needs,
            window,
        }),
    }
}

/// A copy of a process's name.
fn name_of(alloc: Global, header: &Header, process: u32) -> Result<Text, NoMemory>
    requires { process < length header.now.processes }
    ensures { IfOk result (λ t. t ≡ name_in header.now process) }
{
    let name = header.processes[process as usize].name.as_str();
    Ok(Text::new(String::from_str(alloc, name)?))
}

/// The configuration with the programs of its processes.
pub fn loaded<D: Depot>(
    alloc: Global,
    config: Config,
    header: &Header,
    depot: &mut D,
) -> Result<Loaded, Refusal>
    requires unbroken { BreaksNoRule config }
    requires checked { IsChecked config }
    requires accepted { IsAccepted config }
    requires limits { IsWithinLimits config }
    requires header { header.now ≡ heading config }
    requires printable { IsPrintable header.now }
    requires given { (D.seen depot.old).given < 2 ^ 63 }
    ensures found { Finds (λ l. l.programs) (D.seen depot.old) (D.seen depot.new) result
        (λ at. programs_at at config.processes) }
    ensures bootable { IfOk result (CanBoot header.now) }
    ensures config { IfOk result (λ l. l.config ≡ config) }
{
    match load(alloc, config, depot) {
        Ok(loaded) => Ok(loaded),
        Err(LoadFault::Depot) => Err(Refusal::Depot),
        Err(LoadFault::TooLong(process)) => {
            let name = name_of(alloc, header, process)?;
            Err(Refusal::LongProgram(name))
        }
        Err(_) => Err(Refusal::NoMemory),
    }
}

/// The number of the first row with the name.
fn row_named(rows: &[ProcessRow], name: &str) -> Option<usize>
    ensures found { result ≡ position (λ (row : Process). bytes_eq row.name name.now) rows.now }
    ensures exists { IfSome result (λ p. p < length rows.now) }
{
    rows.iter().position(|row| row.name.as_str() == name)
}

/// The number of the process with the name.
pub fn process_named(config: &Config, name: &str) -> Result<u32, Refusal>
    requires { IsWithinLimits config.now }
    ensures found { Gives (λ p. p) result (process_in config.now name.now) }
    ensures exists { IfOk result (λ p. p < length config.now.processes) }
{
    match row_named(config.processes.as_slice(), name) {
        Some(process) => Ok(process as u32),
        None => Err(Refusal::NoProcess),
    }
}
