//! A certified configuration with its programs, read from a depot.
ghost use Rattle.std.specs.Prelude.{◌≡◌, ◌≢◌, ◌+◌, ◌^◌, ◌<◌, ◌≤◌, IfOk, IfErr, IfSome, length, Err, None};
ghost use Rattle.dk_config.specs.declared.TheConstants.{MAX_CONFIG_BYTES};
ghost use Rattle.dk_config.specs.Checked.{BreaksNoRule, IsAccepted, IsChecked, IsWithinLimits};
ghost use Rattle.dk_certify.specs.Verdicts.{verdict_of};
ghost use Rattle.dk_loader.specs.declared.fault.LoadFault.TheVariants as fault;
ghost use Rattle.dk_loader.specs.Programs.{bytes_read, loading};
ghost use Rattle.dk_loader.specs.Reading.{reading};
ghost use Rattle.dk_show.specs.Asking.{Asks, handed_load, handed_out};
ghost use Rattle.dk_show.specs.Leaves.{Reads};
ghost use Rattle.dk_show.specs.Loading.{IsCertifiedLoad, Loads, certified, certified_at, certified_in, loaded, programs_of};

use crate::Refusal;
use crate::files::file_at;
use dk_certify::{Verdict, certify};
use dk_config::{Config, MAX_CONFIG_BYTES};
use dk_loader::{LoadFault, Loaded, load, read_config};
use dk_outside::Depot;
use std::alloc::Global;

/// The configuration, where it is certified.
fn certified(config: Config) -> Result<Config, Refusal>
    requires checked { IsChecked config }
    requires limits { IsWithinLimits config }
    ensures is { result ≡ certified config (verdict_of config) }
    ensures accepted { IfOk result IsAccepted }
{
    match certify(&config) {
        Verdict::Accepted(_) => Ok(config),
        Verdict::Fails {
            level,
            needs,
            window,
        } => Err(Refusal::Uncertified {
            level,
            needs,
            window,
        }),
    }
}

/// The certified configuration of the document in these bytes.
fn certified_in(alloc: Global, bytes: &[u8]) -> Result<Config, Refusal>
    requires { length bytes.now ≤ MAX_CONFIG_BYTES }
    ensures loads { Loads result (certified_in (reading bytes.now)) }
    ensures unbroken { IfOk result BreaksNoRule }
    ensures checked { IfOk result IsChecked }
    ensures accepted { IfOk result IsAccepted }
    ensures limits { IfOk result IsWithinLimits }
    ensures read { IfErr result (λ e. e ≢ Refusal.Depot) }
{
    match read_config(alloc, bytes) {
        Ok(config) => certified(config),
        Err(LoadFault::NotToml) => Err(Refusal::NotToml),
        Err(LoadFault::Config(fault)) => Err(Refusal::Rule(fault)),
        Err(_) => Err(Refusal::NoMemory),
    }
}

/// The certified configuration in the file of this name.
pub(crate) fn certified_at<D: Depot>(
    alloc: Global,
    name: &str,
    depot: &mut D,
) -> Result<Config, Refusal>
    requires { (D.seen depot.old).given < 2 ^ 62 + 2 ^ 30 }
    ensures loads { IfSome (D.seen depot.old).files (λ at. Loads result (certified_at (at name.now))) }
    ensures unbroken { IfOk result BreaksNoRule }
    ensures checked { IfOk result IsChecked }
    ensures accepted { IfOk result IsAccepted }
    ensures limits { IfOk result IsWithinLimits }
    ensures given { (D.seen depot.new).given ≤ (D.seen depot.old).given + (MAX_CONFIG_BYTES + 1) }
    ensures asks { Asks (D.seen depot.old).files (λ at. handed_out MAX_CONFIG_BYTES (at name.now)) (λ at. at name.now ≡ None)
        (D.seen depot.old) (D.seen depot.new) result }
    ensures reads { Reads (D.seen depot.old) (D.seen depot.new) result }
{
    let bytes = file_at(alloc, depot, name, MAX_CONFIG_BYTES, Refusal::LongConfig)?;
    certified_in(alloc, bytes.as_slice())
}

/// The configuration with the programs of its processes.
pub(crate) fn with_programs<D: Depot>(
    alloc: Global,
    config: Config,
    depot: &mut D,
) -> Result<Loaded, Refusal>
    requires unbroken { BreaksNoRule config }
    requires checked { IsChecked config }
    requires accepted { IsAccepted config }
    requires limits { IsWithinLimits config }
    requires given { (D.seen depot.old).given < 2 ^ 63 }
    ensures loads { IfSome (D.seen depot.old).files (λ at. Loads result (programs_of (loading at config))) }
    ensures certified { IfOk result IsCertifiedLoad }
    ensures given { (D.seen depot.new).given ≤ (D.seen depot.old).given + 2 ^ 29 }
    ensures asks { Asks (D.seen depot.old).files (λ at. bytes_read at config.processes) (λ at. loading at config ≡ Err fault.Depot)
        (D.seen depot.old) (D.seen depot.new) result }
    ensures reads { Reads (D.seen depot.old) (D.seen depot.new) result }
{
    match load(alloc, config, depot) {
        Ok(loaded) => Ok(loaded),
        Err(LoadFault::Depot) => Err(Refusal::Depot),
        Err(LoadFault::TooLong(process)) => Err(Refusal::LongProgram(process)),
        Err(_) => Err(Refusal::NoMemory),
    }
}

/// The certified configuration in the file of this name, with the programs of its processes.
pub(crate) fn loaded_at<D: Depot>(
    alloc: Global,
    name: &str,
    depot: &mut D,
) -> Result<Loaded, Refusal>
    requires { (D.seen depot.old).given < 2 ^ 62 + 2 ^ 30 }
    ensures loads { IfSome (D.seen depot.old).files (λ at. Loads result (loaded at name.now)) }
    ensures certified { IfOk result IsCertifiedLoad }
    ensures given { (D.seen depot.new).given ≤ (D.seen depot.old).given + 2 ^ 30 }
    ensures asks { Asks (D.seen depot.old).files (λ at. handed_load at name.now) (λ at. loaded at name.now ≡ Err Refusal.Depot)
        (D.seen depot.old) (D.seen depot.new) result }
    ensures reads { Reads (D.seen depot.old) (D.seen depot.new) result }
{
    let config = certified_at(alloc, name, depot)?;
    with_programs(alloc, config, depot)
}
