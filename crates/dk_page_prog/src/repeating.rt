//! What repeats in a run, of which the page tells more.
ghost use Rattle.std.specs.Prelude.{◌≡◌, ◌≢◌, ◌≤◌, ◌<◌, ◌^◌, IfErr, IfOk, IfSome, IsErrOf, Err, Some, length};
ghost use Rattle.dk_certify.specs.Verdicts.{verdict_of};
ghost use Rattle.dk_config.specs.declared.TheConstants.{MAX_CONFIG_BYTES};
ghost use Rattle.dk_config.specs.Checked.{BreaksNoRule, IsAccepted, IsChecked, IsWithinLimits};
ghost use Rattle.dk_kernel.specs.Booting.{IsLoaded};
ghost use Rattle.dk_loader.specs.declared.fault.LoadFault.{LoadFault};
ghost use Rattle.dk_loader.specs.Programs.{loading};
ghost use Rattle.dk_loader.specs.Reading.{reading};
ghost use Rattle.dk_outside.specs.Counts.{Rises};
ghost use Rattle.dk_page_prog.specs.Repeating.{AddsPrograms, ComesTo, TellsRepeats, search_asked, search_certified, search_read};

use dk_certify::{Verdict, certify};
use dk_config::{Config, MAX_CONFIG_BYTES};
use dk_loader::{LoadFault, Loaded, load, read_config};
use dk_outside::Depot;
use dk_page::{Additions, RepeatsTold, program_additions, repeats_additions};
use dk_repeat_search::find_repeats;
use std::alloc::{AllocError, Global};

/// The files of the programs, one for each process.
fn programs_of(alloc: Global, loaded: &Loaded) -> Result<Additions, AllocError>
    requires { length loaded.now.programs ≡ length loaded.now.config.processes }
    ensures { IfOk result (AddsPrograms loaded.now.config.processes loaded.now.programs) }
{
    let mut added = Additions::none(alloc);
    let mut left = loaded.programs.len();
    while left > 0 {
        left -= 1;
        let name = loaded.config.processes[left].program.as_str();
        let one = program_additions(alloc, name, loaded.programs[left].bytes())?;
        added = one.with(&added)?;
    }
    Ok(added)
}

/// What repeats in the run of a configuration with its programs, and these.
fn of_loaded(alloc: Global, name: &str, loaded: Loaded, ticks: u32) -> Result<Additions, LoadFault>
    requires { IsLoaded loaded }
    ensures tells { IfOk result (TellsRepeats name.now ticks loaded) }
    ensures memory { IfErr result (λ e. e ≡ LoadFault.NoMemory) }
{
    let files = programs_of(alloc, &loaded)?;
    let found = find_repeats(alloc, loaded, ticks)?;
    let told = RepeatsTold {
        ticks,
        text: found.page.as_bytes().to_vec(alloc)?,
        whole: found.whole,
    };
    let section = repeats_additions(alloc, name, &told)?;
    Ok(files.with(&section)?)
}

/// In that of a certified one, whose programs are read.
fn of_certified<D: Depot>(
    alloc: Global,
    name: &str,
    config: Config,
    ticks: u32,
    depot: &mut D,
) -> Result<Additions, LoadFault>
    requires unbroken { BreaksNoRule config }
    requires checked { IsChecked config }
    requires limits { IsWithinLimits config }
    requires accepted { IsAccepted config }
    requires given { (D.seen depot.old).given < 2 ^ 63 }
    ensures comes { IfSome (D.seen depot.old).files
        (λ at. ComesTo name.now (Some (record { ticks = ticks; load = loading at config })) result) }
    ensures cause { IsErrOf result LoadFault.Depot → Rises (D.seen depot.old).faults (D.seen depot.new).faults }
    ensures stays { result ≢ Err LoadFault.Depot → (D.seen depot.new).faults ≡ (D.seen depot.old).faults }
    ensures same { (D.seen depot.new).files ≡ (D.seen depot.old).files }
{
    let loaded = load(alloc, config, depot)?;
    of_loaded(alloc, name, loaded, ticks)
}

/// Nothing, where the configuration isn't certified.
fn of_config<D: Depot>(
    alloc: Global,
    name: &str,
    config: Config,
    ticks: u32,
    depot: &mut D,
) -> Result<Additions, LoadFault>
    requires unbroken { BreaksNoRule config }
    requires checked { IsChecked config }
    requires limits { IsWithinLimits config }
    requires given { (D.seen depot.old).given < 2 ^ 63 }
    ensures comes { IfSome (D.seen depot.old).files
        (λ at. ComesTo name.now (search_certified at ticks config (verdict_of config)) result) }
    ensures cause { IsErrOf result LoadFault.Depot → Rises (D.seen depot.old).faults (D.seen depot.new).faults }
    ensures stays { result ≢ Err LoadFault.Depot → (D.seen depot.new).faults ≡ (D.seen depot.old).faults }
    ensures same { (D.seen depot.new).files ≡ (D.seen depot.old).files }
{
    match certify(&config) {
        Verdict::Accepted(_) => of_certified(alloc, name, config, ticks, depot),
        Verdict::Fails { .. } => Ok(Additions::none(alloc)),
    }
}

/// Nor where the document is none of one.
fn of_document<D: Depot>(
    alloc: Global,
    name: &str,
    document: &[u8],
    ticks: u32,
    depot: &mut D,
) -> Result<Additions, LoadFault>
    requires few { length document.now ≤ MAX_CONFIG_BYTES }
    requires given { (D.seen depot.old).given < 2 ^ 63 }
    ensures comes { IfSome (D.seen depot.old).files
        (λ at. ComesTo name.now (search_read at ticks (reading document.now)) result) }
    ensures cause { IsErrOf result LoadFault.Depot → Rises (D.seen depot.old).faults (D.seen depot.new).faults }
    ensures stays { result ≢ Err LoadFault.Depot → (D.seen depot.new).faults ≡ (D.seen depot.old).faults }
    ensures same { (D.seen depot.new).files ≡ (D.seen depot.old).files }
{
    match read_config(alloc, document) {
        Ok(config) => of_config(alloc, name, config, ticks, depot),
        Err(LoadFault::NoMemory) => Err(LoadFault::NoMemory),
        Err(_) => Ok(Additions::none(alloc)),
    }
}

/// What more the page of the document in the file of this name has: what repeats in so many ticks of its run, where that is
/// asked and the configuration is certified. `Err` is the first program that is too long, a read that failed, or want of memory.
pub(crate) fn more_of<D: Depot>(
    alloc: Global,
    name: &str,
    document: &[u8],
    repeats: Option<u32>,
    depot: &mut D,
) -> Result<Additions, LoadFault>
    requires few { length document.now ≤ MAX_CONFIG_BYTES }
    requires given { (D.seen depot.old).given < 2 ^ 63 }
    ensures comes { IfSome (D.seen depot.old).files
        (λ at. ComesTo name.now (search_asked at document.now repeats) result) }
    ensures cause { IsErrOf result LoadFault.Depot → Rises (D.seen depot.old).faults (D.seen depot.new).faults }
    ensures stays { result ≢ Err LoadFault.Depot → (D.seen depot.new).faults ≡ (D.seen depot.old).faults }
    ensures same { (D.seen depot.new).files ≡ (D.seen depot.old).files }
{
    match repeats {
        Some(ticks) => of_document(alloc, name, document, ticks, depot),
        None => Ok(Additions::none(alloc)),
    }
}
