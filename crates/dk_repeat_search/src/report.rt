//! What repeats for ever in a run, as a page.
ghost use Rattle.std.specs.Prelude.{◌≡◌, ◌≤◌, ◌<◌, IfOk};
ghost use Rattle.dk_config.specs.declared.TheConstants.{MAX_RUN_TICKS};
ghost use Rattle.dk_kernel.specs.Booting.{IsLoaded};
ghost use Rattle.dk_cycle_start.specs.Passes.{IsPass};
ghost use Rattle.dk_repeat_report.specs.Cycles.{shares_of};
ghost use Rattle.dk_repeat_report.specs.Lines.{names_of};
ghost use Rattle.dk_repeat_search.specs.Repeats.{IsRepeatsOf, KnowsLast, NoneWasToFind, RunHasNoneToFind, repeats, searched_ticks};
ghost use Rattle.dk_repeat_search.specs.Searching.{HaveLooked, IsSearching, loaded_of};
ghost use Rattle.dk_repeat_search.specs.Counting.{IsFound};

use crate::count::{Found, count_run, shares_of};
use crate::own::all_found;
use crate::search::Searches;
use dk_config::{Config, MAX_RUN_TICKS, NoMemory, Text};
use dk_config_report::Page;
use dk_cycle::{RunTold, found_law, run_told, told_law};
use dk_cycle_counts::MainShare;
use dk_cycle_start::SecondPass;
use dk_kernel::Kernel;
use dk_loader::Loaded;
use dk_repeat_report::{cycles_law, own_cycles_law, repeats_text};
use dk_steps::Steps;
use std::alloc::{AllocError, Global};
use std::marker::Brand;
use std::sync::ledger::{Blank, Ledger};

/// What repeats for ever, and whether the run as a whole does.
#[derive(Drop)]
pub struct Repeats {
    pub page: Page,
    pub whole: bool,
}

fn copy_of(alloc: Global, word: &str) -> Result<Text, AllocError>
    ensures { IfOk result (λ t. t ≡ word.now) }
{
    let copy = String::from_str(alloc, word)?;
    Ok(Text::new(copy))
}

/// Copies of the processes' names.
fn names_of(alloc: Global, config: &Config) -> Result<Vec<Text>, NoMemory>
    ensures { IfOk result (λ names. names.items ≡ names_of config.now) }
{
    let mut names = Vec::new(alloc);
    for row in config.processes.iter() {
        names.push(copy_of(alloc, row.name.as_str())?)?;
    }
    Ok(names)
}

/// What is found in so many ticks of a kernel that has done none yet: by the searches, by a second pass, and in the cycles that
/// are counted.
fn found_by<L: Ledger>(
    alloc: Global,
    kernel: &mut Kernel,
    mut searches: Searches,
    pass: SecondPass,
    shares: &[MainShare],
    ticks: u32,
    steps: &mut Steps<L>,
) -> Result<Found, NoMemory>
    requires begun { kernel.old.ticks ≡ 0 }
    requires few { ticks ≤ MAX_RUN_TICKS }
    requires is { IsSearching kernel.old searches }
    requires pass { IsPass pass }
    requires of { pass.early ≡ loaded_of kernel.old }
    requires shares { shares.now ≡ shares_of kernel.old.config }
    requires looked { HaveLooked kernel.old 0 searches }
    ensures found { IfOk result (IsFound (loaded_of kernel.old)) }
    ensures last { IfOk result (λ found. KnowsLast (loaded_of kernel.old) ticks found.run) }
    ensures none { IfOk result (λ found. NoneWasToFind (loaded_of kernel.old) ticks found.own.items) }
    ensures no_cycle { IfOk result (λ found. RunHasNoneToFind (loaded_of kernel.old) ticks found.run.cycle) }
{
    found_law();
    searches.search(alloc, kernel, ticks, steps)?;
    let reached = kernel.now();
    searches.settle(alloc, kernel, pass, steps)?;
    let counts = count_run(alloc, kernel, &searches.run, shares, steps)?;
    let own = all_found(
        alloc,
        kernel,
        searches.own.as_slice(),
        shares,
        reached,
        steps,
    )?;
    Ok(Found {
        run: searches.run,
        counts,
        own,
    })
}

/// The same, of a kernel that is booted for it. Nobody reads how many steps it takes.
fn searched_by<L: Ledger>(
    alloc: Global,
    loaded: Loaded,
    ticks: u32,
    blank: Blank,
) -> Result<Found, NoMemory>
    requires loaded { IsLoaded loaded }
    requires few { ticks ≤ MAX_RUN_TICKS }
    requires name { blank.name ≡ L.name }
    requires parts { blank.parts ≡ L.parts }
    requires some { 0 < L.parts }
    ensures found { IfOk result (IsFound loaded) }
    ensures last { IfOk result (λ found. KnowsLast loaded ticks found.run) }
    ensures none { IfOk result (λ found. NoneWasToFind loaded ticks found.own.items) }
    ensures no_cycle { IfOk result (λ found. RunHasNoneToFind loaded ticks found.run.cycle) }
{
    let searches = Searches::of(alloc, &loaded)?;
    let shares = shares_of(alloc, &loaded)?;
    let pass = SecondPass::of(alloc, &loaded)?;
    let mut steps = Steps::<L>::new(blank);
    match Kernel::boot(alloc, loaded) {
        Ok(mut kernel) => found_by(
            alloc,
            &mut kernel,
            searches,
            pass,
            shares.as_slice(),
            ticks,
            &mut steps,
        ),
        Err(_) => Err(NoMemory),
    }
}

/// The ticks that a search takes.
pub(crate) fn searched_ticks(ticks: u32) -> u32
    ensures is { result ≡ searched_ticks ticks }
    ensures few { result ≤ MAX_RUN_TICKS }
{
    if ticks < MAX_RUN_TICKS {
        ticks
    } else {
        MAX_RUN_TICKS
    }
}

/// What is found in so many ticks.
fn searched(alloc: Global, loaded: Loaded, ticks: u32) -> Result<Found, NoMemory>
    requires { IsLoaded loaded }
    ensures found { IfOk result (IsFound loaded) }
    ensures last { IfOk result (λ found. KnowsLast loaded (searched_ticks ticks) found.run) }
    ensures none { IfOk result (λ found. NoneWasToFind loaded (searched_ticks ticks) found.own.items) }
    ensures no_cycle { IfOk result (λ found. RunHasNoneToFind loaded (searched_ticks ticks) found.run.cycle) }
{
    searched_by::<Brand>(alloc, loaded, searched_ticks(ticks), Blank::new(1))
}

fn repeats_whole(told: RunTold) -> bool
    ensures { result ≡ repeats told }
{
    told.reader.is_none() && told.cycle.is_some()
}

/// What repeats for ever in the run of a configuration with its programs, as is found in so many ticks. `Err` is want of
/// memory.
pub fn find_repeats(alloc: Global, loaded: Loaded, ticks: u32) -> Result<Repeats, NoMemory>
    requires { IsLoaded loaded }
    ensures { IfOk result (λ found. IsRepeatsOf loaded ticks found.page found.whole) }
{
    told_law();
    cycles_law();
    own_cycles_law();
    let names = names_of(alloc, &loaded.config)?;
    let found = searched(alloc, loaded, ticks)?;
    let text = repeats_text(
        alloc,
        names.as_slice(),
        ticks,
        &found.run,
        &found.counts,
        found.own.as_slice(),
    )?;
    Ok(Repeats {
        page: Page::new(text),
        whole: repeats_whole(run_told(&found.run)),
    })
}
