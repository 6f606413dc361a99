//! What is so for ever in a run: whether it repeats, and of each process whether its main waits in each of its windows.
ghost use Rattle.std.specs.Prelude.{◌≡◌, ◌+◌, ◌<◌, ◌≤◌, length, None, IfOk, OnOk};
ghost use Rattle.dk_config.specs.declared.TheConstants.{MAX_RUN_TICKS, MAX_TICKS};
ghost use Rattle.dk_kernel.specs.Booting.{IsLoaded};
ghost use Rattle.dk_cycle_start.specs.Passes.{IsPass};
ghost use Rattle.dk_repeat_search.specs.Always.{AreTold, AreWatches, IsAlways, IsWatching};
ghost use Rattle.dk_repeat_search.specs.Repeats.{searched_ticks};
ghost use Rattle.dk_repeat_search.specs.Searching.{HaveLooked, begun, loaded_of};

use crate::report::searched_ticks;
use crate::search::Searches;
use dk_config::{MAX_TICKS, NoMemory};
use dk_cycle::{
    OwnSearch, RunTold, WaitWatch, Waits, found_law, run_told, told_law, waits_law, waits_told,
};
use dk_cycle_start::SecondPass;
use dk_kernel::Kernel;
use dk_loader::Loaded;
use dk_steps::Steps;
use std::alloc::Global;
use std::marker::Brand;
use std::sync::ledger::{Blank, Ledger};

/// What is so for ever in a run.
#[derive(Drop)]
pub struct Always {
    /// The cycle of the run as a whole.
    pub run: RunTold,
    /// Of each process, in the order of the rows, whether its main waits in each of its windows.
    pub waits: Vec<Waits>,
}

/// The searches for cycles, with what is seen of each main's windows meanwhile, in the order of the rows.
#[derive(Drop)]
pub(crate) struct Watching {
    pub(crate) searches: Searches,
    pub(crate) watches: Vec<WaitWatch>,
}

/// Before the first tick.
fn new_watches(alloc: Global, loaded: &Loaded) -> Result<Vec<WaitWatch>, NoMemory>
    requires { IsLoaded loaded.now }
    ensures { IfOk result (λ watches. AreWatches loaded.now.config loaded.now.programs 0 watches.items) }
{
    let mut watches = Vec::new(alloc);
    for process in 0..loaded.config.processes.len() {
        watches.push(WaitWatch::new(&loaded.config, process as u8))?;
    }
    Ok(watches)
}

impl Watching {
    ghost use Rattle.std.specs.Prelude.{ℕ, ◌+◌};
    ghost use Rattle.dk_repeat_search.specs.Always.{IsWatching};
    ghost use Rattle.dk_repeat_search.specs.Searching.{HaveEnded, HaveLooked};

    /// Before the first tick.
    fn of(alloc: Global, loaded: &Loaded) -> Result<Watching, NoMemory>
        requires { IsLoaded loaded.now }
        ensures is { IfOk result (IsWatching (begun loaded.now)) }
        ensures looked { IfOk result (λ w. HaveLooked (begun loaded.now) 0 w.searches) }
    {
        Ok(Watching {
            searches: Searches::of(alloc, loaded)?,
            watches: new_watches(alloc, loaded)?,
        })
    }

    /// Does one tick.
    fn follow<L: Ledger>(&mut self, kernel: &mut Kernel, steps: &mut Steps<L>)
        requires room { kernel.old.ticks < MAX_TICKS }
        requires is { IsWatching kernel.old self.old }
        ensures next { kernel.new ≡ record kernel.old { ticks = kernel.old.ticks + 1 } }
        ensures is { IsWatching kernel.new self.new }
        ensures looked { (n : ℕ) → HaveLooked kernel.old n self.old.searches → HaveLooked kernel.new n self.new.searches }
    {
        let entry = self.searches.follow(kernel, steps);
        for watch in self.watches.iter_mut() {
            watch.follow(&entry);
        }
    }

    /// Looks at the present tick.
    fn look(&mut self, alloc: Global, kernel: &Kernel) -> Result<(), NoMemory>
        requires is { IsWatching kernel.now self.old }
        requires looked { HaveLooked kernel.now kernel.now.ticks self.old.searches }
        ensures is { OnOk result (IsWatching kernel.now self.new) }
        ensures looked { OnOk result (HaveLooked kernel.now (kernel.now.ticks + 1) self.new.searches) }
    {
        self.searches.look(alloc, kernel)?;
        Ok(())
    }

    /// Does up to so many ticks, until all cycles are found. `Err` is want of memory.
    fn watch<L: Ledger>(
        &mut self,
        alloc: Global,
        kernel: &mut Kernel,
        ticks: u32,
        steps: &mut Steps<L>,
    ) -> Result<(), NoMemory>
        requires room { kernel.old.ticks + ticks ≤ MAX_TICKS }
        requires is { IsWatching kernel.old self.old }
        requires looked { HaveLooked kernel.old kernel.old.ticks self.old.searches }
        ensures is { OnOk result (IsWatching kernel.new self.new) }
        ensures looked { OnOk result (HaveLooked kernel.new (kernel.old.ticks + ticks + 1) self.new.searches) }
        ensures same { kernel.new ≡ record kernel.old { ticks = kernel.new.ticks } }
        ensures ticks { kernel.new.ticks ≤ kernel.old.ticks + ticks }
        ensures all { OnOk result (self.new.searches.run.cycle ≡ None → kernel.new.ticks ≡ kernel.old.ticks + ticks) }
        ensures ended { OnOk result (HaveEnded self.new.searches kernel.new.ticks (kernel.old.ticks + ticks)) }
    {
        self.look(alloc, kernel)?;
        for step in 0..ticks {
            if self.searches.is_done() {
                return Ok(());
            }
            self.follow(kernel, steps);
            self.look(alloc, kernel)?;
        }
        Ok(())
    }
}

/// What is told of each process.
fn all_waits(
    alloc: Global,
    own: &[OwnSearch],
    watches: &[WaitWatch],
) -> Result<Vec<Waits>, NoMemory>
    requires { length own.now ≡ length watches.now }
    ensures { IfOk result (λ waits. AreTold own.now watches.now (length own.now) waits.items) }
{
    let mut waits = Vec::new(alloc);
    for process in 0..own.len() {
        waits.push(waits_told(&own[process], &watches[process]))?;
    }
    Ok(waits)
}

/// What is so for ever in the run of a kernel that has done no tick yet, by what is seen in so many.
fn told_by<L: Ledger>(
    alloc: Global,
    kernel: &mut Kernel,
    mut watching: Watching,
    pass: SecondPass,
    ticks: u32,
    steps: &mut Steps<L>,
) -> Result<Always, NoMemory>
    requires begun { kernel.old.ticks ≡ 0 }
    requires few { ticks ≤ MAX_RUN_TICKS }
    requires is { IsWatching kernel.old watching }
    requires looked { HaveLooked kernel.old 0 watching.searches }
    requires pass { IsPass pass }
    requires of { pass.early ≡ loaded_of kernel.old }
    ensures { IfOk result (IsAlways (loaded_of kernel.old) ticks) }
{
    found_law();
    told_law();
    waits_law();
    watching.watch(alloc, kernel, ticks, steps)?;
    watching.searches.settle(alloc, kernel, pass, steps)?;
    let own = watching.searches.own.as_slice();
    let waits = all_waits(alloc, own, watching.watches.as_slice())?;
    Ok(Always {
        run: run_told(&watching.searches.run),
        waits,
    })
}

/// The same, of a kernel that is booted for it. Nobody reads how many steps it takes.
fn watched_by<L: Ledger>(
    alloc: Global,
    loaded: Loaded,
    ticks: u32,
    blank: Blank,
) -> Result<Always, NoMemory>
    requires loaded { IsLoaded loaded }
    requires few { ticks ≤ MAX_RUN_TICKS }
    requires name { blank.name ≡ L.name }
    requires parts { blank.parts ≡ L.parts }
    requires some { 0 < L.parts }
    ensures { IfOk result (IsAlways loaded ticks) }
{
    let watching = Watching::of(alloc, &loaded)?;
    let pass = SecondPass::of(alloc, &loaded)?;
    let mut steps = Steps::<L>::new(blank);
    match Kernel::boot(alloc, loaded) {
        Ok(mut kernel) => told_by(alloc, &mut kernel, watching, pass, ticks, &mut steps),
        Err(_) => Err(NoMemory),
    }
}

/// What is so for ever in the run of a configuration with its programs, as is found in so many ticks, at most 10,000,000:
/// whether the run as a whole repeats, and whether the main of each process waits in each of its windows. `Err` is want of
/// memory.
pub fn find_always(alloc: Global, loaded: Loaded, ticks: u32) -> Result<Always, NoMemory>
    requires { IsLoaded loaded }
    ensures { IfOk result (IsAlways loaded (searched_ticks ticks)) }
{
    watched_by::<Brand>(alloc, loaded, searched_ticks(ticks), Blank::new(1))
}
