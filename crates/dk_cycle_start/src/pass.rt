//! The second pass over a run whose cycle was found.
ghost use Rattle.std.specs.Prelude.{◌≡◌, ◌+◌, ◌<◌, ◌≤◌, length, IfOk, OnOk};
ghost use Rattle.dk_config.specs.declared.TheConstants.{MAX_TICKS};
ghost use Rattle.dk_kernel.specs.Booting.{IsLoaded};
ghost use Rattle.dk_cycle.specs.Run.{IsRunSearch};
ghost use Rattle.dk_cycle_start.specs.Passes.{HasPrograms, IsCycleOf, IsFirst, IsPass, IsSearch, IsSettled, begun};

use crate::copies::{copy_of, programs_of};
use crate::walk::{first_start, lead};
use dk_config::{MAX_TICKS, NoMemory};
use dk_cycle::{Cycle, RunSearch, StartSearch};
use dk_kernel::Kernel;
use dk_loader::{Code, Loaded};
use dk_steps::Steps;
use std::alloc::Global;
use std::sync::ledger::Ledger;

/// What a second pass over a run needs: its configuration with its programs, twice, and the programs once more, in which a call
/// that reads the tick is looked up.
#[derive(Drop)]
pub struct SecondPass {
    pub early: Loaded,
    pub late: Loaded,
    pub programs: Vec<Code>,
}

fn booted(alloc: Global, loaded: Loaded) -> Result<Kernel, NoMemory>
    requires { IsLoaded loaded }
    ensures { IfOk result (λ kernel. kernel ≡ begun loaded) }
{
    match Kernel::boot(alloc, loaded) {
        Ok(kernel) => Ok(kernel),
        Err(_) => Err(NoMemory),
    }
}

/// The least tick at which the run stands again as much later as the cycle is long, by two kernels before their first tick.
fn walked<L: Ledger>(
    search: &mut StartSearch,
    early: &mut Kernel,
    late: &mut Kernel,
    programs: &[Code],
    processes: u8,
    cycle: Cycle,
    steps: &mut Steps<L>,
) -> u32
    requires all { processes ≡ length early.old.config.processes }
    requires has { HasPrograms early.old }
    requires begun { early.old.ticks ≡ 0 }
    requires same { late.old ≡ early.old }
    requires room { cycle.start + cycle.length ≤ MAX_TICKS }
    requires programs { programs.now ≡ early.old.programs }
    requires is { IsSearch early.old search.old }
    requires cycle { IsCycleOf early.old cycle }
    ensures { IsFirst early.old cycle result }
{
    lead(search, late, programs, cycle.length, steps);
    first_start(search, early, late, programs, processes, cycle, steps)
}

/// The same, before the kernels are booted.
fn least_start<L: Ledger>(
    alloc: Global,
    pass: SecondPass,
    search: &mut StartSearch,
    cycle: Cycle,
    steps: &mut Steps<L>,
) -> Result<u32, NoMemory>
    requires pass { IsPass pass }
    requires room { cycle.start + cycle.length ≤ MAX_TICKS }
    requires is { IsSearch (begun pass.early) search.old }
    requires cycle { IsCycleOf (begun pass.early) cycle }
    ensures { IfOk result (IsFirst (begun pass.early) cycle) }
{
    let processes = pass.early.config.processes.len() as u8;
    let SecondPass {
        early,
        late,
        programs,
    } = pass;
    let mut early = booted(alloc, early)?;
    let mut late = booted(alloc, late)?;
    Ok(walked(
        search,
        &mut early,
        &mut late,
        programs.as_slice(),
        processes,
        cycle,
        steps,
    ))
}

impl SecondPass {
    /// Of the run of this configuration with its programs, before it.
    pub fn of(alloc: Global, loaded: &Loaded) -> Result<SecondPass, NoMemory>
        requires { IsLoaded loaded.now }
        ensures pass { IfOk result IsPass }
        ensures same { IfOk result (λ pass. pass.early ≡ loaded.now) }
    {
        let early = copy_of(alloc, loaded)?;
        let late = copy_of(alloc, loaded)?;
        let programs = programs_of(alloc, loaded.programs.as_slice())?;
        Ok(SecondPass {
            early,
            late,
            programs,
        })
    }

    /// Lets the cycle of a search that has seen so many ticks start where it first can. `Err` is want of memory.
    pub fn settle<L: Ledger>(
        self,
        alloc: Global,
        search: &mut RunSearch,
        ticks: u32,
        steps: &mut Steps<L>,
    ) -> Result<(), NoMemory>
        requires pass { IsPass self }
        requires few { ticks ≤ MAX_TICKS }
        requires is { IsRunSearch self.early.config self.early.programs ticks search.old }
        ensures { OnOk result (IsSettled self.early ticks search.old search.new) }
    {
        let Some(cycle) = search.cycle else {
            return Ok(());
        };
        let mut starts = StartSearch::new(search);
        let start = least_start(alloc, self, &mut starts, cycle, steps)?;
        search.start_at(start);
        Ok(())
    }
}
