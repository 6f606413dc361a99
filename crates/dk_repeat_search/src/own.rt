//! What is counted of a cycle of each process by itself, of which one tells of all in every run.
ghost use Rattle.std.specs.Prelude.{◌≡◌, ◌+◌, ◌*◌, ◌<◌, ◌≤◌, length, map, IfOk, OnOk};
ghost use Rattle.dk_config.specs.declared.TheConstants.{MAX_PROCESSES, MAX_RUN_TICKS, MAX_TICKS};
ghost use Rattle.dk_cycle.specs.Own.{IsOwnSearch};
ghost use Rattle.dk_repeat_report.specs.Cycles.{share_at, shares_of};
ghost use Rattle.dk_repeat_report.specs.OwnUses.{IsOneFound, UsesOne, own_cycle};
ghost use Rattle.dk_repeat_search.specs.Searching.{AreOwn};
ghost use Rattle.dk_repeat_search.specs.Counting.{AreOwnFound, told_of};
ghost use Rattle.dk_cycle.specs.Told.{own_told as told_by};

use crate::count::count_cycle;
use dk_config::{MAX_PROCESSES, MAX_RUN_TICKS, MAX_TICKS, NoMemory};
use dk_cycle::{Cycle, Keeping, OwnSearch, OwnTold, own_told};
use dk_cycle_counts::{MainShare, ProcessUse};
use dk_kernel::Kernel;
use dk_repeat_report::OwnFound;
use dk_steps::Steps;
use std::alloc::Global;
use std::sync::ledger::Ledger;

/// The cycle that was found of a process that keeps to itself.
fn own_cycle(told: OwnTold) -> Option<Cycle>
    ensures { result ≡ own_cycle told }
{
    match told.keeping {
        Keeping::Keeps => told.cycle,
        Keeping::ReadsTick => None,
        Keeping::HasThreads => None,
        Keeping::HasSlack => None,
    }
}

/// Counts the cycle of this process that starts next.
fn count_own<L: Ledger>(
    alloc: Global,
    kernel: &mut Kernel,
    process: u8,
    cycle: Cycle,
    share: MainShare,
    steps: &mut Steps<L>,
) -> Result<ProcessUse, NoMemory>
    requires share { share ≡ share_at kernel.old.config process }
    requires some { 0 < cycle.length }
    requires within { cycle.start ≤ kernel.old.ticks }
    requires room { kernel.old.ticks + 2 * cycle.length ≤ MAX_TICKS }
    ensures counted { IfOk result (UsesOne kernel.old.config kernel.old.programs process cycle) }
    ensures same { OnOk result (kernel.new ≡ record kernel.old { ticks = kernel.new.ticks }) }
    ensures low { OnOk result (kernel.old.ticks ≤ kernel.new.ticks) }
    ensures ticks { OnOk result (kernel.new.ticks ≤ kernel.old.ticks + 2 * cycle.length) }
{
    let counts = count_cycle(alloc, kernel, cycle, &[share], steps)?;
    Ok(counts.processes[0])
}

/// What was found of a process by itself in so many ticks, with what is counted of one of its cycles.
fn found_of<L: Ledger>(
    alloc: Global,
    kernel: &mut Kernel,
    search: &OwnSearch,
    share: MainShare,
    ticks: u32,
    steps: &mut Steps<L>,
) -> Result<OwnFound, NoMemory>
    requires is { IsOwnSearch kernel.old.config kernel.old.programs ticks search.now }
    requires share { share ≡ share_at kernel.old.config search.now.process }
    requires within { ticks ≤ kernel.old.ticks }
    requires few { ticks ≤ MAX_RUN_TICKS }
    requires room { kernel.old.ticks + 2 * MAX_RUN_TICKS ≤ MAX_TICKS }
    ensures found { IfOk result (IsOneFound kernel.old.config kernel.old.programs) }
    ensures told { IfOk result (λ found. found.told ≡ told_by search.now) }
    ensures process { IfOk result (λ found. found.told.process ≡ search.now.process) }
    ensures same { OnOk result (kernel.new ≡ record kernel.old { ticks = kernel.new.ticks }) }
    ensures low { OnOk result (kernel.old.ticks ≤ kernel.new.ticks) }
    ensures ticks { OnOk result (kernel.new.ticks ≤ kernel.old.ticks + 2 * MAX_RUN_TICKS) }
{
    let told = own_told(search);
    match own_cycle(told) {
        None => Ok(OwnFound { told, done: None }),
        Some(cycle) => {
            let done = count_own(alloc, kernel, told.process, cycle, share, steps)?;
            Ok(OwnFound {
                told,
                done: Some(done),
            })
        }
    }
}

/// What was found of each process by itself in so many ticks, with what is counted of one of its cycles.
pub(crate) fn all_found<L: Ledger>(
    alloc: Global,
    kernel: &mut Kernel,
    own: &[OwnSearch],
    shares: &[MainShare],
    ticks: u32,
    steps: &mut Steps<L>,
) -> Result<Vec<OwnFound>, NoMemory>
    requires own { AreOwn kernel.old.config kernel.old.programs ticks own.now }
    requires shares { shares.now ≡ shares_of kernel.old.config }
    requires many { length own.now ≤ MAX_PROCESSES }
    requires within { ticks ≤ kernel.old.ticks }
    requires few { ticks ≤ MAX_RUN_TICKS }
    requires room { kernel.old.ticks ≤ 3 * MAX_RUN_TICKS }
    ensures found { IfOk result (λ all. AreOwnFound kernel.old.config kernel.old.programs all.items) }
    ensures told { IfOk result (λ all. map told_of all.items ≡ map told_by own.now) }
{
    let mut all = Vec::new(alloc);
    for search in own {
        let share = shares[search.process as usize];
        all.push(found_of(alloc, kernel, search, share, ticks, steps)?)?;
    }
    Ok(all)
}
