//! What is counted of a cycle of the run, of which one tells of all.
ghost use Rattle.std.specs.Prelude.{ℕ, List, [], ◌≡◌, ◌+◌, ◌*◌, ◌<◌, ◌≤◌, take, IfOk, OnOk};
ghost use Rattle.dk_config.specs.declared.TheConstants.{MAX_RUN_TICKS, MAX_TICKS};
ghost use Rattle.dk_config.specs.Windows.{budget, main_level, period};
ghost use Rattle.dk_kernel.specs.Booting.{IsLoaded};
ghost use Rattle.dk_kernel.specs.Running.{trace_of};
ghost use Rattle.dk_cycle.specs.Run.{IsRunSearch};
ghost use Rattle.dk_cycle_counts.specs.declared.process.MainShare.{MainShare};
ghost use Rattle.dk_cycle_counts.specs.Counts.{AreCountsOf};
ghost use Rattle.dk_repeat_report.specs.Cycles.{IsOneCounted, share_at, shares_of};
ghost use Rattle.dk_repeat_search.specs.Counting.{CountsSome, StartsCycle};

use dk_config::{Config, MAX_RUN_TICKS, MAX_TICKS, NoMemory};
use dk_cycle::{Cycle, RunSearch};
use dk_cycle_counts::{CycleCounts, MainShare};
use dk_cycle_start::go_on;
use dk_kernel::Kernel;
use dk_loader::Loaded;
use dk_repeat_report::OwnFound;
use dk_steps::Steps;
use std::alloc::Global;
use std::sync::ledger::Ledger;

/// What was found in a run: its cycle, what is counted of it, and what was found of each process by itself.
#[derive(Drop)]
pub(crate) struct Found {
    pub(crate) run: RunSearch,
    pub(crate) counts: Option<CycleCounts>,
    pub(crate) own: Vec<OwnFound>,
}

fn period_of(config: &Config, level: usize) -> u32
    ensures { result ≡ period config.now level }
{
    match config.levels.get(level) {
        Some(row) => row.period,
        None => 0,
    }
}

fn level_of(config: &Config, process: u8) -> u32
    ensures { result ≡ main_level config.now process }
{
    match config.processes.get(process as usize) {
        Some(row) => row.level,
        None => 0,
    }
}

fn budget_of(config: &Config, process: u8) -> u32
    ensures { result ≡ budget config.now process }
{
    match config.processes.get(process as usize) {
        Some(row) => row.budget,
        None => 0,
    }
}

fn share_at(config: &Config, process: u8) -> MainShare
    ensures { result ≡ share_at config.now process }
{
    MainShare {
        process,
        period: period_of(config, level_of(config, process) as usize),
        budget: budget_of(config, process),
    }
}

/// The period and the budget of each process.
pub(crate) fn shares_of(alloc: Global, loaded: &Loaded) -> Result<Vec<MainShare>, NoMemory>
    requires { IsLoaded loaded.now }
    ensures { IfOk result (λ shares. shares.items ≡ shares_of loaded.now.config) }
{
    let mut shares = Vec::new(alloc);
    for process in 0..loaded.config.processes.len() {
        shares.push(share_at(&loaded.config, process as u8))?;
    }
    Ok(shares)
}

/// How many ticks it is to the next start of a cycle.
fn ticks_to_start(cycle: Cycle, now: u32) -> u32
    requires some { 0 < cycle.length }
    requires within { cycle.start ≤ now }
    ensures starts { StartsCycle cycle (now + result) }
    ensures few { result ≤ cycle.length }
{
    let over = (now - cycle.start) % cycle.length;
    if over == 0 { 0 } else { cycle.length - over }
}

/// Does some ticks, at least one and at most so many, and counts them: at once where nobody is at a kernel call in them.
fn count_some<L: Ledger>(
    counts: &mut CycleCounts,
    kernel: &mut Kernel,
    most: u32,
    steps: &mut Steps<L>,
) -> u32
    requires some { 1 ≤ most }
    requires room { kernel.old.ticks + most ≤ MAX_TICKS }
    requires few { counts.old.ticks + most ≤ MAX_TICKS }
    ensures some { 1 ≤ result }
    ensures few { result ≤ most }
    ensures next { kernel.new ≡ record kernel.old { ticks = kernel.old.ticks + result } }
    ensures ticks { counts.new.ticks ≡ counts.old.ticks + result }
    ensures counts { (shares : List MainShare) (n : ℕ) → AreCountsOf shares (take n (trace_of kernel.old)) counts.old
        → AreCountsOf shares (take (n + result) (trace_of kernel.new)) counts.new }
{
    if let Some(stretch) = kernel.at_once(most, steps) {
        counts.add_quiet(stretch.label, stretch.count);
        return stretch.count;
    }
    counts.add(kernel.tick(steps));
    1
}

/// Does so many ticks, and counts them.
fn count<L: Ledger>(counts: &mut CycleCounts, kernel: &mut Kernel, ticks: u32, steps: &mut Steps<L>)
    requires room { kernel.old.ticks + ticks ≤ MAX_TICKS }
    requires none { counts.old.ticks ≡ 0 }
    ensures counts { (shares : List MainShare) → AreCountsOf shares [] counts.old
        → AreCountsOf shares (take ticks (trace_of kernel.new)) counts.new }
    ensures next { kernel.new ≡ record kernel.old { ticks = kernel.old.ticks + ticks } }
{
    let mut left = ticks;
    while left > 0 {
        left -= count_some(counts, kernel, left, steps);
    }
}

/// Counts the cycle that starts next, of these processes.
pub(crate) fn count_cycle<L: Ledger>(
    alloc: Global,
    kernel: &mut Kernel,
    cycle: Cycle,
    shares: &[MainShare],
    steps: &mut Steps<L>,
) -> Result<CycleCounts, NoMemory>
    requires some { 0 < cycle.length }
    requires within { cycle.start ≤ kernel.old.ticks }
    requires room { kernel.old.ticks + 2 * cycle.length ≤ MAX_TICKS }
    ensures counts { IfOk result (CountsSome kernel.old.config kernel.old.programs shares.now cycle) }
    ensures same { OnOk result (kernel.new ≡ record kernel.old { ticks = kernel.new.ticks }) }
    ensures low { OnOk result (kernel.old.ticks ≤ kernel.new.ticks) }
    ensures ticks { OnOk result (kernel.new.ticks ≤ kernel.old.ticks + 2 * cycle.length) }
{
    let mut counts = CycleCounts::new(alloc, shares)?;
    let ahead = ticks_to_start(cycle, kernel.now());
    go_on(kernel, ahead, steps);
    count(&mut counts, kernel, cycle.length, steps);
    Ok(counts)
}

/// Counts a cycle of the run, where one was found.
pub(crate) fn count_run<L: Ledger>(
    alloc: Global,
    kernel: &mut Kernel,
    search: &RunSearch,
    shares: &[MainShare],
    steps: &mut Steps<L>,
) -> Result<Option<CycleCounts>, NoMemory>
    requires is { IsRunSearch kernel.old.config kernel.old.programs kernel.old.ticks search.now }
    requires few { kernel.old.ticks ≤ MAX_RUN_TICKS }
    requires shares { shares.now ≡ shares_of kernel.old.config }
    ensures counted { IfOk result (IsOneCounted kernel.old.config kernel.old.programs search.now.cycle) }
    ensures same { OnOk result (kernel.new ≡ record kernel.old { ticks = kernel.new.ticks }) }
    ensures low { OnOk result (kernel.old.ticks ≤ kernel.new.ticks) }
    ensures ticks { OnOk result (kernel.new.ticks ≤ 3 * MAX_RUN_TICKS) }
{
    match search.cycle {
        None => Ok(None),
        Some(cycle) => {
            let counts = count_cycle(alloc, kernel, cycle, shares, steps)?;
            Ok(Some(counts))
        }
    }
}
