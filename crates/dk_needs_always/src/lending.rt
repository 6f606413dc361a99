//! Whether the processes of a run keep to their allotments of slack.
ghost use Rattle.std.specs.Prelude.{ℕ, ◌≡◌, ◌+◌, ◌<◌, ◌≤◌, true, false, if◌then◌else◌, length, None, IfOk, IfSome};
ghost use Rattle.dk_config.specs.declared.TheConstants.{MAX_TICKS};
ghost use Rattle.dk_config.specs.Checked.{IsChecked, IsWithinLimits};
ghost use Rattle.dk_config.specs.Windows.{main_level, period};
ghost use Rattle.dk_slack_promise.specs.Long.{is_lent_to};
ghost use Rattle.dk_allotment.specs.Given.{given};
ghost use Rattle.dk_kernel.specs.Booting.{IsLoaded};
ghost use Rattle.dk_cycle.specs.Told.{IsRunTold};
ghost use Rattle.dk_needs_always.specs.declared.TheConstants.{ALWAYS_TICKS};
ghost use Rattle.dk_needs_always.specs.Lending.{IsLentWatch, IsMostTaken, KeepBefore, KeepForEver, TakesMoreBefore, TakesMoreIn};

use crate::ALWAYS_TICKS;
use crate::laws::first_ticks_law;
use dk_config::{Config, MAX_TICKS, NoMemory};
use dk_cycle::{Cycle, RunTold};
use dk_cycle_start::SecondPass;
use dk_kernel::Kernel;
use dk_loader::Loaded;
use dk_steps::Steps;
use dk_trace::{Entry, Label};
use std::alloc::Global;
use std::marker::Brand;
use std::sync::ledger::{Blank, Ledger};

/// What is seen of the slack that a process has, tick by tick.
#[derive(Clone, Copy)]
pub(crate) struct LentWatch {
    pub(crate) process: u8,
    /// The period of its main's level.
    pub(crate) period: u32,
    /// The ticks of the present window so far.
    pub(crate) passed: u32,
    /// Those of them that were slack of the process.
    pub(crate) lent: u32,
    /// The most that it had in a window so far.
    pub(crate) most: u32,
}

fn level_of(config: &Config, process: u8) -> u32
    ensures { result ≡ main_level config.now process }
{
    match config.processes.get(process as usize) {
        Some(row) => row.level,
        None => 0,
    }
}

fn period_of(config: &Config, level: usize) -> u32
    ensures { result ≡ period config.now level }
{
    match config.levels.get(level) {
        Some(row) => row.period,
        None => 0,
    }
}

/// Whether the tick was slack of a thread of the process.
fn is_lent_to(process: u8, entry: &Entry) -> bool
    ensures { result ≡ is_lent_to process entry.now }
{
    match entry.label {
        Label::Slack { thread, .. } => thread.process == process,
        _ => false,
    }
}

impl LentWatch {
    ghost use Rattle.std.specs.Prelude.{ℕ, ◌≤◌, List};
    ghost use Rattle.dk_needs_always.specs.Lending.{Follows, IsLentWatch};

    /// Before the first tick.
    fn new(config: &Config, process: u8) -> LentWatch
        requires checked { IsChecked config.now }
        requires limits { IsWithinLimits config.now }
        requires known { process < length config.now.processes }
        ensures watch { (programs : List (List ℕ)) → IsLentWatch config.now programs 0 result }
        ensures process { result.process ≡ process }
        ensures long { result.period ≤ MAX_TICKS }
    {
        LentWatch {
            process,
            period: period_of(config, level_of(config, process) as usize),
            passed: 0,
            lent: 0,
            most: 0,
        }
    }

    /// The ticks of slack in the present window, with one more tick.
    fn lent_with(self, entry: &Entry) -> u32
        requires few { self.lent < MAX_TICKS }
        ensures lent { result ≡ self.lent + (if is_lent_to self.process entry.now then 1 else 0) }
    {
        if is_lent_to(self.process, entry) {
            self.lent + 1
        } else {
            self.lent
        }
    }

    /// With the entry of the next tick.
    fn followed(self, entry: &Entry) -> LentWatch
        requires few { self.lent ≤ self.passed }
        requires within { self.passed < self.period }
        requires long { self.period ≤ MAX_TICKS }
        ensures follows { Follows self entry.now result }
        ensures process { result.process ≡ self.process }
        ensures period { result.period ≡ self.period }
    {
        let lent = self.lent_with(entry);
        let most = self.most.max(lent);
        let passed = self.passed + 1;
        if passed < self.period {
            LentWatch {
                process: self.process,
                period: self.period,
                passed,
                lent,
                most,
            }
        } else {
            LentWatch {
                process: self.process,
                period: self.period,
                passed: 0,
                lent: 0,
                most,
            }
        }
    }
}

/// The most slack that the process takes in a window, in the first so many ticks of the run of a kernel that has done none.
fn most_taken<L: Ledger>(
    kernel: &mut Kernel,
    before: LentWatch,
    ticks: u32,
    steps: &mut Steps<L>,
) -> u32
    requires begun { kernel.old.ticks ≡ 0 }
    requires few { ticks ≤ MAX_TICKS }
    requires long { before.period ≤ MAX_TICKS }
    requires watch { IsLentWatch kernel.old.config kernel.old.programs 0 before }
    ensures { IsMostTaken kernel.old.config kernel.old.programs before.process ticks result }
{
    let mut watch = before;
    for _tick in 0..ticks {
        let entry = kernel.tick(steps);
        watch = watch.followed(&entry);
    }
    watch.most
}

/// The same, of a kernel that is booted for it. Nobody reads how many steps it takes.
fn taken_by<L: Ledger>(
    alloc: Global,
    loaded: &Loaded,
    process: u8,
    ticks: u32,
    blank: Blank,
) -> Result<u32, NoMemory>
    requires loaded { IsLoaded loaded.now }
    requires known { process < length loaded.now.config.processes }
    requires few { ticks ≤ MAX_TICKS }
    requires name { blank.name ≡ L.name }
    requires parts { blank.parts ≡ L.parts }
    requires some { 0 < L.parts }
    ensures { IfOk result (λ most. IsMostTaken loaded.now.config loaded.now.programs process ticks most) }
{
    let watch = LentWatch::new(&loaded.config, process);
    let pass = SecondPass::of(alloc, loaded)?;
    let mut steps = Steps::<L>::new(blank);
    match Kernel::boot(alloc, pass.early) {
        Ok(mut kernel) => Ok(most_taken(&mut kernel, watch, ticks, &mut steps)),
        Err(_) => Err(NoMemory),
    }
}

/// Whether no process takes more slack in a window than its allotment, a number for each, in the first so many ticks of the
/// run. `Err` is want of memory.
fn keep_before(
    alloc: Global,
    loaded: &Loaded,
    allotments: &[u32],
    ticks: u32,
) -> Result<bool, NoMemory>
    requires loaded { IsLoaded loaded.now }
    requires one_each { length allotments.now ≡ length loaded.now.config.processes }
    requires few { ticks ≤ MAX_TICKS }
    ensures kept { IfOk result (λ keep. keep ≡ true
        → KeepBefore loaded.now.config loaded.now.programs (given allotments.now) ticks) }
    ensures lost { IfOk result (λ keep. keep ≡ false
        → TakesMoreBefore loaded.now.config loaded.now.programs (given allotments.now) ticks) }
{
    for process in 0..loaded.config.processes.len() {
        let taken = taken_by::<Brand>(alloc, loaded, process as u8, ticks, Blank::new(1))?;
        if taken > allotments[process] {
            return Ok(false);
        }
    }
    Ok(true)
}

/// The ticks up to the second start of the cycle, if they are few.
fn ticks_of(cycle: Cycle) -> Option<u32>
    ensures few { IfSome result (λ ticks. (ticks ≡ cycle.start + cycle.length) × (ticks ≤ ALWAYS_TICKS)) }
    ensures many { result ≡ None → ALWAYS_TICKS < cycle.start + cycle.length }
{
    let ticks = cycle.start as u64 + cycle.length as u64;
    if ticks <= ALWAYS_TICKS as u64 {
        Some(ticks as u32)
    } else {
        None
    }
}

/// Whether it is known that no process ever takes more: by the first ticks of a run that is told to repeat, up to the second
/// start of its cycle. `Err` is want of memory.
pub(crate) fn keep_for_ever(
    alloc: Global,
    loaded: &Loaded,
    allotments: &[u32],
    told: RunTold,
) -> Result<bool, NoMemory>
    requires loaded { IsLoaded loaded.now }
    requires one_each { length allotments.now ≡ length loaded.now.config.processes }
    requires told { (ticks : ℕ) × IsRunTold loaded.now.config loaded.now.programs ticks told }
    ensures kept { IfOk result (λ keep. keep ≡ true
        → KeepForEver loaded.now.config loaded.now.programs (given allotments.now)) }
    ensures lost { IfOk result (λ keep. keep ≡ false
        → TakesMoreIn loaded.now.config loaded.now.programs (given allotments.now) told.cycle) }
{
    first_ticks_law();
    let Some(cycle) = told.cycle else {
        return Ok(false);
    };
    match ticks_of(cycle) {
        Some(ticks) => keep_before(alloc, loaded, allotments, ticks),
        None => Ok(false),
    }
}
