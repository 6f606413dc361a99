//! The work of a run, of a certificate and of a migrated document.
ghost use Rattle.std.specs.Prelude.{ℕ, List, ◌≡◌, [], ◌<◌, ◌≤◌, IfErr, IfOk, length};
ghost use Rattle.dk_config.specs.Checked.{BreaksNoRule};
ghost use Rattle.dk_certify.specs.Laws.{migrated};
ghost use Rattle.dk_trace.specs.declared.Entry.{Entry as TickEntry};
ghost use Rattle.dk_kernel.specs.Booting.{IsLoaded};
ghost use Rattle.dk_inspect.specs.Printing.{IsHeaderOf};
ghost use Rattle.dk_ledger.specs.Heading.{IsPrintable};
ghost use Rattle.dk_report.specs.Counts.{StandsFor};
ghost use Rattle.dk_loader.specs.Workload.{Workload};
ghost use Rattle.dk_command.specs.Promises.{KeepsPromises};
ghost use Rattle.dk_command.specs.Runs.{AreEntries, workload_of};
ghost use Rattle.dk_inputs.specs.Inputs.{CanBoot, IsCertified, heading};
ghost use Rattle.dk_inputs.specs.Jobs.{run, certificate, document};
ghost use Rattle.dk_command.specs.Output.{Fails};
ghost use Rattle.dk_inputs.specs.Follows.{Makes};
ghost use Rattle.dk_command.specs.Work.{Does, IsReady, WritesFor};

use crate::Refusal;
use crate::recording::RunTotals;
use crate::work::{Work, let_go};
use dk_alone::own_time_law;
use dk_config::{Config, MAX_RUN_TICKS, NoMemory};
use dk_kernel::{Kernel, runs_keep_the_laws};
use dk_ledger::Header;
use dk_loader::{Loaded, write_config};
use dk_report::Totals;
use dk_request::Output;
use dk_steps::Steps;
use std::alloc::Global;
use std::marker::Brand;
use std::sync::ledger::{Blank, Ledger};

/// Every run of a certified configuration keeps what it promises, whatever its programs are.
fn promises_law()
    ensures { (w : Workload) (ticks : ℕ) → IsCertified w.config → KeepsPromises w ticks }
{
    runs_keep_the_laws();
    own_time_law();
}

/// The kernel of what is loaded, before its first tick.
pub fn booted(alloc: Global, loaded: Loaded) -> Result<Kernel, Refusal>
    requires { IsLoaded loaded }
    ensures start { IfOk result (λ kernel. kernel
        ≡ record { config = loaded.config; programs = loaded.programs; ticks = 0 }) }
    ensures memory { IfErr result (λ e. e ≡ Refusal.NoMemory) }
{
    match Kernel::boot(alloc, loaded) {
        Ok(kernel) => Ok(kernel),
        Err((_loaded, NoMemory)) => Err(Refusal::NoMemory),
    }
}

/// The totals of no entry, for as many levels and processes as the header has.
pub(crate) fn totals_for(alloc: Global, header: &Header) -> Result<Totals, NoMemory>
    requires { IsPrintable header.now }
    ensures none { IfOk result (λ t. StandsFor t []) }
    ensures levels { IfOk result (λ t. length header.now.levels ≡ length t.levels) }
    ensures processes { IfOk result (λ t. length header.now.processes ≡ length t.processes) }
{
    let levels = header.levels.len() as u8;
    let processes = header.processes.len() as u8;
    Totals::reserve(alloc, levels, processes)
}

/// The totals of a run. Nobody reads how many steps it takes.
fn totals_of_run<L: Ledger>(
    alloc: Global,
    kernel: &mut Kernel,
    header: &Header,
    ticks: u32,
    blank: Blank,
) -> Result<Totals, NoMemory>
    requires start { kernel.old.ticks ≡ 0 }
    requires certified { IsCertified kernel.old.config }
    requires few { ticks ≤ MAX_RUN_TICKS }
    requires header { IsHeaderOf kernel.old.config header.now }
    requires printable { IsPrintable header.now }
    requires name { blank.name ≡ L.name }
    requires parts { blank.parts ≡ L.parts }
    requires some { 0 < L.parts }
    ensures counted { IfOk result (λ t. (es : List TickEntry)
        × AreEntries (workload_of kernel.old) ticks es × StandsFor t es) }
    ensures levels { IfOk result (λ t. length header.now.levels ≡ length t.levels) }
    ensures processes { IfOk result (λ t. length header.now.processes ≡ length t.processes) }
{
    let totals = totals_for(alloc, header)?;
    let mut run = RunTotals { totals };
    let mut steps = Steps::<L>::new(blank);
    let _ = kernel.run(ticks, &mut run, &mut steps);
    Ok(run.totals)
}

/// The report of a run.
fn report_of_run(
    alloc: Global,
    mut kernel: Kernel,
    header: Header,
    ticks: u32,
) -> Result<Work, Refusal>
    requires start { kernel.ticks ≡ 0 }
    requires certified { IsCertified kernel.config }
    requires few { ticks ≤ MAX_RUN_TICKS }
    requires header { header ≡ heading kernel.config }
    requires printable { IsPrintable header }
    ensures does { Makes WritesFor Fails result (run (workload_of kernel) ticks Output.Report) }
    ensures ready { IfOk result IsReady }
{
    let counted = totals_of_run::<Brand>(alloc, &mut kernel, &header, ticks, Blank::new(1));
    let_go(kernel);
    Ok(Work::Report {
        header,
        totals: counted?,
    })
}

/// The ledger of a run, or its report.
fn ledger_or_report(
    alloc: Global,
    header: Header,
    loaded: Loaded,
    ticks: u32,
    output: Output,
) -> Result<Work, Refusal>
    requires few { ticks ≤ MAX_RUN_TICKS }
    requires bootable { CanBoot header loaded }
    ensures does { Makes WritesFor Fails result (run loaded ticks output) }
    ensures ready { IfOk result IsReady }
{
    let kernel = booted(alloc, loaded)?;
    match output {
        Output::Report => report_of_run(alloc, kernel, header, ticks),
        Output::Ledger => Ok(Work::Run {
            kernel,
            header,
            ticks,
        }),
    }
}

/// A run, which keeps what it promises.
pub fn run_work(
    alloc: Global,
    header: Header,
    loaded: Loaded,
    ticks: u32,
    output: Output,
) -> Result<Work, Refusal>
    requires few { ticks ≤ MAX_RUN_TICKS }
    requires bootable { CanBoot header loaded }
    ensures does { Makes Does Fails result (run loaded ticks output) }
    ensures ready { IfOk result IsReady }
{
    promises_law();
    ledger_or_report(alloc, header, loaded, ticks, output)
}

/// The certified levels.
pub fn certificate_work(alloc: Global, header: Header) -> Result<Work, Refusal>
    requires { IsPrintable header }
    ensures does { Makes Does Fails result (certificate header.levels) }
    ensures ready { IfOk result IsReady }
{
    Ok(Work::Certified(Header {
        levels: header.levels,
        processes: Vec::new(alloc),
    }))
}

/// A document that stands for the configuration in version 2.
pub fn document_work(alloc: Global, mut config: Config) -> Result<Work, Refusal>
    requires { BreaksNoRule config }
    ensures does { Makes Does Fails result (document (migrated config)) }
    ensures ready { IfOk result IsReady }
{
    config.version = 2;
    Ok(Work::Lines(write_config(alloc, &config)?))
}
