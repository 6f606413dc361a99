//! What each command reads and tests, in order.
ghost use Rattle.std.specs.Prelude.{◌≡◌, ◌^◌, ◌<◌, ◌≤◌, IfOk, Ok};
ghost use Rattle.dk_request.specs.declared.request.Request.TheVariants as request;
ghost use Rattle.dk_config.specs.Checked.{BreaksNoRule, IsAccepted, IsChecked, IsWithinLimits};
ghost use Rattle.dk_ledger.specs.Heading.{IsPrintable};
ghost use Rattle.dk_inputs.specs.Jobs.{audit_of, run, run_of, job_for};
ghost use Rattle.dk_gen.specs.Generated.{generated};
ghost use Rattle.dk_plan.specs.Base.{AreAsks};
ghost use Rattle.dk_inputs.specs.Follows.{Finds, Gives};
ghost use Rattle.dk_inputs.specs.Inputs.{AreTested, heading, job_of};

use crate::Refusal;
use crate::inputs::Inputs;
use crate::reading::{certified, config_at, file_at, loaded, process_named};
use dk_asm::MAX_SOURCE_BYTES;
use dk_config::{Config, MAX_LEDGER_BYTES, MAX_PROGRAM_BYTES, MAX_RUN_TICKS, Text};
use dk_gen::generate;
use dk_ledger::Header;
use dk_outside::Depot;
use dk_request::{Asks, Output};
use std::alloc::Global;

/// What is read for a run of a certified configuration.
fn launched<D: Depot>(
    alloc: Global,
    depot: &mut D,
    config: Config,
    header: Header,
    ticks: u32,
    output: Output,
) -> Result<Inputs, Refusal>
    requires unbroken { BreaksNoRule config }
    requires checked { IsChecked config }
    requires accepted { IsAccepted config }
    requires limits { IsWithinLimits config }
    requires header { header ≡ heading config }
    requires printable { IsPrintable header }
    requires room { (D.seen depot.old).given < 2 ^ 63 }
    requires few { ticks ≤ MAX_RUN_TICKS }
    ensures found { Finds job_of (D.seen depot.old) (D.seen depot.new) result
        (run_of config ticks output) }
    ensures tested { IfOk result AreTested }
{
    let loaded = loaded(alloc, config, &header, depot)?;
    Ok(Inputs::Run {
        header,
        loaded,
        ticks,
        output,
    })
}

/// What is read for an audit for a certified configuration.
fn audited<D: Depot>(
    alloc: Global,
    depot: &mut D,
    config: Config,
    ledger: &str,
) -> Result<Inputs, Refusal>
    requires checked { IsChecked config }
    requires limits { IsWithinLimits config }
    requires accepted { IsAccepted config }
    requires room { (D.seen depot.old).given < 2 ^ 63 }
    ensures found { Finds job_of (D.seen depot.old) (D.seen depot.new) result
        (audit_of config ledger.now) }
    ensures tested { IfOk result AreTested }
{
    let bytes = file_at(alloc, depot, ledger, MAX_LEDGER_BYTES, Refusal::LongLedger)?;
    Ok(Inputs::Findings { config, bytes })
}

/// What `run` reads and tests.
pub fn run_inputs<D: Depot>(
    alloc: Global,
    depot: &mut D,
    file: &str,
    ticks: u32,
    output: Output,
) -> Result<Inputs, Refusal>
    requires room { (D.seen depot.old).given < 2 ^ 62 }
    requires few { ticks ≤ MAX_RUN_TICKS }
    ensures found { Finds job_of (D.seen depot.old) (D.seen depot.new) result
        (job_for (request.Run file.now ticks output)) }
    ensures tested { IfOk result AreTested }
{
    let config = config_at(alloc, depot, file)?;
    let header = certified(alloc, &config)?;
    launched(alloc, depot, config, header, ticks, output)
}

/// What `certify` reads and tests.
pub fn certify_inputs<D: Depot>(alloc: Global, depot: &mut D, file: &str) -> Result<Inputs, Refusal>
    requires { (D.seen depot.old).given < 2 ^ 62 }
    ensures found { Finds job_of (D.seen depot.old) (D.seen depot.new) result
        (job_for (request.Certify file.now)) }
    ensures tested { IfOk result AreTested }
{
    let config = config_at(alloc, depot, file)?;
    let header = certified(alloc, &config)?;
    Ok(Inputs::Certificate { header })
}

/// A workload from the number, for the report of a run.
fn generated(alloc: Global, number: u64, ticks: u32) -> Result<Inputs, Refusal>
    requires { ticks ≤ MAX_RUN_TICKS }
    ensures found { Gives job_of result (Ok (run (generated number) ticks Output.Report)) }
    ensures tested { IfOk result AreTested }
{
    let loaded = generate(alloc, number)?;
    let header = certified(alloc, &loaded.config)?;
    Ok(Inputs::Run {
        header,
        loaded,
        ticks,
        output: Output::Report,
    })
}

/// What `gen` tests. It reads nothing.
pub fn gen_inputs<D: Depot>(
    alloc: Global,
    depot: &mut D,
    number: u64,
    ticks: u32,
) -> Result<Inputs, Refusal>
    requires { ticks ≤ MAX_RUN_TICKS }
    ensures found { Finds job_of (D.seen depot.old) (D.seen depot.new) result
        (job_for (request.Gen number ticks)) }
    ensures tested { IfOk result AreTested }
{
    generated(alloc, number, ticks)
}

/// What `ledger` reads and tests.
pub fn ledger_inputs<D: Depot>(
    alloc: Global,
    depot: &mut D,
    file: &str,
    output: Output,
) -> Result<Inputs, Refusal>
    requires { (D.seen depot.old).given < 2 ^ 62 }
    ensures found { Finds job_of (D.seen depot.old) (D.seen depot.new) result
        (job_for (request.Ledger file.now output)) }
    ensures tested { IfOk result AreTested }
{
    let bytes = file_at(alloc, depot, file, MAX_LEDGER_BYTES, Refusal::LongLedger)?;
    Ok(Inputs::Ledger { bytes, output })
}

/// What `migrate` reads and tests.
pub fn migrate_inputs<D: Depot>(alloc: Global, depot: &mut D, file: &str) -> Result<Inputs, Refusal>
    requires { (D.seen depot.old).given < 2 ^ 62 }
    ensures found { Finds job_of (D.seen depot.old) (D.seen depot.new) result
        (job_for (request.Migrate file.now)) }
    ensures tested { IfOk result AreTested }
{
    let config = config_at(alloc, depot, file)?;
    Ok(Inputs::Document { config })
}

/// What `asm` reads and tests.
pub fn asm_inputs<D: Depot>(alloc: Global, depot: &mut D, file: &str) -> Result<Inputs, Refusal>
    requires { (D.seen depot.old).given < 2 ^ 62 }
    ensures found { Finds job_of (D.seen depot.old) (D.seen depot.new) result
        (job_for (request.Asm file.now)) }
    ensures tested { IfOk result AreTested }
{
    let bytes = file_at(alloc, depot, file, MAX_SOURCE_BYTES, Refusal::LongSource)?;
    Ok(Inputs::Source { bytes })
}

/// What `dis` reads and tests.
pub fn dis_inputs<D: Depot>(alloc: Global, depot: &mut D, file: &str) -> Result<Inputs, Refusal>
    requires { (D.seen depot.old).given < 2 ^ 62 }
    ensures found { Finds job_of (D.seen depot.old) (D.seen depot.new) result
        (job_for (request.Dis file.now)) }
    ensures tested { IfOk result AreTested }
{
    let bytes = file_at(alloc, depot, file, MAX_PROGRAM_BYTES, Refusal::LongCode)?;
    Ok(Inputs::Code { bytes })
}

/// What `audit` reads and tests.
pub fn audit_inputs<D: Depot>(
    alloc: Global,
    depot: &mut D,
    file: &str,
    ledger: &str,
) -> Result<Inputs, Refusal>
    requires { (D.seen depot.old).given < 2 ^ 62 }
    ensures found { Finds job_of (D.seen depot.old) (D.seen depot.new) result
        (job_for (request.Audit file.now ledger.now)) }
    ensures tested { IfOk result AreTested }
{
    let config = config_at(alloc, depot, file)?;
    let _header = certified(alloc, &config)?;
    audited(alloc, depot, config, ledger)
}

/// What `plan` reads and tests.
pub fn budget_inputs<D: Depot>(
    alloc: Global,
    depot: &mut D,
    file: &str,
    name: Text,
) -> Result<Inputs, Refusal>
    requires { (D.seen depot.old).given < 2 ^ 62 }
    ensures found { Finds job_of (D.seen depot.old) (D.seen depot.new) result
        (job_for (request.Plan file.now name)) }
    ensures tested { IfOk result AreTested }
{
    let config = config_at(alloc, depot, file)?;
    let process = process_named(&config, name.as_str())?;
    Ok(Inputs::Budget {
        config,
        process,
        name,
    })
}

/// What `harmonise` does its work with. It reads nothing.
pub fn base_inputs<D: Depot>(depot: &mut D, lo: u32, hi: u32, asks: Asks) -> Result<Inputs, Refusal>
    requires some { 1 ≤ lo }
    requires range { lo ≤ hi }
    requires asks { AreAsks hi asks }
    ensures found { Finds job_of (D.seen depot.old) (D.seen depot.new) result
        (job_for (request.Harmonise lo hi asks)) }
    ensures tested { IfOk result AreTested }
{
    Ok(Inputs::Base { lo, hi, asks })
}

/// What `inspect` reads and tests.
pub fn inspect_inputs<D: Depot>(
    alloc: Global,
    depot: &mut D,
    file: &str,
    tick: u32,
) -> Result<Inputs, Refusal>
    requires room { (D.seen depot.old).given < 2 ^ 62 }
    requires few { tick ≤ MAX_RUN_TICKS }
    ensures found { Finds job_of (D.seen depot.old) (D.seen depot.new) result
        (job_for (request.Inspect file.now tick)) }
    ensures tested { IfOk result AreTested }
{
    let config = config_at(alloc, depot, file)?;
    let header = certified(alloc, &config)?;
    let loaded = loaded(alloc, config, &header, depot)?;
    Ok(Inputs::State {
        header,
        loaded,
        ticks: tick,
    })
}
