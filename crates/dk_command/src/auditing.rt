//! What the auditor comes to.
ghost use Rattle.std.specs.Prelude.{◌≡◌, IfOk, string_bytes};
ghost use Rattle.dk_config.specs.Checked.{IsWithinLimits};
ghost use Rattle.dk_inputs.specs.Inputs.{IsCertified};
ghost use Rattle.dk_inputs.specs.Jobs.{findings};
ghost use Rattle.dk_command.specs.Output.{Fails, IsFoundIn, passed_text};
ghost use Rattle.dk_inputs.specs.Follows.{Makes};
ghost use Rattle.dk_command.specs.Work.{Does, IsReady};

use crate::Refusal;
use crate::work::Work;
use dk_audit::{Finding, audit_bytes};
use dk_config::Config;
use dk_ledger::LedgerFault;
use std::alloc::{AllocError, Global};

fn passed_line(alloc: Global, entries: u32) -> Result<String, AllocError>
    ensures { IfOk result (λ s. string_bytes s ≡ passed_text entries) }
{
    format!(in alloc; "audit: passed {entries}\n")
}

/// What an audit that found this comes to.
fn finding_work(
    alloc: Global,
    config: &Config,
    bytes: &[u8],
    finding: Finding,
) -> Result<Work, Refusal>
    requires { IsFoundIn config.now bytes.now finding }
    ensures does { Makes Does Fails result (findings config.now bytes.now) }
    ensures ready { IfOk result IsReady }
{
    let _config = config;
    let _bytes = bytes;
    match finding {
        Finding::Header => Err(Refusal::HeaderDiffers),
        Finding::Label(tick) => Err(Refusal::WrongLabel(tick)),
        Finding::Event(tick) => Err(Refusal::WrongEvent(tick)),
        Finding::Passed(entries) => Ok(Work::Lines(passed_line(alloc, entries)?.into_bytes())),
    }
}

/// What an audit of the ledger in these bytes finds.
pub fn audit_work(alloc: Global, config: &Config, bytes: &[u8]) -> Result<Work, Refusal>
    requires certified { IsCertified config.now }
    requires limits { IsWithinLimits config.now }
    ensures does { Makes Does Fails result (findings config.now bytes.now) }
    ensures ready { IfOk result IsReady }
{
    match audit_bytes(alloc, config, bytes) {
        Ok(finding) => finding_work(alloc, config, bytes, finding),
        Err(LedgerFault::Line(line)) => Err(Refusal::LedgerLine(line)),
        Err(LedgerFault::NoMemory) => Err(Refusal::NoMemory),
    }
}
