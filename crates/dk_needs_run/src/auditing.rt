//! What an audit finds of a ledger of the configuration.
ghost use Rattle.std.specs.Prelude.{IfErr, IfOk};
ghost use Rattle.dk_config.specs.Checked.{IsAccepted, IsChecked, IsWithinLimits};
ghost use Rattle.dk_audit.specs.Lines.{IsFoundIn};
ghost use Rattle.dk_needs_run.specs.Run.{IsFaultIn, finding_of};

use crate::RunFault;
use dk_audit::{Finding, audit_bytes};
use dk_config::Config;
use dk_ledger::LedgerFault;
use dk_needs_check::Audit;
use std::alloc::Global;

/// What an audit finds of the ledger in these bytes.
pub(crate) fn audit_in(alloc: Global, config: &Config, bytes: &[u8]) -> Result<Audit, RunFault>
    requires checked { IsChecked config.now }
    requires limits { IsWithinLimits config.now }
    requires accepted { IsAccepted config.now }
    ensures found { IfOk result (λ audit. IsFoundIn config.now bytes.now (finding_of audit)) }
    ensures fault { IfErr result (IsFaultIn config.now bytes.now) }
{
    match audit_bytes(alloc, config, bytes) {
        Ok(Finding::Passed(ticks)) => Ok(Audit::Passed(ticks)),
        Ok(Finding::Label(tick)) => Ok(Audit::Label(tick)),
        Ok(Finding::Event(tick)) => Ok(Audit::Event(tick)),
        Ok(Finding::Header) => Err(RunFault::Other),
        Err(LedgerFault::Line(line)) => Err(RunFault::Line(line)),
        Err(LedgerFault::NoMemory) => Err(RunFault::NoMemory),
    }
}
