//! What the bytes of a ledger say of its run.
ghost use Rattle.std.specs.Prelude.{◌≡◌, IfErr, IfOk};
ghost use Rattle.dk_config.specs.Checked.{IsAccepted, IsChecked, IsWithinLimits};
ghost use Rattle.dk_window_report.specs.Report.{IsKeptIn};
ghost use Rattle.dk_needs_run.specs.Run.{IsFaultIn, IsRunIn, faults_in, refused_in};

use crate::auditing::audit_in;
use crate::{RunFault, RunFound};
use dk_config::Config;
use dk_ledger::{LedgerFault, one_to_one};
use dk_window_report::{Account, WindowReport};
use std::alloc::Global;

/// How many calls of these processes were refused, up to the last value.
fn refused_in(accounts: &[Account]) -> u32
    ensures { result ≡ refused_in accounts.now }
{
    let mut sum: u32 = 0;
    for account in accounts {
        sum = sum.saturating_add(account.refused.count);
    }
    sum
}

/// How many faults they had, up to the last value.
fn faults_in(accounts: &[Account]) -> u32
    ensures { result ≡ faults_in accounts.now }
{
    let mut sum: u32 = 0;
    for account in accounts {
        sum = sum.saturating_add(account.faults.count);
    }
    sum
}

/// What each thread of the ledger in these bytes did.
fn report_of(alloc: Global, config: &Config, bytes: &[u8]) -> Result<WindowReport, RunFault>
    ensures kept { IfOk result (λ r. IsKeptIn bytes.now r.heading r.kept) }
    ensures fault { IfErr result (IsFaultIn config.now bytes.now) }
{
    let _config = config;
    match WindowReport::of(alloc, bytes) {
        Ok(report) => Ok(report),
        Err(LedgerFault::Line(line)) => Err(RunFault::Line(line)),
        Err(LedgerFault::NoMemory) => Err(RunFault::NoMemory),
    }
}

/// What the ledger in these bytes says of its run: what its audit finds, and how many windows were overrun, how many calls
/// refused and how many faults there were. The bytes are read twice, line by line.
///
/// `Line` names the first line by which they are no ledger, `Other` says that the header isn't that of the configuration.
pub fn run_of(alloc: Global, config: &Config, bytes: &[u8]) -> Result<RunFound, RunFault>
    requires checked { IsChecked config.now }
    requires limits { IsWithinLimits config.now }
    requires accepted { IsAccepted config.now }
    ensures run { IfOk result (IsRunIn config.now bytes.now) }
    ensures fault { IfErr result (IsFaultIn config.now bytes.now) }
{
    one_to_one();
    let audit = audit_in(alloc, config, bytes)?;
    let report = report_of(alloc, config, bytes)?;
    let accounts = report.accounts();
    Ok(RunFound {
        audit,
        overruns: report.overruns(),
        refused: refused_in(accounts),
        faults: faults_in(accounts),
    })
}
