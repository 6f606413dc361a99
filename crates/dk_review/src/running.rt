//! What the commands tell of a ledger.
ghost use Rattle.std.specs.Prelude.{ℕ, ◌≡◌, IfErr, IfOk, IsErrOf, false, string_bytes};
ghost use Rattle.dk_config.specs.Checked.{IsAccepted, IsChecked, IsWithinLimits};
ghost use Rattle.dk_audit.specs.Lines.{IsFoundIn};
ghost use Rattle.dk_audit.specs.declared.finding.Finding.{Finding as Found};
ghost use Rattle.dk_ledger.specs.declared.ledger.LedgerFault.{LedgerFault as Fault};
ghost use Rattle.dk_ledger.specs.Readable.{IsNoText, IsWrongLine};
ghost use Rattle.dk_review.specs.Runs.{AreTenthsOf, AreTotalsOf, AreWindowsOf, IsFaultOf, IsOfLedger, IsRunOf, IsToldBy, audit_text, has_passed, is_other, tick_text};

use crate::drawing::{Range, drawing_of};
use crate::fault::RunFault;
use dk_audit::{Finding, audit_bytes};
use dk_config::{Config, NoMemory};
use dk_ledger::LedgerFault;
use dk_page::Run;
use dk_window_report::WindowReport;
use show_ledger::{ReportTexts, report_texts, tenths_csv, windows_csv};
use std::alloc::{AllocError, Global};

fn tick_text(alloc: Global, tick: u32, part: &str) -> Result<String, AllocError>
    ensures { IfOk result (λ s. string_bytes s ≡ tick_text tick part.now) }
{
    format!(in alloc; "audit: tick {tick} {part}\n")
}

fn audit_text(alloc: Global, finding: Finding) -> Result<String, AllocError>
    ensures { IfOk result (λ s. string_bytes s ≡ audit_text finding) }
{
    match finding {
        Finding::Header => String::from_str(alloc, "audit: header differs\n"),
        Finding::Label(tick) => tick_text(alloc, tick, "label"),
        Finding::Event(tick) => tick_text(alloc, tick, "event"),
        Finding::Passed(entries) => format!(in alloc; "audit: passed {entries}\n"),
    }
}

fn has_passed(finding: Finding) -> bool
    ensures { result ≡ has_passed finding }
{
    match finding {
        Finding::Passed(_) => true,
        Finding::Header | Finding::Label(_) | Finding::Event(_) => false,
    }
}

fn is_other(finding: Finding) -> bool
    ensures { result ≡ is_other finding }
{
    match finding {
        Finding::Header => true,
        Finding::Label(_) | Finding::Event(_) | Finding::Passed(_) => false,
    }
}

fn audit_bytes_of(alloc: Global, finding: Finding) -> Result<Vec<u8>, NoMemory>
    ensures { IfOk result (λ v. v.items ≡ audit_text finding) }
{
    let text = audit_text(alloc, finding)?;
    Ok(text.into_bytes())
}

fn windows_of(alloc: Global, bytes: &[u8]) -> Result<Vec<u8>, LedgerFault>
    ensures told { IfOk result (λ v. IsOfLedger (AreWindowsOf v.items) bytes.now) }
    ensures line { (n : ℕ) → IsErrOf result (Fault.Line n) → IsWrongLine n bytes.now × IsNoText bytes.now }
{
    let report = WindowReport::of(alloc, bytes)?;
    let table = windows_csv(alloc, &report)?;
    Ok(table)
}

fn windows_in(alloc: Global, bytes: &[u8], range: Option<Range>) -> Result<Vec<u8>, RunFault>
    ensures told { IfOk result (λ v. IsOfLedger (AreWindowsOf v.items) bytes.now) }
    ensures fault { IfErr result (IsFaultOf ⊥ range bytes.now) }
{
    let _range = range;
    match windows_of(alloc, bytes) {
        Ok(table) => Ok(table),
        Err(LedgerFault::Line(line)) => Err(RunFault::Line(line)),
        Err(LedgerFault::NoMemory) => Err(RunFault::NoMemory),
    }
}

fn tenths_in(alloc: Global, bytes: &[u8], range: Option<Range>) -> Result<Vec<u8>, RunFault>
    ensures told { IfOk result (λ v. IsOfLedger (AreTenthsOf v.items) bytes.now) }
    ensures fault { IfErr result (IsFaultOf ⊥ range bytes.now) }
{
    let _range = range;
    match tenths_csv(alloc, bytes) {
        Ok(table) => Ok(table),
        Err(LedgerFault::Line(line)) => Err(RunFault::Line(line)),
        Err(LedgerFault::NoMemory) => Err(RunFault::NoMemory),
    }
}

fn totals_in(alloc: Global, bytes: &[u8], range: Option<Range>) -> Result<ReportTexts, RunFault>
    ensures told { IfOk result (λ r. IsOfLedger (AreTotalsOf r.report.items r.totals.items) bytes.now) }
    ensures fault { IfErr result (IsFaultOf ⊥ range bytes.now) }
{
    let _range = range;
    match report_texts(alloc, bytes) {
        Ok(texts) => Ok(texts),
        Err(LedgerFault::Line(line)) => Err(RunFault::Line(line)),
        Err(LedgerFault::NoMemory) => Err(RunFault::NoMemory),
    }
}

/// What the commands tell of the ledger in these bytes, of which this was found, with the picture of this range.
fn told_by(
    alloc: Global,
    finding: Finding,
    bytes: &[u8],
    range: Option<Range>,
) -> Result<Run, RunFault>
    ensures told { IfOk result (IsToldBy finding range bytes.now) }
    ensures fault { IfErr result (IsFaultOf ⊥ range bytes.now) }
{
    let Ok(audit) = audit_bytes_of(alloc, finding) else {
        return Err(RunFault::NoMemory);
    };
    let drawing = drawing_of(alloc, bytes, range)?;
    let windows = windows_in(alloc, bytes, range)?;
    let tenths = tenths_in(alloc, bytes, range)?;
    let texts = totals_in(alloc, bytes, range)?;
    let passed = has_passed(finding);
    Ok(Run {
        audit,
        passed,
        drawing,
        windows,
        tenths,
        report: texts.report,
        totals: texts.totals,
    })
}

fn of_finding(
    alloc: Global,
    finding: Finding,
    bytes: &[u8],
    range: Option<Range>,
) -> Result<Run, RunFault>
    ensures own { IfOk result (λ _. is_other finding ≡ false) }
    ensures told { IfOk result (IsToldBy finding range bytes.now) }
    ensures fault { IfErr result (IsFaultOf (finding ≡ Found.Header) range bytes.now) }
{
    if is_other(finding) {
        return Err(RunFault::Other);
    }
    told_by(alloc, finding, bytes, range)
}

/// What the commands tell of the ledger in these bytes, with the picture of this range, and without one of all of its ticks.
pub(crate) fn run_of(
    alloc: Global,
    config: &Config,
    bytes: &[u8],
    range: Option<Range>,
) -> Result<Run, RunFault>
    requires checked { IsChecked config.now }
    requires limits { IsWithinLimits config.now }
    requires accepted { IsAccepted config.now }
    ensures told { IfOk result (IsRunOf config.now range bytes.now) }
    ensures fault { IfErr result (IsFaultOf (IsFoundIn config.now bytes.now Found.Header) range bytes.now) }
{
    match audit_bytes(alloc, config, bytes) {
        Ok(finding) => of_finding(alloc, finding, bytes, range),
        Err(LedgerFault::Line(line)) => Err(RunFault::Line(line)),
        Err(LedgerFault::NoMemory) => Err(RunFault::NoMemory),
    }
}
