//! What the threads of a ledger did in their windows.
ghost use Rattle.std.specs.Prelude.{ℕ, List, ◌≡◌, ◌≢◌, ◌^◌, ◌<◌, IfOk, IfErr, IfSome, None};
ghost use Rattle.dk_trace.specs.declared.Entry.{Entry};
ghost use Rattle.dk_ledger.specs.Heading.{IsPrintable};
ghost use Rattle.dk_window_report.specs.Rows.{IsKeptOf};
ghost use Rattle.dk_show.specs.Answers.{IsEnd};
ghost use Rattle.dk_show.specs.Asking.{Asks, handed_out};
ghost use Rattle.dk_show.specs.Leaves.{Reads};
ghost use Rattle.dk_show.specs.Output.{IsOfNamed};
ghost use Rattle.dk_show.specs.Windowed.{AreTold, IsOfPage, IsOfWindows, done_end, lines_end, sound_end};
ghost use Rattle.dk_show.specs.Works.{ComesTo, IsMade, IsWhole};
ghost use Rattle.show_ledger.specs.Lines.{windows_lines};
ghost use Rattle.show_ledger.specs.Overruns.{all_windows};
ghost use Rattle.show_ledger.specs.TenthsTable.{tenths_csv};
ghost use Rattle.show_ledger.specs.Threads.{windows_csv};

use crate::files::file_at;
use crate::work::Work;
use crate::{Refusal, Status};
use dk_config::MAX_LEDGER_BYTES;
use dk_ledger::LedgerFault;
use dk_outside::Depot;
use dk_show_request::WindowsForm;
use dk_window_report::WindowReport;
use show_ledger::{Strictness, all_windows, is_sound, tenths_csv, windows_csv, windows_lines};
use std::alloc::Global;

/// How the call ends.
fn sound_end(sound: bool) -> Status
    ensures is { result ≡ sound_end sound }
    ensures ends { IsEnd result }
{
    if sound { Status::Done } else { Status::Refused }
}

/// What is told of a report as lines.
fn lines_work(alloc: Global, report: &WindowReport, strictness: Strictness) -> Result<Work, Refusal>
    requires { IsPrintable report.now.heading }
    ensures comes { (past : List Entry) → IsKeptOf report.now.heading past report.now.kept
        → ComesTo (AreTold (windows_lines strictness) (lines_end strictness) report.now.heading past) result }
    ensures made { IsMade IsWhole result }
{
    let lines = windows_lines(alloc, report, strictness)?;
    let ended = sound_end(is_sound(report, strictness));
    Ok(Work::Bytes(lines, ended))
}

/// What the threads of the ledger in these bytes did, as lines.
fn of_lines(alloc: Global, strictness: Strictness, bytes: &[u8]) -> Result<Work, Refusal>
    ensures comes { ComesTo (IsOfPage (windows_lines strictness) (lines_end strictness) bytes.now) result }
    ensures made { IsMade IsWhole result }
{
    match WindowReport::of(alloc, bytes) {
        Ok(report) => lines_work(alloc, &report, strictness),
        Err(LedgerFault::Line(line)) => Err(Refusal::LedgerLine(line)),
        Err(LedgerFault::NoMemory) => Err(Refusal::NoMemory),
    }
}

/// What is told of a report as a table.
fn table_work(alloc: Global, report: &WindowReport) -> Result<Work, Refusal>
    requires { IsPrintable report.now.heading }
    ensures comes { (past : List Entry) → IsKeptOf report.now.heading past report.now.kept
        → ComesTo (AreTold windows_csv done_end report.now.heading past) result }
    ensures made { IsMade IsWhole result }
{
    let table = windows_csv(alloc, report)?;
    Ok(Work::Bytes(table, Status::Done))
}

/// What the threads of the ledger in these bytes did, as a table.
fn of_table(alloc: Global, bytes: &[u8]) -> Result<Work, Refusal>
    ensures comes { ComesTo (IsOfPage windows_csv done_end bytes.now) result }
    ensures made { IsMade IsWhole result }
{
    match WindowReport::of(alloc, bytes) {
        Ok(report) => table_work(alloc, &report),
        Err(LedgerFault::Line(line)) => Err(Refusal::LedgerLine(line)),
        Err(LedgerFault::NoMemory) => Err(Refusal::NoMemory),
    }
}

/// What the threads of the ledger in these bytes did, with each window that was overrun.
fn of_all(alloc: Global, bytes: &[u8]) -> Result<Work, Refusal>
    ensures comes { ComesTo (IsOfPage all_windows done_end bytes.now) result }
    ensures made { IsMade IsWhole result }
{
    match all_windows(alloc, bytes) {
        Ok(windows) => Ok(Work::Bytes(windows, Status::Done)),
        Err(LedgerFault::Line(line)) => Err(Refusal::LedgerLine(line)),
        Err(LedgerFault::NoMemory) => Err(Refusal::NoMemory),
    }
}

/// In how many windows each main of the ledger in these bytes used so many tenths of its budget.
fn of_tenths(alloc: Global, bytes: &[u8]) -> Result<Work, Refusal>
    ensures comes { ComesTo (IsOfPage tenths_csv done_end bytes.now) result }
    ensures made { IsMade IsWhole result }
{
    match tenths_csv(alloc, bytes) {
        Ok(table) => Ok(Work::Bytes(table, Status::Done)),
        Err(LedgerFault::Line(line)) => Err(Refusal::LedgerLine(line)),
        Err(LedgerFault::NoMemory) => Err(Refusal::NoMemory),
    }
}

/// What the threads of the ledger in these bytes did.
fn of_ledger(alloc: Global, form: WindowsForm, bytes: &[u8]) -> Result<Work, Refusal>
    ensures comes { ComesTo (IsOfWindows form bytes.now) result }
    ensures made { IsMade IsWhole result }
{
    match form {
        WindowsForm::Plain => of_lines(alloc, Strictness::Free, bytes),
        WindowsForm::Strict => of_lines(alloc, Strictness::Strict, bytes),
        WindowsForm::Sparing => of_lines(alloc, Strictness::Sparing, bytes),
        WindowsForm::All => of_all(alloc, bytes),
        WindowsForm::Tenths => of_tenths(alloc, bytes),
        WindowsForm::Csv => of_table(alloc, bytes),
    }
}

/// What the threads of the ledger in the file of this name did.
#[tactic(auto, using(crate::proofs::Asks::asks_on, crate::proofs::Asks::asks_fails))]
pub(crate) fn windows_work<D: Depot>(
    alloc: Global,
    ledger: &str,
    form: WindowsForm,
    depot: &mut D,
) -> Result<Work, Refusal>
    requires { (D.seen depot.old).given < 2 ^ 62 }
    ensures comes { IfSome (D.seen depot.old).files
        (λ at. ComesTo (IsOfNamed at ledger.now MAX_LEDGER_BYTES Refusal.LongLedger (IsOfWindows form)) result) }
    ensures whole { IfOk result IsWhole }
    ensures asks { Asks (D.seen depot.old).files (λ at. handed_out MAX_LEDGER_BYTES (at ledger.now)) (λ at. at ledger.now ≡ None)
        (D.seen depot.old) (D.seen depot.new) result }
    ensures reads { Reads (D.seen depot.old) (D.seen depot.new) result }
{
    let bytes = file_at(alloc, depot, ledger, MAX_LEDGER_BYTES, Refusal::LongLedger)?;
    of_ledger(alloc, form, bytes.as_slice())
}
