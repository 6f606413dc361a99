//! The lines, and whether a ledger is as clean as it has to be.
ghost use Rattle.std.specs.Prelude.{List, ◌≡◌, ◌++◌, IfOk, OnOk};
ghost use Rattle.dk_trace.specs.declared.Entry.{Entry};
ghost use Rattle.dk_ledger.specs.Heading.{IsPrintable};
ghost use Rattle.dk_window_report.specs.Rows.{IsKeptOf};
ghost use Rattle.show_ledger.specs.Lines.{is_sound, reasons_by, strict_by, windows_lines};

use crate::notes::{OVERRAN, STRICT_OVERRAN, add_overrans, add_processes, add_total, add_troubles};
use crate::threads::add_threads;
use dk_config::NoMemory;
use dk_ledger::Header;
use dk_window_report::{Account, Row, WindowReport};
use show_rows::Form;
use std::alloc::{AllocError, Global};

/// Whether a ledger has to be clean.
#[derive(Clone, Copy)]
pub enum Strictness {
    /// It needn't.
    Free,
    /// Nothing overran, no call was refused, and no thread faulted.
    Strict,
    /// The same, but a thread that lives on slack may overrun.
    Sparing,
}

/// Whether the ledger is as clean as it has to be.
pub fn is_sound(report: &WindowReport, strictness: Strictness) -> bool
    ensures { (past : List Entry) → IsKeptOf report.now.heading past report.now.kept
        → result ≡ is_sound strictness report.now.heading past }
{
    match strictness {
        Strictness::Free => true,
        Strictness::Strict => report.is_strictly_clean(false),
        Strictness::Sparing => report.is_strictly_clean(true),
    }
}

fn add_strict(
    alloc: Global,
    out: &mut Vec<u8>,
    sparing: bool,
    header: &Header,
    accounts: &[Account],
    rows: &[Row],
) -> Result<(), AllocError>
    requires { IsPrintable header.now }
    ensures { OnOk result (out.new.items ≡ out.old.items ++ strict_by sparing header.now rows.now accounts.now) }
{
    add_overrans(alloc, out, STRICT_OVERRAN, sparing, header, accounts, rows)?;
    add_troubles(alloc, out, header, accounts)
}

/// Why it isn't clean, where it has to be.
fn add_reasons(
    alloc: Global,
    out: &mut Vec<u8>,
    strictness: Strictness,
    header: &Header,
    accounts: &[Account],
    rows: &[Row],
) -> Result<(), AllocError>
    requires { IsPrintable header.now }
    ensures { OnOk result (out.new.items ≡ out.old.items ++ reasons_by strictness header.now rows.now accounts.now) }
{
    match strictness {
        Strictness::Free => Ok(()),
        Strictness::Strict => add_strict(alloc, out, false, header, accounts, rows),
        Strictness::Sparing => add_strict(alloc, out, true, header, accounts, rows),
    }
}

/// What each thread did, what befell each process, which window each thread overran first, and why the ledger isn't
/// clean, where it has to be. `Err` is want of memory.
pub fn windows_lines(
    alloc: Global,
    report: &WindowReport,
    strictness: Strictness,
) -> Result<Vec<u8>, NoMemory>
    requires { IsPrintable report.now.heading }
    ensures { IfOk result (λ v. (past : List Entry) → IsKeptOf report.now.heading past report.now.kept
        → v.items ≡ windows_lines strictness report.now.heading past) }
{
    let header = report.header();
    let accounts = report.accounts();
    let all = report.rows(alloc)?;
    let rows = all.as_slice();
    let mut out = Vec::new(alloc);
    add_threads(alloc, &mut out, Form::Line, header, accounts, rows)?;
    add_total(alloc, &mut out, report.overruns())?;
    add_processes(alloc, &mut out, header, accounts)?;
    add_overrans(alloc, &mut out, OVERRAN, false, header, accounts, rows)?;
    add_reasons(alloc, &mut out, strictness, header, accounts, rows)?;
    Ok(out)
}
