//! The windows that were overrun, read of a ledger.
ghost use Rattle.std.specs.Prelude.{◌≡◌, ◌≤◌, ◌++◌, flat_map, length, map, IfOk, OnOk};
ghost use Rattle.dk_config.specs.declared.TheConstants.{MAX_RUN_TICKS};
ghost use Rattle.dk_ledger.specs.Readable.{Journal, IsReadable, text_of};
ghost use Rattle.dk_window_report.specs.Report.{IsKeptIn};
ghost use Rattle.dk_overrun_spans.specs.Found.{owner_of};
ghost use Rattle.dk_overrun_spans.specs.Overruns.{overrun_from, overruns, row_overruns};

use crate::all_told_law;
use crate::finding::found_of;
use crate::overrun::Overrun;
use crate::scanning::last_in;
use dk_config::NoMemory;
use dk_ledger::{Ledger, one_to_one, read_ledger};
use dk_trace::Entry;
use dk_window_report::{Row, WindowReport};
use std::alloc::Global;

/// The window of the row's thread that begins with the tick.
fn overrun_from(entries: &[Entry], row: &Row, start: u32) -> Overrun
    requires { length entries.now ≤ MAX_RUN_TICKS }
    ensures { result ≡ overrun_from (owner_of row.now) entries.now start }
{
    Overrun {
        thread: row.thread,
        period: row.period,
        start,
        last: last_in(entries, row.thread, start, row.period),
    }
}

/// Adds those of the thread that begin with these ticks.
fn add_windows(
    overruns: &mut Vec<Overrun>,
    entries: &[Entry],
    row: &Row,
    starts: &[u32],
) -> Result<(), NoMemory>
    requires { length entries.now ≤ MAX_RUN_TICKS }
    ensures { OnOk result (overruns.new.items
        ≡ overruns.old.items ++ map (overrun_from (owner_of row.now) entries.now) starts.now) }
{
    for start in starts {
        overruns.push(overrun_from(entries, row, *start))?;
    }
    Ok(())
}

fn add_thread(
    alloc: Global,
    overruns: &mut Vec<Overrun>,
    entries: &[Entry],
    row: &Row,
) -> Result<(), NoMemory>
    requires { length entries.now ≤ MAX_RUN_TICKS }
    ensures { OnOk result (overruns.new.items ≡ overruns.old.items ++ row_overruns entries.now row.now) }
{
    let starts = found_of(alloc, entries, row)?;
    add_windows(overruns, entries, row, starts.as_slice())
}

fn add_threads(
    alloc: Global,
    overruns: &mut Vec<Overrun>,
    entries: &[Entry],
    rows: &[Row],
) -> Result<(), NoMemory>
    requires { length entries.now ≤ MAX_RUN_TICKS }
    ensures { OnOk result (overruns.new.items ≡ overruns.old.items ++ flat_map (row_overruns entries.now) rows.now) }
{
    for row in rows {
        add_thread(alloc, overruns, entries, row)?;
    }
    Ok(())
}

fn report_of(alloc: Global, bytes: &[u8]) -> Result<WindowReport, NoMemory>
    ensures { IfOk result (λ r. IsKeptIn bytes.now r.heading r.kept) }
{
    match WindowReport::of(alloc, bytes) {
        Ok(report) => Ok(report),
        Err(_) => Err(NoMemory),
    }
}

fn ledger_of(alloc: Global, bytes: &[u8]) -> Result<Ledger, NoMemory>
    ensures { IfOk result (λ l. IsReadable l × (text_of l ≡ bytes.now)) }
{
    match read_ledger(alloc, bytes) {
        Ok(ledger) => Ok(ledger),
        Err(_) => Err(NoMemory),
    }
}

/// The windows that the threads of the ledger in these bytes overran, of which this is the report: the threads in the order
/// of its rows, and the windows of a thread in theirs. The entries are kept meanwhile, but not where nothing was overrun.
/// `Err` is want of memory.
pub fn overruns_in(
    alloc: Global,
    bytes: &[u8],
    report: &WindowReport,
) -> Result<Vec<Overrun>, NoMemory>
    requires { IsKeptIn bytes.now report.now.heading report.now.kept }
    ensures { IfOk result (λ v. (j : Journal) → IsReadable j → text_of j ≡ bytes.now → v.items ≡ overruns j.heading j.entries) }
{
    all_told_law();
    one_to_one();
    let mut found = Vec::new(alloc);
    if report.overruns() == 0 {
        return Ok(found);
    }
    let ledger = ledger_of(alloc, bytes)?;
    let rows = report.rows(alloc)?;
    add_threads(
        alloc,
        &mut found,
        ledger.entries.as_slice(),
        rows.as_slice(),
    )?;
    Ok(found)
}

/// The same of a ledger of which no report is there yet.
pub fn read_overruns(alloc: Global, bytes: &[u8]) -> Result<Vec<Overrun>, NoMemory>
    requires { (j : Journal) × IsReadable j × (text_of j ≡ bytes.now) }
    ensures { IfOk result (λ v. (j : Journal) → IsReadable j → text_of j ≡ bytes.now → v.items ≡ overruns j.heading j.entries) }
{
    let report = report_of(alloc, bytes)?;
    overruns_in(alloc, bytes, &report)
}
