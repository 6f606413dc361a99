//! Rows that are kept as they were when something last happened to their threads.
ghost use Rattle.std.specs.Prelude.{◌≡◌, ◌<◌, IfOk};
ghost use Rattle.dk_window_report.specs.Late.{windows_before, idled, after, row_at, rows_at, late_with};

use crate::row::{Row, WindowCounts, ended, stepped};
use dk_config::{MAX_RUN_TICKS, NoMemory};
use dk_trace::Entry;
use std::alloc::Global;

/// The row of a thread before that tick, up to which it is told.
#[derive(Clone, Copy)]
pub struct Late {
    pub row: Row,
    pub tick: u32,
}

/// How many windows of the row have ended before the tick.
fn windows_before(row: &Row, tick: u32) -> u32
    ensures { result ≡ windows_before row.now tick }
{
    if row.period == 0 {
        0
    } else {
        tick.saturating_sub(row.since) / row.period
    }
}

/// The numbers with so many windows more in which the thread did nothing.
fn idled(gone: bool, windows: u32, counts: WindowCounts) -> WindowCounts
    ensures { result ≡ idled gone windows counts }
{
    if gone || windows == 0 {
        return counts;
    }
    WindowCounts {
        windows: counts.windows.saturating_add(windows),
        least_used: 0,
        first_done: 0,
        ..counts
    }
}

/// The row once so many windows have ended, its present one first, in which nothing more happens.
fn after(windows: u32, row: Row) -> Row
    ensures { result ≡ after windows row }
{
    if windows == 0 {
        return row;
    }
    let ended = ended(row, row.did);
    Row {
        counts: idled(ended.gone, windows - 1, ended.counts),
        ..ended
    }
}

/// The row before tick `now`, where nothing happened to its thread meanwhile.
pub fn row_at(now: u32, late: &Late) -> Row
    ensures { result ≡ row_at now late.now }
{
    let row = late.row;
    if now <= late.tick {
        return row;
    }
    let windows = windows_before(&row, now).saturating_sub(windows_before(&row, late.tick));
    after(windows, row)
}

/// The row with the entry of tick `now`, unless it has it.
pub fn late_with(now: u32, entry: Entry, late: Late) -> Late
    requires { now < MAX_RUN_TICKS }
    ensures { result ≡ late_with now entry late }
{
    if now < late.tick {
        return late;
    }
    Late {
        row: stepped(now, entry, row_at(now, &late)),
        tick: now + 1,
    }
}

/// The rows before that tick.
pub fn rows_before(alloc: Global, tick: u32, lates: &[Late]) -> Result<Vec<Row>, NoMemory>
    ensures { IfOk result (λ v. v.items ≡ rows_at tick lates.now) }
{
    let mut rows = Vec::new(alloc);
    for late in lates {
        rows.push(row_at(tick, late))?;
    }
    Ok(rows)
}
