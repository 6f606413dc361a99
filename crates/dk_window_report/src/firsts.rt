//! Which window a thread overran first, and what its process has in one.
ghost use Rattle.std.specs.Prelude.{◌≡◌};
ghost use Rattle.dk_window_report.specs.Firsts.{budget_at, first_tick, first_window};

use crate::row::Row;
use dk_ledger::Header;

/// The budget of the process, and 0 where the header has no such line.
pub fn budget_at(header: &Header, process: u8) -> u32
    ensures { result ≡ budget_at header.now process }
{
    match header.processes.as_slice().get(process as usize) {
        Some(line) => line.budget,
        None => 0,
    }
}

/// The tick with which the first window began that the thread overran, up to the last value.
pub fn first_tick(row: &Row) -> u32
    ensures { result ≡ first_tick row.now }
{
    let before = row.counts.first_overran.saturating_sub(1);
    let tick = row.since as u64 + before as u64 * row.period as u64;
    tick.min(u32::MAX as u64) as u32
}

/// The number of that window among those of its level, from 0.
pub fn first_window(row: &Row) -> u32
    ensures { result ≡ first_window row.now }
{
    if row.period == 0 {
        0
    } else {
        first_tick(row) / row.period
    }
}
