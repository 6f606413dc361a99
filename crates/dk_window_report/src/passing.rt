//! What entries without an event make of a row, many at once.
ghost use Rattle.std.specs.Prelude.{◌≡◌, ◌+◌, ◌-◌, ◌%◌, ◌<◌, ◌≤◌, true};
ghost use Rattle.dk_config.specs.declared.TheConstants.{MAX_TICKS};
ghost use Rattle.dk_trace.specs.Entries.{is_budget_of, quiet};
ghost use Rattle.dk_window_report.specs.Passing.{gone_by, worked};

use crate::late::{Late, row_at};
use crate::row::{Did, Row, stepped, ticks_in};
use dk_config::MAX_TICKS;
use dk_trace::{Entry, Label};

/// What the thread did in a window, of which so many ticks came before, with so many ticks of its budget more.
fn worked(ticks: u32, count: u32, did: Did) -> Did
    ensures { result ≡ worked ticks count did }
{
    if count == 0 {
        return did;
    }
    Did {
        used: did.used.saturating_add(count),
        done: ticks.saturating_add(count),
        ..did
    }
}

/// How many of so many ticks lie in the present window of the row and don't end it.
fn ticks_within(row: &Row, now: u32, count: u32) -> u32
    ensures few { result ≤ count }
    ensures since { 0 < result → row.now.since ≤ now }
    ensures within { 0 < result → (now - row.now.since) % row.now.period + result < row.now.period }
{
    if now < row.since {
        return 0;
    }
    let ticks = ticks_in(row.period, now - row.since);
    count.min(row.period.saturating_sub(1).saturating_sub(ticks))
}

/// The row after so many ticks from tick `now` on for which its thread pays.
fn paid_by(now: u32, label: Label, count: u32, row: Row) -> Row
    requires few { now + count ≤ MAX_TICKS }
    requires paid { is_budget_of row.thread (quiet label) ≡ true }
    ensures { result ≡ gone_by (quiet label) now count row }
{
    let few = ticks_within(&row, now, count);
    let ticks = ticks_in(row.period, now.saturating_sub(row.since));
    let mut after = Row {
        did: worked(ticks, few, row.did),
        ..row
    };
    for tick in few..count {
        after = stepped(now + tick, Entry { label, event: None }, after);
    }
    after
}

/// The row after so many ticks with this label from tick `now` on, in which nothing happens.
pub fn gone_by(now: u32, label: Label, count: u32, row: Row) -> Row
    requires { now + count ≤ MAX_TICKS }
    ensures { result ≡ gone_by (quiet label) now count row }
{
    if label.is_paid_by(row.thread) {
        return paid_by(now, label, count, row);
    }
    row_at(now + count, &Late { row, tick: now })
}
