//! The windows that a thread overran.
ghost use Rattle.std.specs.Prelude.{◌≡◌, ◌<◌, ◌≤◌, ◌++◌, length, option_to_list, IfOk, OnOk};
ghost use Rattle.dk_config.specs.declared.TheConstants.{MAX_RUN_TICKS};
ghost use Rattle.dk_overrun_spans.specs.Found.{found_of, grown};

use dk_config::NoMemory;
use dk_trace::Entry;
use dk_window_report::{Row, WindowCounts, fresh, row_law, stepped};
use std::alloc::Global;

/// The tick with which the window began that ends with tick `now`, where the number of overruns grows with it.
fn grown(period: u32, now: u32, before: WindowCounts, after: WindowCounts) -> Option<u32>
    requires { now < MAX_RUN_TICKS }
    ensures { option_to_list result ≡ grown period now before after }
{
    if before.overran < after.overran {
        Some((now + 1).saturating_sub(period))
    } else {
        None
    }
}

fn note(ticks: &mut Vec<u32>, found: Option<u32>) -> Result<(), NoMemory>
    ensures { OnOk result (ticks.new.items ≡ ticks.old.items ++ option_to_list found) }
{
    if let Some(tick) = found {
        ticks.push(tick)?;
    }
    Ok(())
}

/// The ticks with which the windows began that the thread of this row overran, as many as the row says. The entries are
/// looked through from its first window on, up to the last that it overran.
pub(crate) fn found_of(alloc: Global, entries: &[Entry], row: &Row) -> Result<Vec<u32>, NoMemory>
    requires { length entries.now ≤ MAX_RUN_TICKS }
    ensures { IfOk result (λ v. v.items ≡ found_of entries.now row.now) }
{
    row_law();
    let mut ticks = Vec::new(alloc);
    let mut own = fresh(row.thread, row.period, row.since);
    let mut now = row.since;
    while ticks.len() < row.counts.overran as usize && (now as usize) < entries.len() {
        let next = stepped(now, entries[now as usize], own);
        note(&mut ticks, grown(row.period, now, own.counts, next.counts))?;
        own = next;
        now += 1;
    }
    Ok(ticks)
}
