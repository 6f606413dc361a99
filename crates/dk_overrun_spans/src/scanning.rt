//! The last tick of a budget in a window.
ghost use Rattle.std.specs.Prelude.{◌≡◌, ◌+◌, ◌<◌, ◌≤◌, drop, length, reverse, take, false, slice_get};
ghost use Rattle.std.specs.Option.{option_map_or};
ghost use Rattle.dk_config.specs.declared.TheConstants.{MAX_RUN_TICKS};
ghost use Rattle.dk_trace.specs.Entries.{is_budget_of};
ghost use Rattle.dk_window_report.specs.Windows.{done_in};
ghost use Rattle.dk_overrun_spans.specs.Overruns.{last_in};

use dk_trace::{Entry, ThreadId};

/// Whether the thread's budget paid for this tick.
fn is_paid_at(entries: &[Entry], thread: ThreadId, tick: u64) -> bool
    ensures { result ≡ option_map_or (is_budget_of thread) (slice_get entries.now tick) false }
{
    match entries.get(tick as usize) {
        Some(entry) => entry.label.is_paid_by(thread),
        None => false,
    }
}

/// How many of the window's ticks there are up to the thread's last one of the budget, where it begins with tick `start` and
/// has so many ticks.
fn done_in(entries: &[Entry], thread: ThreadId, start: u32, ticks: u32) -> u32
    ensures done { result ≡ done_in thread (reverse (take ticks (drop start entries.now))) }
    ensures within { 0 < result → start + result ≤ length entries.now }
{
    let mut done = ticks;
    while done > 0 {
        if is_paid_at(entries, thread, start as u64 + (done - 1) as u64) {
            return done;
        }
        done -= 1;
    }
    0
}

/// The last tick of the thread's budget in the window.
pub(crate) fn last_in(entries: &[Entry], thread: ThreadId, start: u32, ticks: u32) -> u32
    requires { length entries.now ≤ MAX_RUN_TICKS }
    ensures { result ≡ last_in thread start ticks entries.now }
{
    let done = done_in(entries, thread, start, ticks);
    if done == 0 { start } else { start + (done - 1) }
}
