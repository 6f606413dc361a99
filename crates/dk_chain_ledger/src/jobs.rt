//! The jobs of a main in a ledger.
ghost use Rattle.std.specs.Prelude.{◌+◌, ◌≡◌, ◌<◌, ◌≤◌, length, position, IfSome};
ghost use Rattle.dk_config.specs.declared.TheConstants.{MAX_RUN_TICKS};
ghost use Rattle.dk_trace.specs.Entries.{is_budget_of};
ghost use Rattle.dk_chain_ledger.specs.Jobs.{closes, first_in, job_in, last_in, over_in};

use dk_config::MAX_RUN_TICKS;
use dk_trace::{Entry, Event, ThreadId};

/// A job of a main: the tick at which it had its first tick on its budget, and the tick by which the job is over.
#[derive(Clone, Copy)]
pub(crate) struct Job {
    pub(crate) begun: u32,
    pub(crate) over: u32,
}

/// Whether the main waited or was stopped in the entry.
fn closes(main: ThreadId, entry: Entry) -> bool
    ensures { result ≡ closes main entry }
{
    match entry.event {
        Some(Event::Wait) | Some(Event::Exit) | Some(Event::Fault(_)) => entry.label.is_of(main),
        _ => false,
    }
}

/// After how many ticks of the window the main had the last on its budget; 0 where it had none.
fn last_paid(main: ThreadId, window: &[Entry]) -> u32
    requires few { length window.now ≤ MAX_RUN_TICKS }
    ensures { result ≡ last_in (is_budget_of main) window.now }
{
    let mut last = 0;
    let mut ticks = 0;
    for entry in window {
        ticks += 1;
        if entry.label.is_paid_by(main) {
            last = ticks;
        }
    }
    last
}

/// After how many ticks of the window the main first waited or was stopped; all of them where it didn't.
fn first_closing(main: ThreadId, window: &[Entry]) -> u32
    requires few { length window.now ≤ MAX_RUN_TICKS }
    ensures first { result ≡ first_in (closes main) window.now }
    ensures within { result ≤ length window.now }
{
    let mut ticks = 0;
    for entry in window {
        ticks += 1;
        if closes(main, *entry) {
            return ticks;
        }
    }
    ticks
}

fn over_in(main: ThreadId, window: &[Entry]) -> u32
    requires few { length window.now ≤ MAX_RUN_TICKS }
    ensures over { result ≡ over_in main window.now }
    ensures within { result ≤ length window.now }
{
    last_paid(main, window).min(first_closing(main, window))
}

fn first_paid(main: ThreadId, window: &[Entry]) -> Option<usize>
    ensures first { result ≡ position (is_budget_of main) window.now }
    ensures within { IfSome result (λ k. k < length window.now) }
{
    window.iter().position(|entry| entry.label.is_paid_by(main))
}

/// The job of the main in a window that starts at this tick, if it had a tick of its budget there.
pub(crate) fn job_in(main: ThreadId, window: &[Entry], start: u32) -> Option<Job>
    requires few { start + length window.now ≤ MAX_RUN_TICKS }
    ensures { result ≡ job_in main window.now start }
{
    let begun = first_paid(main, window)?;
    Some(Job {
        begun: start + begun as u32,
        over: start + over_in(main, window),
    })
}
