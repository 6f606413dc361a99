//! What is kept of a thread while a ledger is read.
ghost use Rattle.std.specs.Prelude.{◌≡◌, ◌%◌};
ghost use Rattle.dk_trace.specs.Entries.{does, is_wait, is_end, is_delete_of, stops};
ghost use Rattle.dk_window_report.specs.Windows.{is_overrun};
ghost use Rattle.dk_window_report.specs.Rows.{raised, raised_if, did_with, lesser, first_with, counts_with, ended, filled, stepped};

use dk_trace::{Entry, Event, ThreadId};

/// What a thread did in a window of its level: how many ticks of its budget it had, the tick of the window, counted
/// from 1, at which it had the last of them (0 where it had none), and whether it waited or was stopped.
#[derive(Clone, Copy, Default)]
pub struct Did {
    pub used: u32,
    pub done: u32,
    pub waited: bool,
    pub stopped: bool,
}

/// What a thread did in its windows that have ended: in how many it waited, was stopped and overran; and of those up to
/// the one in which it was stopped, how many they are, the least and the most ticks of its budget that it had in one, and
/// the earliest and the latest tick of a window at which it was done.
#[derive(Clone, Copy, Default)]
pub struct WindowCounts {
    pub windows: u32,
    pub waited: u32,
    pub stopped: u32,
    pub overran: u32,
    /// The first window that it overran, counted from 1, or 0.
    pub first_overran: u32,
    pub least_used: u32,
    pub most_used: u32,
    pub first_done: u32,
    pub last_done: u32,
}

/// A thread: its period, the tick at which its first window begins, what it did in its present window and in those
/// before, and whether it was stopped before.
#[derive(Clone, Copy)]
pub struct Row {
    pub thread: ThreadId,
    pub period: u32,
    pub since: u32,
    pub did: Did,
    pub counts: WindowCounts,
    pub gone: bool,
}

/// One more, up to the last value.
fn raised(n: u32) -> u32
    ensures { result ≡ raised n }
{
    if n < u32::MAX { n + 1 } else { n }
}

fn raised_if(condition: bool, n: u32) -> u32
    ensures { result ≡ raised_if condition n }
{
    if condition { raised(n) } else { n }
}

/// Whether the thread waited in the entry.
fn waits(thread: ThreadId, entry: Entry) -> bool
    ensures { result ≡ does is_wait thread entry }
{
    match entry.event {
        Some(Event::Wait) => entry.label.is_of(thread),
        _ => false,
    }
}

/// Whether the thread exited or faulted in the entry.
fn ends(thread: ThreadId, entry: Entry) -> bool
    ensures { result ≡ does is_end thread entry }
{
    match entry.event {
        Some(Event::Exit) => entry.label.is_of(thread),
        Some(Event::Fault(_)) => entry.label.is_of(thread),
        _ => false,
    }
}

/// Whether the thread deleted the child of this serial in the entry.
fn deletes(serial: u32, thread: ThreadId, entry: Entry) -> bool
    ensures { result ≡ does (is_delete_of serial) thread entry }
{
    match entry.event {
        Some(Event::Delete(given)) => entry.label.is_of(thread) && serial == given,
        _ => false,
    }
}

/// Whether the entry stops the thread.
fn stops(thread: ThreadId, entry: Entry) -> bool
    ensures { result ≡ stops thread entry }
{
    let main = ThreadId {
        process: thread.process,
        serial: 0,
    };
    ends(thread, entry)
        || ends(main, entry)
        || (thread.serial != 0 && deletes(thread.serial, main, entry))
}

/// What the thread did with one more entry of its window. One that was stopped in a window before isn't stopped again.
fn did_with(gone: bool, thread: ThreadId, entry: Entry, ticks: u32, did: Did) -> Did
    ensures { result ≡ did_with gone thread entry ticks did }
{
    let paid = entry.label.is_paid_by(thread);
    let waits = waits(thread, entry);
    let stops = !gone && stops(thread, entry);
    Did {
        used: raised_if(paid, did.used),
        done: if paid { raised(ticks) } else { did.done },
        waited: waits || did.waited,
        stopped: stops || did.stopped,
    }
}

/// Whether the thread had ticks of its budget in the window, and neither waited nor was stopped.
fn is_overrun(did: Did) -> bool
    ensures { result ≡ is_overrun did }
{
    did.used > 0 && !(did.waited || did.stopped)
}

fn lesser(windows: u32, one: u32, other: u32) -> u32
    ensures { result ≡ lesser windows one other }
{
    if windows == 0 { other } else { one.min(other) }
}

/// The first window that it overran, with one more.
fn first_with(counts: WindowCounts, did: Did) -> u32
    ensures { result ≡ first_with counts did }
{
    if counts.first_overran == 0 && is_overrun(did) {
        raised(counts.windows)
    } else {
        counts.first_overran
    }
}

/// The counts with one more window, where the thread may have been stopped before.
fn counts_with(gone: bool, counts: WindowCounts, did: Did) -> WindowCounts
    ensures { result ≡ counts_with gone counts did }
{
    let windows = counts.windows;
    let least_used = lesser(windows, counts.least_used, did.used);
    let first_done = lesser(windows, counts.first_done, did.done);
    let first_overran = first_with(counts, did);
    let most_used = counts.most_used.max(did.used);
    let last_done = counts.last_done.max(did.done);
    WindowCounts {
        windows: if gone { windows } else { raised(windows) },
        waited: raised_if(did.waited, counts.waited),
        stopped: raised_if(did.stopped, counts.stopped),
        overran: raised_if(is_overrun(did), counts.overran),
        first_overran: if gone {
            counts.first_overran
        } else {
            first_overran
        },
        least_used: if gone { counts.least_used } else { least_used },
        most_used: if gone { counts.most_used } else { most_used },
        first_done: if gone { counts.first_done } else { first_done },
        last_done: if gone { counts.last_done } else { last_done },
    }
}

/// The row whose present window ended with this.
pub fn ended(row: Row, did: Did) -> Row
    ensures { result ≡ ended row did }
{
    Row {
        did: Did {
            used: 0,
            done: 0,
            waited: false,
            stopped: false,
        },
        counts: counts_with(row.gone, row.counts, did),
        gone: row.gone || did.stopped,
        ..row
    }
}

/// The row with one more entry of its windows, behind so many of the present one.
fn filled(ticks: u32, row: Row, did: Did) -> Row
    ensures { result ≡ filled ticks row did }
{
    if ticks as u64 + 1 == row.period as u64 {
        ended(row, did)
    } else {
        Row { did, ..row }
    }
}

/// How many of so many ticks are behind the last whole period, and all where there is no period.
pub fn ticks_in(period: u32, ticks: u32) -> u32
    ensures { result ≡ ticks % period }
{
    if period == 0 { ticks } else { ticks % period }
}

/// The row with the entry of this tick.
pub fn stepped(now: u32, entry: Entry, row: Row) -> Row
    ensures { result ≡ stepped now entry row }
{
    if now < row.since {
        return row;
    }
    let ticks = ticks_in(row.period, now - row.since);
    filled(
        ticks,
        row,
        did_with(row.gone, row.thread, entry, ticks, row.did),
    )
}
