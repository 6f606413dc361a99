//! The row of a thread, and what a start, a stop or an end makes of it.
ghost use Rattle.std.specs.Prelude.{◌≡◌, ◌<◌, length};
ghost use Rattle.dk_trace.specs.Entries.{is_same};
ghost use Rattle.dk_threads.specs.Rows.{ends_at, is_starting, is_stopped, kept, started, starts_at, stopped, stopped_child, stopped_with_main};

use dk_trace::ThreadId;
use dk_windows::Windows;

/// What a thread that has a row does.
#[derive(Clone, Copy, PartialEq, Eq)]
pub enum State {
    /// It waits for its start.
    Starting,
    Live,
    /// It was stopped, and its share is its own until its end.
    Stopped,
}

/// A thread that hasn't ended.
#[derive(Clone, Copy, PartialEq, Eq)]
pub struct ThreadRow {
    pub id: ThreadId,
    /// The thread's own level.
    pub level: u8,
    /// Its place among the threads of its process, which it keeps: 0 for the main, 1 to 8 for a child.
    pub slot: u8,
    pub state: State,
    /// The tick from which on it has a share.
    pub start: u32,
    /// The tick at which a stopped child ends. A main has none.
    pub end: Option<u32>,
}

/// Whether the row is the thread's. Its numbers are read where they lie: a copy takes more instructions.
#[inline(always)]
pub fn is_same(id: ThreadId, name: &ThreadId) -> bool
    ensures { result ≡ is_same id name.now }
{
    id.process == name.process && id.serial == name.serial
}

/// Whether the thread waits for its start.
pub fn is_starting(state: State) -> bool
    ensures { result ≡ is_starting state }
{
    matches!(state, State::Starting)
}

/// Whether the thread was stopped.
pub fn is_stopped(state: State) -> bool
    ensures { result ≡ is_stopped state }
{
    matches!(state, State::Stopped)
}

/// Whether the tick is the child's start.
pub fn starts_at(row: &ThreadRow, now: u32) -> bool
    ensures { result ≡ starts_at now row.now }
{
    is_starting(row.state) && row.start == now
}

/// Whether the tick is the row's end.
pub fn ends_at(row: &ThreadRow, now: u32) -> bool
    ensures { result ≡ ends_at now row.now }
{
    match row.end {
        Some(end) => end == now,
        None => false,
    }
}

/// The row at the tick: a child whose start it is becomes live.
pub fn started(row: ThreadRow, now: u32) -> ThreadRow
    ensures { result ≡ started now row }
{
    let mut next = row;
    if starts_at(&row, now) {
        next.state = State::Live;
    }
    next
}

/// The row once the child is stopped at the present tick. None where the child would start later: it
/// never had a share, so that it has nothing to keep until an end.
pub fn stopped(row: ThreadRow, windows: &Windows) -> Option<ThreadRow>
    requires { row.level < length windows.now.periods }
    ensures { result ≡ stopped windows.now row }
{
    if windows.now() < row.start {
        return None;
    }
    let mut next = row;
    next.state = State::Stopped;
    next.end = Some(windows.end(row.level));
    Some(next)
}

/// The row once the child of that name is stopped.
pub fn stopped_child(row: ThreadRow, id: ThreadId, windows: &Windows) -> Option<ThreadRow>
    requires { row.level < length windows.now.periods }
    ensures { result ≡ stopped_child id windows.now row }
{
    if is_same(id, &row.id) {
        stopped(row, windows)
    } else {
        Some(row)
    }
}

/// The row once all children are stopped. One that was stopped before keeps its end.
pub fn stopped_with_main(row: ThreadRow, windows: &Windows) -> Option<ThreadRow>
    requires { row.level < length windows.now.periods }
    ensures { result ≡ stopped_with_main windows.now row }
{
    if is_stopped(row.state) {
        Some(row)
    } else {
        stopped(row, windows)
    }
}

/// The row unless its end is the tick.
pub fn kept(row: ThreadRow, now: u32) -> Option<ThreadRow>
    ensures { result ≡ kept now row }
{
    match row.end {
        Some(end) if end == now => None,
        _ => Some(row),
    }
}
