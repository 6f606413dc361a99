//! For each process whether one of its threads may hold a mutex.
ghost use Rattle.std.specs.Prelude.{◌≡◌};
ghost use Rattle.dk_mutex.specs.Marks.{IsMarked, may_hold};

use dk_config::MAX_PROCESSES;
use dk_trace::ThreadId;

/// Whether the thread's process is marked, as one past the end is.
#[inline(always)]
pub fn may_hold(marks: &[bool; MAX_PROCESSES], id: ThreadId) -> bool
    ensures { result ≡ may_hold marks.now id }
{
    match marks.get(id.process as usize) {
        Some(marked) => *marked,
        None => true,
    }
}

/// Marks the process, or takes its mark away.
pub fn mark(marks: &mut [bool; MAX_PROCESSES], process: u8, marked: bool)
    ensures { IsMarked process marked marks.old marks.new }
{
    let row = process as usize;
    if row < MAX_PROCESSES {
        marks[row] = marked;
    }
}
