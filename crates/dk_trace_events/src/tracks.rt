ghost use Rattle.std.specs.Prelude.{◌≡◌, ◌+◌, ◌≤◌, ◌++◌, length};
ghost use Rattle.dk_trace_events.specs.Words.{thread_track, track_of};
ghost use Rattle.dk_trace_events.specs.Slices.{place_text};

use crate::line::Line;
use dk_trace::{Label, ThreadId};

/// A track, by the numbers of a process and of a thread for the viewer.
#[derive(Clone, Copy)]
pub(crate) struct Track {
    pub(crate) pid: u64,
    pub(crate) tid: u64,
}

pub(crate) fn thread_track(thread: ThreadId) -> Track
    ensures { result ≡ thread_track thread }
{
    let pid = 100 + thread.process as u64;
    Track {
        pid,
        tid: pid + 1000 * thread.serial as u64,
    }
}

/// The track of a tick with this label.
pub(crate) fn track_of(label: Label) -> Track
    ensures { result ≡ track_of label }
{
    match label {
        Label::Kernel(_) => Track { pid: 1, tid: 1 },
        Label::In(thread)
        | Label::Run(thread)
        | Label::Call(thread)
        | Label::Out(thread)
        | Label::Slack { thread, .. } => thread_track(thread),
        Label::Idle => Track { pid: 1, tid: 2 },
    }
}

/// The numbers of the track, as two members of an object.
pub(crate) fn push_place(text: &mut Line, track: Track)
    requires { length text.old + 54 ≤ 600 }
    ensures bytes { text.new ≡ text.old ++ place_text track }
    ensures len { length text.new ≤ length text.old + 54 }
{
    text.word(",\"pid\":");
    text.number(track.pid);
    text.word(",\"tid\":");
    text.number(track.tid);
}
