//! The words of labels and events in a line.
ghost use Rattle.std.specs.Prelude.{◌≡◌, ◌+◌, ◌<◌, ◌≤◌, ◌++◌, length};
ghost use Rattle.dk_ledger.specs.Heading.{IsPrintable};
ghost use Rattle.dk_ledger.specs.LineText.{IsNamed, event_text, line_body, thread_text};
ghost use Rattle.dk_trace_events.specs.Words.{category, word_text};

use crate::line::Line;
use dk_entry_words::{Separator, event_words, line_words, thread_words, work_words};
use dk_ledger::{Header, LedgerLine};
use dk_trace::{Event, Label, ThreadId};

pub(crate) fn push_thread(text: &mut Line, header: &Header, thread: ThreadId)
    requires printable { IsPrintable header.now }
    requires named { thread.process < length header.now.processes }
    requires room { length text.old + 27 ≤ 600 }
    ensures bytes { text.new ≡ text.old ++ thread_text header.now thread }
    ensures len { length text.new ≤ length text.old + 27 }
{
    text.word(thread_words(header, thread).as_str());
}

/// What a tick of the label was for.
pub(crate) fn push_work(text: &mut Line, label: Label)
    requires { length text.old + 31 ≤ 600 }
    ensures bytes { text.new ≡ text.old ++ word_text label }
    ensures len { length text.new ≤ length text.old + 31 }
{
    text.word(work_words(label, Separator::Blank).as_str());
}

/// The event as a ledger has it.
pub(crate) fn push_event(text: &mut Line, event: Event)
    requires { length text.old + 40 ≤ 600 }
    ensures bytes { text.new ≡ text.old ++ event_text event }
    ensures len { length text.new ≤ length text.old + 40 }
{
    text.word(event_words(event, Separator::Blank).as_str());
}

/// The line that the group would be in a ledger.
pub(crate) fn push_line(text: &mut Line, header: &Header, group: LedgerLine)
    requires printable { IsPrintable header.now }
    requires named { IsNamed header.now group.label }
    requires room { length text.old + 122 ≤ 600 }
    ensures bytes { text.new ≡ text.old ++ line_body header.now group }
    ensures len { length text.new ≤ length text.old + 122 }
{
    text.word(line_words(header, group, Separator::Blank).as_str());
}

/// Who paid for a tick of the label.
pub(crate) fn category(label: Label) -> &'static str
    ensures text { result.now ≡ category label }
    ensures short { length result.now ≤ 6 }
{
    match label {
        Label::Kernel(_) => "kernel",
        Label::In(_) | Label::Run(_) | Label::Call(_) | Label::Out(_) => "budget",
        Label::Slack { .. } => "slack",
        Label::Idle => "idle",
    }
}
