ghost use Rattle.std.specs.Bool.{Decides};
ghost use Rattle.dk_trace.specs.Audit.{work_of};
ghost use Rattle.dk_trace.specs.Ranges.{HasLabel, HasEvent, HasOwnEvent, IsExecuting};
ghost use Rattle.dk_ledger.specs.LineText.{IsNamed};
ghost use Rattle.dk_ledger.specs.Readable.{size_in};

use crate::Header;
use dk_config::MAX_MUTEXES;
use dk_trace::{Event, Label, Source, Work};

/// Whether the header has the levels of the label.
pub(crate) fn has_label(header: &Header, label: Label) -> bool
    requires { IsNamed header.now label }
    ensures { Decides result (HasLabel (size_in header.now) label) }
{
    match label {
        Label::Kernel(level)
        | Label::Slack {
            source: Source::Reclaimed(level),
            ..
        } => (level as usize) < header.levels.len(),
        _ => true,
    }
}

fn is_body(label: Label) -> bool
    ensures { Decides result (IsExecuting (work_of label)) }
{
    match label {
        Label::Run(_) | Label::Call(_) => true,
        Label::Slack { work, .. } => work != Work::In,
        _ => false,
    }
}

fn has_event(header: &Header, event: Event) -> bool
    ensures { Decides result (HasEvent (size_in header.now) event) }
{
    match event {
        Event::Create { level, .. } => (level as usize) < header.levels.len(),
        Event::Lock(mutex) | Event::Unlock(mutex) => mutex < MAX_MUTEXES as u8,
        _ => true,
    }
}

/// Whether the label may come with the event.
pub(crate) fn may_have(header: &Header, label: Label, event: Option<Event>) -> bool
    ensures { Decides result (HasOwnEvent (size_in header.now) label event) }
{
    match event {
        None => true,
        Some(event) => is_body(label) && has_event(header, event),
    }
}
