//! What a label and an event say.
ghost use Rattle.std.specs.Prelude.{◌≡◌, ◌≤◌, length, false};
ghost use Rattle.std.specs.Option.{option_map_or};
ghost use Rattle.dk_trace.specs.Entries.{is_same, payer, thread_of};
ghost use Rattle.dk_trace.specs.Says.{arguments_of, word_of};

use crate::{Event, Label, ThreadId};
use dk_isa::FaultKind;

/// What stands behind the word of an event.
#[derive(Clone, Copy)]
pub enum Arguments {
    Nothing,
    Kind(FaultKind),
    One(u32),
    Three(u32, u32, u32),
}

impl Label {
    /// The thread that has a tick of the label.
    pub fn thread(self) -> Option<ThreadId>
        ensures { result ≡ thread_of self }
    {
        match self {
            Label::In(thread)
            | Label::Run(thread)
            | Label::Call(thread)
            | Label::Out(thread)
            | Label::Slack { thread, .. } => Some(thread),
            Label::Kernel(_) | Label::Idle => None,
        }
    }

    /// Whether this thread has a tick of the label, on its budget or on slack.
    pub fn is_of(self, thread: ThreadId) -> bool
        ensures { result ≡ option_map_or (is_same thread) (thread_of self) false }
    {
        match self.thread() {
            Some(other) => thread.is_same(other),
            None => false,
        }
    }

    /// Whether this thread's budget pays for a tick of the label.
    pub fn is_paid_by(self, thread: ThreadId) -> bool
        ensures { result ≡ option_map_or (is_same thread) (payer self) false }
    {
        match self {
            Label::In(payer) | Label::Run(payer) | Label::Call(payer) | Label::Out(payer) => {
                thread.is_same(payer)
            }
            Label::Slack { .. } | Label::Kernel(_) | Label::Idle => false,
        }
    }
}

impl Event {
    /// The word of the event, of at most 7 bytes.
    pub fn word(self) -> &'static str
        ensures word { result.now ≡ word_of self }
        ensures short { length result.now ≤ 7 }
    {
        match self {
            Event::Wait => "wait",
            Event::Exit => "exit",
            Event::Fault(_) => "fault",
            Event::Create { .. } => "create",
            Event::Delete(_) => "delete",
            Event::Lock(_) => "lock",
            Event::Unlock(_) => "unlock",
            Event::Slack(_) => "slack",
            Event::Put(_) => "put",
            Event::Refused(_) => "refused",
        }
    }

    /// What stands behind the event's word.
    pub fn arguments(self) -> Arguments
        ensures { result ≡ arguments_of self }
    {
        match self {
            Event::Wait | Event::Exit => Arguments::Nothing,
            Event::Fault(kind) => Arguments::Kind(kind),
            Event::Create {
                serial,
                level,
                quota,
            } => Arguments::Three(serial, level as u32, quota),
            Event::Delete(number) | Event::Slack(number) | Event::Put(number) => {
                Arguments::One(number)
            }
            Event::Lock(mutex) | Event::Unlock(mutex) => Arguments::One(mutex as u32),
            Event::Refused(refusal) => Arguments::One(refusal.number() as u32),
        }
    }
}
