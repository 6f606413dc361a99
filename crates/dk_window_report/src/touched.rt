//! Which rows an entry changes.
ghost use Rattle.std.specs.Prelude.{◌≡◌};
ghost use Rattle.dk_window_report.specs.Touched.{touched_by_end, touched_by_delete, touched_in, touched_by};

use dk_trace::{Entry, Event, ThreadId};

/// Whose rows an entry may change otherwise than one of nobody.
#[derive(Clone, Copy)]
pub enum Touched {
    Nobody,
    One(ThreadId),
    Two(ThreadId, ThreadId),
    All,
}

/// The end of a main stops its children.
fn touched_by_end(thread: ThreadId) -> Touched
    ensures { result ≡ touched_by_end thread }
{
    if thread.serial == 0 {
        Touched::All
    } else {
        Touched::One(thread)
    }
}

/// A delete of a main stops a child.
fn touched_by_delete(thread: ThreadId, serial: u32) -> Touched
    ensures { result ≡ touched_by_delete thread serial }
{
    if thread.serial == 0 && serial != 0 {
        let child = ThreadId {
            process: thread.process,
            serial,
        };
        Touched::Two(thread, child)
    } else {
        Touched::One(thread)
    }
}

/// By what the thread did.
fn touched_in(thread: ThreadId, event: Option<Event>) -> Touched
    ensures { result ≡ touched_in thread event }
{
    match event {
        Some(Event::Exit) => touched_by_end(thread),
        Some(Event::Fault(_)) => touched_by_end(thread),
        Some(Event::Delete(serial)) => touched_by_delete(thread, serial),
        _ => Touched::One(thread),
    }
}

/// By the entry, where rows can be found by their threads; else all may be touched.
pub fn touched_by(known: bool, entry: Entry) -> Touched
    ensures { result ≡ touched_by known entry }
{
    match entry.label.thread() {
        None => Touched::Nobody,
        Some(thread) => {
            if known {
                touched_in(thread, entry.event)
            } else {
                Touched::All
            }
        },
    }
}
