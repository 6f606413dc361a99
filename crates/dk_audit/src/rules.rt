//! What the rules ask of an entry before its event is booked.
ghost use Rattle.std.specs.Prelude.{◌≡◌, ◌↔◌, IsTrue, List, Option};
ghost use Rattle.dk_trace.specs.declared.Event.{Event as TickEvent};
ghost use Rattle.dk_trace.specs.Holds.{Hold, ends_hold, held_by};
ghost use Rattle.dk_trace.specs.Audit.{HasChosenLabel, MayHave, work_of};
ghost use Rattle.dk_mutex.specs.Recount.{last_locked};
ghost use Rattle.dk_past.specs.Past.{Ready};
ghost use Rattle.dk_audit.specs.Booking.{KeepsHold, Obeys};

use dk_dispatch::Dispatcher;
use dk_isa::FaultKind;
use dk_trace::{Choice, Entry, Event, Label, ThreadId, Work};

/// Whether the label is one that the choice gives.
pub fn is_chosen(choice: Choice, label: Label) -> bool
    ensures { IsTrue result ↔ HasChosenLabel choice label }
{
    label == choice.label(Work::Run) || label == choice.label(Work::Call)
}

/// What the thread does in the tick; In where it executes nothing.
fn work_of(label: Label) -> Work
    ensures { result ≡ work_of label }
{
    match label {
        Label::Run(_) => Work::Run,
        Label::Call(_) => Work::Call,
        Label::Slack { work, .. } => work,
        _ => Work::In,
    }
}

/// Whether a tick of this work may have the event: a run only a fault, and a call any but a fault that isn't of a hold.
fn may_have(work: Work, event: Option<Event>) -> bool
    ensures { IsTrue result ↔ MayHave work event }
{
    match (work, event) {
        (_, None) => true,
        (Work::Run, Some(Event::Fault(_))) => true,
        (Work::Call, Some(Event::Fault(kind))) => kind == FaultKind::Hold,
        (Work::Call, Some(_)) => true,
        _ => false,
    }
}

/// Whether the event may end the last tick of the innermost hold.
fn ends_hold(event: Option<Event>, innermost: Option<u8>) -> bool
    ensures { (held : List Hold) → innermost ≡ last_locked held → result ≡ ends_hold event held }
{
    match event {
        Some(Event::Unlock(mutex)) => innermost.is_some_and(|held| held == mutex),
        Some(Event::Exit) | Some(Event::Fault(_)) => true,
        _ => false,
    }
}

/// Whether the event is the fault of a hold.
fn is_hold_fault(event: Option<Event>) -> bool
    ensures { IsTrue result ↔ (event ≡ Some (TickEvent.Fault FaultKind.Hold)) }
{
    match event {
        Some(Event::Fault(kind)) => kind == FaultKind::Hold,
        _ => false,
    }
}

/// Whether a hold faults in its last tick alone, and its last tick ends it.
fn keeps_hold(tables: &Dispatcher, id: ThreadId, event: Option<Event>) -> bool
    requires { tables.now.past.tick ≡ Ready }
    ensures { IsTrue result ↔ KeepsHold tables.now.past.config (held_by id tables.now.past.entries) event }
{
    if tables.hold_left(id) == 1 {
        ends_hold(event, tables.held_by(id))
    } else {
        !is_hold_fault(event)
    }
}

/// Whether the entry's event is one of its work, and its thread keeps its holds.
pub fn obeys(tables: &Dispatcher, entry: Entry) -> bool
    requires { tables.now.past.tick ≡ Ready }
    ensures { IsTrue result ↔ Obeys tables.now.past.config tables.now.past.entries entry }
{
    if !may_have(work_of(entry.label), entry.event) {
        return false;
    }
    match entry.label.thread() {
        Some(id) => keeps_hold(tables, id, entry.event),
        None => true,
    }
}
