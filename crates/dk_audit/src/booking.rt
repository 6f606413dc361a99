//! The events of a tick, as the tables book them.
ghost use Rattle.std.specs.Prelude.{◌≡◌, ◌↔◌, IsTrue, Some};
ghost use Rattle.dk_trace.specs.declared.Event.{Event as TickEvent};
ghost use Rattle.dk_trace.specs.Audit.{MayHave, work_of};
ghost use Rattle.dk_trace.specs.Entries.{thread_of};
ghost use Rattle.dk_audit.specs.Booking.{IsBookedIf, IsEventOpen, IsOpen};

use dk_bound::choice_law;
use dk_dispatch::Dispatcher;
use dk_steps::Steps;
use dk_threads::ThreadRow;
use dk_trace::{Entry, Event, ThreadId};
use std::sync::ledger::Ledger;

/// Books the event of the tick's entry, and tells whether the entry follows the rules.
pub fn book<L: Ledger>(tables: &mut Dispatcher, entry: Entry, steps: &mut Steps<L>) -> bool
    requires { IsOpen entry tables.old.past }
    ensures { IsBookedIf result entry tables.old.past tables.new.past }
{
    let event = match entry.event {
        Some(event) => event,
        None => return true,
    };
    let id = owner_of(entry, event);
    book_event(tables, id, entry, event, steps)
}

/// The thread of an entry that has this event: only a thread's tick has one.
fn owner_of(entry: Entry, event: Event) -> ThreadId
    requires ends { entry.event ≡ Some event }
    requires may { MayHave (work_of entry.label) entry.event }
    ensures { thread_of entry.label ≡ Some result }
{
    let _event = event;
    match entry.label.thread() {
        Some(id) => id,
        None => unreachable!(),
    }
}

/// Books the event of the thread that has the tick, and tells whether its call would have been done so.
fn book_event<L: Ledger>(
    tables: &mut Dispatcher,
    id: ThreadId,
    entry: Entry,
    event: Event,
    steps: &mut Steps<L>,
) -> bool
    requires { IsEventOpen id event entry tables.old.past }
    ensures { IsBookedIf result entry tables.old.past tables.new.past }
{
    choice_law();
    match event {
        Event::Exit => {
            tables.stop(id, &entry, steps);
            true
        }
        Event::Fault(_) => {
            tables.stop(id, &entry, steps);
            true
        }
        // The tables aren't told of these two.
        Event::Put(_) => true,
        Event::Refused(_) => true,
        Event::Wait => tables.wait(id, steps).is_ok(),
        Event::Delete(serial) => tables.delete(id, serial, steps).is_ok(),
        Event::Lock(mutex) => tables.lock(id, mutex as u32, steps).is_ok(),
        Event::Unlock(mutex) => tables.unlock(id, mutex as u32, steps).is_ok(),
        Event::Slack(amount) => tables.ask(id, amount, steps).is_ok(),
        Event::Create {
            serial,
            level,
            quota,
        } => create(tables, id, entry, serial, level, quota, steps),
    }
}

/// Books a create, whose entry isn't looked at: it is the first instruction of one.
fn create<L: Ledger>(
    tables: &mut Dispatcher,
    id: ThreadId,
    entry: Entry,
    serial: u32,
    level: u8,
    quota: u32,
    steps: &mut Steps<L>,
) -> bool
    requires { IsEventOpen id (TickEvent.Create serial level quota) entry tables.old.past }
    ensures { IsBookedIf result entry tables.old.past tables.new.past }
{
    choice_law();
    let _entry = entry;
    match tables.create(id, level as u32, quota, 0, 1, steps) {
        Ok(row) => has_serial(row, serial),
        Err(_) => false,
    }
}

fn has_serial(row: ThreadRow, serial: u32) -> bool
    ensures { IsTrue result ↔ (row.id.serial ≡ serial) }
{
    row.id.serial == serial
}
