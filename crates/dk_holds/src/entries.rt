//! What an entry does to the hold of a mutex.
ghost use Rattle.std.specs.Prelude.{◌≡◌, ◌+◌, ◌<◌, ◌^◌, false, Option};
ghost use Rattle.dk_trace.specs.Entries.{does, has_event, is_delete_of, is_end, is_of, stops};
ghost use Rattle.dk_holds.specs.Holds.{begun, behind, ended, ends, going_on, is_lock_of, is_unlock_of};

use crate::Holding;
use dk_trace::{Entry, Event, Label, ThreadId};

/// Whether the entry is one of the thread.
fn is_of(thread: ThreadId, entry: &Entry) -> bool
    ensures { result ≡ is_of thread entry.now }
{
    match entry.label.thread() {
        Some(other) => thread.is_same(other),
        None => false,
    }
}

/// Whether the entry locks the mutex.
fn locks(mutex: u8, entry: &Entry) -> bool
    ensures { result ≡ has_event (is_lock_of mutex) entry.now }
{
    match entry.event {
        Some(Event::Lock(given)) => given == mutex,
        _ => false,
    }
}

fn unlocks(mutex: u8, entry: &Entry) -> bool
    ensures { result ≡ has_event (is_unlock_of mutex) entry.now }
{
    match entry.event {
        Some(Event::Unlock(given)) => given == mutex,
        _ => false,
    }
}

/// Whether the entry is its thread's exit or fault.
fn is_last(entry: &Entry) -> bool
    ensures { result ≡ has_event is_end entry.now }
{
    match entry.event {
        Some(Event::Exit) | Some(Event::Fault(_)) => true,
        _ => false,
    }
}

/// Whether the entry deletes the child of this serial.
fn deletes(serial: u32, entry: &Entry) -> bool
    ensures { result ≡ has_event (is_delete_of serial) entry.now }
{
    match entry.event {
        Some(Event::Delete(given)) => serial == given,
        _ => false,
    }
}

/// Whether the entry stops the thread.
fn stops(thread: ThreadId, entry: &Entry) -> bool
    ensures { result ≡ stops thread entry.now }
{
    let main = ThreadId {
        process: thread.process,
        serial: 0,
    };
    (is_of(thread, entry) && is_last(entry))
        || (is_of(main, entry) && is_last(entry))
        || (thread.serial != 0 && is_of(main, entry) && deletes(thread.serial, entry))
}

/// Whether the entry ends a hold of the mutex by the thread.
fn ends(mutex: u8, thread: ThreadId, entry: &Entry) -> bool
    ensures { result ≡ ends mutex thread entry.now }
{
    (is_of(thread, entry) && unlocks(mutex, entry)) || stops(thread, entry) || locks(mutex, entry)
}

/// The hold of the mutex that the entry of this tick begins.
fn begun(mutex: u8, tick: u32, entry: &Entry) -> Option<Holding>
    requires { tick + 1 < 2 ^ 32 }
    ensures { result ≡ begun mutex tick entry.now }
{
    if !locks(mutex, entry) {
        return None;
    }
    match entry.label.thread() {
        Some(thread) => Some(Holding {
            thread,
            since: tick + 1,
        }),
        None => None,
    }
}

/// Of a hold of the mutex, what goes on behind the entry.
fn going_on(mutex: u8, entry: &Entry, held: Option<Holding>) -> Option<Holding>
    ensures { result ≡ going_on mutex entry.now held }
{
    match held {
        Some(holding) => {
            if ends(mutex, holding.thread, entry) {
                None
            } else {
                Some(holding)
            }
        },
        None => None,
    }
}

/// Of a hold of the mutex, what the entry ends.
pub(crate) fn ended(mutex: u8, entry: &Entry, held: Option<Holding>) -> Option<Holding>
    ensures { result ≡ ended mutex entry.now held }
{
    match held {
        Some(holding) => {
            if ends(mutex, holding.thread, entry) {
                Some(holding)
            } else {
                None
            }
        },
        None => None,
    }
}

/// The hold of the mutex behind the entry of this tick.
pub(crate) fn behind(mutex: u8, tick: u32, entry: &Entry, held: Option<Holding>) -> Option<Holding>
    requires { tick + 1 < 2 ^ 32 }
    ensures { result ≡ behind mutex tick entry.now held }
{
    match begun(mutex, tick, entry) {
        Some(holding) => Some(holding),
        None => going_on(mutex, entry, held),
    }
}
