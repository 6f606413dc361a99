//! The event of a line of entries, read where it lies.
ghost use Rattle.std.specs.Prelude.{◌≡◌, ◌++◌, codes, IfSome};
ghost use Rattle.dk_ledger.specs.LineText.{fault_text, event_text};

use super::{after, number_in, small_in};
use crate::event_words::refusal_of;
use dk_isa::FaultKind;
use dk_trace::Event;

/// An event that names a mutex.
fn mutex_event_in(bytes: &[u8]) -> Option<(Event, &[u8])>
    ensures { IfSome result (λ found. bytes.now ≡ event_text found.0 ++ found.1.now) }
{
    if let Some(rest) = after(bytes, "lock ") {
        let (mutex, rest) = small_in(rest)?;
        return Some((Event::Lock(mutex), rest));
    }
    let (mutex, rest) = small_in(after(bytes, "unlock ")?)?;
    Some((Event::Unlock(mutex), rest))
}

/// A refused call, behind its first word.
fn refused_in(bytes: &[u8]) -> Option<(Event, &[u8])>
    ensures { IfSome result (λ found. codes "refused " ++ bytes.now ≡ event_text found.0 ++ found.1.now) }
{
    let (number, rest) = small_in(bytes)?;
    let refusal = refusal_of(number as u32);
    if refusal.number() != number {
        return None;
    }
    Some((Event::Refused(refusal), rest))
}

/// The creation of a thread, behind its first word.
fn create_in(bytes: &[u8]) -> Option<(Event, &[u8])>
    ensures { IfSome result (λ found. codes "create " ++ bytes.now ≡ event_text found.0 ++ found.1.now) }
{
    let (serial, rest) = number_in(bytes)?;
    let (level, rest) = small_in(after(rest, " ")?)?;
    let (quota, rest) = number_in(after(rest, " ")?)?;
    let event = Event::Create {
        serial,
        level,
        quota,
    };
    Some((event, rest))
}

fn fault_in(bytes: &[u8]) -> Option<(FaultKind, &[u8])>
    ensures { IfSome result (λ found. bytes.now ≡ fault_text found.0 ++ found.1.now) }
{
    if let Some(rest) = after(bytes, "fetch") {
        return Some((FaultKind::Fetch, rest));
    }
    if let Some(rest) = after(bytes, "decode") {
        return Some((FaultKind::Decode, rest));
    }
    if let Some(rest) = after(bytes, "memory") {
        return Some((FaultKind::Memory, rest));
    }
    if let Some(rest) = after(bytes, "divide") {
        return Some((FaultKind::Divide, rest));
    }
    if let Some(rest) = after(bytes, "call") {
        return Some((FaultKind::Call, rest));
    }
    Some((FaultKind::Hold, after(bytes, "hold")?))
}

/// An event by which a thread ends, its own or another.
fn end_in(bytes: &[u8]) -> Option<(Event, &[u8])>
    ensures { IfSome result (λ found. bytes.now ≡ event_text found.0 ++ found.1.now) }
{
    if let Some(rest) = after(bytes, "exit") {
        return Some((Event::Exit, rest));
    }
    if let Some(rest) = after(bytes, "fault ") {
        let (kind, rest) = fault_in(rest)?;
        return Some((Event::Fault(kind), rest));
    }
    let (serial, rest) = number_in(after(bytes, "delete ")?)?;
    Some((Event::Delete(serial), rest))
}

/// An event. Those that come most often are tried first.
pub(super) fn event_in(bytes: &[u8]) -> Option<(Event, &[u8])>
    ensures { IfSome result (λ found. bytes.now ≡ event_text found.0 ++ found.1.now) }
{
    if let Some(rest) = after(bytes, "put ") {
        let (value, rest) = number_in(rest)?;
        return Some((Event::Put(value), rest));
    }
    if let Some(rest) = after(bytes, "wait") {
        return Some((Event::Wait, rest));
    }
    if let Some(rest) = after(bytes, "slack ") {
        let (amount, rest) = number_in(rest)?;
        return Some((Event::Slack(amount), rest));
    }
    if let Some(rest) = after(bytes, "refused ") {
        return refused_in(rest);
    }
    if let Some(rest) = after(bytes, "create ") {
        return create_in(rest);
    }
    if let Some(found) = mutex_event_in(bytes) {
        return Some(found);
    }
    end_in(bytes)
}
