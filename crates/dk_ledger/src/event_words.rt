ghost use Rattle.std.specs.Prelude.{◌≡◌, ◌≤◌, ◌∷◌, [], length, codes, Option, Some};
ghost use Rattle.dk_isa.specs.declared.FaultKind.{FaultKind};
ghost use Rattle.dk_trace.specs.declared.Label.{Label};
ghost use Rattle.dk_trace.specs.declared.Event.{Event};
ghost use Rattle.dk_trace.specs.declared.Refusal.{Refusal};
ghost use Rattle.dk_trace.specs.Refusals.{number as number_of_refusal};
ghost use Rattle.dk_trace.specs.Ranges.{Size, HasEvent, HasOwnEvent};
ghost use Rattle.dk_ledger.specs.Heading.{Heading};
ghost use Rattle.dk_ledger.specs.LineText.{fault_text};
ghost use Rattle.dk_ledger.specs.Readable.{size_in};
ghost use Rattle.dk_ledger.specs.Words.{texts, event_words};

use crate::words::{number, small_number};
use dk_config::MAX_LEVELS;
use dk_isa::FaultKind;
use dk_trace::{Event, Refusal};

// How many words there are tells most events apart. Words that are no event's are read as some event or other, since
// whoever reads compares the text.

fn fault_of(word: &str) -> FaultKind
    ensures { (kind : FaultKind) → word.now ≡ fault_text kind → result ≡ kind }
{
    match word {
        "fetch" => FaultKind::Fetch,
        "decode" => FaultKind::Decode,
        "memory" => FaultKind::Memory,
        "divide" => FaultKind::Divide,
        "call" => FaultKind::Call,
        _ => FaultKind::Hold,
    }
}

pub(crate) fn refusal_of(number: u32) -> Refusal
    ensures { (refusal : Refusal) → number ≡ number_of_refusal refusal → result ≡ refusal }
{
    match number {
        1 => Refusal::NotMain,
        2 => Refusal::Level,
        3 => Refusal::Entry,
        4 => Refusal::Slots,
        5 => Refusal::TooSmall,
        6 => Refusal::Budget,
        7 => Refusal::NoThread,
        8 => Refusal::NotUser,
        9 => Refusal::Holding,
        10 => Refusal::TooLittle,
        11 => Refusal::NotHeld,
        12 => Refusal::HoldsWait,
        13 => Refusal::NoRight,
        14 => Refusal::Amount,
        _ => Refusal::NotLast,
    }
}

/// The event that a word alone is.
fn lone_event(word: &str) -> Event
    ensures { (event : Event) → event_words (Some event) ≡ word.now ∷ [] → result ≡ event }
{
    match word {
        "wait" => Event::Wait,
        _ => Event::Exit,
    }
}

/// The event that a word is with the number behind it, which may have 32 bits.
fn counted_event(word: &str, n: u32) -> Event
    ensures delete { word.now ≡ codes "delete" → result ≡ Event.Delete n }
    ensures slack { word.now ≡ codes "slack" → result ≡ Event.Slack n }
    ensures put { word.now ≡ codes "put" → result ≡ Event.Put n }
    ensures refused { (refusal : Refusal) → word.now ≡ codes "refused" → n ≡ number_of_refusal refusal
        → result ≡ Event.Refused refusal }
{
    match word {
        "delete" => Event::Delete(n),
        "slack" => Event::Slack(n),
        "put" => Event::Put(n),
        _ => Event::Refused(refusal_of(n)),
    }
}

/// The event that a word is with the value behind it.
fn event_with(word: &str, value: &str) -> Event
    ensures { (size : Size) (event : Event) → HasEvent size event
        → event_words (Some event) ≡ word.now ∷ value.now ∷ [] → result ≡ event }
{
    match word {
        "fault" => Event::Fault(fault_of(value)),
        "lock" => Event::Lock(small_number(value)),
        "unlock" => Event::Unlock(small_number(value)),
        _ => counted_event(word, number(value)),
    }
}

/// The event that all of the words are; none where there are no words.
pub(crate) fn event_of(words: &[&str]) -> Option<Event>
    ensures { (label : Label) (heading : Heading) (event : Option Event) → HasOwnEvent (size_in heading) label event
        → length heading.levels ≤ MAX_LEVELS → texts words.now ≡ event_words event → result ≡ event }
{
    match *words {
        [word] => Some(lone_event(word)),
        [word, value] => Some(event_with(word, value)),
        [_, serial, level, quota] => Some(Event::Create {
            serial: number(serial),
            level: small_number(level),
            quota: number(quota),
        }),
        _ => None,
    }
}
