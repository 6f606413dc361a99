//! What is told of a run for ever, as text.
ghost use Rattle.std.specs.Prelude.{◌≡◌, ◌++◌, decimal, string_bytes, IfOk};
ghost use Rattle.dk_needs_text.specs.Csv.{IsPlain, repeating_number, repeating_reason, repeating_subject, waiting_number, waiting_reason};
ghost use Rattle.dk_needs_text.specs.Names.{AreNamed, name_at};
ghost use Rattle.dk_needs_text.specs.Text.{repeating_text, waiting_text};

use dk_config::Text;
use dk_needs_check::{Repeating, Waiting};
use std::alloc::{AllocError, Global};

/// Plain words with a number behind them.
fn with_number(alloc: Global, words: &str, number: u32) -> Result<String, AllocError>
    requires { IsPlain words.now }
    ensures text { IfOk result (λ s. string_bytes s ≡ words.now ++ decimal number) }
    ensures plain { IfOk result (λ s. IsPlain (string_bytes s)) }
{
    format!(in alloc; "{words}{number}")
}

pub(crate) fn plain_words(alloc: Global, words: &str) -> Result<String, AllocError>
    requires { IsPlain words.now }
    ensures text { IfOk result (λ s. string_bytes s ≡ words.now) }
    ensures plain { IfOk result (λ s. IsPlain (string_bytes s)) }
{
    String::from_str(alloc, words)
}

/// Whether a main waits in each of its windows.
pub(crate) fn waiting_text(alloc: Global, waiting: Waiting) -> Result<String, AllocError>
    ensures { IfOk result (λ s. string_bytes s ≡ waiting_text waiting) }
{
    match waiting {
        Waiting::Always => String::from_str(alloc, "waits in each window"),
        Waiting::NotFrom(tick) => format!(in alloc; "no wait in the window from {tick}"),
        Waiting::NotWithin(ticks) => format!(in alloc; "not within {ticks}"),
        Waiting::ReadsTick => String::from_str(alloc, "reads the tick"),
        Waiting::HasThreads => String::from_str(alloc, "has threads"),
        Waiting::HasSlack => String::from_str(alloc, "has slack"),
    }
}

/// The name at this place.
fn text_at(names: &[Text], place: u8) -> &str
    ensures { result.now ≡ name_at names.now place }
{
    match names.get(place as usize) {
        Some(name) => name.as_str(),
        None => "",
    }
}

/// The name of the process of this number.
fn name_at(names: &[Text], process: u8) -> &str
    ensures text { result.now ≡ name_at names.now process }
    ensures plain { AreNamed names.now → IsPlain result.now }
{
    text_at(names, process)
}

/// Whether the run repeats.
pub(crate) fn repeating_text(
    alloc: Global,
    names: &[Text],
    repeating: Repeating,
) -> Result<String, AllocError>
    ensures { IfOk result (λ s. string_bytes s ≡ repeating_text names.now repeating) }
{
    match repeating {
        Repeating::Every { start, length } => {
            format!(in alloc; "repeats from {start} every {length}")
        }
        Repeating::NotWithin(ticks) => format!(in alloc; "repeats not within {ticks}"),
        Repeating::ReadsTick(process) => {
            let name = name_at(names, process);
            format!(in alloc; "repeats unknown {name} reads the tick")
        }
    }
}

/// The tick at which the window without a wait begins.
pub(crate) fn waiting_number(waiting: Waiting) -> Option<u32>
    ensures { result ≡ waiting_number waiting }
{
    match waiting {
        Waiting::NotFrom(tick) => Some(tick),
        _ => None,
    }
}

/// The tick from which on the run repeats.
pub(crate) fn repeating_number(repeating: Repeating) -> Option<u32>
    ensures { result ≡ repeating_number repeating }
{
    match repeating {
        Repeating::Every { start, .. } => Some(start),
        _ => None,
    }
}

/// Why it isn't known whether a main waits in each of its windows.
pub(crate) fn waiting_reason(alloc: Global, waiting: Waiting) -> Result<String, AllocError>
    ensures text { IfOk result (λ s. string_bytes s ≡ waiting_reason waiting) }
    ensures plain { IfOk result (λ s. IsPlain (string_bytes s)) }
{
    match waiting {
        Waiting::Always | Waiting::NotFrom(_) => plain_words(alloc, ""),
        Waiting::NotWithin(ticks) => with_number(alloc, "not within ", ticks),
        Waiting::ReadsTick => plain_words(alloc, "reads the tick"),
        Waiting::HasThreads => plain_words(alloc, "has threads"),
        Waiting::HasSlack => plain_words(alloc, "has slack"),
    }
}

/// How long the cycle is, or why none is told.
pub(crate) fn repeating_reason(alloc: Global, repeating: Repeating) -> Result<String, AllocError>
    ensures text { IfOk result (λ s. string_bytes s ≡ repeating_reason repeating) }
    ensures plain { IfOk result (λ s. IsPlain (string_bytes s)) }
{
    match repeating {
        Repeating::Every { length, .. } => with_number(alloc, "every ", length),
        Repeating::NotWithin(ticks) => with_number(alloc, "not within ", ticks),
        Repeating::ReadsTick(_) => plain_words(alloc, "reads the tick"),
    }
}

/// The process whose thread read the tick last, where that is told.
pub(crate) fn repeating_subject(names: &[Text], repeating: Repeating) -> &str
    ensures text { result.now ≡ repeating_subject names.now repeating }
    ensures plain { AreNamed names.now → IsPlain result.now }
{
    match repeating {
        Repeating::ReadsTick(process) => name_at(names, process),
        _ => "",
    }
}
