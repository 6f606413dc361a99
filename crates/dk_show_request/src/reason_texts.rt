//! The text of a reason, where it has one of its own.
ghost use Rattle.std.specs.Prelude.{◌≡◌, ◌++◌, IfOk, string_bytes};
ghost use Rattle.std.specs.List.{list_any};
ghost use Rattle.dk_show_request.specs.Reasons.{Reason, is_control, reason_text, shown, unfit_reason};

use crate::numbers::MAX_RESERVE;
use dk_config::{MAX_PROCESSES, MAX_RUN_TICKS};
use std::alloc::{AllocError, Global};

fn is_control(byte: u8) -> bool
    ensures { result ≡ is_control byte }
{
    byte < 32 || byte == 127
}

fn has_control(bytes: &[u8]) -> bool
    ensures { result ≡ list_any is_control bytes.now }
{
    bytes.iter().any(|b| is_control(*b))
}

/// The word, where it can be seen and doesn't break the line.
pub fn shown(word: &str) -> &str
    ensures { result.now ≡ shown word.now }
{
    if word.is_empty() {
        "an empty word"
    } else if has_control(word.as_bytes()) {
        "a word with a control character"
    } else {
        word
    }
}

/// A word, and what is said of it.
pub fn said_of(alloc: Global, word: &str, text: &str) -> Result<String, AllocError>
    ensures { IfOk result (λ s. string_bytes s ≡ word.now ++ text.now) }
{
    format!(in alloc; "{word}{text}")
}

pub fn unfit_text(alloc: Global, word: &str) -> Result<String, AllocError>
    ensures { IfOk result (λ s. string_bytes s ≡ reason_text (unfit_reason word.now)) }
{
    if word.is_empty() {
        String::from_str(alloc, "a word is empty\n")
    } else {
        said_of(alloc, shown(word), " is no flag of it\n")
    }
}

pub fn no_ticks_text(alloc: Global, word: &str) -> Result<String, AllocError>
    ensures { IfOk result (λ s. string_bytes s ≡ reason_text (Reason.no_ticks word.now)) }
{
    let word = shown(word);
    let most = MAX_RUN_TICKS;
    format!(in alloc; "{word} is no number of ticks from 0 to {most}\n")
}

pub fn disorder_text(alloc: Global, from: &str, to: &str) -> Result<String, AllocError>
    ensures { IfOk result (λ s. string_bytes s ≡ reason_text (Reason.disorder from.now to.now)) }
{
    let from = shown(from);
    let to = shown(to);
    format!(in alloc; "FROM {from} isn't below TO {to}\n")
}

pub fn many_names_text(alloc: Global) -> Result<String, AllocError>
    ensures { IfOk result (λ s. string_bytes s ≡ reason_text Reason.many_names) }
{
    let most = MAX_PROCESSES;
    format!(in alloc; "more than {most} names\n")
}

pub fn no_allotment_text(alloc: Global, word: &str) -> Result<String, AllocError>
    ensures { IfOk result (λ s. string_bytes s ≡ reason_text (Reason.no_allotment word.now)) }
{
    let word = shown(word);
    let most = MAX_RUN_TICKS;
    format!(in alloc; "{word} is no NAME=TICKS, with TICKS from 0 to {most}\n")
}

pub fn no_percent_text(alloc: Global, word: &str) -> Result<String, AllocError>
    ensures { IfOk result (λ s. string_bytes s ≡ reason_text (Reason.no_percent word.now)) }
{
    let word = shown(word);
    let most = MAX_RESERVE;
    format!(in alloc; "{word} is no number of percent from 0 to {most}\n")
}

pub fn bare_text(alloc: Global, word: &str) -> Result<String, AllocError>
    ensures { IfOk result (λ s. string_bytes s ≡ reason_text (Reason.bare word.now)) }
{
    let word = shown(word);
    format!(in alloc; "a word is wanted behind {word}\n")
}
