//! A line of entries, read where it lies. Each call gives what is first in the bytes, and what comes behind it. None
//! refuses nothing: whoever asks reads the line by its words then.
ghost use Rattle.std.specs.Prelude.{◌≡◌, ◌+◌, ◌<◌, ◌++◌, ◌∷◌, decimal, IfSome};
ghost use Rattle.dk_ledger.specs.Heading.{IsPrintable};
ghost use Rattle.dk_ledger.specs.LineText.{IsNamed, event_part, ledger_line};

mod event;
mod label;

use crate::{Header, LedgerLine};
use dk_trace::Event;
use event::event_in;
use label::label_in;

/// What comes behind the word.
#[inline(always)]
fn after<'a>(bytes: &'a [u8], word: &str) -> Option<&'a [u8]>
    ensures { IfSome result (λ rest. bytes.now ≡ word.now ++ rest.now) }
{
    bytes.strip_prefix(word.as_bytes())
}

/// A digit's value.
#[inline(always)]
fn digit_in(bytes: &[u8]) -> Option<(u32, &[u8])>
    ensures small { IfSome result (λ found. found.0 < 10) }
    ensures text { IfSome result (λ found. bytes.now ≡ (48 + found.0) ∷ found.1.now) }
{
    let [first, rest @ ..] = bytes else {
        return None;
    };
    if *first < b'0' || *first > b'9' {
        return None;
    }
    Some(((*first - b'0') as u32, rest))
}

/// A number with no digit too many.
#[inline(always)]
fn number_in(bytes: &[u8]) -> Option<(u32, &[u8])>
    ensures { IfSome result (λ found. bytes.now ≡ decimal found.0 ++ found.1.now) }
{
    let (first, rest) = digit_in(bytes)?;
    if first == 0 {
        return Some((0, rest));
    }
    digits_in(first, rest)
}

/// The number whose first digit is this one, and whose others are the first of the bytes.
#[inline(always)]
fn digits_in(first: u32, bytes: &[u8]) -> Option<(u32, &[u8])>
    requires some { 0 < first }
    requires digit { first < 10 }
    ensures { IfSome result (λ found. (48 + first) ∷ bytes.now ≡ decimal found.0 ++ found.1.now) }
{
    let mut number = first;
    let mut rest = bytes;
    while let Some((digit, behind)) = digit_in(rest) {
        if number > 429_496_728 {
            return None;
        }
        number = number * 10 + digit;
        rest = behind;
    }
    Some((number, rest))
}

/// A number below 256.
fn small_in(bytes: &[u8]) -> Option<(u8, &[u8])>
    ensures { IfSome result (λ found. bytes.now ≡ decimal found.0 ++ found.1.now) }
{
    let (number, rest) = number_in(bytes)?;
    if number > 255 {
        return None;
    }
    Some((number as u8, rest))
}

/// A blank and an event, where there is a blank.
#[inline(always)]
fn event_part_in(bytes: &[u8]) -> Option<(Option<Event>, &[u8])>
    ensures { IfSome result (λ found. bytes.now ≡ event_part found.0 ++ found.1.now) }
{
    match after(bytes, " ") {
        None => Some((None, bytes)),
        Some(rest) => {
            let (event, rest) = event_in(rest)?;
            Some((Some(event), rest))
        }
    }
}

/// A line of entries with its line feed.
pub(crate) fn line_in<'a>(header: &Header, bytes: &'a [u8]) -> Option<(LedgerLine, &'a [u8])>
    requires { IsPrintable header.now }
    ensures text { IfSome result (λ found. bytes.now ≡ ledger_line header.now found.0 ++ found.1.now) }
    ensures named { IfSome result (λ found. IsNamed header.now found.0.label) }
{
    let (start, rest) = number_in(bytes)?;
    let (count, rest) = number_in(after(rest, " ")?)?;
    let (label, rest) = label_in(header, after(rest, " ")?)?;
    let (event, rest) = event_part_in(rest)?;
    let rest = after(rest, "\n")?;
    let line = LedgerLine {
        start,
        count,
        label,
        event,
    };
    Some((line, rest))
}
