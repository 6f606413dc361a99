//! How long a tick is, as a document spells it.
ghost use Rattle.std.specs.Prelude.{◌≡◌, ◌<◌, ◌≤◌, true, min, not, position, length, IfSome};
ghost use Rattle.std.specs.List.{list_all};
ghost use Rattle.std.specs.Char.{is_ascii_digit};
ghost use Rattle.std.specs.Str.Parse.{digits_value};
ghost use Rattle.dk_needs.specs.Ticks.{amount_of, digit_count, is_spelled, tick_of, unit_of};

use crate::MAX_AMOUNT;
use crate::needs::{Tick, Unit};

/// Where the first byte stands that is no digit.
fn first_other(text: &[u8]) -> Option<usize>
    ensures found { result ≡ position (λ b. not (is_ascii_digit b)) text.now }
    ensures within { IfSome result (λ i. i < length text.now) }
{
    text.iter().position(|b| !b.is_ascii_digit())
}

/// How many digits come first.
fn digit_count(text: &[u8]) -> usize
    ensures count { result ≡ digit_count text.now }
    ensures within { result ≤ length text.now }
{
    match first_other(text) {
        Some(count) => count,
        None => text.len(),
    }
}

fn are_digits(text: &[u8]) -> bool
    ensures { result ≡ list_all is_ascii_digit text.now }
{
    text.iter().all(u8::is_ascii_digit)
}

/// Whether these are digits, and the first is no 0.
fn is_spelled(digits: &[u8]) -> bool
    ensures { result ≡ is_spelled digits.now }
{
    !digits.is_empty() && are_digits(digits) && digits[0] != b'0'
}

/// The number that the digits spell, with 1,000,000 for all from there on.
fn capped_value(digits: &[u8]) -> u32
    requires { list_all is_ascii_digit digits.now ≡ true }
    ensures { result ≡ min (digits_value 10 digits.now) 1000000 }
{
    let mut n: u32 = 0;
    for digit in digits {
        n = (n * 10 + (*digit - b'0') as u32).min(1_000_000);
    }
    n
}

fn amount_of(digits: &[u8]) -> Option<u32>
    ensures { result ≡ amount_of digits.now }
{
    if !is_spelled(digits) {
        return None;
    }
    let amount = capped_value(digits);
    if amount <= MAX_AMOUNT {
        Some(amount)
    } else {
        None
    }
}

fn unit_of(word: &[u8]) -> Option<Unit>
    ensures { result ≡ unit_of word.now }
{
    if word == b"ns".as_slice() {
        return Some(Unit::Nanoseconds);
    }
    if word == b"us".as_slice() {
        return Some(Unit::Microseconds);
    }
    if word == b"ms".as_slice() {
        return Some(Unit::Milliseconds);
    }
    if word == b"s".as_slice() {
        Some(Unit::Seconds)
    } else {
        None
    }
}

/// The tick that a text spells: a number from 1 to 999,999 with no 0 before it, and a unit.
pub(crate) fn tick_of(text: &[u8]) -> Option<Tick>
    ensures { result ≡ tick_of text.now }
{
    let count = digit_count(text);
    let amount = amount_of(&text[..count])?;
    let unit = unit_of(&text[count..])?;
    Some(Tick { amount, unit })
}
