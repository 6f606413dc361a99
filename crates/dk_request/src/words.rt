//! The rule that decides which words are taken, and the spelling of numbers.
ghost use Rattle.std.specs.Prelude.{◌≡◌, ◌<◌, ◌≤◌, IfSome, length, map, filter, nat_le, string_bytes, not, ◌&&◌};
ghost use Rattle.std.specs.List.{list_all};
ghost use Rattle.dk_request.specs.Synopsis.{are_taken, fits, is_allowed, is_flag, is_empty};
ghost use Rattle.dk_request.specs.Meaning.{number_in};

use crate::commands::Synopsis;
use dk_asm::is_numeral;
use dk_plan::MAX_ASKS;

fn is_flag_word(word: &String) -> bool
    ensures { result ≡ is_flag (string_bytes word.now) }
{
    match word.as_bytes() {
        [b, ..] => *b == b'-',
        [] => false,
    }
}

fn is_allowed(synopsis: &Synopsis, word: &String) -> bool
    ensures { result ≡ is_allowed synopsis.now (string_bytes word.now) }
{
    !is_flag_word(word) || synopsis.reports && word.as_str() == "--report"
}

fn none_is_empty(words: &[String]) -> bool
    ensures { result ≡ list_all (λ w. not (is_empty (string_bytes w))) words.now }
{
    words.iter().all(|w| !w.is_empty())
}

fn all_are_allowed(synopsis: &Synopsis, words: &[String]) -> bool
    ensures { result ≡ list_all (λ w. is_allowed synopsis.now (string_bytes w)) words.now }
{
    words.iter().all(|w| is_allowed(synopsis, w))
}

fn flag_count(words: &[String]) -> usize
    ensures { result ≡ length (filter (λ w. is_flag (string_bytes w)) words.now) }
{
    words.iter().filter(|w| is_flag_word(w)).count()
}

fn positional_count(words: &[String]) -> usize
    ensures { result ≡ length (filter (λ w. not (is_flag (string_bytes w))) words.now) }
{
    words.len() - flag_count(words)
}

/// Whether so many words stand for the arguments.
fn fits(synopsis: &Synopsis, count: usize) -> bool
    requires { length synopsis.now.names < 100 }
    ensures { result ≡ fits synopsis.now count }
{
    let names = synopsis.names.len();
    if synopsis.repeats {
        names <= count && count < names + MAX_ASKS
    } else {
        count == names
    }
}

fn are_taken_texts(synopsis: &Synopsis, words: &[String]) -> bool
    requires { length synopsis.now.names < 100 }
    ensures { result ≡ ((list_all (λ w. not (is_empty (string_bytes w))) words.now
        && list_all (λ w. is_allowed synopsis.now (string_bytes w)) words.now)
        && (fits synopsis.now (length (filter (λ w. not (is_flag (string_bytes w))) words.now))
        && nat_le (length (filter (λ w. is_flag (string_bytes w)) words.now)) 1)) }
{
    none_is_empty(words)
        && all_are_allowed(synopsis, words)
        && fits(synopsis, positional_count(words))
        && flag_count(words) <= 1
}

/// Whether the words after the command word are taken.
pub fn are_taken(synopsis: &Synopsis, words: &[String]) -> bool
    requires { length synopsis.now.names < 100 }
    ensures { result ≡ are_taken synopsis.now (map string_bytes words.now) }
{
    are_taken_texts(synopsis, words)
}

/// The number that a word spells, where it is within these bounds.
pub fn number_in(least: u64, most: u64, word: &str) -> Option<u64>
    ensures value { result ≡ number_in least most word.now }
    ensures most { IfSome result (λ n. n ≤ most) }
{
    if !is_numeral(word.as_bytes()) {
        return None;
    }
    match word.parse::<u64>() {
        Ok(n) => {
            if least <= n && n <= most {
                Some(n)
            } else {
                None
            }
        }
        Err(_) => None,
    }
}

/// The same of a number of 32 bits.
pub fn short_number_in(least: u32, most: u32, word: &str) -> Option<u32>
    ensures { result ≡ number_in least most word.now }
{
    match number_in(u64::from(least), u64::from(most), word) {
        Some(number) => Some(number as u32),
        None => None,
    }
}
