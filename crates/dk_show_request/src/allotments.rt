//! How words spell allotments of slack, as `NAME=TICKS`.
ghost use Rattle.std.specs.Prelude.{◌≡◌, ◌==◌, if◌then◌else◌, IfOk, Some, find, is_some, map, option_map};
ghost use Rattle.std.specs.List.{after_first, before_first, list_any};
ghost use Rattle.std.specs.Str.{bytes_eq};
ghost use Rattle.dk_show_request.specs.Allotments.{allotment_of, has_same_name, is_no_allotment, name_in, repeated_name, ticks_behind};

use crate::numbers::ticks_in;
use dk_config::{NoMemory, Text};
use std::alloc::Global;

/// So many ticks of slack for the process of this name, in each of its windows.
#[derive(Drop)]
pub struct Allotment {
    pub name: Text,
    pub ticks: u32,
}

/// What stands before the first equals sign.
pub(crate) fn name_in(word: &str) -> &str
    ensures { result.now ≡ name_in word.now }
{
    match word.split_once('=') {
        Some((name, _)) => name,
        None => word,
    }
}

/// What stands behind it.
fn number_in(word: &str) -> &str
    ensures { result.now ≡ after_first (λ b. b == 61) word.now }
{
    match word.split_once('=') {
        Some((_, number)) => number,
        None => "",
    }
}

fn ticks_behind(word: &str) -> Option<u32>
    ensures { result ≡ ticks_behind word.now }
{
    ticks_in(number_in(word))
}

fn is_no_allotment(word: &str) -> bool
    ensures { result ≡ is_no_allotment word.now }
{
    ticks_behind(word).is_none()
}

fn found_no_allotment<'a>(words: &[&'a str]) -> Option<&'a str>
    ensures { result ≡ find (λ w. is_no_allotment w.now) words.now }
{
    words.iter().copied().find(|word| is_no_allotment(word))
}

/// The first word that is no allotment.
pub(crate) fn no_allotment<'a>(words: &[&'a str]) -> Option<&'a str>
    ensures { option_map (λ w. w.now) result ≡ find is_no_allotment (map (λ w. w.now) words.now) }
{
    found_no_allotment(words)
}

fn has_same_name(word: &str, other: &str) -> bool
    ensures { result ≡ has_same_name word.now other.now }
{
    name_in(word) == name_in(other)
}

fn stands_again(word: &str, words: &[&str]) -> bool
    ensures { result ≡ list_any (λ w. has_same_name word.now w.now) words.now }
{
    words.iter().any(|other| has_same_name(word, other))
}

/// The word's name, where it stands again, and else what was found behind it.
#[tactic(auto, using(crate::proofs::Finding::any_mapped))]
fn name_or<'a>(word: &'a str, words: &[&'a str], later: Option<&'a str>) -> Option<&'a str>
    ensures { option_map (λ w. w.now) result
        ≡ (if list_any (has_same_name word.now) (map (λ w. w.now) words.now) then Some (name_in word.now)
        else option_map (λ w. w.now) later.entry) }
{
    if stands_again(word, words) {
        Some(name_in(word))
    } else {
        later
    }
}

/// The first name that stands again behind its word.
pub(crate) fn repeated_name<'a>(words: &[&'a str]) -> Option<&'a str>
    ensures { option_map (λ w. w.now) result ≡ repeated_name (map (λ w. w.now) words.now) }
{
    match words {
        [word, rest @ ..] => name_or(word, rest, repeated_name(rest)),
        [] => None,
    }
}

/// The allotment that the word spells.
fn allotment_of(alloc: Global, word: &str) -> Result<Allotment, NoMemory>
    ensures { IfOk result (λ a. a ≡ allotment_of word.now) }
{
    let name = String::from_str(alloc, name_in(word))?;
    Ok(Allotment {
        name: Text::new(name),
        ticks: ticks_behind(word).unwrap_or(0),
    })
}

/// The allotments that the words spell.
pub(crate) fn allotments_of(alloc: Global, words: &[&str]) -> Result<Vec<Allotment>, NoMemory>
    ensures { IfOk result (λ v. v.items ≡ map allotment_of (map (λ w. w.now) words.now)) }
{
    let mut allotments = Vec::new(alloc);
    for word in words {
        allotments.push(allotment_of(alloc, word)?)?;
    }
    Ok(allotments)
}
