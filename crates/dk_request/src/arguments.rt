//! The words that stand for a command's arguments.
ghost use Rattle.std.specs.Prelude.{◌≡◌, IfOk, drop, map};
ghost use Rattle.dk_request.specs.Meaning.{ticks_in, word_at};

use crate::clap_words::Given;
use crate::words::short_number_in;
use dk_config::{MAX_RUN_TICKS, NoMemory, Text};
use std::alloc::Global;

/// The word at this place, where there is one.
pub fn word_at<'a>(given: &Given<'a>, place: usize) -> &'a str
    ensures { result.now ≡ word_at (map (λ w. w.now) given.entry.now.words.items) place }
{
    given.words.get(place).copied().unwrap_or("")
}

/// A copy of the word.
pub fn text_of(alloc: Global, word: &str) -> Result<Text, NoMemory>
    ensures { IfOk result (λ t. t ≡ word.now) }
{
    let copy = String::from_str(alloc, word)?;
    Ok(Text::new(copy))
}

/// A copy of the word at this place.
pub fn text_at(alloc: Global, given: &Given, place: usize) -> Result<Text, NoMemory>
    ensures { IfOk result (λ t. t ≡ word_at (map (λ w. w.now) given.now.words.items) place) }
{
    text_of(alloc, word_at(given, place))
}

/// The ticks of a run that the word spells.
pub fn ticks_in(word: &str) -> Option<u32>
    ensures { result ≡ ticks_in word.now }
{
    short_number_in(0, MAX_RUN_TICKS, word)
}

/// The words from this place on.
pub fn words_behind<'g, 'a>(given: &'g Given<'a>, place: usize) -> &'g [&'a str]
    ensures { map (λ w. w.now) result.now ≡ drop place (map (λ w. w.now) given.entry.now.words.items) }
{
    let words = given.words.as_slice();
    if place <= words.len() {
        &words[place..]
    } else {
        &[]
    }
}
