//! Which words behind a command word stand for what.
ghost use Rattle.std.specs.Prelude.{◌≡◌, IfOk, drop, false, filter, find, length, map, option_map, string_bytes};
ghost use Rattle.std.specs.List.{list_any};
ghost use Rattle.std.specs.Str.{bytes_eq};
ghost use Rattle.dk_show_request.specs.Reasons.{is_no_ticks, missing_name, no_ticks_word, surplus_word};
ghost use Rattle.dk_show_request.specs.Words.{arguments, dashed, fits, has_flags, has_options, is_flag, is_mark, is_option, is_plain_word, is_unfit, option_word, unfit_word};

use crate::forms::Form;
use crate::numbers::ticks_in;
use std::alloc::{AllocError, Global};

fn is_plain_word(word: &String) -> bool
    ensures { result ≡ is_plain_word (string_bytes word.now) }
{
    match word.as_bytes() {
        [b, ..] => *b != b'-',
        [] => false,
    }
}

/// Whether the word is a flag or an option of this name.
fn is_dashed(word: &String, name: &str) -> bool
    ensures { result ≡ bytes_eq (string_bytes word.now) (dashed name.now) }
{
    match word.as_bytes() {
        [b'-', b'-', behind @ ..] => behind == name.as_bytes(),
        _ => false,
    }
}

fn is_among(names: &[&str], word: &String) -> bool
    ensures { result ≡ list_any (λ m. bytes_eq (string_bytes word.now) (dashed m.now)) names.now }
{
    names.iter().any(|name| is_dashed(word, name))
}

fn is_flag(form: &Form, word: &String) -> bool
    ensures { result ≡ is_flag form.now (string_bytes word.now) }
{
    is_among(form.flags, word)
}

/// The word is the option.
pub fn is_option(form: &Form, word: &String) -> bool
    ensures { result ≡ is_option form.now (string_bytes word.now) }
{
    !form.option.is_empty() && is_dashed(word, form.option)
}

/// The word is a flag or an option.
fn is_mark(form: &Form, word: &String) -> bool
    ensures { result ≡ is_mark form.now (string_bytes word.now) }
{
    is_flag(form, word) || is_option(form, word)
}

/// The words that stand for arguments: no flag or option, and not the word behind an option.
pub fn arguments<'a>(
    alloc: Global,
    form: &Form,
    words: &'a [String],
) -> Result<Vec<&'a str>, AllocError>
    ensures { IfOk result (λ v. map (λ w. w.now) v.items ≡ arguments form.now (map string_bytes words.entry.now)) }
{
    let mut given = Vec::new(alloc);
    let mut behind = false;
    for word in words {
        if !(behind || is_mark(form, word)) {
            given.push(word.as_str())?;
        }
        behind = is_option(form, word);
    }
    Ok(given)
}

/// The first word behind an option.
pub fn option_word<'a>(form: &Form, words: &'a [String]) -> Option<&'a str>
    ensures { option_map (λ w. w.now) result ≡ option_word form.now false (map string_bytes words.entry.now) }
{
    let mut behind = false;
    for word in words {
        if behind {
            return Some(word.as_str());
        }
        behind = is_option(form, word);
    }
    None
}

fn is_unfit(form: &Form, word: &String) -> bool
    ensures { result ≡ is_unfit form.now (string_bytes word.now) }
{
    !(is_mark(form, word) || is_plain_word(word))
}

fn unfit_string<'a>(form: &Form, words: &'a [String]) -> Option<&'a String>
    ensures { option_map (λ w. w.now) result ≡ find (λ w. is_unfit form.now (string_bytes w)) words.entry.now }
{
    words.iter().find(|word| is_unfit(form, word))
}

/// The first word that begins with '-' or is empty, and is no flag or option of the command.
pub fn unfit_word<'a>(form: &Form, words: &'a [String]) -> Option<&'a str>
    ensures { option_map (λ w. w.now) result ≡ unfit_word form.now (map string_bytes words.entry.now) }
{
    match unfit_string(form, words) {
        Some(word) => Some(word.as_str()),
        None => None,
    }
}

/// Of so many words, the name of the first argument that has none and must have one.
pub fn missing_name(form: &Form, count: usize) -> Option<&'static str>
    ensures { option_map (λ w. w.now) result ≡ missing_name form.now count }
{
    let needed = form.needed.len();
    if count < needed {
        form.needed.get(count).copied()
    } else if count == needed {
        None
    } else {
        form.optional.get(count - needed).copied()
    }
}

/// The words behind so many.
fn behind<'a, 'b>(given: &'b [&'a str], count: usize) -> &'b [&'a str]
    ensures { map (λ w. w.now) result.now ≡ drop count (map (λ w. w.now) given.entry.now) }
{
    if count <= given.len() {
        &given[count..]
    } else {
        &[]
    }
}

/// The first word for which no argument is left.
pub fn surplus_word<'a>(form: &Form, given: &[&'a str]) -> Option<&'a str>
    ensures { option_map (λ w. w.now) result ≡ surplus_word form.now (map (λ w. w.now) given.now) }
{
    if form.kind.takes_several() {
        None
    } else {
        behind(given, form.needed.len())
            .get(form.optional.len())
            .copied()
    }
}

fn is_no_ticks(word: &str) -> bool
    ensures { result ≡ is_no_ticks word.now }
{
    ticks_in(word).is_none()
}

fn found_no_ticks<'a>(words: &[&'a str]) -> Option<&'a str>
    ensures { result ≡ find (λ w. is_no_ticks w.now) words.now }
{
    words.iter().copied().find(|word| is_no_ticks(word))
}

fn first_no_ticks<'a>(words: &[&'a str]) -> Option<&'a str>
    ensures { option_map (λ w. w.now) result ≡ find is_no_ticks (map (λ w. w.now) words.now) }
{
    found_no_ticks(words)
}

/// The first word that stands for ticks and spells none.
pub fn no_ticks_word<'a>(form: &Form, given: &[&'a str]) -> Option<&'a str>
    ensures { option_map (λ w. w.now) result ≡ no_ticks_word form.now (map (λ w. w.now) given.now) }
{
    match given {
        [_, ticks @ ..] if form.kind.takes_ticks() => first_no_ticks(ticks),
        _ => None,
    }
}

fn flag_count(form: &Form, words: &[String]) -> usize
    ensures { result ≡ length (filter (λ w. is_flag form.now (string_bytes w)) words.now) }
{
    words.iter().filter(|word| is_flag(form, word)).count()
}

fn option_count(form: &Form, words: &[String]) -> usize
    ensures { result ≡ length (filter (λ w. is_option form.now (string_bytes w)) words.now) }
{
    words.iter().filter(|word| is_option(form, word)).count()
}

/// Whether more than one word is a flag.
pub fn has_flags(form: &Form, words: &[String]) -> bool
    ensures { result ≡ has_flags form.now (map string_bytes words.now) }
{
    flag_count(form, words) > 1
}

/// Whether more than one word is the option.
pub fn has_options(form: &Form, words: &[String]) -> bool
    ensures { result ≡ has_options form.now (map string_bytes words.now) }
{
    option_count(form, words) > 1
}

/// Whether no word is unfit, and one at most is a flag, and one the option.
pub fn fits(form: &Form, words: &[String]) -> bool
    ensures { result ≡ fits form.now (map string_bytes words.now) }
{
    unfit_word(form, words).is_none() && !(has_flags(form, words) || has_options(form, words))
}
