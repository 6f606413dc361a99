//! Why words mean nothing: the first reason that is found.
ghost use Rattle.std.specs.Prelude.{◌≡◌, ◌++◌, ◌-◌, codes, find, if◌then◌else◌, IfOk, length, map, None, option_map, Some, string_bytes};
ghost use Rattle.dk_show_request.specs.Forms.{form_named, is_no_command};
ghost use Rattle.dk_show_request.specs.Words.{ends_bare, word_at};
ghost use Rattle.dk_show_request.specs.Numbers.{ticks_in};
ghost use Rattle.dk_show_request.specs.Reasons.{again_reason, allotments_reason, allotting, commands_reason, count_reason, has_many_names, is_below, is_disordered, mark_reason, names_reason, naming, no_percent_word, order_reason, percent_reason, reason, reason_text, surplus_reason, ticks_reason, wrong_text, wrong_with};
ghost use Rattle.dk_show_request.specs.TrueReasons.{AreLines, ReasonsHold};

use crate::allotments::{no_allotment, repeated_name};
use crate::arguments::{
    arguments, has_flags, has_options, is_option, missing_name, no_ticks_word, option_word,
    surplus_word, unfit_word,
};
use crate::forms::{Form, form_named, is_no_command};
use crate::numbers::{percent_in, ticks_in};
use crate::reason_texts::{
    bare_text, disorder_text, many_names_text, no_allotment_text, no_percent_text, no_ticks_text,
    said_of, shown, unfit_text,
};
use crate::table::Kind;
use crate::usage_line::flags_text;
use dk_config::MAX_PROCESSES;
use std::alloc::{AllocError, Global};

/// The last word, where it is an option without its word.
fn bare_option<'a>(form: &Form, words: &'a [String]) -> Option<&'a str>
    ensures { option_map (λ w. w.now) result
        ≡ (if ends_bare form.now (map string_bytes words.entry.now)
        then Some (word_at (map string_bytes words.entry.now) (length (map string_bytes words.entry.now) - 1)) else None) }
{
    let last = words.last()?;
    if is_option(form, last) {
        Some(last.as_str())
    } else {
        None
    }
}

/// Of the flags and options.
fn mark_text(alloc: Global, form: &Form, words: &[String]) -> Result<String, AllocError>
    ensures { IfOk result (λ s. string_bytes s ≡ reason_text (mark_reason form.now (map string_bytes words.now))) }
{
    if has_flags(form, words) {
        let flags = flags_text(alloc, form.flags)?;
        return said_of(alloc, flags.as_str(), " stands more than once\n");
    }
    if has_options(form, words) {
        let option = form.option;
        return format!(in alloc; "--{option} stands more than once\n");
    }
    match bare_option(form, words) {
        Some(word) => bare_text(alloc, word),
        None => String::from_str(alloc, "these words are no call of it\n"),
    }
}

fn has_many_names(kind: Kind, given: &[&str]) -> bool
    ensures { result ≡ has_many_names kind (map (λ w. w.now) given.now) }
{
    match (kind, given) {
        (Kind::Processes, [_, names @ ..]) => names.len() > MAX_PROCESSES,
        _ => false,
    }
}

/// The words that are to be allotments.
fn allotting<'a, 'b>(kind: Kind, given: &'b [&'a str]) -> &'b [&'a str]
    ensures { map (λ w. w.now) result.now ≡ allotting kind (map (λ w. w.now) given.entry.now) }
{
    match (kind, given) {
        (Kind::Allotments, [_, words @ ..]) => words,
        _ => &[],
    }
}

/// Of a command with a reserve the word that is to be a number of percent.
fn no_percent_word<'a>(form: &Form, words: &'a [String]) -> Option<&'a str>
    ensures { option_map (λ w. w.now) result ≡ no_percent_word form.now (map string_bytes words.entry.now) }
{
    if form.option != "reserve" {
        return None;
    }
    match option_word(form, words) {
        Some(word) if percent_in(word).is_none() => Some(word),
        _ => None,
    }
}

fn percent_text(alloc: Global, form: &Form, words: &[String]) -> Result<String, AllocError>
    ensures { IfOk result (λ s. string_bytes s ≡ reason_text (percent_reason form.now (map string_bytes words.now))) }
{
    match no_percent_word(form, words) {
        Some(word) => no_percent_text(alloc, word),
        None => mark_text(alloc, form, words),
    }
}

/// The words that are to be those of commands.
fn naming<'a, 'b>(kind: Kind, given: &'b [&'a str]) -> &'b [&'a str]
    ensures { map (λ w. w.now) result.now ≡ naming kind (map (λ w. w.now) given.entry.now) }
{
    match kind {
        Kind::Commands => given,
        _ => &[],
    }
}

fn found_no_command<'a>(words: &[&'a str]) -> Option<&'a str>
    ensures { result ≡ find (λ w. is_no_command w.now) words.now }
{
    words.iter().copied().find(|word| is_no_command(word))
}

/// The first word that is no command.
fn no_command<'a>(words: &[&'a str]) -> Option<&'a str>
    ensures { option_map (λ w. w.now) result ≡ find is_no_command (map (λ w. w.now) words.now) }
{
    found_no_command(words)
}

fn commands_text(
    alloc: Global,
    form: &Form,
    given: &[&str],
    words: &[String],
) -> Result<String, AllocError>
    ensures { IfOk result (λ s. string_bytes s
        ≡ reason_text (commands_reason form.now (map (λ w. w.now) given.now) (map string_bytes words.now))) }
{
    match no_command(naming(form.kind, given)) {
        Some(word) => said_of(alloc, shown(word), " is no command\n"),
        None => percent_text(alloc, form, words),
    }
}

fn again_text(
    alloc: Global,
    form: &Form,
    given: &[&str],
    words: &[String],
) -> Result<String, AllocError>
    ensures { IfOk result (λ s. string_bytes s ≡ reason_text (again_reason form.now (map (λ w. w.now) given.now) (map string_bytes words.now))) }
{
    match repeated_name(allotting(form.kind, given)) {
        Some(name) => said_of(alloc, shown(name), " is allotted more than once\n"),
        None => commands_text(alloc, form, given, words),
    }
}

/// Of allotments, and of the flags and options.
fn allotments_text(
    alloc: Global,
    form: &Form,
    given: &[&str],
    words: &[String],
) -> Result<String, AllocError>
    ensures { IfOk result (λ s. string_bytes s
        ≡ reason_text (allotments_reason form.now (map (λ w. w.now) given.now) (map string_bytes words.now))) }
{
    match no_allotment(allotting(form.kind, given)) {
        Some(word) => no_allotment_text(alloc, word),
        None => again_text(alloc, form, given, words),
    }
}

fn names_text(
    alloc: Global,
    form: &Form,
    given: &[&str],
    words: &[String],
) -> Result<String, AllocError>
    ensures { IfOk result (λ s. string_bytes s
        ≡ reason_text (names_reason form.now (map (λ w. w.now) given.now) (map string_bytes words.now))) }
{
    if has_many_names(form.kind, given) {
        many_names_text(alloc)
    } else {
        allotments_text(alloc, form, given, words)
    }
}

/// Whether both words spell ticks, the first below the second.
fn is_below(from: &str, to: &str) -> bool
    ensures { result ≡ is_below (ticks_in from.now) (ticks_in to.now) }
{
    match (ticks_in(from), ticks_in(to)) {
        (Some(from), Some(to)) => from < to,
        _ => false,
    }
}

fn word_at<'a>(given: &[&'a str], place: usize) -> &'a str
    ensures { result.now ≡ word_at (map (λ w. w.now) given.entry.now) place }
{
    match given.get(place) {
        Some(word) => word,
        None => "",
    }
}

/// Whether the words stand for a file, FROM and TO, and FROM isn't below TO.
fn is_disordered(form: &Form, given: &[&str]) -> bool
    ensures { result ≡ is_disordered form.now (map (λ w. w.now) given.now) }
{
    form.kind.takes_ticks() && given.len() == 3 && !is_below(word_at(given, 1), word_at(given, 2))
}

fn order_text(
    alloc: Global,
    form: &Form,
    given: &[&str],
    words: &[String],
) -> Result<String, AllocError>
    ensures { IfOk result (λ s. string_bytes s
        ≡ reason_text (order_reason form.now (map (λ w. w.now) given.now) (map string_bytes words.now))) }
{
    if is_disordered(form, given) {
        disorder_text(alloc, word_at(given, 1), word_at(given, 2))
    } else {
        names_text(alloc, form, given, words)
    }
}

fn ticks_text(
    alloc: Global,
    form: &Form,
    given: &[&str],
    words: &[String],
) -> Result<String, AllocError>
    ensures { IfOk result (λ s. string_bytes s
        ≡ reason_text (ticks_reason form.now (map (λ w. w.now) given.now) (map string_bytes words.now))) }
{
    match no_ticks_word(form, given) {
        Some(word) => no_ticks_text(alloc, word),
        None => order_text(alloc, form, given, words),
    }
}

fn surplus_text(
    alloc: Global,
    form: &Form,
    given: &[&str],
    words: &[String],
) -> Result<String, AllocError>
    ensures { IfOk result (λ s. string_bytes s
        ≡ reason_text (surplus_reason form.now (map (λ w. w.now) given.now) (map string_bytes words.now))) }
{
    match surplus_word(form, given) {
        Some(word) => said_of(alloc, shown(word), " is one word too many\n"),
        None => ticks_text(alloc, form, given, words),
    }
}

/// Of the words that stand for arguments, and all.
fn count_text(
    alloc: Global,
    form: &Form,
    given: &[&str],
    words: &[String],
) -> Result<String, AllocError>
    ensures { IfOk result (λ s. string_bytes s
        ≡ reason_text (count_reason form.now (map (λ w. w.now) given.now) (map string_bytes words.now))) }
{
    match missing_name(form, given.len()) {
        Some(name) => said_of(alloc, name, " is missing\n"),
        None => surplus_text(alloc, form, given, words),
    }
}

/// Why the words behind the command word are no call of the command.
fn reason_text(alloc: Global, form: &Form, words: &[String]) -> Result<String, AllocError>
    ensures { IfOk result (λ s. string_bytes s ≡ reason_text (reason form.now (map string_bytes words.now))) }
{
    match unfit_word(form, words) {
        Some(word) => unfit_text(alloc, word),
        None => {
            let given = arguments(alloc, form, words)?;
            count_text(alloc, form, &given, words)
        }
    }
}

fn command_line(alloc: Global, form: &Form, words: &[String]) -> Result<String, AllocError>
    ensures { IfOk result (λ s. string_bytes s
        ≡ form.now.word ++ (codes ": " ++ reason_text (reason form.now (map string_bytes words.now)))) }
{
    let word = form.word;
    let text = reason_text(alloc, form, words)?;
    let text = text.as_str();
    format!(in alloc; "{word}: {text}")
}

/// The reason that is told holds of the words.
pub fn reasons_law()
    ensures { ReasonsHold }
{}

/// What is told is one line.
pub fn lines_law()
    ensures { AreLines }
{}

/// Why this command word and the words behind it mean nothing.
fn wrong_call(alloc: Global, word: &str, behind: &[String]) -> Result<String, AllocError>
    ensures { IfOk result (λ s. string_bytes s
        ≡ wrong_with word.now (form_named word.now) (map string_bytes behind.now)) }
{
    match form_named(word) {
        Some(form) => command_line(alloc, &form, behind),
        None => said_of(alloc, shown(word), " is no command\n"),
    }
}

/// A line that says why the words mean nothing: the first reason that is found. The first word is the program's name and
/// isn't looked at. Of words that do mean something it says nothing of use.
pub fn wrong_words(alloc: Global, words: &[String]) -> Result<String, AllocError>
    ensures { IfOk result (λ s. string_bytes s ≡ wrong_text (map string_bytes words.now)) }
{
    match words {
        [_, word, behind @ ..] => wrong_call(alloc, word.as_str(), behind),
        _ => String::from_str(alloc, "a command is wanted\n"),
    }
}
