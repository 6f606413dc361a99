//! Words read by `clap`, with the simple command of a synopsis.
ghost use Rattle.std.specs.Prelude.{ℕ, ◌≡◌, ◌++◌, OnOk, ◌<◌, ◌&&◌, ◌==◌, ◌≤◌, ◌+◌, List, true, false, Bool, IfOk, IfErr, if◌then◌else◌, Some, drop, length, map, option_map, nat_lt, string_bytes, codes};
ghost use Rattle.dk_request.specs.Synopsis.{are_taken, flags, is_synopsis, positionals, words_up_to};
ghost use Rattle.dk_request.specs.SimpleCommand.{simple_command, argument, arguments, flag, with_rules, HasWords};
ghost use Rattle.clap.specs.Words.{app_of, one_text, found_of, kind_of, matched_of, raw_values, with_rule};

use crate::commands::Synopsis;
use clap::error::ErrorKind;
use clap::{Arg, ArgAction, ArgMatches, Command, Error};
use dk_config::NoMemory;
use std::alloc::{AllocError, Global};

/// The command with one argument more, which may stand for one word or for several.
fn add_argument<'a>(
    alloc: Global,
    command: Command<'a>,
    name: &'a str,
    many: bool,
) -> Result<Command<'a>, AllocError>
    ensures { IfOk result (λ c. app_of c ≡ with_rule (app_of command.entry) (argument many name.entry.now)) }
{
    let action = if many {
        ArgAction::Append
    } else {
        ArgAction::Set
    };
    let argument = Arg::new(alloc, name).required(true).action(action);
    command.arg(argument)
}

fn add_flag<'a>(alloc: Global, command: Command<'a>) -> Result<Command<'a>, AllocError>
    ensures { IfOk result (λ c. app_of c ≡ with_rule (app_of command.entry) flag) }
{
    let flag = Arg::new(alloc, "report")
        .long("report")
        .action(ArgAction::SetTrue);
    command.arg(flag)
}

/// Whether the argument at this place stands for several words.
fn is_many(synopsis: &Synopsis, place: usize) -> bool
    requires { place < length synopsis.now.names }
    ensures { result ≡ (synopsis.now.repeats && (place + 1 == length synopsis.now.names)) }
{
    synopsis.repeats && place + 1 == synopsis.names.len()
}

fn with_arguments<'a>(alloc: Global, synopsis: &Synopsis) -> Result<Command<'a>, AllocError>
    ensures { IfOk result (λ c. app_of c
        ≡ with_rules synopsis.now.word (arguments synopsis.now.repeats synopsis.now.names)) }
{
    let mut command = Command::new(alloc, synopsis.word);
    for (place, name) in synopsis.names.iter().enumerate() {
        let many = is_many(synopsis, place);
        command = add_argument(alloc, command, name, many)?;
    }
    Ok(command)
}

/// The simple command of a synopsis.
fn command_for<'a>(alloc: Global, synopsis: &Synopsis) -> Result<Command<'a>, AllocError>
    ensures { IfOk result (λ c. app_of c ≡ simple_command synopsis.now) }
{
    let command = with_arguments(alloc, synopsis)?;
    if synopsis.reports {
        add_flag(alloc, command)
    } else {
        Ok(command)
    }
}

/// What `clap` finds in the words, which are taken. The first is the command word.
fn matches_of<'a>(
    alloc: Global,
    synopsis: &Synopsis,
    words: &'a [String],
) -> Result<ArgMatches<'a>, Error>
    requires simple { is_synopsis synopsis.now ≡ true }
    requires taken { are_taken synopsis.now (drop 1 (map string_bytes words.now)) ≡ true }
    ensures values { IfOk result (λ m. HasWords synopsis.now
        (positionals (drop 1 (map string_bytes words.entry.now))) (found_of m)) }
    ensures report { IfOk result (λ m. synopsis.now.reports ≡ true → one_text (found_of m) (codes "report")
        ≡ Some (if nat_lt 0 (length (flags (drop 1 (map string_bytes words.entry.now))))
        then codes "true" else codes "false")) }
    ensures err { IfErr result (λ e. kind_of e ≡ ErrorKind.OutOfMemory) }
{
    let command = command_for(alloc, synopsis)?;
    command.try_get_matches_from(words)
}

/// Adds the words that the argument of this name stands for.
fn add_words<'a>(
    values: &mut Vec<&'a str>,
    matches: &ArgMatches<'a>,
    name: &str,
) -> Result<(), AllocError>
    ensures { OnOk result ((ws : List (List ℕ))
        → option_map raw_values (matched_of (found_of matches.entry.now) name.now) ≡ Some ws
        → map (λ v. v.now) values.new.items ≡ map (λ v. v.now) values.old.items ++ ws) }
{
    match matches.get_raw(name) {
        Some(words) => values.extend_from_slice(words),
        None => Ok(()),
    }
}

/// The words that stand for the arguments, in order.
fn values_of<'a>(
    alloc: Global,
    synopsis: &Synopsis,
    matches: &ArgMatches<'a>,
) -> Result<Vec<&'a str>, AllocError>
    requires { is_synopsis synopsis.now ≡ true }
    ensures { IfOk result (λ vs. (ps : List (List ℕ)) → length synopsis.now.names ≤ length ps
        → HasWords synopsis.now ps (found_of matches.entry.now)
        → map (λ v. v.now) vs.items ≡ words_up_to synopsis.now ps (length synopsis.now.names)) }
{
    let mut values = Vec::new(alloc);
    for name in synopsis.names {
        add_words(&mut values, matches, name)?;
    }
    Ok(values)
}

/// What was given to a command: the words for its arguments in order, and whether `--report` was.
#[derive(Drop)]
pub struct Given<'a> {
    pub words: Vec<&'a str>,
    pub report: bool,
}

/// Whether `--report` was found.
fn has_report(synopsis: &Synopsis, matches: &ArgMatches) -> bool
    ensures { (given : Bool) → (synopsis.now.reports ≡ true → one_text (found_of matches.now) (codes "report")
        ≡ Some (if given then codes "true" else codes "false"))
        → (synopsis.now.reports ≡ false → given ≡ false) → result ≡ given }
{
    synopsis.reports && matches.get_flag("report")
}

/// Reads the words, which are taken. The first is the command word.
pub fn read_words<'a>(
    alloc: Global,
    synopsis: &Synopsis,
    words: &'a [String],
) -> Result<Given<'a>, NoMemory>
    requires simple { is_synopsis synopsis.now ≡ true }
    requires taken { are_taken synopsis.now (drop 1 (map string_bytes words.now)) ≡ true }
    ensures words { IfOk result (λ g. map (λ v. v.now) g.words.items
        ≡ positionals (drop 1 (map string_bytes words.entry.now))) }
    ensures report { IfOk result (λ g. g.report
        ≡ nat_lt 0 (length (flags (drop 1 (map string_bytes words.entry.now))))) }
{
    let Ok(matches) = matches_of(alloc, synopsis, words) else {
        return Err(NoMemory);
    };
    Ok(Given {
        words: values_of(alloc, synopsis, &matches)?,
        report: has_report(synopsis, &matches),
    })
}
