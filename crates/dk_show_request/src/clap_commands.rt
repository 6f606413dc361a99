//! What `clap` is given for each command.
ghost use Rattle.std.specs.Prelude.{◌≡◌, IfOk, map};
ghost use Rattle.clap.specs.Words.{app_of, with_rule};
ghost use Rattle.dk_show_request.specs.Clap.{app_for, flag, flags_app, is_several, needed_app, option, with_option, with_rules, word_rule, word_rules, words_app};

use crate::forms::Form;
use clap::{Arg, ArgAction, Command as ClapCommand};
use std::alloc::{AllocError, Global};

/// The command with an argument of this name more, of one word or, if it repeats, several.
fn add_word<'a>(
    alloc: Global,
    command: ClapCommand<'a>,
    name: &'static str,
    required: bool,
    repeats: bool,
) -> Result<ClapCommand<'a>, AllocError>
    ensures { IfOk result (λ c. app_of c ≡ with_rule (app_of command.entry) (word_rule name.entry.now required repeats)) }
{
    let argument = Arg::new(alloc, name).required(required);
    if repeats {
        command.arg(argument.action(ArgAction::Append))
    } else {
        command.arg(argument.action(ArgAction::Set))
    }
}

/// Whether an argument repeats, with these behind it.
fn is_several(repeats: bool, behind: &[&str]) -> bool
    ensures { result ≡ is_several repeats (map (λ w. w.now) behind.now) }
{
    repeats && behind.is_empty()
}

/// The command with these arguments more, of which the last may repeat.
fn add_words<'a>(
    alloc: Global,
    command: ClapCommand<'a>,
    names: &'static [&'static str],
    required: bool,
    repeats: bool,
) -> Result<ClapCommand<'a>, AllocError>
    ensures { IfOk result (λ c. app_of c ≡ with_rules (app_of command.entry) (word_rules (map (λ w. w.now) names.entry.now) required repeats)) }
{
    let mut made = command;
    let mut left = names;
    while let [name, rest @ ..] = left {
        made = add_word(alloc, made, name, required, is_several(repeats, rest))?;
        left = rest;
    }
    Ok(made)
}

/// The command with a flag of this name more.
fn add_flag<'a>(
    alloc: Global,
    command: ClapCommand<'a>,
    name: &'static str,
) -> Result<ClapCommand<'a>, AllocError>
    ensures { IfOk result (λ c. app_of c ≡ with_rule (app_of command.entry) (flag name.entry.now)) }
{
    command.arg(Arg::new(alloc, name).long(name).action(ArgAction::SetTrue))
}

/// The command with these flags more.
fn add_flags<'a>(
    alloc: Global,
    command: ClapCommand<'a>,
    names: &'static [&'static str],
) -> Result<ClapCommand<'a>, AllocError>
    ensures { IfOk result (λ c. app_of c ≡ with_rules (app_of command.entry) (map flag (map (λ w. w.now) names.entry.now))) }
{
    let mut made = command;
    for name in names {
        made = add_flag(alloc, made, name)?;
    }
    Ok(made)
}

/// The command with an option of this name more, which stands before its word.
fn add_valued<'a>(
    alloc: Global,
    command: ClapCommand<'a>,
    name: &'static str,
) -> Result<ClapCommand<'a>, AllocError>
    ensures { IfOk result (λ c. app_of c ≡ with_rule (app_of command.entry) (option name.entry.now)) }
{
    command.arg(Arg::new(alloc, name).long(name).action(ArgAction::Set))
}

/// The same, and none where the name is empty.
fn add_option<'a>(
    alloc: Global,
    command: ClapCommand<'a>,
    name: &'static str,
) -> Result<ClapCommand<'a>, AllocError>
    ensures { IfOk result (λ c. app_of c ≡ with_option (app_of command.entry) name.entry.now) }
{
    if name.is_empty() {
        return Ok(command);
    }
    add_valued(alloc, command, name)
}

/// What `clap` is given for the arguments that must stand.
fn needed_for<'a>(alloc: Global, form: &Form) -> Result<ClapCommand<'a>, AllocError>
    ensures { IfOk result (λ c. app_of c ≡ needed_app form.now) }
{
    let repeats = is_several(form.kind.takes_several(), form.optional);
    let made = ClapCommand::new(alloc, form.word);
    add_words(alloc, made, form.needed, true, repeats)
}

/// What `clap` is given for all arguments.
fn words_for<'a>(alloc: Global, form: &Form) -> Result<ClapCommand<'a>, AllocError>
    ensures { IfOk result (λ c. app_of c ≡ words_app form.now) }
{
    let made = needed_for(alloc, form)?;
    add_words(alloc, made, form.optional, false, form.kind.takes_several())
}

/// What `clap` is given for all arguments and flags.
fn flags_for<'a>(alloc: Global, form: &Form) -> Result<ClapCommand<'a>, AllocError>
    ensures { IfOk result (λ c. app_of c ≡ flags_app form.now) }
{
    let made = words_for(alloc, form)?;
    add_flags(alloc, made, form.flags)
}

/// What `clap` is given for a command.
pub fn command_for<'a>(alloc: Global, form: &Form) -> Result<ClapCommand<'a>, AllocError>
    ensures { IfOk result (λ c. app_of c ≡ app_for form.now) }
{
    let made = flags_for(alloc, form)?;
    add_option(alloc, made, form.option)
}
