//! The usage line, and a command as it stands there.
ghost use Rattle.std.specs.Prelude.{◌≡◌, ◌++◌, codes, IfOk, OnOk, map, string_bytes};
ghost use Rattle.dk_show_request.specs.Forms.{form_lent};
ghost use Rattle.dk_show_request.specs.Usage.{arguments_in, bar, call_text, dots, flags_in, flags_text, option_in, spaced, usage_text, usages};
ghost use Rattle.dk_show_request.specs.Words.{dashed};

use crate::forms::{Form, form_of};
use crate::table::{COMMANDS, Row};
use std::alloc::{AllocError, Global};

/// Adds each name behind a space.
fn add_spaced(text: &mut String, names: &[&str]) -> Result<(), AllocError>
    ensures { OnOk result (string_bytes text.new ≡ string_bytes text.old ++ spaced (map (λ w. w.now) names.now)) }
{
    for name in names {
        text.push_str(" ")?;
        text.push_str(name)?;
    }
    Ok(())
}

fn dots(repeats: bool) -> &'static str
    ensures { result.now ≡ dots repeats }
{
    if repeats { "..." } else { "" }
}

/// Adds the names of the arguments, those that may stand in brackets.
fn add_arguments(
    text: &mut String,
    needed: &[&str],
    optional: &[&str],
    repeats: bool,
) -> Result<(), AllocError>
    ensures { OnOk result (string_bytes text.new ≡ string_bytes text.old
        ++ arguments_in (map (λ w. w.now) needed.now) (map (λ w. w.now) optional.now) repeats) }
{
    add_spaced(text, needed)?;
    let [name, more @ ..] = optional else {
        return text.push_str(dots(repeats));
    };
    text.push_str(" [")?;
    text.push_str(name)?;
    add_spaced(text, more)?;
    text.push_str(dots(repeats))?;
    text.push_str("]")
}

/// Adds the flags of these names, parted by bars.
fn add_flags(text: &mut String, names: &[&str]) -> Result<(), AllocError>
    ensures { OnOk result (string_bytes text.new ≡ string_bytes text.old ++ flags_text (map (λ w. w.now) names.now)) }
{
    let [name, more @ ..] = names else {
        return Ok(());
    };
    text.push_str("--")?;
    text.push_str(name)?;
    if more.is_empty() {
        return Ok(());
    }
    text.push_str("|")?;
    add_flags(text, more)
}

/// The flags of these names, parted by bars.
pub fn flags_text(alloc: Global, names: &[&str]) -> Result<String, AllocError>
    ensures { IfOk result (λ s. string_bytes s ≡ flags_text (map (λ w. w.now) names.now)) }
{
    let mut text = String::new(alloc);
    add_flags(&mut text, names)?;
    Ok(text)
}

/// Adds the flags in brackets.
fn add_bracketed(text: &mut String, names: &[&str]) -> Result<(), AllocError>
    ensures { OnOk result (string_bytes text.new ≡ string_bytes text.old ++ flags_in (map (λ w. w.now) names.now)) }
{
    if names.is_empty() {
        return Ok(());
    }
    text.push_str(" [")?;
    add_flags(text, names)?;
    text.push_str("]")
}

/// Adds the option in brackets, if there is one, with the name of its word.
fn add_option(text: &mut String, name: &str, value: &str) -> Result<(), AllocError>
    ensures { OnOk result (string_bytes text.new ≡ string_bytes text.old ++ option_in name.now value.now) }
{
    if name.is_empty() {
        return Ok(());
    }
    text.push_str(" [--")?;
    text.push_str(name)?;
    text.push_str(" ")?;
    text.push_str(value)?;
    text.push_str("]")
}

/// Adds a command with its arguments, its option and its flags.
fn add_call(text: &mut String, form: &Form) -> Result<(), AllocError>
    ensures { OnOk result (string_bytes text.new ≡ string_bytes text.old ++ call_text form.now) }
{
    text.push_str(form.word)?;
    add_arguments(text, form.needed, form.optional, form.kind.takes_several())?;
    add_option(text, form.option, form.value)?;
    add_bracketed(text, form.flags)
}

/// A command with its arguments, its option and its flags.
pub fn call_text(alloc: Global, form: &Form) -> Result<String, AllocError>
    ensures { IfOk result (λ s. string_bytes s ≡ call_text form.now) }
{
    let mut text = String::new(alloc);
    add_call(&mut text, form)?;
    Ok(text)
}

/// What parts a command from those behind it.
fn bar(rows: &[Row]) -> &'static str
    ensures { result.now ≡ bar (map form_lent rows.now) }
{
    if rows.is_empty() { "" } else { " | " }
}

/// Adds the commands of these rows, parted by bars.
fn add_usages(text: &mut String, rows: &[Row]) -> Result<(), AllocError>
    ensures { OnOk result (string_bytes text.new ≡ string_bytes text.old ++ usages (map form_lent rows.now)) }
{
    let [row, more @ ..] = rows else {
        return Ok(());
    };
    add_call(text, &form_of(row))?;
    text.push_str(bar(more))?;
    add_usages(text, more)
}

/// The usage line of these rows.
fn usage_of(alloc: Global, rows: &[Row]) -> Result<String, AllocError>
    ensures { IfOk result (λ s. string_bytes s ≡ codes "usage: deosk-show " ++ (usages (map form_lent rows.now) ++ codes "\n")) }
{
    let mut text = String::from_str(alloc, "usage: deosk-show ")?;
    add_usages(&mut text, rows)?;
    text.push_str("\n")?;
    Ok(text)
}

/// The usage line: each command with its arguments, in the order of the table.
pub fn usage(alloc: Global) -> Result<String, AllocError>
    ensures { IfOk result (λ s. string_bytes s ≡ usage_text) }
{
    usage_of(alloc, COMMANDS)
}
