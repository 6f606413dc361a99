//! What help tells: of each row of the table, or of one.
ghost use Rattle.std.specs.Prelude.{◌≡◌, ◌++◌, codes, flat_map, IfOk, OnOk, map, option_map, string_bytes};
ghost use Rattle.dk_show_request.specs.Forms.{form_lent};
ghost use Rattle.dk_show_request.specs.Help.{help_of, help_row, help_text, told_of};
ghost use Rattle.dk_show_request.specs.declared.table.TheConstants.{STATUSES, VERSIONS};

use crate::forms::{Form, form_named, form_of};
use crate::table::{COMMANDS, Row, STATUSES, VERSIONS};
use crate::usage_line::call_text;
use dk_config::Text;
use std::alloc::{AllocError, Global};

/// How a command is called, what it is for, and an example.
fn told_of(alloc: Global, call: &str, about: &str, example: &str) -> Result<String, AllocError>
    ensures { IfOk result (λ s. string_bytes s ≡ told_of call.now about.now example.now) }
{
    format!(in alloc; "  {call}\n      {about}\n      example: deosk-show {example}\n")
}

/// What is told of a command.
#[tactic(auto, unfolding(crate::specs::Help::help_row))]
fn row_text(alloc: Global, form: &Form) -> Result<String, AllocError>
    ensures { IfOk result (λ s. string_bytes s ≡ help_row form.now) }
{
    let call = call_text(alloc, form)?;
    told_of(alloc, call.as_str(), form.about, form.example)
}

/// Adds what is told of each of these commands.
fn add_rows(alloc: Global, text: &mut String, rows: &[Row]) -> Result<(), AllocError>
    ensures { OnOk result (string_bytes text.new ≡ string_bytes text.old ++ flat_map help_row (map form_lent rows.now)) }
{
    for row in rows {
        let row = row_text(alloc, &form_of(row))?;
        text.push_str(row.as_str())?;
    }
    Ok(())
}

/// What is told of all these commands.
fn page_of(alloc: Global, rows: &[Row]) -> Result<String, AllocError>
    ensures { IfOk result (λ s. string_bytes s
        ≡ codes "usage: deosk-show COMMAND WORDS\n\ncommands:\n" ++ (flat_map help_row (map form_lent rows.now) ++ (codes "\n" ++ STATUSES.now))) }
{
    let mut text = String::from_str(alloc, "usage: deosk-show COMMAND WORDS\n\ncommands:\n")?;
    add_rows(alloc, &mut text, rows)?;
    text.push_str("\n")?;
    text.push_str(STATUSES)?;
    Ok(text)
}

/// What is told of the command of this name, and nothing where there is none.
fn help_of(alloc: Global, name: &str) -> Result<String, AllocError>
    ensures { IfOk result (λ s. string_bytes s ≡ help_of name.now) }
{
    match form_named(name) {
        Some(form) => row_text(alloc, &form),
        None => Ok(String::new(alloc)),
    }
}

/// The page of help, or what it says of the command of this name.
pub fn help_text(alloc: Global, command: &Option<Text>) -> Result<String, AllocError>
    ensures { IfOk result (λ s. string_bytes s ≡ help_text command.now) }
{
    match command {
        Some(name) => help_of(alloc, name.as_str()),
        None => page_of(alloc, COMMANDS),
    }
}

/// Which documents the program reads.
pub fn versions() -> &'static str
    ensures { result.now ≡ VERSIONS.now }
{
    VERSIONS
}
