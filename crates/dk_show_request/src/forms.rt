//! What may stand behind a command word, by the table of commands.
ghost use Rattle.std.specs.Prelude.{◌≡◌, find, IfSome, map, true};
ghost use Rattle.std.specs.Str.{bytes_eq};
ghost use Rattle.clap.specs.Words.{is_simple_and_free};
ghost use Rattle.dk_show_request.specs.Clap.{app_for};
ghost use Rattle.dk_show_request.specs.Forms.{form_lent, form_named, is_no_command, meant, takes_several, takes_ticks};

use crate::commands::Command;
use crate::table::{COMMANDS, Kind, Row};
use std::marker::Model;

/// A row of the table, with names for its parts.
#[derive(Drop)]
pub struct Form {
    pub command: Command,
    pub word: &'static str,
    /// The names of the arguments that must stand, in order.
    pub needed: &'static [&'static str],
    /// Of those behind them that all stand or none.
    pub optional: &'static [&'static str],
    /// What stands for those behind the first.
    pub kind: Kind,
    /// The names of the flags, of which one at most may stand.
    pub flags: &'static [&'static str],
    /// The name of the option, if there is one, else nothing.
    pub option: &'static str,
    /// That of the word behind it.
    pub value: &'static str,
    /// What the command is for.
    pub about: &'static str,
    /// A call of it.
    pub example: &'static str,
}

impl Model for Form {
    ghost use Rattle.std.specs.Prelude.{map};
    ghost use Rattle.dk_show_request.specs.Forms.{Form};

    ghost Value = { Form };

    ghost view = { λ f. record {
      command = f.command;
      word = f.word.now;
      needed = map (λ w. w.now) f.needed.now;
      optional = map (λ w. w.now) f.optional.now;
      kind = f.kind;
      flags = map (λ w. w.now) f.flags.now;
      option = f.option.now;
      value = f.value.now;
      about = f.about.now;
      example = f.example.now;
    } };
}

impl Kind {
    /// Whether the last argument stands for one word or several.
    pub fn takes_several(self) -> bool
        ensures { result ≡ takes_several self }
    {
        matches!(self, Kind::Names | Kind::Processes | Kind::Allotments)
    }

    /// Whether the arguments behind the first are ticks.
    pub fn takes_ticks(self) -> bool
        ensures { result ≡ takes_ticks self }
    {
        matches!(self, Kind::Ticks)
    }
}

/// The parts of a row by their names.
pub fn form_of(row: &Row) -> Form
    ensures { result ≡ form_lent row.now }
{
    let (command, word, (needed, optional, kind), (flags, (option, value)), (about, example)) =
        *row;
    Form {
        command,
        word,
        needed,
        optional,
        kind,
        flags,
        option,
        value,
        about,
        example,
    }
}

/// The row of this word.
fn found(rows: &[Row], word: &str) -> Option<Form>
    ensures { result ≡ find (λ f. bytes_eq f.word word.now) (map form_lent rows.now) }
{
    for row in rows {
        let form = form_of(row);
        if form.word == word {
            return Some(form);
        }
    }
    None
}

/// The word of a command, for one of the flags that ask for help the word `help`.
fn meant(word: &str) -> &str
    ensures { result.now ≡ meant word.entry.now }
{
    match word {
        "--help" | "-h" => "help",
        word => word,
    }
}

/// The command of this word.
#[tactic(auto, unfolding(crate::specs::Forms::form_named))]
pub fn form_named(word: &str) -> Option<Form>
    ensures is { result ≡ form_named word.now }
    ensures simple { IfSome result (λ f. is_simple_and_free (app_for f) ≡ true) }
{
    found(COMMANDS, meant(word))
}

/// Whether no command has this word.
pub fn is_no_command(word: &str) -> bool
    ensures { result ≡ is_no_command word.now }
{
    form_named(word).is_none()
}
