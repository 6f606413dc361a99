//! The words behind a command word, read by `clap`: what they give, where it finds no fault with them. The first of them is
//! the command word.
ghost use Rattle.std.specs.Prelude.{◌≡◌, IfOk, map, string_bytes, true};
ghost use Rattle.clap.specs.Words.{app_of, is_simple_and_free};
ghost use Rattle.dk_show_request.specs.Clap.{app_for, given_by};

use crate::clap_commands::command_for;
use crate::forms::Form;
use crate::given::Given;
use clap::Command as ClapCommand;
use clap::error::ErrorKind;
use dk_config::NoMemory;
use std::alloc::Global;

/// What the words give to this command of `clap`.
fn read<'a>(command: ClapCommand<'a>, words: &'a [String]) -> Result<Option<Given<'a>>, NoMemory>
    requires simple { is_simple_and_free (app_of command) ≡ true }
    ensures { IfOk result (λ o. o ≡ given_by (app_of command.entry) (map string_bytes words.entry.now)) }
{
    match command.try_get_matches_from(words) {
        Ok(matches) => Ok(Some(Given { matches })),
        Err(error) if error.kind() == ErrorKind::OutOfMemory => Err(NoMemory),
        Err(_) => Ok(None),
    }
}

/// What the words give to a command. The first of them is its word.
pub fn read_words<'a>(
    alloc: Global,
    form: &Form,
    words: &'a [String],
) -> Result<Option<Given<'a>>, NoMemory>
    requires { is_simple_and_free (app_for form.now) ≡ true }
    ensures { IfOk result (λ o. o ≡ given_by (app_for form.now) (map string_bytes words.entry.now)) }
{
    read(command_for(alloc, form)?, words)
}
