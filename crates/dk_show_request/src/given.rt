//! The words of a command, read by `clap`.
ghost use Rattle.std.specs.Prelude.{◌≡◌, map, option_map};
ghost use Rattle.clap.specs.Words.{all_of, first_of};
ghost use Rattle.dk_show_request.specs.Clap.{has, is_true};

use clap::ArgMatches;
use std::marker::Model;

/// Which words stand for each argument, flag and option. It is seen as the rows of these.
#[derive(Drop)]
pub struct Given<'a> {
    pub matches: ArgMatches<'a>,
}

impl<'a> Model for Given<'a> {
    ghost use Rattle.std.specs.Prelude.{List};
    ghost use Rattle.clap.specs.Words.{Row, found_of, rows_of};

    ghost Value = { List Row };

    ghost view = { λ g. rows_of (found_of g.matches) };
}

fn is_true(value: Option<&str>) -> bool
    ensures { result ≡ is_true (option_map (λ w. w.now) value.entry) }
{
    match value {
        Some(text) => text == "true",
        None => false,
    }
}

impl<'a> Given<'a> {
    /// The word that stands for the argument or the option of this name.
    pub fn word(&self, name: &str) -> Option<&'a str>
        ensures { option_map (λ w. w.now) result ≡ first_of name.now self.now }
    {
        self.matches.get_str(name)
    }

    /// The words that stand for the argument of this name.
    pub fn words(&self, name: &str) -> Option<&[&'a str]>
        ensures { option_map (λ ws. map (λ w. w.now) ws.now) result ≡ all_of name.now self.now }
    {
        self.matches.get_raw(name)
    }

    /// Whether the flag of this name stands.
    pub fn has(&self, name: &str) -> bool
        ensures { result ≡ has name.now self.now }
    {
        // The text of a flag is "true" or "false".
        is_true(self.word(name))
    }
}
