//! The commands that stand, and what may follow each command word.
ghost use Rattle.std.specs.Prelude.{◌≡◌, map, false, true};
ghost use Rattle.dk_request.specs.Commands.{synopsis, synopsis_of, command_named, usage_text};

use std::marker::Model;

/// A command that stands.
#[derive(Clone, Copy)]
pub enum Command {
    Run,
    Certify,
    Gen,
    Ledger,
    Migrate,
    Asm,
    Dis,
    Audit,
    Plan,
    Harmonise,
    Inspect,
}

/// In the order of the usage line.
const COMMANDS: [Command; 11] = [
    Command::Run,
    Command::Certify,
    Command::Gen,
    Command::Ledger,
    Command::Migrate,
    Command::Asm,
    Command::Dis,
    Command::Audit,
    Command::Plan,
    Command::Harmonise,
    Command::Inspect,
];

/// What may follow a command word: the arguments of these names, all required, of which the last
/// may stand for 1 to 32 words, and at any place at most one `--report`.
#[derive(Drop)]
pub struct Synopsis {
    pub word: &'static str,
    pub names: &'static [&'static str],
    pub repeats: bool,
    pub reports: bool,
}

impl Model for Synopsis {
    ghost use Rattle.std.specs.Prelude.{map};
    ghost use Rattle.dk_request.specs.Synopsis.{Synopsis};

    ghost Value = { Synopsis };

    ghost view = { λ s. record {
      word = s.word.now;
      names = map (λ name. name.now) s.names.now;
      repeats = s.repeats;
      reports = s.reports;
    } };
}

/// A command of these arguments alone.
fn plain(word: &'static str, names: &'static [&'static str]) -> Synopsis
    ensures { result ≡ synopsis word.now (map (λ name. name.now) names.now) false false }
{
    Synopsis {
        word,
        names,
        repeats: false,
        reports: false,
    }
}

/// A command with the flag `--report`.
fn reporting(word: &'static str, names: &'static [&'static str]) -> Synopsis
    ensures { result ≡ synopsis word.now (map (λ name. name.now) names.now) false true }
{
    Synopsis {
        reports: true,
        ..plain(word, names)
    }
}

/// A command whose last argument stands for several words.
fn repeating(word: &'static str, names: &'static [&'static str]) -> Synopsis
    ensures { result ≡ synopsis word.now (map (λ name. name.now) names.now) true false }
{
    Synopsis {
        repeats: true,
        ..plain(word, names)
    }
}

impl Command {
    /// The command's line of the table.
    pub fn synopsis(self) -> Synopsis
        ensures { result ≡ synopsis_of self }
    {
        match self {
            Command::Run => reporting("run", &["FILE", "TICKS"]),
            Command::Certify => plain("certify", &["FILE"]),
            Command::Gen => plain("gen", &["NUMBER", "TICKS"]),
            Command::Ledger => reporting("ledger", &["FILE"]),
            Command::Migrate => plain("migrate", &["FILE"]),
            Command::Asm => plain("asm", &["FILE"]),
            Command::Dis => plain("dis", &["FILE"]),
            Command::Audit => plain("audit", &["FILE", "LEDGER"]),
            Command::Plan => plain("plan", &["FILE", "NAME"]),
            Command::Harmonise => repeating("harmonise", &["LO", "HI", "ASK"]),
            Command::Inspect => plain("inspect", &["FILE", "TICK"]),
        }
    }

    /// The command of this word.
    #[tactic(auto, unfolding(crate::specs::Commands::command_named))]
    pub fn named(word: &str) -> Option<Command>
        ensures { result ≡ command_named word.now }
    {
        COMMANDS
            .iter()
            .copied()
            .find(|command| command.synopsis().word == word)
    }
}

/// The usage line, which words get that are no command.
pub fn usage() -> &'static str
    ensures { result.now ≡ usage_text }
{
    "usage: deosk run FILE TICKS [--report] | certify FILE | gen NUMBER TICKS | ledger FILE [--report] | migrate FILE | asm FILE | dis FILE | audit FILE LEDGER | plan FILE NAME | harmonise LO HI ASK... | inspect FILE TICK\n"
}
