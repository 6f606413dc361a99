//! What the words ask for.
ghost use Rattle.std.specs.Prelude.{◌≡◌, true, IfOk, IfSome, Some, drop, map, string_bytes};
ghost use Rattle.dk_request.specs.Synopsis.{are_taken};
ghost use Rattle.dk_request.specs.Commands.{synopsis_of};
ghost use Rattle.dk_request.specs.Meaning.{HasFewTicks, HasFitAsks, command_by, command_of, request_of, harmonise_by, word_at, meaning};

use crate::arguments::{text_at, ticks_in, word_at, words_behind};
use crate::asks::{Asks, are_fit, asks_in, bound_in};
use crate::clap_words::{Given, read_words};
use crate::commands::Command;
use crate::output::{Output, output_of};
use crate::words::{are_taken, number_in};
use dk_config::{NoMemory, Text};
use dk_plan::Ask;
use std::alloc::Global;

/// What a command is asked to do. Files are named as the words name them.
#[derive(Drop)]
pub enum Request {
    Run {
        file: Text,
        ticks: u32,
        output: Output,
    },
    Certify {
        file: Text,
    },
    Gen {
        number: u64,
        ticks: u32,
    },
    Ledger {
        file: Text,
        output: Output,
    },
    Migrate {
        file: Text,
    },
    Asm {
        file: Text,
    },
    Dis {
        file: Text,
    },
    Audit {
        file: Text,
        ledger: Text,
    },
    Plan {
        file: Text,
        name: Text,
    },
    Harmonise {
        lo: u32,
        hi: u32,
        asks: Asks,
    },
    Inspect {
        file: Text,
        tick: u32,
    },
}

/// The command, where its synopsis takes the words after the command word.
fn taken_by(command: Command, words: &[String]) -> bool
    ensures { result ≡ are_taken (synopsis_of command) (map string_bytes words.now) }
{
    are_taken(&command.synopsis(), words)
}

/// The command of this word, where it takes the words after it.
#[tactic(auto, unfolding(crate::specs::Meaning::command_by))]
fn command_by(word: &str, words: &[String]) -> Option<Command>
    ensures value { result ≡ command_by word.now (map string_bytes words.now) }
    ensures taken { IfSome result (λ c. are_taken (synopsis_of c) (map string_bytes words.now) ≡ true) }
{
    match Command::named(word) {
        Some(command) if taken_by(command, words) => Some(command),
        _ => None,
    }
}

/// The words from this place on.
fn words_from(words: &[String], place: usize) -> &[String]
    ensures { map string_bytes result.now ≡ drop place (map string_bytes words.entry.now) }
{
    if place <= words.len() {
        &words[place..]
    } else {
        &[]
    }
}

/// The second word, where there is one.
fn second_word(words: &[String]) -> &str
    ensures { result.now ≡ word_at (map string_bytes words.entry.now) 1 }
{
    match words.get(1) {
        Some(word) => word.as_str(),
        None => "",
    }
}

/// The second word's command, where it takes the words after it.
fn command_in(words: &[String]) -> Option<Command>
    ensures value { result ≡ command_of (map string_bytes words.now) }
    ensures taken { IfSome result (λ c. are_taken (synopsis_of c) (drop 2 (map string_bytes words.now)) ≡ true) }
{
    command_by(second_word(words), words_from(words, 2))
}

fn run_of(file: Text, given: &Given) -> Option<Request>
    requires { file ≡ word_at (map (λ w. w.now) given.now.words.items) 0 }
    ensures { result ≡ request_of Command.Run (map (λ w. w.now) given.now.words.items) given.now.report }
{
    match ticks_in(word_at(given, 1)) {
        Some(ticks) => Some(Request::Run {
            file,
            ticks,
            output: output_of(given.report),
        }),
        None => None,
    }
}

fn inspect_of(file: Text, given: &Given) -> Option<Request>
    requires { file ≡ word_at (map (λ w. w.now) given.now.words.items) 0 }
    ensures { result ≡ request_of Command.Inspect (map (λ w. w.now) given.now.words.items) given.now.report }
{
    match ticks_in(word_at(given, 1)) {
        Some(tick) => Some(Request::Inspect { file, tick }),
        None => None,
    }
}

fn gen_of(given: &Given) -> Option<Request>
    ensures { result ≡ request_of Command.Gen (map (λ w. w.now) given.now.words.items) given.now.report }
{
    Some(Request::Gen {
        number: number_in(0, u64::MAX, word_at(given, 0))?,
        ticks: ticks_in(word_at(given, 1))?,
    })
}

/// What `harmonise` is asked, where the bounds and the asks fit each other.
fn fitting(lo: u32, hi: u32, asks: Vec<Ask>) -> Option<Request>
    ensures { result ≡ harmonise_by (Some lo) (Some hi) (Some asks.items) }
{
    if lo <= hi && are_fit(hi, &asks) {
        Some(Request::Harmonise {
            lo,
            hi,
            asks: Asks::new(asks),
        })
    } else {
        None
    }
}

fn harmonise_of(alloc: Global, given: &Given) -> Result<Option<Request>, NoMemory>
    ensures { IfOk result (λ r. r
        ≡ request_of Command.Harmonise (map (λ w. w.now) given.now.words.items) given.now.report) }
{
    let Some(lo) = bound_in(word_at(given, 0)) else {
        return Ok(None);
    };
    let Some(hi) = bound_in(word_at(given, 1)) else {
        return Ok(None);
    };
    let Some(asks) = asks_in(alloc, words_behind(given, 2))? else {
        return Ok(None);
    };
    Ok(fitting(lo, hi, asks))
}

/// What the command is asked, by what was given to it. The first word names a file for all but two.
fn request_of(alloc: Global, command: Command, given: &Given) -> Result<Option<Request>, NoMemory>
    ensures { IfOk result (λ r. r
        ≡ request_of command (map (λ w. w.now) given.now.words.items) given.now.report) }
{
    let file = text_at(alloc, given, 0)?;
    match command {
        Command::Run => Ok(run_of(file, given)),
        Command::Certify => Ok(Some(Request::Certify { file })),
        Command::Gen => Ok(gen_of(given)),
        Command::Ledger => Ok(Some(Request::Ledger {
            file,
            output: output_of(given.report),
        })),
        Command::Migrate => Ok(Some(Request::Migrate { file })),
        Command::Asm => Ok(Some(Request::Asm { file })),
        Command::Dis => Ok(Some(Request::Dis { file })),
        Command::Audit => Ok(Some(Request::Audit {
            file,
            ledger: text_at(alloc, given, 1)?,
        })),
        Command::Plan => Ok(Some(Request::Plan {
            file,
            name: text_at(alloc, given, 1)?,
        })),
        Command::Harmonise => harmonise_of(alloc, given),
        Command::Inspect => Ok(inspect_of(file, given)),
    }
}

/// What the words ask for, where they are a command.
#[tactic(auto, unfolding(crate::specs::Meaning::meaning))]
pub fn request_in(alloc: Global, words: &[String]) -> Result<Option<Request>, NoMemory>
    ensures asked { IfOk result (λ r. r ≡ meaning (map string_bytes words.now)) }
    ensures few { IfOk result (λ r. IfSome r HasFewTicks) }
    ensures fit { IfOk result (λ r. IfSome r HasFitAsks) }
{
    let Some(command) = command_in(words) else {
        return Ok(None);
    };
    let given = read_words(alloc, &command.synopsis(), words_from(words, 1))?;
    request_of(alloc, command, &given)
}
