//! What the words ask for.
ghost use Rattle.std.specs.Prelude.{◌≡◌, IfOk, IfSome, drop, map, string_bytes, true};
ghost use Rattle.clap.specs.Words.{is_simple_and_free};
ghost use Rattle.dk_show_request.specs.Clap.{app_for};
ghost use Rattle.dk_show_request.specs.Meaning.{KeepsLimits, asked, asked_by, meaning};
ghost use Rattle.dk_show_request.specs.Words.{word_at};

use crate::allotments::Allotment;
use crate::arguments::fits;
use crate::asked::asked;
use crate::commands::{Drawing, Telling};
use crate::forms::{Form, form_named};
use crate::reading::read_words;
use dk_config::{NoMemory, Text};
use std::alloc::Global;
use std::marker::Model;

/// The ticks from `from` up to before `to`.
#[derive(Clone, Copy)]
pub struct Range {
    pub from: u32,
    pub to: u32,
}

/// What is drawn of which ledger. Without a range it is all of its ticks.
#[derive(Drop)]
pub struct RangeRequest {
    pub drawing: Drawing,
    pub ledger: Text,
    pub range: Option<Range>,
}

/// What is told of which configuration, as text or as a table.
#[derive(Drop)]
pub struct TellRequest {
    pub telling: Telling,
    pub file: Text,
    pub as_csv: bool,
}

/// How the windows of a ledger are told.
#[derive(Clone, Copy)]
pub enum WindowsForm {
    Plain,
    /// With why it isn't clean, in the status too.
    Strict,
    /// The same, but threads that live on slack may overrun.
    Sparing,
    /// With each window that was overrun.
    All,
    /// In how many windows each main used so many tenths of its budget, as a table.
    Tenths,
    Csv,
}

/// The file of a configuration, and the names of a chain's processes in it: the first, and up to 31 more. It is seen with
/// a list in place of the `Vec`.
#[derive(Drop)]
pub struct ChainRequest {
    pub file: Text,
    pub first: Text,
    pub rest: Vec<Text>,
}

impl Model for ChainRequest {
    ghost use Rattle.dk_show_request.specs.Chain.{ChainAsk};

    ghost Value = { ChainAsk };

    ghost view = { λ r. record { file = r.file; first = r.first; rest = r.rest.items } };
}

/// The file of a configuration, allotments of slack to its processes, and whether it is told as a table. It is seen with a
/// list in place of the `Vec`.
#[derive(Drop)]
pub struct SlackRequest {
    pub file: Text,
    pub allotments: Vec<Allotment>,
    pub as_csv: bool,
}

impl Model for SlackRequest {
    ghost use Rattle.dk_show_request.specs.Slack.{SlackAsk};

    ghost Value = { SlackAsk };

    ghost view = { λ r. record { file = r.file; allotments = r.allotments.items; as_csv = r.as_csv } };
}

/// The files of two configurations, the names of the processes that the change may touch, and whether it is told as a
/// table. It is seen with a list in place of the `Vec`.
#[derive(Drop)]
pub struct ChangeRequest {
    pub old: Text,
    pub new: Text,
    pub names: Vec<Text>,
    pub as_csv: bool,
}

impl Model for ChangeRequest {
    ghost use Rattle.dk_show_request.specs.Change.{ChangeAsk};

    ghost Value = { ChangeAsk };

    ghost view = { λ r. record { old = r.old; new = r.new; names = r.names.items; as_csv = r.as_csv } };
}

/// How needs are told.
#[derive(Clone, Copy)]
pub enum CheckForm {
    Plain,
    Csv,
    /// Test cases in XML, as build servers read them.
    Junit,
}

/// The files of a configuration and of needs, perhaps that of a ledger, and how it is told.
#[derive(Drop)]
pub struct CheckRequest {
    pub file: Text,
    pub needs: Text,
    pub ledger: Option<Text>,
    pub form: CheckForm,
}

/// The file of a profile, the name of the process whose program it becomes, and the file of its configuration.
#[derive(Drop)]
pub struct ReplayRequest {
    pub profile: Text,
    pub name: Text,
    pub file: Text,
}

/// How budgets are told.
#[derive(Clone, Copy)]
pub enum BudgetsForm {
    Plain,
    Csv,
    /// Lines of TOML.
    Toml,
}

/// The files of a table of measured times and of a configuration, the reserve in percent, from 0 to 1,000, and how it is
/// told.
#[derive(Drop)]
pub struct BudgetsRequest {
    pub times: Text,
    pub file: Text,
    pub percent: u32,
    pub form: BudgetsForm,
}

/// What the words ask for.
#[derive(Drop)]
pub enum Request {
    /// A drawing of a ledger.
    Draw(RangeRequest),
    /// A picture of the ledger in the file of this name, perhaps with what a configuration promises; without a range of all of
    /// its ticks.
    Picture {
        ledger: Text,
        file: Option<Text>,
        range: Option<Range>,
    },
    /// What each thread of the ledger in the file of this name did in its windows.
    Windows {
        ledger: Text,
        form: WindowsForm,
    },
    /// How long each mutex was held in the ledger in the file of this name, perhaps beside a configuration.
    Holds {
        ledger: Text,
        file: Option<Text>,
    },
    /// All that is wrong with the document in the file of this name.
    Faults(Text),
    /// What is told of a configuration.
    Tell(TellRequest),
    /// How much slack a configuration promises, or whether it can promise these allotments.
    Slack(SlackRequest),
    /// How long after an event a chain of processes has answered it.
    Chain(ChainRequest),
    /// How long the ledger in the file of this name has a chain take, beside that.
    Reactions {
        chain: ChainRequest,
        ledger: Text,
    },
    /// What a change of the configuration does to each process.
    Impact(ChangeRequest),
    /// What repeats for ever in the run of the configuration in the file of this name, as is found in so many ticks.
    Repeats {
        file: Text,
        ticks: u32,
    },
    /// Which needs a configuration meets.
    Check(CheckRequest),
    /// The source of a program that takes the times of a profile.
    Replay(ReplayRequest),
    /// The budgets that measured times need.
    Budgets(BudgetsRequest),
    /// What the commands are for, or the one of this name.
    Help(Option<Text>),
    /// Which documents the program reads.
    Version,
}

/// What a command is asked by the words from its own on.
fn asked_by(alloc: Global, form: &Form, words: &[String]) -> Result<Option<Request>, NoMemory>
    requires { is_simple_and_free (app_for form.now) ≡ true }
    ensures is { IfOk result (λ r. r ≡ asked_by form.now (map string_bytes words.now)) }
    ensures few { IfOk result (λ r. IfSome r KeepsLimits) }
{
    if !fits(form, words_behind(words)) {
        return Ok(None);
    }
    match read_words(alloc, form, words)? {
        Some(given) => asked(alloc, form.command, &given),
        None => Ok(None),
    }
}

/// The words behind the first.
fn words_behind(words: &[String]) -> &[String]
    ensures { map string_bytes result.now ≡ drop 1 (map string_bytes words.entry.now) }
{
    match words {
        [_, rest @ ..] => rest,
        [] => words,
    }
}

/// The second word, where there is one.
fn second_word(words: &[String]) -> &str
    ensures { result.now ≡ word_at (map string_bytes words.entry.now) 1 }
{
    match words.get(1) {
        Some(word) => word.as_str(),
        None => "",
    }
}

/// What the words ask for, and nothing where they are no command. The first is the program's name and isn't looked at.
/// `Err` is want of memory.
#[tactic(auto, unfolding(crate::specs::Meaning::meaning))]
pub fn meaning(alloc: Global, words: &[String]) -> Result<Option<Request>, NoMemory>
    ensures is { IfOk result (λ r. r ≡ meaning (map string_bytes words.now)) }
    ensures few { IfOk result (λ r. IfSome r KeepsLimits) }
{
    match form_named(second_word(words)) {
        Some(form) => asked_by(alloc, &form, words_behind(words)),
        None => Ok(None),
    }
}
