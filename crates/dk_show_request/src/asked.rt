//! What a command is asked by the words of its arguments.
ghost use Rattle.std.specs.Prelude.{◌≡◌, [], codes, IfOk, map, option_map, unwrap_or};
ghost use Rattle.dk_show_request.specs.Clap.{has};
ghost use Rattle.dk_show_request.specs.Numbers.{ticks_in};
ghost use Rattle.dk_show_request.specs.Meaning.{asked, budgets_by, budgets_form_in, budgets_of, chain_by, chain_of, chain_with, check_by, check_form_in, drawing_by, faults_by, help_by, holds_by, impact_by, percent_by, picture_by, range_by, range_in, range_of, repeats_by, repeats_of, replay_by, slack_by, slack_of, slack_with, telling_by, windows_by, windows_form_in};

use crate::allotments::{allotments_of, no_allotment, repeated_name};
use crate::commands::{Command, Drawing, Telling};
use crate::forms::is_no_command;
use crate::given::Given;
use crate::numbers::{percent_in, ticks_in};
use crate::request::{
    BudgetsForm, BudgetsRequest, ChainRequest, ChangeRequest, CheckForm, CheckRequest, Range,
    RangeRequest, ReplayRequest, Request, SlackRequest, TellRequest, WindowsForm,
};
use dk_config::{MAX_PROCESSES, NoMemory, Text};
use std::alloc::Global;

/// A copy of a word.
fn copy_of(alloc: Global, word: &str) -> Result<Text, NoMemory>
    ensures { IfOk result (λ t. t ≡ word.now) }
{
    let copy = String::from_str(alloc, word)?;
    Ok(Text::new(copy))
}

/// A copy of the word, where there is one.
fn copy_if(alloc: Global, word: Option<&str>) -> Result<Option<Text>, NoMemory>
    ensures { IfOk result (λ t. t ≡ option_map (λ w. w.now) word.entry) }
{
    match word {
        Some(word) => Ok(Some(copy_of(alloc, word)?)),
        None => Ok(None),
    }
}

fn copies_of(alloc: Global, words: &[&str]) -> Result<Vec<Text>, NoMemory>
    ensures { IfOk result (λ v. v.items ≡ map (λ w. w.now) words.now) }
{
    let mut copies = Vec::new(alloc);
    for word in words {
        copies.push(copy_of(alloc, word)?)?;
    }
    Ok(copies)
}

/// The range of these words, where they are two ticks, the first below the second.
fn range_of(from: &str, to: &str) -> Option<Option<Range>>
    ensures { result ≡ range_of (ticks_in from.now) (ticks_in to.now) }
{
    let from = ticks_in(from)?;
    let to = ticks_in(to)?;
    if from < to {
        Some(Some(Range { from, to }))
    } else {
        None
    }
}

/// Both ends of the range, the first below the second, or none of them; else nothing.
fn range_by(from: Option<&str>, to: Option<&str>) -> Option<Option<Range>>
    ensures { result ≡ range_by (option_map (λ w. w.now) from.entry) (option_map (λ w. w.now) to.entry) }
{
    match (from, to) {
        (None, None) => Some(None),
        (Some(from), Some(to)) => range_of(from, to),
        _ => None,
    }
}

fn range_in(given: &Given) -> Option<Option<Range>>
    ensures { result ≡ range_in given.now }
{
    range_by(given.word("FROM"), given.word("TO"))
}

fn drawing_by(
    alloc: Global,
    drawing: Drawing,
    ledger: Option<&str>,
    range: Option<Option<Range>>,
) -> Result<Option<Request>, NoMemory>
    ensures { IfOk result (λ r. r ≡ drawing_by drawing (option_map (λ w. w.now) ledger.entry) range) }
{
    match (ledger, range) {
        (Some(ledger), Some(range)) => Ok(Some(Request::Draw(RangeRequest {
            drawing,
            ledger: copy_of(alloc, ledger)?,
            range,
        }))),
        _ => Ok(None),
    }
}

fn picture_by(
    alloc: Global,
    file: Option<&str>,
    ledger: Option<&str>,
    range: Option<Option<Range>>,
) -> Result<Option<Request>, NoMemory>
    ensures { IfOk result (λ r. r ≡ picture_by (option_map (λ w. w.now) file.entry)
        (option_map (λ w. w.now) ledger.entry) range) }
{
    match (ledger, range) {
        (Some(ledger), Some(range)) => Ok(Some(Request::Picture {
            ledger: copy_of(alloc, ledger)?,
            file: copy_if(alloc, file)?,
            range,
        })),
        _ => Ok(None),
    }
}

fn windows_form_in(given: &Given) -> WindowsForm
    ensures { result ≡ windows_form_in given.now }
{
    if given.has("strict") {
        WindowsForm::Strict
    } else if given.has("sparing") {
        WindowsForm::Sparing
    } else if given.has("all") {
        WindowsForm::All
    } else if given.has("tenths") {
        WindowsForm::Tenths
    } else if given.has("csv") {
        WindowsForm::Csv
    } else {
        WindowsForm::Plain
    }
}

fn windows_by(
    alloc: Global,
    form: WindowsForm,
    ledger: Option<&str>,
) -> Result<Option<Request>, NoMemory>
    ensures { IfOk result (λ r. r ≡ windows_by form (option_map (λ w. w.now) ledger.entry)) }
{
    match ledger {
        Some(ledger) => Ok(Some(Request::Windows {
            ledger: copy_of(alloc, ledger)?,
            form,
        })),
        None => Ok(None),
    }
}

fn holds_by(
    alloc: Global,
    ledger: Option<&str>,
    file: Option<&str>,
) -> Result<Option<Request>, NoMemory>
    ensures { IfOk result (λ r. r ≡ holds_by (option_map (λ w. w.now) ledger.entry) (option_map (λ w. w.now) file.entry)) }
{
    match ledger {
        Some(ledger) => Ok(Some(Request::Holds {
            ledger: copy_of(alloc, ledger)?,
            file: copy_if(alloc, file)?,
        })),
        None => Ok(None),
    }
}

fn faults_by(alloc: Global, file: Option<&str>) -> Result<Option<Request>, NoMemory>
    ensures { IfOk result (λ r. r ≡ faults_by (option_map (λ w. w.now) file.entry)) }
{
    match file {
        Some(file) => Ok(Some(Request::Faults(copy_of(alloc, file)?))),
        None => Ok(None),
    }
}

fn telling_by(
    alloc: Global,
    telling: Telling,
    as_csv: bool,
    file: Option<&str>,
) -> Result<Option<Request>, NoMemory>
    ensures { IfOk result (λ r. r ≡ telling_by telling as_csv (option_map (λ w. w.now) file.entry)) }
{
    match file {
        Some(file) => Ok(Some(Request::Tell(TellRequest {
            telling,
            file: copy_of(alloc, file)?,
            as_csv,
        }))),
        None => Ok(None),
    }
}

fn slack_with(alloc: Global, as_csv: bool, file: &str, words: &[&str]) -> Result<Request, NoMemory>
    ensures { IfOk result (λ r. r ≡ slack_with as_csv file.now (map (λ w. w.now) words.now)) }
{
    Ok(Request::Slack(SlackRequest {
        file: copy_of(alloc, file)?,
        allotments: allotments_of(alloc, words)?,
        as_csv,
    }))
}

/// Where each of the words is an allotment, and no name stands twice.
fn slack_of(
    alloc: Global,
    as_csv: bool,
    file: &str,
    words: &[&str],
) -> Result<Option<Request>, NoMemory>
    ensures { IfOk result (λ r. r ≡ slack_of as_csv file.now (map (λ w. w.now) words.now)) }
{
    if no_allotment(words).is_some() || repeated_name(words).is_some() {
        return Ok(None);
    }
    Ok(Some(slack_with(alloc, as_csv, file, words)?))
}

fn slack_by(
    alloc: Global,
    as_csv: bool,
    words: Option<&[&str]>,
    file: Option<&str>,
) -> Result<Option<Request>, NoMemory>
    ensures { IfOk result (λ r. r ≡ slack_by as_csv (option_map (λ ws. map (λ w. w.now) ws.now) words.entry)
        (option_map (λ w. w.now) file.entry)) }
{
    match (file, words) {
        (None, _) => Ok(None),
        (Some(file), Some(words)) => slack_of(alloc, as_csv, file, words),
        (Some(file), None) => slack_of(alloc, as_csv, file, &[]),
    }
}

/// One process, and up to 31 more.
fn chain_of(alloc: Global, file: &str, names: &[&str]) -> Result<Option<ChainRequest>, NoMemory>
    ensures { IfOk result (λ r. r ≡ chain_of file.now (map (λ w. w.now) names.now)) }
{
    let [first, rest @ ..] = names else {
        return Ok(None);
    };
    if rest.len() >= MAX_PROCESSES {
        return Ok(None);
    }
    Ok(Some(ChainRequest {
        file: copy_of(alloc, file)?,
        first: copy_of(alloc, first)?,
        rest: copies_of(alloc, rest)?,
    }))
}

/// Of the ledger too, where one is named.
fn chain_with(alloc: Global, chain: ChainRequest, ledger: Option<&str>) -> Result<Request, NoMemory>
    ensures { IfOk result (λ r. r ≡ chain_with chain (option_map (λ w. w.now) ledger.entry)) }
{
    match ledger {
        None => Ok(Request::Chain(chain)),
        Some(ledger) => Ok(Request::Reactions {
            chain,
            ledger: copy_of(alloc, ledger)?,
        }),
    }
}

fn chain_by(
    alloc: Global,
    ledger: Option<&str>,
    file: Option<&str>,
    names: Option<&[&str]>,
) -> Result<Option<Request>, NoMemory>
    ensures { IfOk result (λ r. r ≡ chain_by (option_map (λ w. w.now) ledger.entry) (option_map (λ w. w.now) file.entry)
        (option_map (λ ws. map (λ w. w.now) ws.now) names.entry)) }
{
    let (Some(file), Some(names)) = (file, names) else {
        return Ok(None);
    };
    match chain_of(alloc, file, names)? {
        Some(chain) => Ok(Some(chain_with(alloc, chain, ledger)?)),
        None => Ok(None),
    }
}

fn names_of(alloc: Global, names: Option<&[&str]>) -> Result<Vec<Text>, NoMemory>
    ensures { IfOk result (λ v. v.items ≡ unwrap_or (option_map (λ ws. map (λ w. w.now) ws.now) names.entry) []) }
{
    match names {
        Some(names) => copies_of(alloc, names),
        None => Ok(Vec::new(alloc)),
    }
}

fn impact_by(
    alloc: Global,
    as_csv: bool,
    names: Option<&[&str]>,
    old: Option<&str>,
    new: Option<&str>,
) -> Result<Option<Request>, NoMemory>
    ensures { IfOk result (λ r. r ≡ impact_by as_csv (option_map (λ ws. map (λ w. w.now) ws.now) names.entry)
        (option_map (λ w. w.now) old.entry) (option_map (λ w. w.now) new.entry)) }
{
    match (old, new) {
        (Some(old), Some(new)) => Ok(Some(Request::Impact(ChangeRequest {
            old: copy_of(alloc, old)?,
            new: copy_of(alloc, new)?,
            names: names_of(alloc, names)?,
            as_csv,
        }))),
        _ => Ok(None),
    }
}

/// The request for what repeats in the run of this file, where there is a number of ticks.
fn repeats_of(alloc: Global, file: &str, ticks: Option<u32>) -> Result<Option<Request>, NoMemory>
    ensures { IfOk result (λ r. r ≡ repeats_of file.now ticks) }
{
    match ticks {
        Some(ticks) => Ok(Some(Request::Repeats {
            file: copy_of(alloc, file)?,
            ticks,
        })),
        None => Ok(None),
    }
}

fn repeats_by(
    alloc: Global,
    file: Option<&str>,
    ticks: Option<&str>,
) -> Result<Option<Request>, NoMemory>
    ensures { IfOk result (λ r. r ≡ repeats_by (option_map (λ w. w.now) file.entry) (option_map (λ w. w.now) ticks.entry)) }
{
    match (file, ticks) {
        (Some(file), Some(ticks)) => repeats_of(alloc, file, ticks_in(ticks)),
        _ => Ok(None),
    }
}

fn check_form_in(given: &Given) -> CheckForm
    ensures { result ≡ check_form_in given.now }
{
    if given.has("csv") {
        CheckForm::Csv
    } else if given.has("junit") {
        CheckForm::Junit
    } else {
        CheckForm::Plain
    }
}

fn check_by(
    alloc: Global,
    form: CheckForm,
    ledger: Option<&str>,
    file: Option<&str>,
    needs: Option<&str>,
) -> Result<Option<Request>, NoMemory>
    ensures { IfOk result (λ r. r ≡ check_by form (option_map (λ w. w.now) ledger.entry)
        (option_map (λ w. w.now) file.entry) (option_map (λ w. w.now) needs.entry)) }
{
    match (file, needs) {
        (Some(file), Some(needs)) => Ok(Some(Request::Check(CheckRequest {
            file: copy_of(alloc, file)?,
            needs: copy_of(alloc, needs)?,
            ledger: copy_if(alloc, ledger)?,
            form,
        }))),
        _ => Ok(None),
    }
}

fn replay_by(
    alloc: Global,
    profile: Option<&str>,
    name: Option<&str>,
    file: Option<&str>,
) -> Result<Option<Request>, NoMemory>
    ensures { IfOk result (λ r. r ≡ replay_by (option_map (λ w. w.now) profile.entry)
        (option_map (λ w. w.now) name.entry) (option_map (λ w. w.now) file.entry)) }
{
    let (Some(profile), Some(name)) = (profile, name) else {
        return Ok(None);
    };
    match file {
        Some(file) => Ok(Some(Request::Replay(ReplayRequest {
            profile: copy_of(alloc, profile)?,
            name: copy_of(alloc, name)?,
            file: copy_of(alloc, file)?,
        }))),
        None => Ok(None),
    }
}

fn budgets_form_in(given: &Given) -> BudgetsForm
    ensures { result ≡ budgets_form_in given.now }
{
    if given.has("csv") {
        BudgetsForm::Csv
    } else if given.has("toml") {
        BudgetsForm::Toml
    } else {
        BudgetsForm::Plain
    }
}

/// The reserve, 0 where none is named, and nothing where it is no number of percent.
fn percent_by(word: Option<&str>) -> Option<u32>
    ensures { result ≡ percent_by (option_map (λ w. w.now) word.entry) }
{
    match word {
        Some(word) => percent_in(word),
        None => Some(0),
    }
}

fn budgets_of(
    alloc: Global,
    form: BudgetsForm,
    percent: u32,
    times: Option<&str>,
    file: Option<&str>,
) -> Result<Option<Request>, NoMemory>
    ensures { IfOk result (λ r. r ≡ budgets_of form percent (option_map (λ w. w.now) times.entry) (option_map (λ w. w.now) file.entry)) }
{
    match (times, file) {
        (Some(times), Some(file)) => Ok(Some(Request::Budgets(BudgetsRequest {
            times: copy_of(alloc, times)?,
            file: copy_of(alloc, file)?,
            percent,
            form,
        }))),
        _ => Ok(None),
    }
}

fn budgets_by(
    alloc: Global,
    form: BudgetsForm,
    percent: Option<u32>,
    times: Option<&str>,
    file: Option<&str>,
) -> Result<Option<Request>, NoMemory>
    ensures { IfOk result (λ r. r ≡ budgets_by form percent (option_map (λ w. w.now) times.entry) (option_map (λ w. w.now) file.entry)) }
{
    match percent {
        Some(percent) => budgets_of(alloc, form, percent, times, file),
        None => Ok(None),
    }
}

/// Of all commands, or of the one of this name, where there is one.
fn help_by(alloc: Global, name: Option<&str>) -> Result<Option<Request>, NoMemory>
    ensures { IfOk result (λ r. r ≡ help_by (option_map (λ w. w.now) name.entry)) }
{
    match name {
        Some(name) if is_no_command(name) => Ok(None),
        name => Ok(Some(Request::Help(copy_if(alloc, name)?))),
    }
}

/// What a command is asked by the words of its arguments.
pub fn asked(alloc: Global, command: Command, given: &Given) -> Result<Option<Request>, NoMemory>
    ensures { IfOk result (λ r. r ≡ asked command given.now) }
{
    match command {
        Command::Draw(drawing) => {
            drawing_by(alloc, drawing, given.word("LEDGER"), range_in(given))
        }
        Command::Picture => picture_by(
            alloc,
            given.word("config"),
            given.word("LEDGER"),
            range_in(given),
        ),
        Command::Windows => windows_by(alloc, windows_form_in(given), given.word("LEDGER")),
        Command::Holds => holds_by(alloc, given.word("LEDGER"), given.word("FILE")),
        Command::Faults => faults_by(alloc, given.word("FILE")),
        Command::Tell(telling) => {
            telling_by(alloc, telling, given.has("csv"), given.word("FILE"))
        }
        Command::Slack => slack_by(
            alloc,
            given.has("csv"),
            given.words("NAME=TICKS"),
            given.word("FILE"),
        ),
        Command::Chain => chain_by(
            alloc,
            given.word("ledger"),
            given.word("FILE"),
            given.words("NAME"),
        ),
        Command::Impact => impact_by(
            alloc,
            given.has("csv"),
            given.words("NAME"),
            given.word("OLD"),
            given.word("NEW"),
        ),
        Command::Repeats => repeats_by(alloc, given.word("FILE"), given.word("TICKS")),
        Command::Check => check_by(
            alloc,
            check_form_in(given),
            given.word("LEDGER"),
            given.word("FILE"),
            given.word("NEEDS"),
        ),
        Command::Replay => replay_by(
            alloc,
            given.word("PROFILE"),
            given.word("NAME"),
            given.word("FILE"),
        ),
        Command::Budgets => budgets_by(
            alloc,
            budgets_form_in(given),
            percent_by(given.word("reserve")),
            given.word("TIMES"),
            given.word("FILE"),
        ),
        Command::Help => help_by(alloc, given.word("COMMAND")),
        Command::Version => Ok(Some(Request::Version)),
    }
}
