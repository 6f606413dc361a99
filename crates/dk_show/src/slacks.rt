//! How much slack a configuration promises, and whether it can promise these allotments.
ghost use Rattle.std.specs.Prelude.{[], ◌≡◌, ◌≢◌, ◌&&◌, ◌^◌, ◌<◌, find, length, map, option_map, IfOk, IfErr, IfSome, MatchResult, None, Some};
ghost use Rattle.std.specs.List.{list_any};
ghost use Rattle.std.specs.Str.{bytes_eq};
ghost use Rattle.dk_config.specs.declared.TheConstants.{MAX_CONFIG_BYTES};
ghost use Rattle.dk_config.specs.Checked.{BreaksNoRule, IsAccepted};
ghost use Rattle.show_slack.specs.Allotted.{AreAllotments};
ghost use Rattle.show_slack.specs.Slack.{IsSlack};
ghost use Rattle.dk_show.specs.Answers.{IsEnd};
ghost use Rattle.dk_show.specs.Asking.{Asks, handed_out};
ghost use Rattle.dk_show.specs.Leaves.{Reads};
ghost use Rattle.dk_show.specs.Loading.{IsOf, certified_at};
ghost use Rattle.dk_show.specs.Slacks.{IsOfAllotments, IsOfFit, IsOfSlack, denied_text, is_denied, is_stranger, slack_end, slack_form, ticks_by, ticks_of, unfit_text};
ghost use Rattle.dk_show.specs.Works.{ComesTo, IsMade, IsWhole};

use crate::loading::certified_at;
use crate::work::Work;
use crate::{Refusal, Status};
use dk_certify::{Certified, Overload};
use dk_config::{Config, Layout, NoMemory, ProcessRow};
use dk_config_report::Page;
use dk_outside::Depot;
use dk_show_request::{Allotment, SlackRequest, shown};
use show_rows::Form;
use show_slack::{allotted, slack};
use std::alloc::Global;

/// The layout of a configuration that breaks no rule and is accepted.
#[tactic(auto, using(crate::proofs::Accepting::no_fails, crate::proofs::Accepting::no_rule))]
fn certified_layout(config: Config) -> Result<Certified, Refusal>
    requires unbroken { BreaksNoRule config }
    requires accepted { IsAccepted config }
    ensures { MatchResult result (λ certified. certified ≡ config) (λ e. ⊥) }
{
    let layout = match Layout::of(config) {
        Ok(layout) => layout,
        Err(fault) => return Err(Refusal::Rule(fault)),
    };
    match Certified::of(layout) {
        Ok(certified) => Ok(certified),
        Err(
            Overload {
                level,
                needs,
                window,
            },
        ) => Err(Refusal::Uncertified {
            level,
            needs,
            window,
        }),
    }
}

fn slack_form(as_csv: bool) -> Form
    ensures { result ≡ slack_form as_csv }
{
    if as_csv { Form::Record } else { Form::Line }
}

/// How the call ends.
fn slack_end(hold: bool) -> Status
    ensures is { result ≡ slack_end hold }
    ensures ends { IsEnd result }
{
    if hold { Status::Done } else { Status::Refused }
}

fn has_name(rows: &[ProcessRow], name: &str) -> bool
    ensures { result ≡ list_any (λ row. bytes_eq name.now row.name) rows.now }
{
    rows.iter().any(|row| name == row.name.as_str())
}

fn has_right(rows: &[ProcessRow], name: &str) -> bool
    ensures { result ≡ list_any (λ row. bytes_eq name.now row.name && row.slack) rows.now }
{
    rows.iter()
        .any(|row| name == row.name.as_str() && row.slack)
}

fn is_stranger(rows: &[ProcessRow], allotment: &Allotment) -> bool
    ensures { result ≡ is_stranger rows.now allotment.now }
{
    !has_name(rows, allotment.name.as_str())
}

fn is_denied(rows: &[ProcessRow], allotment: &Allotment) -> bool
    ensures { result ≡ is_denied rows.now allotment.now }
{
    !has_right(rows, allotment.name.as_str())
}

fn stranger<'a>(rows: &[ProcessRow], allotments: &'a [Allotment]) -> Option<&'a Allotment>
    ensures { option_map (λ a. a.now) result ≡ find (is_stranger rows.now) allotments.entry.now }
{
    allotments
        .iter()
        .find(|allotment| is_stranger(rows, allotment))
}

fn denied<'a>(rows: &[ProcessRow], allotments: &'a [Allotment]) -> Option<&'a Allotment>
    ensures { option_map (λ a. a.now) result ≡ find (is_denied rows.now) allotments.entry.now }
{
    allotments
        .iter()
        .find(|allotment| is_denied(rows, allotment))
}

fn denied_page(
    alloc: Global,
    rows: &[ProcessRow],
    allotments: &[Allotment],
) -> Result<Option<Page>, NoMemory>
    ensures { IfOk result (λ page. page ≡ option_map denied_text (find (is_denied rows.now) allotments.now)) }
{
    match denied(rows, allotments) {
        Some(allotment) => {
            let name = shown(allotment.name.as_str());
            let text = format!(in alloc; "slack: {name} has no right to slack\n")?;
            Ok(Some(Page::new(text)))
        }
        None => Ok(None),
    }
}

/// Why the allotments can't be, where one is to no process, or to one without the right to slack.
fn unfit_page(
    alloc: Global,
    rows: &[ProcessRow],
    allotments: &[Allotment],
) -> Result<Option<Page>, NoMemory>
    ensures { IfOk result (λ page. page ≡ unfit_text rows.now allotments.now) }
{
    match stranger(rows, allotments) {
        Some(allotment) => {
            let name = shown(allotment.name.as_str());
            let text = format!(in alloc; "slack: {name} is no process\n")?;
            Ok(Some(Page::new(text)))
        }
        None => denied_page(alloc, rows, allotments),
    }
}

fn allotment_of<'a>(allotments: &'a [Allotment], name: &str) -> Option<&'a Allotment>
    ensures { option_map (λ a. a.now) result ≡ find (λ a. bytes_eq a.name name.now) allotments.entry.now }
{
    allotments
        .iter()
        .find(|allotment| allotment.name.as_str() == name)
}

/// What the process of this name is allotted.
fn ticks_of(allotments: &[Allotment], name: &str) -> u32
    ensures { result ≡ ticks_of allotments.now name.now }
{
    match allotment_of(allotments, name) {
        Some(allotment) => allotment.ticks,
        None => 0,
    }
}

/// What each process is allotted.
fn ticks_by(
    alloc: Global,
    rows: &[ProcessRow],
    allotments: &[Allotment],
) -> Result<Vec<u32>, NoMemory>
    ensures { IfOk result (λ v. v.items ≡ ticks_by rows.now allotments.now) }
{
    let mut ticks = Vec::new(alloc);
    for row in rows {
        ticks.push(ticks_of(allotments, row.name.as_str()))?;
    }
    Ok(ticks)
}

/// How much is promised.
fn of_shares(alloc: Global, form: Form, certified: &Certified) -> Result<Work, Refusal>
    ensures comes { ComesTo (IsOfAllotments [] form certified.now) result }
    ensures made { IsMade IsWhole result }
{
    Ok(Work::Bytes(slack(alloc, form, certified)?, Status::Done))
}

/// Whether so many ticks for each process can be promised.
fn of_ticks(
    alloc: Global,
    form: Form,
    certified: &Certified,
    ticks: &[u32],
) -> Result<Work, Refusal>
    requires one_each { length ticks.now ≡ length certified.now.processes }
    ensures comes { ComesTo (IsOfFit None form certified.now ticks.now) result }
    ensures made { IsMade IsWhole result }
{
    let told = allotted(alloc, form, certified, ticks)?;
    let ended = slack_end(told.hold);
    Ok(Work::Bytes(told.text, ended))
}

fn rows_of(certified: &Certified) -> &[ProcessRow]
    ensures { result.now ≡ certified.now.processes }
{
    certified.layout().config().processes.as_slice()
}

/// Whether these allotments can be promised, where each is to a process that has the right to slack.
fn of_allotments(
    alloc: Global,
    form: Form,
    certified: &Certified,
    allotments: &[Allotment],
) -> Result<Work, Refusal>
    ensures comes { ComesTo (IsOfFit (unfit_text certified.now.processes allotments.now) form certified.now
        (ticks_by certified.now.processes allotments.now)) result }
    ensures made { IsMade IsWhole result }
{
    let rows = rows_of(certified);
    match unfit_page(alloc, rows, allotments)? {
        Some(page) => Ok(Work::Page(page, Status::Refused)),
        None => {
            let ticks = ticks_by(alloc, rows, allotments)?;
            of_ticks(alloc, form, certified, ticks.as_slice())
        }
    }
}

fn of_slack(alloc: Global, request: &SlackRequest, config: Config) -> Result<Work, Refusal>
    requires unbroken { BreaksNoRule config }
    requires accepted { IsAccepted config }
    ensures comes { ComesTo (IsOfSlack request.now config) result }
    ensures made { IsMade IsWhole result }
{
    let certified = certified_layout(config)?;
    let form = slack_form(request.as_csv);
    match request.allotments.as_slice() {
        [] => of_shares(alloc, form, &certified),
        allotments => of_allotments(alloc, form, &certified, allotments),
    }
}

/// How much slack the configuration in the file of the request's name promises, or whether it can promise the
/// allotments.
#[tactic(auto, using(crate::proofs::Asks::asks_on, crate::proofs::Asks::asks_fails))]
pub(crate) fn slack_work<D: Depot>(
    alloc: Global,
    request: &SlackRequest,
    depot: &mut D,
) -> Result<Work, Refusal>
    requires { (D.seen depot.old).given < 2 ^ 62 }
    ensures comes { IfSome (D.seen depot.old).files (λ at. ComesTo (IsOf (certified_at (at request.now.file)) (IsOfSlack request.now)) result) }
    ensures whole { IfOk result IsWhole }
    ensures asks { Asks (D.seen depot.old).files (λ at. handed_out MAX_CONFIG_BYTES (at request.now.file)) (λ at. at request.now.file ≡ None)
        (D.seen depot.old) (D.seen depot.new) result }
    ensures reads { Reads (D.seen depot.old) (D.seen depot.new) result }
{
    let config = certified_at(alloc, request.file.as_str(), depot)?;
    of_slack(alloc, request, config)
}
