//! The budgets that measured times need.
ghost use Rattle.std.specs.Prelude.{◌≡◌, ◌≢◌, ◌+◌, ◌^◌, ◌<◌, ◌≤◌, IfOk, IfErr, IfSome, Err, None, Ok, length};
ghost use Rattle.dk_config.specs.Checked.{BreaksNoRule};
ghost use Rattle.dk_config.specs.declared.TheConstants.{MAX_CONFIG_BYTES};
ghost use Rattle.dk_loader.specs.Reading.{reading};
ghost use Rattle.dk_profile.specs.declared.TheConstants.{MAX_PROFILE_BYTES};
ghost use Rattle.show_budgets.specs.Report.{AreBudgets};
ghost use Rattle.dk_show.specs.Answers.{IsEnd, IsOfNamed};
ghost use Rattle.dk_show.specs.Asking.{Asks, MissesAfter, handed_after, handed_out};
ghost use Rattle.dk_show.specs.Budgets.{IsOfTimes, budget_form, budgets_end, config_at, config_in};
ghost use Rattle.dk_show.specs.Leaves.{Reads};
ghost use Rattle.dk_show.specs.Loading.{IsOf, Loads};
ghost use Rattle.dk_show.specs.Works.{ComesTo, IsMade, IsWhole};

use crate::files::file_at;
use crate::work::Work;
use crate::{Refusal, Status};
use dk_config::{Config, Layout, MAX_CONFIG_BYTES, NoMemory};
use dk_loader::{LoadFault, read_config};
use dk_outside::Depot;
use dk_profile::MAX_PROFILE_BYTES;
use dk_show_request::{BudgetsForm, BudgetsRequest};
use show_budgets::{BudgetForm, Budgets, Ended, tell_budgets};
use std::alloc::Global;
use std::marker::Model;

/// A layout, and a copy of its configuration that may be changed.
#[derive(Drop)]
struct Draft {
    layout: Layout,
    copy: Config,
}

impl Model for Draft {
    ghost use Rattle.std.specs.Prelude.{◌≡◌};
    ghost use Rattle.dk_config.specs.Configuration.{Configuration};

    ghost Value = { Configuration };

    ghost view = { λ d. d.layout };

    ghost invariant = { λ d. d.copy ≡ d.layout };
}

/// The draft of a configuration with its copy.
fn draft_of(config: Config, copy: Config) -> Result<Draft, Refusal>
    requires unbroken { BreaksNoRule config }
    requires same { copy ≡ config }
    ensures { result ≡ Ok config }
{
    match Layout::of(config) {
        Ok(layout) => Ok(Draft { layout, copy }),
        Err(fault) => Err(Refusal::Rule(fault)),
    }
}

/// The draft of a configuration, copied by reading its document once more.
fn copied(alloc: Global, config: Config, bytes: &[u8]) -> Result<Draft, Refusal>
    requires few { length bytes.now ≤ MAX_CONFIG_BYTES }
    requires unbroken { BreaksNoRule config }
    requires read { reading bytes.now ≡ Ok config }
    ensures is { IfOk result (λ d. d ≡ config) }
    ensures fails { IfErr result (λ e. e ≡ Refusal.NoMemory) }
{
    match read_config(alloc, bytes) {
        Ok(copy) => draft_of(config, copy),
        Err(_) => Err(Refusal::NoMemory),
    }
}

/// The draft of the document in these bytes.
fn draft_in(alloc: Global, bytes: &[u8]) -> Result<Draft, Refusal>
    requires { length bytes.now ≤ MAX_CONFIG_BYTES }
    ensures loads { Loads result (config_in (reading bytes.now)) }
    ensures read { IfErr result (λ e. e ≢ Refusal.Depot) }
{
    match read_config(alloc, bytes) {
        Ok(config) => copied(alloc, config, bytes),
        Err(LoadFault::NotToml) => Err(Refusal::NotToml),
        Err(LoadFault::Config(fault)) => Err(Refusal::Rule(fault)),
        Err(_) => Err(Refusal::NoMemory),
    }
}

/// The draft of the document in the file of this name.
fn draft_at<D: Depot>(alloc: Global, name: &str, depot: &mut D) -> Result<Draft, Refusal>
    requires { (D.seen depot.old).given < 2 ^ 62 + 2 ^ 30 }
    ensures loads { IfSome (D.seen depot.old).files (λ at. Loads result (config_at (at name.now))) }
    ensures given { (D.seen depot.new).given ≤ (D.seen depot.old).given + (MAX_CONFIG_BYTES + 1) }
    ensures asks { Asks (D.seen depot.old).files (λ at. handed_out MAX_CONFIG_BYTES (at name.now)) (λ at. at name.now ≡ None)
        (D.seen depot.old) (D.seen depot.new) result }
    ensures reads { Reads (D.seen depot.old) (D.seen depot.new) result }
{
    let bytes = file_at(alloc, depot, name, MAX_CONFIG_BYTES, Refusal::LongConfig)?;
    draft_in(alloc, bytes.as_slice())
}

fn budget_form(form: BudgetsForm) -> BudgetForm
    ensures { result ≡ budget_form form }
{
    match form {
        BudgetsForm::Plain => BudgetForm::Text,
        BudgetsForm::Csv => BudgetForm::Table,
        BudgetsForm::Toml => BudgetForm::Toml,
    }
}

/// How the call ends.
fn budgets_end(ended: Ended) -> Status
    ensures is { result ≡ budgets_end ended }
    ensures ends { IsEnd result }
{
    match ended {
        Ended::Certified => Status::Done,
        Ended::Uncertified => Status::Uncertified,
        Ended::Faulty => Status::Refused,
    }
}

/// What is told of a draft and the table in these bytes.
fn told_of(
    alloc: Global,
    form: BudgetsForm,
    percent: u32,
    draft: Draft,
    table: &[u8],
) -> Result<Budgets, NoMemory>
    requires reserve { percent ≤ 1000 }
    requires few { length table.now ≤ MAX_PROFILE_BYTES }
    ensures { IfOk result (AreBudgets (budget_form form) draft percent table.now) }
{
    let Draft { layout, copy } = draft;
    tell_budgets(alloc, budget_form(form), &layout, copy, table, percent)
}

/// What the table in these bytes comes to.
fn of_times(
    alloc: Global,
    form: BudgetsForm,
    percent: u32,
    draft: Draft,
    table: &[u8],
) -> Result<Work, Refusal>
    requires reserve { percent ≤ 1000 }
    requires few { length table.now ≤ MAX_PROFILE_BYTES }
    ensures comes { ComesTo (IsOfTimes form percent draft table.now) result }
    ensures made { IsMade IsWhole result }
{
    let told = told_of(alloc, form, percent, draft, table)?;
    let ended = budgets_end(told.ended);
    Ok(Work::Bytes(told.text, ended))
}

/// What the table in the file of the request's name comes to.
#[tactic(auto, using(crate::proofs::Asks::asks_on, crate::proofs::Asks::asks_fails))]
fn times_at<D: Depot>(
    alloc: Global,
    request: &BudgetsRequest,
    draft: Draft,
    depot: &mut D,
) -> Result<Work, Refusal>
    requires given { (D.seen depot.old).given < 2 ^ 62 + 2 ^ 30 }
    requires reserve { request.now.percent ≤ 1000 }
    ensures comes { IfSome (D.seen depot.old).files (λ at. ComesTo (IsOfNamed at request.now.times MAX_PROFILE_BYTES
        Refusal.LongProfile (IsOfTimes request.now.form request.now.percent draft)) result) }
    ensures whole { IfOk result IsWhole }
    ensures asks { Asks (D.seen depot.old).files (λ at. handed_out MAX_PROFILE_BYTES (at request.now.times)) (λ at. at request.now.times ≡ None)
        (D.seen depot.old) (D.seen depot.new) result }
    ensures reads { Reads (D.seen depot.old) (D.seen depot.new) result }
{
    let name = request.times.as_str();
    let bytes = file_at(alloc, depot, name, MAX_PROFILE_BYTES, Refusal::LongProfile)?;
    of_times(
        alloc,
        request.form,
        request.percent,
        draft,
        bytes.as_slice(),
    )
}

/// The budgets that the times in the one file need of the processes of the configuration in the other, certified or not.
pub(crate) fn budgets_work<D: Depot>(
    alloc: Global,
    request: &BudgetsRequest,
    depot: &mut D,
) -> Result<Work, Refusal>
    requires given { (D.seen depot.old).given < 2 ^ 62 }
    requires reserve { request.now.percent ≤ 1000 }
    ensures comes { IfSome (D.seen depot.old).files (λ at. ComesTo (IsOf (config_at (at request.now.file))
        (λ c. IsOfNamed at request.now.times MAX_PROFILE_BYTES Refusal.LongProfile (IsOfTimes request.now.form request.now.percent c))) result) }
    ensures whole { IfOk result IsWhole }
    ensures asks { Asks (D.seen depot.old).files (λ at. handed_out MAX_CONFIG_BYTES (at request.now.file)
        + handed_after (λ _. handed_out MAX_PROFILE_BYTES (at request.now.times)) (config_at (at request.now.file)))
        (λ at. MissesAfter (λ _. at request.now.times ≡ None) (config_at (at request.now.file))) (D.seen depot.old) (D.seen depot.new) result }
    ensures reads { Reads (D.seen depot.old) (D.seen depot.new) result }
{
    let draft = draft_at(alloc, request.file.as_str(), depot)?;
    times_at(alloc, request, draft, depot)
}
