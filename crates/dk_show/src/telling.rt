//! What is told of a configuration.
ghost use Rattle.std.specs.Prelude.{◌≡◌, ◌≢◌, ◌^◌, ◌<◌, ◌≤◌, IfOk, IfErr, IfSome, length, None};
ghost use Rattle.dk_config.specs.Checked.{BreaksNoRule};
ghost use Rattle.dk_certify.specs.Verdicts.{verdict_of};
ghost use Rattle.show_layout.specs.Certificate.{IsCertificate};
ghost use Rattle.show_layout.specs.Margins.{AreMargins};
ghost use Rattle.show_layout.specs.Warnings.{warnings_of};
ghost use Rattle.show_layout.specs.When.{IsWhen};
ghost use Rattle.dk_show.specs.Answers.{IsEnd};
ghost use Rattle.dk_show.specs.Asking.{Asks, handed_out};
ghost use Rattle.dk_show.specs.Leaves.{Reads};
ghost use Rattle.dk_show.specs.Output.{IsOfDocument, IsOfNamed, IsToldOf, certified_end, form_of};
ghost use Rattle.dk_show.specs.Works.{ComesTo, IsMade, IsWhole};

use crate::files::file_at;
use crate::work::Work;
use crate::{Refusal, Status};
use dk_certify::{Verdict, certify};
use dk_config::{Config, Layout, MAX_CONFIG_BYTES, NoMemory};
use dk_loader::{LoadFault, read_config};
use dk_outside::Depot;
use dk_show_request::{TellRequest, Telling};
use show_layout::{certificate, margins, warnings, when};
use show_rows::Form;
use std::alloc::Global;

fn when_bytes(alloc: Global, as_csv: bool, layout: &Layout) -> Result<Vec<u8>, NoMemory>
    ensures { IfOk result (λ v. IsWhen (form_of as_csv) layout.now v.items) }
{
    if as_csv {
        when(alloc, Form::Record, layout)
    } else {
        when(alloc, Form::Line, layout)
    }
}

fn certificate_bytes(alloc: Global, as_csv: bool, layout: &Layout) -> Result<Vec<u8>, NoMemory>
    ensures { IfOk result (λ v. IsCertificate (form_of as_csv) layout.now v.items) }
{
    if as_csv {
        certificate(alloc, Form::Record, layout)
    } else {
        certificate(alloc, Form::Line, layout)
    }
}

fn margins_bytes(alloc: Global, as_csv: bool, layout: &Layout) -> Result<Vec<u8>, NoMemory>
    ensures { IfOk result (λ v. AreMargins (form_of as_csv) layout.now v.items) }
{
    if as_csv {
        margins(alloc, Form::Record, layout)
    } else {
        margins(alloc, Form::Line, layout)
    }
}

fn warnings_bytes(alloc: Global, as_csv: bool, layout: &Layout) -> Result<Vec<u8>, NoMemory>
    ensures { IfOk result (λ v. v.items ≡ warnings_of (form_of as_csv) layout.now) }
{
    if as_csv {
        warnings(alloc, Form::Record, layout)
    } else {
        warnings(alloc, Form::Line, layout)
    }
}

fn verdict_for(layout: &Layout) -> Verdict
    ensures { result ≡ verdict_of layout.now }
{
    certify(layout.config())
}

/// From when and by when each main has its ticks, where the layout is certified.
fn when_work(alloc: Global, as_csv: bool, layout: &Layout) -> Result<Work, Refusal>
    ensures comes { ComesTo (IsToldOf Telling.When as_csv layout.now (verdict_of layout.now)) result }
    ensures made { IsMade IsWhole result }
{
    match verdict_for(layout) {
        Verdict::Accepted(_) => Ok(Work::Bytes(when_bytes(alloc, as_csv, layout)?, Status::Done)),
        Verdict::Fails {
            level,
            needs,
            window,
        } => Err(Refusal::Uncertified {
            level,
            needs,
            window,
        }),
    }
}

/// The status that tells whether the layout is certified.
fn certified_end(layout: &Layout) -> Status
    ensures is { result ≡ certified_end (verdict_of layout.now) }
    ensures ends { IsEnd result }
{
    match verdict_for(layout) {
        Verdict::Accepted(_) => Status::Done,
        Verdict::Fails { .. } => Status::Uncertified,
    }
}

/// What the certification test finds, whether the layout is certified or not.
fn certificate_work(alloc: Global, as_csv: bool, layout: &Layout) -> Result<Work, Refusal>
    ensures comes { ComesTo (IsToldOf Telling.Certify as_csv layout.now (verdict_of layout.now)) result }
    ensures made { IsMade IsWhole result }
{
    Ok(Work::Bytes(
        certificate_bytes(alloc, as_csv, layout)?,
        certified_end(layout),
    ))
}

/// How far each number can go, whether the layout is certified or not.
fn margins_work(alloc: Global, as_csv: bool, layout: &Layout) -> Result<Work, Refusal>
    ensures comes { ComesTo (IsToldOf Telling.Margins as_csv layout.now (verdict_of layout.now)) result }
    ensures made { IsMade IsWhole result }
{
    Ok(Work::Bytes(margins_bytes(alloc, as_csv, layout)?, Status::Done))
}

/// What is allowed and can't be meant, whether the layout is certified or not.
fn warnings_work(alloc: Global, as_csv: bool, layout: &Layout) -> Result<Work, Refusal>
    ensures comes { ComesTo (IsToldOf Telling.Warnings as_csv layout.now (verdict_of layout.now)) result }
    ensures made { IsMade IsWhole result }
{
    Ok(Work::Bytes(warnings_bytes(alloc, as_csv, layout)?, Status::Done))
}

/// What is told of a layout.
fn told_of(alloc: Global, telling: Telling, as_csv: bool, layout: &Layout) -> Result<Work, Refusal>
    ensures comes { ComesTo (IsToldOf telling as_csv layout.now (verdict_of layout.now)) result }
    ensures made { IsMade IsWhole result }
{
    match telling {
        Telling::Certify => certificate_work(alloc, as_csv, layout),
        Telling::Margins => margins_work(alloc, as_csv, layout),
        Telling::When => when_work(alloc, as_csv, layout),
        Telling::Warnings => warnings_work(alloc, as_csv, layout),
    }
}

/// What is told of a configuration that breaks no rule.
fn of_config(alloc: Global, telling: Telling, as_csv: bool, config: Config) -> Result<Work, Refusal>
    requires { BreaksNoRule config }
    ensures comes { ComesTo (IsToldOf telling as_csv config (verdict_of config)) result }
    ensures made { IsMade IsWhole result }
{
    match Layout::of(config) {
        Ok(layout) => told_of(alloc, telling, as_csv, &layout),
        Err(fault) => Err(Refusal::Rule(fault)),
    }
}

/// What is told of the document in these bytes.
fn of_document(alloc: Global, telling: Telling, as_csv: bool, bytes: &[u8]) -> Result<Work, Refusal>
    requires { length bytes.now ≤ MAX_CONFIG_BYTES }
    ensures comes { ComesTo (IsOfDocument telling as_csv bytes.now) result }
    ensures made { IsMade IsWhole result }
{
    match read_config(alloc, bytes) {
        Ok(config) => of_config(alloc, telling, as_csv, config),
        Err(LoadFault::NotToml) => Err(Refusal::NotToml),
        Err(LoadFault::Config(fault)) => Err(Refusal::Rule(fault)),
        Err(_) => Err(Refusal::NoMemory),
    }
}

/// What is told of the document in the file of the request's name.
#[tactic(auto, using(crate::proofs::Asks::asks_on, crate::proofs::Asks::asks_fails))]
pub(crate) fn telling_work<D: Depot>(
    alloc: Global,
    request: &TellRequest,
    depot: &mut D,
) -> Result<Work, Refusal>
    requires { (D.seen depot.old).given < 2 ^ 62 }
    ensures comes { IfSome (D.seen depot.old).files (λ at. ComesTo (IsOfNamed at request.now.file MAX_CONFIG_BYTES Refusal.LongConfig
        (IsOfDocument request.now.telling request.now.as_csv)) result) }
    ensures whole { IfOk result IsWhole }
    ensures asks { Asks (D.seen depot.old).files (λ at. handed_out MAX_CONFIG_BYTES (at request.now.file))
        (λ at. at request.now.file ≡ None) (D.seen depot.old) (D.seen depot.new) result }
    ensures reads { Reads (D.seen depot.old) (D.seen depot.new) result }
{
    let bytes = file_at(
        alloc,
        depot,
        request.file.as_str(),
        MAX_CONFIG_BYTES,
        Refusal::LongConfig,
    )?;
    of_document(alloc, request.telling, request.as_csv, bytes.as_slice())
}
