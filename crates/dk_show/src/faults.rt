//! All that is wrong with the document of a configuration, or with a source of the assembler.
ghost use Rattle.std.specs.Prelude.{◌≡◌, ◌≢◌, ◌^◌, ◌<◌, ◌≤◌, IfOk, IfErr, IfSome, length, None, string_bytes};
ghost use Rattle.dk_loader.specs.Reading.{reading};
ghost use Rattle.dk_show.specs.Answers.{IsEnd};
ghost use Rattle.dk_show.specs.Asking.{Asks, handed_out};
ghost use Rattle.dk_show.specs.Leaves.{Reads};
ghost use Rattle.dk_asm.specs.Causes.{causes_of};
ghost use Rattle.dk_source_report.specs.Report.{faulty, source_text};
ghost use Rattle.dk_show.specs.Output.{IsAllWrong, IsOfFaults, IsOfNamed, read_end};
ghost use Rattle.dk_show.specs.Sources.{IsOfSource, is_source_name, most_of, source_end};
ghost use Rattle.dk_show.specs.Works.{ComesTo, IsMade, IsWhole};

use crate::files::file_at;
use crate::work::Work;
use crate::{Refusal, Status};
use dk_asm::MAX_SOURCE_BYTES;
use dk_config::{MAX_CONFIG_BYTES, NoMemory};
use dk_config_report::Page;
use dk_document_report::document_faults;
use dk_loader::{LoadFault, read_config};
use dk_outside::Depot;
use dk_source_report::{SourceReport, source_report};
use std::alloc::Global;

/// The status that tells whether the document is that of a configuration.
fn read_end(alloc: Global, bytes: &[u8]) -> Result<Status, NoMemory>
    requires { length bytes.now ≤ MAX_CONFIG_BYTES }
    ensures is { IfOk result (λ ended. ended ≡ read_end (reading bytes.now)) }
    ensures ends { IfOk result IsEnd }
{
    match read_config(alloc, bytes) {
        Ok(_) => Ok(Status::Done),
        Err(LoadFault::NoMemory) => Err(NoMemory),
        Err(_) => Ok(Status::Config),
    }
}

/// What is wrong with the document in these bytes.
fn of_document(alloc: Global, bytes: &[u8]) -> Result<Work, Refusal>
    requires { length bytes.now ≤ MAX_CONFIG_BYTES }
    ensures comes { ComesTo (IsOfFaults bytes.now) result }
    ensures made { IsMade IsWhole result }
{
    let page = document_faults(alloc, bytes)?;
    Ok(Work::Page(page, read_end(alloc, bytes)?))
}

/// What is wrong with the document in the file of this name.
#[tactic(auto, using(crate::proofs::Asks::asks_on, crate::proofs::Asks::asks_fails))]
fn document_work<D: Depot>(alloc: Global, file: &str, depot: &mut D) -> Result<Work, Refusal>
    requires { (D.seen depot.old).given < 2 ^ 62 }
    ensures comes { IfSome (D.seen depot.old).files
        (λ at. ComesTo (IsOfNamed at file.now MAX_CONFIG_BYTES Refusal.LongConfig IsOfFaults) result) }
    ensures whole { IfOk result IsWhole }
    ensures asks { Asks (D.seen depot.old).files (λ at. handed_out MAX_CONFIG_BYTES (at file.now)) (λ at. at file.now ≡ None)
        (D.seen depot.old) (D.seen depot.new) result }
    ensures reads { Reads (D.seen depot.old) (D.seen depot.new) result }
{
    let bytes = file_at(alloc, depot, file, MAX_CONFIG_BYTES, Refusal::LongConfig)?;
    of_document(alloc, bytes.as_slice())
}

/// Whether the name ends with `.s`.
fn is_source_name(name: &str) -> bool
    ensures { result ≡ is_source_name name.now }
{
    let bytes = name.as_bytes();
    let count = bytes.len();
    count >= 2 && bytes[count - 2] == b'.' && bytes[count - 1] == b's'
}

/// How the call ends.
fn source_end(sound: bool) -> Status
    ensures is { result ≡ source_end sound }
    ensures ends { IsEnd result }
{
    if sound { Status::Done } else { Status::Refused }
}

fn report_of(alloc: Global, bytes: &[u8]) -> Result<SourceReport, NoMemory>
    requires { length bytes.now ≤ MAX_SOURCE_BYTES }
    ensures text { IfOk result (λ report. string_bytes report.text ≡ source_text bytes.now) }
    ensures count { IfOk result (λ report. report.count ≡ faulty (causes_of bytes.now)) }
{
    Ok(source_report(alloc, bytes)?)
}

/// What is wrong with the source in these bytes.
fn of_source(alloc: Global, bytes: &[u8]) -> Result<Work, Refusal>
    requires { length bytes.now ≤ MAX_SOURCE_BYTES }
    ensures comes { ComesTo (IsOfSource bytes.now) result }
    ensures made { IsMade IsWhole result }
{
    let report = report_of(alloc, bytes)?;
    let ended = source_end(report.count == 0);
    Ok(Work::Page(Page::new(report.text), ended))
}

/// What is wrong with the source in the file of this name.
#[tactic(auto, using(crate::proofs::Asks::asks_on, crate::proofs::Asks::asks_fails))]
fn source_work<D: Depot>(alloc: Global, file: &str, depot: &mut D) -> Result<Work, Refusal>
    requires { (D.seen depot.old).given < 2 ^ 62 }
    ensures comes { IfSome (D.seen depot.old).files
        (λ at. ComesTo (IsOfNamed at file.now MAX_SOURCE_BYTES Refusal.LongSource IsOfSource) result) }
    ensures whole { IfOk result IsWhole }
    ensures asks { Asks (D.seen depot.old).files (λ at. handed_out MAX_SOURCE_BYTES (at file.now)) (λ at. at file.now ≡ None)
        (D.seen depot.old) (D.seen depot.new) result }
    ensures reads { Reads (D.seen depot.old) (D.seen depot.new) result }
{
    let bytes = file_at(alloc, depot, file, MAX_SOURCE_BYTES, Refusal::LongSource)?;
    of_source(alloc, bytes.as_slice())
}

/// All that is wrong with the file of this name: a source of the assembler, if the name ends with `.s`, and else a document.
pub(crate) fn faults_work<D: Depot>(
    alloc: Global,
    file: &str,
    depot: &mut D,
) -> Result<Work, Refusal>
    requires { (D.seen depot.old).given < 2 ^ 62 }
    ensures comes { IfSome (D.seen depot.old).files (λ at. ComesTo (IsAllWrong at file.now) result) }
    ensures whole { IfOk result IsWhole }
    ensures asks { Asks (D.seen depot.old).files (λ at. handed_out (most_of file.now) (at file.now)) (λ at. at file.now ≡ None)
        (D.seen depot.old) (D.seen depot.new) result }
    ensures reads { Reads (D.seen depot.old) (D.seen depot.new) result }
{
    if is_source_name(file) {
        source_work(alloc, file, depot)
    } else {
        document_work(alloc, file, depot)
    }
}
