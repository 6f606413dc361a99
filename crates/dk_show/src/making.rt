//! What a request comes to over a depot.
ghost use Rattle.std.specs.Prelude.{◌≡◌, ◌≢◌, ◌⊎◌, ◌^◌, ◌<◌, ◌≤◌, IfOk, IfErr, IfSome, IsErrOf, Some, length, map, string_bytes, None};
ghost use Rattle.std.specs.Result.{IsErrAnd};
ghost use Rattle.dk_ledger.specs.Readable.{Journal, IsReadable, text_of};
ghost use Rattle.dk_show.specs.Asking.{Asks, Misses, WordsMiss, handed_for, handed_for_words, handed_out};
ghost use Rattle.dk_show.specs.Leaves.{Reads};
ghost use Rattle.dk_show_request.specs.Meaning.{DrawsNothing, KeepsLimits, MeansNothing, meaning};
ghost use Rattle.dk_show.specs.Output.{from_of, to_of, IsBehind, IsDrawn, IsOfBytes, IsOfNamed, IsOfRequest, IsOutput};
ghost use Rattle.dk_show.specs.Works.{ComesTo, IsMade, IsReady, IsWhole};

use crate::Refusal;
use crate::budgets::budgets_work;
use crate::chains::chain_work;
use crate::checks::check_work;
use crate::faults::faults_work;
use crate::files::file_at;
use crate::helps::{help_work, version_work};
use crate::holds::holds_work;
use crate::impacts::impact_work;
use crate::pictures::picture_work;
use crate::reactions::reactions_work;
use crate::repeats::repeats_work;
use crate::replays::replay_work;
use crate::slacks::slack_work;
use crate::telling::telling_work;
use crate::windows::windows_work;
use crate::work::{RangeWork, Work};
use dk_config::MAX_LEDGER_BYTES;
use dk_groups::survey_ledger;
use dk_ledger::LedgerFault;
use dk_outside::Depot;
use dk_show_request::{Range, RangeRequest, Request};
use std::alloc::Global;

/// The range that is asked for, and without one all of so many ticks.
pub(crate) fn range_within(range: Option<Range>, ticks: u32) -> Range
    ensures from { result.from ≡ from_of range }
    ensures to { result.to ≡ to_of range ticks }
{
    match range {
        Some(range) => range,
        None => Range { from: 0, to: ticks },
    }
}

/// What is drawn of so many ticks, which are those of the ledger in these bytes.
fn within(request: &RangeRequest, bytes: Vec<u8>, ticks: u32) -> Result<Work, Refusal>
    requires { (j : Journal) × IsReadable j × (text_of j ≡ bytes.items) × (ticks ≡ length j.entries) }
    ensures comes { (j : Journal) → IsReadable j → text_of j ≡ bytes.items → ticks ≡ length j.entries
        → ComesTo (λ text ended. IsDrawn request.now j text ended ⊎ IsBehind request.now j text ended) result }
    ensures made { IsMade IsReady result }
{
    let range = range_within(request.range, ticks);
    if range.to > ticks {
        return Err(Refusal::RangeEnds(ticks));
    }
    Ok(Work::Draw(RangeWork {
        drawing: request.drawing,
        bytes,
        from: range.from,
        to: range.to,
    }))
}

/// What is drawn of the ledger in these bytes.
fn of_bytes(alloc: Global, request: &RangeRequest, bytes: Vec<u8>) -> Result<Work, Refusal>
    requires { length bytes.items ≤ MAX_LEDGER_BYTES }
    ensures comes { ComesTo (IsOfBytes request.now bytes.items) result }
    ensures made { IsMade IsReady result }
{
    match survey_ledger(alloc, bytes.as_slice()) {
        Ok(survey) => within(request, bytes, survey.ticks),
        Err(LedgerFault::Line(line)) => Err(Refusal::LedgerLine(line)),
        Err(LedgerFault::NoMemory) => Err(Refusal::NoMemory),
    }
}

/// What is drawn of the ledger of a request.
#[tactic(auto, using(crate::proofs::Asks::asks_on, crate::proofs::Asks::asks_fails))]
fn drawing_work<D: Depot>(
    alloc: Global,
    request: &RangeRequest,
    depot: &mut D,
) -> Result<Work, Refusal>
    requires { (D.seen depot.old).given < 2 ^ 62 }
    ensures comes { IfSome (D.seen depot.old).files (λ at. ComesTo (IsOfNamed at request.now.ledger MAX_LEDGER_BYTES
        Refusal.LongLedger (IsOfBytes request.now)) result) }
    ensures ready { IfOk result IsReady }
    ensures asks { Asks (D.seen depot.old).files (λ at. handed_out MAX_LEDGER_BYTES (at request.now.ledger)) (λ at. at request.now.ledger ≡ None)
        (D.seen depot.old) (D.seen depot.new) result }
    ensures reads { Reads (D.seen depot.old) (D.seen depot.new) result }
{
    let name = request.ledger.as_str();
    let bytes = file_at(alloc, depot, name, MAX_LEDGER_BYTES, Refusal::LongLedger)?;
    of_bytes(alloc, request, bytes)
}

/// What a request comes to over a depot.
#[tactic(auto, using(crate::proofs::Wholes::whole_ready))]
pub(crate) fn work_for<D: Depot>(
    alloc: Global,
    request: &Request,
    depot: &mut D,
) -> Result<Work, Refusal>
    requires given { (D.seen depot.old).given < 2 ^ 62 }
    requires few { KeepsLimits request.now }
    ensures comes { IfSome (D.seen depot.old).files (λ at. ComesTo (IsOfRequest request.now at) result) }
    ensures ready { IfOk result IsReady }
    ensures whole { DrawsNothing request.now → IfOk result IsWhole }
    ensures asks { Asks (D.seen depot.old).files (handed_for request.now) (Misses request.now)
        (D.seen depot.old) (D.seen depot.new) result }
    ensures reads { Reads (D.seen depot.old) (D.seen depot.new) result }
{
    match request {
        Request::Draw(request) => drawing_work(alloc, request, depot),
        Request::Picture {
            ledger,
            file,
            range,
        } => picture_work(alloc, ledger.as_str(), file, *range, depot),
        Request::Windows { ledger, form } => windows_work(alloc, ledger.as_str(), *form, depot),
        Request::Holds { ledger, file } => holds_work(alloc, ledger.as_str(), file, depot),
        Request::Faults(file) => faults_work(alloc, file.as_str(), depot),
        Request::Tell(request) => telling_work(alloc, request, depot),
        Request::Slack(request) => slack_work(alloc, request, depot),
        Request::Chain(request) => chain_work(alloc, request, depot),
        Request::Reactions { chain, ledger } => {
            reactions_work(alloc, chain, ledger.as_str(), depot)
        }
        Request::Impact(request) => impact_work(alloc, request, depot),
        Request::Repeats { file, ticks } => repeats_work(alloc, file.as_str(), *ticks, depot),
        Request::Check(request) => check_work(alloc, request, depot),
        Request::Replay(request) => replay_work(alloc, request, depot),
        Request::Budgets(request) => budgets_work(alloc, request, depot),
        Request::Help(command) => help_work(alloc, command),
        Request::Version => version_work(alloc),
    }
}
