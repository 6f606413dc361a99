//! How long the mutexes of a ledger were held.
ghost use Rattle.std.specs.Prelude.{◌≡◌, ◌≢◌, ◌^◌, ◌+◌, ◌<◌, ◌↔◌, IfOk, IfErr, IfSome, IsTrue, None};
ghost use Rattle.dk_config.specs.Checked.{IsAccepted, IsChecked, IsWithinLimits};
ghost use Rattle.dk_ledger.specs.Readable.{IsReadable, text_of};
ghost use Rattle.dk_audit.specs.Findings.{IsOwnHeading};
ghost use Rattle.dk_show.specs.Answers.{IsOfNamed};
ghost use Rattle.dk_show.specs.Asking.{Asks, MissesAfter, MissesHeld, handed_after, handed_held, handed_out};
ghost use Rattle.dk_config.specs.declared.TheConstants.{MAX_CONFIG_BYTES};
ghost use Rattle.dk_show.specs.Held.{AreHoldsTold, IsHeldUnder, IsOfHeld, IsOfHolds, IsOfOwnHolds};
ghost use Rattle.dk_show.specs.Leaves.{Reads};
ghost use Rattle.dk_show.specs.Loading.{IsOf, certified_at};
ghost use Rattle.dk_show.specs.Works.{ComesTo, IsMade, IsWhole};

use crate::files::file_at;
use crate::loading::certified_at;
use crate::work::Work;
use crate::{Refusal, Status};
use dk_audit::is_own_heading;
use dk_config::{Config, MAX_LEDGER_BYTES, MutexRow, Text};
use dk_ledger::{Ledger, LedgerFault, read_ledger};
use dk_outside::Depot;
use show_ledger::holds;
use std::alloc::Global;

/// How long each mutex was held in the ledger that was read of these bytes, where the mutexes have these rows.
fn told_holds(
    alloc: Global,
    bytes: &[u8],
    ledger: &Ledger,
    rows: &[MutexRow],
) -> Result<Work, Refusal>
    requires readable { IsReadable ledger.now }
    requires text { text_of ledger.now ≡ bytes.now }
    ensures comes { ComesTo (AreHoldsTold rows.now ledger.now) result }
    ensures made { IsMade IsWhole result }
{
    let rows = holds(alloc, bytes, ledger, rows)?;
    Ok(Work::Bytes(rows, Status::Done))
}

/// How long each mutex was held in the ledger in these bytes.
fn of_bytes(alloc: Global, bytes: &[u8]) -> Result<Work, Refusal>
    ensures comes { ComesTo (IsOfHolds bytes.now) result }
    ensures made { IsMade IsWhole result }
{
    match read_ledger(alloc, bytes) {
        Ok(ledger) => told_holds(alloc, bytes, &ledger, &[]),
        Err(LedgerFault::Line(line)) => Err(Refusal::LedgerLine(line)),
        Err(LedgerFault::NoMemory) => Err(Refusal::NoMemory),
    }
}

/// The rows of the mutexes.
fn mutex_rows(config: &Config) -> &[MutexRow]
    ensures { result.now ≡ config.now.mutexes }
{
    config.mutexes.as_slice()
}

/// Whether the ledger's header is that of the configuration.
fn is_own(config: &Config, ledger: &Ledger) -> bool
    requires checked { IsChecked config.now }
    requires limits { IsWithinLimits config.now }
    requires accepted { IsAccepted config.now }
    ensures { IsTrue result ↔ IsOwnHeading config.now ledger.now.heading }
{
    is_own_heading(config, &ledger.header)
}

/// How long each mutex was held in the configuration's own ledger, which was read of these bytes.
fn of_own(alloc: Global, config: &Config, bytes: &[u8], ledger: &Ledger) -> Result<Work, Refusal>
    requires checked { IsChecked config.now }
    requires limits { IsWithinLimits config.now }
    requires accepted { IsAccepted config.now }
    requires readable { IsReadable ledger.now }
    requires text { text_of ledger.now ≡ bytes.now }
    ensures comes { ComesTo (IsHeldUnder config.now ledger.now) result }
    ensures made { IsMade IsWhole result }
{
    if !is_own(config, ledger) {
        return Err(Refusal::OtherLedger);
    }
    told_holds(alloc, bytes, ledger, mutex_rows(config))
}

/// How long each mutex was held in the configuration's own ledger in these bytes.
fn of_own_bytes(alloc: Global, config: &Config, bytes: &[u8]) -> Result<Work, Refusal>
    requires checked { IsChecked config.now }
    requires limits { IsWithinLimits config.now }
    requires accepted { IsAccepted config.now }
    ensures comes { ComesTo (IsOfOwnHolds config.now bytes.now) result }
    ensures made { IsMade IsWhole result }
{
    match read_ledger(alloc, bytes) {
        Ok(ledger) => of_own(alloc, config, bytes, &ledger),
        Err(LedgerFault::Line(line)) => Err(Refusal::LedgerLine(line)),
        Err(LedgerFault::NoMemory) => Err(Refusal::NoMemory),
    }
}

/// How long each mutex was held in the ledger in the file of this name.
#[tactic(auto, using(crate::proofs::Asks::asks_on, crate::proofs::Asks::asks_fails))]
fn plain_work<D: Depot>(alloc: Global, ledger: &str, depot: &mut D) -> Result<Work, Refusal>
    requires { (D.seen depot.old).given < 2 ^ 62 }
    ensures comes { IfSome (D.seen depot.old).files
        (λ at. ComesTo (IsOfNamed at ledger.now MAX_LEDGER_BYTES Refusal.LongLedger IsOfHolds) result) }
    ensures whole { IfOk result IsWhole }
    ensures asks { Asks (D.seen depot.old).files (λ at. handed_out MAX_LEDGER_BYTES (at ledger.now)) (λ at. at ledger.now ≡ None)
        (D.seen depot.old) (D.seen depot.new) result }
    ensures reads { Reads (D.seen depot.old) (D.seen depot.new) result }
{
    let bytes = file_at(alloc, depot, ledger, MAX_LEDGER_BYTES, Refusal::LongLedger)?;
    of_bytes(alloc, bytes.as_slice())
}

/// How long each mutex was held in the configuration's own ledger in the file of this name.
#[tactic(auto, using(crate::proofs::Asks::asks_on, crate::proofs::Asks::asks_fails))]
fn holds_in<D: Depot>(
    alloc: Global,
    config: &Config,
    ledger: &str,
    depot: &mut D,
) -> Result<Work, Refusal>
    requires given { (D.seen depot.old).given < 2 ^ 62 + 2 ^ 30 }
    requires checked { IsChecked config.now }
    requires limits { IsWithinLimits config.now }
    requires accepted { IsAccepted config.now }
    ensures comes { IfSome (D.seen depot.old).files
        (λ at. ComesTo (IsOfNamed at ledger.now MAX_LEDGER_BYTES Refusal.LongLedger (IsOfOwnHolds config.now)) result) }
    ensures whole { IfOk result IsWhole }
    ensures asks { Asks (D.seen depot.old).files (λ at. handed_out MAX_LEDGER_BYTES (at ledger.now)) (λ at. at ledger.now ≡ None)
        (D.seen depot.old) (D.seen depot.new) result }
    ensures reads { Reads (D.seen depot.old) (D.seen depot.new) result }
{
    let bytes = file_at(alloc, depot, ledger, MAX_LEDGER_BYTES, Refusal::LongLedger)?;
    of_own_bytes(alloc, config, bytes.as_slice())
}

/// The same beside the certified configuration in the other file.
fn own_work<D: Depot>(
    alloc: Global,
    file: &str,
    ledger: &str,
    depot: &mut D,
) -> Result<Work, Refusal>
    requires { (D.seen depot.old).given < 2 ^ 62 }
    ensures comes { IfSome (D.seen depot.old).files (λ at. ComesTo (IsOf (certified_at (at file.now))
        (λ c. IsOfNamed at ledger.now MAX_LEDGER_BYTES Refusal.LongLedger (IsOfOwnHolds c))) result) }
    ensures whole { IfOk result IsWhole }
    ensures asks { Asks (D.seen depot.old).files (λ at. handed_out MAX_CONFIG_BYTES (at file.now)
        + handed_after (λ _. handed_out MAX_LEDGER_BYTES (at ledger.now)) (certified_at (at file.now)))
        (λ at. MissesAfter (λ _. at ledger.now ≡ None) (certified_at (at file.now))) (D.seen depot.old) (D.seen depot.new) result }
    ensures reads { Reads (D.seen depot.old) (D.seen depot.new) result }
{
    let config = certified_at(alloc, file, depot)?;
    holds_in(alloc, &config, ledger, depot)
}

/// How long each mutex was held in the ledger in the file of this name, beside the certified configuration in the other
/// file, if there is one.
pub(crate) fn holds_work<D: Depot>(
    alloc: Global,
    ledger: &str,
    file: &Option<Text>,
    depot: &mut D,
) -> Result<Work, Refusal>
    requires { (D.seen depot.old).given < 2 ^ 62 }
    ensures comes { IfSome (D.seen depot.old).files (λ at. ComesTo (IsOfHeld file.now at ledger.now) result) }
    ensures whole { IfOk result IsWhole }
    ensures asks { Asks (D.seen depot.old).files (λ at. handed_held file.now at ledger.now) (λ at. MissesHeld file.now at ledger.now)
        (D.seen depot.old) (D.seen depot.new) result }
    ensures reads { Reads (D.seen depot.old) (D.seen depot.new) result }
{
    match file {
        Some(file) => own_work(alloc, file.as_str(), ledger, depot),
        None => plain_work(alloc, ledger, depot),
    }
}
