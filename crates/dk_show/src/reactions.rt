//! How long a chain of processes takes in a ledger.
ghost use Rattle.std.specs.Prelude.{◌≡◌, ◌≢◌, ◌^◌, ◌+◌, ◌<◌, ◌⊎◌, IfOk, IfErr, IfSome, None, length, string_bytes};
ghost use Rattle.dk_config.specs.declared.TheConstants.{MAX_CONFIG_BYTES, MAX_LEDGER_BYTES, MAX_PROCESSES};
ghost use Rattle.dk_chain_ledger.specs.Text.{reactions_line};
ghost use Rattle.dk_ledger.specs.Readable.{IsReadable};
ghost use Rattle.dk_show.specs.Answers.{IsOfNamed};
ghost use Rattle.dk_show.specs.Asking.{Asks, MissesAfter, handed_after, handed_out};
ghost use Rattle.dk_show.specs.Chains.{AreReactionsTold, IsCertifiedChain, IsOfOther, IsOfReactions, chain_at};
ghost use Rattle.dk_show.specs.Leaves.{Reads};
ghost use Rattle.dk_show.specs.Loading.{IsOf};
ghost use Rattle.dk_show.specs.Works.{ComesTo, IsMade, IsWhole};

use crate::chains::{FoundChain, chain_at};
use crate::files::file_at;
use crate::work::Work;
use crate::{Refusal, Status};
use dk_audit::is_own_heading;
use dk_chain_ledger::{Reactions, ledger_reactions, reactions_line};
use dk_chain_report::chain_report;
use dk_config::{MAX_LEDGER_BYTES, NoMemory};
use dk_ledger::{Ledger, LedgerFault, read_ledger};
use dk_outside::Depot;
use dk_show_request::ChainRequest;
use std::alloc::Global;

fn line_of(alloc: Global, seen: Option<Reactions>) -> Result<String, NoMemory>
    ensures { IfOk result (λ s. string_bytes s ≡ reactions_line seen) }
{
    Ok(reactions_line(alloc, seen)?)
}

/// When the chain answers, and which reactions the ledger has.
fn of_ledger(alloc: Global, found: FoundChain, ledger: &Ledger) -> Result<Work, Refusal>
    requires certified { IsCertifiedChain found }
    requires readable { IsReadable ledger.now }
    ensures comes { ComesTo (λ text ended. AreReactionsTold found ledger.now text ended ⊎ IsOfOther found ledger.now text ended) result }
    ensures made { IsMade IsWhole result }
{
    let FoundChain { mut config, chain } = found;
    if !is_own_heading(&config, &ledger.header) {
        return Err(Refusal::OtherLedger);
    }
    let rest = chain.rest.as_slice();
    let seen = ledger_reactions(alloc, &config, ledger.entries.as_slice(), chain.first, rest)?;
    let line = line_of(alloc, seen)?;
    let page = chain_report(alloc, &mut config, chain.first, rest, line.as_str())?;
    Ok(Work::Page(page, Status::Done))
}

/// The reactions of the chain that the ledger in these bytes has.
fn of_bytes(alloc: Global, found: FoundChain, bytes: &[u8]) -> Result<Work, Refusal>
    requires { IsCertifiedChain found }
    ensures comes { ComesTo (IsOfReactions found bytes.now) result }
    ensures made { IsMade IsWhole result }
{
    match read_ledger(alloc, bytes) {
        Ok(ledger) => of_ledger(alloc, found, &ledger),
        Err(LedgerFault::Line(line)) => Err(Refusal::LedgerLine(line)),
        Err(LedgerFault::NoMemory) => Err(Refusal::NoMemory),
    }
}

/// The reactions of the chain that the ledger in the file of this name has.
#[tactic(auto, using(crate::proofs::Asks::asks_on, crate::proofs::Asks::asks_fails))]
fn reactions_in<D: Depot>(
    alloc: Global,
    found: FoundChain,
    ledger: &str,
    depot: &mut D,
) -> Result<Work, Refusal>
    requires given { (D.seen depot.old).given < 2 ^ 62 + 2 ^ 30 }
    requires certified { IsCertifiedChain found }
    ensures comes { IfSome (D.seen depot.old).files (λ at. ComesTo (IsOfNamed at ledger.now MAX_LEDGER_BYTES Refusal.LongLedger (IsOfReactions found)) result) }
    ensures whole { IfOk result IsWhole }
    ensures asks { Asks (D.seen depot.old).files (λ at. handed_out MAX_LEDGER_BYTES (at ledger.now)) (λ at. at ledger.now ≡ None)
        (D.seen depot.old) (D.seen depot.new) result }
    ensures reads { Reads (D.seen depot.old) (D.seen depot.new) result }
{
    let bytes = file_at(alloc, depot, ledger, MAX_LEDGER_BYTES, Refusal::LongLedger)?;
    of_bytes(alloc, found, bytes.as_slice())
}

/// How long the chain takes in the ledger in the file of this name, and when it answers.
pub(crate) fn reactions_work<D: Depot>(
    alloc: Global,
    request: &ChainRequest,
    ledger: &str,
    depot: &mut D,
) -> Result<Work, Refusal>
    requires given { (D.seen depot.old).given < 2 ^ 62 }
    requires few { length request.now.rest < MAX_PROCESSES }
    ensures comes { IfSome (D.seen depot.old).files (λ at. ComesTo (IsOf (chain_at at request.now)
        (λ chain. IsOfNamed at ledger.now MAX_LEDGER_BYTES Refusal.LongLedger (IsOfReactions chain))) result) }
    ensures whole { IfOk result IsWhole }
    ensures asks { Asks (D.seen depot.old).files (λ at. handed_out MAX_CONFIG_BYTES (at request.now.file)
        + handed_after (λ _. handed_out MAX_LEDGER_BYTES (at ledger.now)) (chain_at at request.now))
        (λ at. MissesAfter (λ _. at ledger.now ≡ None) (chain_at at request.now)) (D.seen depot.old) (D.seen depot.new) result }
    ensures reads { Reads (D.seen depot.old) (D.seen depot.new) result }
{
    let found = chain_at(alloc, request, depot)?;
    reactions_in(alloc, found, ledger, depot)
}
