//! When a chain of processes answers an event.
ghost use Rattle.std.specs.Prelude.{◌≡◌, ◌≢◌, ◌^◌, ◌+◌, ◌<◌, ◌≤◌, IfOk, IfErr, IfSome, None};
ghost use Rattle.dk_config.specs.Checked.{IsAccepted, IsChecked, IsWithinLimits};
ghost use Rattle.dk_config.specs.declared.TheConstants.{MAX_CONFIG_BYTES, MAX_PROCESSES};
ghost use Rattle.std.specs.Prelude.{length};
ghost use Rattle.dk_show.specs.Asking.{Asks, handed_out};
ghost use Rattle.dk_show.specs.Chains.{IsCertifiedChain, IsChainTold, chain_at, chain_named};
ghost use Rattle.dk_show.specs.Leaves.{Reads};
ghost use Rattle.dk_show.specs.Loading.{IsOf, Loads};
ghost use Rattle.dk_show.specs.Works.{ComesTo, IsMade, IsWhole};
ghost use Rattle.std.specs.Prelude.{Ok};

use crate::loading::certified_at;
use crate::work::Work;
use crate::{Refusal, Status};
use dk_chain_report::{Chain, chain_report, find_chain};
use dk_config::Config;
use dk_outside::Depot;
use dk_show_request::ChainRequest;
use std::alloc::Global;
use std::marker::Model;

/// A certified configuration, and the processes of a chain in it. It is seen with a list in place of the `Vec`.
#[derive(Drop)]
pub(crate) struct FoundChain {
    pub(crate) config: Config,
    pub(crate) chain: Chain,
}

impl Model for FoundChain {
    ghost use Rattle.dk_show.specs.Chains.{ChainIn};

    ghost Value = { ChainIn };

    ghost view = { λ f. record { config = f.config; first = f.chain.first; rest = f.chain.rest.items } };
}

/// The chain of these names in a certified configuration.
fn chain_named(alloc: Global, request: &ChainRequest, config: Config) -> Result<FoundChain, Refusal>
    requires few { length request.now.rest < MAX_PROCESSES }
    requires checked { IsChecked config }
    requires accepted { IsAccepted config }
    requires limits { IsWithinLimits config }
    ensures loads { Loads result (chain_named request.now (Ok config)) }
    ensures certified { IfOk result IsCertifiedChain }
    ensures read { IfErr result (λ e. e ≢ Refusal.Depot) }
{
    let found = find_chain(
        alloc,
        &config,
        request.first.as_str(),
        request.rest.as_slice(),
    )?;
    match found {
        Some(chain) => Ok(FoundChain { config, chain }),
        None => Err(Refusal::NoProcess),
    }
}

/// The chain of these names under the configuration in the file of this name.
#[tactic(auto, using(crate::proofs::Asks::asks_on, crate::proofs::Asks::asks_fails))]
pub(crate) fn chain_at<D: Depot>(
    alloc: Global,
    request: &ChainRequest,
    depot: &mut D,
) -> Result<FoundChain, Refusal>
    requires given { (D.seen depot.old).given < 2 ^ 62 }
    requires few { length request.now.rest < MAX_PROCESSES }
    ensures loads { IfSome (D.seen depot.old).files (λ at. Loads result (chain_at at request.now)) }
    ensures certified { IfOk result IsCertifiedChain }
    ensures given { (D.seen depot.new).given ≤ (D.seen depot.old).given + (MAX_CONFIG_BYTES + 1) }
    ensures asks { Asks (D.seen depot.old).files (λ at. handed_out MAX_CONFIG_BYTES (at request.now.file)) (λ at. at request.now.file ≡ None)
        (D.seen depot.old) (D.seen depot.new) result }
    ensures reads { Reads (D.seen depot.old) (D.seen depot.new) result }
{
    let config = certified_at(alloc, request.file.as_str(), depot)?;
    chain_named(alloc, request, config)
}

/// When the chain answers.
fn of_chain(alloc: Global, found: FoundChain) -> Result<Work, Refusal>
    requires { IsCertifiedChain found }
    ensures comes { ComesTo (IsChainTold found) result }
    ensures made { IsMade IsWhole result }
{
    let FoundChain { mut config, chain } = found;
    let page = chain_report(alloc, &mut config, chain.first, chain.rest.as_slice(), "")?;
    Ok(Work::Page(page, Status::Done))
}

/// When the chain answers under the configuration in the file of this name.
#[tactic(auto, using(crate::proofs::Asks::asks_on, crate::proofs::Asks::asks_fails))]
pub(crate) fn chain_work<D: Depot>(
    alloc: Global,
    request: &ChainRequest,
    depot: &mut D,
) -> Result<Work, Refusal>
    requires given { (D.seen depot.old).given < 2 ^ 62 }
    requires few { length request.now.rest < MAX_PROCESSES }
    ensures comes { IfSome (D.seen depot.old).files (λ at. ComesTo (IsOf (chain_at at request.now) IsChainTold) result) }
    ensures whole { IfOk result IsWhole }
    ensures asks { Asks (D.seen depot.old).files (λ at. handed_out MAX_CONFIG_BYTES (at request.now.file)) (λ at. at request.now.file ≡ None)
        (D.seen depot.old) (D.seen depot.new) result }
    ensures reads { Reads (D.seen depot.old) (D.seen depot.new) result }
{
    let found = chain_at(alloc, request, depot)?;
    of_chain(alloc, found)
}
