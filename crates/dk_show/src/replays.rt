//! The program of a profile.
ghost use Rattle.std.specs.Prelude.{◌≡◌, ◌≢◌, ◌+◌, ◌^◌, ◌<◌, ◌≤◌, IfOk, IfErr, IfSome, None, length, string_bytes};
ghost use Rattle.dk_config.specs.Checked.{IsWithinLimits};
ghost use Rattle.dk_config.specs.declared.TheConstants.{MAX_CONFIG_BYTES};
ghost use Rattle.dk_profile.specs.declared.TheConstants.{MAX_PROFILE_BYTES};
ghost use Rattle.dk_replay.specs.Pages.{replay_made, replay_text};
ghost use Rattle.dk_times.specs.Forms.{form_of};
ghost use Rattle.dk_show.specs.Answers.{IsEnd, IsOfNamed};
ghost use Rattle.dk_show.specs.Asking.{Asks, MissesAfter, handed_after, handed_out};
ghost use Rattle.dk_show.specs.Leaves.{Reads};
ghost use Rattle.dk_show.specs.Loading.{IsOf, certified_at};
ghost use Rattle.dk_show.specs.Replays.{IsOfProfile, replay_end};
ghost use Rattle.dk_show.specs.Works.{ComesTo, IsMade, IsWhole};

use crate::files::file_at;
use crate::loading::certified_at;
use crate::work::Work;
use crate::{Refusal, Status};
use dk_config::{Config, MAX_CONFIG_BYTES, NoMemory};
use dk_config_report::Page;
use dk_outside::Depot;
use dk_profile::MAX_PROFILE_BYTES;
use dk_replay::{Replay, make_replay};
use dk_show_request::ReplayRequest;
use dk_times::form_of;
use std::alloc::Global;

/// How the call ends.
fn replay_end(made: bool) -> Status
    ensures is { result ≡ replay_end made }
    ensures ends { IsEnd result }
{
    if made { Status::Done } else { Status::Refused }
}

/// What is written for the profile in these bytes.
fn replay_of(
    alloc: Global,
    request: &ReplayRequest,
    config: &Config,
    bytes: &[u8],
) -> Result<Replay, NoMemory>
    requires limits { IsWithinLimits config.now }
    requires few { length bytes.now ≤ MAX_PROFILE_BYTES }
    ensures text { IfOk result (λ r. string_bytes r.text ≡ replay_text config.now (form_of request.now.profile) request.now.name bytes.now) }
    ensures made { IfOk result (λ r. r.made ≡ replay_made config.now (form_of request.now.profile) request.now.name bytes.now) }
{
    let form = form_of(request.profile.as_str());
    let replay = make_replay(alloc, config, form, request.name.as_str(), bytes)?;
    Ok(replay)
}

/// The program of the profile in these bytes.
fn of_profile(
    alloc: Global,
    request: &ReplayRequest,
    config: &Config,
    bytes: &[u8],
) -> Result<Work, Refusal>
    requires limits { IsWithinLimits config.now }
    requires few { length bytes.now ≤ MAX_PROFILE_BYTES }
    ensures comes { ComesTo (IsOfProfile config.now request.now.profile request.now.name bytes.now) result }
    ensures made { IsMade IsWhole result }
{
    let replay = replay_of(alloc, request, config, bytes)?;
    let ended = replay_end(replay.made);
    Ok(Work::Page(Page::new(replay.text), ended))
}

/// The program of the profile in the file of this name.
#[tactic(auto, using(crate::proofs::Asks::asks_on, crate::proofs::Asks::asks_fails))]
fn replay_at<D: Depot>(
    alloc: Global,
    request: &ReplayRequest,
    config: &Config,
    depot: &mut D,
) -> Result<Work, Refusal>
    requires given { (D.seen depot.old).given < 2 ^ 62 + 2 ^ 30 }
    requires limits { IsWithinLimits config.now }
    ensures comes { IfSome (D.seen depot.old).files (λ at. ComesTo (IsOfNamed at request.now.profile MAX_PROFILE_BYTES
        Refusal.LongProfile (IsOfProfile config.now request.now.profile request.now.name)) result) }
    ensures whole { IfOk result IsWhole }
    ensures asks { Asks (D.seen depot.old).files (λ at. handed_out MAX_PROFILE_BYTES (at request.now.profile)) (λ at. at request.now.profile ≡ None)
        (D.seen depot.old) (D.seen depot.new) result }
    ensures reads { Reads (D.seen depot.old) (D.seen depot.new) result }
{
    let name = request.profile.as_str();
    let bytes = file_at(alloc, depot, name, MAX_PROFILE_BYTES, Refusal::LongProfile)?;
    of_profile(alloc, request, config, bytes.as_slice())
}

/// The program of the profile in the one file for a process of the configuration in the other, where it is certified.
pub(crate) fn replay_work<D: Depot>(
    alloc: Global,
    request: &ReplayRequest,
    depot: &mut D,
) -> Result<Work, Refusal>
    requires { (D.seen depot.old).given < 2 ^ 62 }
    ensures comes { IfSome (D.seen depot.old).files (λ at. ComesTo (IsOf (certified_at (at request.now.file))
        (λ c. IsOfNamed at request.now.profile MAX_PROFILE_BYTES Refusal.LongProfile (IsOfProfile c request.now.profile request.now.name))) result) }
    ensures whole { IfOk result IsWhole }
    ensures asks { Asks (D.seen depot.old).files (λ at. handed_out MAX_CONFIG_BYTES (at request.now.file)
        + handed_after (λ _. handed_out MAX_PROFILE_BYTES (at request.now.profile)) (certified_at (at request.now.file)))
        (λ at. MissesAfter (λ _. at request.now.profile ≡ None) (certified_at (at request.now.file))) (D.seen depot.old) (D.seen depot.new) result }
    ensures reads { Reads (D.seen depot.old) (D.seen depot.new) result }
{
    let config = certified_at(alloc, request.file.as_str(), depot)?;
    replay_at(alloc, request, &config, depot)
}
