//! What repeats for ever in the run of a configuration with its programs.
ghost use Rattle.std.specs.Prelude.{◌≡◌, ◌≢◌, ◌^◌, ◌<◌, IfOk, IfErr, IfSome, Err};
ghost use Rattle.dk_show.specs.Answers.{IsEnd};
ghost use Rattle.dk_show.specs.Asking.{Asks, handed_load};
ghost use Rattle.dk_show.specs.Leaves.{Reads};
ghost use Rattle.dk_show.specs.Loading.{IsCertifiedLoad, IsOfLoaded, loaded};
ghost use Rattle.dk_show.specs.Repeats.{IsOfRepeats, repeats_end};
ghost use Rattle.dk_show.specs.Works.{ComesTo, IsMade, IsWhole};

use crate::loading::loaded_at;
use crate::work::Work;
use crate::{Refusal, Status};
use dk_loader::Loaded;
use dk_outside::Depot;
use dk_repeat_search::find_repeats;
use std::alloc::Global;

/// How the call ends.
fn repeats_end(whole: bool) -> Status
    ensures is { result ≡ repeats_end whole }
    ensures ends { IsEnd result }
{
    if whole { Status::Done } else { Status::Refused }
}

/// What repeats in the run of a configuration with its programs.
fn of_load(alloc: Global, loaded: Loaded, ticks: u32) -> Result<Work, Refusal>
    requires { IsCertifiedLoad loaded }
    ensures comes { ComesTo (IsOfRepeats ticks loaded) result }
    ensures made { IsMade IsWhole result }
{
    let found = find_repeats(alloc, loaded, ticks)?;
    Ok(Work::Page(found.page, repeats_end(found.whole)))
}

/// What repeats in the run of the configuration in the file of this name.
#[tactic(auto, using(crate::proofs::Asks::asks_on, crate::proofs::Asks::asks_fails))]
pub(crate) fn repeats_work<D: Depot>(
    alloc: Global,
    file: &str,
    ticks: u32,
    depot: &mut D,
) -> Result<Work, Refusal>
    requires { (D.seen depot.old).given < 2 ^ 62 }
    ensures comes { IfSome (D.seen depot.old).files (λ at. ComesTo (IsOfLoaded at file.now (IsOfRepeats ticks)) result) }
    ensures whole { IfOk result IsWhole }
    ensures asks { Asks (D.seen depot.old).files (λ at. handed_load at file.now) (λ at. loaded at file.now ≡ Err Refusal.Depot)
        (D.seen depot.old) (D.seen depot.new) result }
    ensures reads { Reads (D.seen depot.old) (D.seen depot.new) result }
{
    let certified = loaded_at(alloc, file, depot)?;
    of_load(alloc, certified, ticks)
}
