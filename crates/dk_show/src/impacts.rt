//! What a change of the configuration does to each process.
ghost use Rattle.std.specs.Prelude.{◌≡◌, ◌+◌, ◌^◌, ◌<◌, ◌≤◌, IfOk, IfSome, Err, Ok};
ghost use Rattle.dk_config.specs.Checked.{BreaksNoRule, IsAccepted};
ghost use Rattle.dk_show.specs.Answers.{IsEnd};
ghost use Rattle.dk_show.specs.Impacts.{IsOfChange, IsOfImpact, IsTold, impact_end};
ghost use Rattle.dk_show.specs.Asking.{Asks, MissesAfter, handed_after, handed_load};
ghost use Rattle.dk_show.specs.Leaves.{Reads};
ghost use Rattle.dk_show.specs.Loading.{IsCertifiedLoad, IsOfLoaded, Loads, loaded};
ghost use Rattle.dk_show.specs.Works.{ComesTo, IsMade, IsWhole};

use crate::loading::loaded_at;
use crate::work::Work;
use crate::{Refusal, Status};
use dk_certify::{Certified, Overload};
use dk_config::{Config, Layout, NoMemory, Text};
use dk_loader::Loaded;
use dk_outside::Depot;
use dk_plan::certified_is_accepted;
use dk_show_request::ChangeRequest;
use show_impact::{CertifiedLoad, Row, impact_text, impacts, touches_only};
use show_rows::Form;
use std::alloc::Global;

fn layout_of(config: Config) -> Result<Layout, Refusal>
    requires { BreaksNoRule config }
    ensures { result ≡ Ok config }
{
    match Layout::of(config) {
        Ok(layout) => Ok(layout),
        Err(fault) => Err(Refusal::Rule(fault)),
    }
}

fn certified_of(layout: Layout) -> Result<Certified, Refusal>
    requires { IsAccepted layout }
    ensures { result ≡ Ok layout }
{
    certified_is_accepted();
    match Certified::of(layout) {
        Ok(certified) => Ok(certified),
        Err(
            Overload {
                level,
                needs,
                window,
            },
        ) => Err(Refusal::Uncertified {
            level,
            needs,
            window,
        }),
    }
}

/// The certified configuration with its programs, as a type.
fn certified_load(loaded: Loaded) -> Result<CertifiedLoad, Refusal>
    requires { IsCertifiedLoad loaded }
    ensures { result ≡ Ok loaded }
{
    let Loaded { config, programs } = loaded;
    let layout = layout_of(config)?;
    let certified = certified_of(layout)?;
    Ok(CertifiedLoad::of(certified, programs))
}

/// The certified configuration in the file of this name, with the programs of its processes.
fn load_at<D: Depot>(alloc: Global, name: &str, depot: &mut D) -> Result<CertifiedLoad, Refusal>
    requires { (D.seen depot.old).given < 2 ^ 62 + 2 ^ 30 }
    ensures loads { IfSome (D.seen depot.old).files (λ at. Loads result (loaded at name.now)) }
    ensures given { (D.seen depot.new).given ≤ (D.seen depot.old).given + 2 ^ 30 }
    ensures asks { Asks (D.seen depot.old).files (λ at. handed_load at name.now) (λ at. loaded at name.now ≡ Err Refusal.Depot)
        (D.seen depot.old) (D.seen depot.new) result }
    ensures reads { Reads (D.seen depot.old) (D.seen depot.new) result }
{
    match loaded_at(alloc, name, depot) {
        Ok(loaded) => certified_load(loaded),
        Err(refusal) => Err(refusal),
    }
}

/// How the call ends.
fn impact_end(only: bool) -> Status
    ensures is { result ≡ impact_end only }
    ensures ends { IsEnd result }
{
    if only { Status::Done } else { Status::Refused }
}

/// The rows as text, or as a table.
fn told(
    alloc: Global,
    as_csv: bool,
    old: &CertifiedLoad,
    new: &CertifiedLoad,
    rows: &[Row],
    names: &[Text],
) -> Result<Vec<u8>, NoMemory>
    ensures { IfOk result (λ v. IsTold as_csv old.now.config new.now.config rows.now names.now v.items) }
{
    if as_csv {
        impact_text(alloc, Form::Record, old, new, rows, names)
    } else {
        impact_text(alloc, Form::Line, old, new, rows, names)
    }
}

/// What the change from one configuration to another does.
fn of_change(
    alloc: Global,
    request: &ChangeRequest,
    old: &CertifiedLoad,
    new: &CertifiedLoad,
) -> Result<Work, Refusal>
    ensures comes { ComesTo (IsOfChange request.now old.now new.now) result }
    ensures made { IsMade IsWhole result }
{
    let rows = impacts(alloc, old, new)?;
    let names = request.names.as_slice();
    let bytes = told(alloc, request.as_csv, old, new, rows.as_slice(), names)?;
    let only = touches_only(old, new, rows.as_slice(), names);
    Ok(Work::Bytes(bytes, impact_end(only)))
}

/// What the change from a configuration to that in the file of this name does.
#[tactic(auto, using(crate::proofs::Asks::asks_on, crate::proofs::Asks::asks_fails))]
fn change_to<D: Depot>(
    alloc: Global,
    request: &ChangeRequest,
    old: &CertifiedLoad,
    depot: &mut D,
) -> Result<Work, Refusal>
    requires { (D.seen depot.old).given < 2 ^ 62 + 2 ^ 30 }
    ensures comes { IfSome (D.seen depot.old).files (λ at. ComesTo (IsOfLoaded at request.now.new (IsOfChange request.now old.now)) result) }
    ensures whole { IfOk result IsWhole }
    ensures asks { Asks (D.seen depot.old).files (λ at. handed_load at request.now.new) (λ at. loaded at request.now.new ≡ Err Refusal.Depot)
        (D.seen depot.old) (D.seen depot.new) result }
    ensures reads { Reads (D.seen depot.old) (D.seen depot.new) result }
{
    let new = load_at(alloc, request.new.as_str(), depot)?;
    of_change(alloc, request, old, &new)
}

/// What the change from the configuration in the one file to that in the other does.
pub(crate) fn impact_work<D: Depot>(
    alloc: Global,
    request: &ChangeRequest,
    depot: &mut D,
) -> Result<Work, Refusal>
    requires { (D.seen depot.old).given < 2 ^ 62 }
    ensures comes { IfSome (D.seen depot.old).files (λ at. ComesTo (IsOfImpact at request.now) result) }
    ensures whole { IfOk result IsWhole }
    ensures asks { Asks (D.seen depot.old).files (λ at. handed_load at request.now.old
        + handed_after (λ _. handed_load at request.now.new) (loaded at request.now.old))
        (λ at. MissesAfter (λ _. loaded at request.now.new ≡ Err Refusal.Depot) (loaded at request.now.old)) (D.seen depot.old) (D.seen depot.new) result }
    ensures reads { Reads (D.seen depot.old) (D.seen depot.new) result }
{
    let old = load_at(alloc, request.old.as_str(), depot)?;
    change_to(alloc, request, &old, depot)
}
