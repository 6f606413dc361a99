//! The files of a check of needs.
ghost use Rattle.std.specs.Prelude.{◌≡◌, ◌≢◌, ◌+◌, ◌^◌, ◌<◌, ◌≤◌, IfOk, IfErr, IfSome, Err, None};
ghost use Rattle.dk_config.specs.Checked.{BreaksNoRule, IsAccepted, IsChecked, IsWithinLimits};
ghost use Rattle.dk_config.specs.declared.TheConstants.{MAX_CONFIG_BYTES, MAX_LEDGER_BYTES};
ghost use Rattle.dk_loader.specs.declared.fault.LoadFault.TheVariants as fault;
ghost use Rattle.dk_loader.specs.Programs.{bytes_read, loading};
ghost use Rattle.dk_needs.specs.Reading.{reading};
ghost use Rattle.dk_show.specs.Answers.{IsOfNamed};
ghost use Rattle.dk_show.specs.Asking.{Asks, MissesAfter, MissesLedger, MissesReady, handed_after, handed_ledger, handed_needs, handed_out, handed_programs, handed_ready};
ghost use Rattle.dk_show.specs.Leaves.{Reads};
ghost use Rattle.dk_show.specs.Loading.{IsOf, Loads, certified_at, programs_of};
ghost use Rattle.dk_show.specs.Needed.{IsAskedOf, IsOfCheck, IsOfNeeds, IsReadyOf, asked_at, asked_of, asks_programs, ready_at, ready_of, running};
ghost use Rattle.dk_show.specs.Works.{ComesTo, IsMade, IsWhole};
ghost use Rattle.std.specs.Prelude.{Some};

use crate::Refusal;
use crate::files::file_at;
use crate::loading::{certified_at, with_programs};
use crate::needed::of_ready;
use crate::work::Work;
use dk_config::{Config, MAX_CONFIG_BYTES, MAX_LEDGER_BYTES, NoMemory};
use dk_loader::Loaded;
use dk_needs::{NeedsError, read_needs};
use dk_needs_always::asks_always;
use dk_outside::Depot;
use dk_show_request::{CheckForm, CheckRequest};
use std::alloc::Global;
use std::marker::Model;

/// A certified configuration, and the bytes of a document of needs. It is seen with a list in place of the `Vec`.
#[derive(Drop)]
pub(crate) struct Asked {
    pub(crate) config: Config,
    pub(crate) needs: Vec<u8>,
}

impl Model for Asked {
    ghost use Rattle.dk_show.specs.Needed.{AskedIn};

    ghost Value = { AskedIn };

    ghost view = { λ a. record { config = a.config; needs = a.needs.items } };
}

/// What needs are decided with.
#[derive(Drop)]
pub(crate) enum Layout {
    /// A certified configuration alone.
    Alone(Config),
    /// One with its programs, since needs of all time are asked for.
    Running(Loaded),
}

/// What needs are decided with, and the bytes of a document of needs. It is seen with a list in place of the `Vec`.
#[derive(Drop)]
pub(crate) struct Ready {
    pub(crate) layout: Layout,
    pub(crate) needs: Vec<u8>,
}

impl Model for Ready {
    ghost use Rattle.dk_show.specs.Needed.{ReadyIn};

    ghost Value = { ReadyIn };

    ghost view = { λ r. record { layout = r.layout; needs = r.needs.items } };
}

/// The configuration with the needs in the file of this name.
#[tactic(auto, using(crate::proofs::Asks::asks_on, crate::proofs::Asks::asks_fails))]
fn with_needs<D: Depot>(
    alloc: Global,
    config: Config,
    needs: &str,
    depot: &mut D,
) -> Result<Asked, Refusal>
    requires given { (D.seen depot.old).given < 2 ^ 62 + 2 ^ 30 }
    requires unbroken { BreaksNoRule config }
    requires checked { IsChecked config }
    requires accepted { IsAccepted config }
    requires limits { IsWithinLimits config }
    ensures loads { IfSome (D.seen depot.old).files (λ at. Loads result (asked_of config (at needs.now))) }
    ensures asked { IfOk result IsAskedOf }
    ensures given { (D.seen depot.new).given ≤ (D.seen depot.old).given + (MAX_CONFIG_BYTES + 1) }
    ensures asks { Asks (D.seen depot.old).files (λ at. handed_out MAX_CONFIG_BYTES (at needs.now)) (λ at. at needs.now ≡ None)
        (D.seen depot.old) (D.seen depot.new) result }
    ensures reads { Reads (D.seen depot.old) (D.seen depot.new) result }
{
    let bytes = file_at(alloc, depot, needs, MAX_CONFIG_BYTES, Refusal::LongNeeds)?;
    Ok(Asked {
        config,
        needs: bytes,
    })
}

/// The certified configuration and the needs of a request.
fn asked_at<D: Depot>(
    alloc: Global,
    request: &CheckRequest,
    depot: &mut D,
) -> Result<Asked, Refusal>
    requires { (D.seen depot.old).given < 2 ^ 62 }
    ensures loads { IfSome (D.seen depot.old).files (λ at. Loads result (asked_at at request.now)) }
    ensures asked { IfOk result IsAskedOf }
    ensures given { (D.seen depot.new).given ≤ (D.seen depot.old).given + 2 ^ 30 }
    ensures asks { Asks (D.seen depot.old).files (λ at. handed_needs at request.now)
        (λ at. MissesAfter (λ _. at request.now.needs ≡ None) (certified_at (at request.now.file))) (D.seen depot.old) (D.seen depot.new) result }
    ensures reads { Reads (D.seen depot.old) (D.seen depot.new) result }
{
    let config = certified_at(alloc, request.file.as_str(), depot)?;
    with_needs(alloc, config, request.needs.as_str(), depot)
}

/// Whether the document in these bytes asks for needs of all time.
fn asks_programs(alloc: Global, bytes: &[u8]) -> Result<bool, NoMemory>
    ensures { IfOk result (λ asks. asks ≡ asks_programs (reading bytes.now)) }
{
    match read_needs(alloc, bytes) {
        Ok(needs) => Ok(asks_always(&needs)),
        Err(NeedsError::NoMemory) => Err(NoMemory),
        Err(_) => Ok(false),
    }
}

/// The needs with the programs of the configuration.
fn running<D: Depot>(alloc: Global, asked: Asked, depot: &mut D) -> Result<Ready, Refusal>
    requires given { (D.seen depot.old).given < 2 ^ 62 + 2 ^ 31 }
    requires asked { IsAskedOf asked }
    ensures loads { IfSome (D.seen depot.old).files (λ at. Loads result (running asked.needs (programs_of (loading at asked.config)))) }
    ensures ready { IfOk result IsReadyOf }
    ensures given { (D.seen depot.new).given ≤ (D.seen depot.old).given + 2 ^ 29 }
    ensures asks { Asks (D.seen depot.old).files (λ at. bytes_read at asked.config.processes)
        (λ at. loading at asked.config ≡ Err fault.Depot) (D.seen depot.old) (D.seen depot.new) result }
    ensures reads { Reads (D.seen depot.old) (D.seen depot.new) result }
{
    let Asked { config, needs } = asked;
    let loaded = with_programs(alloc, config, depot)?;
    Ok(Ready {
        layout: Layout::Running(loaded),
        needs,
    })
}

/// The needs with the configuration alone.
fn alone(asked: Asked) -> Ready
    ensures { result ≡ record { layout = Layout.Alone asked.config; needs = asked.needs } }
{
    let Asked { config, needs } = asked;
    Ready {
        layout: Layout::Alone(config),
        needs,
    }
}

/// With the programs, where needs of all time are asked for.
fn ready_of<D: Depot>(alloc: Global, asked: Asked, depot: &mut D) -> Result<Ready, Refusal>
    requires given { (D.seen depot.old).given < 2 ^ 62 + 2 ^ 31 }
    requires asked { IsAskedOf asked }
    ensures loads { IfSome (D.seen depot.old).files (λ at. Loads result (ready_of at asked)) }
    ensures ready { IfOk result IsReadyOf }
    ensures given { (D.seen depot.new).given ≤ (D.seen depot.old).given + 2 ^ 29 }
    ensures asks { Asks (D.seen depot.old).files (λ at. handed_programs at asked)
        (λ at. ready_of at asked ≡ Err Refusal.Depot) (D.seen depot.old) (D.seen depot.new) result }
    ensures reads { Reads (D.seen depot.old) (D.seen depot.new) result }
{
    if asks_programs(alloc, asked.needs.as_slice())? {
        running(alloc, asked, depot)
    } else {
        Ok(alone(asked))
    }
}

/// What the needs of a request are decided with.
fn ready_at<D: Depot>(
    alloc: Global,
    request: &CheckRequest,
    depot: &mut D,
) -> Result<Ready, Refusal>
    requires { (D.seen depot.old).given < 2 ^ 62 }
    ensures loads { IfSome (D.seen depot.old).files (λ at. Loads result (ready_at at request.now)) }
    ensures ready { IfOk result IsReadyOf }
    ensures given { (D.seen depot.new).given ≤ (D.seen depot.old).given + 2 ^ 31 }
    ensures asks { Asks (D.seen depot.old).files (λ at. handed_ready at request.now) (λ at. MissesReady at request.now)
        (D.seen depot.old) (D.seen depot.new) result }
    ensures reads { Reads (D.seen depot.old) (D.seen depot.new) result }
{
    let asked = asked_at(alloc, request, depot)?;
    ready_of(alloc, asked, depot)
}

/// Which needs are met, and by the ledger in the file of this name.
#[tactic(auto, using(crate::proofs::Asks::asks_on, crate::proofs::Asks::asks_fails))]
fn with_ledger<D: Depot>(
    alloc: Global,
    form: CheckForm,
    ready: Ready,
    ledger: &str,
    depot: &mut D,
) -> Result<Work, Refusal>
    requires given { (D.seen depot.old).given < 2 ^ 62 + 2 ^ 32 }
    requires ready { IsReadyOf ready }
    ensures comes { IfSome (D.seen depot.old).files (λ at. ComesTo (IsOfNamed at ledger.now MAX_LEDGER_BYTES Refusal.LongLedger
        (λ bytes. IsOfNeeds form ready.layout (Some bytes) ready.needs)) result) }
    ensures whole { IfOk result IsWhole }
    ensures asks { Asks (D.seen depot.old).files (λ at. handed_out MAX_LEDGER_BYTES (at ledger.now)) (λ at. at ledger.now ≡ None)
        (D.seen depot.old) (D.seen depot.new) result }
    ensures reads { Reads (D.seen depot.old) (D.seen depot.new) result }
{
    let bytes = file_at(alloc, depot, ledger, MAX_LEDGER_BYTES, Refusal::LongLedger)?;
    of_ready(alloc, form, ready, Some(bytes.as_slice()))
}

/// Which needs are met, and by a ledger where one is asked for.
fn answered<D: Depot>(
    alloc: Global,
    request: &CheckRequest,
    ready: Ready,
    depot: &mut D,
) -> Result<Work, Refusal>
    requires given { (D.seen depot.old).given < 2 ^ 62 + 2 ^ 32 }
    requires ready { IsReadyOf ready }
    ensures comes { IfSome (D.seen depot.old).files (λ at. ComesTo (IsOfCheck at request.now.form request.now.ledger ready) result) }
    ensures whole { IfOk result IsWhole }
    ensures asks { Asks (D.seen depot.old).files (λ at. handed_ledger at request.now.ledger) (λ at. MissesLedger at request.now.ledger)
        (D.seen depot.old) (D.seen depot.new) result }
    ensures reads { Reads (D.seen depot.old) (D.seen depot.new) result }
{
    match &request.ledger {
        Some(ledger) => with_ledger(alloc, request.form, ready, ledger.as_str(), depot),
        None => of_ready(alloc, request.form, ready, None),
    }
}

/// Which of the needs in the one file the configuration in the other meets, where it is certified, and the ledger in a third.
pub(crate) fn check_work<D: Depot>(
    alloc: Global,
    request: &CheckRequest,
    depot: &mut D,
) -> Result<Work, Refusal>
    requires { (D.seen depot.old).given < 2 ^ 62 }
    ensures comes { IfSome (D.seen depot.old).files (λ at. ComesTo (IsOf (ready_at at request.now)
        (IsOfCheck at request.now.form request.now.ledger)) result) }
    ensures whole { IfOk result IsWhole }
    ensures asks { Asks (D.seen depot.old).files (λ at. handed_ready at request.now
        + handed_after (λ _. handed_ledger at request.now.ledger) (ready_at at request.now))
        (λ at. MissesAfter (λ _. MissesLedger at request.now.ledger) (ready_at at request.now)) (D.seen depot.old) (D.seen depot.new) result }
    ensures reads { Reads (D.seen depot.old) (D.seen depot.new) result }
{
    let ready = ready_at(alloc, request, depot)?;
    answered(alloc, request, ready, depot)
}
