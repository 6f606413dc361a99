//! The picture of a range of a ledger.
ghost use Rattle.std.specs.Prelude.{◌≡◌, ◌≢◌, ◌+◌, ◌^◌, ◌<◌, ◌↔◌, IfOk, IfErr, IfSome, IsTrue, None};
ghost use Rattle.dk_config.specs.Checked.{IsAccepted, IsChecked, IsWithinLimits};
ghost use Rattle.dk_config.specs.declared.TheConstants.{MAX_CONFIG_BYTES};
ghost use Rattle.dk_ledger.specs.Readable.{Journal};
ghost use Rattle.dk_audit.specs.Findings.{IsOwnHeading};
ghost use Rattle.dk_picture.specs.Pictures.{IsShown};
ghost use Rattle.dk_show.specs.Answers.{IsOfNamed};
ghost use Rattle.dk_show.specs.Asking.{Asks, MissesAfter, MissesHeld, handed_after, handed_held, handed_out};
ghost use Rattle.dk_show.specs.Leaves.{Reads};
ghost use Rattle.dk_show.specs.Loading.{IsOf, certified_at};
ghost use Rattle.dk_show.specs.Pictured.{IsOfOwnPicture, IsOfPicture, IsOfShown, IsPicture, IsPictureUnder};
ghost use Rattle.dk_show.specs.Works.{ComesTo, IsMade, IsWhole};

use crate::files::file_at;
use crate::loading::certified_at;
use crate::making::range_within;
use crate::work::Work;
use crate::{Refusal, Status};
use dk_audit::is_own_heading;
use dk_config::{Config, MAX_LEDGER_BYTES, Text};
use dk_config_report::Page;
use dk_groups::survey_ledger;
use dk_ledger::{Header, LedgerFault};
use dk_outside::Depot;
use dk_picture::{PictureFault, Promise, promised_picture};
use dk_show_request::Range;
use std::alloc::Global;

/// The picture of the range, of so many ticks, which are those of the ledger in these bytes, with what is promised.
fn within(
    alloc: Global,
    header: &Header,
    bytes: &[u8],
    ticks: u32,
    range: Option<Range>,
    promise: Promise,
) -> Result<Work, Refusal>
    requires { (j : Journal) × IsShown j header.now bytes.now ticks }
    ensures comes { (j : Journal) → IsShown j header.now bytes.now ticks → ComesTo (IsPicture promise range j) result }
    ensures made { IsMade IsWhole result }
{
    let Range { from, to } = range_within(range, ticks);
    if to > ticks {
        return Err(Refusal::RangeEnds(ticks));
    }
    match promised_picture(alloc, header, bytes, ticks, from, to, promise) {
        Ok(text) => Ok(Work::Page(Page::new(text), Status::Done)),
        Err(PictureFault::TooMany(tick)) => Err(Refusal::TooManyGroups(tick)),
        Err(PictureFault::NoMemory) => Err(Refusal::NoMemory),
    }
}

/// The picture of the ledger in these bytes.
fn of_bytes(alloc: Global, bytes: &[u8], range: Option<Range>) -> Result<Work, Refusal>
    ensures comes { ComesTo (IsOfPicture range bytes.now) result }
    ensures made { IsMade IsWhole result }
{
    match survey_ledger(alloc, bytes) {
        Ok(survey) => {
            let promise = Promise::none(alloc);
            within(alloc, &survey.header, bytes, survey.ticks, range, promise)
        }
        Err(LedgerFault::Line(line)) => Err(Refusal::LedgerLine(line)),
        Err(LedgerFault::NoMemory) => Err(Refusal::NoMemory),
    }
}

/// The picture of the configuration's own ledger in these bytes, with what it promises.
fn of_own(
    alloc: Global,
    config: &Config,
    header: &Header,
    bytes: &[u8],
    ticks: u32,
    range: Option<Range>,
) -> Result<Work, Refusal>
    requires checked { IsChecked config.now }
    requires limits { IsWithinLimits config.now }
    requires accepted { IsAccepted config.now }
    requires ledger { (j : Journal) × IsShown j header.now bytes.now ticks }
    ensures comes { (j : Journal) → IsShown j header.now bytes.now ticks
        → ComesTo (IsPictureUnder config.now range j) result }
    ensures made { IsMade IsWhole result }
{
    if !is_own_heading(config, header) {
        return Err(Refusal::OtherLedger);
    }
    let promise = Promise::of(alloc, config)?;
    within(alloc, header, bytes, ticks, range, promise)
}

/// The same of the ledger in these bytes.
fn of_own_bytes(
    alloc: Global,
    config: &Config,
    bytes: &[u8],
    range: Option<Range>,
) -> Result<Work, Refusal>
    requires checked { IsChecked config.now }
    requires limits { IsWithinLimits config.now }
    requires accepted { IsAccepted config.now }
    ensures comes { ComesTo (IsOfOwnPicture config.now range bytes.now) result }
    ensures made { IsMade IsWhole result }
{
    match survey_ledger(alloc, bytes) {
        Ok(survey) => of_own(alloc, config, &survey.header, bytes, survey.ticks, range),
        Err(LedgerFault::Line(line)) => Err(Refusal::LedgerLine(line)),
        Err(LedgerFault::NoMemory) => Err(Refusal::NoMemory),
    }
}

/// The picture of the ledger in the file of this name.
#[tactic(auto, using(crate::proofs::Asks::asks_on, crate::proofs::Asks::asks_fails))]
fn plain_work<D: Depot>(
    alloc: Global,
    ledger: &str,
    range: Option<Range>,
    depot: &mut D,
) -> Result<Work, Refusal>
    requires { (D.seen depot.old).given < 2 ^ 62 }
    ensures comes { IfSome (D.seen depot.old).files
        (λ at. ComesTo (IsOfNamed at ledger.now MAX_LEDGER_BYTES Refusal.LongLedger (IsOfPicture range)) result) }
    ensures whole { IfOk result IsWhole }
    ensures asks { Asks (D.seen depot.old).files (λ at. handed_out MAX_LEDGER_BYTES (at ledger.now)) (λ at. at ledger.now ≡ None)
        (D.seen depot.old) (D.seen depot.new) result }
    ensures reads { Reads (D.seen depot.old) (D.seen depot.new) result }
{
    let bytes = file_at(alloc, depot, ledger, MAX_LEDGER_BYTES, Refusal::LongLedger)?;
    of_bytes(alloc, bytes.as_slice(), range)
}

/// The picture of the configuration's own ledger in the file of this name.
#[tactic(auto, using(crate::proofs::Asks::asks_on, crate::proofs::Asks::asks_fails))]
fn picture_in<D: Depot>(
    alloc: Global,
    config: &Config,
    ledger: &str,
    range: Option<Range>,
    depot: &mut D,
) -> Result<Work, Refusal>
    requires given { (D.seen depot.old).given < 2 ^ 62 + 2 ^ 30 }
    requires checked { IsChecked config.now }
    requires limits { IsWithinLimits config.now }
    requires accepted { IsAccepted config.now }
    ensures comes { IfSome (D.seen depot.old).files
        (λ at. ComesTo (IsOfNamed at ledger.now MAX_LEDGER_BYTES Refusal.LongLedger (IsOfOwnPicture config.now range)) result) }
    ensures whole { IfOk result IsWhole }
    ensures asks { Asks (D.seen depot.old).files (λ at. handed_out MAX_LEDGER_BYTES (at ledger.now)) (λ at. at ledger.now ≡ None)
        (D.seen depot.old) (D.seen depot.new) result }
    ensures reads { Reads (D.seen depot.old) (D.seen depot.new) result }
{
    let bytes = file_at(alloc, depot, ledger, MAX_LEDGER_BYTES, Refusal::LongLedger)?;
    of_own_bytes(alloc, config, bytes.as_slice(), range)
}

/// The same beside the certified configuration in the other file.
fn own_work<D: Depot>(
    alloc: Global,
    file: &str,
    ledger: &str,
    range: Option<Range>,
    depot: &mut D,
) -> Result<Work, Refusal>
    requires { (D.seen depot.old).given < 2 ^ 62 }
    ensures comes { IfSome (D.seen depot.old).files (λ at. ComesTo (IsOf (certified_at (at file.now))
        (λ c. IsOfNamed at ledger.now MAX_LEDGER_BYTES Refusal.LongLedger (IsOfOwnPicture c range))) result) }
    ensures whole { IfOk result IsWhole }
    ensures asks { Asks (D.seen depot.old).files (λ at. handed_out MAX_CONFIG_BYTES (at file.now)
        + handed_after (λ _. handed_out MAX_LEDGER_BYTES (at ledger.now)) (certified_at (at file.now)))
        (λ at. MissesAfter (λ _. at ledger.now ≡ None) (certified_at (at file.now))) (D.seen depot.old) (D.seen depot.new) result }
    ensures reads { Reads (D.seen depot.old) (D.seen depot.new) result }
{
    let config = certified_at(alloc, file, depot)?;
    picture_in(alloc, &config, ledger, range, depot)
}

/// The picture of the ledger in the file of this name, with what the certified configuration in the other file promises, if
/// there is one.
pub(crate) fn picture_work<D: Depot>(
    alloc: Global,
    ledger: &str,
    file: &Option<Text>,
    range: Option<Range>,
    depot: &mut D,
) -> Result<Work, Refusal>
    requires { (D.seen depot.old).given < 2 ^ 62 }
    ensures comes { IfSome (D.seen depot.old).files (λ at. ComesTo (IsOfShown file.now at range ledger.now) result) }
    ensures whole { IfOk result IsWhole }
    ensures asks { Asks (D.seen depot.old).files (λ at. handed_held file.now at ledger.now) (λ at. MissesHeld file.now at ledger.now)
        (D.seen depot.old) (D.seen depot.new) result }
    ensures reads { Reads (D.seen depot.old) (D.seen depot.new) result }
{
    match file {
        Some(file) => own_work(alloc, file.as_str(), ledger, range, depot),
        None => plain_work(alloc, ledger, range, depot),
    }
}
