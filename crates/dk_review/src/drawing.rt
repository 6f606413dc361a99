//! The picture of a ledger.
ghost use Rattle.std.specs.Prelude.{ℕ, ◌≡◌, ◌≤◌, IfErr, IfOk, string_bytes};
ghost use Rattle.dk_ledger.specs.Readable.{Journal};
ghost use Rattle.dk_picture.specs.Pictures.{IsShown};
ghost use Rattle.dk_review.specs.Runs.{EndsBefore, IsDrawingIn, IsDrawingOf, IsFaultOf, IsOfLedger, range_within};

use crate::fault::RunFault;
use dk_config::NoMemory;
use dk_groups::survey_ledger;
use dk_ledger::{Header, LedgerFault};
use dk_page::Drawing;
use dk_picture::{PictureFault, picture};
use std::alloc::Global;

/// The ticks from `from` up to before `to`.
#[derive(Clone, Copy)]
pub struct Range {
    pub from: u32,
    pub to: u32,
}

pub(crate) fn text_bytes(text: String) -> Vec<u8>
    ensures { result.items ≡ string_bytes text }
{
    text.into_bytes()
}

/// The range that is asked for, and without one all of so many ticks.
fn range_within(range: Option<Range>, ticks: u32) -> Range
    ensures { result ≡ range_within range ticks }
{
    match range {
        Some(range) => range,
        None => Range { from: 0, to: ticks },
    }
}

/// The picture of the range of the ledger in these bytes, which has this header and so many ticks.
fn drawn(
    alloc: Global,
    header: &Header,
    bytes: &[u8],
    ticks: u32,
    range: Range,
) -> Result<Drawing, NoMemory>
    requires { (j : Journal) × IsShown j header.now bytes.now ticks }
    ensures { IfOk result (λ d. (j : Journal) → IsShown j header.now bytes.now ticks → IsDrawingIn range d j) }
{
    match picture(alloc, header, bytes, ticks, range.from, range.to) {
        Ok(text) => Ok(Drawing::Drawn(text_bytes(text))),
        Err(PictureFault::TooMany(tick)) => Ok(Drawing::TooMany(tick)),
        Err(PictureFault::NoMemory) => Err(NoMemory),
    }
}

/// The picture of the range that is asked for, where the ledger has its ticks.
fn within(
    alloc: Global,
    header: &Header,
    bytes: &[u8],
    ticks: u32,
    range: Option<Range>,
) -> Result<Drawing, RunFault>
    requires { (j : Journal) × IsShown j header.now bytes.now ticks }
    ensures drawn { IfOk result (λ d. IsOfLedger (IsDrawingOf range d) bytes.now) }
    ensures fault { IfErr result (IsFaultOf ⊥ range bytes.now) }
{
    let range = range_within(range, ticks);
    if range.to > ticks {
        return Err(RunFault::Ends(ticks));
    }
    match drawn(alloc, header, bytes, ticks, range) {
        Ok(drawing) => Ok(drawing),
        Err(_) => Err(RunFault::NoMemory),
    }
}

/// The picture of the range of the ledger in these bytes, or up to which tick there is one.
pub(crate) fn drawing_of(
    alloc: Global,
    bytes: &[u8],
    range: Option<Range>,
) -> Result<Drawing, RunFault>
    ensures drawn { IfOk result (λ d. IsOfLedger (IsDrawingOf range d) bytes.now) }
    ensures fault { IfErr result (IsFaultOf ⊥ range bytes.now) }
{
    match survey_ledger(alloc, bytes) {
        Ok(survey) => within(alloc, &survey.header, bytes, survey.ticks, range),
        Err(LedgerFault::Line(line)) => Err(RunFault::Line(line)),
        Err(LedgerFault::NoMemory) => Err(RunFault::NoMemory),
    }
}
