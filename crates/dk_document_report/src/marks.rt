//! Where the expressions of a document end.
ghost use Rattle.std.specs.Prelude.{◌≡◌, ◌<◌, ◌≤◌, ◌+◌, IfOk, OnOk, length, slice_index};
ghost use Rattle.dk_document_report.specs.Expressions.{AreEnds, AreCut, each_line};

use crate::reading::is_document;
use dk_config::NoMemory;
use std::alloc::Global;

/// The bytes of an expression that are tried at the end of each of its lines; a longer one is tried where it has grown by
/// a half, so that all tries take about as long as three of the whole.
const EACH_LINE: usize = 4096;

/// From how many bytes on an expression is tried again.
fn next_try(tried: usize) -> usize
    ensures { 0 < result → each_line ≤ tried }
{
    if tried < EACH_LINE {
        0
    } else {
        tried.saturating_add(tried / 2)
    }
}

/// The ends of the expressions so far, where the present one starts, and from how many bytes on it is tried.
#[derive(Drop)]
pub struct Cuts {
    pub ends: Vec<usize>,
    pub start: usize,
    pub wait: usize,
}

/// Takes the end of a line, the byte at this place.
fn take_line(alloc: Global, bytes: &[u8], cuts: &mut Cuts, at: usize) -> Result<(), NoMemory>
    requires within { at < length bytes.now }
    requires line { slice_index bytes.now at ≡ 10 }
    requires cut { AreCut bytes.now at cuts.old }
    ensures { OnOk result (AreCut bytes.now (at + 1) cuts.new) }
{
    let tried = at - cuts.start;
    if tried < cuts.wait {
        return Ok(());
    }
    if !is_document(alloc, &bytes[cuts.start..at + 1])? {
        cuts.wait = next_try(tried);
        return Ok(());
    }
    cuts.ends.push(at + 1)?;
    cuts.start = at + 1;
    cuts.wait = 0;
    Ok(())
}

/// Takes one byte more.
fn take_byte(alloc: Global, bytes: &[u8], cuts: &mut Cuts, at: usize) -> Result<(), NoMemory>
    requires within { at < length bytes.now }
    requires cut { AreCut bytes.now at cuts.old }
    ensures { OnOk result (AreCut bytes.now (at + 1) cuts.new) }
{
    if bytes[at] != b'\n' {
        return Ok(());
    }
    take_line(alloc, bytes, cuts, at)
}

/// The ends of the expressions of a document, but of the last, which ends with it: what stands from one to the next is a
/// document by itself.
pub fn ends_of_expressions(alloc: Global, bytes: &[u8]) -> Result<Vec<usize>, NoMemory>
    ensures { IfOk result (λ ends. AreEnds bytes.now ends.items) }
{
    let mut cuts = Cuts {
        ends: Vec::new(alloc),
        start: 0,
        wait: 0,
    };
    for at in 0..bytes.len() {
        take_byte(alloc, bytes, &mut cuts, at)?;
    }
    Ok(cuts.ends)
}
