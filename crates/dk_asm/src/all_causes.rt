//! The cause of each line of a source.
ghost use Rattle.std.specs.Prelude.{◌≡◌, ◌<◌, ◌≤◌, ◌^◌, ◌+◌, length, IfOk};
ghost use Rattle.dk_asm.specs.Causes.{TellsOutcome, causes_from, causes_of};
ghost use Rattle.dk_asm.specs.Places.{ArePlaces};
ghost use Rattle.dk_asm.specs.Seen.{seen_lines};
ghost use Rattle.dk_asm.specs.Source.{instructions};

use crate::checking::cause_of;
use crate::labels::{Labels, instructions_on, labels_of};
use crate::line::Line;
use crate::source::read_lines;
use crate::{LineFault, MAX_SOURCE_BYTES};
use std::alloc::{AllocError, Global};

fn labelled_causes<'a>(
    alloc: Global,
    lines: &[Option<Line<'a>>],
    labels: &Labels<'a>,
) -> Result<Vec<Option<LineFault>>, AllocError>
    requires few { length lines.now < 2 ^ 32 }
    requires places { ArePlaces labels.now.places (seen_lines lines.now) }
    requires count { labels.now.instructions ≡ instructions (seen_lines lines.now) }
    ensures { IfOk result (λ causes. causes.items ≡ causes_from (seen_lines lines.now) 0 (seen_lines lines.now)) }
{
    let mut causes = Vec::new(alloc);
    let mut before = 0;
    for (i, line) in lines.iter().enumerate() {
        causes.push(cause_of(labels, line, i, before))?;
        before += instructions_on(line);
    }
    Ok(causes)
}

fn causes_of<'a>(
    alloc: Global,
    lines: &[Option<Line<'a>>],
) -> Result<Vec<Option<LineFault>>, AllocError>
    requires few { length lines.now ≤ MAX_SOURCE_BYTES + 1 }
    ensures { IfOk result (λ causes. causes.items ≡ causes_from (seen_lines lines.now) 0 (seen_lines lines.now)) }
{
    let labels = labels_of(alloc, lines)?;
    labelled_causes(alloc, lines, &labels)
}

/// The cause for which each line of a source of at most 1,048,576 bytes is at fault, in the order of the lines; None
/// where it isn't. The first is the one that `assemble` answers. `Err` is want of memory.
#[tactic(auto, using(crate::proofs::FirstCause::tells))]
pub fn line_causes(alloc: Global, text: &[u8]) -> Result<Vec<Option<LineFault>>, AllocError>
    requires { length text.now ≤ MAX_SOURCE_BYTES }
    ensures each { IfOk result (λ causes. causes.items ≡ causes_of text.now) }
    ensures first { TellsOutcome text.now }
{
    let lines = read_lines(alloc, text)?;
    causes_of(alloc, &lines)
}
