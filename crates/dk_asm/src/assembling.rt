//! The assembler: a source's program, or the first line at fault.
ghost use Rattle.std.specs.Prelude.{ℕ, ◌≡◌, ◌≤◌, ◌+◌, List, map, length, IfOk, IfErr, IfSome};
ghost use Rattle.dk_asm.specs.Places.{ArePlaces, Found};
ghost use Rattle.dk_asm.specs.Reading.{read_line};
ghost use Rattle.dk_asm.specs.Seen.{seen_lines};
ghost use Rattle.dk_asm.specs.Source.{Assembled, Outcome, instructions, lines_of, told};

use crate::checking::first_fault;
use crate::encoding::code_of;
use crate::labels::{Labels, labels_of};
use crate::line::Line;
use crate::source::read_lines;
use crate::{AsmFault, LineFault, MAX_SOURCE_BYTES};
use dk_config::MAX_PROGRAM_BYTES;
use std::alloc::{AllocError, Global};

/// The code of a source's lines by their labels, or the first line at fault, from 0.
fn labelled_outcome<'a>(
    alloc: Global,
    lines: &[Option<Line<'a>>],
    labels: &Labels<'a>,
) -> Result<Result<Vec<u8>, (usize, LineFault)>, AllocError>
    requires few { length lines.now ≤ MAX_SOURCE_BYTES + 1 }
    requires places { ArePlaces labels.now.places (seen_lines lines.now) }
    requires count { labels.now.instructions ≡ instructions (seen_lines lines.now) }
    requires read { (text : List ℕ) × (seen_lines lines.now ≡ map read_line (lines_of text)) }
    ensures outcome { (text : List ℕ) → seen_lines lines.now ≡ map read_line (lines_of text)
        → IfOk result (Found text) }
    ensures within { IfOk result (λ r. IfErr r (λ fault. fault.0 ≤ MAX_SOURCE_BYTES)) }
{
    match first_fault(lines, labels) {
        Some(fault) => Ok(Err(fault)),
        None => Ok(Ok(code_of(alloc, lines, labels)?)),
    }
}

/// The code of a source's lines, or the first line at fault, from 0.
fn lines_outcome<'a>(
    alloc: Global,
    lines: &[Option<Line<'a>>],
) -> Result<Result<Vec<u8>, (usize, LineFault)>, AllocError>
    requires few { length lines.now ≤ MAX_SOURCE_BYTES + 1 }
    requires read { (text : List ℕ) × (seen_lines lines.now ≡ map read_line (lines_of text)) }
    ensures outcome { (text : List ℕ) → seen_lines lines.now ≡ map read_line (lines_of text)
        → IfOk result (Found text) }
    ensures within { IfOk result (λ r. IfErr r (λ fault. fault.0 ≤ MAX_SOURCE_BYTES)) }
{
    let labels = labels_of(alloc, lines)?;
    labelled_outcome(alloc, lines, &labels)
}

/// The code of a source, or its first line at fault, from 0.
fn outcome_of(alloc: Global, text: &[u8]) -> Result<Result<Vec<u8>, (usize, LineFault)>, AllocError>
    requires { length text.now ≤ MAX_SOURCE_BYTES }
    ensures outcome { IfOk result (Found text.now) }
    ensures within { IfOk result (λ r. IfErr r (λ fault. fault.0 ≤ MAX_SOURCE_BYTES)) }
{
    let lines = read_lines(alloc, text)?;
    lines_outcome(alloc, &lines)
}

/// The program of a source of at most 1,048,576 bytes.
///
/// It has four bytes for each instruction, at most 65,536 in all; the numbers of `BYTES` count as an
/// instruction, and only the last may have fewer than four. A source with a line at fault has no program:
/// the first such line is answered, with the first cause that holds of it. The form of a source is this
/// project's own.
pub fn assemble(alloc: Global, text: &[u8]) -> Result<Vec<u8>, AsmFault>
    requires { length text.now ≤ MAX_SOURCE_BYTES }
    // What is answered is the source's outcome.
    ensures found { IfSome (told result) (Assembled text.now) }
    // The source's outcome is answered, unless memory runs out.
    ensures only { (outcome : Outcome) → Assembled text.now outcome
        → IfSome (told result) (λ answer. answer ≡ outcome) }
    ensures size { IfOk result (λ code. length code.items ≤ MAX_PROGRAM_BYTES) }
    // No source has two outcomes.
    ensures one { (a b : Outcome) → Assembled text.now a → Assembled text.now b → a ≡ b }
{
    match outcome_of(alloc, text)? {
        Ok(code) => Ok(code),
        Err((line, cause)) => Err(AsmFault::Line {
            number: line as u32 + 1,
            cause,
        }),
    }
}
