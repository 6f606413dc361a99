//! The causes for which a line of a source is at fault, and the first such line.
ghost use Rattle.std.specs.Prelude.{◌≡◌, ◌<◌, ◌^◌, Some, length, IfSome, MatchOption};
ghost use Rattle.std.specs.List.{list_any};
ghost use Rattle.dk_asm.specs.Places.{ArePlaces, is_unplaced, stands_before, cause_by, IsFirstFault, HasNoFault};
ghost use Rattle.dk_asm.specs.Seen.{operand as seen_operand, operands as seen_operands, parts as seen_parts, seen_line, seen_lines};
ghost use Rattle.dk_asm.specs.Source.{instructions, is_outside, has_part, operands_on};

use crate::labels::{Labels, instructions_on, place_at};
use crate::line::{Line, Statement};
use crate::operand::Operand;
use crate::{LineFault, MAX_INSTRUCTIONS};

fn is_outside<'a>(operand: &Operand<'a>) -> bool
    ensures { result ≡ is_outside (seen_operand operand.now) }
{
    match operand {
        Operand::Outside => true,
        Operand::Value(_) => false,
        Operand::Label(_) => false,
    }
}

/// Whether a number is out of its range.
fn any_outside<'a>(operands: &[Operand<'a>]) -> bool
    ensures { result ≡ list_any is_outside (seen_operands operands.now) }
{
    match operands {
        [] => false,
        [operand, operands @ ..] => is_outside(operand) || any_outside(operands),
    }
}

pub(crate) fn operands_on<'l, 'a>(line: &'l Line<'a>) -> &'l [Operand<'a>]
    ensures { seen_operands result.now ≡ operands_on (Some (seen_parts line.now)) }
{
    match &line.statement {
        None => &[],
        Some(Statement::Instruction(_, operands)) => operands,
        Some(Statement::Bytes(operands)) => operands,
    }
}

fn is_unplaced<'a>(labels: &Labels<'a>, operand: &Operand<'a>) -> bool
    ensures { result ≡ is_unplaced labels.now.places (seen_operand operand.now) }
{
    match operand {
        Operand::Label(name) => place_at(&labels.places, name).is_none(),
        Operand::Value(_) => false,
        Operand::Outside => false,
    }
}

/// Whether an imm is a label that no line defines.
fn any_unplaced<'a>(labels: &Labels<'a>, operands: &[Operand<'a>]) -> bool
    ensures { result ≡ list_any (is_unplaced labels.now.places) (seen_operands operands.now) }
{
    match operands {
        [] => false,
        [operand, operands @ ..] => is_unplaced(labels, operand) || any_unplaced(labels, operands),
    }
}

/// Whether the label of line i stands on an earlier line.
fn is_twice<'a>(labels: &Labels<'a>, line: &Line<'a>, i: usize) -> bool
    ensures { result ≡ stands_before labels.now.places i (Some (seen_parts line.now)) }
{
    let Some(name) = line.label else {
        return false;
    };
    match place_at(&labels.places, name) {
        Some(place) => place.line < i,
        None => false,
    }
}

/// Whether it is `BYTES` with fewer than four numbers.
fn has_part<'a>(line: &Line<'a>) -> bool
    ensures { result ≡ has_part (Some (seen_parts line.now)) }
{
    match &line.statement {
        Some(Statement::Bytes(operands)) => operands.len() < 4,
        _ => false,
    }
}

/// Why line i is at fault, if it is; the lines before it have so many instructions.
pub(crate) fn cause_of<'a>(
    labels: &Labels<'a>,
    line: &Option<Line<'a>>,
    i: usize,
    before: usize,
) -> Option<LineFault>
    requires { before < 2 ^ 32 }
    ensures { result ≡ cause_by labels.now.places labels.now.instructions (seen_line line.now) i before }
{
    let Some(line) = line else {
        return Some(LineFault::Form);
    };
    let operands = operands_on(line);
    if any_outside(operands) {
        Some(LineFault::Range)
    } else if is_twice(labels, line, i) {
        Some(LineFault::Twice)
    } else if any_unplaced(labels, operands) {
        Some(LineFault::Unknown)
    } else if has_part(line) && before + 1 < labels.instructions {
        Some(LineFault::Short)
    } else if line.statement.is_some() && before == MAX_INSTRUCTIONS {
        Some(LineFault::Many)
    } else {
        None
    }
}

/// The first line at fault, from 0, with its cause.
pub(crate) fn first_fault<'a>(
    lines: &[Option<Line<'a>>],
    labels: &Labels<'a>,
) -> Option<(usize, LineFault)>
    requires few { length lines.now < 2 ^ 32 }
    requires places { ArePlaces labels.now.places (seen_lines lines.now) }
    requires count { labels.now.instructions ≡ instructions (seen_lines lines.now) }
    ensures first { MatchOption result (HasNoFault (seen_lines lines.now))
        (λ f. IsFirstFault (seen_lines lines.now) f.0 f.1) }
    ensures within { IfSome result (λ f. f.0 < length lines.now) }
{
    let mut before = 0;
    for (i, line) in lines.iter().enumerate() {
        if let Some(cause) = cause_of(labels, line, i, before) {
            return Some((i, cause));
        }
        before += instructions_on(line);
    }
    None
}
