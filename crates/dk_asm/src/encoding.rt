//! The bytes of a source's lines, with the values of its labels.
ghost use Rattle.std.specs.Prelude.{◌≡◌, ◌<◌, ◌++◌, Some, get_or, length, replicate, IfOk, OnOk};
ghost use Rattle.std.specs.List.{AllByRecursion};
ghost use Rattle.dk_isa.specs.Table.{HasRegisters, bytes_of};
ghost use Rattle.dk_asm.specs.declared.kind.Kind.{Kind};
ghost use Rattle.dk_asm.specs.Grammar.{Statement as Grammatical};
ghost use Rattle.dk_asm.specs.Ranges.{FitPlaces, FitsLine, AppendsCode, value_by, values_by};
ghost use Rattle.dk_asm.specs.Seen.{operand as seen_operand, operands as seen_operands, seen_line, seen_lines};
ghost use Rattle.dk_asm.specs.Source.{IsCode, statement_on};
ghost use Rattle.dk_asm.specs.Table.{row_of, written, with_values};

use crate::labels::{Labels, place_at};
use crate::line::{Line, Statement};
use crate::operand::Operand;
use crate::table::Mnemonic;
use dk_isa::{Instr, encode};
use std::alloc::{AllocError, Global};

fn value_of<'a>(labels: &Labels<'a>, operand: &Operand<'a>) -> u16
    requires { value_by labels.now.places (seen_operand operand.now) < 65536 }
    ensures { result ≡ value_by labels.now.places (seen_operand operand.now) }
{
    match operand {
        Operand::Value(n) => *n,
        Operand::Label(name) => match place_at(&labels.places, name) {
            Some(place) => place.value as u16,
            None => 0,
        },
        Operand::Outside => 0,
    }
}

/// The value of the operand at a place, and 0 where there is none.
fn value_at<'a>(labels: &Labels<'a>, operands: &[Operand<'a>], place: usize) -> u16
    requires { AllByRecursion (λ o. value_by labels.now.places o < 65536) (seen_operands operands.now) }
    ensures { result ≡ get_or (values_by labels.now.places operands.now) place 0 }
{
    if place < operands.len() {
        value_of(labels, &operands[place])
    } else {
        0
    }
}

fn instruction_of<'a>(labels: &Labels<'a>, mnemonic: Mnemonic, operands: &[Operand<'a>]) -> Instr
    requires { FitPlaces (row_of mnemonic).kinds (values_by labels.now.places operands.now) }
    ensures written { written result ≡ with_values mnemonic (values_by labels.now.places operands.now) }
    ensures registers { HasRegisters result }
{
    mnemonic.instruction(
        value_at(labels, operands, 0),
        value_at(labels, operands, 1),
        value_at(labels, operands, 2),
    )
}

fn push_word(code: &mut Vec<u8>, instr: Instr) -> Result<(), AllocError>
    requires { HasRegisters instr }
    ensures { OnOk result (code.new.items ≡ code.old.items ++ bytes_of instr) }
{
    code.extend_from_slice(&encode(instr))
}

fn push_instruction<'a>(
    code: &mut Vec<u8>,
    labels: &Labels<'a>,
    mnemonic: Mnemonic,
    operands: &[Operand<'a>],
) -> Result<(), AllocError>
    requires { FitPlaces (row_of mnemonic).kinds (values_by labels.now.places operands.now) }
    ensures { OnOk result (AppendsCode (value_by labels.now.places)
        (Some (Grammatical.instruction mnemonic (seen_operands operands.now))) code.old.items code.new.items) }
{
    push_word(code, instruction_of(labels, mnemonic, operands))
}

fn push_bytes<'a>(
    code: &mut Vec<u8>,
    labels: &Labels<'a>,
    operands: &[Operand<'a>],
) -> Result<(), AllocError>
    requires { FitPlaces (replicate (length operands.now) Kind.Byte) (values_by labels.now.places operands.now) }
    ensures { OnOk result (code.new.items ≡ code.old.items ++ values_by labels.now.places operands.now) }
{
    match operands {
        [] => Ok(()),
        [operand, operands @ ..] => {
            code.push(value_of(labels, operand) as u8)?;
            push_bytes(code, labels, operands)
        }
    }
}

fn push_line<'a>(
    code: &mut Vec<u8>,
    labels: &Labels<'a>,
    line: &Option<Line<'a>>,
) -> Result<(), AllocError>
    requires { FitsLine (value_by labels.now.places) (seen_line line.now) }
    ensures { OnOk result (AppendsCode (value_by labels.now.places)
        (statement_on (seen_line line.now)) code.old.items code.new.items) }
{
    let Some(line) = line else {
        return Ok(());
    };
    match &line.statement {
        None => Ok(()),
        Some(Statement::Instruction(mnemonic, operands)) => {
            push_instruction(code, labels, *mnemonic, operands)
        }
        Some(Statement::Bytes(operands)) => push_bytes(code, labels, operands),
    }
}

/// The code of lines of which none is at fault.
pub(crate) fn code_of<'a>(
    alloc: Global,
    lines: &[Option<Line<'a>>],
    labels: &Labels<'a>,
) -> Result<Vec<u8>, AllocError>
    requires { AllByRecursion (FitsLine (value_by labels.now.places)) (seen_lines lines.now) }
    ensures { IfOk result (λ code. IsCode (value_by labels.now.places) (seen_lines lines.now) code.items) }
{
    let mut code = Vec::new(alloc);
    for line in lines {
        push_line(&mut code, labels, line)?;
    }
    Ok(code)
}
