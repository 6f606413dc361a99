//! The disassembler: the listing of a program.
ghost use Rattle.std.specs.Prelude.{◌≡◌, ◌≤◌, ◌++◌, ◌∷◌, [], length, map, decimal, IfOk, OnOk};
ghost use Rattle.dk_isa.specs.Table.{instruction_of};
ghost use Rattle.dk_asm.specs.Listing.{operand_text, operand_texts, instruction_text, bytes_text, group_text, listing};
ghost use Rattle.dk_asm.specs.Source.{Assembled, Outcome};
ghost use Rattle.dk_asm.specs.Writing.{behind};

use crate::MAX_SOURCE_BYTES;
use crate::kind::Kind;
use crate::written::{mnemonic_of, values_of};
use dk_config::{MAX_PROGRAM_BYTES, NoMemory};
use dk_isa::{Instr, decode};
use std::alloc::{AllocError, Global};

fn push_word(text: &mut Vec<u8>, word: &[u8]) -> Result<(), AllocError>
    ensures { OnOk result (text.new.items ≡ text.old.items ++ word.now) }
{
    text.extend_from_slice(word)
}

fn push_number(text: &mut Vec<u8>, n: u16) -> Result<(), AllocError>
    ensures { OnOk result (text.new.items ≡ text.old.items ++ decimal n) }
{
    let mut digits = itoa::Buffer::new();
    push_word(text, digits.format(n).as_bytes())
}

fn push_operand(text: &mut Vec<u8>, kind: Kind, n: u16) -> Result<(), AllocError>
    ensures { OnOk result (text.new.items ≡ text.old.items ++ operand_text kind n) }
{
    if let Kind::Register = kind {
        text.push(b'r')?;
    }
    push_number(text, n)
}

/// Appends the operands, each behind a separator: the given one before the first, then commas.
fn push_operands(
    text: &mut Vec<u8>,
    separator: u8,
    kinds: &[Kind],
    values: &[u16],
) -> Result<(), AllocError>
    ensures { OnOk result (text.new.items ≡ text.old.items ++ behind separator (operand_texts kinds.now values.now)) }
{
    let [kind, kinds @ ..] = kinds else {
        return Ok(());
    };
    let [value, values @ ..] = values else {
        return Ok(());
    };
    text.push(separator)?;
    push_operand(text, *kind, *value)?;
    push_operands(text, b',', kinds, values)
}

/// Appends the numbers, each behind a separator.
fn push_numbers(text: &mut Vec<u8>, separator: u8, numbers: &[u8]) -> Result<(), AllocError>
    ensures { OnOk result (text.new.items ≡ text.old.items ++ behind separator (map decimal numbers.now)) }
{
    match numbers {
        [] => Ok(()),
        [number, numbers @ ..] => {
            text.push(separator)?;
            push_number(text, *number as u16)?;
            push_numbers(text, b',', numbers)
        }
    }
}

fn push_instruction(text: &mut Vec<u8>, instr: Instr) -> Result<(), AllocError>
    ensures { OnOk result (text.new.items ≡ text.old.items ++ instruction_text instr) }
{
    let mnemonic = mnemonic_of(instr);
    push_word(text, mnemonic.name())?;
    push_operands(text, b' ', mnemonic.kinds(), &values_of(instr))
}

fn push_bytes(text: &mut Vec<u8>, bytes: &[u8]) -> Result<(), AllocError>
    ensures { OnOk result (text.new.items ≡ text.old.items ++ bytes_text bytes.now) }
{
    push_word(text, b"BYTES")?;
    push_numbers(text, b' ', bytes)
}

fn instruction(group: &[u8]) -> Option<Instr>
    ensures { result ≡ instruction_of group.now }
{
    match *group {
        [x, y, z, w] => decode([x, y, z, w]),
        _ => None,
    }
}

fn push_line(text: &mut Vec<u8>, group: &[u8]) -> Result<(), AllocError>
    ensures { OnOk result (text.new.items ≡ text.old.items ++ (group_text group.now ++ 10 ∷ [])) }
{
    match instruction(group) {
        Some(instr) => push_instruction(text, instr)?,
        None => push_bytes(text, group)?,
    }
    text.push(b'\n')?;
    Ok(())
}

/// The listing of a program of at most 65,536 bytes.
///
/// It has one line for each group of four bytes, which is the instruction where they are one and else
/// `BYTES` with their numbers, and a last one for the one to three bytes that may be left. The form of a
/// listing is this project's own. `assemble` gives the program back.
pub fn disassemble(alloc: Global, code: &[u8]) -> Result<Vec<u8>, NoMemory>
    requires { length code.now ≤ MAX_PROGRAM_BYTES }
    ensures listing { IfOk result (λ text. text.items ≡ listing code.now) }
    ensures size { IfOk result (λ text. length text.items ≤ MAX_SOURCE_BYTES) }
    // The source that is listed is a source of this program.
    ensures back { Assembled (listing code.now) (Outcome.program code.now) }
{
    let mut text = Vec::new(alloc);
    let mut rest = code;
    while !rest.is_empty() {
        let (group, behind) = rest.split_at(rest.len().min(4));
        push_line(&mut text, group)?;
        rest = behind;
    }
    Ok(text)
}
