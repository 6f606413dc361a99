//! An instruction as it is written.
ghost use Rattle.std.specs.Prelude.{◌≡◌, take, length};
ghost use Rattle.dk_asm.specs.Table.{row_of, written};

use crate::table::Mnemonic;
use dk_isa::Instr;

/// The name of an instruction.
pub(crate) fn mnemonic_of(instr: Instr) -> Mnemonic
    ensures { result ≡ (written instr).mnemonic }
{
    match instr {
        Instr::Nop => Mnemonic::Nop,
        Instr::Li { .. } => Mnemonic::Li,
        Instr::Lih { .. } => Mnemonic::Lih,
        Instr::Mov { .. } => Mnemonic::Mov,
        Instr::Add { .. } => Mnemonic::Add,
        Instr::Sub { .. } => Mnemonic::Sub,
        Instr::Mul { .. } => Mnemonic::Mul,
        Instr::Div { .. } => Mnemonic::Div,
        Instr::Rem { .. } => Mnemonic::Rem,
        Instr::And { .. } => Mnemonic::And,
        Instr::Or { .. } => Mnemonic::Or,
        Instr::Xor { .. } => Mnemonic::Xor,
        Instr::Shl { .. } => Mnemonic::Shl,
        Instr::Shr { .. } => Mnemonic::Shr,
        Instr::Addi { .. } => Mnemonic::Addi,
        Instr::Ld { .. } => Mnemonic::Ld,
        Instr::St { .. } => Mnemonic::St,
        Instr::Jmp { .. } => Mnemonic::Jmp,
        Instr::Jz { .. } => Mnemonic::Jz,
        Instr::Jnz { .. } => Mnemonic::Jnz,
        Instr::Slt { .. } => Mnemonic::Slt,
        Instr::Jr { .. } => Mnemonic::Jr,
        Instr::Trap { .. } => Mnemonic::Trap,
    }
}

/// The numbers at the places of an instruction's operands, with 0 where there is none.
pub(crate) fn values_of(instr: Instr) -> [u16; 3]
    ensures { take (length (row_of (written instr).mnemonic).kinds) result ≡ (written instr).values }
{
    match instr {
        Instr::Nop => [0, 0, 0],
        Instr::Li { a, imm }
        | Instr::Lih { a, imm }
        | Instr::Addi { a, imm }
        | Instr::Jz { a, imm }
        | Instr::Jnz { a, imm } => [a as u16, imm, 0],
        Instr::Mov { a, b } => [a as u16, b as u16, 0],
        Instr::Add { a, b, c }
        | Instr::Sub { a, b, c }
        | Instr::Mul { a, b, c }
        | Instr::Div { a, b, c }
        | Instr::Rem { a, b, c }
        | Instr::And { a, b, c }
        | Instr::Or { a, b, c }
        | Instr::Xor { a, b, c }
        | Instr::Shl { a, b, c }
        | Instr::Shr { a, b, c }
        | Instr::Slt { a, b, c } => [a as u16, b as u16, c as u16],
        Instr::Ld { a, b, n } | Instr::St { a, b, n } => [a as u16, b as u16, n as u16],
        Instr::Jmp { imm } => [imm, 0, 0],
        Instr::Jr { a } => [a as u16, 0, 0],
        Instr::Trap { n } => [n as u16, 0, 0],
    }
}
