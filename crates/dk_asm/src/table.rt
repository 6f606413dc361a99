//! The names of the instructions, and the kinds of their operands.
ghost use Rattle.std.specs.Prelude.{◌≡◌, ◌∷◌, [], take, length};
ghost use Rattle.std.specs.Str.{bytes_eq};
ghost use Rattle.dk_asm.specs.Table.{row_of, written, with_values};
ghost use Rattle.dk_asm.specs.Ranges.{FitPlaces};
ghost use Rattle.dk_asm.specs.Reading.{mnemonic_named};

use crate::kind::Kind;
use dk_isa::Instr;

/// The instructions by name, in the order of their codes.
#[derive(Clone, Copy)]
pub enum Mnemonic {
    Nop,
    Li,
    Lih,
    Mov,
    Add,
    Sub,
    Mul,
    Div,
    Rem,
    And,
    Or,
    Xor,
    Shl,
    Shr,
    Addi,
    Ld,
    St,
    Jmp,
    Jz,
    Jnz,
    Slt,
    Jr,
    Trap,
}

impl Mnemonic {
    const ALL: [Mnemonic; 23] = [
        Mnemonic::Nop,
        Mnemonic::Li,
        Mnemonic::Lih,
        Mnemonic::Mov,
        Mnemonic::Add,
        Mnemonic::Sub,
        Mnemonic::Mul,
        Mnemonic::Div,
        Mnemonic::Rem,
        Mnemonic::And,
        Mnemonic::Or,
        Mnemonic::Xor,
        Mnemonic::Shl,
        Mnemonic::Shr,
        Mnemonic::Addi,
        Mnemonic::Ld,
        Mnemonic::St,
        Mnemonic::Jmp,
        Mnemonic::Jz,
        Mnemonic::Jnz,
        Mnemonic::Slt,
        Mnemonic::Jr,
        Mnemonic::Trap,
    ];

    fn has_name(self, name: &[u8]) -> bool
        ensures { result ≡ bytes_eq (row_of self).name name.now }
    {
        self.name() == name
    }

    /// The instruction of the name.
    #[tactic(auto, unfolding(crate::specs::Reading::mnemonic_named))]
    pub(crate) fn named(name: &[u8]) -> Option<Mnemonic>
        ensures { result ≡ mnemonic_named name.now }
    {
        Mnemonic::ALL.iter().copied().find(|m| m.has_name(name))
    }

    pub(crate) fn name(self) -> &'static [u8]
        ensures { result.now ≡ (row_of self).name }
    {
        match self {
            Mnemonic::Nop => b"NOP",
            Mnemonic::Li => b"LI",
            Mnemonic::Lih => b"LIH",
            Mnemonic::Mov => b"MOV",
            Mnemonic::Add => b"ADD",
            Mnemonic::Sub => b"SUB",
            Mnemonic::Mul => b"MUL",
            Mnemonic::Div => b"DIV",
            Mnemonic::Rem => b"REM",
            Mnemonic::And => b"AND",
            Mnemonic::Or => b"OR",
            Mnemonic::Xor => b"XOR",
            Mnemonic::Shl => b"SHL",
            Mnemonic::Shr => b"SHR",
            Mnemonic::Addi => b"ADDI",
            Mnemonic::Ld => b"LD",
            Mnemonic::St => b"ST",
            Mnemonic::Jmp => b"JMP",
            Mnemonic::Jz => b"JZ",
            Mnemonic::Jnz => b"JNZ",
            Mnemonic::Slt => b"SLT",
            Mnemonic::Jr => b"JR",
            Mnemonic::Trap => b"TRAP",
        }
    }

    /// What stands at the places of the operands, in order.
    pub(crate) fn kinds(self) -> &'static [Kind]
        ensures { result.now ≡ (row_of self).kinds }
    {
        match self {
            Mnemonic::Nop => &[],
            Mnemonic::Jr => &[Kind::Register],
            Mnemonic::Trap => &[Kind::Byte],
            Mnemonic::Jmp => &[Kind::Value],
            Mnemonic::Mov => &[Kind::Register, Kind::Register],
            Mnemonic::Lih => &[Kind::Register, Kind::Word],
            Mnemonic::Li | Mnemonic::Jz | Mnemonic::Jnz => &[Kind::Register, Kind::Value],
            Mnemonic::Addi => &[Kind::Register, Kind::Signed],
            Mnemonic::Ld | Mnemonic::St => &[Kind::Register, Kind::Register, Kind::Byte],
            _ => &[Kind::Register, Kind::Register, Kind::Register],
        }
    }

    /// The instruction with these numbers at the places of its operands; it takes as many as it has.
    pub(crate) fn instruction(self, x: u16, y: u16, z: u16) -> Instr
        requires { FitPlaces (row_of self).kinds (take (length (row_of self).kinds) (x ∷ y ∷ z ∷ [])) }
        ensures { written result ≡ with_values self (take (length (row_of self).kinds) (x ∷ y ∷ z ∷ [])) }
    {
        match self {
            Mnemonic::Nop => Instr::Nop,
            Mnemonic::Li => Instr::Li { a: x as u8, imm: y },
            Mnemonic::Lih => Instr::Lih { a: x as u8, imm: y },
            Mnemonic::Mov => Instr::Mov {
                a: x as u8,
                b: y as u8,
            },
            Mnemonic::Add => Instr::Add {
                a: x as u8,
                b: y as u8,
                c: z as u8,
            },
            Mnemonic::Sub => Instr::Sub {
                a: x as u8,
                b: y as u8,
                c: z as u8,
            },
            Mnemonic::Mul => Instr::Mul {
                a: x as u8,
                b: y as u8,
                c: z as u8,
            },
            Mnemonic::Div => Instr::Div {
                a: x as u8,
                b: y as u8,
                c: z as u8,
            },
            Mnemonic::Rem => Instr::Rem {
                a: x as u8,
                b: y as u8,
                c: z as u8,
            },
            Mnemonic::And => Instr::And {
                a: x as u8,
                b: y as u8,
                c: z as u8,
            },
            Mnemonic::Or => Instr::Or {
                a: x as u8,
                b: y as u8,
                c: z as u8,
            },
            Mnemonic::Xor => Instr::Xor {
                a: x as u8,
                b: y as u8,
                c: z as u8,
            },
            Mnemonic::Shl => Instr::Shl {
                a: x as u8,
                b: y as u8,
                c: z as u8,
            },
            Mnemonic::Shr => Instr::Shr {
                a: x as u8,
                b: y as u8,
                c: z as u8,
            },
            Mnemonic::Addi => Instr::Addi { a: x as u8, imm: y },
            Mnemonic::Ld => Instr::Ld {
                a: x as u8,
                b: y as u8,
                n: z as u8,
            },
            Mnemonic::St => Instr::St {
                a: x as u8,
                b: y as u8,
                n: z as u8,
            },
            Mnemonic::Jmp => Instr::Jmp { imm: x },
            Mnemonic::Jz => Instr::Jz { a: x as u8, imm: y },
            Mnemonic::Jnz => Instr::Jnz { a: x as u8, imm: y },
            Mnemonic::Slt => Instr::Slt {
                a: x as u8,
                b: y as u8,
                c: z as u8,
            },
            Mnemonic::Jr => Instr::Jr { a: x as u8 },
            Mnemonic::Trap => Instr::Trap { n: x as u8 },
        }
    }
}
