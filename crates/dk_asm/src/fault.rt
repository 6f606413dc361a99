//! Why a line is at fault, and why a source is no program.
ghost use Rattle.std.specs.Prelude.{◌≡◌};
ghost use Rattle.dk_asm.specs.declared.fault.AsmFault.TheVariants.{NoMemory};

use std::alloc::AllocError;

/// Why a line of a source is at fault. The first of these that holds of a line is its cause.
#[derive(Clone, Copy)]
pub enum LineFault {
    /// It isn't of the form of a line.
    Form,
    /// A number is out of its range.
    Range,
    /// Its label stands on an earlier line.
    Twice,
    /// Its imm is a label that no line defines.
    Unknown,
    /// Its `BYTES` has fewer than four numbers, and a later line has an instruction.
    Short,
    /// It has the instruction after the 16,384th.
    Many,
}

/// Why a source isn't assembled.
#[derive(Clone, Copy)]
pub enum AsmFault {
    /// The first line at fault, counted from 1, and its cause.
    Line { number: u32, cause: LineFault },
    /// Want of memory.
    NoMemory,
}

impl From<AllocError> for AsmFault {
    ghost from_gives = { λ _ e. e ≡ NoMemory };

    fn from(_: AllocError) -> Self {
        AsmFault::NoMemory
    }
}
