//! Programs as text: the assembler and the disassembler.
#![tactic(auto)]

mod all_causes;
mod assembling;
mod checking;
mod encoding;
mod fault;
mod kind;
mod labels;
mod line;
mod listing;
mod number;
mod operand;
mod operands;
mod reasons;
mod source;
mod table;
mod words;
mod written;

pub use all_causes::line_causes;
pub use assembling::assemble;
pub use fault::{AsmFault, LineFault};
pub use kind::Kind;
pub use listing::disassemble;
pub use number::is_numeral;
pub use reasons::{Reason, Wanted, reason_of};
pub use source::first_line;

/// The greatest number of bytes of a source, and of a listing.
pub const MAX_SOURCE_BYTES: u32 = 1_048_576;

/// The greatest number of instructions of a program.
pub const MAX_INSTRUCTIONS: usize = 16_384;
