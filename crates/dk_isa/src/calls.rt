//! Which kernel calls a program holds.
ghost use Rattle.std.specs.Prelude.{◌≡◌, ◌+◌, ◌≤◌, ◌↔◌, length, true, false, slice_range, Some, IsTrue};
ghost use Rattle.dk_isa.specs.declared.Instr.{Instr};
ghost use Rattle.dk_isa.specs.Table.{instruction_of};
ghost use Rattle.dk_isa.specs.Calls.{HoldsNoCall};

use crate::{Instr, decode};

/// Whether the four bytes are kernel call `n`.
fn is_call(word: [u8; 4], n: u8) -> bool
    ensures { IsTrue result ↔ (instruction_of word ≡ Some (Instr.Trap n)) }
{
    match decode(word) {
        Some(Instr::Trap { n: number }) => number == n,
        _ => false,
    }
}

/// Whether the four bytes from a place on are kernel call `n`.
fn is_call_at(program: &[u8], place: usize, n: u8) -> bool
    requires { place + 4 ≤ length program.now }
    ensures { IsTrue result ↔ (instruction_of (slice_range program.now place (place + 4)) ≡ Some (Instr.Trap n)) }
{
    is_call(program[place..place + 4].try_into().unwrap(), n)
}

/// Whether an instruction of the program is kernel call `n`. An instruction is four bytes of the program, from a multiple
/// of 4 on; bytes behind the last whole one are none.
pub fn holds_call(program: &[u8], n: u8) -> bool
    ensures none { result ≡ false → HoldsNoCall n program.now }
    ensures some { result ≡ true → ¬ HoldsNoCall n program.now }
{
    for place in 0..program.len() / 4 {
        if is_call_at(program, 4 * place, n) {
            return true;
        }
    }
    false
}
