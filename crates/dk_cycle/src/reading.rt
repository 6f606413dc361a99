//! Whether the tick was read in a tick, as its entry and the context behind it show.
ghost use Rattle.std.specs.Prelude.{◌≡◌, ◌+◌, ◌≤◌, ◌↔◌, length, true, false, slice_range, Some, IsTrue};
ghost use Rattle.dk_isa.specs.declared.Instr.{Instr};
ghost use Rattle.dk_isa.specs.Table.{instruction_of};
ghost use Rattle.dk_repeat.specs.Reading.{IsBehindRead, caller, quiet_caller};

use dk_cpu::Context;
use dk_isa::{Instr, decode};
use dk_trace::{Entry, Label, ThreadId, Work};

/// The number of the call that reads the tick.
const TIME: u8 = 9;

/// The thread at a kernel call, by the label of its tick.
#[inline(always)]
fn caller(label: Label) -> Option<ThreadId>
    ensures { result ≡ caller label }
{
    match label {
        Label::Call(thread) => Some(thread),
        Label::Slack {
            thread,
            work: Work::Call,
            ..
        } => Some(thread),
        _ => None,
    }
}

/// The thread at a kernel call, where its tick has no event. It runs on.
#[inline(always)]
pub fn quiet_caller(entry: &Entry) -> Option<ThreadId>
    ensures { result ≡ quiet_caller entry.now }
{
    match entry.event {
        None => caller(entry.label),
        Some(_) => None,
    }
}

/// Whether the four bytes are the call that reads the tick.
fn is_read(word: [u8; 4]) -> bool
    ensures { IsTrue result ↔ (instruction_of word ≡ Some (Instr.Trap 9)) }
{
    match decode(word) {
        Some(Instr::Trap { n }) => n == TIME,
        _ => false,
    }
}

/// Whether the four bytes from a place on are that call.
fn is_read_at(program: &[u8], place: usize) -> bool
    requires { place + 4 ≤ length program.now }
    ensures yes { result ≡ true → instruction_of (slice_range program.now place (place + 4)) ≡ Some (Instr.Trap 9) }
    ensures no { result ≡ false → instruction_of (slice_range program.now place (place + 4)) ≡ Some (Instr.Trap 9) → ⊥ }
{
    is_read(program[place..place + 4].try_into().unwrap())
}

/// Whether a thread with this context is behind a call that reads the tick: it isn't in a call, and the instruction before its
/// next one is that call.
pub fn is_behind_read(program: &[u8], context: &Context) -> bool
    ensures yes { result ≡ true → IsBehindRead program.now context.now }
    ensures no { result ≡ false → IsBehindRead program.now context.now → ⊥ }
{
    let next = 4 * context.pc as usize;
    if context.left != 0 || next < 4 || program.len() < next {
        return false;
    }
    is_read_at(program, next - 4)
}
