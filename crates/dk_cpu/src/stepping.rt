//! One tick of a program with its outcome, a kernel call's and a fault among them.
ghost use Rattle.std.specs.Prelude.{◌≡◌, ◌≤◌, ◌<◌, ◌^◌, length, [], ◌∷◌};
ghost use Rattle.dk_isa.specs.Table.{HasRegisters};
ghost use Rattle.dk_cpu.specs.Changes.{word_tick};
ghost use Rattle.dk_cpu.specs.Outcomes.{KeepsAllAtFault, came_to};
ghost use Rattle.dk_cpu.specs.Machine as machine;

use crate::execute::execute;
use crate::image::{has_word, word_at};
use crate::{Context, Outcome};
use dk_config::MAX_PROGRAM_BYTES;
use dk_isa::{FaultKind, Instr, decode};

/// Does one tick of a context.
#[inline(always)]
pub fn tick(code: &[u8], memory: &mut [u32], cost: u8, context: &mut Context) -> Outcome
    requires code { length code.now ≤ MAX_PROGRAM_BYTES }
    requires cost { 1 ≤ cost }
    ensures value { machine.body_tick cost code.now context.old memory.old
        ≡ came_to result context.new memory.new }
    ensures fault { KeepsAllAtFault result context.old context.new memory.old memory.new }
{
    if !has_word(code, context.pc) {
        return Outcome::Fault(FaultKind::Fetch);
    }
    let [code, x, y, z] = word_at(code, 4 * context.pc as usize);
    tick_row(code, x, y, z, memory, cost, context)
}

/// The instruction of four bytes. Each row of the table of instructions has a case of its own here, so that the bytes
/// are decoded and the instruction is done in one.
#[inline(always)]
fn tick_row(
    code: u8,
    x: u8,
    y: u8,
    z: u8,
    memory: &mut [u32],
    cost: u8,
    context: &mut Context,
) -> Outcome
    requires next { context.old.pc < 2 ^ 31 }
    requires cost { 1 ≤ cost }
    ensures value { word_tick cost (code ∷ x ∷ y ∷ z ∷ []) context.old memory.old
        ≡ came_to result context.new memory.new }
    ensures fault { KeepsAllAtFault result context.old context.new memory.old memory.new }
{
    // A kernel call, which is the last row, or no instruction: found without the branch of a table.
    if code > 21 {
        return tick_word(code, x, y, z, memory, cost, context);
    }
    match code {
        0 => tick_word(0, x, y, z, memory, cost, context),
        1 => tick_word(1, x, y, z, memory, cost, context),
        2 => tick_word(2, x, y, z, memory, cost, context),
        3 => tick_word(3, x, y, z, memory, cost, context),
        4 => tick_word(4, x, y, z, memory, cost, context),
        5 => tick_word(5, x, y, z, memory, cost, context),
        6 => tick_word(6, x, y, z, memory, cost, context),
        7 => tick_word(7, x, y, z, memory, cost, context),
        8 => tick_word(8, x, y, z, memory, cost, context),
        9 => tick_word(9, x, y, z, memory, cost, context),
        10 => tick_word(10, x, y, z, memory, cost, context),
        11 => tick_word(11, x, y, z, memory, cost, context),
        12 => tick_word(12, x, y, z, memory, cost, context),
        13 => tick_word(13, x, y, z, memory, cost, context),
        14 => tick_word(14, x, y, z, memory, cost, context),
        15 => tick_word(15, x, y, z, memory, cost, context),
        16 => tick_word(16, x, y, z, memory, cost, context),
        17 => tick_word(17, x, y, z, memory, cost, context),
        18 => tick_word(18, x, y, z, memory, cost, context),
        19 => tick_word(19, x, y, z, memory, cost, context),
        20 => tick_word(20, x, y, z, memory, cost, context),
        21 => tick_word(21, x, y, z, memory, cost, context),
        _ => tick_word(code, x, y, z, memory, cost, context),
    }
}

/// The instruction of four bytes, of which the first is known where this is called.
#[inline(always)]
fn tick_word(
    code: u8,
    x: u8,
    y: u8,
    z: u8,
    memory: &mut [u32],
    cost: u8,
    context: &mut Context,
) -> Outcome
    requires next { context.old.pc < 2 ^ 31 }
    requires cost { 1 ≤ cost }
    ensures value { word_tick cost (code ∷ x ∷ y ∷ z ∷ []) context.old memory.old
        ≡ came_to result context.new memory.new }
    ensures fault { KeepsAllAtFault result context.old context.new memory.old memory.new }
{
    match decode([code, x, y, z]) {
        Some(instr) => carry_out(instr, memory, cost, context),
        None => Outcome::Fault(FaultKind::Decode),
    }
}

/// Does an instruction.
#[inline(always)]
fn carry_out(instr: Instr, memory: &mut [u32], cost: u8, context: &mut Context) -> Outcome
    requires registers { HasRegisters instr }
    requires next { context.old.pc < 2 ^ 31 }
    requires cost { 1 ≤ cost }
    ensures value { machine.execute cost instr context.old memory.old ≡ came_to result context.new memory.new }
    ensures fault { KeepsAllAtFault result context.old context.new memory.old memory.new }
{
    let change = execute(instr, memory, cost, context);
    if let Some(store) = change.store {
        memory[store.address] = store.value;
    }
    change.outcome
}
