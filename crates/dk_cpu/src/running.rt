//! Ticks of a program in one go: the context stays where it is handed in, and no outcome is told of each.
ghost use Rattle.std.specs.Prelude.{◌≡◌, ◌≤◌, ◌<◌, ◌^◌, length, [], ◌∷◌, true, false};
ghost use Rattle.dk_isa.specs.Table.{HasRegisters};
ghost use Rattle.dk_cpu.specs.Changes.{IsCall, word_tick};
ghost use Rattle.dk_cpu.specs.Machine as machine;
ghost use Rattle.dk_cpu.specs.State.{RunsFor};

use crate::execute::execute;
use crate::image::{bytes_at, has_word};
use crate::{Context, Outcome};
use dk_config::MAX_PROGRAM_BYTES;
use dk_isa::{Instr, decode};

/// Does one tick of a context, where it is none of a kernel call and no fault: whether it is so. Else nothing is done.
#[inline(always)]
fn work(code: &[u8], memory: &mut [u32], cost: u8, context: &mut Context) -> bool
    requires code { length code.now ≤ MAX_PROGRAM_BYTES }
    requires cost { 1 ≤ cost }
    ensures ran { result ≡ true
        → machine.body_tick cost code.now context.old memory.old ≡ machine.ran context.new memory.new }
    ensures context { result ≡ false → context.new ≡ context.old }
    ensures memory { result ≡ false → memory.new ≡ memory.old }
{
    if !has_word(code, context.pc) {
        return false;
    }
    let [code, x, y, z] = bytes_at(code, 4 * context.pc as usize);
    work_row(code, x, y, z, memory, cost, context)
}

/// The instruction of four bytes. Each row of the table of instructions has a case of its own here, so that the bytes
/// are decoded and the instruction is done in one.
#[inline(always)]
fn work_row(
    code: u8,
    x: u8,
    y: u8,
    z: u8,
    memory: &mut [u32],
    cost: u8,
    context: &mut Context,
) -> bool
    requires next { context.old.pc < 2 ^ 31 }
    requires cost { 1 ≤ cost }
    ensures ran { result ≡ true
        → word_tick cost (code ∷ x ∷ y ∷ z ∷ []) context.old memory.old ≡ machine.ran context.new memory.new }
    ensures context { result ≡ false → context.new ≡ context.old }
    ensures memory { result ≡ false → memory.new ≡ memory.old }
{
    match code {
        0 => work_word(0, x, y, z, memory, cost, context),
        1 => work_word(1, x, y, z, memory, cost, context),
        2 => work_word(2, x, y, z, memory, cost, context),
        3 => work_word(3, x, y, z, memory, cost, context),
        4 => work_word(4, x, y, z, memory, cost, context),
        5 => work_word(5, x, y, z, memory, cost, context),
        6 => work_word(6, x, y, z, memory, cost, context),
        7 => work_word(7, x, y, z, memory, cost, context),
        8 => work_word(8, x, y, z, memory, cost, context),
        9 => work_word(9, x, y, z, memory, cost, context),
        10 => work_word(10, x, y, z, memory, cost, context),
        11 => work_word(11, x, y, z, memory, cost, context),
        12 => work_word(12, x, y, z, memory, cost, context),
        13 => work_word(13, x, y, z, memory, cost, context),
        14 => work_word(14, x, y, z, memory, cost, context),
        15 => work_word(15, x, y, z, memory, cost, context),
        16 => work_word(16, x, y, z, memory, cost, context),
        17 => work_word(17, x, y, z, memory, cost, context),
        18 => work_word(18, x, y, z, memory, cost, context),
        19 => work_word(19, x, y, z, memory, cost, context),
        20 => work_word(20, x, y, z, memory, cost, context),
        21 => work_word(21, x, y, z, memory, cost, context),
        _ => false,
    }
}

/// The instruction of four bytes, of which the first is known where this is called.
#[inline(always)]
fn work_word(
    code: u8,
    x: u8,
    y: u8,
    z: u8,
    memory: &mut [u32],
    cost: u8,
    context: &mut Context,
) -> bool
    requires next { context.old.pc < 2 ^ 31 }
    requires cost { 1 ≤ cost }
    ensures ran { result ≡ true
        → word_tick cost (code ∷ x ∷ y ∷ z ∷ []) context.old memory.old ≡ machine.ran context.new memory.new }
    ensures context { result ≡ false → context.new ≡ context.old }
    ensures memory { result ≡ false → memory.new ≡ memory.old }
{
    match decode([code, x, y, z]) {
        Some(Instr::Trap { .. }) => false,
        Some(instr) => compute(instr, memory, cost, context),
        None => false,
    }
}

/// Does an instruction that is no kernel call, where it is no fault: whether it is so. Else nothing is done.
#[inline(always)]
fn compute(instr: Instr, memory: &mut [u32], cost: u8, context: &mut Context) -> bool
    requires registers { HasRegisters instr }
    requires next { context.old.pc < 2 ^ 31 }
    requires cost { 1 ≤ cost }
    requires own { IsCall instr → ⊥ }
    ensures ran { result ≡ true
        → machine.execute cost instr context.old memory.old ≡ machine.ran context.new memory.new }
    ensures context { result ≡ false → context.new ≡ context.old }
    ensures memory { result ≡ false → memory.new ≡ memory.old }
{
    let change = execute(instr, memory, cost, context);
    if let Some(store) = change.store {
        memory[store.address] = store.value;
    }
    matches!(change.outcome, Outcome::Ran)
}

/// Ticks of a context, one after the other and at most so many, up to its next kernel call or fault. Answers how many.
#[inline(always)]
pub fn run(code: &[u8], memory: &mut [u32], cost: u8, context: &mut Context, most: u32) -> u32
    requires code { length code.now ≤ MAX_PROGRAM_BYTES }
    requires cost { 1 ≤ cost }
    ensures few { result ≤ most }
    ensures runs { RunsFor cost code.now result context.old memory.old context.new memory.new }
{
    for done in 0..most {
        if !work(code, memory, cost, context) {
            return done;
        }
    }
    most
}
