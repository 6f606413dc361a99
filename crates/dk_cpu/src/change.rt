//! What one tick comes to. The context is changed in place; a word of the memory is written afterwards.
ghost use Rattle.std.specs.Prelude.{◌≡◌, ◌<◌, ◌^◌, if◌then◌else◌, None};
ghost use Rattle.dk_cpu.specs.Machine as machine;
ghost use Rattle.dk_cpu.specs.Changes.{done};

use crate::{Context, Outcome};
use dk_isa::FaultKind;

/// A memory word that a tick writes.
#[derive(Clone, Copy)]
pub struct Store {
    pub address: usize,
    pub value: u32,
}

/// The outcome of a tick, and the word that it writes.
#[derive(Clone, Copy)]
pub struct Change {
    pub outcome: Outcome,
    pub store: Option<Store>,
}

/// An instruction that stores nothing was done.
fn ran() -> Change
    ensures { result ≡ done }
{
    Change {
        outcome: Outcome::Ran,
        store: None,
    }
}

/// A fault changes nothing.
pub fn fault(kind: FaultKind) -> Change
    ensures { result ≡ record { outcome = Outcome.Fault kind; store = None } }
{
    Change {
        outcome: Outcome::Fault(kind),
        store: None,
    }
}

/// The next instruction comes.
pub fn went_on(context: &mut Context) -> Change
    requires { context.old.pc < 2 ^ 31 }
    ensures context { context.new ≡ machine.next context.old }
    ensures done { result ≡ done }
{
    context.pc += 1;
    ran()
}

/// A register is set.
pub fn wrote(a: u8, value: u32, context: &mut Context) -> Change
    requires register { a < 8 }
    requires next { context.old.pc < 2 ^ 31 }
    ensures context { context.new ≡ machine.set context.old a value }
    ensures done { result ≡ done }
{
    context.regs[a as usize] = value;
    went_on(context)
}

/// Another instruction comes.
pub fn jumped(pc: u32, context: &mut Context) -> Change
    ensures context { context.new ≡ machine.jump context.old pc }
    ensures done { result ≡ done }
{
    context.pc = pc;
    ran()
}

/// Another instruction comes where the jump is taken, else the next one.
pub fn branched(is_taken: bool, imm: u16, context: &mut Context) -> Change
    requires { context.old.pc < 2 ^ 31 }
    ensures context { context.new ≡ (if is_taken then machine.jump context.old imm else machine.next context.old) }
    ensures done { result ≡ done }
{
    if is_taken {
        jumped(imm as u32, context)
    } else {
        went_on(context)
    }
}
