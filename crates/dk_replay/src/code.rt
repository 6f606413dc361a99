//! The instructions of a step.
ghost use Rattle.std.specs.Prelude.{◌≡◌, ◌≤◌, ◌<◌, ◌+◌, ◌++◌, All, OnOk};
ghost use Rattle.dk_isa.specs.Table.{HasRegisters};
ghost use Rattle.dk_replay.specs.Code.{call_code, code_of, counted, counted_far, single, step_code, work_code};

use dk_isa::{Instr, encode};
use dk_profile::Step;
use std::alloc::AllocError;

pub(crate) fn push_all(code: &mut Vec<u8>, instrs: &[Instr]) -> Result<(), AllocError>
    requires { All HasRegisters instrs.now }
    ensures { OnOk result (code.new.items ≡ code.old.items ++ code_of instrs.now) }
{
    for instr in instrs {
        code.extend_from_slice(&encode(*instr))?;
    }
    Ok(())
}

fn push_single(code: &mut Vec<u8>, n: u32) -> Result<(), AllocError>
    ensures { OnOk result (code.new.items ≡ code.old.items ++ code_of (single n)) }
{
    match n {
        0 => Ok(()),
        1 => push_all(code, &[Instr::Nop]),
        _ => push_all(code, &[Instr::Nop, Instr::Nop]),
    }
}

fn push_counted(code: &mut Vec<u8>, at: u16, rounds: u16, odd: bool) -> Result<(), AllocError>
    requires { at < 32768 }
    ensures { OnOk result (code.new.items ≡ code.old.items ++ code_of (counted at rounds odd)) }
{
    let load = Instr::Li { a: 1, imm: rounds };
    let count = Instr::Addi { a: 1, imm: 65_535 };
    let again = Instr::Jnz { a: 1, imm: at + 1 };
    if odd {
        push_all(code, &[load, count, again, Instr::Nop])
    } else {
        push_all(code, &[load, count, again])
    }
}

fn push_counted_far(code: &mut Vec<u8>, at: u16, rounds: u32, odd: bool) -> Result<(), AllocError>
    requires { at < 32768 }
    ensures { OnOk result (code.new.items ≡ code.old.items ++ code_of (counted_far at rounds odd)) }
{
    let low = Instr::Li {
        a: 1,
        imm: (rounds % 65_536) as u16,
    };
    let high = Instr::Lih {
        a: 1,
        imm: (rounds / 65_536) as u16,
    };
    let count = Instr::Addi { a: 1, imm: 65_535 };
    let again = Instr::Jnz { a: 1, imm: at + 2 };
    if odd {
        push_all(code, &[low, high, count, again, Instr::Nop])
    } else {
        push_all(code, &[low, high, count, again])
    }
}

/// So many ticks of work, by the instructions from this place on.
pub(crate) fn push_work(code: &mut Vec<u8>, at: u16, n: u32) -> Result<(), AllocError>
    requires { at < 32768 }
    ensures { OnOk result (code.new.items ≡ code.old.items ++ code_of (work_code at n)) }
{
    if n < 3 {
        push_single(code, n)
    } else if n <= 131_072 {
        push_counted(code, at, ((n - 1) / 2) as u16, (n - 1) % 2 == 1)
    } else {
        push_counted_far(code, at, (n - 2) / 2, (n - 2) % 2 == 1)
    }
}

fn push_call(code: &mut Vec<u8>, n: u8, imm: u16) -> Result<(), AllocError>
    ensures { OnOk result (code.new.items ≡ code.old.items ++ code_of (call_code n imm)) }
{
    push_all(code, &[Instr::Li { a: 1, imm }, Instr::Trap { n }])
}

pub(crate) fn push_step(code: &mut Vec<u8>, at: u16, step: Step) -> Result<(), AllocError>
    requires { at < 32768 }
    ensures { OnOk result (code.new.items ≡ code.old.items ++ code_of (step_code at step)) }
{
    match step {
        Step::Work(n) => push_work(code, at, n),
        Step::Lock(mutex) => push_call(code, 5, mutex),
        Step::Unlock(mutex) => push_call(code, 6, mutex),
        Step::Slack(n) => push_call(code, 7, n),
        Step::Put(n) => push_call(code, 8, n),
        Step::Wait => push_all(code, &[Instr::Trap { n: 1 }]),
    }
}
