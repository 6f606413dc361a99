//! The program of steps.
ghost use Rattle.std.specs.Prelude.{◌≡◌, ◌≤◌, ◌<◌, ◌+◌, ◌*◌, ◌++◌, length, sum_by, IfOk, OnOk};
ghost use Rattle.dk_profile.specs.Steps.{lap_size, program_size, step_size, work_size};
ghost use Rattle.dk_replay.specs.Code.{behind_work, lap_bytes, program_of, steps_bytes};

use crate::code::{push_all, push_step, push_work};
use dk_isa::Instr;
use dk_profile::{MAX_INSTRUCTIONS, Step, step_size, work_size};
use std::alloc::{AllocError, Global};

fn push_steps(code: &mut Vec<u8>, steps: &[Step]) -> Result<u16, AllocError>
    requires { sum_by step_size steps.now ≤ MAX_INSTRUCTIONS }
    ensures bytes { OnOk result (code.new.items ≡ code.old.items ++ steps_bytes 0 steps.now) }
    ensures size { IfOk result (λ n. n ≡ sum_by step_size steps.now) }
{
    let mut at: u16 = 0;
    for step in steps {
        push_step(code, at, *step)?;
        at += step_size(*step) as u16;
    }
    Ok(at)
}

fn behind_work(steps: &[Step]) -> u16
    requires { sum_by step_size steps.now ≤ MAX_INSTRUCTIONS }
    ensures { result ≡ behind_work steps.now }
{
    let mut at: u16 = 0;
    for step in steps {
        if let Step::Work(n) = *step {
            return at + work_size(n) as u16;
        }
        at += step_size(*step) as u16;
    }
    at
}

fn push_lap(code: &mut Vec<u8>, first: u16, back: u16, steps: &[Step]) -> Result<(), AllocError>
    requires { first + lap_size steps.now ≤ MAX_INSTRUCTIONS }
    ensures { OnOk result (code.new.items ≡ code.old.items ++ lap_bytes first back steps.now) }
{
    let mut at = first;
    for step in steps {
        if let Step::Work(n) = *step {
            push_work(code, at, n.saturating_sub(1))?;
            return push_all(code, &[Instr::Jmp { imm: back }]);
        }
        push_step(code, at, *step)?;
        at += step_size(*step) as u16;
    }
    Ok(())
}

/// The program of steps, which takes at most 16,384 instructions and begins anew behind the last step.
#[tactic(auto, using(crate::proofs::Sizes::program_bytes))]
pub fn program_of(alloc: Global, steps: &[Step]) -> Result<Vec<u8>, AllocError>
    requires { program_size steps.now ≤ MAX_INSTRUCTIONS }
    ensures bytes { IfOk result (λ code. code.items ≡ program_of steps.now) }
    ensures size { length (program_of steps.now) ≡ 4 * program_size steps.now }
{
    let mut code = Vec::new(alloc);
    let size = push_steps(&mut code, steps)?;
    push_lap(&mut code, size, behind_work(steps), steps)?;
    Ok(code)
}
