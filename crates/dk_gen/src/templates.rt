//! The programs that are drawn, by their templates.
ghost use Rattle.std.specs.Prelude.{◌≡◌, ◌+◌, ◌*◌, All, IfOk, OnOk};
ghost use Rattle.dk_isa.specs.Table.{HasRegisters};
ghost use Rattle.dk_gen.specs.Draws.{state};
ghost use Rattle.dk_gen.specs.Templates.{code_of, draws_in, program_of, random_program, random_word, template_at};

use crate::draws::Draws;
use dk_isa::{Instr, encode};
use dk_loader::Code;
use std::alloc::{AllocError, Global};

/// What a program does.
#[derive(Clone, Copy)]
pub enum Template {
    /// Jumps to itself.
    Spin,
    /// Waits for the next window, again and again.
    Wait,
    /// Asks for slack, and then spins.
    Slack,
    /// 32 instructions of drawn bytes.
    Random,
    /// Makes a child at the slowest level, and then waits. The child puts a number and ends.
    Parent,
}

fn draw_template(draws: &mut Draws) -> Template
    ensures template { result ≡ template_at draws.old 0 }
    ensures next { draws.new ≡ state draws.old 1 }
{
    match draws.draw(5) {
        0 => Template::Spin,
        1 => Template::Wait,
        2 => Template::Slack,
        3 => Template::Random,
        _ => Template::Parent,
    }
}

fn assemble(alloc: Global, instrs: &[Instr]) -> Result<Vec<u8>, AllocError>
    requires { All HasRegisters instrs.now }
    ensures { IfOk result (λ code. code.items ≡ code_of instrs.now) }
{
    let mut code = Vec::new(alloc);
    for instr in instrs {
        code.extend_from_slice(&encode(*instr))?;
    }
    Ok(code)
}

/// The bytes of an instruction: a code, and three bytes that may be numbers of registers.
#[tactic(auto, using(crate::proofs::Stream::state_later, crate::proofs::Stream::draw_later))]
fn draw_word(draws: &mut Draws) -> [u8; 4]
    ensures bytes { result ≡ random_word draws.old 0 }
    ensures next { draws.new ≡ state draws.old 4 }
{
    let code = draws.draw(23) as u8;
    let a = draws.draw(8) as u8;
    let b = draws.draw(8) as u8;
    let c = draws.draw(8) as u8;
    [code, a, b, c]
}

/// How many instructions a program of drawn bytes has.
const DRAWN_INSTRS: u32 = 32;

fn draw_words(alloc: Global, draws: &mut Draws) -> Result<Vec<u8>, AllocError>
    ensures bytes { IfOk result (λ code. code.items ≡ random_program draws.old 0) }
    ensures next { OnOk result (draws.new ≡ state draws.old (4 * 32)) }
{
    let mut code = Vec::new(alloc);
    for _i in 0..DRAWN_INSTRS {
        code.extend_from_slice(&draw_word(draws))?;
    }
    Ok(code)
}

#[tactic(auto, using(crate::proofs::Stream::state_none))]
fn fill(alloc: Global, template: Template, draws: &mut Draws) -> Result<Vec<u8>, AllocError>
    ensures bytes { IfOk result (λ code. code.items ≡ program_of template draws.old 0) }
    ensures next { OnOk result (draws.new ≡ state draws.old (draws_in template)) }
{
    match template {
        Template::Spin => assemble(alloc, &[Instr::Jmp { imm: 0 }]),
        Template::Wait => assemble(alloc, &[Instr::Trap { n: 1 }, Instr::Jmp { imm: 0 }]),
        Template::Slack => {
            let imm = 1 + draws.draw(1000) as u16;
            assemble(
                alloc,
                &[
                    Instr::Li { a: 1, imm },
                    Instr::Trap { n: 7 },
                    Instr::Jmp { imm: 0 },
                ],
            )
        }
        Template::Random => draw_words(alloc, draws),
        Template::Parent => {
            let imm = 1 + draws.draw(4) as u16;
            assemble(
                alloc,
                &[
                    Instr::Li { a: 1, imm: 2 },
                    Instr::Li { a: 2, imm },
                    Instr::Li { a: 3, imm: 6 },
                    Instr::Trap { n: 3 },
                    Instr::Trap { n: 1 },
                    Instr::Jmp { imm: 4 },
                    Instr::Trap { n: 8 },
                    Instr::Trap { n: 2 },
                ],
            )
        }
    }
}

/// A program of a template that is drawn.
#[tactic(auto, using(crate::proofs::Stream::state_later, crate::proofs::Programs::program_later))]
pub fn draw_program(alloc: Global, draws: &mut Draws) -> Result<Code, AllocError>
    ensures bytes { IfOk result (λ code. code ≡ program_of (template_at draws.old 0) draws.old 1) }
    ensures next { OnOk result (draws.new ≡ state draws.old (1 + draws_in (template_at draws.old 0))) }
{
    let template = draw_template(draws);
    Ok(Code::new(fill(alloc, template, draws)?))
}
