//! What the kernel runs in its test.
ghost use Rattle.std.specs.Prelude.{◌≡◌, ◌≤◌, All, IfOk, length};

mod caller;

use dk_config::MAX_PROGRAM_BYTES;
use dk_loader::Code;
use std::alloc::{AllocError, Global};

/// A program whose one instruction jumps to itself.
fn spin(alloc: Global) -> Result<Code, AllocError>
    ensures { IfOk result (λ code. length code ≤ MAX_PROGRAM_BYTES) }
{
    Ok(Code::new(vec![in alloc; 0x11, 0, 0, 0]?))
}

/// The programs of a process, and of one that spins.
fn two_programs(alloc: Global, first: Code) -> Result<Vec<Code>, AllocError>
    requires { length first ≤ MAX_PROGRAM_BYTES }
    ensures two { IfOk result (λ programs. length programs.items ≡ 2) }
    ensures short { IfOk result (λ programs. All (λ code. length code ≤ MAX_PROGRAM_BYTES) programs.items) }
{
    let mut programs = Vec::new(alloc);
    programs.push(first)?;
    programs.push(spin(alloc)?)?;
    Ok(programs)
}
