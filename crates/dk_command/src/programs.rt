//! What the assembler and the disassembler come to.
ghost use Rattle.std.specs.Prelude.{◌≤◌, IfOk, vec_len};
ghost use Rattle.dk_inputs.specs.Jobs.{code, source};
ghost use Rattle.dk_command.specs.Output.{Fails};
ghost use Rattle.dk_inputs.specs.Follows.{Makes};
ghost use Rattle.dk_command.specs.Work.{Does, IsReady};

use crate::Refusal;
use crate::work::Work;
use dk_asm::{AsmFault, MAX_SOURCE_BYTES, assemble, disassemble};
use dk_config::MAX_PROGRAM_BYTES;
use std::alloc::Global;

/// The program of a source.
pub fn source_work(alloc: Global, bytes: Vec<u8>) -> Result<Work, Refusal>
    requires { vec_len bytes ≤ MAX_SOURCE_BYTES }
    ensures does { Makes Does Fails result (source bytes.items) }
    ensures ready { IfOk result IsReady }
{
    match assemble(alloc, bytes.as_slice()) {
        Ok(program) => Ok(Work::Bytes(program)),
        Err(AsmFault::Line { number, cause }) => Err(Refusal::SourceLine { number, cause }),
        Err(AsmFault::NoMemory) => Err(Refusal::NoMemory),
    }
}

/// The listing of a program.
pub fn code_work(alloc: Global, bytes: Vec<u8>) -> Result<Work, Refusal>
    requires { vec_len bytes ≤ MAX_PROGRAM_BYTES }
    ensures does { Makes Does Fails result (code bytes.items) }
    ensures ready { IfOk result IsReady }
{
    Ok(Work::Lines(disassemble(alloc, bytes.as_slice())?))
}
