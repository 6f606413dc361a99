//! The program of a profile as a source of the assembler.
ghost use Rattle.std.specs.Prelude.{◌≡◌, ◌≤◌, IfOk, OnOk};
ghost use Rattle.dk_asm.specs.Listing.{listing};
ghost use Rattle.dk_asm.specs.Source.{Assembled, Outcome};
ghost use Rattle.dk_profile.specs.Steps.{program_size};
ghost use Rattle.dk_replay.specs.Code.{program_of};

use crate::program::program_of;
use dk_asm::disassemble;
use dk_config::NoMemory;
use dk_profile::{MAX_INSTRUCTIONS, Step};
use std::alloc::Global;

/// A source of the assembler for the program of steps, which has at most 16,384 instructions. The assembler gives exactly
/// this program for it.
#[tactic(auto, using(crate::proofs::Back::back_by))]
pub fn replay_source(alloc: Global, steps: &[Step]) -> Result<Vec<u8>, NoMemory>
    requires { program_size steps.now ≤ MAX_INSTRUCTIONS }
    ensures text { IfOk result (λ text. text.items ≡ listing (program_of steps.now)) }
    ensures back { OnOk result (Assembled (listing (program_of steps.now)) (Outcome.program (program_of steps.now))) }
{
    let code = program_of(alloc, steps)?;
    disassemble(alloc, &code)
}
