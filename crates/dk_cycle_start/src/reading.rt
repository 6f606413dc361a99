//! Who read the tick in the last tick of a kernel's run.
ghost use Rattle.std.specs.Prelude.{ℕ, [], ◌∷◌, ◌≡◌, ◌+◌, slice_index_or};
ghost use Rattle.dk_world.specs.Run.{trace};
ghost use Rattle.dk_cycle.specs.Run.{IsReader};

use dk_cycle::{is_behind_read, quiet_caller};
use dk_kernel::Kernel;
use dk_loader::Code;
use dk_repeat::reads_law;
use dk_trace::Entry;

/// The bytes of the process's program.
fn bytes_of(programs: &[Code], process: usize) -> &[u8]
    ensures { result.now ≡ slice_index_or programs.now process [] }
{
    match programs.get(process) {
        Some(program) => program.bytes(),
        None => &[],
    }
}

/// The process whose thread read the tick in the kernel's last tick, which has this entry.
#[inline(always)]
pub fn reader_of(programs: &[Code], kernel: &Kernel, entry: &Entry) -> Option<u8>
    requires { programs.now ≡ kernel.now.programs }
    ensures { (n : ℕ) → kernel.now.ticks ≡ n + 1
        → trace kernel.now.config kernel.now.programs (n + 1) ≡ entry.now ∷ trace kernel.now.config kernel.now.programs n
        → IsReader kernel.now.config kernel.now.programs n entry.now result }
{
    reads_law();
    kernel.dispatcher();
    let thread = quiet_caller(entry)?;
    let context = kernel.context(thread)?;
    let program = bytes_of(programs, thread.process as usize);
    if is_behind_read(program, &context) {
        Some(thread.process)
    } else {
        None
    }
}
