//! Whether two kernels of a run are alike in the memories, and in the contexts of the threads that run on.
ghost use Rattle.std.specs.Prelude.{◌≡◌, ◌<◌, true, false, length};
ghost use Rattle.dk_config.specs.declared.TheConstants.{MAX_THREADS};
ghost use Rattle.dk_threads.specs.Rows.{is_stopped};
ghost use Rattle.dk_trace.specs.declared.ThreadId.{ThreadId};
ghost use Rattle.dk_inspect.specs.Printing.{IsThereIn};
ghost use Rattle.dk_cycle.specs.Start.{AreImagesAlike};
ghost use Rattle.dk_kernel.specs.Running.{world_of};
ghost use Rattle.dk_cycle_start.specs.Alike.{AreComparable, AreDifferent, HasOtherContext, HasOtherMemory, IsSameAt, IsSameImage, IsSameMemory, context_of};

use dk_config::MAX_THREADS;
use dk_cycle::same_context;
use dk_inspect::row_at;
use dk_kernel::Kernel;
use dk_threads::State;
use dk_trace::ThreadId;

fn is_stopped(state: State) -> bool
    ensures { result ≡ is_stopped state }
{
    matches!(state, State::Stopped)
}

/// Whether the thread has the same context in both.
fn same_contexts(early: &Kernel, late: &Kernel, process: u8, id: ThreadId) -> bool
    requires early { IsThereIn early.now process id }
    requires late { IsThereIn late.now process id }
    ensures same { result ≡ true → context_of early.now id ≡ context_of late.now id }
    ensures only { context_of early.now id ≡ context_of late.now id → result ≡ true }
{
    let Some(one) = early.context(id) else {
        return false;
    };
    let Some(other) = late.context(id) else {
        return false;
    };
    same_context(&one, &other)
}

/// Whether the thread at this place of the process has the same context in both, where there is one and it runs on.
fn same_at(early: &Kernel, late: &Kernel, process: u8, place: u8) -> bool
    requires known { process < length early.now.config.processes }
    requires comparable { AreComparable early.now late.now }
    ensures same { result ≡ true → IsSameAt early.now late.now process place }
    ensures only { result ≡ false → HasOtherContext early.now late.now process }
{
    let Some(row) = row_at(early, process, place) else {
        return true;
    };
    if is_stopped(row.state) {
        return true;
    }
    same_contexts(early, late, process, row.id)
}

/// Whether the threads of the process that run on have the same contexts in both.
fn same_threads(early: &Kernel, late: &Kernel, process: u8) -> bool
    requires known { process < length early.now.config.processes }
    requires comparable { AreComparable early.now late.now }
    ensures same { result ≡ true → IsSameImage early.now late.now process }
    ensures only { result ≡ false → HasOtherContext early.now late.now process }
{
    early.dispatcher().rows_are_few();
    for place in 0..MAX_THREADS as u8 {
        if !same_at(early, late, process, place) {
            return false;
        }
    }
    true
}

/// Whether the process has the same memory in both.
fn same_memory(early: &Kernel, late: &Kernel, process: u8) -> bool
    requires known { process < length early.now.config.processes }
    requires comparable { AreComparable early.now late.now }
    ensures same { result ≡ true → IsSameMemory early.now late.now process }
    ensures only { result ≡ false → HasOtherMemory early.now late.now process }
{
    let Some(one) = early.memory(process) else {
        return false;
    };
    let Some(other) = late.memory(process) else {
        return false;
    };
    one == other
}

/// Whether the process has the same memory in both, and its threads that run on the same contexts.
fn same_process(early: &Kernel, late: &Kernel, process: u8) -> bool
    requires known { process < length early.now.config.processes }
    requires comparable { AreComparable early.now late.now }
    ensures memory { result ≡ true → IsSameMemory early.now late.now process }
    ensures image { result ≡ true → IsSameImage early.now late.now process }
    ensures only { result ≡ false → AreDifferent early.now late.now }
{
    same_memory(early, late, process) && same_threads(early, late, process)
}

/// Whether the processes have the same memories in both, and their threads that run on the same contexts.
pub(crate) fn are_alike(early: &Kernel, late: &Kernel, processes: u8) -> bool
    requires all { processes ≡ length early.now.config.processes }
    requires comparable { AreComparable early.now late.now }
    ensures same { result ≡ true → AreImagesAlike early.now.config (world_of early.now) (world_of late.now) }
    ensures only { result ≡ false → AreDifferent early.now late.now }
{
    for process in 0..processes {
        if !same_process(early, late, process) {
            return false;
        }
    }
    true
}
