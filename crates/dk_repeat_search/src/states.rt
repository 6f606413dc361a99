//! What a kernel's run is at its tick.
ghost use Rattle.std.specs.Prelude.{◌≡◌, ◌<◌, ◌≤◌, ◌++◌, length, true, is_some, IfOk, IfSome, OnOk};
ghost use Rattle.dk_config.specs.declared.TheConstants.{MAX_THREADS};
ghost use Rattle.dk_threads.specs.Rows.{is_stopped};
ghost use Rattle.dk_alone.specs.Again.{main_is_stopped};
ghost use Rattle.dk_cycle.specs.Own.{IsMainState};
ghost use Rattle.dk_cycle.specs.Seeking.{IsWholeState};
ghost use Rattle.dk_kernel.specs.Running.{trace_of, world_of};
ghost use Rattle.dk_repeat_search.specs.States.{AreThreads, AreWhole, IsThreadAt, IsWholeProcess, listed};

use dk_bound::rows_law;
use dk_config::{MAX_THREADS, NoMemory};
use dk_cpu::Context;
use dk_cycle::{MainState, ProcessState, RunState, ThreadState};
use dk_inspect::row_at;
use dk_kernel::Kernel;
use dk_threads::State;
use std::alloc::Global;

fn is_stopped(state: State) -> bool
    ensures { result ≡ is_stopped state }
{
    matches!(state, State::Stopped)
}

/// Whether the main of the process was stopped.
fn main_is_stopped(kernel: &Kernel, process: u8) -> Option<bool>
    requires { process < length kernel.now.config.processes }
    ensures is { IfSome result (λ b. b ≡ main_is_stopped kernel.now.config process (trace_of kernel.now)) }
    ensures there { is_some result ≡ true }
{
    rows_law();
    kernel.dispatcher();
    match row_at(kernel, process, 0) {
        None => None,
        Some(row) => Some(is_stopped(row.state)),
    }
}

/// The context of the main of the process.
fn main_context(kernel: &Kernel, process: u8) -> Option<Context>
    requires { process < length kernel.now.config.processes }
    ensures is { IfSome result (λ context. context ≡ ((world_of kernel.now).images process).contexts 0) }
    ensures there { is_some result ≡ true }
{
    rows_law();
    kernel.dispatcher();
    match row_at(kernel, process, 0) {
        None => None,
        Some(row) => kernel.context(row.id),
    }
}

/// A copy of the process's memory. None where it has no program.
fn memory_of(alloc: Global, kernel: &Kernel, process: u8) -> Result<Option<Vec<u32>>, NoMemory>
    ensures is { IfOk result (λ o. IfSome o (λ words. words.items ≡ ((world_of kernel.now).images process).memory)) }
    ensures there { process < length kernel.now.programs → IfOk result (λ o. is_some o ≡ true) }
{
    match kernel.memory(process) {
        None => Ok(None),
        Some(words) => Ok(Some(words.to_vec(alloc)?)),
    }
}

/// What the process is now. None where it has no program.
pub(crate) fn main_state(
    alloc: Global,
    kernel: &Kernel,
    process: u8,
) -> Result<Option<MainState>, NoMemory>
    requires { process < length kernel.now.config.processes }
    ensures is { IfOk result (λ o. IfSome o (IsMainState kernel.now.config kernel.now.programs process)) }
    ensures there { process < length kernel.now.programs → IfOk result (λ o. is_some o ≡ true) }
    ensures tick { IfOk result (λ o. IfSome o (λ now. now.tick ≡ kernel.now.ticks)) }
{
    let Some(stopped) = main_is_stopped(kernel, process) else {
        return Ok(None);
    };
    let Some(context) = main_context(kernel, process) else {
        return Ok(None);
    };
    match memory_of(alloc, kernel, process)? {
        None => Ok(None),
        Some(words) => Ok(Some(MainState {
            tick: kernel.now(),
            stopped,
            context,
            words,
        })),
    }
}

/// The thread at the place of the process, where there is one and it runs on, and its context.
fn thread_at(kernel: &Kernel, process: u8, place: u8) -> Option<ThreadState>
    requires { process < length kernel.now.config.processes }
    ensures { IsThreadAt kernel.now process place result }
{
    let row = row_at(kernel, process, place)?;
    if is_stopped(row.state) {
        return None;
    }
    let context = kernel.context(row.id)?;
    Some(ThreadState {
        serial: row.id.serial,
        context,
    })
}

/// Adds the thread, where there is one.
fn add_thread(threads: &mut Vec<ThreadState>, thread: Option<ThreadState>) -> Result<(), NoMemory>
    ensures { OnOk result (threads.new.items ≡ threads.old.items ++ listed thread) }
{
    match thread {
        Some(thread) => {
            threads.push(thread)?;
            Ok(())
        }
        None => Ok(()),
    }
}

/// The threads of the process that run on.
fn threads_of(alloc: Global, kernel: &Kernel, process: u8) -> Result<Vec<ThreadState>, NoMemory>
    requires { process < length kernel.now.config.processes }
    ensures { IfOk result (λ threads. AreThreads kernel.now process threads.items MAX_THREADS) }
{
    let mut threads = Vec::new(alloc);
    for place in 0..MAX_THREADS as u8 {
        add_thread(&mut threads, thread_at(kernel, process, place))?;
    }
    Ok(threads)
}

/// What the process is now, thread by thread. None where it has no program.
fn process_state(
    alloc: Global,
    kernel: &Kernel,
    process: u8,
) -> Result<Option<ProcessState>, NoMemory>
    requires { process < length kernel.now.config.processes }
    ensures is { IfOk result (λ o. IfSome o (IsWholeProcess kernel.now process)) }
    ensures there { process < length kernel.now.programs → IfOk result (λ o. is_some o ≡ true) }
{
    kernel.dispatcher().rows_are_few();
    let threads = threads_of(alloc, kernel, process)?;
    match memory_of(alloc, kernel, process)? {
        None => Ok(None),
        Some(words) => Ok(Some(ProcessState { words, threads })),
    }
}

/// What the processes are now. None where one has no program.
fn process_states(
    alloc: Global,
    kernel: &Kernel,
    processes: u8,
) -> Result<Option<Vec<ProcessState>>, NoMemory>
    requires { processes ≡ length kernel.now.config.processes }
    ensures are { IfOk result (λ o. IfSome o (λ states. AreWhole kernel.now processes states.items)) }
    ensures there { processes ≤ length kernel.now.programs → IfOk result (λ o. is_some o ≡ true) }
{
    let mut states = Vec::new(alloc);
    for process in 0..processes {
        match process_state(alloc, kernel, process)? {
            None => return Ok(None),
            Some(state) => states.push(state)?,
        }
    }
    Ok(Some(states))
}

/// What the run is now. None where a process has no program.
pub(crate) fn run_state(
    alloc: Global,
    kernel: &Kernel,
    processes: u8,
) -> Result<Option<RunState>, NoMemory>
    requires { processes ≡ length kernel.now.config.processes }
    ensures is { IfOk result (λ o. IfSome o (IsWholeState kernel.now.config kernel.now.programs)) }
    ensures there { processes ≤ length kernel.now.programs → IfOk result (λ o. is_some o ≡ true) }
    ensures tick { IfOk result (λ o. IfSome o (λ now. now.tick ≡ kernel.now.ticks)) }
{
    match process_states(alloc, kernel, processes)? {
        None => Ok(None),
        Some(processes) => Ok(Some(RunState {
            tick: kernel.now(),
            processes,
        })),
    }
}
