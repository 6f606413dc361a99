//! The tables at each tick.
ghost use Rattle.std.specs.Prelude.{◌≡◌, ◌<◌};
ghost use Rattle.dk_past.specs.Past.{Ready};

use crate::lines::{LevelLine, MOST_READY, Name, ThreadLine};
use arrayvec::ArrayVec;
use dk_config::MAX_THREADS;
use dk_dispatch::Dispatcher;
use dk_kernel::Kernel;
use dk_steps::Steps;
use dk_threads::ThreadRow;
use dk_trace::ThreadId;
use std::io;
use std::sync::ledger::{Blank, Ledger};

/// A kernel makes fewer ticks than these.
const MOST_TICKS: u32 = 4_000_000_000;

/// The row at the place of the process: its main's, and then those of its children by serial.
fn row_at(tables: &Dispatcher, process: u8, place: u8) -> Option<ThreadRow>
    requires { tables.now.past.tick ≡ Ready }
{
    match place {
        0 => tables.find(ThreadId { process, serial: 0 }),
        _ => tables.child(process, place - 1),
    }
}

fn level_of<L: Ledger>(tables: &Dispatcher, level: u8, steps: &mut Steps<L>) -> LevelLine
    requires { tables.now.past.tick ≡ Ready }
{
    let mut ready = ArrayVec::new();
    for index in 0..MOST_READY as u32 {
        if let Some(id) = tables.ready_at(level, index, steps) {
            ready.push(Name::from(id));
        }
    }
    LevelLine {
        level,
        holder: tables.holder_at(level).map(Name::from),
        ready,
    }
}

fn line_of<L: Ledger>(tables: &Dispatcher, id: ThreadId, steps: &mut Steps<L>) -> ThreadLine
    requires { tables.now.past.tick ≡ Ready }
{
    ThreadLine {
        id,
        rem: tables.rem(id, steps),
        phase: tables.phase(id, steps),
        want: tables.want(id),
        entering: tables.entering(id),
    }
}

fn print_process<L: Ledger>(
    rt: &HostRuntime,
    tables: &Dispatcher,
    process: u8,
    steps: &mut Steps<L>,
) -> io::Result<()>
    requires { tables.now.past.tick ≡ Ready }
{
    for place in 0..MAX_THREADS as u8 {
        if let Some(row) = row_at(tables, process, place) {
            println!(rt; "{}", line_of(tables, row.id, steps))?;
        }
    }
    Ok(())
}

/// Prints the tables at the present tick.
fn print_tables<L: Ledger>(
    rt: &HostRuntime,
    tables: &Dispatcher,
    levels: u8,
    processes: u8,
    steps: &mut Steps<L>,
) -> io::Result<()>
    requires { tables.now.past.tick ≡ Ready }
{
    println!(rt; "tick {}", tables.now())?;
    for level in 0..levels {
        println!(rt; "{}", level_of(tables, level, steps))?;
    }
    for process in 0..processes {
        print_process(rt, tables, process, steps)?;
    }
    Ok(())
}

/// Prints the tables before each of so many ticks, and at the end.
pub fn print_ticks<L: Ledger>(
    rt: &HostRuntime,
    kernel: &mut Kernel,
    levels: u8,
    processes: u8,
    ticks: u32,
    blank: Blank,
) -> io::Result<()>
    requires name { blank.name ≡ L.name }
    requires parts { blank.parts ≡ L.parts }
    requires some { 0 < L.parts }
{
    let mut steps = Steps::<L>::new(blank);
    print_tables(rt, kernel.dispatcher(), levels, processes, &mut steps)?;
    for _ in 0..ticks {
        if kernel.now() < MOST_TICKS {
            kernel.tick(&mut steps);
        }
        print_tables(rt, kernel.dispatcher(), levels, processes, &mut steps)?;
    }
    Ok(())
}
