//! The configuration of a number, with its programs.
ghost use Rattle.std.specs.Prelude.{◌≡◌, ◌+◌, ◌*◌, ◌/◌, ◌<◌, ◌≤◌, IfOk, map};
ghost use Rattle.dk_gen.specs.Draws.{draw, state};
ghost use Rattle.dk_gen.specs.Generated.{file_name_of, generated, mutex_with, name_of, process_with};
ghost use Rattle.dk_gen.specs.Runnable.{IsRunnable};

use crate::draws::Draws;
use crate::frame::{Frame, draw_frame};
use crate::templates::draw_program;
use dk_config::{Config, MutexRow, NoMemory, ProcessRow, Text};
use dk_loader::Loaded;
use std::alloc::{AllocError, Global};

fn name(alloc: Global, i: u32) -> Result<Text, AllocError>
    ensures { IfOk result (λ name. name ≡ name_of i) }
{
    Ok(Text::new(format!(in alloc; "g{i}")?))
}

fn file_name(alloc: Global, i: u32) -> Result<Text, AllocError>
    ensures { IfOk result (λ name. name ≡ file_name_of i) }
{
    Ok(Text::new(format!(in alloc; "g{i}.bin")?))
}

/// A budget with room for both switches and a tick of work, and up to half of what each of so many
/// processes could have of a window.
fn draw_budget(draws: &mut Draws, switch: u32, period: u32, processes: u32) -> u32
    requires cheap { switch ≤ 2 }
    requires some { 0 < processes }
    requires few { processes ≤ 8 }
    requires long { 100 ≤ period }
    ensures budget { result ≡ 2 * switch + 1 + draw draws.old 0 (period / (2 * processes)) }
    ensures next { draws.new ≡ state draws.old 1 }
{
    2 * switch + 1 + draws.draw(period / (2 * processes))
}

fn process_row(alloc: Global, i: u32, budget: u32) -> Result<ProcessRow, AllocError>
    ensures { IfOk result (λ row. row ≡ process_with i budget) }
{
    Ok(ProcessRow {
        name: name(alloc, i)?,
        program: file_name(alloc, i)?,
        level: i % 3,
        budget,
        memory: 64,
        threads: 2,
        slack: true,
        max_level: 2,
    })
}

fn names_of(alloc: Global, processes: &[ProcessRow]) -> Result<Vec<Text>, AllocError>
    ensures { IfOk result (λ names. names.items ≡ map (λ row. row.name) processes.now) }
{
    let mut names = Vec::new(alloc);
    for process in processes {
        names.push(Text::new(String::from_str(alloc, process.name.as_str())?))?;
    }
    Ok(names)
}

/// A mutex of ceiling 0 that all these processes use, with a hold of at most a twentieth of the period.
fn draw_mutex(
    alloc: Global,
    draws: &mut Draws,
    period: u32,
    processes: &[ProcessRow],
) -> Result<MutexRow, AllocError>
    requires { 100 ≤ period }
    ensures { IfOk result (λ mutex. mutex ≡ mutex_with (1 + draw draws.old 0 (period / 20)) processes.now) }
{
    let hold = 1 + draws.draw(period / 20);
    Ok(MutexRow {
        name: Text::new(String::from_str(alloc, "m0")?),
        ceiling: 0,
        hold,
        users: names_of(alloc, processes)?,
    })
}

fn workload(alloc: Global, number: u64) -> Result<Loaded, AllocError>
    ensures { IfOk result (λ loaded. loaded ≡ generated number) }
{
    let mut draws = Draws::new(number);
    let Frame {
        levels,
        costs,
        processes: count,
    } = draw_frame(&mut draws);
    let mut processes = Vec::new(alloc);
    let mut programs = Vec::new(alloc);
    for i in 0..count {
        let period = levels[i as usize % 3].period;
        let budget = draw_budget(&mut draws, costs.switch, period, count);
        processes.push(process_row(alloc, i, budget)?)?;
        programs.push(draw_program(alloc, &mut draws)?)?;
    }
    let mut mutexes = Vec::new(alloc);
    mutexes.push(draw_mutex(alloc, &mut draws, levels[0].period, &processes)?)?;
    let config = Config {
        version: 1,
        costs,
        levels: Vec::from_array(alloc, levels)?,
        processes,
        mutexes,
    };
    Ok(Loaded { config, programs })
}

/// The workload of a number, which is drawn in this order.
///
/// - Three levels: periods of 100 to 900 ticks, then two to four times the one before; then releases
///   of 0 to 3 ticks.
/// - A switch cost of 0 to 2 ticks, a call cost of 1 or 2.
/// - Three to eight processes `g0`, `g1` and so on with the levels 0, 1, 2 in turn, 64 words of memory,
///   two children at a time and the right to slack. Each has a budget of both switches, a tick and a
///   drawn part, by which all processes together have at most half of each window; and then a program
///   from one of five templates (`specs/Templates.antt`).
/// - One mutex `m0` of ceiling 0 that all processes use, with a hold of at most a twentieth of the
///   first period.
///
/// Whatever the number is, the configuration is of version 1, checked and certified, and the same
/// number always gives the same workload. The only refusal is for want of memory. Nothing is read.
pub fn generate(alloc: Global, number: u64) -> Result<Loaded, NoMemory>
    ensures workload { IfOk result (λ loaded. loaded ≡ generated number) }
    ensures runnable { IfOk result IsRunnable }
{
    Ok(workload(alloc, number)?)
}
