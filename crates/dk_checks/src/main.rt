//! The program that the scripts in `checks/` call: runs worked rows over files and output in memory, and prints a
//! line for each; runs configurations with their programs, and prints the dispatcher's tables at each tick.
//!
//! Standard input has the rows (`row.rt`) and the runs (`run.rt`), a line for each of their parts.
#![tactic(auto)]

mod lines;
mod printing;
mod row;
mod run;

use dk_config::NoMemory;
use row::Row;
use run::Run;
use std::io;
use std::io::{BufRead, BufReader, ErrorKind};

/// Want of memory, as the input and the output tell it.
fn told(_: NoMemory) -> io::Error {
    io::Error::from(ErrorKind::OutOfMemory)
}

/// Gives a part to the row or the run that it belongs to. With its last part a row or a run is made.
fn take(rt: &HostRuntime, row: &mut Row, run: &mut Run, part: &str, text: &str) -> io::Result<()> {
    match part {
        "status" => {
            let outcome = row.outcome(rt.alloc(), text).map_err(told)?;
            println!(rt; "{}: {outcome}", row.name())
        }
        "ticks" => run.print(rt, text.parse().unwrap_or(0)),
        "run" | "config" | "program" => run.take(rt.alloc(), part, text).map_err(told),
        _ => row.take(rt.alloc(), part, text).map_err(told),
    }
}

/// Takes a line, which is one part of a row or of a run.
fn take_line(
    rt: &HostRuntime,
    row: &mut Row,
    run: &mut Run,
    line: io::Result<String>,
) -> io::Result<()> {
    let line = line?;
    match line.as_str().split_once(' ') {
        Some((part, text)) => take(rt, row, run, part, text),
        None => println!(rt; "no part of a row or a run: {line}"),
    }
}

fn main(rt: HostRuntime) -> io::Result<()> {
    let input = BufReader::new(rt.alloc(), rt.reader())?;
    let mut row = Row::new(rt.alloc());
    let mut run = Run::new(rt.alloc());
    for line in input.lines(rt.alloc()) {
        take_line(&rt, &mut row, &mut run, line)?;
    }
    Ok(())
}
