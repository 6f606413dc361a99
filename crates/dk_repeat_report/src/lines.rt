//! The line of the run, and that of each process.
ghost use Rattle.std.specs.Prelude.{[], ◌≡◌, ◌++◌, codes, string_bytes, IfOk};
ghost use Rattle.std.specs.Option.{option_map_or};
ghost use Rattle.dk_repeat_report.specs.Lines.{begins_part, budget_part, child_line, cycle_line, cycle_totals_line, cycle_use_line, done_part, events_part, jitter_part, made_line, name_at, own_cycle_line, own_line, own_line_by, own_use_line, process_lines, refused_part, run_line, run_lines, timing_part, totals_line, use_line, used_part, waited_part};

use crate::own::OwnFound;
use dk_config::Text;
use dk_cycle::{Cycle, Keeping, Made, OwnTold, RunTold};
use dk_cycle_counts::{BeginTicks, CycleCounts, CycleTotals, ProcessUse};
use dk_window_report::WindowCounts;
use std::alloc::{AllocError, Global};

fn name_at(names: &[Text], process: u8) -> &str
    ensures { result.now ≡ name_at names.now process }
{
    match names.get(process as usize) {
        Some(name) => name.as_str(),
        None => "",
    }
}

fn reader_text(alloc: Global, name: &str) -> Result<String, AllocError>
    ensures { IfOk result (λ s. string_bytes s ≡ codes "repeats unknown " ++ (name.now ++ codes " reads the tick\n")) }
{
    format!(in alloc; "repeats unknown {name} reads the tick\n")
}

fn cycle_line(alloc: Global, ticks: u32, cycle: Option<Cycle>) -> Result<String, AllocError>
    ensures { IfOk result (λ s. string_bytes s ≡ cycle_line ticks cycle) }
{
    match cycle {
        Some(Cycle { start, length }) => {
            format!(in alloc; "repeats from {start} every {length}\n")
        }
        None => format!(in alloc; "repeats not within {ticks}\n"),
    }
}

/// The line of the run.
fn run_line(alloc: Global, names: &[Text], ticks: u32, told: RunTold) -> Result<String, AllocError>
    ensures { IfOk result (λ s. string_bytes s ≡ run_line names.now ticks told) }
{
    match told.reader {
        Some(process) => reader_text(alloc, name_at(names, process)),
        None => cycle_line(alloc, ticks, told.cycle),
    }
}

fn child_line(alloc: Global, name: &str, made: Made) -> Result<String, AllocError>
    ensures { IfOk result (λ s. string_bytes s ≡ child_line name.now made) }
{
    let Made { serial, tick, .. } = made;
    format!(in alloc; "child {serial} of {name} is new at {tick}\n")
}

/// The line of the child that was made last, where half of the ticks had gone by then.
fn made_line(
    alloc: Global,
    names: &[Text],
    ticks: u32,
    made: Option<Made>,
) -> Result<String, AllocError>
    ensures { IfOk result (λ s. string_bytes s ≡ made_line names.now ticks made) }
{
    match made {
        None => Ok(String::new(alloc)),
        Some(made) => {
            if made.tick < ticks / 2 {
                return Ok(String::new(alloc));
            }
            child_line(alloc, name_at(names, made.process), made)
        }
    }
}

/// The lines of the run.
pub(crate) fn run_lines(
    alloc: Global,
    names: &[Text],
    ticks: u32,
    told: RunTold,
) -> Result<String, AllocError>
    ensures { IfOk result (λ s. string_bytes s ≡ run_lines names.now ticks told) }
{
    let mut lines = run_line(alloc, names, ticks, told)?;
    lines.push_str(made_line(alloc, names, ticks, told.made)?.as_str())?;
    Ok(lines)
}

fn own_cycle_line(
    alloc: Global,
    name: &str,
    ticks: u32,
    cycle: Option<Cycle>,
) -> Result<String, AllocError>
    ensures { IfOk result (λ s. string_bytes s ≡ own_cycle_line name.now ticks cycle) }
{
    match cycle {
        Some(Cycle { start, length }) => {
            format!(in alloc; "process {name} from {start} every {length} whatever the others do\n")
        }
        None => format!(in alloc; "process {name} not within {ticks}\n"),
    }
}

fn own_line_by(
    alloc: Global,
    name: &str,
    ticks: u32,
    keeping: Keeping,
    cycle: Option<Cycle>,
) -> Result<String, AllocError>
    ensures { IfOk result (λ s. string_bytes s ≡ own_line_by name.now ticks keeping cycle) }
{
    match keeping {
        Keeping::Keeps => own_cycle_line(alloc, name, ticks, cycle),
        Keeping::ReadsTick => format!(in alloc; "process {name} reads the tick\n"),
        Keeping::HasThreads => format!(in alloc; "process {name} has threads\n"),
        Keeping::HasSlack => format!(in alloc; "process {name} has slack\n"),
    }
}

/// The line of a process by itself.
fn own_line(alloc: Global, names: &[Text], ticks: u32, told: OwnTold) -> Result<String, AllocError>
    ensures { IfOk result (λ s. string_bytes s ≡ own_line names.now ticks told) }
{
    own_line_by(
        alloc,
        name_at(names, told.process),
        ticks,
        told.keeping,
        told.cycle,
    )
}

/// The ticks of threads on their budgets.
fn budget_part(alloc: Global, totals: CycleTotals) -> Result<String, AllocError>
    ensures { IfOk result (λ s. string_bytes s ≡ budget_part totals) }
{
    let CycleTotals {
        ins,
        runs,
        calls,
        outs,
        ..
    } = totals;
    format!(in alloc; "cycle in {ins} run {runs} call {calls} out {outs}")
}

/// Whose the ticks of a cycle are.
fn totals_line(alloc: Global, totals: CycleTotals) -> Result<String, AllocError>
    ensures { IfOk result (λ s. string_bytes s ≡ totals_line totals) }
{
    let budgets = budget_part(alloc, totals)?;
    let budgets = budgets.as_str();
    let CycleTotals {
        slack,
        kernel,
        idle,
        ..
    } = totals;
    format!(in alloc; "{budgets} slack {slack} kernel {kernel} idle {idle}\n")
}

/// Whose the ticks of a cycle are, where one is counted.
pub(crate) fn cycle_totals_line(
    alloc: Global,
    counts: &Option<CycleCounts>,
) -> Result<String, AllocError>
    ensures { IfOk result (λ s. string_bytes s ≡ cycle_totals_line counts.now) }
{
    match counts {
        None => Ok(String::new(alloc)),
        Some(counts) => totals_line(alloc, counts.totals),
    }
}

fn waited_part(alloc: Global, counts: WindowCounts) -> Result<String, AllocError>
    ensures { IfOk result (λ s. string_bytes s ≡ waited_part counts) }
{
    let WindowCounts {
        windows,
        waited,
        overran,
        ..
    } = counts;
    format!(in alloc; " windows {windows} waited {waited} overran {overran}")
}

/// The least and the most that was used in a window.
fn used_part(alloc: Global, counts: WindowCounts, budget: u32) -> Result<String, AllocError>
    ensures { IfOk result (λ s. string_bytes s ≡ used_part counts budget) }
{
    let WindowCounts {
        least_used,
        most_used,
        ..
    } = counts;
    format!(in alloc; " used {least_used} to {most_used} of {budget}")
}

/// The earliest and the latest tick of a window at which it began.
fn begins_part(alloc: Global, begins: BeginTicks) -> Result<String, AllocError>
    ensures { IfOk result (λ s. string_bytes s ≡ begins_part begins) }
{
    let BeginTicks { first, last } = begins;
    format!(in alloc; " begins {first} to {last}")
}

/// The earliest and the latest tick of a window at which it was done.
fn done_part(alloc: Global, counts: WindowCounts) -> Result<String, AllocError>
    ensures { IfOk result (λ s. string_bytes s ≡ done_part counts) }
{
    let WindowCounts {
        first_done,
        last_done,
        ..
    } = counts;
    format!(in alloc; " done {first_done} to {last_done}")
}

/// By how much these ticks vary from window to window.
fn jitter_part(
    alloc: Global,
    begins: BeginTicks,
    counts: WindowCounts,
) -> Result<String, AllocError>
    ensures { IfOk result (λ s. string_bytes s ≡ jitter_part begins counts) }
{
    let begin = begins.last.saturating_sub(begins.first);
    let done = counts.last_done.saturating_sub(counts.first_done);
    format!(in alloc; " jitter {begin} {done}")
}

/// When in its windows it began and was done.
fn timing_part(alloc: Global, done: ProcessUse) -> Result<String, AllocError>
    ensures { IfOk result (λ s. string_bytes s ≡ timing_part done) }
{
    let mut part = begins_part(alloc, done.begins)?;
    part.push_str(done_part(alloc, done.main.counts)?.as_str())?;
    part.push_str(jitter_part(alloc, done.begins, done.main.counts)?.as_str())?;
    Ok(part)
}

fn events_part(alloc: Global, done: ProcessUse) -> Result<String, AllocError>
    ensures { IfOk result (λ s. string_bytes s ≡ events_part done) }
{
    let ProcessUse {
        slack,
        refused,
        faults,
        ..
    } = done;
    format!(in alloc; " slack {slack} refused {refused} faults {faults}")
}

/// What a process did in a cycle.
fn use_line(alloc: Global, name: &str, done: ProcessUse) -> Result<String, AllocError>
    ensures { IfOk result (λ s. string_bytes s ≡ use_line name.now done) }
{
    let mut line = format!(in alloc; "  {name}")?;
    line.push_str(waited_part(alloc, done.main.counts)?.as_str())?;
    line.push_str(used_part(alloc, done.main.counts, done.budget)?.as_str())?;
    line.push_str(timing_part(alloc, done)?.as_str())?;
    line.push_str(events_part(alloc, done)?.as_str())?;
    line.push_str("\n")?;
    Ok(line)
}

/// The same of the process, where a cycle is counted.
fn cycle_use_line(
    alloc: Global,
    name: &str,
    counts: &Option<CycleCounts>,
    process: u8,
) -> Result<String, AllocError>
    ensures { IfOk result (λ s. string_bytes s ≡ cycle_use_line name.now counts.now process) }
{
    match counts {
        None => Ok(String::new(alloc)),
        Some(counts) => match counts.processes.get(process as usize) {
            None => Ok(String::new(alloc)),
            Some(done) => use_line(alloc, name, *done),
        },
    }
}

fn refused_part(alloc: Global, refused: u32) -> Result<String, AllocError>
    ensures { IfOk result (λ s. string_bytes s ≡ refused_part refused) }
{
    format!(in alloc; " refused {refused}\n")
}

/// What a process does in each of its cycles by itself.
fn own_use_line(alloc: Global, name: &str, done: ProcessUse) -> Result<String, AllocError>
    ensures { IfOk result (λ s. string_bytes s ≡ own_use_line name.now done) }
{
    let mut line = format!(in alloc; "  {name}")?;
    line.push_str(" by itself")?;
    line.push_str(waited_part(alloc, done.main.counts)?.as_str())?;
    line.push_str(used_part(alloc, done.main.counts, done.budget)?.as_str())?;
    line.push_str(refused_part(alloc, done.refused)?.as_str())?;
    Ok(line)
}

/// The same, where one of its cycles is counted.
fn own_line_of(alloc: Global, name: &str, done: Option<ProcessUse>) -> Result<String, AllocError>
    ensures { IfOk result (λ s. string_bytes s ≡ option_map_or (own_use_line name.now) done []) }
{
    match done {
        None => Ok(String::new(alloc)),
        Some(done) => own_use_line(alloc, name, done),
    }
}

/// The lines of a process.
pub(crate) fn process_lines(
    alloc: Global,
    names: &[Text],
    ticks: u32,
    counts: &Option<CycleCounts>,
    found: &OwnFound,
) -> Result<String, AllocError>
    ensures { IfOk result (λ s. string_bytes s ≡ process_lines names.now ticks counts.now found.now) }
{
    let process = found.told.process;
    let name = name_at(names, process);
    let mut lines = own_line(alloc, names, ticks, found.told)?;
    lines.push_str(cycle_use_line(alloc, name, counts, process)?.as_str())?;
    lines.push_str(own_line_of(alloc, name, found.done)?.as_str())?;
    Ok(lines)
}
