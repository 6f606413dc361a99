//! Which rows a picture has.
ghost use Rattle.std.specs.Prelude.{◌≡◌, ◌≤◌, ◌+◌, ◌++◌, IfOk, OnOk, length, map};
ghost use Rattle.dk_picture.specs.Rows.{is_seen, level_of, level_rows, main_rows, process_rows, quiet_main, quiet_mains, rows_at_level, rows_of, thread_of_process};

use crate::rows::{Row, Rows, takes};
use crate::threads::children;
use dk_config::NoMemory;
use dk_ledger::{Header, LedgerLine};
use dk_trace::ThreadId;
use std::alloc::Global;

/// A process with more children than these has one row for all of them.
pub(crate) const OWN_ROWS: usize = 4;

pub(crate) fn level_of(header: &Header, process: u8) -> u8
    ensures { result ≡ level_of header.now process }
{
    match header.processes.as_slice().get(process as usize) {
        Some(line) => line.level,
        None => 0,
    }
}

/// Whether the process's main has a tick.
pub(crate) fn is_seen(groups: &[LedgerLine], process: u8) -> bool
    ensures { result ≡ is_seen groups.now process }
{
    let main = Row::Thread(ThreadId { process, serial: 0 });
    for group in groups {
        if takes(main, group.label) {
            return true;
        }
    }
    false
}

/// Adds the main's row where it has a tick.
fn add_main(rows: &mut Vec<Row>, groups: &[LedgerLine], process: u8) -> Result<(), NoMemory>
    ensures { OnOk result (rows.new.items ≡ rows.old.items ++ main_rows groups.now process) }
{
    if is_seen(groups, process) {
        rows.push(Row::Thread(ThreadId { process, serial: 0 }))?;
    }
    Ok(())
}

/// Adds the rows of a process: its main's, and those of its children.
fn add_process(
    alloc: Global,
    rows: &mut Vec<Row>,
    groups: &[LedgerLine],
    process: u8,
) -> Result<(), NoMemory>
    ensures { OnOk result (rows.new.items ≡ rows.old.items ++ process_rows groups.now process) }
{
    add_main(rows, groups, process)?;
    let serials = children(alloc, groups, process)?;
    if serials.len() > OWN_ROWS {
        rows.push(Row::Children(process))?;
        return Ok(());
    }
    add_children(rows, serials.as_slice(), process)
}

/// Adds a row for each of the children.
fn add_children(rows: &mut Vec<Row>, serials: &[u32], process: u8) -> Result<(), NoMemory>
    ensures { OnOk result (rows.new.items ≡ rows.old.items ++ map (thread_of_process process) serials.now) }
{
    for serial in serials {
        rows.push(Row::Thread(ThreadId {
            process,
            serial: *serial,
        }))?;
    }
    Ok(())
}

/// Adds the rows of the process where it is of the level.
fn add_at_level(
    alloc: Global,
    rows: &mut Vec<Row>,
    header: &Header,
    groups: &[LedgerLine],
    level: u8,
    process: u8,
) -> Result<(), NoMemory>
    ensures { OnOk result (rows.new.items ≡ rows.old.items ++ rows_at_level header.now groups.now level process) }
{
    if level_of(header, process) == level {
        add_process(alloc, rows, groups, process)
    } else {
        Ok(())
    }
}

/// Adds the rows of the level's processes.
fn add_level(
    alloc: Global,
    rows: &mut Vec<Row>,
    header: &Header,
    groups: &[LedgerLine],
    level: u8,
) -> Result<(), NoMemory>
    requires { length header.now.processes ≤ 32 }
    ensures { OnOk result (rows.new.items ≡ rows.old.items ++ level_rows header.now groups.now level) }
{
    for process in 0..header.processes.len() as u8 {
        add_at_level(alloc, rows, header, groups, level, process)?;
    }
    Ok(())
}

/// The kernel's row, and then those of the levels, the fastest first.
fn row_list(alloc: Global, header: &Header, groups: &[LedgerLine]) -> Result<Vec<Row>, NoMemory>
    requires levels { length header.now.levels ≤ 12 }
    requires processes { length header.now.processes ≤ 32 }
    ensures { IfOk result (λ rows. rows.items ≡ rows_of header.now groups.now) }
{
    let mut rows = Vec::new(alloc);
    rows.push(Row::Kernel)?;
    for level in 0..header.levels.len() as u8 {
        add_level(alloc, &mut rows, header, groups, level)?;
    }
    Ok(rows)
}

/// The rows of a picture of the groups.
pub(crate) fn rows_of(
    alloc: Global,
    header: &Header,
    groups: &[LedgerLine],
) -> Result<Rows, NoMemory>
    requires levels { length header.now.levels ≤ 12 }
    requires processes { length header.now.processes ≤ 32 }
    ensures { IfOk result (λ rows. rows ≡ rows_of header.now groups.now) }
{
    Ok(Rows::new(row_list(alloc, header, groups)?))
}

/// Adds the process where its main has no tick.
fn add_quiet(quiet: &mut Vec<u8>, groups: &[LedgerLine], process: u8) -> Result<(), NoMemory>
    ensures main { OnOk result (quiet.new.items ≡ quiet.old.items ++ quiet_main groups.now process) }
    ensures few { OnOk result (length quiet.new.items ≤ length quiet.old.items + 1) }
{
    if !is_seen(groups, process) {
        quiet.push(process)?;
    }
    Ok(())
}

/// The processes whose mains have no tick.
pub(crate) fn quiet_mains(
    alloc: Global,
    header: &Header,
    groups: &[LedgerLine],
) -> Result<Vec<u8>, NoMemory>
    requires { length header.now.processes ≤ 32 }
    ensures mains { IfOk result (λ quiet. quiet.items ≡ quiet_mains header.now groups.now) }
    ensures few { IfOk result (λ quiet. length quiet.items ≤ 32) }
{
    let mut quiet = Vec::new(alloc);
    for process in 0..header.processes.len() as u8 {
        add_quiet(&mut quiet, groups, process)?;
    }
    Ok(quiet)
}
