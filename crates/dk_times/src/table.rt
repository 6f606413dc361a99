//! A table as a whole: the jobs that the column of a process tells, and what they say as a profile.
ghost use Rattle.std.specs.Prelude.{◌≡◌, ◌≤◌, ◌+◌, ◌*◌, ◌++◌, flat_map, length, option_map, option_to_list, IfOk, OnOk};
ghost use Rattle.dk_times.specs.Records.{record_of};
ghost use Rattle.dk_times.specs.Table.{after_line, cell_readings, cells_of, job_readings, line_cells, said_at, table_readings};

use crate::records::record_of;
use crate::rows::{Found, after_row, row_says};
use dk_asm::first_line;
use dk_config::NoMemory;
use dk_profile::{MAX_PROFILE_BYTES, Placed, Reading, Step, Why};
use std::alloc::{AllocError, Global};

/// What a cell says, with the line of its row.
#[derive(Clone, Copy)]
pub struct Cell {
    pub line: u32,
    /// The ticks of a job, or why it tells none.
    pub says: Result<u32, Why>,
}

fn push_cell(
    cells: &mut Vec<Cell>,
    line: u32,
    says: Option<Result<u32, Why>>,
) -> Result<(), AllocError>
    ensures added { OnOk result (cells.new.items ≡ cells.old.items ++ option_to_list (option_map (said_at line) says)) }
    ensures few { OnOk result (length cells.new.items ≤ length cells.old.items + 1) }
{
    if let Some(says) = says {
        cells.push(Cell { line, says })?;
    }
    Ok(())
}

/// Adds what a line says, and gives what is known of the column behind it.
fn push_line(
    alloc: Global,
    cells: &mut Vec<Cell>,
    call: u32,
    name: &[u8],
    found: Found,
    line: u32,
    bytes: &[u8],
) -> Result<Found, NoMemory>
    ensures added { OnOk result (cells.new.items ≡ cells.old.items ++ line_cells call name.now found line (record_of bytes.now)) }
    ensures few { OnOk result (length cells.new.items ≤ length cells.old.items + 1) }
    ensures found { IfOk result (λ behind. behind ≡ after_line name.now found (record_of bytes.now)) }
{
    match record_of(alloc, bytes)? {
        Some(row) => {
            push_cell(cells, line, row_says(call, name, found, &row))?;
            Ok(after_row(name, found, &row))
        }
        None => Ok(found),
    }
}

/// What the cells of the column of this name say, from the row behind the names on, in a table of at most 1,048,576 bytes,
/// where a call takes so many ticks. `Err` is want of memory.
pub fn read_cells(
    alloc: Global,
    call: u32,
    name: &[u8],
    table: &[u8],
) -> Result<Vec<Cell>, NoMemory>
    requires { length table.now ≤ MAX_PROFILE_BYTES }
    ensures cells { IfOk result (λ v. v.items ≡ cells_of call name.now table.now) }
    ensures few { IfOk result (λ v. length v.items ≤ MAX_PROFILE_BYTES) }
{
    let mut cells = Vec::new(alloc);
    let mut found = Found::Nothing;
    let mut rest = table;
    let mut line: u32 = 1;
    while !rest.is_empty() {
        let (bytes, behind) = first_line(rest);
        found = push_line(alloc, &mut cells, call, name, found, line, bytes)?;
        rest = behind;
        line += 1;
    }
    Ok(cells)
}

fn push_job(readings: &mut Vec<Placed>, call: u32, line: u32, ticks: u32) -> Result<(), AllocError>
    ensures added { OnOk result (readings.new.items ≡ readings.old.items ++ job_readings call line ticks) }
    ensures few { OnOk result (length readings.new.items ≤ length readings.old.items + 2) }
{
    if call < ticks {
        let reading = Reading::Does(Step::Work(ticks - call));
        readings.push(Placed { line, reading })?;
    }
    let reading = Reading::Does(Step::Wait);
    readings.push(Placed { line, reading })?;
    Ok(())
}

fn push_readings(readings: &mut Vec<Placed>, call: u32, cell: Cell) -> Result<(), AllocError>
    ensures added { OnOk result (readings.new.items ≡ readings.old.items ++ cell_readings call cell) }
    ensures few { OnOk result (length readings.new.items ≤ length readings.old.items + 2) }
{
    let line = cell.line;
    match cell.says {
        Ok(ticks) => push_job(readings, call, line, ticks),
        Err(why) => {
            let reading = Reading::Wrong(why);
            readings.push(Placed { line, reading })?;
            Ok(())
        }
    }
}

fn readings_of(alloc: Global, call: u32, cells: &[Cell]) -> Result<Vec<Placed>, AllocError>
    ensures readings { IfOk result (λ v. v.items ≡ flat_map (cell_readings call) cells.now) }
    ensures few { IfOk result (λ v. length v.items ≤ 2 * length cells.now) }
{
    let mut readings = Vec::new(alloc);
    for cell in cells {
        push_readings(&mut readings, call, *cell)?;
    }
    Ok(readings)
}

/// What a table of at most 1,048,576 bytes says of the process of this name, where a call takes so many ticks.
pub fn read_table(
    alloc: Global,
    call: u32,
    name: &str,
    table: &[u8],
) -> Result<Vec<Placed>, NoMemory>
    requires { length table.now ≤ MAX_PROFILE_BYTES }
    ensures readings { IfOk result (λ v. v.items ≡ table_readings call name.now table.now) }
    ensures few { IfOk result (λ v. length v.items ≤ 2 * MAX_PROFILE_BYTES) }
{
    let cells = read_cells(alloc, call, name.as_bytes(), table)?;
    Ok(readings_of(alloc, call, &cells)?)
}
