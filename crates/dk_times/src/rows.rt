//! What the rows of a table say of the jobs of a process, one by one.
ghost use Rattle.std.specs.Prelude.{◌≡◌};
ghost use Rattle.csv.specs.Records.{fields_of};
ghost use Rattle.dk_times.specs.Rows.{after_row, cell_at, cell_says, column_behind, column_named, column_says, row_says};

use crate::columns::place_of;
use csv::ByteRecord;
use dk_profile::{MAX_WORK, Why, amount};

/// The column of a process.
#[derive(Clone, Copy)]
pub struct Column {
    /// Its place in each row.
    pub place: usize,
    /// The number of cells of a row.
    pub width: usize,
    /// Whether a cell above is empty.
    pub ended: bool,
}

/// What the rows so far tell of the column of a process.
#[derive(Clone, Copy)]
pub enum Found {
    /// The row of the names is still to come.
    Nothing,
    /// No column has the name.
    NoColumn,
    At(Column),
}

fn column_named(names: &ByteRecord, name: &[u8]) -> Found
    ensures { result ≡ column_named name.now (fields_of names.now) }
{
    match place_of(names, name) {
        Some(place) => Found::At(Column {
            place,
            width: names.len(),
            ended: false,
        }),
        None => Found::NoColumn,
    }
}

fn cell_at(row: &ByteRecord, place: usize) -> &[u8]
    ensures { result.now ≡ cell_at (fields_of row.now) place }
{
    match row.get(place) {
        Some(cell) => cell,
        None => &[],
    }
}

/// The ticks of the job in a cell, or why it tells none; nothing where it is empty.
fn cell_says(call: u32, ended: bool, cell: &[u8]) -> Option<Result<u32, Why>>
    ensures { result ≡ cell_says call ended cell.now }
{
    if cell.is_empty() {
        None
    } else if ended {
        Some(Err(Why::Ended))
    } else {
        Some(amount(call, MAX_WORK, cell))
    }
}

fn column_says(call: u32, column: Column, row: &ByteRecord) -> Option<Result<u32, Why>>
    ensures { result ≡ column_says call column (fields_of row.now) }
{
    if row.len() == column.width {
        cell_says(call, column.ended, cell_at(row, column.place))
    } else {
        Some(Err(Why::Cells(column.width as u64)))
    }
}

/// What a row says of a job of the process.
pub(crate) fn row_says(
    call: u32,
    name: &[u8],
    found: Found,
    row: &ByteRecord,
) -> Option<Result<u32, Why>>
    ensures { result ≡ row_says call name.now found (fields_of row.now) }
{
    match found {
        Found::Nothing => match place_of(row, name) {
            Some(_) => None,
            None => Some(Err(Why::NoColumn)),
        },
        Found::NoColumn => None,
        Found::At(column) => column_says(call, column, row),
    }
}

fn column_behind(column: Column, row: &ByteRecord) -> Column
    ensures { result ≡ column_behind column (fields_of row.now) }
{
    if row.len() == column.width && cell_at(row, column.place).is_empty() {
        Column {
            place: column.place,
            width: column.width,
            ended: true,
        }
    } else {
        column
    }
}

/// What is known of the column behind a row.
pub(crate) fn after_row(name: &[u8], found: Found, row: &ByteRecord) -> Found
    ensures { result ≡ after_row name.now found (fields_of row.now) }
{
    match found {
        Found::Nothing => column_named(row, name),
        Found::NoColumn => Found::NoColumn,
        Found::At(column) => Found::At(column_behind(column, row)),
    }
}
