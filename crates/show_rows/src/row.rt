//! A row in the form that is wanted.
ghost use Rattle.std.specs.Prelude.{◌≡◌, ◌≤◌, ◌++◌, length, map, OnOk};
ghost use Rattle.csv.specs.Writing.{default_writer, field_text, fields_text, row_text};
ghost use Rattle.show_rows.specs.Rows.{cell_text, end_told, head_told, note_told, told};

use crate::cell::{Cell, cell_text};
use crate::field::add_field;
use crate::pattern::add_filled;
use std::alloc::{AllocError, Global};

/// The form in which rows are told.
#[derive(Clone, Copy)]
pub enum Form {
    /// Lines of a text.
    Line,
    /// Records of a table, as the crate `csv` writes them.
    Record,
}

fn add_cell(alloc: Global, out: &mut Vec<u8>, cell: &Cell) -> Result<(), AllocError>
    ensures { OnOk result (out.new.items ≡ out.old.items ++ field_text default_writer (cell_text cell.now)) }
{
    let text = cell_text(alloc, cell)?;
    add_field(out, text.as_str().as_bytes())
}

#[tactic(auto, unfolding(csv::specs::Writing::fields_text))]
fn add_cells(alloc: Global, out: &mut Vec<u8>, cells: &[Cell]) -> Result<(), AllocError>
    ensures { OnOk result (out.new.items ≡ out.old.items ++ fields_text default_writer (map cell_text cells.now)) }
{
    for cell in cells {
        out.extend_from_slice(b",")?;
        add_cell(alloc, out, cell)?;
    }
    Ok(())
}

#[tactic(auto, unfolding(csv::specs::Writing::fields_text, csv::specs::Writing::is_blank))]
fn add_record(alloc: Global, out: &mut Vec<u8>, cells: &[Cell]) -> Result<(), AllocError>
    requires { 2 ≤ length cells.now }
    ensures { OnOk result (out.new.items ≡ out.old.items ++ row_text default_writer (map cell_text cells.now)) }
{
    add_cell(alloc, out, &cells[0])?;
    add_cells(alloc, out, &cells[1..])?;
    out.extend_from_slice(b"\n")
}

/// Adds a row: its line, which is the pattern with the cells in its holes (`{name}` is the hole of the column `name`), or
/// its cells as a record. The names of the columns stand between commas. `Err` is want of memory.
pub fn add_row(
    alloc: Global,
    out: &mut Vec<u8>,
    form: Form,
    columns: &str,
    pattern: &str,
    cells: &[Cell],
) -> Result<(), AllocError>
    requires { 2 ≤ length cells.now }
    ensures { OnOk result (out.new.items ≡ out.old.items ++ told form columns.now pattern.now (map cell_text cells.now)) }
{
    match form {
        Form::Line => add_filled(alloc, out, columns, pattern, cells),
        Form::Record => add_record(alloc, out, cells),
    }
}

/// Adds a line that a table hasn't: the pattern with the cells in its holes.
pub fn add_note(
    alloc: Global,
    out: &mut Vec<u8>,
    form: Form,
    columns: &str,
    pattern: &str,
    cells: &[Cell],
) -> Result<(), AllocError>
    ensures { OnOk result (out.new.items ≡ out.old.items ++ note_told form columns.now pattern.now (map cell_text cells.now)) }
{
    match form {
        Form::Line => add_filled(alloc, out, columns, pattern, cells),
        Form::Record => Ok(()),
    }
}

/// Adds the names of the columns, with which a table begins.
pub fn add_columns(out: &mut Vec<u8>, form: Form, columns: &str) -> Result<(), AllocError>
    ensures { OnOk result (out.new.items ≡ out.old.items ++ head_told form columns.now) }
{
    match form {
        Form::Line => Ok(()),
        Form::Record => {
            out.extend_from_slice(columns.as_bytes())?;
            out.extend_from_slice(b"\n")
        }
    }
}

/// Adds the line that ends a text.
pub fn add_end(out: &mut Vec<u8>, form: Form) -> Result<(), AllocError>
    ensures { OnOk result (out.new.items ≡ out.old.items ++ end_told form) }
{
    match form {
        Form::Line => out.extend_from_slice(b"end\n"),
        Form::Record => Ok(()),
    }
}
