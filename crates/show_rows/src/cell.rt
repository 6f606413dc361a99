//! What a row has in its columns.
ghost use Rattle.std.specs.Prelude.{◌≡◌, decimal, string_bytes, IfOk};
ghost use Rattle.show_rows.specs.Rows.{cell_text, number_field};

use std::alloc::{AllocError, Global};

/// What a row has in a column.
#[derive(Clone, Copy)]
pub enum Cell<'a> {
    /// Nothing.
    Gap,
    /// Words.
    Word(&'a str),
    /// A number.
    Number(u64),
}

/// A number, or nothing.
pub fn number_cell(number: Option<u32>) -> Cell<'static>
    ensures { cell_text result ≡ number_field number }
{
    match number {
        Some(number) => Cell::Number(number as u64),
        None => Cell::Gap,
    }
}

fn number_text(alloc: Global, number: u64) -> Result<String, AllocError>
    ensures { IfOk result (λ s. string_bytes s ≡ decimal number) }
{
    format!(in alloc; "{number}")
}

/// The text of a cell.
pub(crate) fn cell_text(alloc: Global, cell: &Cell) -> Result<String, AllocError>
    ensures { IfOk result (λ s. string_bytes s ≡ cell_text cell.now) }
{
    match *cell {
        Cell::Gap => Ok(String::new(alloc)),
        Cell::Word(words) => String::from_str(alloc, words),
        Cell::Number(number) => number_text(alloc, number),
    }
}
