//! Rows, and the one writer of each form in which they are told: as a line of a text, or as a record of a table.
//!
//! A report is its columns, by their names, a sentence for each kind of row with holes for the columns, and the cells.
#![tactic(auto)]

mod cell;
mod column;
mod field;
mod pattern;
mod row;

pub use cell::{Cell, number_cell};
pub use row::{Form, add_columns, add_end, add_note, add_row};
