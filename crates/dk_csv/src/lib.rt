//! The table of a ledger: a row a group, in the form of the crate `csv`. The columns are this project's own.
#![tactic(auto)]

mod laws;
mod rows;
mod writing;

pub use laws::{needs_no_quotes, one_to_one};
pub use writing::CsvTable;
