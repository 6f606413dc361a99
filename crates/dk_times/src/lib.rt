//! Profiles in two forms: a text with a step in a line, or a table of measured times with a column for a process and a row for
//! a job.
//!
//! All times are ticks of the simulated processor. A table is CSV (Shafranovich, 2005, RFC 4180) in which no field has a line
//! feed.
#![tactic(auto)]

mod columns;
mod form;
mod laws;
mod records;
mod rows;
mod table;
mod whole;

pub use form::{Form, form_of};
pub use laws::jobs_law;
pub use records::record_of;
pub use rows::{Column, Found};
pub use table::{Cell, read_cells, read_table};
pub use whole::read_in;
