//! The groups of a ledger in a range of ticks: the parts of its lines that lie in the range. This project's own.
#![tactic(auto)]

mod cutting;
mod group_reader;
mod laws;
mod surveying;
mod words;
mod write_fault;

pub use group_reader::GroupReader;
pub use laws::{given_in_order, whole_in_groups};
pub use surveying::{Survey, header_of, survey_ledger};
pub use words::{fault_word, work_word};
pub use write_fault::WriteFault;
