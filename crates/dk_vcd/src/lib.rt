//! A ledger as a value change dump, which GTKWave opens. The signals are this project's own.
#![tactic(auto)]

mod changes;
mod holders;
mod laws;
mod opening;
mod signals;
mod words;
mod writing;

pub use laws::{holders_are_told, one_to_one, values_have_no_blank};
pub use writing::Dump;
