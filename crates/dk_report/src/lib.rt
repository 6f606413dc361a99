//! The totals of a run, and their report. The format is this project's own.
#![tactic(auto)]

mod counting;
mod printing;
mod sums;

pub use counting::{ProcessTotals, Totals};
