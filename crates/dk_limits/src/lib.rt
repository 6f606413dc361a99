//! The limits as numbers, and that what a run writes stays within them.
#![tactic(auto)]

mod laws;

pub use laws::{limits_are_these, readable_ledgers_fit, run_can_be_read};
