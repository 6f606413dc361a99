//! By when in its window the main of a process has its ticks, whatever the others do.
//!
//! All times are ticks from the start of a window of the main's level. No call needs memory.
#![tactic(auto)]

mod counting;
mod earliest;
mod levels;
mod searching;

pub use earliest::{begins_from, done_from};
pub use levels::{level_ahead, level_done_by};
pub use searching::{begins_by, done_by};
