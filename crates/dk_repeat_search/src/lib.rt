//! What repeats for ever in a run: the kernel's ticks, and the searches over them.
#![tactic(auto)]

mod always;
mod count;
mod own;
mod report;
mod search;
mod states;

pub use always::{Always, find_always};
pub use report::{Repeats, find_repeats};
