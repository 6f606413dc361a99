//! What is told of the slack that a certified layout promises, as lines of a text and as records of a table.
//!
//! All times are ticks of the simulated processor.
#![tactic(auto)]

mod rivals;
mod shares;
mod together;

pub use shares::slack;
pub use together::{Allotments, allotted};
