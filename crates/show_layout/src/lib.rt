//! What is told of a layout, as lines of a text and as records of a table.
//!
//! All times are ticks of the simulated processor.
#![tactic(auto)]

mod allowed;
mod blocking;
mod levels;
mod numbers;
mod parts;
mod reaches;
mod takes;
mod timings;

pub use allowed::warnings;
pub use levels::{certificate, uncertified};
pub use numbers::margins;
pub use parts::matrix;
pub use timings::{when, when_of};
