//! What is needed of a run for ever, decided by the configuration with its programs.
//!
//! All times are ticks of the simulated processor. The rules are this project's own.
#![tactic(auto)]

mod asking;
mod deciding;
mod laws;
mod lending;
mod telling;

pub use asking::asks_always;
pub use deciding::decide_always;
pub use laws::{always_law, first_ticks_law, had_law};

/// So many ticks are searched for what repeats.
pub const ALWAYS_TICKS: u32 = 1_000_000;
