//! How far one number of a configuration can go with all others as they are, until a level fails or a rule is broken.
//!
//! All times are ticks of the simulated processor. No call needs memory. The rules are this project's own.
#![tactic(auto)]

mod holds;
mod limits;
mod releases;
mod switches;

pub use holds::greatest_hold;
pub use limits::{budget_limit, hold_limit, release_limit, switch_limit};
pub use releases::greatest_release;
pub use switches::greatest_switch;
