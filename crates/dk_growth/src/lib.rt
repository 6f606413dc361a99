//! By how many percent all budgets of a configuration can grow at once, until a level fails or a rule is broken.
//!
//! All times are ticks of the simulated processor. No call needs memory. The rules are this project's own.
#![tactic(auto)]

mod demands;
mod growing;
mod limits;

pub use growing::greatest_growth;
pub use limits::growth_limit;

/// So many percent are too many for every budget: one tick alone would become more than 1,000,000.
pub const TOO_MANY_PERCENT: u32 = 100_000_000;
