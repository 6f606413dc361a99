//! What is counted of the ticks of a cycle, and so of each later one.
#![tactic(auto)]

mod begins;
mod counts;
mod process;
mod totals;

pub use begins::BeginTicks;
pub use counts::CycleCounts;
pub use process::{MainShare, ProcessUse};
pub use totals::CycleTotals;
