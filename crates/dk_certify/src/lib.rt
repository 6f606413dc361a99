//! The certification test: whether every level's work fits its windows.
//!
//! All times are ticks of the simulated processor. No call needs memory.
#![tactic(auto)]

mod certified;
mod certifying;
mod laws;
mod table;

pub use certified::{Certified, Overload};
pub use certifying::{Verdict, can_delay, certify, demand_of, level_row, longest_delay};
pub use laws::{lower_reach_blocks_no_longer, verdict_ignores_version};
pub use table::{Table, TableRow};
