//! How much slack is promised, as numbers.
//!
//! All times are ticks of the simulated processor. No call needs memory. The rules are this project's own.
#![tactic(auto)]

mod beside;
mod given;
mod laws;
mod limiting;
mod own;
mod soon;

pub use beside::{given_slack_by, most_beside};
pub use given::{allotted_at, overdrawn_level};
pub use laws::{allotted_in_law, planned_law};
pub use limiting::limiting_level;
pub use own::{own_slack, slowest_slack, spare_of};
pub use soon::own_slack_by;
