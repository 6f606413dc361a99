//! What is needed of a run, decided by a ledger.
//!
//! All times are ticks of the simulated processor. The rules are this project's own.
#![tactic(auto)]

mod auditing;
mod checking;
mod found;
mod laws;
mod reading;
mod rows;

pub use checking::check_needs_of_run;
pub use found::{RunFault, RunFound};
pub use laws::run_law;
pub use reading::run_of;
