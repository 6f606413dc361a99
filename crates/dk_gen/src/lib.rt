//! Workloads from a number: a configuration that is checked and certified, with its programs.
//!
//! The generator is this project's own. All times are ticks of the simulated processor.
#![tactic(auto)]

mod draws;
mod frame;
mod laws;
mod templates;
mod workload;

pub use laws::every_number_is_runnable;
pub use workload::generate;
