//! How long after an event a chain of processes has answered it, process by process, and what would help, as text.
//!
//! All times are ticks of the simulated processor.
#![tactic(auto)]

mod changes;
mod finding;
mod latency;
mod report;
mod steps;
mod trials;

pub use finding::{Chain, find_chain};
pub use latency::{Latency, Span};
pub use report::chain_report;
pub use steps::{Step, Turn};
