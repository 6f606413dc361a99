//! Whether a configuration keeps what is needed of it, need by need.
//!
//! All times are ticks of the simulated processor. The rules are this project's own.
#![tactic(auto)]

mod answers;
mod asking;
mod bounds;
mod checking;
mod deciding;
mod finding;
mod row;
mod slack;
mod unknown;
mod verdict;

pub use asking::asked_allotments;
pub use checking::check_needs;
pub use finding::process_named;
pub use row::{Answer, Answers, Audit, Bound, Measure, Reason, Repeating, Row, Verdict, Waiting};
pub use unknown::{Checking, Unknown};
pub use verdict::{are_met, is_met, is_upper, verdict_of};
