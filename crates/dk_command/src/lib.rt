//! The commands: what the inputs of each come to, and the writing of it.
//!
//! The inputs that dk_inputs finds for the words come to work (`making.rt`), which is written (`work.rt`). A command is
//! a case of each of these, and a function that makes its work.
#![tactic(auto)]

mod auditing;
mod inspecting;
mod ledgers;
mod making;
mod planner;
mod prepare;
mod programs;
mod recording;
mod work;

pub use dk_inputs::{Refusal, Status};
pub use dk_request::usage;
pub use making::work_for;
pub use work::{Work, perform};
