//! A ledger as Trace Event JSON, which Perfetto and chrome://tracing open. The tracks are this project's own.
#![tactic(auto)]

mod holds;
mod laws;
mod line;
mod lines;
mod names;
mod overruns;
mod slack;
mod slices;
mod tracks;
mod windows;
mod words;
mod writing;

pub use laws::{counts_slack, one_to_one};
pub use writing::Trace;
