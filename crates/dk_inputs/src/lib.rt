//! The inputs of the commands: what each reads and tests over a depot, in order, and why it may be refused.
//!
//! Each command reads files and tests them (`reading.rt`), one after another (`commands.rt`). What it finds are its inputs
//! (`inputs.rt`); `finding.rt` has them for a request and for words.
#![tactic(auto)]

mod commands;
mod finding;
mod inputs;
mod reading;
mod refusal;
mod status;

pub use finding::inputs_for;
pub use inputs::Inputs;
pub use refusal::Refusal;
pub use status::Status;
