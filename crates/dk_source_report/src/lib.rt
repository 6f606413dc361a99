//! All that is wrong with a source of the assembler, as text.
#![tactic(auto)]

mod lines;
mod report;
mod words;

pub use report::{SourceReport, source_report};
