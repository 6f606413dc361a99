//! Parts of a page in HTML: text as a browser shows it, rows of tables, what a command writes behind its words, and the row
//! of a file.
#![tactic(auto)]

mod checksums;
mod cutting;
mod escaping;
mod laws;
mod outputs;
mod parts;
mod pieces;
mod tables;

pub use laws::escaped_once;
pub use parts::{Part, add_parts};
