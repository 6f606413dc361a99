//! What the words of the command line ask for.
//!
//! A command is a row of one table (`commands.rt`). Its words are read by `clap` (`clap_words.rt`), and mean a request
//! (`request.rt`).
#![tactic(auto)]

mod arguments;
mod asks;
mod clap_words;
mod commands;
mod output;
mod request;
mod words;

pub use asks::Asks;
pub use commands::usage;
pub use output::Output;
pub use request::{Request, request_in};
