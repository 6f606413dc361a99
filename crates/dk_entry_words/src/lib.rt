//! What an entry says, in words: one writer for all outputs of a ledger, with a byte between each two words. The words are
//! those of a ledger's lines; this project's own.
#![tactic(auto)]

mod laws;
mod separator;
mod writing;

pub use laws::{told_by_any_separator, words_are_spelled};
pub use separator::Separator;
pub use writing::{Words, event_words, line_words, thread_words, work_words};
