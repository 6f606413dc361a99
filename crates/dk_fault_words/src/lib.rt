//! The words of the line that tells a fault of a configuration.
#![tactic(auto)]

mod fault_words;

pub use fault_words::{fault_head, fault_name, fault_text};
