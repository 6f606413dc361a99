//! A trace is JSON: the value that serde_json reads from its text.
#![tactic(auto)]

mod laws;

pub use laws::is_json;
