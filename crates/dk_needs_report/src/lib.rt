//! All that is wrong with a document of needs, as text.
#![tactic(auto)]

mod found;
mod keys;
mod page;
mod placing;
mod reasons;
mod words;

pub use found::Finding;
pub use page::{needs_faults_page, needs_not_toml_page};
