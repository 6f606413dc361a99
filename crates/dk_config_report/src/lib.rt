//! All that is wrong with a configuration, as text; and pages, the texts that are written whole.
#![tactic(auto)]

mod allowed;
mod fault_lines;
mod following;
mod page;
mod values;

pub use fault_lines::faults;
pub use page::{Page, push_line};
