//! What is told of needs, as text: a line, a row of a table or a test case for each thing that is asked for, and what the
//! needs name that isn't there.
//!
//! All times are ticks of the simulated processor. The rules are this project's own.
#![tactic(auto)]

mod counts;
mod forever;
mod junit;
mod laws;
mod names;
mod table;
mod text;
mod unknown;

pub use junit::needs_junit;
pub use laws::cases_need_no_escapes;
pub use names::process_names;
pub use table::needs_csv;
pub use text::needs_text;
pub use unknown::unknown_page;
