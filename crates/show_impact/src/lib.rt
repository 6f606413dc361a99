//! What a change of the configuration does to each process, as rows: lines of a text or records of a table.
//!
//! Processes are matched by their names. All times are ticks of the simulated processor.
#![tactic(auto)]

mod comparing;
mod copies;
mod counts;
mod forms;
mod load;
mod row;
mod told;
mod touching;
mod waiting;
mod whole;

pub use comparing::impacts;
pub use load::CertifiedLoad;
pub use row::{Cause, Impact, Row, Waiting};
pub use touching::touches_only;
pub use waiting::WAIT_TICKS;
pub use whole::impact_text;
