//! What each thread of a ledger did in its windows.
#![tactic(auto)]

mod account;
mod clean;
mod family;
mod firsts;
mod kept;
mod late;
mod laws;
mod passing;
mod report;
mod row;
mod rows;
mod touched;

pub use account::{Account, Tally};
pub use clean::counts;
pub use firsts::{budget_at, first_tick, first_window};
pub use kept::{fresh, main_row};
pub use laws::{counted_law, no_overrun_law, row_law};
pub use passing::gone_by;
pub use report::WindowReport;
pub use row::{Did, Row, WindowCounts, stepped};
