//! The windows that the threads of a ledger overran, each with its thread's last tick of the budget. This project's own.
#![tactic(auto)]

mod finding;
mod laws;
mod marks;
mod overrun;
mod reading;
mod scanning;

pub use laws::{all_counted_law, all_told_law, last_paid_law};
pub use marks::Marks;
pub use overrun::Overrun;
pub use reading::{overruns_in, read_overruns};
