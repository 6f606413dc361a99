//! The holds of a ledger's mutexes in a range of ticks: who holds which, and from which tick to which. This project's own.
#![tactic(auto)]

mod hold;
mod laws;
mod listing;
mod reading;

pub use hold::Hold;
pub use laws::holds_are_the_holders;
pub use reading::{read_holders, read_holds};
