//! Who holds each mutex as a ledger is gone through from its start. This project's own.
#![tactic(auto)]

mod entries;
mod holders;
mod holding;
mod laws;

pub use holders::Holders;
pub use holding::Holding;
pub use laws::{held_since_its_lock, holder_in_trace};
