//! All tables of a run together: who has the next tick, and what a tick and a call change.
#![tactic(auto)]

mod creating;
mod dispatcher;
mod levels;
mod node;
mod opening;
mod process;
mod reserving;
mod stopping;
mod tables;

pub use dispatcher::Dispatcher;
pub use tables::{Borrower, Lead, Runner};
