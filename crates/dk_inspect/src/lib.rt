//! The state of a run at a tick, as text. The format is this project's own.
#![tactic(auto)]

mod levels;
mod printing;
mod threads;

pub use printing::print;
pub use threads::row_at;
