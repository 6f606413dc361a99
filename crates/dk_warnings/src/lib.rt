//! What a configuration allows and can't be meant, and what each warning means for every run.
//!
//! All times are ticks of the simulated processor. `warnings` alone needs memory. The rules are this project's own.
#![tactic(auto)]

mod holds;
mod laws;
mod listing;
mod mutexes;
mod processes;
mod warning;

pub use holds::never_fits;
pub use laws::{hold_fits_law, hold_never_fits_law, warnings_law};
pub use listing::warnings;
pub use warning::Warning;
