//! What was found to repeat for ever in a run, as text.
#![tactic(auto)]

mod laws;
mod lines;
mod own;
mod text;

pub use laws::{cycle_windows_law, cycles_law, own_cycles_law, windows_law};
pub use own::OwnFound;
pub use text::repeats_text;
