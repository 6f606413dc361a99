//! Finds ticks from which on a run, and each of its processes by itself, repeats for ever.
//!
//! What a run is at a tick is handed over by the caller, so no kernel is needed.
#![tactic(auto)]

mod keeping;
mod made;
mod own;
mod reading;
mod run;
mod seeking;
mod start;
mod stretching;
mod told;
mod waiting;

pub use keeping::Keeping;
pub use made::Made;
pub use own::{MainState, OwnSearch, same_context};
pub use reading::{is_behind_read, quiet_caller};
pub use run::{ProcessState, RunSearch, RunState, ThreadState};
pub use seeking::found_law;
pub use start::StartSearch;
pub use stretching::stretch_law;
pub use told::{OwnTold, RunTold, own_told, run_told, told_law};
pub use waiting::{WaitWatch, Waits, waits_law, waits_told};

/// From tick `start` on the same comes every `length` ticks.
#[derive(Clone, Copy)]
pub struct Cycle {
    pub start: u32,
    pub length: u32,
}
