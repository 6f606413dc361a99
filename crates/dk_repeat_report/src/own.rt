//! What was found of a process by itself.

use dk_cycle::OwnTold;
use dk_cycle_counts::ProcessUse;

/// What was found of a process by itself, and what is counted of one of its cycles.
#[derive(Clone, Copy)]
pub struct OwnFound {
    pub told: OwnTold,
    pub done: Option<ProcessUse>,
}
