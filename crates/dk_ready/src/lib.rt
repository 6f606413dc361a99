//! The job of each thread in the present window of its level, and which threads have something left.
//!
//! Threads sit on numbered nodes. A node stands in the ready queue of its level as long as its job has
//! something left. These rules are this project's own. No call but `reserve` needs memory.
#![tactic(auto)]

mod first;
mod jobs;
mod laws;
mod parts;
mod seat;

pub use first::{Ahead, First};
pub use jobs::Jobs;
pub use laws::{
    call_keeps_the_recount, jobs_are_the_pasts, start_is_the_recount, tick_keeps_the_recount,
};
pub use parts::Parts;
pub use seat::Seat;
