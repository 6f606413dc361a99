//! Who holds each mutex, and for how many ticks more.
//!
//! A thread may hold several mutexes, and gives them back last taken first. What it may still hold a
//! mutex for is the mutex's longest hold less the thread's ticks since the lock. These rules are this
//! project's own; that a holder runs at the ceiling of what it holds follows Sha, Rajkumar and
//! Lehoczky (1990). No call needs memory.
#![tactic(auto)]

mod front;
mod laws;
mod marks;
mod mutexes;
mod outer;
mod owing;
mod row;
mod rows;

pub use laws::{
    call_keeps_the_recount, free_mutexes_are_the_pasts, holds_are_the_pasts, lefts_are_the_pasts,
    levels_are_the_pasts, refusals_are_the_pasts, start_is_the_recount, stops_keep_the_recount,
    tick_keeps_the_recount,
};
pub use mutexes::Mutexes;
pub use row::{Holder, Lockable};
