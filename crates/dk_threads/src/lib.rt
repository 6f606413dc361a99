//! The life of threads: which there are in each process, in which slot, and whether each is starting,
//! live or stopped.
//!
//! A child starts at the next window of its level and, once stopped, ends with the window that its level
//! is in. All rules are this project's own. Only `Threads::reserve` needs memory.
#![tactic(auto)]

mod children;
mod family;
mod laws;
mod row;
mod rows;
mod threads;

pub use laws::{
    a_slot_is_free, call_keeps_the_recount, opening_keeps_the_recount, rows_are_the_pasts,
    start_is_the_recount, stops_keep_the_recount, tick_keeps_the_recount,
};
pub use row::{State, ThreadRow};
pub use threads::Threads;
