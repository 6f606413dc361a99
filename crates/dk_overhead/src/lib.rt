//! What a thread has left of its share of the current window, and which part of it comes next.
//!
//! A share begins with the ticks of the switch in and ends with those of the switch out; its body,
//! in which the thread executes, lies between. These rules are this project's own.
#![tactic(auto)]

mod job;
mod laws;

pub use job::Job;
pub use laws::{
    call_keeps_the_recount, opening_keeps_the_recount, start_is_the_recount,
    stops_keep_the_recount, tick_keeps_the_recount,
};
