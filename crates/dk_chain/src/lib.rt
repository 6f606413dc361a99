//! How long after an event a chain of processes has answered it, whatever the other processes do.
//!
//! A job of a main is its share of one window of its level. No call needs memory.
#![tactic(auto)]

ghost use Rattle.dk_bound.specs.Laws.{Always};
ghost use Rattle.dk_chain.specs.Age.{AgesInTime};
ghost use Rattle.dk_chain.specs.Chain.{ReactsInTime};

mod earliest;
mod in_order;
mod reacting;
mod shortest;
mod sooner;

pub use earliest::{
    chain_takes_law, no_shorter_law, no_sooner_law, not_before_law, not_before_met_law,
};
pub use in_order::{begin_in_order_law, over_in_time_law};
pub use reacting::{data_age, free_from, next_window, reaction, worst_event};
pub use shortest::{reaction_jitter, shortest_reaction};
pub use sooner::{releases_before, sooner_law};

/// Whatever the programs do, a chain of processes answers each event within its reaction time: there is a window of the
/// first process that starts at the event or after, and of each next one a window in which its job begins only when the
/// job before is over; and the last job is over in time. A job is over where the main has had its whole share, or has
/// waited or was stopped.
pub fn reaction_law()
    ensures { Always ReactsInTime }
{}

/// And the data that the last process works with is never older than the reaction time and one tick, less a window of
/// the last process: counted from the start of the window in which the first process made it to the tick by which the
/// last one's job is done.
pub fn data_age_law()
    ensures { Always AgesInTime }
{}
