//! All rules that a configuration breaks, where `dk_config::check` tells the first.
#![tactic(auto)]

mod collecting;
mod levels;
mod listing;
mod names;
mod ranges;
mod users;

pub use listing::faults;
