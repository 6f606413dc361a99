//! The outside of the program: where files are read from, where output goes, and both in memory.
//!
//! A count of faults or strays stays at `MAX_COUNT` once it is there. All traits and rules are this project's own.
#![tactic(auto)]

mod depot;
mod failing;
mod failing_depot;
mod failing_sink;
mod mem_depot;
mod mem_sink;
mod sink;

pub use depot::{Depot, DepotError};
pub use dk_config::NoMemory;
pub use failing_depot::FailingDepot;
pub use failing_sink::FailingSink;
pub use mem_depot::MemDepot;
pub use mem_sink::MemSink;
pub use sink::{Sink, SinkError, write_all_to};

/// The last value of a count of faults or strays.
pub const MAX_COUNT: u64 = u64::MAX;
