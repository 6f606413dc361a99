//! Queues of numbered nodes in one block of raw memory.
#![tactic(auto)]

mod block;
mod cells;
mod level_queues;
mod rail;

pub use dk_config::NoMemory;
pub use level_queues::{LevelQueues, Waiting};
pub use rail::Rail;
