//! Profiles: what the jobs of a process do in turn, step by step, read from a text. What a table of measured times says has the
//! same form.
//!
//! All times are ticks of the simulated processor. The format is this project's own.
#![tactic(auto)]

mod fault_text;
mod faults;
mod jobs;
mod numbers;
mod reading;
mod steps;
mod whole;
mod words;

pub use fault_text::faults_text;
pub use faults::{faults_of, step_size, work_size};
pub use reading::{amount, read_text};
pub use steps::{Placed, ProfileFault, Reading, Step, Why};
pub use whole::{Profile, profile_of, read_profile, steps_of};

/// The greatest number of ticks of a step of work.
pub const MAX_WORK: u32 = 1_000_000;

/// The greatest number that a program loads by one instruction.
pub const MAX_VALUE: u32 = 65_535;

/// The greatest number of instructions of a program.
pub const MAX_INSTRUCTIONS: u32 = 16_384;

/// The greatest number of bytes of a profile.
pub const MAX_PROFILE_BYTES: u32 = 1_048_576;
