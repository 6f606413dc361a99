//! The windows of the levels, kept by counting. Only `Period::of` divides, which `at_start` calls once
//! for each level at boot. No call needs memory.
//!
//! All windows start at tick 0. The window of a level starts at the last multiple of its period.
#![tactic(auto)]

mod laws;
mod period;
mod row;
mod windows;

pub use laws::windows_are_the_configurations;
pub use period::Period;
pub use windows::Windows;
