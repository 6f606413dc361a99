//! The least start of a cycle of a run: a second pass with two kernels, as far apart as the cycle is long.
#![tactic(auto)]

mod alike;
mod copies;
mod pass;
mod quiet;
mod reading;
mod walk;

pub use copies::programs_of;
pub use pass::SecondPass;
pub use quiet::{go_on, go_quietly};
pub use reading::reader_of;
