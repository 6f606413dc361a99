//! One page in HTML for the design review of a layout.
//!
//! The page names nothing outside itself and has no script. A constant style sheet draws the bars from the numbers that
//! stand on the rows. All times are ticks of the simulated processor.
#![tactic(auto)]

mod chaining;
mod findings;
mod needing;
mod outputs;
mod repeating;
mod running;
mod template;
mod told;
mod top;
mod whole;

pub use chaining::{ChainTold, chains_additions};
pub use needing::{Standing, Wants, needs_additions};
pub use repeating::{RepeatsTold, program_additions, repeats_additions};
pub use running::{Drawing, Run, additions};
pub use told::{Additions, Certification, Told};
pub use whole::{faults_page, page};
