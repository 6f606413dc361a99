//! What is told of a ledger, as lines of a text and as records of a table. The formats are this project's own.
//!
//! All times are ticks of the simulated processor.
#![tactic(auto)]

mod cells;
mod counting;
mod extremes;
mod laws;
mod lines;
mod mains;
mod measuring;
mod mutexes;
mod notes;
mod overruns;
mod tenths;
mod texts;
mod threads;
mod told;

pub use extremes::Extreme;
pub use laws::{extreme_law, tenths_law};
pub use lines::{Strictness, is_sound, windows_lines};
pub use measuring::MeasuredHold;
pub use mutexes::holds;
pub use overruns::all_windows;
pub use tenths::tenths_csv;
pub use texts::{ReportTexts, report_texts};
pub use threads::windows_csv;
