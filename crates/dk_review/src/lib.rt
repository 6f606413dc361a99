//! The page for the design review of the layout in a document, with all that is told of it, and of a ledger.
#![tactic(auto)]

mod chains;
mod drawing;
mod fault;
mod file;
mod needing;
mod reviewing;
mod running;
mod telling;

pub use drawing::Range;
pub use fault::RunFault;
pub use file::NamedFile;
pub use reviewing::{Ending, Review, review_of, review_with};
