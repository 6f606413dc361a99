//! The edge of a program: the words of the process, the files that are opened by name, and output that is gathered.
//!
//! What a contract says of them, it says over any words, any opener and any output that tell what they hold. The system
//! is one of each that doesn't tell, in four methods that are taken on trust.
#![tactic(auto)]

mod buffer;
mod file_depot;
mod opener;
mod out_sink;
mod running;
mod system;
mod system_words;
mod words;

pub use file_depot::FileDepot;
pub use opener::Opener;
pub use out_sink::OutSink;
pub use running::{EdgeFault, Program, run_program};
pub use system::{StandardOutput, SystemFiles};
pub use system_words::ProcessWords;
pub use words::{Word, Words, words_of};
