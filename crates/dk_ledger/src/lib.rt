//! The ledger of a run as text: a header of the certified levels and the processes, then one line
//! for each stretch of equal ticks. The format is this project's own.
#![tactic(auto)]

mod entry_text;
mod event_words;
mod header;
mod header_text;
mod in_place;
mod laws;
mod ledger;
mod ledger_reader;
mod line;
mod name;
mod readable;
mod reader;
mod reading;
mod run_writer;
mod text_line;
mod words;
mod writing;

pub use entry_text::{push_thread, text_of};
pub use header::{Header, ProcessLine};
pub use header_text::write_header;
pub use laws::{one_cut, one_to_one, read_in_order};
pub use ledger::{Ledger, LedgerFault};
pub use ledger_reader::LedgerReader;
pub use line::{LedgerLine, first_of, goes_on};
pub use name::Name;
pub use reading::{check_ledger, read_ledger};
pub use run_writer::RunWriter;
pub use text_line::TextLine;
pub use writing::end_of;
