//! A writer of ledgers, entry by entry: the plain one, beside which the writer of a run in `dk_ledger` is fast. This
//! project's own.
#![tactic(auto)]

mod writer;

pub use writer::LedgerWriter;
