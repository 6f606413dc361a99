//! How long after an event a chain of processes has answered it in a ledger.
#![tactic(auto)]

ghost use Rattle.dk_bound.specs.Laws.{Always};
ghost use Rattle.dk_chain_ledger.specs.Laws.{ReactsWithin};

mod jobs;
mod reactions;
mod tables;
mod text;

pub use reactions::{Reactions, ledger_reactions};
pub use text::reactions_line;

/// Whatever the programs did: under every configuration that is checked and accepted, in every ledger that follows the
/// rules, no reaction of a chain is longer than its reaction time.
pub fn measured_law()
    ensures { Always ReactsWithin }
{}
