//! Whether a ledger follows the rules for a configuration, whatever the programs were.
//!
//! The auditor keeps no list of past entries: it books each entry in the tables of dk_dispatch, and stops at the first
//! one that breaks a rule. The rules are defined in dk_trace (`specs/Audit.antt`); they are this project's own.
#![tactic(auto)]

mod auditing;
mod booking;
mod finding;
mod heading;
mod laws;
mod lines;
mod rules;
mod ticking;

pub use auditing::audit;
pub use finding::Finding;
pub use heading::is_own_heading;
pub use laws::one_finding;
pub use lines::audit_bytes;
