//! What the program does, over any depot and any sink.
#![tactic(auto)]

mod in_memory;
mod session;

pub use dk_command::Status;
pub use dk_limits::{limits_are_these, readable_ledgers_fit, run_can_be_read};
pub use in_memory::deosk_in_memory;
pub use session::deosk;
