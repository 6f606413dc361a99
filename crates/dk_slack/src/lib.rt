//! Who asks for slack at each level, the oldest call first, and where a tick of slack comes from.
//!
//! Slack lends time that periodic work doesn't need, after Lehoczky and Ramos-Thuel (1992). That the
//! threads of a level have it in the order of their calls, that its first ticks are a switch in, and
//! where a tick of it comes from are this project's own rules. Only `SlackTable::reserve` needs memory.
#![tactic(auto)]

mod laws;
mod starting;
mod table;
mod unclaimed;
mod wanted;

pub use laws::{
    call_keeps_the_recount, fronts_are_the_pasts, opening_keeps_the_recount, source_is_the_pasts,
    start_is_the_recount, stops_keep_the_recount, tick_keeps_the_recount, wishes_are_the_pasts,
};
pub use table::{Ahead, SlackTable};
