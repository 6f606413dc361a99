//! What each level still needs before its window ends, kept by events in constant room.
//!
//! A level's own demand is the unfinished work of its threads and of the kernel at it. Its remaining
//! demand is what it and all faster levels need before its window ends, the shares of windows that
//! begin until then among it. Its blocking is how long slower holders of mutexes can keep it waiting.
//! A tick of slack fits where each level that has work can wait one tick longer. These rules are this
//! project's own. No call needs memory, and none sums over windows to come.
#![tactic(auto)]

mod cells;
mod demand;
mod laws;

pub use demand::Demand;
pub use laws::{
    call_keeps_the_recount, cells_are_changed_by_level, cells_are_the_pasts,
    first_unfit_is_the_pasts, opening_keeps_the_recount, start_is_the_recount,
    stops_keep_the_recount, tick_keeps_the_recount,
};
