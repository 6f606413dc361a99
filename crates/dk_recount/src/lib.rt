//! The tables of a run together, as plain values, and when they are the recount of a past.
//!
//! Each function carries laws in its contract, and does nothing but call the laws that it stands on: tables that are
//! the recount of a past choose as the past does, and are the next recount after a tick, an event, and the opening of
//! the next tick. Contracts of dk_dispatch cite them.
#![tactic(auto)]

mod birth_laws;
mod event_laws;
mod facing_laws;
mod laws;
mod needed;
mod question_laws;
mod stop_laws;
mod stretch_laws;
mod turning;

pub use birth_laws::{creates_are_refused_by_the_loans, creating_a_child_is_booked};
pub use event_laws::{
    asking_makes_the_recount, locking_makes_the_recount, unlocking_makes_the_recount,
    untold_event_is_booked, waiting_makes_the_recount,
};
pub use facing_laws::callers_have_rows;
pub use laws::{
    charging_makes_the_recount, choice_is_the_pasts, denial_is_the_pasts, start_is_the_recount,
};
pub use question_laws::{
    holds_are_the_pasts, jobs_are_the_pasts, rows_are_the_pasts, wishes_are_the_pasts,
    workers_are_the_pasts,
};
pub use stop_laws::{
    deletes_are_refused_by_the_rows, ending_threads_run, stopping_a_child_is_booked,
    stopping_a_main_is_booked,
};
pub use stretch_laws::{
    computing_makes_the_recount, lending_makes_the_recount, resting_makes_the_recount,
};
pub use turning::opening_makes_the_next_tick;
