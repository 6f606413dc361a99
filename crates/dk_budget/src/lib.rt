//! What each main has lent to its children, and what is left for it.
//!
//! A main has its budget in each window of its level. A child is lent a quota of it, which is ticks of
//! the main's window; its share of a window of its own level is the quota over that window's length.
//! A loan is in force from the start of the child's first window on, and ends with the window in which
//! the child stops, so budget comes back at a window's end and never before. These rules are this
//! project's own. No call needs memory.
#![tactic(auto)]

mod laws;
mod lender;
mod loan;
mod loans;
mod refusing;
mod shares;
mod starts;

pub use laws::{
    call_keeps_the_recount, child_shares_are_the_pasts, future_shares_are_the_pasts,
    main_shares_are_the_pasts, opening_keeps_the_recount, refusals_are_the_pasts,
    start_is_the_recount, stops_keep_the_recount, tick_keeps_the_recount,
};
pub use lender::Lender;
pub use loan::Loan;
pub use loans::Loans;
