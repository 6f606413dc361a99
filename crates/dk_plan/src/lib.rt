//! What still fits: the greatest budget of a process that certifies, and a base period for asked periods.
//!
//! All times are ticks of the simulated processor. No call needs memory.
#![tactic(auto)]

mod harmonising;
mod laws;
mod needs;
mod planning;

pub use harmonising::{Ask, Fraction, are_asks, best_base, period_of, utilisation};
pub use laws::{
    budgets_are_an_interval, certified_is_accepted, one_best_base, one_greatest_budget,
};
pub use needs::windows_in;
pub use planning::{greatest_budget, most_at};

/// The greatest number of asks for a period.
pub const MAX_ASKS: usize = 32;
