//! From a table of measured times to budgets: what each process of a layout needs, and whether all of it certifies.
//!
//! All times are ticks of the simulated processor.
#![tactic(auto)]

mod measure;
mod report;
mod strangers;
mod together;
mod tops;
mod wrong;

pub use measure::{MAX_RESERVE, Measure, least_law};
pub use report::{BudgetForm, Budgets, Ended, tell_budgets};
pub use together::{Together, together_law};

#[cfg(test)]
mod tests;
