//! A record of a table, as the crate `csv` writes it. The form is RFC 4180's (Shafranovich, 2005).
#![tactic(auto)]

mod form;
mod laws;
mod record;

pub use form::Form;
pub use laws::plain_names_law;
pub use record::{optional_number, record_of_four, record_of_three, record_of_two};
