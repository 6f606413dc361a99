//! All that is wrong with the document of a configuration, as text.
#![tactic(auto)]

mod findings;
mod kinds;
mod laws;
mod looks;
mod marks;
mod place;
mod places;
mod reading;
mod reasons;
mod shape;
mod telling;

pub use findings::keys_in;
pub use kinds::{kind_at, kind_text};
pub use laws::tells_none_law;
pub use looks::find;
pub use marks::ends_of_expressions;
pub use places::{find_place, row_has};
pub use reading::table_of;
pub use reasons::shown_key;
pub use telling::{document_faults, not_toml};
