//! What flight software needs of a layout, read from a document of TOML.
//!
//! All times are ticks of the simulated processor. The format is this project's own.
#![tactic(auto)]

mod again;
mod build;
mod fault;
mod fitting;
mod keys;
mod look;
mod needs;
mod reading;
mod shape;
mod tick;

pub use fault::{Fault, Faults, Key, NeedsError, Place, Section, Why};
pub use keys::{Form, Shape, key_name, needed_keys, other_keys, section_key, shape_of, top_keys};
pub use look::{is_known, rows_at};
pub use needs::{Names, Need, Needs, Tick, Unit, What};
pub use reading::read_needs;
pub use shape::form_of;

/// The greatest number of rows of a section.
pub const MAX_ROWS: usize = 256;

/// The greatest number of bytes of the name of a need.
pub const MAX_ID_BYTES: usize = 32;

/// The greatest percentage that a need asks for.
pub const MAX_PERCENT: u32 = 1_000_000;

/// The greatest number of units that a tick has.
pub const MAX_AMOUNT: u32 = 999_999;
