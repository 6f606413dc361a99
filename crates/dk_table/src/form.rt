//! The forms in which rows are told.

/// The two forms in which a row is told.
#[derive(Clone, Copy)]
pub enum Form {
    /// A line of a text.
    Line,
    /// A record of a table.
    Record,
}
