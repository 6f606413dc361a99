//! Why there is no page with a ledger.

/// Why there is no page with a ledger.
#[derive(Clone, Copy)]
pub enum RunFault {
    /// The first line, counted from 1, by which the bytes are no ledger.
    Line(u32),
    /// It is a ledger of another configuration.
    Other,
    /// The range of the picture ends behind the last tick; the number is that of the ledger's ticks.
    Ends(u32),
    NoMemory,
}
