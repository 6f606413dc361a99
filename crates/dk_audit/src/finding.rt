//! What an audit finds.

/// What an audit found.
#[derive(Clone, Copy, Debug, PartialEq, Eq)]
pub enum Finding {
    /// The header isn't that of the configuration.
    Header,
    /// The entry of this tick is the first that breaks the rules, and its label isn't one of the choice's.
    Label(u32),
    /// The entry of this tick is the first that breaks the rules, and its label is one of the choice's.
    Event(u32),
    /// All entries follow the rules; there are so many.
    Passed(u32),
}

/// Which rule an entry breaks first.
#[derive(Clone, Copy)]
pub enum Breach {
    Label,
    Event,
}
