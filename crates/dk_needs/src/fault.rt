//! Why a document of needs is refused.
ghost use Rattle.std.specs.Prelude.{◌≡◌, List};
ghost use Rattle.dk_needs.specs.declared.fault.NeedsError.TheVariants.{NoMemory};

use std::alloc::{AllocError, AllocFailed};
use std::marker::Model;

/// A section of the document, in the order in which it is read.
#[derive(Clone, Copy)]
pub enum Section {
    Deadline,
    Chain,
    Jitter,
    Room,
    Growth,
    Spare,
    Slack,
    Always,
    Run,
}

/// A row of the document: the section's rows are counted from 0.
#[derive(Clone, Copy)]
pub struct Place {
    pub section: Section,
    pub row: usize,
}

/// A key of the document.
#[derive(Clone, Copy)]
pub enum Key {
    Version,
    Tick,
    Deadline,
    Chain,
    Jitter,
    Room,
    Growth,
    Spare,
    Slack,
    Always,
    Run,
    Id,
    Process,
    Within,
    Each,
    Processes,
    Reaction,
    Age,
    Begins,
    Done,
    Budget,
    Mutex,
    Hold,
    Level,
    Release,
    Percent,
    Ticks,
    Waits,
    Overruns,
    Refused,
    Faults,
    Forever,
    /// A key that the table doesn't have.
    Unknown,
}

/// What is wrong at a key.
#[derive(Clone, Copy)]
pub enum Why {
    /// The table has a key that isn't one of its own.
    Unknown,
    /// There is no value.
    Missing,
    /// The value is of another kind.
    Kind,
    /// The number is out of its range.
    Range,
    /// The text isn't spelled as it must be.
    Spelling,
    /// There are too few or too many of them.
    Count,
    /// An earlier need has this name.
    Again,
}

/// What is wrong with a document at one place.
#[derive(Clone, Copy)]
pub struct Fault {
    /// The row, and `None` for the keys of the whole document.
    pub place: Option<Place>,
    pub key: Key,
    pub why: Why,
}

/// All that is wrong with a document. It is seen as a list.
#[derive(Drop)]
pub struct Faults {
    faults: Vec<Fault>,
}

impl Model for Faults {
    ghost use Rattle.std.specs.Prelude.{List};
    ghost use Rattle.dk_needs.specs.declared.fault.Fault.{Fault};

    ghost Value = { List Fault };

    ghost view = { λ f. f.faults.items };
}

impl Faults {
    /// Needs no memory.
    pub fn new(faults: Vec<Fault>) -> Faults
        ensures { result ≡ faults.items }
    {
        Faults { faults }
    }

    /// The faults, lent.
    pub fn as_slice(&self) -> &[Fault]
        ensures { result.now ≡ self.now }
    {
        self.faults.as_slice()
    }
}

/// Why there are no needs.
#[derive(Drop)]
pub enum NeedsError {
    /// The bytes are no document of TOML.
    NotToml,
    /// All that is wrong with it.
    Refused(Faults),
    /// Want of memory.
    NoMemory,
}

impl From<AllocError> for NeedsError {
    ghost from_gives = { λ _ e. e ≡ NoMemory };

    fn from(_: AllocError) -> Self {
        NeedsError::NoMemory
    }
}

impl<T: Drop> From<AllocFailed<T>> for NeedsError {
    ghost from_gives = { λ _ e. e ≡ NoMemory };

    fn from(_: AllocFailed<T>) -> Self {
        NeedsError::NoMemory
    }
}
