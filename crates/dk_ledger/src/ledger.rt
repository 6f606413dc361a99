use crate::Header;
use dk_config::NoMemory;
use dk_trace::Entry;
use std::marker::Model;
use thiserror::Error;

/// A ledger as it was read: one entry per tick, from tick 0 on.
#[derive(Drop)]
pub struct Ledger {
    pub header: Header,
    pub entries: Vec<Entry>,
}

impl Model for Ledger {
    ghost use Rattle.dk_ledger.specs.Readable.{Journal};

    ghost Value = { Journal };

    ghost view = { λ l. record { heading = l.header; entries = l.entries.items } };
}

/// Why bytes were not read as a ledger.
#[derive(Clone, Copy, Debug, Error)]
pub enum LedgerFault {
    /// The first line, counted from 1, by which they are no ledger.
    #[error("line {0}")]
    Line(u32),
    #[error("want of memory")]
    NoMemory,
}

impl From<NoMemory> for LedgerFault {
    ghost use Rattle.std.specs.Prelude.{◌≡◌};
    ghost use Rattle.dk_ledger.specs.declared.ledger.LedgerFault.TheVariants.{NoMemory};

    ghost from_gives = { λ _ e. e ≡ NoMemory };

    fn from(_: NoMemory) -> LedgerFault {
        LedgerFault::NoMemory
    }
}
