//! What a ledger says of its run.
ghost use Rattle.std.specs.Prelude.{◌≡◌};
ghost use Rattle.dk_needs_run.specs.declared.found.RunFault.TheVariants.{NoMemory as Memory};

use dk_config::NoMemory;
use dk_needs_check::Audit;

/// What a ledger says of its run: what an audit finds, and of all threads together in how many windows one overran, how
/// many calls were refused, and how many faults there were. Each of these numbers goes up to the last value of 32 bits.
#[derive(Clone, Copy)]
pub struct RunFound {
    pub audit: Audit,
    pub overruns: u32,
    pub refused: u32,
    pub faults: u32,
}

/// Why the bytes of a ledger say nothing.
#[derive(Drop)]
pub enum RunFault {
    /// They are no ledger; this is the first line, counted from 1, by which they are none.
    Line(u32),
    /// The ledger's header isn't that of the configuration.
    Other,
    /// Want of memory.
    NoMemory,
}

impl From<NoMemory> for RunFault {
    ghost from_gives = { λ _ e. e ≡ Memory };

    fn from(_: NoMemory) -> Self {
        RunFault::NoMemory
    }
}
