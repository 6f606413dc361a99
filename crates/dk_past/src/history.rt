//! Where a run stands, for proofs alone. It takes no memory, and its methods do nothing at run time.
ghost use Rattle.std.specs.Prelude.{◌≡◌};
ghost use Rattle.std.specs.Borrow.{ftrue};
ghost use Rattle.dk_past.specs.Past.{Past};

use dk_config::Config;
use dk_trace::{Choice, Entry};
use std::marker::Model;

/// A clause reads it as `past`.
#[derive(Drop)]
pub struct History {
    pub ghost past: { Past },
}

impl Model for History {
    ghost also_owns = { λ _. ftrue };
}

/// What moves a run on.
#[derive(Clone, Copy)]
pub enum Note {
    /// The tick is the chosen one's.
    Charge,
    /// A call of the thread that has the tick is done, with the event of that name.
    Wait,
    Exit,
    Slack(u32),
    Lock(u32),
    Unlock(u32),
    Create { serial: u32, level: u32, quota: u32 },
    Delete(u32),
    /// The tick's entry is booked.
    Entry(Entry),
    /// The clock has moved on.
    Close(Entry),
    /// The next tick is open.
    Open,
    /// So many ticks of the choice went by, without an event.
    Ticks { choice: Choice, count: u32 },
}

impl History {
    ghost use Rattle.dk_past.specs.Past.{start};
    ghost use Rattle.dk_past.specs.Noted.{noted};

    /// Before the first tick.
    #[inline(always)]
    pub fn new(_config: &Config) -> History
        ensures { result.past ≡ start _config.now }
    {
        History {}
    }

    /// After the note.
    #[inline(always)]
    pub fn then(&self, _note: &Note) -> History
        ensures { result.past ≡ noted self.now.past _note.now }
    {
        History {}
    }
}
