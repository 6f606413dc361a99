//! Ticks that are done in one go.
ghost use Rattle.std.specs.Prelude.{◌≡◌};

use dk_trace::{Entry, Event, Label};

/// Some ticks one after the other that all have one label, of which the last alone may have an event.
#[derive(Clone, Copy)]
pub struct Stretch {
    pub label: Label,
    /// How many ticks: at least 1.
    pub count: u32,
    pub event: Option<Event>,
}

impl Stretch {
    ghost use Rattle.dk_kernel.specs.Stretches.{last_of};

    /// Its last entry.
    #[inline(always)]
    pub fn last(&self) -> Entry
        ensures { result ≡ last_of self.now }
    {
        Entry {
            label: self.label,
            event: self.event,
        }
    }
}
