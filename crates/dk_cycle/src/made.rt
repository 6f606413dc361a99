//! The child that was made last in a run.
ghost use Rattle.std.specs.Prelude.{◌≡◌};
ghost use Rattle.dk_cycle.specs.Made.{last_made, made_in};

use dk_trace::{Entry, Event};

/// A child: its process, its serial, and the tick in which it was made.
#[derive(Clone, Copy)]
pub struct Made {
    pub process: u8,
    pub serial: u32,
    pub tick: u32,
}

/// The child that is made in the tick with this entry.
fn made_in(tick: u32, entry: &Entry) -> Option<Made>
    ensures { result ≡ made_in tick entry.now }
{
    let thread = entry.label.thread()?;
    match entry.event {
        Some(Event::Create { serial, .. }) => {
            if thread.serial != 0 {
                return None;
            }
            Some(Made {
                process: thread.process,
                serial,
                tick,
            })
        }
        _ => None,
    }
}

/// The child that was made last, where this one was before the tick.
#[inline(always)]
pub(crate) fn last_made(before: Option<Made>, tick: u32, entry: &Entry) -> Option<Made>
    ensures { result ≡ last_made before tick entry.now }
{
    match made_in(tick, entry) {
        Some(made) => Some(made),
        None => before,
    }
}
