//! Who executes an instruction in a tick.
use dk_trace::{Choice, ThreadId};

/// A thread that executes an instruction, with the slot of its context in its process's image, and the price of a call.
#[derive(Clone, Copy)]
pub struct Executor {
    pub thread: ThreadId,
    /// At most `MAX_CHILDREN`.
    pub slot: u8,
    /// How many ticks a kernel call takes, at least 1.
    pub cost: u8,
}

/// The turn of a thread: who executes in the tick, and the choice that gives it the tick.
///
/// A turn has no result. It writes the tick's entry, and a call in it the event, where the kernel keeps its newest
/// entry (`entry`, `event`): handing entries on as results took 60 to 100 instructions, since an enum is copied byte
/// by byte with its padding.
#[derive(Clone, Copy)]
pub struct Turn {
    pub choice: Choice,
    pub executor: Executor,
}
