use dk_trace::ThreadId;

/// A window that a thread overran.
#[derive(Clone, Copy)]
pub struct Overrun {
    pub thread: ThreadId,
    /// How many ticks it has.
    pub period: u32,
    /// The tick with which it began.
    pub start: u32,
    /// The thread's last tick of its budget in it.
    pub last: u32,
}
