use dk_trace::ThreadId;

/// A hold of a mutex as far as it lies in a range: the thread holds it in the ticks from `start` up to before `end`.
#[derive(Clone, Copy)]
pub struct Hold {
    pub mutex: u8,
    pub thread: ThreadId,
    pub start: u32,
    pub end: u32,
}
