use dk_trace::ThreadId;

/// A hold of a mutex: the thread that holds it, and the first tick in which it does, the one after its lock.
#[derive(Clone, Copy)]
pub struct Holding {
    pub thread: ThreadId,
    pub since: u32,
}
