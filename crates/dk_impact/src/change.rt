//! What a process can see change.

/// What only a program with some call sees.
#[derive(Clone, Copy)]
pub struct Sight {
    /// It holds the call that locks: it sees mutexes.
    pub locks: bool,
    /// It holds the call that makes a thread: it sees the numbers of its levels.
    pub creates: bool,
}

/// What a process sees change from one configuration to another. A number is a mutex's row.
#[derive(Clone, Copy)]
pub enum Change {
    /// The cost of a switch.
    Switch,
    /// The cost of a call.
    Call,
    /// The period of its level.
    Period,
    Budget,
    Memory,
    /// Whether it may lock the mutex.
    User(u32),
    /// How long it may hold the mutex.
    Hold(u32),
    /// The numbers of its level and of the slowest level of a child, which only a create that is refused reads.
    Levels,
}
