//! What can be told of a configuration.

/// What a configuration allows and can't be meant. Each number is a row's.
#[derive(Clone, Copy)]
pub enum Warning {
    /// The process may have children, and no child's share has room for both switches and one tick.
    NoChild { process: u32 },
    /// What both switches leave of the budget, `body` ticks, is less than a call takes.
    ShortBody { process: u32, body: u32 },
    /// The process has the right to slack, and this level, the first such one, has no spare.
    NoSpare { process: u32, level: u32 },
    /// No user of the mutex has a level as fast as its ceiling; the fastest has this level.
    FastCeiling { mutex: u32, level: u32 },
    /// The user's main is the only thread that may lock the mutex.
    OwnMutex { mutex: u32, user: u32 },
    /// No share of the user has room for the hold; the greatest has room for one of `room` ticks.
    LongHold { mutex: u32, user: u32, room: u64 },
}
