use dk_trace::ThreadId;

/// Who stands first of all ready queues: on which node, and at which level.
#[derive(Clone, Copy, PartialEq, Eq)]
pub struct First {
    pub node: u32,
    pub level: u8,
    pub thread: ThreadId,
}

/// Who stands first of all ready queues, and for how many ticks it computes at least.
#[derive(Clone, Copy)]
pub struct Ahead {
    pub first: First,
    pub ticks: u32,
}
