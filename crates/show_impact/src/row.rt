//! What a change can do to a process.
use dk_impact::Change;

/// Why nothing is promised of a process.
#[derive(Clone, Copy)]
pub enum Cause {
    /// It may have children.
    Threads,
    /// It may ask for slack.
    Slack,
    /// Its program reads the tick.
    Clock,
}

/// What is known of whether each window of a process has enough, in every run of the old configuration.
#[derive(Clone, Copy)]
pub enum Waiting {
    /// Each has: its main waits in each for ever, and its program locks nothing.
    Always,
    /// Its main doesn't wait in the window that begins at this tick, the first such.
    NotFrom(u32),
    /// Its main waits in each so far, and no cycle of it is to be found in so many ticks as are searched.
    NotWithin,
    /// Its main waits in each for ever, and its program locks, so it may be refused a lock for want of budget.
    Locks,
}

/// What a change does to a process of the new configuration.
#[derive(Clone, Copy)]
pub enum Impact {
    /// It sees the same: its own time is what it was.
    Same,
    /// It sees nothing change but the period of its level: each of its windows is what it was.
    PeriodAlone,
    /// It is given a greater budget in windows of the same length, of which each has enough: its own time is what it was.
    Waits,
    /// It is given no less: each of its windows is what it was, as long as each has enough.
    IfItWaits(Waiting),
    /// It has another program.
    Program,
    /// It sees something else change.
    Changed,
    /// Nothing is promised of it, before or now.
    Open(Cause),
    /// No process had its name.
    New,
}

/// What is found of a process of the new configuration.
#[derive(Drop)]
pub struct Row {
    pub impact: Impact,
    /// All that it sees change, where it keeps to itself and has one program; else nothing.
    pub changes: Vec<Change>,
    /// After how many ticks of each window its main had its whole budget; of a new one as it is now.
    pub before: u32,
    /// After how many it has it now.
    pub after: u32,
}
