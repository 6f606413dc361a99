//! The steps of jobs, and what a line of a profile says.

/// A step of a job. Mutexes are named by their rows.
#[derive(Clone, Copy)]
pub enum Step {
    /// So many ticks of work, 1 to 1,000,000.
    Work(u32),
    Lock(u16),
    Unlock(u16),
    /// A wish of so many ticks of slack, 1 to 65,535.
    Slack(u16),
    /// This number is put.
    Put(u16),
    /// The end of a job: it waits for its next window.
    Wait,
}

/// Why a line says nothing, or why its step can't be done where it stands. Of a table a line is a row.
#[derive(Clone, Copy)]
pub enum Why {
    /// It begins with no step.
    NoStep,
    /// It has words behind its step.
    More,
    /// A number is missing, or what stands there is none.
    NoNumber,
    /// The number isn't one of those from the first to the last.
    Range { low: u32, high: u32 },
    /// No mutex has the name.
    NoMutex,
    /// The process isn't among the users of the mutex.
    NoUser,
    /// The process has no right to slack.
    NoRight,
    /// This mutex is held.
    Held(u32),
    /// The mutex isn't held.
    NotHeld,
    /// So much of the body is left, and so much has to be.
    Little { left: u32, hold: u32 },
    /// The mutex is held for so many ticks, and so many are allowed.
    Long { ticks: u32, hold: u32 },
    /// A job begins before the one in front has waited.
    Midst,
    /// The last job doesn't wait.
    Unended,
    /// There is no work.
    NoWork,
    /// The program has so many instructions.
    Many(u32),
    /// No column of a table has the name of the process.
    NoColumn,
    /// A row of a table has another number of cells than the row of the names, which has so many.
    Cells(u64),
    /// A cell above in the column is empty.
    Ended,
}

/// What a line says.
#[derive(Clone, Copy)]
pub enum Reading {
    Nothing,
    /// A job begins.
    Job,
    Does(Step),
    Wrong(Why),
}

/// What a line says, with its number from 1.
#[derive(Clone, Copy)]
pub struct Placed {
    pub line: u32,
    pub reading: Reading,
}

/// What is wrong in a line, or, with 0 as its line, of the whole.
#[derive(Clone, Copy)]
pub struct ProfileFault {
    pub line: u32,
    pub why: Why,
}
