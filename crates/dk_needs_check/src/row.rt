//! What is told of needs.

/// What a number measures: ticks, and of growth percent.
#[derive(Clone, Copy)]
pub enum Measure {
    /// After so many ticks of each window a main has had its whole budget.
    Done,
    /// Within so many ticks a chain has answered each event.
    Reaction,
    /// So old is the data that the last process of a chain works with.
    Age,
    /// By so many ticks the tick with which a main begins varies.
    BeginsJitter,
    /// By so many the tick with which it has its whole budget varies.
    DoneJitter,
    /// By so many a chain's reaction time varies.
    ReactionJitter,
    /// So great a process's budget can be.
    Budget,
    /// So long a mutex's hold can be.
    Hold,
    /// So long a level's release can be.
    Release,
    /// By so many percent all budgets can grow at once.
    Growth,
    /// So many ticks of each window of a level are left over.
    Spare,
    /// So many ticks of slack a process can be allotted in each of its windows, beside what needs ask for the others.
    Slack,
    /// After so many ticks of each window a process has had the slack that needs ask for it.
    SlackBy,
    /// In so many windows of a ledger a thread overran.
    Overruns,
    /// So many calls of a ledger were refused.
    Refused,
    /// So many threads of a ledger faulted.
    Faults,
}

/// A number of the configuration or of a ledger, and what is asked of it: at least so much of `Budget`, `Hold`, `Release`,
/// `Growth`, `Spare` and `Slack`, and of the others at most so much.
#[derive(Clone, Copy)]
pub struct Bound {
    pub measure: Measure,
    /// The least number of the measure, or the greatest; `None` where there is none.
    pub number: Option<u32>,
    pub asked: u32,
}

/// What an audit found of the entries of a ledger.
#[derive(Clone, Copy)]
pub enum Audit {
    /// All of them follow the rules; there are so many.
    Passed(u32),
    /// The entry of this tick is the first that breaks the rules, by its label.
    Label(u32),
    /// The entry of this tick is the first that breaks the rules, by its event.
    Event(u32),
}

/// Whether the main of a process waits in each of its windows, in every run in which the process has this program.
#[derive(Clone, Copy)]
pub enum Waiting {
    /// In each window, for ever.
    Always,
    /// Not in the window that begins at this tick.
    NotFrom(u32),
    /// That isn't known: it did so far, and no cycle of the process was found in so many ticks.
    NotWithin(u32),
    /// That isn't known: an instruction of the program reads the tick.
    ReadsTick,
    /// That isn't known: the process may have children.
    HasThreads,
    /// That isn't known: the process may ask for slack.
    HasSlack,
}

/// Whether the run of the configuration with its programs repeats for ever.
#[derive(Clone, Copy)]
pub enum Repeating {
    /// From tick `start` on the same comes every `length` ticks.
    Every { start: u32, length: u32 },
    /// That isn't known: no cycle was found in so many ticks.
    NotWithin(u32),
    /// That isn't known: no cycle was found, and a thread of this process read the tick, the last that did.
    ReadsTick(u8),
}

/// Why a need is neither met nor missed.
#[derive(Clone, Copy)]
pub enum Reason {
    /// What it asks for isn't tested without the programs.
    NotTested,
    /// It asks of a ledger, and there is none.
    NoLedger,
}

/// What is told of one thing that a need asks for.
#[derive(Clone, Copy)]
pub enum Answer {
    Tested(Bound),
    /// The same, as far as each process keeps to the slack that needs ask for it, which isn't known.
    IfKept(Bound),
    /// The process may not ask for slack.
    NoRight,
    Audited(Audit),
    Waits(Waiting),
    Repeats(Repeating),
    Open(Reason),
}

/// What is told of a need: of a chain its reaction time and the age of its data, of a process's jitter that of its begin
/// and of its end, of a process's slack how much it is and by when it is had, of a run what a ledger says and whether it
/// repeats, as far as they are asked for; of any other one answer. There is none where the configuration hasn't got what is named.
#[derive(Clone, Copy)]
pub struct Answers {
    pub first: Option<Answer>,
    pub second: Option<Answer>,
}

/// An answer, with the number of its need in the order in which needs are read.
#[derive(Clone, Copy)]
pub struct Row {
    pub need: usize,
    pub answer: Answer,
}

/// The word for an answer.
#[derive(Clone, Copy)]
pub enum Verdict {
    Met,
    Missed,
    Open,
}
