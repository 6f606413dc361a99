//! What is needed of a layout.
ghost use Rattle.std.specs.Prelude.{◌≡◌, ℕ, List};

use crate::fault::Place;
use dk_config::Text;
use std::marker::Model;

/// A unit of time.
#[derive(Clone, Copy)]
pub enum Unit {
    Nanoseconds,
    Microseconds,
    Milliseconds,
    Seconds,
}

/// How long a tick is: so many units, 1 to 999,999. Only how times are told depends on it.
#[derive(Clone, Copy)]
pub struct Tick {
    pub amount: u32,
    pub unit: Unit,
}

/// The names of the processes of a chain, in its order. It is seen as their list.
#[derive(Drop)]
pub struct Names {
    names: Vec<Text>,
}

impl Model for Names {
    ghost Value = { List (List ℕ) };

    ghost view = { λ n. n.names.items };
}

impl Names {
    /// Needs no memory.
    pub fn new(names: Vec<Text>) -> Names
        ensures { result ≡ names.items }
    {
        Names { names }
    }

    /// The names, lent.
    pub fn as_slice(&self) -> &[Text]
        ensures { result.now ≡ self.now }
    {
        self.names.as_slice()
    }
}

/// What is needed. All times are ticks.
#[derive(Drop)]
pub enum What {
    /// The main of the process has its whole budget so many ticks after each of its windows began: 1 to 1,000,000.
    Deadline {
        process: Text,
        within: u32,
    },
    /// The chain of processes answers each event within `reaction` ticks, and its last one works with data of at most
    /// `age` ticks: each 1 to 4,000,000,000, and one of the two is there.
    Chain {
        processes: Names,
        reaction: Option<u32>,
        age: Option<u32>,
    },
    /// From window to window the tick with which the main of the process begins varies by at most `begins`, and the one with
    /// which it has its whole budget by at most `done`: each 0 to 1,000,000, and one of the two is there.
    Jitter {
        process: Text,
        begins: Option<u32>,
        done: Option<u32>,
    },
    /// The reaction time of the chain of processes varies by at most so many ticks, 1 to 4,000,000,000.
    ChainJitter {
        processes: Names,
        reaction: u32,
    },
    /// The budget of the process could be so great, 1 to 1,000,000, all else as it is.
    Budget {
        process: Text,
        budget: u32,
    },
    /// The hold of the mutex could be so long, 1 to 1,000,000, all else as it is.
    Hold {
        mutex: Text,
        hold: u32,
    },
    /// The release of the level could be so long, 0 to 1,000,000, all else as it is.
    Release {
        level: u32,
        release: u32,
    },
    /// All budgets at once could grow by so many percent, 1 to 1,000,000, each rounded up.
    Growth {
        percent: u32,
    },
    /// So many ticks of each window of the level are left over, 1 to 1,000,000.
    Spare {
        level: u32,
        ticks: u32,
    },
    /// The process, where it goes on asking, has at least `each` ticks of slack in each of its windows, and by the tick
    /// `within` of its window, where that is there: each 1 to 1,000,000.
    Slack {
        process: Text,
        each: u32,
        within: Option<u32>,
    },
    /// The process waits in each of its windows, in every run.
    Always {
        process: Text,
    },
    /// Of a ledger: at most so many windows with an overrun, calls refused and faults, 0 to 4,000,000,000 each. And of the
    /// run of the configuration with its programs, where `forever` says so, that it repeats for ever.
    Run {
        overruns: Option<u32>,
        refused: Option<u32>,
        faults: Option<u32>,
        forever: bool,
    },
}

/// A need, with its name and where in the document it stands.
#[derive(Drop)]
pub struct Need {
    pub place: Place,
    /// 1 to 32 letters, digits, `.`, `_` or `-`, and no other need has it.
    pub id: Text,
    pub what: What,
}

/// All that a document asks for. It is seen with a list in place of the `Vec`.
#[derive(Drop)]
pub struct Needs {
    /// How long a tick is, where the document says it.
    pub tick: Option<Tick>,
    /// By section, then by row.
    pub rows: Vec<Need>,
}

impl Model for Needs {
    ghost use Rattle.dk_needs.specs.Wanted.{Wanted};

    ghost Value = { Wanted };

    ghost view = { λ n. record { tick = n.tick; rows = n.rows.items } };
}
