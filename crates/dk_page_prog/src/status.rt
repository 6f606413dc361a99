//! How a run of the program ends.

/// What the words and the files came to.
#[derive(Clone, Copy)]
pub enum Answered {
    /// The page is that of a certified configuration, of needs that are all met, and of a ledger that follows the rules, where
    /// they are named.
    Done,
    /// The words are no command.
    Usage,
    /// The document isn't that of a configuration, or the needs are refused.
    Config,
    /// The configuration isn't certified.
    Uncertified,
    /// A need isn't met, the ledger breaks a rule, or the ledger or a program is refused.
    Refused,
}

/// How a call of `deosk_page` ended. The numbers are those of deosk.
#[derive(Clone, Copy)]
pub enum Status {
    /// All that is told was written.
    Answered(Answered),
    /// A read failed. Nothing was written.
    DepotFault,
    /// A write failed. A prefix of the output was written.
    SinkFault,
    /// Want of memory. Nothing was written.
    NoMemory,
}

impl Status {
    ghost use Rattle.std.specs.Prelude.{◌≡◌};
    ghost use Rattle.dk_page_prog.specs.Answers.{status_number};

    /// The status of the process.
    pub fn number(&self) -> u8
        ensures { result ≡ status_number self.now }
    {
        match *self {
            Status::Answered(Answered::Done) => 0,
            Status::Answered(Answered::Usage) => 1,
            Status::Answered(Answered::Config) => 2,
            Status::Answered(Answered::Uncertified) => 3,
            Status::Answered(Answered::Refused) => 4,
            Status::DepotFault => 5,
            Status::SinkFault => 6,
            Status::NoMemory => 7,
        }
    }
}
