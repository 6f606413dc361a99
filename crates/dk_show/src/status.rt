//! How a run of the program ends.

/// How a call of `deosk_show` ended. The numbers are those of deosk.
#[derive(Clone, Copy, Debug, PartialEq, Eq)]
pub enum Status {
    /// The command did its work.
    Done,
    /// The words are no command.
    Usage,
    /// The configuration is refused, or breaks a rule.
    Config,
    /// The configuration isn't certified.
    Uncertified,
    /// What was read isn't what the command wants.
    Refused,
    /// A read failed. Nothing was written.
    DepotFault,
    /// A write failed. A prefix of the output was written.
    SinkFault,
    /// Want of memory.
    NoMemory,
}

impl Status {
    ghost use Rattle.std.specs.Prelude.{◌≡◌};
    ghost use Rattle.dk_show.specs.Answers.{status_number};

    /// The status of the process.
    pub fn number(&self) -> u8
        ensures { result ≡ status_number self.now }
    {
        match *self {
            Status::Done => 0,
            Status::Usage => 1,
            Status::Config => 2,
            Status::Uncertified => 3,
            Status::Refused => 4,
            Status::DepotFault => 5,
            Status::SinkFault => 6,
            Status::NoMemory => 7,
        }
    }
}
