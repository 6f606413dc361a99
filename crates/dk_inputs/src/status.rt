//! How a run of the program ends.

/// How a call of `deosk` ended.
#[derive(Clone, Copy, Debug, PartialEq, Eq)]
pub enum Status {
    /// The command did its work.
    Done,
    /// The words are no command.
    Usage,
    /// The configuration is too long, no TOML, or breaks a rule.
    Config,
    /// The certification test fails at a level.
    Uncertified,
    /// A program is too long.
    Program,
    /// A read failed. Nothing was written.
    DepotFault,
    /// A write failed. A prefix of the output was written.
    SinkFault,
    /// Want of memory. Nothing was written.
    NoMemory,
}

impl Status {
    ghost use Rattle.std.specs.Prelude.{◌≡◌};
    ghost use Rattle.dk_inputs.specs.Number.{status_number};

    /// The status of the process, 0 to 7.
    pub fn number(&self) -> u8
        ensures { result ≡ status_number self.now }
    {
        match *self {
            Status::Done => 0,
            Status::Usage => 1,
            Status::Config => 2,
            Status::Uncertified => 3,
            Status::Program => 4,
            Status::DepotFault => 5,
            Status::SinkFault => 6,
            Status::NoMemory => 7,
        }
    }
}
