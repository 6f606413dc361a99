//! The commands.

/// What is drawn of a range of a ledger.
#[derive(Clone, Copy)]
pub enum Drawing {
    /// Trace events, for the viewers of such.
    Trace,
    /// A value change dump, for GTKWave.
    Vcd,
    /// A table, a row a group.
    Csv,
}

/// What is told of a configuration.
#[derive(Clone, Copy)]
pub enum Telling {
    /// What the certification test finds, part by part.
    Certify,
    /// How far each number can go.
    Margins,
    /// By when each main has its ticks.
    When,
    /// What is allowed and can't be meant.
    Warnings,
}

/// A command.
#[derive(Clone, Copy)]
pub enum Command {
    Draw(Drawing),
    /// A picture of a range of a ledger.
    Picture,
    /// What each thread of a ledger did in its windows.
    Windows,
    /// How long each mutex of a ledger was held.
    Holds,
    /// All that is wrong with the document of a configuration.
    Faults,
    Tell(Telling),
    /// How much slack is promised.
    Slack,
    /// How long after an event a chain of processes has answered it.
    Chain,
    /// What a change of the configuration does to each process.
    Impact,
    /// What repeats for ever in the run of a configuration with its programs.
    Repeats,
    /// Which needs a configuration meets.
    Check,
    /// The source of a program that takes the times of a profile.
    Replay,
    /// The budgets that measured times need.
    Budgets,
    /// What the commands are for.
    Help,
    /// Which documents the program reads.
    Version,
}
