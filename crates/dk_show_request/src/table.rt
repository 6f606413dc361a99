//! The table of commands. Of it come the reader of the words, the usage line, the reason why words mean nothing, and help.
//!
//! Its rows are tuples: a constant whose type is a struct with a reference has no name in a contract.
use crate::commands::{Command, Drawing, Telling};

/// What stands for the arguments behind the first.
#[derive(Clone, Copy)]
pub enum Kind {
    /// A word for each.
    Words,
    /// Ticks, one for each.
    Ticks,
    /// For the last one word or several.
    Names,
    /// The same, at most as many as a configuration has processes.
    Processes,
    /// The same, each `NAME=TICKS` and no name twice.
    Allotments,
    /// A word for each, which is that of a command.
    Commands,
}

/// The names of the arguments that must stand, in order, of those behind them that all stand or none, and what stands for
/// them.
pub type Arguments = (&'static [&'static str], &'static [&'static str], Kind);

/// The names of the flags, each behind two dashes, of which one at most may stand, at any place; and the name of the
/// option, which may stand once, with that of the word behind it. Without an option both are empty.
pub type Marks = (&'static [&'static str], (&'static str, &'static str));

/// What the command is for, and a call of it.
pub type Told = (&'static str, &'static str);

/// A command, its word, its arguments, its flags and option, and what help tells of it.
pub type Row = (Command, &'static str, Arguments, Marks, Told);

const PICTURE: Row = (
    Command::Picture,
    "svg",
    (&["LEDGER"], &["FROM", "TO"], Kind::Ticks),
    (&[], ("config", "FILE")),
    (
        "a picture of the ledger, of the ticks from FROM to before TO alone where they are given, of up to 4,000 lines; with the ledger's configuration also by when each main must begin and be done, and the names of mutexes",
        "-o frame.svg svg l.txt 0 80",
    ),
);

const TRACE: Row = (
    Command::Draw(Drawing::Trace),
    "trace",
    (&["LEDGER"], &["FROM", "TO"], Kind::Ticks),
    (&[], ("", "")),
    (
        "the ledger as trace events, which Perfetto and chrome://tracing open",
        "trace l.txt 0 80",
    ),
);

const VCD: Row = (
    Command::Draw(Drawing::Vcd),
    "vcd",
    (&["LEDGER"], &["FROM", "TO"], Kind::Ticks),
    (&[], ("", "")),
    (
        "the ledger as a value change dump, which GTKWave opens",
        "-o l.vcd vcd l.txt 0 80",
    ),
);

const CSV: Row = (
    Command::Draw(Drawing::Csv),
    "csv",
    (&["LEDGER"], &["FROM", "TO"], Kind::Ticks),
    (&[], ("", "")),
    (
        "a row for each line of the ledger, of the ticks from FROM to before TO alone where they are given",
        "csv l.txt 0 80",
    ),
);

const WINDOWS: Row = (
    Command::Windows,
    "windows",
    (&["LEDGER"], &[], Kind::Words),
    (&["strict", "sparing", "all", "tenths", "csv"], ("", "")),
    (
        "what each thread of the ledger did in its windows, and what befell each process, with the first tick of each; with --strict also why it isn't clean, and status 4 where a thread overran or faulted or a call was refused; --sparing lets threads that live on slack overrun; with --all each window that was overrun; with --tenths a table of in how many of its windows each main used so many tenths of its budget; with --csv as a table",
        "windows l.txt",
    ),
);

const HOLDS: Row = (
    Command::Holds,
    "holds",
    (&["LEDGER"], &["FILE"], Kind::Words),
    (&[], ("", "")),
    (
        "how long each mutex of the ledger was held, by whom and from which tick; with the ledger's configuration its name and its longest hold beside it",
        "holds l.txt frame.toml",
    ),
);

const FAULTS: Row = (
    Command::Faults,
    "faults",
    (&["FILE"], &[], Kind::Words),
    (&[], ("", "")),
    (
        "each rule that the configuration breaks, a line each; C4 to C13 once it breaks none of C1 to C3; status 2 where there is one; of a source of the assembler, a name that ends with .s, each line that is at fault; status 4 where there is one",
        "faults frame.toml",
    ),
);

const CERTIFY: Row = (
    Command::Tell(Telling::Certify),
    "certify",
    (&["FILE"], &[], Kind::Words),
    (&["csv"], ("", "")),
    (
        "what the certification test finds of each level, part by part; status 3 where the configuration isn't certified; with --csv as a table",
        "certify frame.toml",
    ),
);

const MARGINS: Row = (
    Command::Tell(Telling::Margins),
    "margins",
    (&["FILE"], &[], Kind::Words),
    (&["csv"], ("", "")),
    (
        "how far each number of the configuration can go, and all budgets at once, and what stands in the way of one more; with --csv as a table",
        "margins frame.toml",
    ),
);

const WHEN: Row = (
    Command::Tell(Telling::When),
    "when",
    (&["FILE"], &[], Kind::Words),
    (&["csv"], ("", "")),
    (
        "by when in its window each main of the certified configuration has its first tick and its whole budget; with --csv as a table",
        "when frame.toml",
    ),
);

const SLACK: Row = (
    Command::Slack,
    "slack",
    (&["FILE"], &["NAME=TICKS"], Kind::Allotments),
    (&["csv"], ("", "")),
    (
        "how many ticks of each window of the certified configuration nobody can claim, and for each process with the right to slack how many of them it is promised in each of its windows; with allotments of so many ticks to the processes of these names whether they hold together, status 4 where they don't; with --csv as a table",
        "slack frame.toml",
    ),
);

const WARNINGS: Row = (
    Command::Tell(Telling::Warnings),
    "warnings",
    (&["FILE"], &[], Kind::Words),
    (&["csv"], ("", "")),
    (
        "what the configuration allows and can't be meant, a line each; with --csv as a table",
        "warnings frame.toml",
    ),
);

const CHAIN: Row = (
    Command::Chain,
    "chain",
    (&["FILE", "NAME"], &[], Kind::Processes),
    (&[], ("ledger", "LEDGER")),
    (
        "how long after an event the processes of these names have answered it one after another, and which change of a row would help; with --ledger also the shortest and the longest that a ledger has",
        "chain frame.toml video nav control",
    ),
);

const IMPACT: Row = (
    Command::Impact,
    "impact",
    (&["OLD", "NEW"], &["NAME"], Kind::Names),
    (&["csv"], ("", "")),
    (
        "what the change from one configuration to another does to each process; status 4 where one that isn't named isn't the same; with --csv as a table",
        "impact frame.toml frame2.toml",
    ),
);

const REPEATS: Row = (
    Command::Repeats,
    "repeats",
    (&["FILE", "TICKS"], &[], Kind::Ticks),
    (&[], ("", "")),
    (
        "from which tick on the run of the certified configuration, and each of its processes by itself, repeats for ever, as is found in so many ticks, and what each process does in a cycle; status 4 where the run as a whole isn't found to",
        "repeats frame.toml 10000",
    ),
);

const CHECK: Row = (
    Command::Check,
    "check",
    (&["FILE", "NEEDS"], &["LEDGER"], Kind::Words),
    (&["csv", "junit"], ("", "")),
    (
        "which of the needs of a document the certified configuration meets, a line each, and those of a run by a ledger; status 4 where one isn't met; with --csv as a table, with --junit as test cases in XML",
        "check frame.toml needs.toml",
    ),
);

const REPLAY: Row = (
    Command::Replay,
    "replay",
    (&["PROFILE", "NAME", "FILE"], &[], Kind::Words),
    (&[], ("", "")),
    (
        "the source of a program that does what the profile says, job by job, or a table of times, whose name ends with .csv, in the column of this name, for the process of this name of the certified configuration; status 4 where something is wrong with the profile, which is told line by line",
        "replay nav.profile nav frame.toml",
    ),
);

const BUDGETS: Row = (
    Command::Budgets,
    "budgets",
    (&["TIMES", "FILE"], &[], Kind::Words),
    (&["csv", "toml"], ("reserve", "PERCENT")),
    (
        "for each process with a column in a table of measured times, in ticks, the least budget in which each of its jobs has room with both switches, with --reserve jobs that take so many percent longer, and whether the configuration is certified with all of them; status 3 where it isn't, 4 where something is wrong with the table, which is told line by line; with --csv as a table, with --toml as lines for the configuration",
        "budgets times.csv frame.toml --reserve 10",
    ),
);

const HELP: Row = (
    Command::Help,
    "help",
    (&[], &["COMMAND"], Kind::Commands),
    (&[], ("", "")),
    (
        "this page, or what it says of the command; so do --help and -h",
        "help certify",
    ),
);

const VERSION: Row = (
    Command::Version,
    "--version",
    (&[], &[], Kind::Words),
    (&[], ("", "")),
    ("which documents the program reads", "--version"),
);

/// The commands, in the order of the usage line.
pub const COMMANDS: &[Row] = &[
    PICTURE, TRACE, VCD, CSV, WINDOWS, HOLDS, FAULTS, CERTIFY, MARGINS, WHEN, SLACK, WARNINGS,
    CHAIN, IMPACT, REPEATS, CHECK, REPLAY, BUDGETS, HELP, VERSION,
];

/// What the statuses mean, at the end of the page of help.
pub const STATUSES: &str =
    "statuses:\n  0\n      done\n  1\n      the words are no command; the usage line is printed\n  2\n      the configuration is refused, or the needs are, or for faults something is wrong with it\n  3\n      the configuration isn't certified, or for budgets isn't with those of the table\n  4\n      a name is that of no process; for slack a process has no right to it, or the allotments don't hold together; for impact a process that isn't named isn't the same; for repeats the run as a whole isn't found to repeat; for check a need isn't met; for replay or budgets something is wrong with the profile or the table; a program is too long; or the ledger is refused or of another configuration, the range ends behind it or has too many lines for a picture, or it isn't clean where it must be\n  5\n      a file couldn't be read\n  6\n      the output couldn't be written\n  7\n      memory ran out\n";

/// What the program tells of itself.
pub const VERSIONS: &str =
    "deosk-show, for configurations of versions 1 and 2 and needs of version 1\n";
