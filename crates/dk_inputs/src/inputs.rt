//! What a command has read and tested.

use dk_config::{Config, Text};
use dk_ledger::Header;
use dk_loader::Loaded;
use dk_request::{Asks, Output};

/// What a command does its work with: all that it reads is read, and all that can be tested before is tested.
#[derive(Drop)]
pub enum Inputs {
    /// For a run of so many ticks.
    Run {
        header: Header,
        loaded: Loaded,
        ticks: u32,
        output: Output,
    },
    /// For the certified levels.
    Certificate {
        header: Header,
    },
    /// For a ledger, of its bytes.
    Ledger {
        bytes: Vec<u8>,
        output: Output,
    },
    /// For a document in version 2.
    Document {
        config: Config,
    },
    /// For the program of a source, of its bytes.
    Source {
        bytes: Vec<u8>,
    },
    /// For the listing of a program, of its bytes.
    Code {
        bytes: Vec<u8>,
    },
    /// For an audit of the ledger in these bytes.
    Findings {
        config: Config,
        bytes: Vec<u8>,
    },
    /// For the greatest budget of the process with this number, which has this name.
    Budget {
        config: Config,
        process: u32,
        name: Text,
    },
    /// For a base of this range, with the asks.
    Base {
        lo: u32,
        hi: u32,
        asks: Asks,
    },
    /// For the state after so many ticks.
    State {
        header: Header,
        loaded: Loaded,
        ticks: u32,
    },
}
