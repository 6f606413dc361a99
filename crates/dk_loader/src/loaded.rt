//! A configuration with its programs.
use crate::Code;
use dk_config::Config;
use std::marker::Model;

/// A configuration with its programs. It is seen with a list in place of the `Vec`.
#[derive(Drop)]
pub struct Loaded {
    pub config: Config,
    /// One program for each process, in the order of the rows.
    pub programs: Vec<Code>,
}

impl Model for Loaded {
    ghost use Rattle.dk_loader.specs.Workload.{Workload};

    ghost Value = { Workload };

    ghost view = { λ l. record { config = l.config; programs = l.programs.items } };
}
