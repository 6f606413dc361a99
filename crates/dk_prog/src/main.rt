//! The program `deosk`: the words of the process, the system's files and standard output.
#![tactic(auto)]

mod program;

use crate::program::Deosk;
use dk_edge::{FileDepot, ProcessWords, StandardOutput, SystemFiles, run_program};
use std::process::ExitCode;

fn main(rt: HostRuntime) -> ExitCode {
    run_program(
        &Deosk,
        rt.alloc(),
        &ProcessWords::new(&rt),
        &mut FileDepot::new(SystemFiles::new(&rt)),
        StandardOutput::new(&rt),
    )
    .0
}
