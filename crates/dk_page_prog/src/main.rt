//! The program behind `deosk-show page`: the words of the process, the system's files and standard output.
#![tactic(auto)]

mod answers;
mod asking;
mod files;
mod help;
mod numbers;
mod page;
mod program;
mod repeating;
mod status;

use crate::program::DeoskPage;
use dk_edge::{FileDepot, ProcessWords, StandardOutput, SystemFiles, run_program};
use std::process::ExitCode;

fn main(rt: HostRuntime) -> ExitCode {
    run_program(
        &DeoskPage,
        rt.alloc(),
        &ProcessWords::new(&rt),
        &mut FileDepot::new(SystemFiles::new(&rt)),
        StandardOutput::new(&rt),
    )
    .0
}
