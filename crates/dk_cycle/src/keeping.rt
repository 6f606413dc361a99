//! Whether a process keeps to itself.
ghost use Rattle.std.specs.Prelude.{◌≡◌, ◌<◌, length};
ghost use Rattle.dk_config.specs.Windows.{may_ask, slots};
ghost use Rattle.dk_cycle.specs.Keeping.{IsKeeping};

use dk_config::Config;
use dk_isa::holds_call;

/// Whether a process keeps to itself, and else why not.
#[derive(Clone, Copy)]
pub enum Keeping {
    Keeps,
    /// An instruction of its program reads the tick.
    ReadsTick,
    /// It may have children.
    HasThreads,
    /// It may ask for slack.
    HasSlack,
}

/// The number of the call that reads the tick.
const TIME: u8 = 9;

fn slots_of(config: &Config, process: u8) -> u32
    ensures { result ≡ slots config.now process }
{
    match config.processes.get(process as usize) {
        Some(row) => row.threads,
        None => 0,
    }
}

fn may_ask(config: &Config, process: u8) -> bool
    ensures { result ≡ may_ask config.now process }
{
    match config.processes.get(process as usize) {
        Some(row) => row.slack,
        None => false,
    }
}

/// Whether the process with this program keeps to itself, and else the first reason why not.
pub(crate) fn keeping_of(config: &Config, process: u8, program: &[u8]) -> Keeping
    requires { process < length config.now.processes }
    ensures { IsKeeping config.now process program.now result }
{
    if holds_call(program, TIME) {
        return Keeping::ReadsTick;
    }
    if slots_of(config, process) > 0 {
        return Keeping::HasThreads;
    }
    if may_ask(config, process) {
        return Keeping::HasSlack;
    }
    Keeping::Keeps
}
