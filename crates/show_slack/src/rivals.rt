//! Who comes before a process with its wishes for slack.
ghost use Rattle.std.specs.Prelude.{◌≡◌, ◌<◌, IfOk, MatchBool, length, string_bytes};
ghost use Rattle.dk_config.specs.Checked.{IsWithinLimits};
ghost use Rattle.dk_config.specs.Configuration.{Configuration};
ghost use Rattle.dk_config.specs.Windows.{process_name};
ghost use Rattle.dk_slack_promise.specs.Long.{NoneBefore};
ghost use Rattle.show_slack.specs.Slack.{joined, names_before, names_with, stands_before};

use dk_config::{Config, NoMemory};
use std::alloc::{AllocError, Global};

/// Whether the other process has the right to slack and may come before this one: it is of its level or a faster one.
fn stands_before(config: &Config, process: u32, other: u32) -> bool
    requires process { process < length config.now.processes }
    requires other { other < length config.now.processes }
    ensures { result ≡ stands_before config.now process other }
{
    let rows = config.processes.as_slice();
    let rival = &rows[other as usize];
    rival.slack && rival.level <= rows[process as usize].level && other != process
}

/// Names parted by spaces, with one more.
fn joined(alloc: Global, names: String, name: &str) -> Result<String, AllocError>
    ensures { IfOk result (λ s. string_bytes s ≡ joined (string_bytes names) name.now) }
{
    if names.is_empty() {
        String::from_str(alloc, name)
    } else {
        format!(in alloc; "{names} {name}")
    }
}

/// With the name of the other process, where it stands before.
fn names_with(
    alloc: Global,
    config: &Config,
    process: u32,
    other: u32,
    names: String,
) -> Result<String, AllocError>
    requires process { process < length config.now.processes }
    requires other { other < length config.now.processes }
    ensures { IfOk result (λ s. string_bytes s ≡ names_with config.now process other (string_bytes names)) }
{
    if stands_before(config, process, other) {
        joined(
            alloc,
            names,
            config.processes.as_slice()[other as usize].name.as_str(),
        )
    } else {
        Ok(names)
    }
}

/// The names of those who stand before the process, parted by spaces.
#[tactic(auto, using(crate::proofs::Names::next_names))]
pub(crate) fn names_before(alloc: Global, config: &Config, process: u32) -> Result<String, NoMemory>
    requires limits { IsWithinLimits config.now }
    requires process { process < length config.now.processes }
    ensures { IfOk result (λ s. string_bytes s ≡ names_before config.now process (length config.now.processes)) }
{
    let mut names = String::new(alloc);
    for other in 0..config.processes.len() as u32 {
        names = names_with(alloc, config, process, other, names)?;
    }
    Ok(names)
}

/// Whether nobody stands before the process.
pub(crate) fn is_first(config: &Config, process: u32) -> bool
    requires limits { IsWithinLimits config.now }
    requires process { process < length config.now.processes }
    ensures { MatchBool result (NoneBefore config.now process) (NoneBefore config.now process → ⊥) }
{
    for other in 0..config.processes.len() as u32 {
        if stands_before(config, process, other) {
            return false;
        }
    }
    true
}
