//! What would help a chain, a line for each single change that does.
ghost use Rattle.std.specs.Prelude.{◌≡◌, ◌∷◌, ◌++◌, ◌==◌, ◌||◌, ◌<◌, ◌≤◌, length, map, string_bytes, IfOk, IfSome, OnOk};
ghost use Rattle.std.specs.List.{list_any};
ghost use Rattle.dk_config.specs.Checked.{IsChecked, IsWithinLimits};
ghost use Rattle.dk_config.specs.declared.TheConstants.{MAX_PROCESSES};
ghost use Rattle.dk_config.specs.Windows.{main_level};
ghost use Rattle.dk_config_report.specs.Pages.{AddsLines};
ghost use Rattle.dk_chain.specs.Chain.{AreThere};
ghost use Rattle.dk_chain_report.specs.Changes.{IsEarlierLine, IsFasterLine, earlier_text, faster_text, is_in, last_before, latency_part, level_above, moved, partner};

use crate::latency::Latency;
use crate::steps::name_of;
use crate::trials::{level_gain, swapped_gain};
use dk_config::{Config, NoMemory};
use dk_config_report::push_line;
use std::alloc::{AllocError, Global};

pub(crate) fn latency_part(alloc: Global, latency: Latency) -> Result<String, AllocError>
    ensures { IfOk result (λ s. string_bytes s ≡ latency_part latency) }
{
    let reaction = latency.reaction;
    let age = latency.age;
    format!(in alloc; "reaction {reaction} age {age}\n")
}

fn is_among(rest: &[u32], process: u32) -> bool
    ensures { result ≡ list_any (λ q. q == process) rest.now }
{
    rest.iter().any(|next| *next == process)
}

/// Whether the process stands in the chain.
fn is_in(first: u32, rest: &[u32], process: u32) -> bool
    ensures { result ≡ is_in first rest.now process }
{
    first == process || is_among(rest, process)
}

fn level_of(config: &Config, process: u32) -> u32
    requires { process < length config.now.processes }
    ensures { result ≡ main_level config.now process }
{
    config.processes.as_slice()[process as usize].level
}

/// The last process before this number whose main is of the level.
fn last_before(config: &Config, level: u32, process: u32) -> Option<u32>
    requires known { process ≤ length config.now.processes }
    ensures last { result ≡ last_before config.now level process }
    ensures before { IfSome result (λ q. q < process) }
{
    let mut last = None;
    for other in 0..process {
        if level_of(config, other) == level {
            last = Some(other);
        }
    }
    last
}

/// The process before this one in its level, where this one stands in the chain.
fn partner(config: &Config, first: u32, rest: &[u32], process: u32) -> Option<u32>
    requires known { process < length config.now.processes }
    ensures partner { result ≡ partner config.now first rest.now process }
    ensures before { IfSome result (λ q. q < process) }
{
    if is_in(first, rest, process) {
        last_before(config, level_of(config, process), process)
    } else {
        None
    }
}

/// The number of a process once two others have changed places.
fn moved(earlier: u32, later: u32, process: u32) -> u32
    ensures { result ≡ moved earlier later process }
{
    if process == later {
        earlier
    } else if process == earlier {
        later
    } else {
        process
    }
}

fn all_moved(alloc: Global, earlier: u32, later: u32, rest: &[u32]) -> Result<Vec<u32>, AllocError>
    ensures { IfOk result (λ v. v.items ≡ map (moved earlier later) rest.now) }
{
    let mut all = Vec::new(alloc);
    for process in rest {
        all.push(moved(earlier, later, *process))?;
    }
    Ok(all)
}

fn earlier_text(
    alloc: Global,
    name: &str,
    other: &str,
    gain: Option<Latency>,
) -> Result<String, AllocError>
    ensures { IfOk result (λ s. string_bytes s ≡ earlier_text name.now other.now gain) }
{
    match gain {
        Some(latency) => {
            let latency = latency_part(alloc, latency)?;
            let latency = latency.as_str();
            format!(in alloc; "with {name} before {other} {latency}")
        }
        None => Ok(String::new(alloc)),
    }
}

/// What the chain would gain if the row of the process stood one place earlier in its level.
fn earlier_line(
    alloc: Global,
    config: &mut Config,
    first: u32,
    rest: &[u32],
    reaction: u64,
    process: u32,
) -> Result<String, NoMemory>
    requires there { AreThere config.old (first ∷ rest.now) }
    requires few { length rest.now < MAX_PROCESSES }
    requires known { process < length config.old.processes }
    requires fits { length config.old.processes ≤ MAX_PROCESSES }
    ensures line { IfOk result (λ s. IsEarlierLine config.old first rest.now reaction process (string_bytes s)) }
    ensures same { config.new ≡ config.old }
{
    let Some(other) = partner(config, first, rest, process) else {
        return Ok(String::new(alloc));
    };
    let then = all_moved(alloc, other, process, rest)?;
    let gain = swapped_gain(
        config,
        other as usize,
        process as usize,
        moved(other, process, first),
        then.as_slice(),
        reaction,
    );
    Ok(earlier_text(
        alloc,
        name_of(config, process),
        name_of(config, other),
        gain,
    )?)
}

pub(crate) fn add_earlier(
    alloc: Global,
    text: &mut String,
    config: &mut Config,
    first: u32,
    rest: &[u32],
    reaction: u64,
) -> Result<(), NoMemory>
    requires there { AreThere config.old (first ∷ rest.now) }
    requires few { length rest.now < MAX_PROCESSES }
    requires fits { length config.old.processes ≤ MAX_PROCESSES }
    ensures lines { OnOk result (AddsLines (IsEarlierLine config.old first rest.now reaction) (length config.old.processes)
        (string_bytes text.old) (string_bytes text.new)) }
    ensures same { config.new ≡ config.old }
{
    for process in 0..config.processes.len() as u32 {
        let line = earlier_line(alloc, config, first, rest, reaction, process)?;
        push_line(text, line)?;
    }
    Ok(())
}

/// The level above that of the process, where the process stands in the chain.
fn level_above(config: &Config, first: u32, rest: &[u32], process: u32) -> Option<u32>
    requires known { process < length config.now.processes }
    ensures { result ≡ level_above config.now first rest.now process }
{
    if is_in(first, rest, process) {
        level_of(config, process).checked_sub(1)
    } else {
        None
    }
}

fn faster_text(
    alloc: Global,
    name: &str,
    level: u32,
    gain: Option<Latency>,
) -> Result<String, AllocError>
    ensures { IfOk result (λ s. string_bytes s ≡ faster_text name.now level gain) }
{
    match gain {
        Some(latency) => {
            let latency = latency_part(alloc, latency)?;
            let latency = latency.as_str();
            format!(in alloc; "with {name} level {level} {latency}")
        }
        None => Ok(String::new(alloc)),
    }
}

/// What the chain would gain if the process were one level faster.
fn faster_line(
    alloc: Global,
    config: &mut Config,
    first: u32,
    rest: &[u32],
    reaction: u64,
    process: u32,
) -> Result<String, NoMemory>
    requires there { AreThere config.old (first ∷ rest.now) }
    requires few { length rest.now < MAX_PROCESSES }
    requires known { process < length config.old.processes }
    ensures line { IfOk result (λ s. IsFasterLine config.old first rest.now reaction process (string_bytes s)) }
    ensures same { config.new ≡ config.old }
{
    let Some(level) = level_above(config, first, rest, process) else {
        return Ok(String::new(alloc));
    };
    let gain = level_gain(config, process as usize, level, first, rest, reaction);
    Ok(faster_text(alloc, name_of(config, process), level, gain)?)
}

pub(crate) fn add_faster(
    alloc: Global,
    text: &mut String,
    config: &mut Config,
    first: u32,
    rest: &[u32],
    reaction: u64,
) -> Result<(), NoMemory>
    requires there { AreThere config.old (first ∷ rest.now) }
    requires few { length rest.now < MAX_PROCESSES }
    requires fits { length config.old.processes ≤ MAX_PROCESSES }
    ensures lines { OnOk result (AddsLines (IsFasterLine config.old first rest.now reaction) (length config.old.processes)
        (string_bytes text.old) (string_bytes text.new)) }
    ensures same { config.new ≡ config.old }
{
    for process in 0..config.processes.len() as u32 {
        let line = faster_line(alloc, config, first, rest, reaction, process)?;
        push_line(text, line)?;
    }
    Ok(())
}
