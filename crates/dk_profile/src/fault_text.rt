//! What is wrong with a profile, as text.
ghost use Rattle.std.specs.Prelude.{◌≡◌, ◌++◌, codes, decimal, flat_map, length, string_bytes, IfOk, OnOk};
ghost use Rattle.dk_profile.specs.FaultText.{fault_text, faults_text, mutex_name, place_text, why_text};
ghost use Rattle.dk_profile.specs.declared.steps.Why.{Why};

use crate::steps::{ProfileFault, Why};
use dk_config::Config;
use std::alloc::{AllocError, Global};

fn mutex_name(config: &Config, mutex: u32) -> &str
    ensures { result.now ≡ mutex_name config.now mutex }
{
    match config.mutexes.get(mutex as usize) {
        Some(row) => row.name.as_str(),
        None => "",
    }
}

fn place_text(alloc: Global, line: u32) -> Result<String, AllocError>
    ensures { IfOk result (λ s. string_bytes s ≡ place_text line) }
{
    if line == 0 {
        Ok(String::new(alloc))
    } else {
        format!(in alloc; "line {line}: ")
    }
}

fn held_text(alloc: Global, config: &Config, mutex: u32) -> Result<String, AllocError>
    ensures { IfOk result (λ s. string_bytes s ≡ why_text config.now (Why.Held mutex)) }
{
    let name = mutex_name(config, mutex);
    format!(in alloc; "{name} is held")
}

fn why_text(alloc: Global, config: &Config, why: Why) -> Result<String, AllocError>
    ensures { IfOk result (λ s. string_bytes s ≡ why_text config.now why) }
{
    let text = match why {
        Why::Held(mutex) => return held_text(alloc, config, mutex),
        Why::Range { low, high } => return format!(in alloc; "{low} to {high} are allowed"),
        Why::Little { left, hold } => {
            return format!(in alloc; "{left} of the body are left, {hold} are wanted");
        }
        Why::Long { ticks, hold } => {
            return format!(in alloc; "held for {ticks}, {hold} are allowed");
        }
        Why::Many(size) => return format!(in alloc; "{size} instructions, 16384 are allowed"),
        Why::Cells(width) => return format!(in alloc; "{width} cells are wanted"),
        Why::NoStep => { "work N, lock NAME, unlock NAME, slack N, put N, wait or job is wanted" }
        Why::More => "nothing more is wanted",
        Why::NoNumber => "a number is wanted",
        Why::NoMutex => "there is no such mutex",
        Why::NoUser => "the process isn't among its users",
        Why::NoRight => "the process has no right to slack",
        Why::NotHeld => "it isn't held",
        Why::Midst => "the job in front doesn't wait",
        Why::Unended => "the last job doesn't wait",
        Why::NoWork => "a step of work is wanted",
        Why::NoColumn => "no column has the name of the process",
        Why::Ended => "a cell above is empty",
    };
    String::from_str(alloc, text)
}

fn fault_text(alloc: Global, config: &Config, fault: ProfileFault) -> Result<String, AllocError>
    ensures { IfOk result (λ s. string_bytes s ≡ fault_text config.now fault) }
{
    let place = place_text(alloc, fault.line)?;
    let place = place.as_str();
    let why = why_text(alloc, config, fault.why)?;
    let why = why.as_str();
    format!(in alloc; "profile: {place}{why}\n")
}

fn count_text(alloc: Global, count: usize) -> Result<String, AllocError>
    ensures { IfOk result (λ s. string_bytes s ≡ codes "faults " ++ (decimal count ++ codes "\n")) }
{
    format!(in alloc; "faults {count}\n")
}

fn add(
    text: &mut String,
    alloc: Global,
    config: &Config,
    fault: ProfileFault,
) -> Result<(), AllocError>
    ensures { OnOk result (string_bytes text.new ≡ string_bytes text.old ++ fault_text config.now fault) }
{
    let line = fault_text(alloc, config, fault)?;
    text.push_str(line.as_str())
}

/// A line for each thing that is wrong, and one with their number.
pub fn faults_text(
    alloc: Global,
    config: &Config,
    faults: &[ProfileFault],
) -> Result<String, AllocError>
    ensures { IfOk result (λ s. string_bytes s ≡ faults_text config.now faults.now) }
{
    let mut text = String::new(alloc);
    for fault in faults {
        add(&mut text, alloc, config, *fault)?;
    }
    let count = count_text(alloc, faults.len())?;
    text.push_str(count.as_str())?;
    Ok(text)
}
