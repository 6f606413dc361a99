//! What is written for a profile.
ghost use Rattle.std.specs.Prelude.{◌≡◌, ◌≤◌, ◌<◌, length, position, string_bytes, IfOk, IfSome};
ghost use Rattle.std.specs.Str.{bytes_eq};
ghost use Rattle.dk_config.specs.Checked.{IsWithinLimits};
ghost use Rattle.dk_config.specs.declared.rows.ProcessRow.{ProcessRow as Process};
ghost use Rattle.dk_profile.specs.FaultText.{faults_text};
ghost use Rattle.dk_profile.specs.Steps.{program_size};
ghost use Rattle.dk_asm.specs.Listing.{listing};
ghost use Rattle.dk_replay.specs.Code.{program_of};
ghost use Rattle.dk_replay.specs.Pages.{is_made, process_named, replay_made, replay_text, text_for};

use crate::source::replay_source;
use dk_config::{Config, NoMemory, ProcessRow};
use dk_profile::{MAX_INSTRUCTIONS, MAX_PROFILE_BYTES, ProfileFault, Step, faults_text};
use dk_times::{Form, read_in};
use std::alloc::Global;

/// What is written for a profile.
#[derive(Drop)]
pub struct Replay {
    /// The source of its program, or all that is wrong with it.
    pub text: String,
    /// Whether it is a source.
    pub made: bool,
}

fn row_named(rows: &[ProcessRow], name: &str) -> Option<usize>
    ensures found { result ≡ position (λ (row : Process). bytes_eq row.name name.now) rows.now }
    ensures exists { IfSome result (λ p. p < length rows.now) }
{
    rows.iter().position(|row| row.name.as_str() == name)
}

/// The process of this name.
fn process_named(config: &Config, name: &str) -> Option<u32>
    requires { IsWithinLimits config.now }
    ensures { result ≡ process_named config.now name.now }
{
    match row_named(config.processes.as_slice(), name) {
        Some(process) => Some(process as u32),
        None => None,
    }
}

/// The source as a text. It has printable bytes and line feeds alone, so it is one.
fn source_text(alloc: Global, steps: &[Step]) -> Result<String, NoMemory>
    requires { program_size steps.now ≤ MAX_INSTRUCTIONS }
    ensures { IfOk result (λ text. string_bytes text ≡ listing (program_of steps.now)) }
{
    let source = replay_source(alloc, steps)?;
    match str::from_utf8(source.as_slice()) {
        Ok(text) => Ok(String::from_str(alloc, text)?),
        Err(_) => Err(NoMemory),
    }
}

fn fault_lines(alloc: Global, config: &Config, faults: &[ProfileFault]) -> Result<String, NoMemory>
    ensures { IfOk result (λ text. string_bytes text ≡ faults_text config.now faults.now) }
{
    Ok(faults_text(alloc, config, faults)?)
}

/// What is written for a profile of this process.
fn replay_for(
    alloc: Global,
    config: &Config,
    form: Form,
    process: u32,
    name: &str,
    bytes: &[u8],
) -> Result<Replay, NoMemory>
    requires limits { IsWithinLimits config.now }
    requires few { length bytes.now ≤ MAX_PROFILE_BYTES }
    ensures text { IfOk result (λ r. string_bytes r.text ≡ text_for config.now form process name.now bytes.now) }
    ensures made { IfOk result (λ r. r.made ≡ is_made config.now form process name.now bytes.now) }
{
    let profile = read_in(alloc, config, form, process, name, bytes)?;
    if profile.faults.is_empty() {
        let text = source_text(alloc, profile.steps.as_slice())?;
        return Ok(Replay { text, made: true });
    }
    let text = fault_lines(alloc, config, profile.faults.as_slice())?;
    Ok(Replay { text, made: false })
}

/// What is written for a profile, at most 1,048,576 bytes in this form, of the process of this name: the source of the program
/// that does what it says, or all that is wrong with it, or that there is no such process. `Err` is want of memory.
pub fn make_replay(
    alloc: Global,
    config: &Config,
    form: Form,
    name: &str,
    bytes: &[u8],
) -> Result<Replay, NoMemory>
    requires limits { IsWithinLimits config.now }
    requires few { length bytes.now ≤ MAX_PROFILE_BYTES }
    ensures text { IfOk result (λ r. string_bytes r.text ≡ replay_text config.now form name.now bytes.now) }
    ensures made { IfOk result (λ r. r.made ≡ replay_made config.now form name.now bytes.now) }
{
    match process_named(config, name) {
        Some(process) => replay_for(alloc, config, form, process, name, bytes),
        None => Ok(Replay {
            text: String::from_str(alloc, "replay: no such process\n")?,
            made: false,
        }),
    }
}
