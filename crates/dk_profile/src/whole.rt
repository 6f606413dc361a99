//! A profile as a whole: its steps, and all that is wrong with it.
ghost use Rattle.std.specs.Prelude.{◌≡◌, ◌≤◌, ◌*◌, length, IfOk};
ghost use Rattle.std.specs.List.{filter_map};
ghost use Rattle.dk_config.specs.Checked.{IsWithinLimits};
ghost use Rattle.dk_profile.specs.Faults.{faults_of};
ghost use Rattle.dk_profile.specs.Reading.{readings_of};
ghost use Rattle.dk_profile.specs.Steps.{program_size, step_in, steps_of};

use crate::faults::faults_of;
use crate::reading::read_text;
use crate::steps::{Placed, ProfileFault, Reading, Step};
use crate::{MAX_INSTRUCTIONS, MAX_PROFILE_BYTES};
use dk_config::Config;
use std::alloc::{AllocError, Global};

/// What a text or a table says: the steps of its lines, and all that is wrong with it.
#[derive(Drop)]
pub struct Profile {
    pub steps: Vec<Step>,
    pub faults: Vec<ProfileFault>,
}

fn step_in(placed: Placed) -> Option<Step>
    ensures { result ≡ step_in placed }
{
    match placed.reading {
        Reading::Does(step) => Some(step),
        _ => None,
    }
}

/// The steps of the lines, in order.
pub fn steps_of(alloc: Global, readings: &[Placed]) -> Result<Vec<Step>, AllocError>
    ensures value { IfOk result (λ v. v.items ≡ steps_of readings.now) }
    ensures few { IfOk result (λ v. length v.items ≤ length readings.now) }
{
    let mut steps = Vec::new(alloc);
    for placed in readings {
        if let Some(step) = step_in(*placed) {
            steps.push(step)?;
        }
    }
    Ok(steps)
}

/// The profile that readings are for a process of a configuration: at most two for each byte that a profile may have. `Err` is
/// want of memory.
#[tactic(auto, using(crate::proofs::Fitting::fits))]
pub fn profile_of(
    alloc: Global,
    config: &Config,
    process: u32,
    readings: &[Placed],
) -> Result<Profile, AllocError>
    requires limits { IsWithinLimits config.now }
    requires few { length readings.now ≤ 2 * MAX_PROFILE_BYTES }
    ensures steps { IfOk result (λ v. v.steps.items ≡ steps_of readings.now) }
    ensures faults { IfOk result (λ v. v.faults.items ≡ faults_of config.now process readings.now) }
    // Where nothing is wrong its program has few enough instructions.
    ensures fits { IfOk result (λ v. length v.faults.items ≡ 0 → program_size v.steps.items ≤ MAX_INSTRUCTIONS) }
{
    let faults = faults_of(alloc, config, process, readings)?;
    let steps = steps_of(alloc, readings)?;
    Ok(Profile { steps, faults })
}

/// The profile that a text of at most 1,048,576 bytes is for a process of a configuration. `Err` is want of memory.
pub fn read_profile(
    alloc: Global,
    config: &Config,
    process: u32,
    text: &[u8],
) -> Result<Profile, AllocError>
    requires limits { IsWithinLimits config.now }
    requires few { length text.now ≤ MAX_PROFILE_BYTES }
    ensures steps { IfOk result (λ v. v.steps.items ≡ steps_of (readings_of config.now process text.now)) }
    ensures faults { IfOk result (λ v. v.faults.items ≡ faults_of config.now process (readings_of config.now process text.now)) }
    // Where nothing is wrong its program has few enough instructions.
    ensures fits { IfOk result (λ v. length v.faults.items ≡ 0 → program_size v.steps.items ≤ MAX_INSTRUCTIONS) }
{
    let readings = read_text(alloc, config, process, text)?;
    profile_of(alloc, config, process, &readings)
}
