//! The profile in a file of either form.
ghost use Rattle.std.specs.Prelude.{◌≡◌, ◌≤◌, length, IfOk};
ghost use Rattle.dk_config.specs.Checked.{IsWithinLimits};
ghost use Rattle.dk_profile.specs.Faults.{faults_of};
ghost use Rattle.dk_profile.specs.Steps.{program_size, steps_of};
ghost use Rattle.dk_times.specs.Whole.{readings_in};

use crate::form::Form;
use crate::table::read_table;
use dk_config::{Config, NoMemory};
use dk_profile::{MAX_INSTRUCTIONS, MAX_PROFILE_BYTES, Profile, profile_of, read_profile};
use std::alloc::Global;

/// The profile that the bytes, at most 1,048,576 of them in this form, are for a process of a configuration, which has this
/// name. `Err` is want of memory.
pub fn read_in(
    alloc: Global,
    config: &Config,
    form: Form,
    process: u32,
    name: &str,
    bytes: &[u8],
) -> Result<Profile, NoMemory>
    requires limits { IsWithinLimits config.now }
    requires few { length bytes.now ≤ MAX_PROFILE_BYTES }
    ensures steps { IfOk result (λ v. v.steps.items ≡ steps_of (readings_in config.now form process name.now bytes.now)) }
    ensures faults { IfOk result (λ v. v.faults.items ≡ faults_of config.now process (readings_in config.now form process name.now bytes.now)) }
    // Where nothing is wrong its program has few enough instructions.
    ensures fits { IfOk result (λ v. length v.faults.items ≡ 0 → program_size v.steps.items ≤ MAX_INSTRUCTIONS) }
{
    match form {
        Form::Text => Ok(read_profile(alloc, config, process, bytes)?),
        Form::Table => {
            let readings = read_table(alloc, config.costs.call, name, bytes)?;
            Ok(profile_of(alloc, config, process, &readings)?)
        }
    }
}
