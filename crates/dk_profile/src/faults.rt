//! All that is wrong with a profile.
ghost use Rattle.std.specs.Prelude.{◌≡◌, ◌≤◌, ◌+◌, ◌*◌, ◌++◌, length, option_to_list, sum_by, IfOk, OnOk};
ghost use Rattle.std.specs.List.{list_any};
ghost use Rattle.std.specs.Option.{option_map};
ghost use Rattle.dk_config.specs.Checked.{IsWithinLimits};
ghost use Rattle.dk_profile.specs.Faults.{fault_at, faults_of, first_state, line_faults, whole_why};
ghost use Rattle.dk_profile.specs.Steps.{is_work, lap_size, program_size, step_size, work_size};

use crate::jobs::{after_reading, end_why, first_state, reading_why};
use crate::steps::{Placed, ProfileFault, Step, Why};
use crate::whole::steps_of;
use crate::{MAX_INSTRUCTIONS, MAX_PROFILE_BYTES};
use dk_config::Config;
use std::alloc::{AllocError, Global};

fn add(faults: &mut Vec<ProfileFault>, line: u32, why: Option<Why>) -> Result<(), AllocError>
    ensures { OnOk result (faults.new.items ≡ faults.old.items ++ option_to_list (option_map (fault_at line) why)) }
{
    if let Some(why) = why {
        faults.push(ProfileFault { line, why })?;
    }
    Ok(())
}

fn line_faults(
    alloc: Global,
    config: &Config,
    process: u32,
    readings: &[Placed],
) -> Result<Vec<ProfileFault>, AllocError>
    requires { IsWithinLimits config.now }
    ensures { IfOk result (λ v. v.items ≡ line_faults config.now process first_state readings.now) }
{
    let mut faults = Vec::new(alloc);
    let mut state = first_state();
    for placed in readings {
        let why = reading_why(config, process, state, placed.reading);
        add(&mut faults, placed.line, why)?;
        state = after_reading(config, state, placed.reading);
    }
    add(&mut faults, 0, end_why(state))?;
    Ok(faults)
}

/// The instructions of so many ticks of work.
pub fn work_size(n: u32) -> u32
    ensures value { result ≡ work_size n }
    ensures most { result ≤ 5 }
{
    if n < 3 {
        n
    } else if n <= 131_072 {
        3 + (n - 1) % 2
    } else {
        4 + (n - 2) % 2
    }
}

/// The instructions of a step.
pub fn step_size(step: Step) -> u32
    ensures value { result ≡ step_size step }
    ensures most { result ≤ 5 }
{
    match step {
        Step::Work(n) => work_size(n),
        Step::Lock(_) | Step::Unlock(_) | Step::Slack(_) | Step::Put(_) => 2,
        Step::Wait => 1,
    }
}

fn steps_size(steps: &[Step]) -> u32
    requires { length steps.now ≤ 2 * MAX_PROFILE_BYTES }
    ensures value { result ≡ sum_by step_size steps.now }
    ensures most { result ≤ 10 * MAX_PROFILE_BYTES }
{
    let mut size = 0;
    for step in steps {
        size += step_size(*step);
    }
    size
}

fn lap_size(steps: &[Step]) -> u32
    requires { length steps.now ≤ 2 * MAX_PROFILE_BYTES }
    ensures value { result ≡ lap_size steps.now }
    ensures most { result ≤ 10 * MAX_PROFILE_BYTES + 6 }
{
    let mut size = 0;
    for step in steps {
        if let Step::Work(n) = *step {
            return size + work_size(n.saturating_sub(1)) + 1;
        }
        size += step_size(*step);
    }
    size
}

fn is_work(step: Step) -> bool
    ensures { result ≡ is_work step }
{
    match step {
        Step::Work(_) => true,
        _ => false,
    }
}

fn has_work(steps: &[Step]) -> bool
    ensures { result ≡ list_any is_work steps.now }
{
    steps.iter().any(|step| is_work(*step))
}

fn whole_why(steps: &[Step]) -> Option<Why>
    requires { length steps.now ≤ 2 * MAX_PROFILE_BYTES }
    ensures { result ≡ whole_why steps.now }
{
    if !has_work(steps) {
        return Some(Why::NoWork);
    }
    let size = steps_size(steps) + lap_size(steps);
    if MAX_INSTRUCTIONS < size {
        Some(Why::Many(size))
    } else {
        None
    }
}

/// All that is wrong with a profile of the process, in the order of its lines. There is nothing exactly where each line says
/// something that can be done where it stands, and the program has at most 16,384 instructions.
pub fn faults_of(
    alloc: Global,
    config: &Config,
    process: u32,
    readings: &[Placed],
) -> Result<Vec<ProfileFault>, AllocError>
    requires limits { IsWithinLimits config.now }
    requires few { length readings.now ≤ 2 * MAX_PROFILE_BYTES }
    ensures { IfOk result (λ v. v.items ≡ faults_of config.now process readings.now) }
{
    let mut faults = line_faults(alloc, config, process, readings)?;
    if faults.is_empty() {
        let steps = steps_of(alloc, readings)?;
        add(&mut faults, 0, whole_why(&steps))?;
    }
    Ok(faults)
}
