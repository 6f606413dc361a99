//! Where a job stands as its steps are done one by one, and why the next can't be done there.
ghost use Rattle.std.specs.Prelude.{◌≡◌, ◌≤◌};
ghost use Rattle.dk_config.specs.Checked.{IsWithinLimits};
ghost use Rattle.dk_config.specs.Windows.{budget, longest_hold, may_ask};
ghost use Rattle.dk_profile.specs.Faults.{after_reading, after_step, body, end_why, first_state, held_after, lock_why, reading_why, step_why, unlock_why, used_after, wait_why};
ghost use Rattle.dk_profile.specs.Steps.{step_ticks};

use crate::steps::{Reading, Step, Why};
use dk_config::Config;

/// A mutex that a job holds.
#[derive(Clone, Copy)]
pub struct HeldMutex {
    pub mutex: u32,
    /// How many ticks the job had when it locked it.
    pub since: u32,
}

/// Where a job stands.
#[derive(Clone, Copy)]
pub struct JobState {
    /// The ticks of the body that its steps took.
    pub used: u32,
    pub held: Option<HeldMutex>,
    /// Whether it has a step.
    pub begun: bool,
}

pub(crate) fn first_state() -> JobState
    ensures { result ≡ first_state }
{
    JobState {
        used: 0,
        held: None,
        begun: false,
    }
}

fn budget_of(config: &Config, process: u32) -> u32
    ensures { result ≡ budget config.now process }
{
    match config.processes.get(process as usize) {
        Some(row) => row.budget,
        None => 0,
    }
}

fn may_ask(config: &Config, process: u32) -> bool
    ensures { result ≡ may_ask config.now process }
{
    match config.processes.get(process as usize) {
        Some(row) => row.slack,
        None => false,
    }
}

fn hold_of(config: &Config, mutex: u32) -> u32
    ensures { result ≡ longest_hold config.now mutex }
{
    match config.mutexes.get(mutex as usize) {
        Some(row) => row.hold,
        None => 0,
    }
}

fn body_of(config: &Config, process: u32) -> u32
    requires { IsWithinLimits config.now }
    ensures { result ≡ body config.now process }
{
    budget_of(config, process).saturating_sub(2 * config.costs.switch)
}

fn step_ticks(call: u32, step: Step) -> u32
    requires { call ≤ 255 }
    ensures { result ≡ step_ticks call step }
{
    match step {
        Step::Work(n) => n,
        Step::Lock(_) | Step::Unlock(_) | Step::Slack(_) | Step::Put(_) => 1 + call,
        Step::Wait => call,
    }
}

fn used_after(config: &Config, state: JobState, step: Step) -> u32
    requires { IsWithinLimits config.now }
    ensures { result ≡ used_after config.now state step }
{
    let ticks = step_ticks(config.costs.call, step);
    (state.used as u64 + ticks as u64).min(4_000_000) as u32
}

fn held_after(used: u32, held: Option<HeldMutex>, step: Step) -> Option<HeldMutex>
    ensures { result ≡ held_after used held step }
{
    match (held, step) {
        (None, Step::Lock(mutex)) => Some(HeldMutex {
            mutex: mutex as u32,
            since: used,
        }),
        (Some(h), Step::Unlock(mutex)) if h.mutex == mutex as u32 => None,
        _ => held,
    }
}

fn after_step(config: &Config, state: JobState, step: Step) -> JobState
    requires { IsWithinLimits config.now }
    ensures { result ≡ after_step config.now state step }
{
    if let Step::Wait = step {
        return first_state();
    }
    let used = used_after(config, state, step);
    JobState {
        used,
        held: held_after(used, state.held, step),
        begun: true,
    }
}

/// The job once what the line says is done.
pub(crate) fn after_reading(config: &Config, state: JobState, reading: Reading) -> JobState
    requires { IsWithinLimits config.now }
    ensures { result ≡ after_reading config.now state reading }
{
    match reading {
        Reading::Does(step) => after_step(config, state, step),
        Reading::Job => first_state(),
        Reading::Nothing | Reading::Wrong(_) => state,
    }
}

fn lock_why(left: u32, hold: u32, held: Option<HeldMutex>) -> Option<Why>
    ensures { result ≡ lock_why left hold held }
{
    match held {
        Some(h) => Some(Why::Held(h.mutex)),
        None if left < hold => Some(Why::Little { left, hold }),
        None => None,
    }
}

fn unlock_why(used: u32, hold: u32, mutex: u32, held: Option<HeldMutex>) -> Option<Why>
    ensures { result ≡ unlock_why used hold mutex held }
{
    let Some(h) = held else {
        return Some(Why::NotHeld);
    };
    if h.mutex != mutex {
        return Some(Why::NotHeld);
    }
    let ticks = used.saturating_sub(h.since);
    if hold < ticks {
        Some(Why::Long { ticks, hold })
    } else {
        None
    }
}

fn wait_why(held: Option<HeldMutex>) -> Option<Why>
    ensures { result ≡ wait_why held }
{
    match held {
        Some(h) => Some(Why::Held(h.mutex)),
        None => None,
    }
}

fn step_why(config: &Config, process: u32, state: JobState, step: Step) -> Option<Why>
    requires { IsWithinLimits config.now }
    ensures { result ≡ step_why config.now process state step }
{
    match step {
        Step::Work(_) | Step::Put(_) => None,
        Step::Lock(mutex) => {
            let left = body_of(config, process).saturating_sub(used_after(config, state, step));
            lock_why(left, hold_of(config, mutex as u32), state.held)
        }
        Step::Unlock(mutex) => {
            let used = used_after(config, state, step);
            unlock_why(
                used,
                hold_of(config, mutex as u32),
                mutex as u32,
                state.held,
            )
        }
        Step::Slack(_) if may_ask(config, process) => None,
        Step::Slack(_) => Some(Why::NoRight),
        Step::Wait => wait_why(state.held),
    }
}

/// Why what the line says can't be done there.
pub(crate) fn reading_why(
    config: &Config,
    process: u32,
    state: JobState,
    reading: Reading,
) -> Option<Why>
    requires { IsWithinLimits config.now }
    ensures { result ≡ reading_why config.now process state reading }
{
    match reading {
        Reading::Nothing => None,
        Reading::Job if state.begun => Some(Why::Midst),
        Reading::Job => None,
        Reading::Does(step) => step_why(config, process, state, step),
        Reading::Wrong(why) => Some(why),
    }
}

/// Why the profile can't end there.
pub(crate) fn end_why(state: JobState) -> Option<Why>
    ensures { result ≡ end_why state }
{
    if state.begun {
        Some(Why::Unended)
    } else {
        None
    }
}
