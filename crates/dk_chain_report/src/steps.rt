//! When each process of a chain answers an event.
ghost use Rattle.std.specs.Prelude.{ℕ, ◌≡◌, ◌∷◌, ◌+◌, ◌*◌, ◌<◌, ◌≤◌, length, string_bytes, IfOk, OnOk, suc};
ghost use Rattle.dk_config.specs.Checked.{IsChecked, IsWithinLimits};
ghost use Rattle.dk_config.specs.Windows.{process_name};
ghost use Rattle.dk_config_report.specs.Pages.{AddsLines};
ghost use Rattle.dk_chain.specs.Chain.{AreDone, AreThere};
ghost use Rattle.dk_chain.specs.Pace.{most_wait};
ghost use Rattle.dk_chain_report.specs.Steps.{IsOverBy, IsStep, IsStepLine, place_part, process_at, split_part, step_line, times_part, turn_at, turn_word, window_at};

use dk_certify::level_row;
use dk_chain::{free_from, next_window};
use dk_config::{Config, MAX_PROCESSES, MAX_SPAN, NoMemory};
use dk_config_report::push_line;
use dk_when::{begins_by, done_by};
use std::alloc::{AllocError, Global};

/// In which window a process of the chain answers, seen from the process before it.
#[derive(Clone, Copy)]
pub enum Turn {
    /// It is the first of the chain.
    First,
    /// Its window starts when that of the process before it does.
    Same,
    /// Its window starts later.
    Later,
}

/// What the line of a process of the chain tells. Its ticks are counted from the event.
#[derive(Clone, Copy)]
pub struct Step {
    /// The level of the main.
    pub level: u32,
    /// The ticks of a window of the level.
    pub period: u32,
    pub turn: Turn,
    /// When the window starts in which it answers.
    pub starts: u64,
    /// By when the main has had a tick of it.
    pub begins: u64,
    /// By when it has had its whole budget.
    pub done: u64,
    /// How long the chain waits for that window, once the process before it is done.
    pub waits: u64,
    /// How long it takes from then on until this process is done.
    pub takes: u64,
}

/// The process at this place of the chain.
fn process_at(first: u32, rest: &[u32], place: usize) -> u32
    requires { place ≤ length rest.now }
    ensures { result ≡ process_at first rest.now place }
{
    if place == 0 { first } else { rest[place - 1] }
}

/// The start of the window in which the process at this place answers.
fn window_at(config: &Config, first: u32, rest: &[u32], event: u64, place: usize) -> u64
    requires checked { IsChecked config.now }
    requires limits { IsWithinLimits config.now }
    requires there { AreThere config.now (first ∷ rest.now) }
    requires few { length rest.now < MAX_PROCESSES }
    requires soon { event ≤ most_wait + MAX_SPAN }
    requires place { place ≤ length rest.now }
    ensures at { (done : ℕ → ℕ) → AreDone config.now done → window_at config.now done first rest.now event place ≡ result }
    ensures after { event ≤ result }
    ensures few { result ≤ 2 * most_wait }
{
    let mut start = next_window(config, first, event);
    for before in 0..place {
        let next = process_at(first, rest, before + 1);
        let free = free_from(config, process_at(first, rest, before), next, start);
        start = next_window(config, next, free);
    }
    start
}

fn turn_at(config: &Config, first: u32, rest: &[u32], event: u64, place: usize) -> Turn
    requires checked { IsChecked config.now }
    requires limits { IsWithinLimits config.now }
    requires there { AreThere config.now (first ∷ rest.now) }
    requires few { length rest.now < MAX_PROCESSES }
    requires soon { event ≤ most_wait + MAX_SPAN }
    requires place { place ≤ length rest.now }
    ensures { (done : ℕ → ℕ) → AreDone config.now done → result ≡ turn_at config.now done first rest.now event place }
{
    if place == 0 {
        return Turn::First;
    }
    let before = window_at(config, first, rest, event, place - 1);
    if before == window_at(config, first, rest, event, place) {
        Turn::Same
    } else {
        Turn::Later
    }
}

/// By when the process before this place is done, counted from the event, and the event itself for the first one.
fn over_by(config: &Config, first: u32, rest: &[u32], event: u64, place: usize) -> u64
    requires checked { IsChecked config.now }
    requires limits { IsWithinLimits config.now }
    requires there { AreThere config.now (first ∷ rest.now) }
    requires few { length rest.now < MAX_PROCESSES }
    requires soon { event ≤ most_wait + MAX_SPAN }
    requires place { place ≤ length rest.now }
    ensures { IsOverBy config.now first rest.now event place result }
{
    if place == 0 {
        return 0;
    }
    let starts = window_at(config, first, rest, event, place - 1) - event;
    starts + done_by(config, process_at(first, rest, place - 1)) as u64
}

fn step_at(config: &Config, first: u32, rest: &[u32], event: u64, place: usize) -> Step
    requires checked { IsChecked config.now }
    requires limits { IsWithinLimits config.now }
    requires there { AreThere config.now (first ∷ rest.now) }
    requires few { length rest.now < MAX_PROCESSES }
    requires soon { event ≤ most_wait + MAX_SPAN }
    requires place { place ≤ length rest.now }
    ensures { IsStep config.now first rest.now event place result }
{
    let process = process_at(first, rest, place);
    let level = config.processes.as_slice()[process as usize].level;
    let starts = window_at(config, first, rest, event, place) - event;
    let done = starts + done_by(config, process) as u64;
    let before = over_by(config, first, rest, event, place);
    Step {
        level,
        period: level_row(config, level as usize).period,
        turn: turn_at(config, first, rest, event, place),
        starts,
        begins: starts + begins_by(config, process) as u64,
        done,
        waits: starts.saturating_sub(before),
        takes: done.saturating_sub(starts.max(before)),
    }
}

fn turn_word(turn: Turn) -> &'static str
    ensures { result.now ≡ turn_word turn }
{
    match turn {
        Turn::First => "first",
        Turn::Same => "same",
        Turn::Later => "later",
    }
}

fn place_part(alloc: Global, name: &str, step: Step) -> Result<String, AllocError>
    ensures { IfOk result (λ s. string_bytes s ≡ place_part name.now step) }
{
    let level = step.level;
    let period = step.period;
    format!(in alloc; "process {name} level {level} period {period}")
}

fn times_part(alloc: Global, step: Step) -> Result<String, AllocError>
    ensures { IfOk result (λ s. string_bytes s ≡ times_part step) }
{
    let turn = turn_word(step.turn);
    let starts = step.starts;
    let begins = step.begins;
    let done = step.done;
    format!(in alloc; " window {turn} starts {starts} begins by {begins} done by {done}")
}

fn split_part(alloc: Global, step: Step) -> Result<String, AllocError>
    ensures { IfOk result (λ s. string_bytes s ≡ split_part step) }
{
    let waits = step.waits;
    let takes = step.takes;
    format!(in alloc; " waits {waits} takes {takes}\n")
}

fn step_line(alloc: Global, name: &str, step: Step) -> Result<String, AllocError>
    ensures { IfOk result (λ s. string_bytes s ≡ step_line name.now step) }
{
    let mut line = place_part(alloc, name, step)?;
    push_line(&mut line, times_part(alloc, step)?)?;
    push_line(&mut line, split_part(alloc, step)?)?;
    Ok(line)
}

pub(crate) fn name_of(config: &Config, process: u32) -> &str
    requires { process < length config.now.processes }
    ensures { result.now ≡ process_name config.now process }
{
    config.processes.as_slice()[process as usize].name.as_str()
}

fn line_at(
    alloc: Global,
    config: &Config,
    first: u32,
    rest: &[u32],
    event: u64,
    place: usize,
) -> Result<String, NoMemory>
    requires checked { IsChecked config.now }
    requires limits { IsWithinLimits config.now }
    requires there { AreThere config.now (first ∷ rest.now) }
    requires few { length rest.now < MAX_PROCESSES }
    requires soon { event ≤ most_wait + MAX_SPAN }
    requires place { place ≤ length rest.now }
    ensures { IfOk result (λ s. IsStepLine config.now first rest.now event place (string_bytes s)) }
{
    let name = name_of(config, process_at(first, rest, place));
    Ok(step_line(alloc, name, step_at(config, first, rest, event, place))?)
}

/// Adds a line for each process of the chain.
pub(crate) fn add_steps(
    alloc: Global,
    text: &mut String,
    config: &Config,
    first: u32,
    rest: &[u32],
    event: u64,
) -> Result<(), NoMemory>
    requires checked { IsChecked config.now }
    requires limits { IsWithinLimits config.now }
    requires there { AreThere config.now (first ∷ rest.now) }
    requires few { length rest.now < MAX_PROCESSES }
    requires soon { event ≤ most_wait + MAX_SPAN }
    ensures { OnOk result (AddsLines (IsStepLine config.now first rest.now event) (suc (length rest.now))
        (string_bytes text.old) (string_bytes text.new)) }
{
    for place in 0..rest.len() + 1 {
        let line = line_at(alloc, config, first, rest, event, place)?;
        push_line(text, line)?;
    }
    Ok(())
}
