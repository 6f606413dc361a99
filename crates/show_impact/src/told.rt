//! What is told of a process.
ghost use Rattle.std.specs.Prelude.{◌≡◌, ◌++◌, IfOk, option_map, string_bytes};
ghost use Rattle.dk_config.specs.Windows.{budget, longest_hold, memory};
ghost use Rattle.show_impact.specs.Told.{cause_word, change_text, fate_word, impact_word, key_text, mutex_name, mutex_told, reason_word, told_name, told_of, told_value, value_of, waiting_text, waits_text};

use crate::comparing::{name_of, period_of, place_of};
use crate::{Cause, CertifiedLoad, Impact, Row, WAIT_TICKS, Waiting};
use dk_config::Config;
use dk_impact::Change;
use std::alloc::{AllocError, Global};

/// Of whom something is told.
#[derive(Clone, Copy)]
pub(crate) enum Fate {
    /// A process of the new configuration.
    Is(Impact),
    /// One that the old configuration has alone.
    Gone,
    /// A name that no process has.
    Unknown,
}

/// What is told of a process of either configuration, or of a name.
#[derive(Clone, Copy)]
pub(crate) struct Told {
    pub(crate) fate: Fate,
    /// The number that changed, before and now.
    pub(crate) before: Option<u32>,
    pub(crate) now: Option<u32>,
    /// After how many ticks of each window its main had its whole budget, and has it now.
    pub(crate) done_before: Option<u32>,
    pub(crate) done_now: Option<u32>,
}

fn budget_of(config: &Config, process: u32) -> u32
    ensures { result ≡ budget config.now process }
{
    match config.processes.get(process as usize) {
        Some(row) => row.budget,
        None => 0,
    }
}

fn memory_of(config: &Config, process: u32) -> u32
    ensures { result ≡ memory config.now process }
{
    match config.processes.get(process as usize) {
        Some(row) => row.memory,
        None => 0,
    }
}

fn hold_of(config: &Config, mutex: u32) -> u32
    ensures { result ≡ longest_hold config.now mutex }
{
    match config.mutexes.get(mutex as usize) {
        Some(row) => row.hold,
        None => 0,
    }
}

/// The number that changes, where the change is one of a number.
fn value_of(change: Change, config: &Config, process: u32) -> Option<u32>
    ensures { result ≡ value_of change config.now process }
{
    match change {
        Change::Switch => Some(config.costs.switch),
        Change::Call => Some(config.costs.call),
        Change::Period => Some(period_of(config, process)),
        Change::Budget => Some(budget_of(config, process)),
        Change::Memory => Some(memory_of(config, process)),
        Change::User(_) => None,
        Change::Hold(mutex) => Some(hold_of(config, mutex)),
        Change::Levels => None,
    }
}

/// Of a process that may not be there, where something is seen to change.
fn told_value(change: Option<Change>, config: &Config, process: Option<u32>) -> Option<u32>
    ensures { result ≡ told_value change config.now process }
{
    match (change, process) {
        (Some(change), Some(process)) => value_of(change, config, process),
        _ => None,
    }
}

fn done_where(place: Option<u32>, done: u32) -> Option<u32>
    ensures { result ≡ option_map (λ p. done) place }
{
    match place {
        Some(_) => Some(done),
        None => None,
    }
}

/// What is told of a process of the new configuration, and of a change that it sees, if it sees one.
pub(crate) fn told_of(
    old: &CertifiedLoad,
    new: &CertifiedLoad,
    row: &Row,
    process: u32,
    change: Option<Change>,
) -> Told
    ensures { result ≡ told_of old.now.config new.now.config row.now process change }
{
    let place = place_of(old, name_of(new, process));
    Told {
        fate: Fate::Is(row.impact),
        before: told_value(change, old.config(), place),
        now: told_value(change, new.config(), Some(process)),
        done_before: done_where(place, row.before),
        done_now: Some(row.after),
    }
}

/// And of a process that is gone, or of a name that is that of none.
pub(crate) fn told_name(fate: Fate) -> Told
    ensures { result ≡ told_name fate }
{
    Told {
        fate,
        before: None,
        now: None,
        done_before: None,
        done_now: None,
    }
}

fn cause_word(cause: Cause) -> &'static str
    ensures { result.now ≡ cause_word cause }
{
    match cause {
        Cause::Threads => "threads",
        Cause::Slack => "slack",
        Cause::Clock => "clock",
    }
}

fn mutex_name(config: &Config, mutex: u32) -> &str
    ensures { result.now ≡ mutex_name config.now mutex }
{
    match config.mutexes.get(mutex as usize) {
        Some(row) => row.name.as_str(),
        None => "",
    }
}

/// The name of the mutex in the new configuration, and where that hasn't got it in the old.
fn mutex_told<'a>(old: &'a Config, new: &'a Config, mutex: u32) -> &'a str
    ensures { result.now ≡ mutex_told old.now new.now mutex }
{
    match new.mutexes.get(mutex as usize) {
        Some(row) => row.name.as_str(),
        None => mutex_name(old, mutex),
    }
}

fn with_mutex(alloc: Global, word: &str, name: &str) -> Result<String, AllocError>
    ensures { IfOk result (λ s. string_bytes s ≡ word.now ++ name.now) }
{
    format!(in alloc; "{word}{name}")
}

fn change_text(
    alloc: Global,
    old: &Config,
    new: &Config,
    change: Change,
) -> Result<String, AllocError>
    ensures { IfOk result (λ s. string_bytes s ≡ change_text old.now new.now change) }
{
    match change {
        Change::Switch => String::from_str(alloc, "switch"),
        Change::Call => String::from_str(alloc, "call"),
        Change::Period => String::from_str(alloc, "period"),
        Change::Budget => String::from_str(alloc, "budget"),
        Change::Memory => String::from_str(alloc, "memory"),
        Change::User(mutex) => with_mutex(alloc, "user ", mutex_told(old, new, mutex)),
        Change::Hold(mutex) => with_mutex(alloc, "hold ", mutex_told(old, new, mutex)),
        Change::Levels => String::from_str(alloc, "level"),
    }
}

fn impact_word(impact: Impact) -> &'static str
    ensures { result.now ≡ impact_word impact }
{
    match impact {
        Impact::Same | Impact::Waits => "same",
        Impact::PeriodAlone => "period alone",
        Impact::IfItWaits(_) => "same if it waits",
        Impact::Program => "changed",
        Impact::Changed => "changed",
        Impact::Open(_) => "open",
        Impact::New => "new",
    }
}

/// What becomes of whom it is told, in a word or a few.
pub(crate) fn fate_word(fate: Fate) -> &'static str
    ensures { result.now ≡ fate_word fate }
{
    match fate {
        Fate::Is(impact) => impact_word(impact),
        Fate::Gone => "gone",
        Fate::Unknown => "unknown",
    }
}

fn reason_word(impact: Impact) -> &'static str
    ensures { result.now ≡ reason_word impact }
{
    match impact {
        Impact::Program => "program",
        Impact::Open(cause) => cause_word(cause),
        Impact::Same
        | Impact::PeriodAlone
        | Impact::Waits
        | Impact::IfItWaits(_)
        | Impact::Changed
        | Impact::New => "",
    }
}

fn waiting_text(alloc: Global, waiting: Waiting) -> Result<String, AllocError>
    ensures { IfOk result (λ s. string_bytes s ≡ waiting_text waiting) }
{
    match waiting {
        Waiting::Always => String::from_str(alloc, "waits in each window"),
        Waiting::NotFrom(tick) => format!(in alloc; "no wait in the window from {tick}"),
        Waiting::NotWithin => format!(in alloc; "not within {WAIT_TICKS}"),
        Waiting::Locks => String::from_str(alloc, "may want for a lock"),
    }
}

/// What is known of its windows, where that is told.
pub(crate) fn waits_text(alloc: Global, impact: Impact) -> Result<String, AllocError>
    ensures { IfOk result (λ s. string_bytes s ≡ waits_text impact) }
{
    match impact {
        Impact::Waits => waiting_text(alloc, Waiting::Always),
        Impact::IfItWaits(waiting) => waiting_text(alloc, waiting),
        _ => String::from_str(alloc, ""),
    }
}

/// And by what, if by anything.
pub(crate) fn key_text(
    alloc: Global,
    old: &Config,
    new: &Config,
    impact: Impact,
    change: Option<Change>,
) -> Result<String, AllocError>
    ensures { IfOk result (λ s. string_bytes s ≡ key_text old.now new.now impact change) }
{
    match change {
        Some(change) => change_text(alloc, old, new, change),
        None => String::from_str(alloc, reason_word(impact)),
    }
}
