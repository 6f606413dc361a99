//! What a process did in some ticks.
ghost use Rattle.std.specs.Prelude.{◌≡◌, ◌+◌, ◌≤◌, []};
ghost use Rattle.dk_config.specs.declared.TheConstants.{MAX_TICKS};
ghost use Rattle.dk_trace.specs.Entries.{quiet};
ghost use Rattle.dk_window_report.specs.Rows.{raised_if};
ghost use Rattle.dk_report.specs.Counts.{is_of_process};
ghost use Rattle.dk_cycle_counts.specs.Process.{has_fault, has_refused, has_slack, use_gone_by, use_of, use_with};

use crate::begins::BeginTicks;
use dk_config::MAX_TICKS;
use dk_trace::{Entry, Event, Label, ThreadId};
use dk_window_report::{Row, fresh, gone_by, row_law, stepped};

/// A process, with the period of its main's level and its budget.
#[derive(Clone, Copy)]
pub struct MainShare {
    pub process: u8,
    pub period: u32,
    pub budget: u32,
}

/// What a process did in some ticks: its main in their windows, and how many ticks its threads had on slack, calls of
/// theirs were refused, and faults they had.
#[derive(Clone, Copy)]
pub struct ProcessUse {
    /// The row of its main, whose windows are counted from the first of these ticks on.
    pub main: Row,
    /// When in its windows its main begins.
    pub begins: BeginTicks,
    pub budget: u32,
    pub slack: u32,
    pub refused: u32,
    pub faults: u32,
}

/// One more where it holds, up to the last value.
fn raised_if(condition: bool, n: u32) -> u32
    ensures { result ≡ raised_if condition n }
{
    if condition { n.saturating_add(1) } else { n }
}

/// Whether a thread of the process had the tick.
fn is_of_process(process: u8, entry: Entry) -> bool
    ensures { result ≡ is_of_process process entry }
{
    match entry.label.thread() {
        Some(thread) => thread.process == process,
        None => false,
    }
}

fn has_slack(process: u8, label: Label) -> bool
    ensures { result ≡ has_slack process (quiet label) }
{
    match label {
        Label::Slack { thread, .. } => thread.process == process,
        _ => false,
    }
}

fn has_refused(process: u8, entry: Entry) -> bool
    ensures { result ≡ has_refused process entry }
{
    match entry.event {
        Some(Event::Refused(_)) => is_of_process(process, entry),
        _ => false,
    }
}

fn has_fault(process: u8, entry: Entry) -> bool
    ensures { result ≡ has_fault process entry }
{
    match entry.event {
        Some(Event::Fault(_)) => is_of_process(process, entry),
        _ => false,
    }
}

impl ProcessUse {
    /// In no ticks.
    pub(crate) fn new(share: MainShare) -> ProcessUse
        ensures { result ≡ use_of share [] }
    {
        row_law();
        let main = ThreadId {
            process: share.process,
            serial: 0,
        };
        ProcessUse {
            main: fresh(main, share.period, 0),
            begins: BeginTicks { first: 0, last: 0 },
            budget: share.budget,
            slack: 0,
            refused: 0,
            faults: 0,
        }
    }

    /// With the entry of one more tick, behind so many.
    pub(crate) fn with_entry(self, ticks: u32, entry: Entry) -> ProcessUse
        ensures { result ≡ use_with ticks entry self }
    {
        let process = self.main.thread.process;
        ProcessUse {
            main: stepped(ticks, entry, self.main),
            begins: self.begins.with_entry(ticks, entry, &self.main),
            budget: self.budget,
            slack: raised_if(has_slack(process, entry.label), self.slack),
            refused: raised_if(has_refused(process, entry), self.refused),
            faults: raised_if(has_fault(process, entry), self.faults),
        }
    }

    /// With so many ticks more, behind so many, that all have the label and no event.
    pub(crate) fn gone_by(self, ticks: u32, label: Label, count: u32) -> ProcessUse
        requires { ticks + count ≤ MAX_TICKS }
        ensures { result ≡ use_gone_by ticks label count self }
    {
        let slack = if has_slack(self.main.thread.process, label) {
            self.slack.saturating_add(count)
        } else {
            self.slack
        };
        ProcessUse {
            main: gone_by(ticks, label, count, self.main),
            begins: self.begins.gone_by(ticks, label, count, &self.main),
            slack,
            ..self
        }
    }
}
