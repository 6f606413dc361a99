//! When in its windows a main begins.
ghost use Rattle.std.specs.Prelude.{◌≡◌, ◌+◌, ◌%◌, ◌≤◌};
ghost use Rattle.dk_config.specs.declared.TheConstants.{MAX_TICKS};
ghost use Rattle.dk_cycle_counts.specs.Begins.{begins_gone_by, begins_with, begun_at, earlier};

use dk_config::MAX_TICKS;
use dk_trace::{Entry, Label};
use dk_window_report::{Row, stepped};

/// The earliest and the latest tick of a window, counted from 1, at which a thread had its first tick of the budget, of
/// the windows in which it had one; 0 where there is none.
#[derive(Clone, Copy, Default)]
pub struct BeginTicks {
    pub first: u32,
    pub last: u32,
}

/// The lesser of two, where 0 is none.
fn earlier(one: u32, other: u32) -> u32
    ensures { result ≡ earlier one other }
{
    if other == 0 {
        one
    } else if one == 0 {
        other
    } else {
        one.min(other)
    }
}

/// How many of so many ticks are behind the last whole period, and all where there is no period.
fn ticks_in(period: u32, ticks: u32) -> u32
    ensures { result ≡ ticks % period }
{
    if period == 0 { ticks } else { ticks % period }
}

impl BeginTicks {
    /// With one more window, in which it begins at this tick.
    fn begun_at(self, tick: u32) -> BeginTicks
        ensures { result ≡ begun_at tick self }
    {
        BeginTicks {
            first: earlier(self.first, tick),
            last: self.last.max(tick),
        }
    }

    /// With the entry of one more tick, behind so many, where this is kept of the thread.
    pub(crate) fn with_entry(self, ticks: u32, entry: Entry, row: &Row) -> BeginTicks
        ensures { result ≡ begins_with ticks entry row.now self }
    {
        if !entry.label.is_paid_by(row.thread) || row.did.used != 0 {
            return self;
        }
        self.begun_at(ticks_in(row.period, ticks).saturating_add(1))
    }

    /// With so many ticks more, behind so many, for which the thread pays and in which nothing happens.
    fn paid_by(self, ticks: u32, label: Label, count: u32, row: &Row) -> BeginTicks
        requires few { ticks + count ≤ MAX_TICKS }
        ensures { result ≡ begins_gone_by ticks label count row.now self }
    {
        let mut begins = self;
        let mut main = *row;
        let entry = Entry { label, event: None };
        for tick in 0..count {
            begins = begins.with_entry(ticks + tick, entry, &main);
            main = stepped(ticks + tick, entry, main);
        }
        begins
    }

    /// With so many ticks more, behind so many, that all have the label and no event.
    pub(crate) fn gone_by(self, ticks: u32, label: Label, count: u32, row: &Row) -> BeginTicks
        requires { ticks + count ≤ MAX_TICKS }
        ensures { result ≡ begins_gone_by ticks label count row.now self }
    {
        if label.is_paid_by(row.thread) {
            return self.paid_by(ticks, label, count, row);
        }
        self
    }
}
