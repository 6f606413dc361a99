ghost use Rattle.std.specs.Prelude.{◌≡◌, true};
ghost use Rattle.dk_ledger.specs.Lines.{joins, single, same_label};

use dk_trace::{Entry, Event, Label};

/// The ticks from `start` on, `count` of them, that have one label. The last has the event, if
/// there is one.
#[derive(Clone, Copy)]
pub struct LedgerLine {
    pub start: u32,
    pub count: u32,
    pub label: Label,
    pub event: Option<Event>,
}

impl LedgerLine {
    ghost use Rattle.std.specs.Prelude.{◌≡◌};
    ghost use Rattle.dk_ledger.specs.Cuts.{entries_of};
    ghost use Rattle.dk_ledger.specs.Stretches.{stretch_of};

    /// The entry of its last tick. Those of the ticks before have the same label, and no event.
    pub fn last(&self) -> Entry
        ensures { entries_of self.now ≡ stretch_of self.now.count result }
    {
        Entry {
            label: self.label,
            event: self.event,
        }
    }
}

fn is_same(a: &Label, b: &Label) -> bool
    ensures { result ≡ same_label a.now b.now }
{
    a == b
}

/// Whether an entry of this label goes on the line.
pub fn goes_on(line: &LedgerLine, label: &Label) -> bool
    ensures { result ≡ joins line.now.label line.now.event label.now }
{
    line.event.is_none() && is_same(&line.label, label)
}

/// The line of one entry.
pub fn first_of(start: u32, entry: Entry) -> LedgerLine
    ensures { result ≡ single start entry }
{
    LedgerLine {
        start,
        count: 1,
        label: entry.label,
        event: entry.event,
    }
}

/// Whether the entry differs from the line, of one tick, in its tick alone.
#[inline(always)]
pub(crate) fn is_like(line: &LedgerLine, entry: &Entry) -> bool
    ensures one { result ≡ true → line.now.count ≡ 1 }
    ensures label { result ≡ true → line.now.label ≡ entry.now.label }
    ensures event { result ≡ true → line.now.event ≡ entry.now.event }
{
    line.count == 1 && line.event == entry.event && is_same(&line.label, &entry.label)
}
