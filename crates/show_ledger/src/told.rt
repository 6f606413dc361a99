//! What is kept of a main while a ledger is read.
ghost use Rattle.std.specs.Prelude.{◌≡◌, ◌+◌, ◌-◌, ◌<◌, ◌≤◌};
ghost use Rattle.dk_config.specs.declared.TheConstants.{MAX_RUN_TICKS};
ghost use Rattle.dk_trace.specs.Entries.{quiet};
ghost use Rattle.dk_window_report.specs.Rows.{raised_if};
ghost use Rattle.show_ledger.specs.Tenths.{tenth};
ghost use Rattle.show_ledger.specs.Told.{counted, told_at, told_line, told_many, told_with, with_more};

use dk_config::MAX_RUN_TICKS;
use dk_ledger::LedgerLine;
use dk_trace::{Entry, Label};
use dk_window_report::{Row, gone_by, stepped};

/// How many numbers of tenths there are, from none to all ten.
pub const TENTHS: usize = 11;

/// A main: its budget, its row before a tick up to which it is told, and in how many windows it used each number of tenths.
#[derive(Clone, Copy)]
pub struct Told {
    pub budget: u32,
    pub row: Row,
    pub tick: u32,
    pub tenths: [u32; TENTHS],
}

/// How many whole tenths of the budget these ticks are, and ten where they are more than the budget.
fn tenth(budget: u32, used: u32) -> usize
    ensures same { result ≡ tenth budget used }
    ensures few { result < 11 }
{
    if budget == 0 {
        return 0;
    }
    let tenth = used as u64 * 10 / budget as u64;
    tenth.min(10) as usize
}

/// Adds so many windows to those of this tenth.
fn add(tenths: &mut [u32; TENTHS], tenth: usize, windows: u32)
    requires { tenth < 11 }
    ensures { tenths.new ≡ with_more tenth windows tenths.old }
{
    tenths[tenth] = tenths[tenth].saturating_add(windows);
}

/// The tenths where the number of windows grew: the main used so many ticks in the first of them, and none in the others.
fn counted(told: &Told, used: u32, windows: u32) -> [u32; TENTHS]
    ensures { result ≡ counted told.now.budget used told.now.row.counts.windows windows told.now.tenths }
{
    let mut tenths = told.tenths;
    let before = told.row.counts.windows;
    if before < windows {
        add(&mut tenths, tenth(told.budget, used), 1);
        add(&mut tenths, 0, windows - before - 1);
    }
    tenths
}

/// The main up to tick `now`, where nothing happened to it meanwhile.
pub fn told_at(now: u32, told: Told) -> Told
    requires { now ≤ MAX_RUN_TICKS }
    ensures { result ≡ told_at now told }
{
    if now <= told.tick {
        return told;
    }
    let row = gone_by(told.tick, Label::Idle, now - told.tick, told.row);
    Told {
        row,
        tick: now,
        tenths: counted(&told, told.row.did.used, row.counts.windows),
        ..told
    }
}

/// One more where the condition holds, up to the last value.
fn raised_if(condition: bool, n: u32) -> u32
    ensures { result ≡ raised_if condition n }
{
    if condition { n.saturating_add(1) } else { n }
}

/// The main with the entry of its next tick.
fn told_with(entry: Entry, told: Told) -> Told
    requires { told.tick < MAX_RUN_TICKS }
    ensures { result ≡ told_with entry told }
{
    let paid = entry.label.is_paid_by(told.row.thread);
    let used = raised_if(paid, told.row.did.used);
    let row = stepped(told.tick, entry, told.row);
    Told {
        row,
        tick: told.tick + 1,
        tenths: counted(&told, used, row.counts.windows),
        ..told
    }
}

/// The main with so many ticks more of one label, in which nothing happens.
fn told_many(label: Label, count: u32, told: Told) -> Told
    requires { told.tick + count ≤ MAX_RUN_TICKS }
    ensures same { result ≡ told_many (quiet label) count told }
    ensures tick { result.tick ≡ told.tick + count }
{
    let quiet = Entry { label, event: None };
    let mut more = told;
    for _turn in 0..count {
        more = told_with(quiet, more);
    }
    more
}

/// The main with the entries of a line of its own.
pub fn told_line(line: LedgerLine, told: Told) -> Told
    requires early { told.tick ≤ line.start }
    requires some { 0 < line.count }
    requires few { line.start + line.count ≤ MAX_RUN_TICKS }
    ensures { result ≡ told_line line told }
{
    let before = told_at(line.start, told);
    let quiet = told_many(line.label, line.count - 1, before);
    told_with(
        Entry {
            label: line.label,
            event: line.event,
        },
        quiet,
    )
}
