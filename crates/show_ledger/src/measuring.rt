//! The holds of a ledger, with the ticks that their threads had in them.
ghost use Rattle.std.specs.Prelude.{◌≡◌, ◌≤◌, length, map, IfOk};
ghost use Rattle.dk_config.specs.declared.TheConstants.{MAX_RUN_TICKS};
ghost use Rattle.dk_ledger.specs.Readable.{IsReadable, text_of};
ghost use Rattle.show_ledger.specs.Measured.{entries_in, holds_of, is_of_mutex, measured, measured_holds, own_ticks};

use dk_config::NoMemory;
use dk_hold_spans::{Hold, read_holds};
use dk_ledger::Ledger;
use dk_trace::Entry;
use std::alloc::{AllocError, Global};

/// A hold of a mutex in a ledger, and how many of its ticks the thread had that holds it.
#[derive(Clone, Copy)]
pub struct MeasuredHold {
    pub hold: Hold,
    pub own: u32,
}

/// The entries from one tick on up to before another.
fn entries_in(entries: &[Entry], start: u32, end: u32) -> &[Entry]
    ensures is { result.now ≡ entries_in start end entries.now }
    ensures few { length result.now ≤ length entries.now }
{
    let front = &entries[..(end as usize).min(entries.len())];
    &front[(start as usize).min(front.len())..]
}

/// How many of the ticks of the hold its thread had.
fn own_ticks(entries: &[Entry], hold: &Hold) -> u32
    requires { length entries.now ≤ MAX_RUN_TICKS }
    ensures { result ≡ own_ticks entries.now hold.now }
{
    let thread = hold.thread;
    let ticks = entries_in(entries, hold.start, hold.end);
    ticks
        .iter()
        .filter(|entry| entry.label.is_of(thread))
        .count() as u32
}

fn measured(entries: &[Entry], hold: &Hold) -> MeasuredHold
    requires { length entries.now ≤ MAX_RUN_TICKS }
    ensures { result ≡ measured entries.now hold.now }
{
    MeasuredHold {
        hold: *hold,
        own: own_ticks(entries, hold),
    }
}

fn measure_all(
    alloc: Global,
    entries: &[Entry],
    holds: &[Hold],
) -> Result<Vec<MeasuredHold>, AllocError>
    requires { length entries.now ≤ MAX_RUN_TICKS }
    ensures { IfOk result (λ v. v.items ≡ map (measured entries.now) holds.now) }
{
    let mut all = Vec::new(alloc);
    for hold in holds {
        all.push(measured(entries, hold))?;
    }
    Ok(all)
}

/// The holds of a ledger that was read of these bytes, in the order of their ends.
pub(crate) fn measured_holds(
    alloc: Global,
    bytes: &[u8],
    ledger: &Ledger,
) -> Result<Vec<MeasuredHold>, NoMemory>
    requires readable { IsReadable ledger.now }
    requires text { text_of ledger.now ≡ bytes.now }
    ensures { IfOk result (λ v. v.items ≡ measured_holds ledger.now.entries) }
{
    let entries = ledger.entries.as_slice();
    let holds = read_holds(alloc, bytes, 0, entries.len() as u32)?;
    Ok(measure_all(alloc, entries, holds.as_slice())?)
}

fn is_of_mutex(mutex: u8, measured: &MeasuredHold) -> bool
    ensures { result ≡ is_of_mutex mutex measured.now }
{
    measured.hold.mutex == mutex
}

/// Those of a mutex.
pub(crate) fn holds_of(
    alloc: Global,
    mutex: u8,
    all: &[MeasuredHold],
) -> Result<Vec<MeasuredHold>, AllocError>
    ensures { IfOk result (λ v. v.items ≡ holds_of mutex all.now) }
{
    all.iter()
        .filter(|measured| is_of_mutex(mutex, measured))
        .copied()
        .collect(alloc)
}
