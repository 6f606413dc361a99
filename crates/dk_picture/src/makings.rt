//! The lines whose event makes a child, since children may have parts of their main's budget.
ghost use Rattle.std.specs.Prelude.{◌≡◌, ◌++◌, [], IfOk, OnOk};
ghost use Rattle.dk_ledger.specs.Readable.{Journal, IsReadable, text_of};
ghost use Rattle.dk_groups.specs.Groups.{groups};
ghost use Rattle.dk_groups.specs.Cutting.{HasGiven, IsCutting};
ghost use Rattle.dk_picture.specs.Makings.{has_made, is_line_before, makes_child, making_of, makings, makings_in};

use dk_config::NoMemory;
use dk_groups::GroupReader;
use dk_ledger::LedgerLine;
use dk_trace::{Event, ThreadId};
use std::alloc::Global;

fn makes_child(event: Option<Event>) -> bool
    ensures { result ≡ makes_child event }
{
    matches!(event, Some(Event::Create { .. }))
}

/// Adds the group where its event makes a child.
fn push_making(makings: &mut Vec<LedgerLine>, group: LedgerLine) -> Result<(), NoMemory>
    ensures { OnOk result (makings.new.items ≡ makings.old.items ++ making_of group) }
{
    if makes_child(group.event) {
        makings.push(group)?;
    }
    Ok(())
}

fn all_makings(alloc: Global, reader: &mut GroupReader) -> Result<Vec<LedgerLine>, NoMemory>
    requires { IsCutting reader.old }
    ensures { IfOk result (λ ms. (j : Journal) → IsReadable j → HasGiven j [] reader.old
        → ms.items ≡ makings (groups reader.old.from reader.old.to j.entries)) }
{
    let mut makings = Vec::new(alloc);
    while let Some(group) = reader.next(alloc)? {
        push_making(&mut makings, group)?;
    }
    Ok(makings)
}

/// The lines before tick `to` of the ledger in these bytes whose event makes a child.
pub(crate) fn read_makings(
    alloc: Global,
    bytes: &[u8],
    to: u32,
) -> Result<Vec<LedgerLine>, NoMemory>
    requires { (j : Journal) × IsReadable j × (text_of j ≡ bytes.now) }
    ensures { IfOk result (λ ms. (j : Journal) → IsReadable j → text_of j ≡ bytes.now
        → ms.items ≡ makings_in to j.entries) }
{
    let mut reader = GroupReader::new(alloc, bytes, 0, to);
    all_makings(alloc, &mut reader)
}

/// Whether it is a line of the thread that ends before the tick.
fn is_line_before(thread: ThreadId, tick: u64, group: &LedgerLine) -> bool
    ensures { result ≡ is_line_before thread tick group.now }
{
    match group.label.thread() {
        Some(owner) => { thread.is_same(owner) && group.start as u64 + group.count as u64 <= tick }
        None => false,
    }
}

/// Whether the main made a child before the tick.
pub(crate) fn has_made(makings: &[LedgerLine], main: ThreadId, tick: u64) -> bool
    ensures { result ≡ has_made makings.now main tick }
{
    for group in makings {
        if is_line_before(main, tick, group) {
            return true;
        }
    }
    false
}
