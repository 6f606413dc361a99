//! The holds of a range, as a list.
ghost use Rattle.std.specs.Prelude.{ℕ, List, ◌≡◌, ◌+◌, ◌<◌, ◌^◌, ◌++◌, IfOk, OnOk, length, reverse, take};
ghost use Rattle.dk_trace.specs.declared.Entry.{Entry};
ghost use Rattle.dk_ledger.specs.Cuts.{entries_of};
ghost use Rattle.dk_ledger.specs.Readable.{Journal, IsReadable, text_of};
ghost use Rattle.dk_holds.specs.Holds.{AreHolders};
ghost use Rattle.dk_hold_spans.specs.HoldLists.{ended_holds, holds_in};

use crate::hold::Hold;
use crate::listing::{push_ended, push_open};
use dk_config::NoMemory;
use dk_groups::GroupReader;
use dk_holds::Holders;
use dk_ledger::LedgerLine;
use std::alloc::Global;

/// Adds the holds that the line ends.
fn push_ends(
    holds: &mut Vec<Hold>,
    holders: &Holders,
    from: u32,
    line: &LedgerLine,
) -> Result<(), NoMemory>
    requires some { 0 < line.now.count }
    requires short { line.now.start + line.now.count < 2 ^ 32 }
    ensures { OnOk result ((es : List Entry) → line.now.start ≡ length es
        → AreHolders (reverse es) holders.now → holds.old.items ≡ ended_holds from (reverse es)
        → holds.new.items ≡ ended_holds from (reverse (es ++ entries_of line.now))) }
{
    if line.event.is_none() {
        return Ok(());
    }
    push_ended(holds, from, holders, line)
}

/// Goes on behind the line, with the holds that it ends.
fn push_line(
    holds: &mut Vec<Hold>,
    holders: &mut Holders,
    from: u32,
    line: &LedgerLine,
) -> Result<(), NoMemory>
    requires some { 0 < line.now.count }
    requires short { line.now.start + line.now.count < 2 ^ 32 }
    ensures holders { OnOk result ((es : List Entry) → line.now.start ≡ length es
        → AreHolders (reverse es) holders.old → AreHolders (reverse (es ++ entries_of line.now)) holders.new) }
    ensures holds { OnOk result ((es : List Entry) → line.now.start ≡ length es
        → AreHolders (reverse es) holders.old → holds.old.items ≡ ended_holds from (reverse es)
        → holds.new.items ≡ ended_holds from (reverse (es ++ entries_of line.now))) }
{
    push_ends(holds, holders, from, line)?;
    holders.step(line);
    Ok(())
}

/// The holds of the ledger in these bytes from tick `from` up to before tick `to`, in the order of their ends; those
/// that end in one tick are in the order of their mutexes. All memory is taken here.
pub fn read_holds(alloc: Global, bytes: &[u8], from: u32, to: u32) -> Result<Vec<Hold>, NoMemory>
    requires { (j : Journal) × IsReadable j × (text_of j ≡ bytes.now) }
    ensures holds { IfOk result (λ holds. (j : Journal) → IsReadable j → text_of j ≡ bytes.now
        → holds.items ≡ holds_in from to j.entries) }
    ensures few { IfOk result (λ holds. length holds.items < 2 ^ 32) }
{
    let mut reader = GroupReader::new(alloc, bytes, 0, to);
    let mut holders = Holders::new();
    let mut holds = Vec::new(alloc);
    let mut ticks = 0;
    while let Some(line) = reader.next(alloc)? {
        push_line(&mut holds, &mut holders, from, &line)?;
        ticks = line.start + line.count;
    }
    push_open(&mut holds, from, &holders, ticks)?;
    Ok(holds)
}

/// Who holds each mutex behind the ledger's entries before this tick.
pub fn read_holders(alloc: Global, bytes: &[u8], tick: u32) -> Result<Holders, NoMemory>
    requires { (j : Journal) × IsReadable j × (text_of j ≡ bytes.now) }
    ensures { IfOk result (λ rows. (j : Journal) → IsReadable j → text_of j ≡ bytes.now
        → AreHolders (reverse (take tick j.entries)) rows) }
{
    let mut reader = GroupReader::new(alloc, bytes, 0, tick);
    let mut holders = Holders::new();
    while let Some(line) = reader.next(alloc)? {
        holders.step(&line);
    }
    Ok(holders)
}
