ghost use Rattle.std.specs.Prelude.{ℕ, ◌≡◌, ◌<◌, ◌++◌, [], length, reverse, take, IfOk, None};
ghost use Rattle.dk_ledger.specs.Heading.{IsPrintable};
ghost use Rattle.dk_ledger.specs.Readable.{Journal, IsReadable, text_of};
ghost use Rattle.dk_groups.specs.Groups.{groups};
ghost use Rattle.dk_groups.specs.Cutting.{ComesNext, IsGoingOn};
ghost use Rattle.dk_groups.specs.Writing.{Puts};
ghost use Rattle.dk_holds.specs.Holds.{AreHolders};
ghost use Rattle.dk_overrun_spans.specs.Marks.{AreMarks};
ghost use Rattle.dk_overrun_spans.specs.Overruns.{overruns};
ghost use Rattle.dk_vcd.specs.Changes.{changes_text, time_text};
ghost use Rattle.dk_vcd.specs.Dumps.{tail_text, vcd_text};

use crate::changes::write_group;
use crate::opening::write_head;
use dk_config::NoMemory;
use dk_groups::{GroupReader, WriteFault, header_of};
use dk_hold_spans::read_holders;
use dk_holds::Holders;
use dk_ledger::{Header, LedgerLine, TextLine};
use dk_outside::Sink;
use dk_overrun_spans::Marks;
use std::alloc::Global;
use std::marker::Model;

/// The dump of a ledger in a range of ticks, ready to be written. It is seen as the header, the reader of the groups with
/// the first of them, the holds of the mutexes before it, the marks of the windows that were overrun, and the range's end.
#[derive(Drop)]
pub struct Dump<'a> {
    header: Header,
    groups: GroupReader<'a>,
    first: Option<LedgerLine>,
    holders: Holders,
    marks: Marks,
    end: u32,
}

impl<'a> Model for Dump<'a> {
    ghost use Rattle.dk_vcd.specs.Dumps.{Dumping};

    ghost Value = { Dumping };

    ghost view = { λ d. record { heading = d.header; groups = d.groups; first = d.first; holders = d.holders; marks = d.marks; end = d.end } };
}

impl<'a> Dump<'a> {
    ghost use Rattle.dk_vcd.specs.Dumps.{IsDumpOf};

    /// The dump of the ledger in these bytes, from tick `from` up to before tick `to`.
    pub fn of(alloc: Global, bytes: &'a [u8], from: u32, to: u32) -> Result<Dump<'a>, NoMemory>
        requires { (j : Journal) × IsReadable j × (text_of j ≡ bytes.now) }
        ensures dump { IfOk result (λ d. (j : Journal) → IsReadable j → text_of j ≡ bytes.entry.now
            → IsDumpOf j from to d) }
        ensures printable { IfOk result (λ d. IsPrintable d.heading) }
    {
        let header = header_of(alloc, bytes)?;
        let mut groups = GroupReader::new(alloc, bytes, from, to);
        let first = groups.next(alloc)?;
        let holders = holders_at(alloc, bytes, from)?;
        let marks = Marks::of(alloc, bytes)?;
        Ok(Dump {
            header,
            groups,
            first,
            holders,
            marks,
            end: to,
        })
    }

    /// Writes the dump, group by group.
    pub fn write<S: Sink>(self, alloc: Global, sink: &mut S) -> Result<(), WriteFault>
        requires printable { IsPrintable self.heading }
        requires groups { IsGoingOn self.first self.groups }
        ensures { (j : Journal) (from to : ℕ) → IsReadable j → IsDumpOf j from to self.entry
            → Puts (S.seen sink.old) (S.seen sink.new) result (vcd_text from to j.heading j.entries) }
    {
        let Dump {
            header,
            mut groups,
            first,
            holders,
            marks,
            end,
        } = self;
        write_head(&header, &holders, sink)?;
        write_changes(&mut groups, first, holders, &marks, end, alloc, sink)
    }
}

/// Who holds each mutex behind the ledger's entries before the tick.
fn holders_at(alloc: Global, bytes: &[u8], tick: u32) -> Result<Holders, NoMemory>
    requires { (j : Journal) × IsReadable j × (text_of j ≡ bytes.now) }
    ensures { IfOk result (λ rows. (j : Journal) → IsReadable j → text_of j ≡ bytes.now
        → AreHolders (reverse (take tick j.entries)) rows) }
{
    // A reader of no ticks would read all lines.
    if tick == 0 {
        return Ok(Holders::new());
    }
    read_holders(alloc, bytes, tick)
}

fn time_of(tick: u32) -> TextLine
    ensures text { result ≡ time_text tick }
    ensures len { length result < 200 }
{
    let mut text = TextLine::new();
    text.word("#");
    text.number(tick);
    text
}

fn write_tail<S: Sink>(end: u32, sink: &mut S) -> Result<(), WriteFault>
    ensures { Puts (S.seen sink.old) (S.seen sink.new) result (tail_text end) }
{
    time_of(end).write_to(sink)?;
    Ok(())
}

/// Writes the changes, and the time at which the range ends.
fn write_changes<S: Sink>(
    reader: &mut GroupReader,
    first: Option<LedgerLine>,
    holders: Holders,
    marks: &Marks,
    end: u32,
    alloc: Global,
    sink: &mut S,
) -> Result<(), WriteFault>
    requires { IsGoingOn first reader.old }
    ensures { (j : Journal) → IsReadable j → ComesNext j [] first reader.old
        → AreHolders (reverse (take reader.old.from j.entries)) holders → AreMarks (overruns j.heading j.entries) marks.now
        → Puts (S.seen sink.old) (S.seen sink.new) result (changes_text j.heading j.entries None
        (groups reader.old.from reader.old.to j.entries) ++ tail_text end) }
{
    write_groups(reader, alloc, first, holders, marks, sink)?;
    write_tail(end, sink)
}

/// Writes what changes at this group, and at all groups behind it.
fn write_groups<S: Sink>(
    reader: &mut GroupReader,
    alloc: Global,
    first: Option<LedgerLine>,
    mut holders: Holders,
    marks: &Marks,
    sink: &mut S,
) -> Result<(), WriteFault>
    requires { IsGoingOn first reader.old }
    ensures { (j : Journal) → IsReadable j → ComesNext j [] first reader.old
        → AreHolders (reverse (take reader.old.from j.entries)) holders → AreMarks (overruns j.heading j.entries) marks.now
        → Puts (S.seen sink.old) (S.seen sink.new) result
        (changes_text j.heading j.entries None (groups reader.old.from reader.old.to j.entries)) }
{
    let mut before = None;
    let mut next = first;
    while let Some(group) = next {
        let overran = marks.within(group.start, group.count);
        write_group(reader.header(), overran, before, group, &holders, sink)?;
        holders.step(&group);
        before = next;
        next = reader.next(alloc)?;
    }
    Ok(())
}
