ghost use Rattle.std.specs.Prelude.{ℕ, ◌≡◌, ◌++◌, ◌∷◌, ◌<◌, [], length, IfOk};
ghost use Rattle.dk_ledger.specs.Readable.{Journal, IsReadable, text_of};
ghost use Rattle.dk_groups.specs.Groups.{groups};
ghost use Rattle.dk_groups.specs.Cutting.{ComesNext, IsGoingOn};
ghost use Rattle.dk_groups.specs.Writing.{Puts};
ghost use Rattle.dk_overrun_spans.specs.Marks.{AreMarks};
ghost use Rattle.dk_overrun_spans.specs.Overruns.{overruns};
ghost use Rattle.dk_csv.specs.Rows.{columns, csv_text, record_text, rows_text};

use crate::rows::row_of;
use dk_config::NoMemory;
use dk_groups::{GroupReader, WriteFault};
use dk_ledger::{LedgerLine, TextLine};
use dk_outside::Sink;
use dk_overrun_spans::Marks;
use std::alloc::Global;
use std::marker::Model;

/// The table of a ledger in a range of ticks, ready to be written. It is seen as the reader of its groups with the first
/// of them, and the marks of the windows that were overrun.
#[derive(Drop)]
pub struct CsvTable<'a> {
    reader: GroupReader<'a>,
    first: Option<LedgerLine>,
    marks: Marks,
}

impl<'a> Model for CsvTable<'a> {
    ghost use Rattle.dk_csv.specs.Tables.{Table};

    ghost Value = { Table };

    ghost view = { λ t. record { cutting = t.reader; first = t.first; marks = t.marks } };
}

impl<'a> CsvTable<'a> {
    ghost use Rattle.dk_csv.specs.Tables.{IsTableOf};

    /// The table of the ledger in these bytes, from tick `from` up to before tick `to`.
    pub fn of(alloc: Global, bytes: &'a [u8], from: u32, to: u32) -> Result<CsvTable<'a>, NoMemory>
        requires { (j : Journal) × IsReadable j × (text_of j ≡ bytes.now) }
        ensures table { IfOk result (λ t. (j : Journal) → IsReadable j → text_of j ≡ bytes.entry.now
            → IsTableOf j from to t) }
    {
        let mut reader = GroupReader::new(alloc, bytes, from, to);
        let first = reader.next(alloc)?;
        let marks = Marks::of(alloc, bytes)?;
        Ok(CsvTable {
            reader,
            first,
            marks,
        })
    }

    /// Writes the table, row by row.
    pub fn write<S: Sink>(self, alloc: Global, sink: &mut S) -> Result<(), WriteFault>
        requires { IsGoingOn self.first self.cutting }
        ensures { (j : Journal) (from to : ℕ) → IsReadable j → IsTableOf j from to self.entry
            → Puts (S.seen sink.old) (S.seen sink.new) result (csv_text from to j.heading j.entries) }
    {
        let CsvTable {
            mut reader,
            first,
            marks,
        } = self;
        column_names().write_to(sink)?;
        write_rows(&mut reader, &marks, alloc, first, sink)
    }
}

/// The names of the columns, without the line feed.
fn column_names() -> TextLine
    ensures text { result ++ 10 ∷ [] ≡ record_text columns }
    ensures len { length result < 200 }
{
    let mut text = TextLine::new();
    text.word("start,count,kind,process,serial,level,slack,from,event,arg1,arg2,arg3,overran");
    text
}

/// Writes the rows of this group, and of all groups behind it.
fn write_rows<S: Sink>(
    reader: &mut GroupReader,
    marks: &Marks,
    alloc: Global,
    first: Option<LedgerLine>,
    sink: &mut S,
) -> Result<(), WriteFault>
    requires { IsGoingOn first reader.old }
    ensures { (j : Journal) → IsReadable j → ComesNext j [] first reader.old
        → AreMarks (overruns j.heading j.entries) marks.now → Puts (S.seen sink.old) (S.seen sink.new) result
        (rows_text j.heading (overruns j.heading j.entries) (groups reader.old.from reader.old.to j.entries)) }
{
    let mut next = first;
    while let Some(group) = next {
        let overran = marks.within(group.start, group.count);
        row_of(reader.header(), overran, group).write_to(sink)?;
        next = reader.next(alloc)?;
    }
    Ok(())
}
