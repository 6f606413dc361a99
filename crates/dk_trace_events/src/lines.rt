//! What the lines up to the range's end add, each behind the lines before it.
ghost use Rattle.std.specs.Prelude.{List, ◌≡◌, ◌+◌, ◌<◌, ◌^◌, [], IfOk};
ghost use Rattle.dk_outside.specs.Written.{Writes};
ghost use Rattle.dk_ledger.specs.declared.line.LedgerLine.{LedgerLine as Line};
ghost use Rattle.dk_ledger.specs.Heading.{IsPrintable};
ghost use Rattle.dk_ledger.specs.LineText.{IsNamed};
ghost use Rattle.dk_ledger.specs.Readable.{Journal, IsReadable};
ghost use Rattle.dk_groups.specs.Groups.{groups};
ghost use Rattle.dk_groups.specs.Cutting.{ComesNext};
ghost use Rattle.dk_groups.specs.Writing.{Puts};
ghost use Rattle.dk_holds.specs.Holds.{AreHolders};
ghost use Rattle.dk_trace_events.specs.Behind.{AreKnown, StandsFirst, line_text, lines_text, past_of};

use crate::holds::write_ended_holds;
use crate::names::write_made;
use dk_config::MAX_MUTEXES;
use dk_groups::{GroupReader, WriteFault};
use dk_holds::Holders;
use dk_ledger::{Header, LedgerLine};
use dk_outside::{Sink, SinkError};
use std::alloc::Global;

/// Writes what the line adds.
fn write_line<S: Sink>(
    header: &Header,
    from: u32,
    holders: &Holders,
    line: LedgerLine,
    sink: &mut S,
) -> Result<(), SinkError>
    requires printable { IsPrintable header.now }
    requires named { IsNamed header.now line.label }
    requires known { AreKnown header.now holders.now }
    requires short { line.start + line.count < 2 ^ 32 }
    ensures { (before : List Line) → AreHolders (past_of before) holders.now
        → Writes (S.seen sink.old) (S.seen sink.new) result (line_text header.now from before line) }
{
    write_made(header, line, sink)?;
    write_ended_holds(MAX_MUTEXES as u8, holders, header, from, &line, sink)
}

/// Writes what this line and all lines behind it add, and gives the holders behind them.
pub(crate) fn write_lines<S: Sink>(
    header: &Header,
    from: u32,
    reader: &mut GroupReader,
    alloc: Global,
    first: Option<LedgerLine>,
    sink: &mut S,
) -> Result<Holders, WriteFault>
    requires printable { IsPrintable header.now }
    requires start { StandsFirst header.now first reader.old }
    requires zero { reader.old.from ≡ 0 }
    ensures text { (j : Journal) → IsReadable j → ComesNext j [] first reader.old
        → Puts (S.seen sink.old) (S.seen sink.new) result
        (lines_text header.now from (groups reader.old.from reader.old.to j.entries)) }
    ensures holders { IfOk result (λ holders. (j : Journal) → IsReadable j → ComesNext j [] first reader.old
        → AreHolders (past_of (groups reader.old.from reader.old.to j.entries)) holders) }
{
    let mut holders = Holders::new();
    let mut next = first;
    while let Some(line) = next {
        write_line(header, from, &holders, line, sink)?;
        holders.step(&line);
        next = reader.next(alloc)?;
    }
    Ok(holders)
}
