ghost use Rattle.std.specs.Prelude.{List, ◌≡◌, ◌+◌, ◌<◌, ◌++◌, ◌∷◌, [], length, Some, None, IfSome, OnOk, OnErr};
ghost use Rattle.dk_outside.specs.Written.{Writes};
ghost use Rattle.dk_trace.specs.declared.Entry.{Entry as TickEntry};
ghost use Rattle.dk_ledger.specs.Heading.{IsPrintable};
ghost use Rattle.dk_ledger.specs.LineText.{IsNamed};
ghost use Rattle.dk_ledger.specs.Ledgers.{IsAfter, closed_text, closing_text, ending_text, entries_text, last_after, last_text};

use dk_config::MAX_TICKS;
use dk_ledger::{Header, LedgerLine, end_of, first_of, goes_on, text_of};
use dk_outside::{Sink, SinkError};
use dk_trace::Entry;
use std::marker::Model;

/// Writes the lines of a ledger after its header as the entries come. It needs no memory.
///
/// It is seen as the number of entries so far and the last line, which is written once the next entry doesn't go on it. A
/// write that failed leaves it as it was, with a prefix of the line written. Each call may have another header.
#[derive(Drop)]
pub struct LedgerWriter {
    entries: u32,
    last: Option<LedgerLine>,
}

impl Model for LedgerWriter {
    ghost use Rattle.std.specs.Prelude.{◌≡◌, ◌+◌};
    ghost use Rattle.std.specs.Option.{ForSome};
    ghost use Rattle.dk_ledger.specs.Ledgers.{Progress};

    ghost Value = { Progress };

    ghost view = { λ w. record { entries = w.entries; last = w.last } };

    ghost invariant = { λ w. ForSome w.last (λ l. l.start + l.count ≡ w.entries) };
}

impl LedgerWriter {
    /// A writer that has had no entry.
    pub fn new() -> LedgerWriter
        ensures start { result ≡ record { entries = 0; last = None } }
        ensures after { IsAfter [] result }
    {
        LedgerWriter {
            entries: 0,
            last: None,
        }
    }

    /// Takes the entry of the next tick. It writes the last line where the entry doesn't go on it.
    pub fn entry<S: Sink>(
        &mut self,
        header: &Header,
        entry: Entry,
        sink: &mut S,
    ) -> Result<(), SinkError>
        requires printable { IsPrintable header.now }
        requires named { IsNamed header.now entry.label }
        requires last_named { IfSome self.old.last (λ l. IsNamed header.now l.label) }
        requires few { self.old.entries < MAX_TICKS }

        ensures next { OnOk result (self.new
            ≡ record {
              entries = self.old.entries + 1;
              last = Some
                  (last_after self.old.last self.old.entries entry);
            }) }
        ensures wrote { Writes (S.seen sink.old) (S.seen sink.new) result
            (closing_text header.now self.old.last entry) }

        // For each list of entries after which the writer may be, it is then after that list and
        // the entry, and the text closed so far has grown by what was appended.
        ensures after { (es : List TickEntry) → IsAfter es self.old
            → OnOk result (IsAfter (es ++ entry ∷ []) self.new) }
        ensures text { (es : List TickEntry) → IsAfter es self.old
            → closed_text header.now (es ++ entry ∷ []) ≡ closed_text header.now es
            ++ closing_text header.now self.old.last entry }
        ensures named_after { OnOk result (IfSome self.new.last (λ l. IsNamed header.now l.label)) }

        // After a failed write it is as it was.
        ensures kept { OnErr result (self.new ≡ self.old) }
    {
        write_closed(header, self.last, &entry, sink)?;
        self.last = Some(next_line(self.last, self.entries, &entry));
        self.entries += 1;
        Ok(())
    }

    /// Writes the last line, if there is one, and the line of the end.
    pub fn finish<S: Sink>(self, header: &Header, sink: &mut S) -> Result<(), SinkError>
        requires printable { IsPrintable header.now }
        requires last_named { IfSome self.last (λ l. IsNamed header.now l.label) }

        ensures wrote { Writes (S.seen sink.old) (S.seen sink.new) result (ending_text header.now self) }

        // With that the text is whole, for each list of entries after which the writer may be.
        ensures text { (es : List TickEntry) → IsAfter es self
            → closed_text header.now es ++ ending_text header.now self ≡ entries_text header.now es }
    {
        write_last(header, self.last, sink)?;
        end_of(self.entries).write_to(sink)
    }
}

/// Writes the last line where there is one and the entry doesn't go on it.
fn write_closed<S: Sink>(
    header: &Header,
    last: Option<LedgerLine>,
    entry: &Entry,
    sink: &mut S,
) -> Result<(), SinkError>
    requires printable { IsPrintable header.now }
    requires last_named { IfSome last (λ l. IsNamed header.now l.label) }
    ensures { Writes (S.seen sink.old) (S.seen sink.new) result (closing_text header.now last entry.now) }
{
    match last {
        None => Ok(()),
        Some(line) => {
            if !goes_on(&line, &entry.label) {
                return text_of(header, line).write_to(sink);
            }
            Ok(())
        }
    }
}

/// The last line after one more entry, that of this tick.
fn next_line(last: Option<LedgerLine>, tick: u32, entry: &Entry) -> LedgerLine
    requires few { tick < MAX_TICKS }
    requires span { IfSome last (λ l. l.start + l.count ≡ tick) }
    ensures line { result ≡ last_after last tick entry.now }
    ensures span { result.start + result.count ≡ tick + 1 }
{
    match last {
        None => first_of(tick, *entry),
        Some(line) => {
            if goes_on(&line, &entry.label) {
                return LedgerLine {
                    start: line.start,
                    count: line.count + 1,
                    label: line.label,
                    event: entry.event,
                };
            }
            first_of(tick, *entry)
        }
    }
}

/// Writes the last line, if there is one.
fn write_last<S: Sink>(
    header: &Header,
    last: Option<LedgerLine>,
    sink: &mut S,
) -> Result<(), SinkError>
    requires printable { IsPrintable header.now }
    requires last_named { IfSome last (λ l. IsNamed header.now l.label) }
    ensures { Writes (S.seen sink.old) (S.seen sink.new) result (last_text header.now last) }
{
    match last {
        None => Ok(()),
        Some(line) => text_of(header, line).write_to(sink),
    }
}
