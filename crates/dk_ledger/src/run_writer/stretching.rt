//! Entries of one label, taken all at once.
ghost use Rattle.std.specs.Prelude.{◌≡◌, ◌+◌, ◌^◌, ◌<◌, IfSome};
ghost use Rattle.std.specs.Option.{option_map};
ghost use Rattle.dk_ledger.specs.Stretches.{lengthened};
ghost use Rattle.dk_ledger.specs.declared.line.LedgerLine.{LedgerLine as Line};

use super::RunWriter;
use crate::{Header, LedgerLine};
use dk_config::MAX_TICKS;
use dk_outside::{Sink, SinkError};
use dk_trace::{Entry, Event};

impl RunWriter {
    ghost use Rattle.std.specs.Prelude.{List, ◌≡◌, ◌+◌, ◌<◌, ◌≤◌, ◌++◌, Some, None, IfSome, OnOk, OnErr};
    ghost use Rattle.std.specs.Option.{option_map};
    ghost use Rattle.dk_outside.specs.Written.{Writes};
    ghost use Rattle.dk_trace.specs.declared.Entry.{Entry};
    ghost use Rattle.dk_ledger.specs.Heading.{IsPrintable};
    ghost use Rattle.dk_ledger.specs.LineText.{IsNamed};
    ghost use Rattle.dk_ledger.specs.Ledgers.{IsAfter, IsDraftOf, closing_text, closed_text};
    ghost use Rattle.dk_ledger.specs.Stretches.{last_after_stretch, lengthened, stretch_of};
    ghost use Rattle.dk_ledger.specs.declared.line.LedgerLine.{LedgerLine as Line};

    /// Takes the entries of the next ticks, so many, all of the label of this one, which is the last of them and alone
    /// may have an event. It writes the last line where they don't go on it.
    #[inline(always)]
    pub fn stretch<S: Sink>(
        &mut self,
        header: &Header,
        count: u32,
        entry: Entry,
        sink: &mut S,
    ) -> Result<(), SinkError>
        requires some { 1 ≤ count }
        requires printable { IsPrintable header.now }
        requires named { IsNamed header.now entry.label }
        requires last_named { IfSome self.old.progress.last (λ l. IsNamed header.now l.label) }
        requires few { self.old.progress.entries + count ≤ MAX_TICKS }
        requires draft { IsDraftOf header.now self.old }

        ensures next { OnOk result (self.new.progress
            ≡ record {
              entries = self.old.progress.entries + count;
              last = Some
                  (last_after_stretch self.old.progress.last self.old.progress.entries count entry);
            }) }
        ensures wrote { Writes (S.seen sink.old) (S.seen sink.new) result
            (closing_text header.now self.old.progress.last entry) }
        ensures draft { IsDraftOf header.now self.new }

        // For each list of entries after which the writer may be, it is then after that list and
        // these entries, and the text closed so far has grown by what was appended.
        ensures after { (es : List Entry) → IsAfter es self.old.progress
            → OnOk result (IsAfter (es ++ stretch_of count entry) self.new.progress) }
        ensures text { (es : List Entry) → IsAfter es self.old.progress
            → closed_text header.now (es ++ stretch_of count entry) ≡ closed_text header.now es
            ++ closing_text header.now self.old.progress.last entry }
        ensures named_after { OnOk result (IfSome self.new.progress.last (λ l. IsNamed header.now l.label)) }

        // After a failed write it is as far as it was.
        ensures kept { OnErr result (self.new.progress ≡ self.old.progress) }
    {
        if count == 1 {
            return self.entry(header, entry, sink);
        }
        self.several(header, count, entry, sink)
    }

    /// The same with two entries or more: the first of them begins a line or goes on the last one, and the others are
    /// counted.
    #[inline(never)]
    fn several<S: Sink>(
        &mut self,
        header: &Header,
        count: u32,
        entry: Entry,
        sink: &mut S,
    ) -> Result<(), SinkError>
        requires some { 2 ≤ count }
        requires printable { IsPrintable header.now }
        requires named { IsNamed header.now entry.label }
        requires last_named { IfSome self.old.progress.last (λ l. IsNamed header.now l.label) }
        requires few { self.old.progress.entries + count ≤ MAX_TICKS }
        requires draft { IsDraftOf header.now self.old }
        ensures next { OnOk result (self.new.progress
            ≡ record {
              entries = self.old.progress.entries + count;
              last = Some
                  (last_after_stretch self.old.progress.last self.old.progress.entries count entry);
            }) }
        ensures wrote { Writes (S.seen sink.old) (S.seen sink.new) result
            (closing_text header.now self.old.progress.last entry) }
        ensures draft { IsDraftOf header.now self.new }
        ensures kept { OnErr result (self.new.progress ≡ self.old.progress) }
    {
        let first = Entry {
            label: entry.label,
            event: None,
        };
        self.entry(header, first, sink)?;
        self.lengthen(count - 1, &entry.event);
        Ok(())
    }

    /// So many entries more of the last line's label go on that line, the last of them with this event.
    #[inline(always)]
    pub(super) fn lengthen(&mut self, more: u32, event: &Option<Event>)
        requires { self.old.progress.entries + more ≤ MAX_TICKS }
        ensures next { self.new.progress ≡ record {
          entries = self.old.progress.entries + more;
          last = option_map (λ (l : Line). lengthened l more event.now) self.old.progress.last;
        } }
        ensures draft { self.new.draft ≡ None }
    {
        lengthen(&mut self.last, more, event);
        self.entries += more;
        self.is_ready = false;
    }
}

/// The line has so many entries more, the last of them with this event.
#[inline(always)]
fn lengthen(last: &mut Option<LedgerLine>, more: u32, event: &Option<Event>)
    requires { IfSome last.old (λ l. l.count + more < 2 ^ 32) }
    ensures { last.new ≡ option_map (λ (l : Line). lengthened l more event.now) last.old }
{
    if let Some(line) = last {
        line.count += more;
        line.event = *event;
    }
}
