ghost use Rattle.std.specs.Prelude.{List, ◌≡◌, ◌+◌, ◌^◌, ◌<◌, ◌++◌, ◌∷◌, [], length, take, true, decimal, Some, None, IfSome, OnOk, OnErr};
ghost use Rattle.std.specs.Option.{option_map};
ghost use Rattle.dk_outside.specs.Written.{Writes};
ghost use Rattle.dk_trace.specs.declared.Entry.{Entry};
ghost use Rattle.dk_ledger.specs.Heading.{IsPrintable};
ghost use Rattle.dk_ledger.specs.LineText.{IsNamed, ledger_line};
ghost use Rattle.dk_ledger.specs.Ledgers.{IsAfter, IsDraftOf, last_after, closing_text, closed_text, ending_text, entries_text};
ghost use Rattle.dk_ledger.specs.Lines.{single};
ghost use Rattle.dk_ledger.specs.declared.line.LedgerLine.{LedgerLine as Line};

mod stretching;

use crate::entry_text::push_rest;
use crate::line::{first_of, goes_on, is_like};
use crate::writing::{end_of, write_last};
use crate::{Header, LedgerLine, TextLine};
use dk_config::MAX_TICKS;
use dk_outside::{Sink, SinkError, write_all_to};
use dk_trace::Entry;
use std::marker::Model;

/// Writes the lines of a ledger after its header as the entries come, all under one header. It needs no memory.
///
/// It is seen as how far it is, and as the text of the last line where that is ready: where an entry differs from the
/// line before in its tick alone, the line's text stays, and its tick is counted up where it stands. A write that failed
/// leaves it as far as it was, with a prefix of the line written.
#[derive(Drop)]
pub struct RunWriter {
    entries: u32,
    last: Option<LedgerLine>,
    /// Where lines are made. Where there is a last line, it begins with the tick of that.
    text: TextLine,
    /// How many digits that tick has.
    digits: usize,
    /// Whether the text is that of the whole last line, with its line feed.
    is_ready: bool,
}

impl Model for RunWriter {
    ghost use Rattle.std.specs.Prelude.{◌≡◌, ◌+◌, length, take, decimal, Some, None, if◌then◌else◌};
    ghost use Rattle.std.specs.Option.{ForSome};
    ghost use Rattle.dk_ledger.specs.Ledgers.{Drafted};

    ghost Value = { Drafted };

    ghost view = { λ w. record {
      progress = record { entries = w.entries; last = w.last };
      draft = if w.is_ready then (Some w.text) else None;
    } };

    ghost invariant = { λ w. ForSome w.last
        (λ l. (l.start + l.count ≡ w.entries) × (w.digits ≡ length (decimal l.start))
        × (take w.digits w.text ≡ decimal l.start)) };
}

impl RunWriter {
    /// A writer that has had no entry.
    pub fn new() -> RunWriter
        ensures start { result.progress ≡ record { entries = 0; last = None } }
        ensures draft { result.draft ≡ None }
        ensures after { IsAfter [] result.progress }
    {
        RunWriter {
            entries: 0,
            last: None,
            text: TextLine::new(),
            digits: 0,
            is_ready: false,
        }
    }

    /// Takes the entry of the next tick. It writes the last line where the entry doesn't go on it.
    #[inline(always)]
    pub fn entry<S: Sink>(
        &mut self,
        header: &Header,
        entry: Entry,
        sink: &mut S,
    ) -> Result<(), SinkError>
        requires printable { IsPrintable header.now }
        requires named { IsNamed header.now entry.label }
        requires last_named { IfSome self.old.progress.last (λ l. IsNamed header.now l.label) }
        requires few { self.old.progress.entries < MAX_TICKS }
        requires draft { IsDraftOf header.now self.old }

        ensures next { OnOk result (self.new.progress
            ≡ record {
              entries = self.old.progress.entries + 1;
              last = Some
                  (last_after self.old.progress.last self.old.progress.entries entry);
            }) }
        ensures wrote { Writes (S.seen sink.old) (S.seen sink.new) result
            (closing_text header.now self.old.progress.last entry) }
        ensures draft { IsDraftOf header.now self.new }

        // For each list of entries after which the writer may be, it is then after that list and
        // the entry, and the text closed so far has grown by what was appended.
        ensures after { (es : List Entry) → IsAfter es self.old.progress
            → OnOk result (IsAfter (es ++ entry ∷ []) self.new.progress) }
        ensures text { (es : List Entry) → IsAfter es self.old.progress
            → closed_text header.now (es ++ entry ∷ []) ≡ closed_text header.now es
            ++ closing_text header.now self.old.progress.last entry }
        ensures named_after { OnOk result (IfSome self.new.progress.last (λ l. IsNamed header.now l.label)) }
        // After a failed write it is as far as it was.
        ensures kept { OnErr result (self.new.progress ≡ self.old.progress) }
    {
        if let Some(line) = &self.last {
            if goes_on(line, &entry.label) {
                self.lengthen(1, &entry.event);
                return Ok(());
            }
            let is_ready = self.is_ready;
            end_line(&mut self.text, self.digits, is_ready, header, line);
            self.is_ready = true;
            write_all_to(sink, self.text.as_bytes())?;
            if is_like(line, &entry) && self.text.count_up(self.digits, line.start) {
                move_on(&mut self.last, self.entries);
                self.entries += 1;
                return Ok(());
            }
        }
        self.begin(&entry);
        Ok(())
    }

    /// The entry begins a line. It is copied here and nowhere else.
    #[inline(never)]
    fn begin(&mut self, entry: &Entry)
        requires { self.old.progress.entries < MAX_TICKS }
        ensures next { self.new.progress ≡ record {
          entries = self.old.progress.entries + 1;
          last = Some (single self.old.progress.entries entry.now);
        } }
        ensures draft { self.new.draft ≡ None }
    {
        self.digits = put_tick(&mut self.text, self.digits, &self.last, self.entries);
        restart(&mut self.last, self.entries, entry);
        self.entries += 1;
        self.is_ready = false;
    }

    /// Writes the last line, if there is one, and the line of the end.
    pub fn finish<S: Sink>(self, header: &Header, sink: &mut S) -> Result<(), SinkError>
        requires printable { IsPrintable header.now }
        requires last_named { IfSome self.progress.last (λ l. IsNamed header.now l.label) }
        ensures wrote { Writes (S.seen sink.old) (S.seen sink.new) result
            (ending_text header.now self.progress) }

        // With that the text is whole, for each list of entries after which the writer may be.
        ensures text { (es : List Entry) → IsAfter es self.progress
            → closed_text header.now es ++ ending_text header.now self.progress ≡ entries_text header.now es }
    {
        write_last(header, self.last, sink)?;
        end_of(self.entries).write_to(sink)
    }
}

/// The text that begins with the line's tick becomes that of the whole line, unless it is that already.
#[inline(always)]
fn end_line(text: &mut TextLine, digits: usize, is_ready: bool, header: &Header, line: &LedgerLine)
    requires printable { IsPrintable header.now }
    requires named { IsNamed header.now line.now.label }
    requires small { line.now.start < 2 ^ 32 }
    requires all { digits ≡ length (decimal line.now.start) }
    requires start { take digits text.old ≡ decimal line.now.start }
    requires ready { is_ready ≡ true → text.old ≡ ledger_line header.now line.now }
    ensures whole { text.new ≡ ledger_line header.now line.now }
    ensures start { take digits text.new ≡ decimal line.now.start }
{
    if !is_ready {
        make_line(text, digits, header, line);
    }
}

/// The text that begins with the line's tick becomes that of the whole line, with its line feed.
#[inline(never)]
fn make_line(text: &mut TextLine, digits: usize, header: &Header, line: &LedgerLine)
    requires printable { IsPrintable header.now }
    requires named { IsNamed header.now line.now.label }
    requires small { line.now.start < 2 ^ 32 }
    requires all { digits ≡ length (decimal line.now.start) }
    requires start { take digits text.old ≡ decimal line.now.start }
    ensures { text.new ≡ ledger_line header.now line.now }
{
    text.truncate(digits);
    push_rest(text, header, line);
    text.word("\n");
}

/// The line begins at this tick.
#[inline(always)]
fn move_on(last: &mut Option<LedgerLine>, tick: u32)
    ensures { last.new ≡ option_map (λ (l : Line). record l { start = tick }) last.old }
{
    if let Some(line) = last {
        line.start = tick;
    }
}

/// The line is that of one entry from this tick on. Where there is one, its parts are written in place.
#[inline(always)]
fn restart(last: &mut Option<LedgerLine>, tick: u32, entry: &Entry)
    ensures { last.new ≡ Some (single tick entry.now) }
{
    match last {
        Some(line) => {
            line.start = tick;
            line.count = 1;
            line.label = entry.label;
            line.event = entry.event;
        }
        None => *last = Some(first_of(tick, *entry)),
    }
}

/// Has the text begin with the tick after the last line, counted up where it can be, and tells how many digits it has.
#[inline(always)]
fn put_tick(text: &mut TextLine, digits: usize, last: &Option<LedgerLine>, tick: u32) -> usize
    requires all { IfSome last.now (λ l. digits ≡ length (decimal l.start)) }
    requires before { IfSome last.now (λ l. take digits text.old ≡ decimal l.start) }
    requires after { IfSome last.now (λ l. l.start + l.count ≡ tick) }
    ensures all { result ≡ length (decimal tick) }
    ensures number { take result text.new ≡ decimal tick }
{
    if let Some(line) = last {
        if line.count == 1 && text.step_up(digits, line.start) {
            return digits;
        }
    }
    put_whole_tick(text, tick)
}

/// Has the text begin with the tick, and tells how many digits that has.
#[inline(never)]
fn put_whole_tick(text: &mut TextLine, tick: u32) -> usize
    ensures all { result ≡ length (decimal tick) }
    ensures number { take result text.new ≡ decimal tick }
{
    text.truncate(0);
    text.number(tick);
    text.len()
}
