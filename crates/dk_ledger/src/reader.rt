ghost use Rattle.std.specs.Prelude.{◌≡◌, ◌+◌, ◌<◌, ◌≤◌, ◌++◌, ◌^◌, [], true, false, Some, None, IfOk, IfSome};
ghost use Rattle.std.specs.Bool.{Decides};
ghost use Rattle.dk_trace.specs.Ranges.{HasLabel, HasOwnEvent};
ghost use Rattle.dk_ledger.specs.declared.line.LedgerLine.{LedgerLine};
ghost use Rattle.dk_ledger.specs.Heading.{IsPrintable};
ghost use Rattle.dk_ledger.specs.LineText.{line_body, ledger_line, IsNamed};
ghost use Rattle.dk_ledger.specs.Readable.{HaveOwnNames, size_in};
ghost use Rattle.dk_ledger.specs.ReadSoFar.{Item, IsKept, Takes, TakesNone, TicksFit, EndFits, IsApart, end_body, keeping};
ghost use Rattle.dk_ledger.specs.Words.{texts, words_of, line_words};

mod header_lines;

use crate::entry_text::text_of;
use crate::in_place::line_in;
use crate::line::goes_on;
use crate::readable::{has_label, may_have};
use crate::words::{begins, line_of, words_in};
use crate::writing::end_of;
use crate::{Header, LedgerLine};
use dk_config::{MAX_RUN_TICKS, NoMemory};
use std::alloc::Global;
use std::marker::Model;

/// What is kept of the lines of a ledger that have been read: of its entries, how many they were.
#[derive(Drop)]
pub(crate) struct Reader {
    header: Header,
    ticks: u32,
    last: Option<LedgerLine>,
    is_ended: bool,
}

impl Model for Reader {
    ghost use Rattle.dk_ledger.specs.ReadSoFar.{Kept};

    ghost Value = { Kept };

    ghost view = { λ r. record { heading = r.header; ticks = r.ticks; last = r.last; ended = r.is_ended } };
}

/// Whether the line can't be joined to the one before.
fn is_apart(before: Option<LedgerLine>, line: &LedgerLine) -> bool
    ensures { Decides result (IsApart before line.now) }
{
    match before {
        None => true,
        Some(before) => !goes_on(&before, &line.label),
    }
}

impl Reader {
    /// A reader that has read nothing.
    pub(crate) fn new(alloc: Global) -> Reader
        ensures { result ≡ record {
          heading = record { levels = []; processes = [] };
          ticks = 0;
          last = None;
          ended = false;
        } }
    {
        Reader {
            header: Header {
                levels: Vec::new(alloc),
                processes: Vec::new(alloc),
            },
            ticks: 0,
            last: None,
            is_ended: false,
        }
    }

    /// Takes the next line, without its line feed, where it may come next.
    pub(crate) fn take_line(&mut self, alloc: Global, line: &[u8]) -> Result<bool, NoMemory>
        requires { IsKept self.old }
        ensures taken { IfOk result (λ taken. taken ≡ true → (i : Item) × Takes self.old line.now self.new i) }
        ensures refused { IfOk result (λ taken. taken ≡ false → TakesNone self.old line.now) }
    {
        let Ok(text) = str::from_utf8(line) else {
            return Ok(false);
        };
        let words = words_in(alloc, text)?;
        self.take_words(alloc, line, words.as_slice())
    }

    fn take_words(&mut self, alloc: Global, line: &[u8], words: &[&str]) -> Result<bool, NoMemory>
        requires part { IsKept self.old }
        requires words { texts words.now ≡ words_of line.now }
        ensures taken { IfOk result (λ taken. taken ≡ true → (i : Item) × Takes self.old line.now self.new i) }
        ensures refused { IfOk result (λ taken. taken ≡ false → TakesNone self.old line.now) }
    {
        if begins(words, "level") {
            return self.take_level(line, words);
        }
        if begins(words, "process") {
            return self.take_process(alloc, line, words);
        }
        if begins(words, "end") {
            return Ok(self.take_end(line));
        }
        Ok(self.take_ticks(line, words))
    }

    fn take_end(&mut self, line: &[u8]) -> bool
        requires { self.old.ticks ≤ MAX_RUN_TICKS }
        ensures taken { result ≡ true → Takes self.old line.now self.new Item.End }
        ensures refused { result ≡ false → EndFits self.old → line.now ≡ end_body self.old.ticks → ⊥ }
    {
        if !self.is_next_end(line) {
            return false;
        }
        self.is_ended = true;
        true
    }

    /// Whether the line of the end is this one, and may come next.
    fn is_next_end(&self, line: &[u8]) -> bool
        requires { self.now.ticks ≤ MAX_RUN_TICKS }
        ensures { Decides result (EndFits self.now × (line.now ≡ end_body self.now.ticks)) }
    {
        !self.is_ended && !self.header.processes.is_empty() && end_of(self.ticks).is(line)
    }

    /// The line of entries that the bytes begin with, where it is read in place and may come next, and what comes behind.
    pub(crate) fn ticks_in<'a>(&self, bytes: &'a [u8]) -> Option<(LedgerLine, &'a [u8])>
        requires { IsKept self.now }
        ensures fits { IfSome result (λ found. TicksFit self.now found.0) }
        ensures text { IfSome result (λ found. bytes.now ≡ ledger_line self.now.heading found.0 ++ found.1.now) }
    {
        let (line, behind) = line_in(&self.header, bytes)?;
        if !self.fits_ticks(&line) {
            return None;
        }
        Some((line, behind))
    }

    fn take_ticks(&mut self, line: &[u8], words: &[&str]) -> bool
        requires part { IsKept self.old }
        requires words { texts words.now ≡ words_of line.now }
        ensures taken { result ≡ true → (i : Item) × Takes self.old line.now self.new i }
        ensures refused { result ≡ false → (l : LedgerLine) → TicksFit self.old l
            → line.now ≡ line_body self.old.heading l → ⊥ }
    {
        let Some(next) = self.ticks_of(words) else {
            return false;
        };
        if !self.is_next_ticks(&next, line) {
            return false;
        }
        self.add_ticks(next);
        true
    }

    /// The line of entries of which these are the words.
    fn ticks_of(&self, words: &[&str]) -> Option<LedgerLine>
        requires printable { IsPrintable self.now.heading }
        requires own_names { HaveOwnNames self.now.heading }
        ensures found { (line : LedgerLine) → HasLabel (size_in self.now.heading) line.label
            → HasOwnEvent (size_in self.now.heading) line.label line.event → line.start < 2 ^ 32
            → line.count < 2 ^ 32 → texts words.now ≡ line_words self.now.heading line → result ≡ Some line }
        ensures named { IfSome result (λ line. IsNamed self.now.heading line.label) }
    {
        line_of(&self.header, words)
    }

    pub(crate) fn add_ticks(&mut self, line: LedgerLine)
        requires start { line.start ≡ self.old.ticks }
        requires short { line.start + line.count ≤ MAX_RUN_TICKS }
        ensures { self.new ≡ keeping self.old (Item.Ticks line) }
    {
        self.ticks += line.count;
        self.last = Some(line);
    }

    /// Whether the line of entries is this one, and may come next.
    fn is_next_ticks(&self, next: &LedgerLine, line: &[u8]) -> bool
        requires printable { IsPrintable self.now.heading }
        requires named { IsNamed self.now.heading next.now.label }
        requires short { self.now.ticks ≤ MAX_RUN_TICKS }
        ensures { Decides result (TicksFit self.now next.now × (line.now ≡ line_body self.now.heading next.now)) }
    {
        self.fits_ticks(next) && text_of(&self.header, *next).is(line)
    }

    /// Whether the line may come next.
    fn fits_ticks(&self, line: &LedgerLine) -> bool
        requires named { IsNamed self.now.heading line.now.label }
        requires short { self.now.ticks ≤ MAX_RUN_TICKS }
        ensures { Decides result (TicksFit self.now line.now) }
    {
        !self.is_ended
            && line.start == self.ticks
            && line.count > 0
            && line.start as u64 + line.count as u64 <= MAX_RUN_TICKS as u64
            && !self.header.processes.is_empty()
            && has_label(&self.header, line.label)
            && may_have(&self.header, line.label, line.event)
            && is_apart(self.last, line)
    }

    /// The lines of the header that have been read.
    pub(crate) fn header(&self) -> &Header
        ensures { result.now ≡ self.now.heading }
    {
        &self.header
    }

    /// The lines of the header that have been read.
    pub(crate) fn into_header(self) -> Header
        ensures { result ≡ self.heading }
    {
        self.header
    }

    /// How many entries have been read.
    pub(crate) fn ticks(&self) -> u32
        ensures { result ≡ self.now.ticks }
    {
        self.ticks
    }

    /// The last line of entries that has been read.
    pub(crate) fn last(&self) -> Option<LedgerLine>
        ensures { result ≡ self.now.last }
    {
        self.last
    }

    /// Whether the line of the end has been read.
    pub(crate) fn is_ended(&self) -> bool
        ensures { result ≡ self.now.ended }
    {
        self.is_ended
    }
}
