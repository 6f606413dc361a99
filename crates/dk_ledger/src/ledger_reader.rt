//! A reader of ledgers that gives one line of entries after another.
ghost use Rattle.std.specs.Prelude.{ℕ, List, ◌≡◌, ◌==◌, ◌++◌, ◌∷◌, ◌<◌, [], true, false, length, All, IfOk, IfSome, IsErrOf, MatchOption, None};
ghost use Rattle.std.specs.List.{position};
ghost use Rattle.dk_trace.specs.declared.Entry.{Entry};
ghost use Rattle.dk_ledger.specs.declared.ledger.LedgerFault.{LedgerFault};
ghost use Rattle.dk_ledger.specs.Cuts.{entries_of};
ghost use Rattle.dk_ledger.specs.Heading.{IsPrintable};
ghost use Rattle.dk_ledger.specs.LineText.{ledger_line};
ghost use Rattle.dk_ledger.specs.Readable.{IsNoText, IsWrongLine};
ghost use Rattle.dk_ledger.specs.ReadSoFar.{HasRead, IsReading, HasReadAll, GoesFurther, IsGiven, ComesNext, TicksFit};

use crate::reader::Reader;
use crate::{Header, LedgerFault, LedgerLine};
use std::alloc::Global;
use std::marker::Model;

/// What comes before the first line feed, and what comes behind it.
fn first_line(bytes: &[u8]) -> Option<(&[u8], &[u8])>
    ensures { MatchOption result (All (λ b. (b == 10) ≡ false) bytes.now)
        (λ parts. (bytes.now ≡ parts.0.now ++ 10 ∷ parts.1.now) × All (λ b. (b == 10) ≡ false) parts.0.now) }
{
    let length = feed_at(bytes)?;
    Some((&bytes[..length], &bytes[length + 1..]))
}

/// How many bytes come before the first line feed.
fn feed_at(bytes: &[u8]) -> Option<usize>
    ensures { result ≡ position (λ b. b == 10) bytes.now }
{
    bytes.iter().position(|b| *b == b'\n')
}

/// A reader of a ledger of at most 10,000,000 ticks. It is seen as what it keeps, and what is left. Its code goes over
/// the bytes once and asks for no memory but the header's; no clause says so.
#[derive(Drop)]
pub struct LedgerReader<'a> {
    reader: Reader,
    rest: &'a [u8],
    line: u32,
}

impl<'a> Model for LedgerReader<'a> {
    ghost use Rattle.dk_ledger.specs.ReadSoFar.{Reading};

    ghost Value = { Reading };

    ghost view = { λ r. record { kept = r.reader; rest = r.rest.now; line = r.line } };
}

impl<'a> LedgerReader<'a> {
    /// A reader that has read nothing of these bytes.
    pub fn new(alloc: Global, bytes: &'a [u8]) -> LedgerReader<'a>
        ensures { HasRead bytes.now [] result }
    {
        LedgerReader {
            reader: Reader::new(alloc),
            rest: bytes,
            line: 1,
        }
    }

    /// The header, which is whole as soon as a line of entries has been given.
    pub fn header(&self) -> &Header
        ensures { result.now ≡ self.now.kept.heading }
    {
        self.reader.header()
    }

    /// The header, which is whole as soon as a line of entries has been given.
    pub fn into_header(self) -> Header
        ensures { result ≡ self.entry.kept.heading }
    {
        self.reader.into_header()
    }

    /// The next line of entries, and None behind the last, where the whole is a ledger that can be read.
    ///
    /// `Line` names the first line, counted from 1, by which the bytes are the text of no ledger that can be read, as
    /// `read_ledger` does.
    pub fn next(&mut self, alloc: Global) -> Result<Option<LedgerLine>, LedgerFault>
        requires { IsReading self.old }
        ensures given { IfOk result (λ next. IfSome next (λ line. (bytes : List ℕ) (es : List Entry)
            → HasRead bytes es self.old → HasRead bytes (es ++ entries_of line) self.new)) }
        ensures fits { IfOk result (λ next. IfSome next (IsGiven self.old self.new)) }
        ensures printable { IfOk result (λ _. IsPrintable self.new.kept.heading) }
        ensures end { IfOk result (λ next. next ≡ None → (bytes : List ℕ) (es : List Entry)
            → HasRead bytes es self.old → HasReadAll bytes es self.new.kept.heading) }
        ensures comes { IfOk result (λ next. (bytes : List ℕ) (es : List Entry)
            → HasRead bytes es self.old → ComesNext bytes es next self.new) }
        ensures line { (n : ℕ) (bytes : List ℕ) (es : List Entry) → IsErrOf result (LedgerFault.Line n)
            → HasRead bytes es self.old → IsWrongLine n bytes × IsNoText bytes }
        ensures heading { IfOk result (λ next. 0 < self.old.kept.ticks
            → self.new.kept.heading ≡ self.old.kept.heading) }
    {
        let ticks = self.reader.ticks();
        while self.take_line(alloc)? {
            if self.reader.ticks() != ticks {
                return Ok(self.reader.last());
            }
        }
        Ok(None)
    }

    /// Takes the next line, where there is one. There is none behind the end.
    ///
    /// A line of entries is mostly taken where it lies. What isn't is read by its words, which decides.
    fn take_line(&mut self, alloc: Global) -> Result<bool, LedgerFault>
        requires { IsReading self.old }
        ensures taken { IfOk result (λ more. more ≡ true → (bytes : List ℕ) (es : List Entry)
            → HasRead bytes es self.old → GoesFurther bytes es self.old self.new) }
        ensures shorter { IfOk result (λ more. more ≡ true → length self.new.rest < length self.old.rest) }
        ensures end { IfOk result (λ more. more ≡ false → (bytes : List ℕ) (es : List Entry)
            → HasRead bytes es self.old → HasReadAll bytes es self.new.kept.heading) }
        ensures same { IfOk result (λ more. more ≡ false → self.new ≡ self.old) }
        ensures line { (n : ℕ) (bytes : List ℕ) (es : List Entry) → IsErrOf result (LedgerFault.Line n)
            → HasRead bytes es self.old → IsWrongLine n bytes × IsNoText bytes }
    {
        if let Some((line, behind)) = self.reader.ticks_in(self.rest) {
            self.take_ticks(line, behind);
            return Ok(true);
        }
        self.take_words(alloc)
    }

    /// Takes this line of entries, which may come next and lies before these bytes.
    fn take_ticks(&mut self, line: LedgerLine, behind: &'a [u8])
        requires reading { IsReading self.old }
        requires fits { TicksFit self.old.kept line }
        requires text { self.old.rest ≡ ledger_line self.old.kept.heading line ++ behind.now }
        ensures taken { (bytes : List ℕ) (es : List Entry) → HasRead bytes es self.old
            → GoesFurther bytes es self.old self.new }
        ensures shorter { length self.new.rest < length self.old.rest }
    {
        self.reader.add_ticks(line);
        self.rest = behind;
        self.line += 1;
    }

    /// Takes the next line by its words, where there is one.
    fn take_words(&mut self, alloc: Global) -> Result<bool, LedgerFault>
        requires { IsReading self.old }
        ensures taken { IfOk result (λ more. more ≡ true → (bytes : List ℕ) (es : List Entry)
            → HasRead bytes es self.old → GoesFurther bytes es self.old self.new) }
        ensures shorter { IfOk result (λ more. more ≡ true → length self.new.rest < length self.old.rest) }
        ensures end { IfOk result (λ more. more ≡ false → (bytes : List ℕ) (es : List Entry)
            → HasRead bytes es self.old → HasReadAll bytes es self.new.kept.heading) }
        ensures same { IfOk result (λ more. more ≡ false → self.new ≡ self.old) }
        ensures line { (n : ℕ) (bytes : List ℕ) (es : List Entry) → IsErrOf result (LedgerFault.Line n)
            → HasRead bytes es self.old → IsWrongLine n bytes × IsNoText bytes }
    {
        let Some((text, behind)) = first_line(self.rest) else {
            return self.ended();
        };
        if !self.reader.take_line(alloc, text)? {
            return Err(LedgerFault::Line(self.line));
        }
        self.rest = behind;
        self.line += 1;
        Ok(true)
    }

    /// Whether there is more behind bytes without a line feed: no, if the end has been read.
    fn ended(&self) -> Result<bool, LedgerFault>
        requires { All (λ b. (b == 10) ≡ false) self.now.rest }
        ensures more { IfOk result (λ more. more ≡ false) }
        ensures end { IfOk result (λ more. (bytes : List ℕ) (es : List Entry) → HasRead bytes es self.now
            → HasReadAll bytes es self.now.kept.heading) }
        ensures line { (n : ℕ) (bytes : List ℕ) (es : List Entry) → IsErrOf result (LedgerFault.Line n)
            → HasRead bytes es self.now → IsWrongLine n bytes × IsNoText bytes }
    {
        if !self.reader.is_ended() || !self.rest.is_empty() {
            return Err(LedgerFault::Line(self.line));
        }
        Ok(false)
    }
}
