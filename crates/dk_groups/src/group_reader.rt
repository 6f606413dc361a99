//! A reader of a ledger that gives the groups of a range one after another.
ghost use Rattle.std.specs.Prelude.{List, ◌≡◌, ◌++◌, ◌∷◌, ◌<◌, [], length, IfOk, IfSome, None, Some};
ghost use Rattle.dk_ledger.specs.declared.line.LedgerLine.{LedgerLine as Line};
ghost use Rattle.dk_ledger.specs.Readable.{Journal, IsReadable, text_of};
ghost use Rattle.dk_groups.specs.Groups.{groups};
ghost use Rattle.dk_groups.specs.Cutting.{ComesNext, HasGiven, HasPassed, IsCutting, IsGroupIn, IsPassed};

use crate::cutting::part_of;
use dk_config::NoMemory;
use dk_ledger::{Header, LedgerLine, LedgerReader};
use std::alloc::Global;
use std::marker::Model;

/// A reader of the groups of a ledger in the ticks from `from` up to before `to`, over its bytes once. It keeps no list
/// of them, and is seen as the reader of the ledger's lines with the range.
#[derive(Drop)]
pub struct GroupReader<'a> {
    reader: LedgerReader<'a>,
    from: u32,
    to: u32,
}

impl<'a> Model for GroupReader<'a> {
    ghost use Rattle.dk_groups.specs.Cutting.{Cutting};

    ghost Value = { Cutting };

    ghost view = { λ r. record { reading = r.reader; from = r.from; to = r.to } };
}

impl<'a> GroupReader<'a> {
    /// A reader that has read nothing of these bytes, which are the text of a ledger that can be read.
    pub fn new(alloc: Global, bytes: &'a [u8], from: u32, to: u32) -> GroupReader<'a>
        ensures nothing { (j : Journal) → text_of j ≡ bytes.now → HasGiven j [] result }
        ensures from { result.from ≡ from }
        ensures to { result.to ≡ to }
    {
        GroupReader {
            reader: LedgerReader::new(alloc, bytes),
            from,
            to,
        }
    }

    /// The header, which is that of the ledger as soon as a group has been given.
    pub fn header(&self) -> &Header
        ensures { result.now ≡ self.now.reading.kept.heading }
    {
        self.reader.header()
    }

    /// The range's first tick.
    pub fn first_tick(&self) -> u32
        ensures { result ≡ self.now.from }
    {
        self.from
    }

    /// The tick behind the range's last.
    pub fn end_tick(&self) -> u32
        ensures { result ≡ self.now.to }
    {
        self.to
    }

    /// The next group, and None behind the last.
    pub fn next(&mut self, alloc: Global) -> Result<Option<LedgerLine>, NoMemory>
        requires { IsCutting self.old }
        ensures given { IfOk result (λ next. IfSome next (λ g. (j : Journal) (gs : List Line) → IsReadable j
            → HasGiven j gs self.old → HasGiven j (gs ++ g ∷ []) self.new)) }
        ensures heading { IfOk result (λ next. IfSome next (λ g. (j : Journal) (gs : List Line) → IsReadable j
            → HasGiven j gs self.old → self.new.reading.kept.heading ≡ j.heading)) }
        ensures fits { IfOk result (λ next. IfSome next
            (IsGroupIn self.new.reading.kept.heading self.old.from self.old.to)) }
        ensures end { IfOk result (λ next. next ≡ None → (j : Journal) (gs : List Line) → IsReadable j
            → HasGiven j gs self.old → gs ≡ groups self.old.from self.old.to j.entries) }
        ensures shorter { IfOk result (λ next. IfSome next (λ _.
            length self.new.reading.rest < length self.old.reading.rest)) }
        // All of these in one.
        ensures comes { IfOk result (λ next. (j : Journal) (gs : List Line) → IsReadable j
            → HasGiven j gs self.old → ComesNext j gs next self.new) }
        ensures from { self.new.from ≡ self.old.from }
        ensures to { self.new.to ≡ self.old.to }
    {
        while let Some(line) = self.next_line(alloc)? {
            if let Some(group) = part_of(line, self.from, self.to) {
                return Ok(Some(group));
            }
        }
        Ok(None)
    }

    /// The next line of the ledger, with what it adds to the groups.
    fn next_line(&mut self, alloc: Global) -> Result<Option<LedgerLine>, NoMemory>
        requires { IsCutting self.old }
        ensures passed { IfOk result (λ next. IfSome next (λ line. (j : Journal) (gs : List Line) → IsReadable j
            → HasGiven j gs self.old → HasPassed j gs self.old self.new line)) }
        ensures fits { IfOk result (λ next. IfSome next (IsPassed self.old self.new)) }
        ensures end { IfOk result (λ next. next ≡ None → (j : Journal) (gs : List Line) → IsReadable j
            → HasGiven j gs self.old → gs ≡ groups self.old.from self.old.to j.entries) }
        ensures from { self.new.from ≡ self.old.from }
        ensures to { self.new.to ≡ self.old.to }
    {
        let Ok(next) = self.reader.next(alloc) else {
            return Err(NoMemory);
        };
        Ok(next)
    }
}
