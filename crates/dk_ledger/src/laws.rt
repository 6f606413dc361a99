ghost use Rattle.std.specs.Prelude.{List, ◌≡◌};
ghost use Rattle.dk_trace.specs.declared.Entry.{Entry};
ghost use Rattle.dk_ledger.specs.declared.line.LedgerLine.{LedgerLine};
ghost use Rattle.dk_ledger.specs.Lines.{lines_of};
ghost use Rattle.dk_ledger.specs.Cuts.{IsCut};
ghost use Rattle.dk_ledger.specs.Readable.{Journal, IsReadable, text_of};
ghost use Rattle.dk_ledger.specs.ReadSoFar.{Reading, HasRead, IsFrontOf};

/// Each list of entries is cut into lines in exactly one way: all labels of a line are equal, only
/// its last entry may have an event, and two neighbouring lines can't be joined.
pub fn one_cut()
    ensures lines { (es : List Entry) → IsCut es (lines_of es) }
    ensures alone { (es : List Entry) (ls : List LedgerLine) → IsCut es ls → ls ≡ lines_of es }
{}

/// No two ledgers that can be read have one text.
pub fn one_to_one()
    ensures { (j k : Journal) → IsReadable j → IsReadable k → text_of j ≡ text_of k → j ≡ k }
{}

/// A reader gives the entries of a ledger that can be read in order: those so far are its first.
pub fn read_in_order()
    ensures { (j : Journal) (es : List Entry) (r : Reading) → IsReadable j → HasRead (text_of j) es r
        → IsFrontOf j es r }
{}
