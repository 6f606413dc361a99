ghost use Rattle.std.specs.Prelude.{ℕ, List, ◌≡◌, ◌++◌, flat_map};
ghost use Rattle.dk_trace.specs.declared.Entry.{Entry};
ghost use Rattle.dk_ledger.specs.declared.line.LedgerLine.{LedgerLine};
ghost use Rattle.dk_ledger.specs.Cuts.{entries_of};
ghost use Rattle.dk_ledger.specs.Readable.{Journal, IsReadable};
ghost use Rattle.dk_groups.specs.Cutting.{Cutting, HasGiven};
ghost use Rattle.dk_groups.specs.Groups.{groups, slice};

/// Every tick of the range is in exactly one group: the entries of the groups, one after another, are the slice of the
/// ledger's entries.
pub fn whole_in_groups()
    ensures { (from to : ℕ) (es : List Entry) → flat_map entries_of (groups from to es) ≡ slice from to es }
{}

/// What a reader has given so far are the first of the groups of the ledger.
pub fn given_in_order()
    ensures { (j : Journal) (gs : List LedgerLine) (c : Cutting) → IsReadable j → HasGiven j gs c
        → (later : List LedgerLine) × (groups c.from c.to j.entries ≡ gs ++ later) }
{}
