ghost use Rattle.std.specs.Prelude.{ℕ, List, None, ◌≡◌, ◌<◌, ◌≤◌, length};
ghost use Rattle.dk_trace.specs.declared.Entry.{Entry};
ghost use Rattle.dk_ledger.specs.Heading.{Heading};
ghost use Rattle.dk_ledger.specs.Readable.{IsReadable};
ghost use Rattle.dk_groups.specs.Groups.{groups, slice};
ghost use Rattle.dk_vcd.specs.Dumps.{vcd_text};
ghost use Rattle.dk_vcd.specs.Holders.{holder_before};
ghost use Rattle.dk_vcd.specs.Laws.{IsDump, told_at};

/// The dump of a range tells the entries in it: two ledgers of one header whose dumps are the same have the same entries
/// there.
pub fn one_to_one()
    ensures ranges { (h : Heading) (from to lo hi : ℕ) (es fs : List Entry)
        → IsReadable (record { heading = h; entries = es }) → IsReadable (record { heading = h; entries = fs })
        → vcd_text from to h es ≡ vcd_text lo hi h fs → slice from to es ≡ slice lo hi fs }
    ensures whole { (h : Heading) (es fs : List Entry)
        → IsReadable (record { heading = h; entries = es }) → IsReadable (record { heading = h; entries = fs })
        → vcd_text 0 (length es) h es ≡ vcd_text 0 (length fs) h fs → es ≡ fs }
{}

/// Tick by tick, the signal of a mutex tells who holds it: what was written last of it, before the groups or with one, is
/// the hold behind the ledger's entries before the tick.
pub fn holders_are_told()
    ensures { (m from to t : ℕ) (es : List Entry) → from ≤ t → t < to → to ≤ length es
        → told_at es m t (holder_before es from m) None (groups from to es) ≡ holder_before es t m }
{}

/// A dump has the form of one: behind the declarations each line is a time, a signal's new value or a new value of `running`
/// in binary, and no value has a blank, which would end it.
pub fn values_have_no_blank()
    ensures { (h : Heading) (from to : ℕ) (es : List Entry) → IsReadable (record { heading = h; entries = es })
        → IsDump h (vcd_text from to h es) }
{}
