ghost use Rattle.std.specs.Prelude.{ℕ, List, ◌≡◌, flat_map, length};
ghost use Rattle.std.specs.List.{AllByRecursion};
ghost use Rattle.dk_trace.specs.declared.Entry.{Entry};
ghost use Rattle.dk_ledger.specs.Heading.{Heading};
ghost use Rattle.dk_ledger.specs.Readable.{IsReadable};
ghost use Rattle.dk_groups.specs.Groups.{slice};
ghost use Rattle.dk_csv.specs.Laws.{IsRecord, joined, records};
ghost use Rattle.dk_csv.specs.Rows.{csv_text};

/// The table of a range tells the entries in it: two ledgers of one header whose tables are the same have the same
/// entries there.
pub fn one_to_one()
    ensures ranges { (h : Heading) (from to lo hi : ℕ) (es fs : List Entry)
        → IsReadable (record { heading = h; entries = es }) → IsReadable (record { heading = h; entries = fs })
        → csv_text from to h es ≡ csv_text lo hi h fs → slice from to es ≡ slice lo hi fs }
    ensures whole { (h : Heading) (es fs : List Entry)
        → IsReadable (record { heading = h; entries = es }) → IsReadable (record { heading = h; entries = fs })
        → csv_text 0 (length es) h es ≡ csv_text 0 (length fs) h fs → es ≡ fs }
{}

/// Each record of a table has as many fields as there are columns, and no field has a comma, a quotation mark or an end of
/// a line; the table's text is these fields with commas between them, and a line feed behind each record.
pub fn needs_no_quotes()
    ensures records { (h : Heading) (from to : ℕ) (es : List Entry) → IsReadable (record { heading = h; entries = es })
        → AllByRecursion IsRecord (records from to h es) }
    ensures text { (h : Heading) (from to : ℕ) (es : List Entry) → IsReadable (record { heading = h; entries = es })
        → csv_text from to h es ≡ flat_map joined (records from to h es) }
{}
