ghost use Rattle.std.specs.Prelude.{ℕ, List, ◌≡◌, length};
ghost use Rattle.dk_trace.specs.declared.Entry.{Entry};
ghost use Rattle.dk_ledger.specs.Heading.{Heading};
ghost use Rattle.dk_ledger.specs.Readable.{IsReadable};
ghost use Rattle.dk_groups.specs.Groups.{groups, slice};
ghost use Rattle.dk_trace_events.specs.SlackPoints.{slack_in, slack_of};
ghost use Rattle.dk_trace_events.specs.Traces.{trace_text};

/// The trace of a range tells the entries in it: two ledgers of one header whose traces are the same have the same
/// entries there.
pub fn one_to_one()
    ensures ranges { (h : Heading) (from to lo hi : ℕ) (es fs : List Entry)
        → IsReadable (record { heading = h; entries = es }) → IsReadable (record { heading = h; entries = fs })
        → trace_text from to h es ≡ trace_text lo hi h fs → slice from to es ≡ slice lo hi fs }
    ensures whole { (h : Heading) (es fs : List Entry)
        → IsReadable (record { heading = h; entries = es }) → IsReadable (record { heading = h; entries = fs })
        → trace_text 0 (length es) h es ≡ trace_text 0 (length fs) h fs → es ≡ fs }
{}

/// What the counter has come to at a range's end: the entries in it that are on slack, by where they came from.
pub fn counts_slack()
    ensures { (from to : ℕ) (es : List Entry) → slack_in (groups from to es) ≡ slack_of (slice from to es) }
{}
