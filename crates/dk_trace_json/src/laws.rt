ghost use Rattle.std.specs.Prelude.{ℕ, List, Some, ◌≡◌, ◌<◌, ◌^◌};
ghost use Rattle.serde_json.specs.Read.{read};
ghost use Rattle.dk_trace.specs.declared.Entry.{Entry};
ghost use Rattle.dk_ledger.specs.Heading.{Heading};
ghost use Rattle.dk_ledger.specs.Readable.{IsReadable};
ghost use Rattle.dk_trace_events.specs.Traces.{trace_text};
ghost use Rattle.dk_trace_json.specs.Values.{trace_value};

/// The trace of each range of a ledger is a document of JSON: what serde_json reads from its text is `trace_value`, the
/// object with the trace's events. The range ends below tick 2^64, since serde_json reads a greater number as a float.
pub fn is_json()
    ensures { (h : Heading) (from to : ℕ) (es : List Entry) → IsReadable (record { heading = h; entries = es })
        → to < 2 ^ 64 → read (trace_text from to h es) ≡ Some (trace_value from to h es) }
{}
