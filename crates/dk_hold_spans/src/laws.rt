ghost use Rattle.std.specs.Prelude.{ℕ, List, ◌≡◌, ◌<◌, ◌≤◌, length, option_to_list};
ghost use Rattle.dk_config.specs.declared.TheConstants.{MAX_MUTEXES};
ghost use Rattle.dk_trace.specs.declared.Entry.{Entry};
ghost use Rattle.dk_hold_spans.specs.HoldLists.{holds_in};
ghost use Rattle.dk_hold_spans.specs.Laws.{holder_at, threads_at};

/// Tick by tick, the holds of a range tell who holds a mutex: exactly one of them has the tick where a thread holds the
/// mutex by the ledger's entries before it, and that is the thread's; none has it where nobody does.
pub fn holds_are_the_holders()
    ensures { (m from to t : ℕ) (es : List Entry) → m < MAX_MUTEXES → from ≤ t → t < to → to ≤ length es
        → threads_at m t (holds_in from to es) ≡ option_to_list (holder_at m t es) }
{}
