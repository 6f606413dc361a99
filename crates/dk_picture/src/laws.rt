ghost use Rattle.std.specs.Prelude.{ℕ, List, ◌≡◌, ◌≤◌, ◌<◌, ◌+◌, ◌%◌, length, reverse, true};
ghost use Rattle.std.specs.List.{AllByRecursion};
ghost use Rattle.dk_config.specs.Configuration.{Configuration};
ghost use Rattle.dk_config.specs.Windows.{period};
ghost use Rattle.dk_trace.specs.declared.Entry.{Entry};
ghost use Rattle.dk_trace.specs.Entries.{window};
ghost use Rattle.dk_trace.specs.Guarantees.{job_from, past_at};
ghost use Rattle.dk_trace.specs.Threads.{Thread};
ghost use Rattle.dk_ledger.specs.Heading.{Heading};
ghost use Rattle.dk_ledger.specs.Readable.{IsReadable};
ghost use Rattle.dk_groups.specs.Groups.{groups, slice};
ghost use Rattle.dk_hold_spans.specs.HoldLists.{holds_in};
ghost use Rattle.dk_window_report.specs.Windows.{did_in, is_overrun};
ghost use Rattle.dk_picture.specs.HoldBars.{mutex_rows};
ghost use Rattle.dk_picture.specs.Laws.{AreBarsOf, HasMain, HasMutexRow, HasRow, HasShare, IsTold, marks_from};
ghost use Rattle.dk_picture.specs.Marks.{marks};
ghost use Rattle.dk_picture.specs.Rows.{is_seen, rows_of};
ghost use Rattle.dk_picture.specs.Scenes.{Scene};
ghost use Rattle.dk_picture.specs.Shares.{main_of, overran_in, used_in};
ghost use Rattle.dk_picture.specs.declared.span.Span.{Span};

/// The bars of a picture add up from 0 to the ticks of its range, and tick by tick they are drawn as the labels of the
/// ledger's entries say.
pub fn bars_are_the_ticks()
    ensures { (h : Heading) (from to : ℕ) (es : List Entry) → from ≤ to → to ≤ length es
        → AreBarsOf h (rows_of h (groups from to es)) from to es }
{}

/// Each bar of the picture of a ledger that can be read has a row that takes its label.
pub fn each_bar_has_a_row()
    ensures { (h : Heading) (from to : ℕ) (es : List Entry) → IsReadable (record { heading = h; entries = es })
        → from ≤ to → to ≤ length es
        → AllByRecursion (HasRow (rows_of h (groups from to es))) (groups from to es) }
{}

/// Each hold of a range has the row of its mutex.
pub fn each_hold_has_its_row()
    ensures { (from to : ℕ) (es : List Entry)
        → AllByRecursion (HasMutexRow (mutex_rows (holds_in from to es))) (holds_in from to es) }
{}

/// The marks of a picture are those of the events in its range.
pub fn marks_are_the_events()
    ensures { (h : Heading) (from to : ℕ) (es : List Entry)
        → marks h (rows_of h (groups from to es)) (groups from to es)
        ≡ marks_from h (rows_of h (groups from to es)) from (slice from to es) }
{}

/// Each window of a main that lies in the range and is wide enough is told of; what the main used in it is what it used
/// of its share there by the entries, and it overran it where the report of windows counts an overrun; and each main with a
/// tick has a row.
pub fn shares_are_the_windows()
    ensures told { (h : Heading) (s : Span) (c : Scene) (p w : ℕ) → p < length h.processes → IsTold h s c p w
        → HasShare h s c p w }
    ensures used { (c : Configuration) (x : Thread) (from to s : ℕ) (es : List Entry) → s % period c x.level ≡ 0
        → from ≤ s → s + period c x.level ≤ to → to ≤ length es
        → used_in (groups from to es) x.id s (s + period c x.level) ≡ (job_from c (reverse es) x s).used }
    ensures overran { (c : Configuration) (p i from to s : ℕ) (es : List Entry) → s % period c i ≡ 0
        → from ≤ s → s + period c i ≤ to → to ≤ length es
        → overran_in (groups from to es) (main_of p) s (s + period c i)
        ≡ is_overrun (did_in (main_of p) (window c s (past_at (reverse es) (s + period c i)) i)) }
    ensures row { (h : Heading) (from to p : ℕ) (es : List Entry) → IsReadable (record { heading = h; entries = es })
        → p < length h.processes → is_seen (groups from to es) p ≡ true → HasMain (rows_of h (groups from to es)) p }
{}
