//! What the windows say of the counts, and what the last ticks are.
ghost use Rattle.dk_overrun_spans.specs.Laws.{AreAllCounted, AreAllTold, AreLastPaid};

use dk_window_report::row_law;

/// As many windows are told of a thread as it overran by what is counted of it.
pub fn all_told_law()
    ensures { AreAllTold }
{
    row_law();
}

/// As many windows are told as the threads overran by what is counted of them: none where nothing was overrun.
pub fn all_counted_law()
    ensures { AreAllCounted }
{
    all_told_law();
}

/// The last tick of each is one of its window, and one that the thread's budget paid for.
pub fn last_paid_law()
    ensures { AreLastPaid }
{
    row_law();
}
