//! What the report says of a past.
ghost use Rattle.std.specs.Prelude.{List, ◌≡◌};
ghost use Rattle.dk_config.specs.Configuration.{Configuration};
ghost use Rattle.dk_trace.specs.declared.Entry.{Entry};
ghost use Rattle.dk_trace.specs.Guarantees.{Received};
ghost use Rattle.dk_ledger.specs.Heading.{Heading};
ghost use Rattle.dk_window_report.specs.Rows.{RowsStart, RowsStep};
ghost use Rattle.dk_window_report.specs.Passing.{RowsGoBy};
ghost use Rattle.dk_window_report.specs.Clean.{overruns};
ghost use Rattle.dk_window_report.specs.Overruns.{IsHeadingOf, AllCounted, AllWaited};

/// Each window that has ended and of which a thread has a share is among those that are counted of the thread.
pub fn counted_law()
    ensures { (c : Configuration) (h : Heading) (past : List Entry) → IsHeadingOf c h → AllCounted c h past }
{}

/// Where each thread received its share, as in every audited ledger, and nothing overran, each thread waited or was
/// stopped in each window that has ended and of which it had a share.
pub fn no_overrun_law()
    ensures { (c : Configuration) (h : Heading) (past : List Entry) → IsHeadingOf c h → Received c past
        → overruns h past ≡ 0 → AllWaited c past }
{}

/// The row of a thread before any entry is a fresh one, and behind one entry more it is stepped by that entry. Behind many of one
/// label, in which nothing happens, it is `gone_by` them.
pub fn row_law()
    ensures start { RowsStart }
    ensures step { RowsStep }
    ensures go_by { RowsGoBy }
{}
