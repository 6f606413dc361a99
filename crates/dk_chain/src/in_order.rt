ghost use Rattle.dk_chain.specs.InOrder.{BeginsInOrder, OverInTime};
ghost use Rattle.dk_bound.specs.Laws.{Always};

/// A job of a main, its share of one window, begins only when a job of another is over: where both windows start at one
/// tick and the other's main comes before it (a faster level, or the same and an earlier process), or where its window
/// starts once so many ticks of the other's window are over as are enough for the whole budget.
pub fn begin_in_order_law()
    ensures { Always BeginsInOrder }
{}

/// Once so many ticks of its window are over as are enough for its whole budget, a main's job is over, and stays so: it
/// has had its whole share, or it waited or was stopped.
pub fn over_in_time_law()
    ensures { Always OverInTime }
{}
