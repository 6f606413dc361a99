//! The law of the jobs of a table.
ghost use Rattle.dk_times.specs.Laws.{AreTimes, HasJobs, TakesItsTicks};

/// The steps of a table are those of its jobs in turn, one for each cell that tells ticks, and the steps of each job take
/// exactly the ticks of its cell.
pub fn jobs_law()
    ensures jobs { HasJobs }
    ensures within { AreTimes }
    ensures ticks { TakesItsTicks }
{}
