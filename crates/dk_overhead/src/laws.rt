ghost use Rattle.std.specs.Prelude.{ℕ, []};
ghost use Rattle.dk_config.specs.Configuration.{Configuration};
ghost use Rattle.dk_config.specs.Windows.{budget};
ghost use Rattle.dk_trace.specs.Threads.{main_thread};
ghost use Rattle.dk_overhead.specs.Recount.{IsRecount};
ghost use Rattle.dk_trace.specs.JobSteps.{released};
ghost use Rattle.dk_overhead.specs.Laws.{OwnTickSpends, OthersKeepJob, WaitClosesJob, EventKeepsJob, StopClosesJob, JobStays, JobBegins};

/// A main's job with its budget as the share is the recount of no entries.
pub fn start_is_the_recount()
    ensures { (c : Configuration) (p : ℕ) → IsRecount c 0 [] (main_thread c p) (released (budget c p)) }
{}

/// A budget tick of the thread, in the phase that its job tells, keeps the job a recount by `Job::spend`,
/// and any other tick by no call.
pub fn tick_keeps_the_recount()
    ensures own { OwnTickSpends }
    ensures others { OthersKeepJob }
{}

/// After the tick the thread's wait keeps the job a recount by `Job::close`, and an event that is no wait of
/// it and no stop by no call.
pub fn call_keeps_the_recount()
    ensures wait { WaitClosesJob }
    ensures others { EventKeepsJob }
{}

/// An event that stops the thread keeps its job a recount by `Job::close`.
pub fn stops_keep_the_recount()
    ensures { StopClosesJob }
{}

/// At the next tick a job stays the recount where its window goes on, and where one begins it is that of
/// the share of the new window, of which nothing is used.
pub fn opening_keeps_the_recount()
    ensures stays { JobStays }
    ensures begins { JobBegins }
{}
