ghost use Rattle.dk_ready.specs.Laws.{MainsAreSeated, PartsAreReleased, BudgetTickSpends, WaitClosesSeat, JobsKeepSeats, KernelTickSpends, OthersKeepParts, EventKeepsParts, TellsLeft, TellsPhase, TellsReady, QueuesWorkers};

/// Mains that have sat down one after the other, with their budgets, are the recount of no entries, and so are
/// the kernel's parts of which nothing is used.
pub fn start_is_the_recount()
    ensures seats { MainsAreSeated }
    ensures parts { PartsAreReleased }
{
    dk_overhead::start_is_the_recount();
}

/// A budget tick of a thread keeps the seats and the queues the recount by `Jobs::spend`, and a tick of the
/// kernel's own work the parts by `Parts::spend`. Any other tick does by no call: the seats and the queues stay
/// wherever all jobs stay, also over an event that closes none, and at the next tick where no window begins.
pub fn tick_keeps_the_recount()
    ensures budget { BudgetTickSpends }
    ensures others { JobsKeepSeats }
    ensures kernel { KernelTickSpends }
    ensures parts { OthersKeepParts }
{}

/// A wait keeps the seats and the queues the recount by `Jobs::close`, and every event the parts by no call.
pub fn call_keeps_the_recount()
    ensures wait { WaitClosesSeat }
    ensures parts { EventKeepsParts }
{}

/// Seats that are the recount of a past tell of each thread what it has left and which part of its share comes
/// next. A level's queue has the threads that have something left, and so each of those stands in one.
pub fn jobs_are_the_pasts()
    ensures left { TellsLeft }
    ensures phase { TellsPhase }
    ensures ready { TellsReady }
    ensures queued { QueuesWorkers }
{}
