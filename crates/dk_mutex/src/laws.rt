ghost use Rattle.std.specs.Prelude.{[]};
ghost use Rattle.dk_config.specs.Configuration.{Configuration};
ghost use Rattle.dk_mutex.specs.Rows.{rows_of};
ghost use Rattle.dk_mutex.specs.Recount.{IsRecount};
ghost use Rattle.dk_mutex.specs.Table.{innermost};
ghost use Rattle.dk_mutex.specs.Laws.{TickSpendsHolds, OthersKeepHolds, LockAddsHold, UnlockEndsHold, TellsLevels, TellsHolders, TellsDelays, EventEndsHolds, GivingUpEndsHolds, GivingUpKeepsMutexes, TellsHeld, TellsInnermost, TellsLeft, TellsWithin, UnheldAreFree, FreeAreUnheld, RefusesLocks, RefusesUnlocks};

/// The table at the start is the recount of the empty past.
pub fn start_is_the_recount()
    ensures { (c : Configuration) → IsRecount c [] (rows_of c) }
{}

/// A tick without an event keeps the table a recount: that of a thread by `Mutexes::spend`, and that
/// of no thread by no call.
pub fn tick_keeps_the_recount()
    ensures thread { TickSpendsHolds }
    ensures nobody { OthersKeepHolds }
{}

/// After a thread's tick, `Mutexes::lock` of a mutex that nobody holds keeps the table a recount
/// where the entry of the tick locks it, and `Mutexes::unlock` of a mutex that the thread holds where
/// the entry unlocks it.
pub fn call_keeps_the_recount()
    ensures lock { LockAddsHold }
    ensures unlock { UnlockEndsHold }
{}

/// A table that is the recount of a past tells the level at which each of its threads runs, and the
/// holder that runs at a level.
pub fn levels_are_the_pasts()
    ensures level { TellsLevels }
    ensures holder { TellsHolders }
{}

/// A table that is the recount of a past tells for how long a thread may still keep a faster level
/// waiting.
pub fn lefts_are_the_pasts()
    ensures { TellsDelays }
{}

/// An event that is no lock and no unlock leaves what each thread holds, but nothing to those that the
/// entry stops: what `Mutexes::give_up` leaves is nothing of the thread, all of the others, and the mutexes.
pub fn stops_keep_the_recount()
    ensures event { EventEndsHolds }
    ensures holds { GivingUpEndsHolds }
    ensures mutexes { GivingUpKeepsMutexes }
{}

/// A table that is the recount of a past tells which mutexes each thread holds, which one it locked last,
/// and for how long it may still hold that one.
pub fn holds_are_the_pasts()
    ensures held { TellsHeld }
    ensures innermost { TellsInnermost }
    ensures left { TellsLeft }
    ensures within { TellsWithin }
{}

/// And which mutexes no thread holds.
pub fn free_mutexes_are_the_pasts()
    ensures free { UnheldAreFree }
    ensures nobody { FreeAreUnheld }
{}

/// It refuses a lock and an unlock exactly as they are refused over that past, by the first reason that holds.
pub fn refusals_are_the_pasts()
    ensures lock { RefusesLocks }
    ensures unlock { RefusesUnlocks }
{}
