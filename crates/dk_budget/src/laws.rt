//! The laws that tie the table to the entries of a run.
ghost use Rattle.std.specs.Prelude.{[]};
ghost use Rattle.dk_config.specs.Configuration.{Configuration};
ghost use Rattle.dk_budget.specs.Book.{book_of};
ghost use Rattle.dk_budget.specs.Recount.{IsRecount};
ghost use Rattle.dk_budget.specs.Laws.{QuietKeepsLoans, CreateAddsLoan, ChildsStopEndsLoan, MainsStopEndsLoans, OpeningGivesBack, RefusesLoans, TellsMainShares, TellsChildShares, TellsFutureShares};

/// The table at the start is the recount of no entries.
pub fn start_is_the_recount()
    ensures { (c : Configuration) → IsRecount c 0 [] (book_of c) }
{}

/// An entry that stops no thread of a process and makes none, as each tick without an event, keeps the
/// recount of the process by no call.
pub fn tick_keeps_the_recount()
    ensures { QuietKeepsLoans }
{}

/// An entry of a main that makes a child keeps the recount of its process by `lend`.
pub fn call_keeps_the_recount()
    ensures { CreateAddsLoan }
{}

/// An entry that stops a child keeps the recount of its process by `stop`, and one that stops the main by
/// `stop_process`.
pub fn stops_keep_the_recount()
    ensures child { ChildsStopEndsLoan }
    ensures process { MainsStopEndsLoans }
{}

/// What is due at the next tick and given back makes the recount that of the next tick.
pub fn opening_keeps_the_recount()
    ensures { OpeningGivesBack }
{}

/// The recount refuses a main a loan exactly as a create is refused.
pub fn refusals_are_the_pasts()
    ensures { RefusesLoans }
{}

/// The main's share that the recount gives of the present window is that of the past.
pub fn main_shares_are_the_pasts()
    ensures { TellsMainShares }
{}

/// A child's share that the recount gives of the present window of its level is that of the past.
pub fn child_shares_are_the_pasts()
    ensures { TellsChildShares }
{}

/// The shares that the recount gives of the window starts to come, before the window of a level ends,
/// are those of the past, of the process's threads of levels up to it.
pub fn future_shares_are_the_pasts()
    ensures { TellsFutureShares }
{}
