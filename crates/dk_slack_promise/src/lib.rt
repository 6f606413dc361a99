//! What is promised of slack.
//!
//! Each function carries one law in its contract, and does nothing. A law speaks of every configuration that `check`
//! passes and certification accepts, and of every list of entries that follows the rules.
#![tactic(auto)]

ghost use Rattle.dk_bound.specs.Laws.{Always};
ghost use Rattle.dk_slack_promise.specs.Rest.{IdleAtRest, WishIsHeard};
ghost use Rattle.dk_slack_promise.specs.Lent.{SpareStays, LentFits};
ghost use Rattle.dk_slack_promise.specs.Long.{LeavesSpare, LendsSpare};
ghost use Rattle.dk_slack_promise.specs.Allotted.{AllottedFits, AllottedLends};
ghost use Rattle.dk_slack_promise.specs.Soon.{AllottedByWhen};
ghost use Rattle.dk_slack_promise.specs.Own.{WishesMet, OwnAllotted};

/// No tick is idle while anybody has something left or asks for slack.
#[tactic(auto, using(crate::proofs::Rest::idle_at_rest))]
pub fn rest_law()
    ensures { Always IdleAtRest }
{}

/// So no tick is idle while a thread asks, and where slack fits it goes to the thread's level or a faster one.
pub fn wish_law()
    ensures { Always WishIsHeard }
{}

/// Of each level with unfinished work the spare is still free, but for the ticks that were lent in its window.
#[tactic(auto, using(crate::proofs::Lent::spare_stays))]
pub fn spare_law()
    ensures { Always SpareStays }
{}

/// Slack fits while of each level with unfinished work fewer ticks were lent in its window than its spare is.
#[tactic(auto, using(crate::proofs::Lent::lent_fits))]
pub fn lent_law()
    ensures { Always LentFits }
{}

/// Of each window of the slowest level that has ended as many ticks as its spare were lent or idle, or more.
#[tactic(auto, using(crate::proofs::Long::leaves_spare))]
pub fn leaves_law()
    ensures { Always LeavesSpare }
{}

/// A process that no other with the right to slack stands before, and that goes on asking throughout a window of the
/// slowest level, gets at least its spare in it.
pub fn lends_law()
    ensures { Always LendsSpare }
{}

/// Where the allotments of the processes are within the spare of each level, and no process was lent more in a window of
/// its level, slack fits for each that was lent less in its present one, once no faster level has work.
pub fn allotted_law()
    ensures { Always AllottedFits }
{}

/// And each that goes on asking until it was lent its allotment gets it in each window of its level.
pub fn allotted_lends_law()
    ensures { Always AllottedLends }
{}

/// It has had it once so many ticks of the window are over as are enough for all threads of the levels up to its own and
/// for the allotments of their processes.
pub fn allotted_by_when_law()
    ensures { Always AllottedByWhen }
{}

/// There, where a window of its process's level ends, a thread of that level asks for nothing more, or its process was lent
/// the allotment or more in the window. Of what a thread asks for in a window its last request alone counts, and one that
/// waited or was stopped in it asks for nothing.
pub fn wishes_met_law()
    ensures { Always WishesMet }
{}

/// So a thread of that level that neither waits nor is stopped in the window, and that last asks in it for at least the
/// allotment, has exactly its whole share of the window, and its process was lent the allotment or more in it.
pub fn own_allotted_law()
    ensures { Always OwnAllotted }
{}
