//! No impact: a process that keeps to itself runs the same in every configuration of which it sees the same, and window by
//! window also where its period alone changes.
//!
//! Each function carries one law in its contract, and does nothing but call the laws that it stands on. All rules are this
//! project's own.
#![tactic(auto)]

ghost use Rattle.dk_impact.specs.Enough.{EnoughIsTheSameForEver, LocksNothingHasEnough};
ghost use Rattle.dk_impact.specs.GreaterLaws.{AloneIsTheSameWithMore, FirstWindowsTellWithMore, GreaterBudgetsHaveNoImpact, WindowsAreTheSameWithMore};
ghost use Rattle.dk_impact.specs.Unreached.{WhatIsNeverReachedHasNoImpact};
ghost use Rattle.dk_impact.specs.Laws.{AloneIsTheSameAcross, AloneIsTheSameAtAnyPeriod, ChangesOfOthersHaveNoImpact, ChangesOfPeriodHaveNoImpact, FirstWindowsTellAcross, FirstWindowsTellAtAnyPeriod, WindowsAreTheSameAcross, WindowsAreTheSameAtAnyPeriod};

mod change;
mod changes;

pub use change::{Change, Sight};
pub use changes::{all_changes, first_change, gives_no_less, sees_the_same_but_period};
use dk_alone::{alone_law, first_windows_law, windows_law};

/// With the processor to itself a process that may have neither children nor slack and doesn't read the tick runs the same
/// in two configurations of which it sees the same.
pub fn across_law()
    ensures { AloneIsTheSameAcross }
{}

/// So at every multiple of its period its entries, its memory and its contexts are the same in both, whatever else differs.
pub fn impact_law()
    ensures { ChangesOfOthersHaveNoImpact }
{
    alone_law();
    across_law();
}

/// And in any whole windows of its level it has the same entries in both.
pub fn windows_across_law()
    ensures { WindowsAreTheSameAcross }
{
    impact_law();
}

/// With the processor to itself it does in the k-th of its windows the same in two configurations that are checked and
/// accepted and of which it sees the same but the period: in a longer window it only rests longer.
pub fn any_period_law()
    ensures { AloneIsTheSameAtAnyPeriod }
{}

/// So where the k-th of its windows begins its entries, its memory and its contexts are the same in both, whatever else
/// differs: a process that is given another rate does in each window what it did.
pub fn period_impact_law()
    ensures { ChangesOfPeriodHaveNoImpact }
{
    alone_law();
    any_period_law();
}

/// And the k-th window of the one has the same entries of it as the k-th window of the other.
pub fn windows_any_period_law()
    ensures { WindowsAreTheSameAtAnyPeriod }
{
    period_impact_law();
}

/// So what holds of its entries in each window of one run, up to two ticks at which it stands alike, holds of them in every
/// window of every run of every configuration of which it sees the same but the period.
///
/// So one test of a process is evidence also where its rate changes: for as long as nothing that it sees of a window does.
pub fn first_windows_any_period_law()
    ensures { FirstWindowsTellAtAnyPeriod }
{
    windows_any_period_law();
    first_windows_law();
}

/// So what holds of its entries in each window of one run, up to two ticks at which it stands alike, holds of them in every
/// window of every run of every configuration of which it sees the same.
///
/// So one test of a process is evidence for as long as nothing that it sees changes, whatever is changed beside it.
pub fn first_windows_across_law()
    ensures { FirstWindowsTellAcross }
{
    first_windows_any_period_law();
}

/// With the processor to itself it does in the k-th of its windows the same with a greater budget, where no window before shows
/// how large its budget is: in each of them its main waits or is stopped, and is refused no lock for want of budget.
pub fn alone_with_more_law()
    ensures { AloneIsTheSameWithMore }
{}

/// So where the k-th of its windows begins its entries, its memory and its contexts are the same in both, whatever else differs.
pub fn greater_budget_law()
    ensures { GreaterBudgetsHaveNoImpact }
{
    alone_law();
    windows_law();
    alone_with_more_law();
}

/// And the k-th window of the one has the same entries of it as the k-th window of the other.
pub fn windows_with_more_law()
    ensures { WindowsAreTheSameWithMore }
{
    greater_budget_law();
}

/// So what holds of its entries in each window of one run, up to two ticks at which it stands alike, holds of them in every
/// window of every run of every configuration that gives it no smaller budget, where none of these windows shows how large its
/// budget is.
///
/// So one test of a process stays evidence where its budget grows.
pub fn first_windows_with_more_law()
    ensures { FirstWindowsTellWithMore }
{
    windows_with_more_law();
    first_windows_law();
}

/// A process that locks nothing and overruns in none of its windows, in any run, has enough in each of them.
pub fn enough_law()
    ensures { LocksNothingHasEnough }
{
    windows_law();
}

/// And a process that has enough in each of its windows is the same, for ever, in any run of every configuration that gives it
/// no smaller budget: where its k-th window begins its entries, its memory and its contexts are the same, and so are its
/// entries in that window.
pub fn for_ever_law()
    ensures { EnoughIsTheSameForEver }
{
    greater_budget_law();
    windows_with_more_law();
}

/// Two runs of one configuration whose programs are the same, but that some instructions of one process are struck out in the
/// second, are the same tick by tick, where in the second no thread of that process ever ends in a decode fault.
pub fn unreached_law()
    ensures { WhatIsNeverReachedHasNoImpact }
{}
