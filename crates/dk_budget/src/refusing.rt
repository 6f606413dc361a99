//! Why a loan is refused.
ghost use Rattle.std.specs.Prelude.{◌≡◌, ◌≤◌, ◌<◌, ◌+◌, length, IfNone};
ghost use Rattle.dk_trace.specs.Refusals.{first_refusal};
ghost use Rattle.dk_budget.specs.Loans.{lent};
ghost use Rattle.dk_budget.specs.Calls.{lend_reasons};
ghost use Rattle.dk_budget.specs.Sound.{ArePeriods, IsSoundLender};

use crate::lender::{Lender, lent};
use crate::shares::quota_at;
use arrayvec::ArrayVec;
use dk_config::{MAX_COST, MAX_LEVELS};
use dk_trace::Refusal;
use dk_windows::Period;

/// Why a loan is refused, if it is.
pub fn lend_refusal(
    switch: u32,
    periods: &ArrayVec<Period, MAX_LEVELS>,
    lender: &Lender,
    level: u32,
    quota: u32,
    entry: u32,
    instructions: u32,
) -> Option<Refusal>
    requires switch { switch ≤ MAX_COST }
    requires periods { ArePeriods periods.now.items }
    requires lender { IsSoundLender periods.now.items lender.now }
    ensures refused { result ≡ first_refusal
        (lend_reasons switch periods.now.items lender.now level quota entry instructions) }
    ensures level { IfNone result (level ≤ lender.now.max_level) }
    ensures room { IfNone result (length lender.now.loans.items < lender.now.threads) }
    ensures covered { IfNone result (lent lender.now.loans.items + quota ≤ lender.now.budget) }
{
    if level < lender.level as u32 || level > lender.max_level as u32 {
        return Some(Refusal::Level);
    }
    if entry >= instructions {
        return Some(Refusal::Entry);
    }
    if lender.loans.len() >= lender.threads as usize {
        return Some(Refusal::Slots);
    }
    let least = 2 * switch as u64 + 1;
    if quota_at(periods, lender.level, level as u8, quota) < least {
        return Some(Refusal::TooSmall);
    }
    if lent(&lender.loans) + quota as u64 + least > lender.budget as u64 {
        return Some(Refusal::Budget);
    }
    None
}
