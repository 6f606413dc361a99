//! The shares of mains and children, now and to come.
ghost use Rattle.std.specs.Prelude.{◌≡◌, ◌≤◌, ◌<◌, ◌*◌, ◌^◌, length, IfSome, sum_by};
ghost use Rattle.dk_budget.specs.Loans.{after_stop, lent, lent_at};
ghost use Rattle.dk_budget.specs.Book.{period_in};
ghost use Rattle.dk_budget.specs.Shares.{child_future, child_share, main_future, main_share, quota_at, sum_over};
ghost use Rattle.dk_budget.specs.Sound.{ArePeriods, IsSoundLender};

use crate::lender::{Lender, lent_at};
use crate::loan::{Loan, is_in_force};
use crate::starts::Starts;
use arrayvec::ArrayVec;
use dk_config::{MAX_CHILDREN, MAX_LEVELS, MAX_SPAN};
use dk_windows::{Period, Windows};

/// A quota, which is ticks of a window of the main's level, as ticks of a window of the child's.
pub fn quota_at(periods: &ArrayVec<Period, MAX_LEVELS>, main: u8, level: u8, quota: u32) -> u64
    requires periods { ArePeriods periods.now.items }
    requires main { main < length periods.now.items }
    requires level { level < length periods.now.items }
    ensures { result ≡ quota_at periods.now.items main level quota }
{
    let ticks = quota as u64 * periods[level as usize].ticks() as u64;
    periods[main as usize].windows_in(ticks)
}

/// A child's share of a window of its level that starts at that tick.
pub fn child_share(periods: &ArrayVec<Period, MAX_LEVELS>, main: u8, loan: &Loan, start: u32) -> u64
    requires periods { ArePeriods periods.now.items }
    requires main { main < length periods.now.items }
    requires level { loan.now.level < length periods.now.items }
    requires short { loan.now.quota ≤ period_in periods.now.items main }
    ensures share { result ≡ child_share periods.now.items main loan.now start }
    ensures few { result ≤ MAX_SPAN }
{
    if is_in_force(loan, start) {
        quota_at(periods, main, loan.level, loan.quota)
    } else {
        0
    }
}

/// The main's share of a window of its level that starts at that tick.
pub fn main_share(lender: &Lender, start: u32) -> u64
    ensures share { result ≡ main_share lender.now start }
    ensures few { result ≤ lender.now.budget }
{
    match lender.stop {
        Some(tick) if tick < start => 0,
        _ => (lender.budget as u64).saturating_sub(lent_at(&lender.loans, start)),
    }
}

/// All that is lent at the starts.
fn lent_over(loans: &ArrayVec<Loan, MAX_CHILDREN>, starts: &Starts) -> u64
    requires few { starts.now.count ≤ MAX_SPAN }
    ensures { result ≡ sum_over starts.now (λ s. lent_at s loans.now.items) }
{
    let mut sum: u64 = 0;
    for loan in loans.as_slice() {
        sum += loan.quota as u64 * starts.in_force(loan);
    }
    sum
}

/// The tick after the stop.
fn after_stop(stop: Option<u32>) -> Option<u64>
    ensures tick { result ≡ after_stop stop }
    ensures early { IfSome result (λ t. t ≤ 2 ^ 32) }
{
    match stop {
        Some(tick) => Some(tick as u64 + 1),
        None => None,
    }
}

/// The main's shares at the starts.
fn main_over(lender: &Lender, starts: &Starts) -> u64
    requires few { starts.now.count ≤ MAX_SPAN }
    requires short { lender.now.budget ≤ MAX_SPAN }
    requires covered { lent lender.now.loans.items ≤ lender.now.budget }
    ensures sum { result ≡ sum_over starts.now (main_share lender.now) }
    ensures few { result ≤ MAX_SPAN * MAX_SPAN }
{
    let until = starts.before(after_stop(lender.stop));
    lender.budget as u64 * until.count - lent_over(&lender.loans, &until)
}

/// The main's shares of its windows to come before the present window of the level `last` ends, where
/// its own level is no slower.
pub fn main_future(lender: &Lender, windows: &Windows, last: u8) -> u64
    requires periods { ArePeriods windows.now.periods }
    requires sound { IsSoundLender windows.now.periods lender.now }
    requires last { last < length windows.now.periods }
    ensures sum { result ≡ main_future windows.now last lender.now }
    ensures few { result ≤ MAX_SPAN * MAX_SPAN }
{
    if lender.level > last {
        return 0;
    }
    main_over(lender, &Starts::to_come(windows, lender.level, last))
}

/// The child's shares of its windows to come before the present window of the level `last` ends,
/// where its level is no slower.
fn child_future(
    periods: &ArrayVec<Period, MAX_LEVELS>,
    main: u8,
    loan: &Loan,
    windows: &Windows,
    last: u8,
) -> u64
    requires periods { ArePeriods periods.now.items }
    requires same_levels { windows.now.periods ≡ periods.now.items }
    requires main { main < length periods.now.items }
    requires level { loan.now.level < length periods.now.items }
    requires short { loan.now.quota ≤ period_in periods.now.items main }
    requires last { last < length periods.now.items }
    ensures sum { result ≡ child_future periods.now.items main windows.now last loan.now }
    ensures few { result ≤ MAX_SPAN * MAX_SPAN }
{
    if loan.level > last {
        return 0;
    }
    let starts = Starts::to_come(windows, loan.level, last);
    quota_at(periods, main, loan.level, loan.quota) * starts.in_force(loan)
}

/// The shares of all children of their windows to come before the present window of the level `last`
/// ends, of levels up to that.
pub fn children_future(
    periods: &ArrayVec<Period, MAX_LEVELS>,
    lender: &Lender,
    windows: &Windows,
    last: u8,
) -> u64
    requires periods { ArePeriods periods.now.items }
    requires same_levels { windows.now.periods ≡ periods.now.items }
    requires sound { IsSoundLender periods.now.items lender.now }
    requires last { last < length periods.now.items }
    ensures sum { result
        ≡ sum_by (child_future periods.now.items lender.now.level windows.now last) lender.now.loans.items }
    ensures few { result ≤ MAX_CHILDREN * MAX_SPAN * MAX_SPAN }
{
    let mut sum: u64 = 0;
    for loan in lender.loans.as_slice() {
        sum += child_future(periods, lender.level, loan, windows, last);
    }
    sum
}
