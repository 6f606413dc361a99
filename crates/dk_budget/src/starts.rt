//! The starts of a level's windows that are still to come.
ghost use Rattle.std.specs.Prelude.{ℕ, ◌≡◌, ◌≤◌, ◌<◌, ◌^◌, length, IfSome, if◌then◌else◌};
ghost use Rattle.dk_windows.specs.Clock.{end_at, period_at};
ghost use Rattle.dk_budget.specs.Loans.{is_before, is_in_force};
ghost use Rattle.dk_budget.specs.Shares.{sum_over, windows_left};

use crate::loan::Loan;
use dk_config::MAX_SPAN;
use dk_windows::{Period, Windows};

/// The starts of windows of one level: the first, and so many in all, a period apart.
#[derive(Clone, Copy)]
pub struct Starts {
    pub first: u64,
    pub period: Period,
    pub count: u64,
}

/// The same tick.
fn wide(tick: Option<u32>) -> Option<u64>
    ensures same { result ≡ tick }
    ensures early { IfSome result (λ t. t ≤ 2 ^ 32) }
{
    match tick {
        Some(tick) => Some(tick as u64),
        None => None,
    }
}

impl Starts {
    /// Those of the level after the present tick and before the present window of the level `last`
    /// ends, which is no faster.
    pub fn to_come(windows: &Windows, level: u8, last: u8) -> Starts
        requires level { level < length windows.now.periods }
        requires last { last < length windows.now.periods }
        requires short { period_at windows.now last ≤ MAX_SPAN }
        ensures first { result.first ≡ end_at windows.now level }
        ensures period { result.period ≡ period_at windows.now level }
        ensures count { result.count ≡ windows_left windows.now level last }
        ensures few { result.count ≤ MAX_SPAN }
    {
        let first = windows.end(level) as u64;
        let period = windows.period(level);
        let left = (windows.end(last) as u64).saturating_sub(first);
        Starts {
            first,
            period,
            count: period.windows_in(left),
        }
    }

    /// Those of them before the tick, and all where there is none.
    pub fn before(&self, tick: Option<u64>) -> Starts
        requires { IfSome tick (λ t. t ≤ 2 ^ 32) }
        ensures sums { (f : ℕ → ℕ)
            → sum_over result f ≡ sum_over self.now (λ s. if is_before tick s then f s else 0) }
        ensures few { result.count ≤ self.now.count }
        ensures period { result.period ≡ self.now.period }
    {
        match tick {
            Some(tick) => {
                // a window that the tick cuts has begun before it
                let rounding = (self.period.ticks() - 1) as u64;
                let ticks = tick.saturating_sub(self.first) + rounding;
                Starts {
                    first: self.first,
                    period: self.period,
                    count: self.period.windows_in(ticks).min(self.count),
                }
            },
            None => *self,
        }
    }

    /// How many of them begin a window in which the loan is in force.
    pub fn in_force(&self, loan: &Loan) -> u64
        ensures sum { result ≡ sum_over self.now (λ s. if is_in_force s loan.now then 1 else 0) }
        ensures few { result ≤ self.now.count }
    {
        let running = self.before(wide(loan.end));
        running.count - running.before(Some(loan.start as u64)).count
    }
}
