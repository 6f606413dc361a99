//! The best base period for asked periods.
ghost use Rattle.std.specs.Prelude.{◌≡◌, ◌<◌, ◌≤◌, ◌↔◌, IsTrue};
ghost use Rattle.dk_plan.specs.Base.{AreAsks, Gets, GreaterTakeMore, IsAsk, IsAtMost, IsSame, NoneLess};
ghost use Rattle.dk_plan.specs.Base.{longest_got, period_got, ticks_in, utilisation};

use crate::MAX_ASKS;
use dk_config::MAX_SPAN;

/// A period that is asked for, and the budget that is needed in each of its windows. Both are ticks,
/// from 1 to 1,000,000.
#[derive(Clone, Copy, PartialEq, Eq)]
pub struct Ask {
    pub period: u32,
    pub budget: u32,
}

/// A fraction of whole numbers.
#[derive(Clone, Copy, PartialEq, Eq)]
pub struct Fraction {
    pub numerator: u64,
    pub denominator: u32,
}

fn is_ask(longest: u32, ask: &Ask) -> bool
    ensures { IsTrue result ↔ IsAsk longest ask.now }
{
    longest <= ask.period && ask.period <= MAX_SPAN && 1 <= ask.budget && ask.budget <= MAX_SPAN
}

/// Whether these are 1 to 32 asks with numbers from 1 to 1,000,000, and no base up to `longest` is
/// above an asked period.
pub fn are_asks(longest: u32, asks: &[Ask]) -> bool
    ensures { IsTrue result ↔ AreAsks longest asks.now }
{
    !asks.is_empty() && asks.len() <= MAX_ASKS && asks.iter().all(|ask| is_ask(longest, ask))
}

/// The period that an ask gets with this base: the greatest of the base's doubles, the base itself
/// among them, that is at most the period.
pub fn period_of(base: u32, period: u32) -> u32
    requires some { 1 ≤ base }
    requires fits { base ≤ period }
    ensures got { result ≡ period_got base period }
    ensures gets { Gets base period result }
{
    let mut got = base;
    while got <= period / 2 {
        got *= 2;
    }
    got
}

/// The greatest period that an ask gets.
fn longest_got(base: u32, asks: &[Ask]) -> u32
    requires some { 1 ≤ base }
    requires asks { AreAsks base asks.now }
    ensures longest { result ≡ longest_got base asks.now }
    ensures short { result ≤ MAX_SPAN }
{
    let mut longest = 0;
    for ask in asks {
        longest = longest.max(period_of(base, ask.period));
    }
    longest
}

/// The ticks that the asks take in a window of this length, each its budget once in each of its own.
fn ticks_of(base: u32, window: u32, asks: &[Ask]) -> u64
    requires some { 1 ≤ base }
    requires asks { AreAsks base asks.now }
    requires short { window ≤ MAX_SPAN }
    ensures { result ≡ ticks_in base window asks.now }
{
    let mut ticks = 0;
    for ask in asks {
        ticks += ask.budget as u64 * (window / period_of(base, ask.period)) as u64;
    }
    ticks
}

/// What part of the processor the asks take with this base: in a window of the greatest period that
/// an ask gets, the denominator, each ask takes its budget once in each of its own windows.
pub fn utilisation(base: u32, asks: &[Ask]) -> Fraction
    requires some { 1 ≤ base }
    requires asks { AreAsks base asks.now }
    ensures denominator { result.denominator ≡ longest_got base asks.now }
    ensures numerator { result.numerator ≡ ticks_in base result.denominator asks.now }
    ensures exact { IsSame result (utilisation base asks.now) }
    ensures positive { 0 < result.denominator }
{
    let denominator = longest_got(base, asks);
    Fraction {
        numerator: ticks_of(base, denominator, asks),
        denominator,
    }
}

fn is_at_most(a: Fraction, b: Fraction) -> bool
    ensures { IsTrue result ↔ IsAtMost a b }
{
    a.numerator as u128 * b.denominator as u128 <= b.numerator as u128 * a.denominator as u128
}

/// The best base, found among all from `lo` to `hi`.
fn best_from(lo: u32, hi: u32, asks: &[Ask]) -> u32
    requires some { 1 ≤ lo }
    requires range { lo ≤ hi }
    requires asks { AreAsks hi asks.now }
    ensures from_lo { lo ≤ result }
    ensures to_hi { result ≤ hi }
    ensures least { NoneLess lo hi asks.now result }
    ensures greatest { GreaterTakeMore hi asks.now result }
{
    let mut best = lo;
    let mut least = utilisation(lo, asks);
    for base in lo + 1..hi + 1 {
        let next = utilisation(base, asks);
        if is_at_most(next, least) {
            best = base;
            least = next;
        }
    }
    best
}

/// The base period from `lo` to `hi` with which the asks take the least part of the processor, and
/// among equal ones the greatest. The rule is this project's own.
///
/// A base and its double give each ask the same period, so that no base with a double up to `hi` is
/// the answer, and only the upper half of the bases up to `hi` is looked at. The asks are asks for the
/// answer too, as `utilisation` wants them.
pub fn best_base(lo: u32, hi: u32, asks: &[Ask]) -> u32
    requires some { 1 ≤ lo }
    requires range { lo ≤ hi }
    requires asks { AreAsks hi asks.now }
    ensures from_lo { lo ≤ result }
    ensures to_hi { result ≤ hi }
    ensures least { NoneLess lo hi asks.now result }
    ensures greatest { GreaterTakeMore hi asks.now result }
    ensures asks { AreAsks result asks.now }
{
    best_from(lo.max(hi / 2 + 1), hi, asks)
}
