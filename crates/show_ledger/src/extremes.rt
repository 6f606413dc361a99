//! The longest and the shortest of some holds, and the one with the most ticks of its thread.
ghost use Rattle.std.specs.Prelude.{◌≡◌};
ghost use Rattle.show_ledger.specs.Extremes.{beats, better, extreme_hold, measure, ticks_of};

use crate::measuring::MeasuredHold;

/// What is asked for of some holds: the longest, the shortest, or the one in which its thread had the most ticks.
#[derive(Clone, Copy)]
pub enum Extreme {
    Longest,
    Shortest,
    MostOwn,
}

/// From the tick after the lock up to that of the unlock, both among them.
fn ticks_of(measured: &MeasuredHold) -> u32
    ensures { result ≡ ticks_of measured.now }
{
    measured.hold.end.saturating_sub(measured.hold.start)
}

/// What is compared.
pub(crate) fn measure(extreme: Extreme, measured: &MeasuredHold) -> u32
    ensures { result ≡ measure extreme measured.now }
{
    match extreme {
        Extreme::Longest | Extreme::Shortest => ticks_of(measured),
        Extreme::MostOwn => measured.own,
    }
}

/// Whether one is more extreme than the other.
fn beats(extreme: Extreme, one: &MeasuredHold, other: &MeasuredHold) -> bool
    ensures { result ≡ beats extreme one.now other.now }
{
    match extreme {
        Extreme::Shortest => measure(extreme, one) < measure(extreme, other),
        _ => measure(extreme, one) > measure(extreme, other),
    }
}

/// The more extreme of the one so far and a later one; the one so far where they are alike.
fn better(extreme: Extreme, before: Option<MeasuredHold>, later: MeasuredHold) -> MeasuredHold
    ensures { result ≡ better extreme before later }
{
    match before {
        Some(before) => {
            if beats(extreme, &later, &before) {
                later
            } else {
                before
            }
        }
        None => later,
    }
}

/// The first of the most extreme ones.
pub(crate) fn extreme_hold(extreme: Extreme, holds: &[MeasuredHold]) -> Option<MeasuredHold>
    ensures { result ≡ extreme_hold extreme holds.now }
{
    let mut best = None;
    for measured in holds {
        let next = better(extreme, best, *measured);
        best = Some(next);
    }
    best
}
