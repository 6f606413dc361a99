//! The greatest hold of a mutex.
ghost use Rattle.std.specs.Prelude.{ℕ, ◌≡◌, ◌+◌, ◌<◌, ◌≤◌, ◌↔◌, cond, max, length, IfSome, IfNone};
ghost use Rattle.dk_config.specs.Certification.{level_blocking};
ghost use Rattle.dk_config.specs.Checked.{BreaksNoRule, IsChecked, IsWithinLimits};
ghost use Rattle.dk_margins.specs.Limits.{AtEach, HoldsUpTo};
ghost use Rattle.dk_margins.specs.Margins.{HoldFits, IsGreatest, Stands, with_hold};

use dk_certify::{can_delay, demand_of, level_row, longest_delay};
use dk_config::{Config, MAX_SPAN};

/// The longest hold of the other mutexes that can delay the level.
fn others_delay(config: &Config, mutex: u32, level: u32) -> u32
    requires exists { mutex < length config.now.mutexes }
    ensures { result ≡ level_blocking (with_hold config.now mutex 0) level }
{
    let mutexes = config.mutexes.as_slice();
    let before = longest_delay(config, level, &mutexes[..mutex as usize]);
    let after = longest_delay(config, level, &mutexes[mutex as usize + 1..]);
    before.max(after)
}

/// Whether the mutex can delay the level.
fn delays(config: &Config, mutex: u32, level: u32) -> bool
    requires exists { mutex < length config.now.mutexes }
    ensures { (hold : ℕ) → level_blocking (with_hold config.now mutex hold) level
        ≡ max (level_blocking (with_hold config.now mutex 0) level) (cond result hold 0) }
{
    can_delay(config, level, &config.mutexes.as_slice()[mutex as usize])
}

/// The greatest hold of the mutex up to 1,000,000 with which the level fits its windows, and `None` where it doesn't
/// with any.
pub(crate) fn hold_room(config: &Config, mutex: u32, level: u32) -> Option<u32>
    requires checked { IsChecked config.now }
    requires limits { IsWithinLimits config.now }
    requires mutex { mutex < length config.now.mutexes }
    requires level { level < length config.now.levels }
    ensures limit { IfSome result (λ most. HoldsUpTo most (HoldFits config.now mutex level)) }
    ensures none { IfNone result ((hold : ℕ) → ¬ HoldFits config.now mutex level hold) }
    ensures few { IfSome result (λ most. most ≤ MAX_SPAN) }
{
    let window = level_row(config, level as usize).period;
    let demand = demand_of(config, level as usize);
    if demand + others_delay(config, mutex, level) as u64 > window as u64 {
        return None;
    }
    if delays(config, mutex, level) {
        Some(window - demand as u32)
    } else {
        Some(MAX_SPAN)
    }
}

/// The greatest hold of the mutex up to 1,000,000 with which all levels fit, and `None` where they don't with any.
fn most_hold(config: &Config, mutex: u32) -> Option<u32>
    requires checked { IsChecked config.now }
    requires limits { IsWithinLimits config.now }
    requires mutex { mutex < length config.now.mutexes }
    ensures limit { IfSome result
        (λ most. HoldsUpTo most (AtEach (length config.now.levels) (HoldFits config.now mutex))) }
    ensures none { IfNone result ((hold : ℕ) → ¬ AtEach (length config.now.levels) (HoldFits config.now mutex) hold) }
    ensures few { IfSome result (λ most. most ≤ MAX_SPAN) }
{
    let mut most = MAX_SPAN;
    for level in 0..config.levels.len() as u32 {
        most = most.min(hold_room(config, mutex, level)?);
    }
    Some(most)
}

/// The greatest hold of the mutex with which the configuration breaks none of the rules C4 to C13 and is accepted,
/// whatever it is now; `None` where there is none.
pub fn greatest_hold(config: &Config, mutex: u32) -> Option<u32>
    requires unbroken { BreaksNoRule config.now }
    requires checked { IsChecked config.now }
    requires limits { IsWithinLimits config.now }
    requires exists { mutex < length config.now.mutexes }
    ensures greatest { IsGreatest (λ hold. Stands (with_hold config.now mutex hold)) result }
    ensures few { IfSome result (λ most. most ≤ MAX_SPAN) }
{
    match most_hold(config, mutex) {
        Some(most) => {
            if most == 0 {
                return None;
            }
            Some(most)
        }
        None => None,
    }
}
