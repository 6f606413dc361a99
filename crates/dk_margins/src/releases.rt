//! The greatest release of a level.
ghost use Rattle.std.specs.Prelude.{ℕ, ◌≡◌, ◌+◌, ◌*◌, ◌/◌, ◌<◌, ◌≤◌, ◌↔◌, length, IfSome, IfNone};
ghost use Rattle.dk_config.specs.Certification.{level_blocking, level_demand};
ghost use Rattle.dk_config.specs.Checked.{BreaksNoRule, IsChecked, IsWithinLimits};
ghost use Rattle.dk_config.specs.Windows.{period};
ghost use Rattle.dk_margins.specs.Limits.{AtEach, HoldsUpTo};
ghost use Rattle.dk_margins.specs.Margins.{IsGreatest, ReleaseFits, Stands, with_release};

use dk_certify::{demand_of, level_row, longest_delay};
use dk_config::{Config, MAX_SPAN};
use dk_plan::windows_in;

/// What the release of the one level adds to what the other needs.
fn own_release(config: &Config, level: u32, at: u32) -> u64
    requires checked { IsChecked config.now }
    requires limits { IsWithinLimits config.now }
    requires level { level < length config.now.levels }
    requires at { at < length config.now.levels }
    ensures { result + level_demand (with_release config.now level 0) at ≡ level_demand config.now at }
{
    if at < level {
        return 0;
    }
    let windows = windows_in(config, at, level);
    level_row(config, level as usize).release as u64 * windows as u64
}

/// What the one level can need without the release of the other.
fn needs_without(config: &Config, level: u32, at: u32) -> u64
    requires checked { IsChecked config.now }
    requires limits { IsWithinLimits config.now }
    requires level { level < length config.now.levels }
    requires at { at < length config.now.levels }
    ensures { result ≡ level_demand (with_release config.now level 0) at + level_blocking config.now at }
{
    let others = demand_of(config, at as usize) - own_release(config, level, at);
    others + longest_delay(config, at, config.mutexes.as_slice()) as u64
}

/// The greatest release of the one level up to 1,000,000 with which the other fits its windows, and `None` where it
/// doesn't with any.
pub(crate) fn release_room(config: &Config, level: u32, at: u32) -> Option<u32>
    requires checked { IsChecked config.now }
    requires limits { IsWithinLimits config.now }
    requires level { level < length config.now.levels }
    requires at { at < length config.now.levels }
    ensures limit { IfSome result (λ most. HoldsUpTo most (ReleaseFits config.now level at)) }
    ensures none { IfNone result ((release : ℕ) → ¬ ReleaseFits config.now level at release) }
{
    let window = level_row(config, at as usize).period;
    let needs = needs_without(config, level, at);
    if needs > window as u64 {
        return None;
    }
    if at < level {
        return Some(MAX_SPAN);
    }
    Some((window - needs as u32) / windows_in(config, at, level))
}

/// The greatest release of the level up to 1,000,000 with which all levels fit, and `None` where they don't with any.
fn most_release(config: &Config, level: u32) -> Option<u32>
    requires checked { IsChecked config.now }
    requires limits { IsWithinLimits config.now }
    requires level { level < length config.now.levels }
    ensures limit { IfSome result
        (λ most. HoldsUpTo most (AtEach (length config.now.levels) (ReleaseFits config.now level))) }
    ensures none { IfNone result
        ((release : ℕ) → ¬ AtEach (length config.now.levels) (ReleaseFits config.now level) release) }
    ensures few { IfSome result (λ most. most ≤ MAX_SPAN) }
{
    let mut most = MAX_SPAN;
    for at in 0..config.levels.len() as u32 {
        most = most.min(release_room(config, level, at)?);
    }
    Some(most)
}

/// The greatest release of the level with which the configuration breaks none of the rules C4 to C13 and is accepted,
/// whatever it is now; `None` where there is none, not even 0.
pub fn greatest_release(config: &Config, level: u32) -> Option<u32>
    requires unbroken { BreaksNoRule config.now }
    requires checked { IsChecked config.now }
    requires limits { IsWithinLimits config.now }
    requires exists { level < length config.now.levels }
    ensures greatest { IsGreatest (λ release. Stands (with_release config.now level release)) result }
    ensures few { IfSome result (λ most. most ≤ MAX_SPAN) }
{
    match most_release(config, level) {
        Some(most) => Some(most),
        None => None,
    }
}
