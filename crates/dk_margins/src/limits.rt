//! What stands in the way of a greater number.
ghost use Rattle.std.specs.Prelude.{ℕ, ◌≡◌, ◌+◌, ◌*◌, ◌<◌, ◌≤◌, nat_lt, true, false, length, position, IfSome};
ghost use Rattle.dk_config.specs.Certification.{first_failing};
ghost use Rattle.dk_config.specs.Checked.{IsChecked, IsWithinLimits};
ghost use Rattle.dk_config.specs.declared.rows.ProcessRow.{ProcessRow as Process};
ghost use Rattle.dk_plan.specs.Budget.{with_budget};
ghost use Rattle.dk_plan.specs.Levels.{LevelFits};
ghost use Rattle.dk_margins.specs.Margins.{HoldFits, ReleaseFits, limit_of, switch_limit_of, with_hold, with_release};

use crate::holds::hold_room;
use crate::releases::release_room;
use dk_config::{Config, MAX_COST, MAX_SPAN, ProcessRow};
use dk_plan::most_at;

/// Whether the level fits its windows with this budget of the process.
fn budget_fits(config: &Config, process: u32, level: u32, budget: u32) -> bool
    requires checked { IsChecked config.now }
    requires limits { IsWithinLimits config.now }
    requires process { process < length config.now.processes }
    requires level { level < length config.now.levels }
    requires few { budget ≤ MAX_SPAN }
    ensures fits { result ≡ true → LevelFits config.now process level budget }
    ensures fails { result ≡ false → ¬ LevelFits config.now process level budget }
{
    match most_at(config, process, level) {
        Some(most) => budget <= most,
        None => false,
    }
}

/// The first level that fails with this budget of the process.
fn budget_fails(config: &Config, process: u32, budget: u32) -> Option<u32>
    requires checked { IsChecked config.now }
    requires limits { IsWithinLimits config.now }
    requires process { process < length config.now.processes }
    requires few { budget ≤ MAX_SPAN }
    ensures { result ≡ first_failing (with_budget config.now process budget) }
{
    for level in 0..config.levels.len() as u32 {
        if !budget_fits(config, process, level, budget) {
            return Some(level);
        }
    }
    None
}

/// The first level that fails with one more than this budget of the process, and `None` where one more is above
/// 1,000,000.
pub fn budget_limit(config: &Config, process: u32, most: u32) -> Option<u32>
    requires checked { IsChecked config.now }
    requires limits { IsWithinLimits config.now }
    requires exists { process < length config.now.processes }
    requires few { most ≤ MAX_SPAN }
    ensures { result ≡ limit_of (with_budget config.now process) most }
{
    if most == MAX_SPAN {
        return None;
    }
    budget_fails(config, process, most + 1)
}

/// Whether the level fits its windows with this hold of the mutex.
fn hold_fits(config: &Config, mutex: u32, level: u32, hold: u32) -> bool
    requires checked { IsChecked config.now }
    requires limits { IsWithinLimits config.now }
    requires mutex { mutex < length config.now.mutexes }
    requires level { level < length config.now.levels }
    requires few { hold ≤ MAX_SPAN }
    ensures fits { result ≡ true → HoldFits config.now mutex level hold }
    ensures fails { result ≡ false → ¬ HoldFits config.now mutex level hold }
{
    match hold_room(config, mutex, level) {
        Some(most) => hold <= most,
        None => false,
    }
}

/// The first level that fails with this hold of the mutex.
fn hold_fails(config: &Config, mutex: u32, hold: u32) -> Option<u32>
    requires checked { IsChecked config.now }
    requires limits { IsWithinLimits config.now }
    requires mutex { mutex < length config.now.mutexes }
    requires few { hold ≤ MAX_SPAN }
    ensures { result ≡ first_failing (with_hold config.now mutex hold) }
{
    for level in 0..config.levels.len() as u32 {
        if !hold_fits(config, mutex, level, hold) {
            return Some(level);
        }
    }
    None
}

/// The first level that fails with one more than this hold of the mutex, and `None` where one more is above
/// 1,000,000.
pub fn hold_limit(config: &Config, mutex: u32, most: u32) -> Option<u32>
    requires checked { IsChecked config.now }
    requires limits { IsWithinLimits config.now }
    requires exists { mutex < length config.now.mutexes }
    requires few { most ≤ MAX_SPAN }
    ensures { result ≡ limit_of (with_hold config.now mutex) most }
{
    if most == MAX_SPAN {
        return None;
    }
    hold_fails(config, mutex, most + 1)
}

/// Whether the level `at` fits its windows with this release of the level.
fn release_fits(config: &Config, level: u32, at: u32, release: u32) -> bool
    requires checked { IsChecked config.now }
    requires limits { IsWithinLimits config.now }
    requires level { level < length config.now.levels }
    requires at { at < length config.now.levels }
    requires few { release ≤ MAX_SPAN }
    ensures fits { result ≡ true → ReleaseFits config.now level at release }
    ensures fails { result ≡ false → ¬ ReleaseFits config.now level at release }
{
    match release_room(config, level, at) {
        Some(most) => release <= most,
        None => false,
    }
}

/// The first level that fails with this release of the level.
fn release_fails(config: &Config, level: u32, release: u32) -> Option<u32>
    requires checked { IsChecked config.now }
    requires limits { IsWithinLimits config.now }
    requires level { level < length config.now.levels }
    requires few { release ≤ MAX_SPAN }
    ensures { result ≡ first_failing (with_release config.now level release) }
{
    for at in 0..config.levels.len() as u32 {
        if !release_fits(config, level, at, release) {
            return Some(at);
        }
    }
    None
}

/// The first level that fails with one more than this release of the level, and `None` where one more is above
/// 1,000,000.
pub fn release_limit(config: &Config, level: u32, most: u32) -> Option<u32>
    requires checked { IsChecked config.now }
    requires limits { IsWithinLimits config.now }
    requires exists { level < length config.now.levels }
    requires few { most ≤ MAX_SPAN }
    ensures { result ≡ limit_of (with_release config.now level) most }
{
    if most == MAX_SPAN {
        return None;
    }
    release_fails(config, level, most + 1)
}

/// The first process whose budget has no room for one more than this cost of a switch, and `None` where one more is above
/// 255.
pub fn switch_limit(config: &Config, most: u32) -> Option<usize>
    requires few { most ≤ MAX_COST }
    ensures limit { result ≡ switch_limit_of config.now most }
    ensures exists { IfSome result (λ p. p < length config.now.processes) }
{
    if most == MAX_COST {
        return None;
    }
    short_for(&config.processes, most + 1)
}

/// The first row whose budget has no room for both switches and one tick.
fn short_for(rows: &[ProcessRow], switch: u32) -> Option<usize>
    requires few { switch ≤ MAX_COST }
    ensures found { result ≡ position (λ (row : Process). nat_lt row.budget (2 * switch + 1)) rows.now }
    ensures exists { IfSome result (λ p. p < length rows.now) }
{
    rows.iter().position(|row| row.budget < 2 * switch + 1)
}
