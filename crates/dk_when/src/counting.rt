//! What may come before a main in the first ticks of its window.
ghost use Rattle.std.specs.Prelude.{◌≡◌, ◌*◌, ◌<◌, ◌≤◌, length, IfSome};
ghost use Rattle.dk_config.specs.Ahead.{ahead, budgets_begun, may_come_before, process_ahead, windows_begun};
ghost use Rattle.dk_config.specs.Checked.{IsChecked, IsWithinLimits};
ghost use Rattle.dk_config.specs.Sums.{sum_from, sum_up_to};
ghost use Rattle.dk_config.specs.Windows.{budget, main_level, max_level, period, release, slots};
ghost use Rattle.dk_when.specs.Bounds.{most_ahead, most_work};

use dk_certify::{level_row, longest_delay};
use dk_config::{Config, MAX_LEVELS, MAX_PROCESSES, MAX_SPAN};

/// What of a process's row counts here.
#[derive(Clone, Copy)]
pub(crate) struct Place {
    /// The level of the main.
    pub(crate) level: u32,
    /// The slowest level of a child.
    pub(crate) slowest: u32,
    /// The most children at a time.
    pub(crate) threads: u32,
    /// The ticks in each window of the level.
    pub(crate) budget: u32,
}

/// The process's place.
pub(crate) fn place_of(config: &Config, process: u32) -> Place
    requires checked { IsChecked config.now }
    requires limits { IsWithinLimits config.now }
    requires process { process < length config.now.processes }
    ensures level { result.level ≡ main_level config.now process }
    ensures slowest { result.slowest ≡ max_level config.now process }
    ensures threads { result.threads ≡ slots config.now process }
    ensures budget { result.budget ≡ budget config.now process }
{
    let row = &config.processes.as_slice()[process as usize];
    Place {
        level: row.level,
        slowest: row.max_level,
        threads: row.threads,
        budget: row.budget,
    }
}

/// How many windows of the level begin in so many ticks.
pub(crate) fn windows_begun(config: &Config, level: u32, ticks: u32) -> u32
    requires checked { IsChecked config.now }
    requires limits { IsWithinLimits config.now }
    requires level { level < length config.now.levels }
    requires ticks { ticks ≤ MAX_SPAN }
    ensures windows { result ≡ windows_begun config.now level ticks }
    ensures few { result * period config.now level ≤ 2 * MAX_SPAN }
{
    let period = level_row(config, level as usize).period;
    (ticks + (period - 1)) / period
}

/// What the kernel's own work of the level takes in its windows that begin in so many ticks.
fn release_begun(config: &Config, level: u32, ticks: u32) -> u64
    requires checked { IsChecked config.now }
    requires limits { IsWithinLimits config.now }
    requires level { level < length config.now.levels }
    requires ticks { ticks ≤ MAX_SPAN }
    ensures work { result ≡ release config.now level * windows_begun config.now level ticks }
    ensures few { result ≤ most_work }
{
    level_row(config, level as usize).release as u64 * windows_begun(config, level, ticks) as u64
}

/// The slowest level of a thread of the other process that may come before the main, if any may.
fn may_come_before(config: &Config, process: u32, other: u32) -> Option<u32>
    requires checked { IsChecked config.now }
    requires limits { IsWithinLimits config.now }
    requires process { process < length config.now.processes }
    requires other { other < length config.now.processes }
    ensures level { result ≡ may_come_before config.now process other }
    ensures known { IfSome result (λ level. level < length config.now.levels) }
{
    let own = place_of(config, process);
    let place = place_of(config, other);
    if place.level > own.level || (place.level == own.level && other >= process) {
        return None;
    }
    if place.threads == 0 {
        return Some(place.level);
    }
    let slowest = if other < process {
        own.level
    } else {
        own.level - 1
    };
    Some(place.slowest.min(slowest))
}

/// What the process gets at its levels up to this one in the windows of the level that begin in so many ticks.
pub(crate) fn budgets_begun(config: &Config, process: u32, level: u32, ticks: u32) -> u64
    requires checked { IsChecked config.now }
    requires limits { IsWithinLimits config.now }
    requires process { process < length config.now.processes }
    requires level { level < length config.now.levels }
    requires ticks { ticks ≤ MAX_SPAN }
    ensures work { result ≡ budgets_begun config.now process ticks level }
    ensures few { result ≤ most_work }
{
    let place = place_of(config, process);
    let inside = level_row(config, level as usize).period
        / level_row(config, place.level as usize).period;
    place.budget as u64 * inside as u64 * windows_begun(config, level, ticks) as u64
}

/// What of the other process may come before the main in so many ticks.
fn process_ahead(config: &Config, process: u32, ticks: u32, other: u32) -> u64
    requires checked { IsChecked config.now }
    requires limits { IsWithinLimits config.now }
    requires process { process < length config.now.processes }
    requires other { other < length config.now.processes }
    requires ticks { ticks ≤ MAX_SPAN }
    ensures work { result ≡ process_ahead config.now process ticks other }
    ensures few { result ≤ most_work }
{
    match may_come_before(config, process, other) {
        Some(level) => budgets_begun(config, other, level, ticks),
        None => 0,
    }
}

/// What the kernel's own work of the levels up to this one takes.
pub(crate) fn releases_begun(config: &Config, own: u32, ticks: u32) -> u64
    requires checked { IsChecked config.now }
    requires limits { IsWithinLimits config.now }
    requires own { own < length config.now.levels }
    requires ticks { ticks ≤ MAX_SPAN }
    ensures work { result
        ≡ sum_up_to own (λ i. release config.now i * windows_begun config.now i ticks) }
    ensures few { result ≤ MAX_LEVELS * most_work }
{
    let mut work = 0;
    for level in 0..own + 1 {
        work += release_begun(config, level, ticks);
    }
    work
}

/// What of all other processes may come before the main in so many ticks.
fn processes_ahead(config: &Config, process: u32, ticks: u32) -> u64
    requires checked { IsChecked config.now }
    requires limits { IsWithinLimits config.now }
    requires process { process < length config.now.processes }
    requires ticks { ticks ≤ MAX_SPAN }
    ensures work { result
        ≡ sum_from 0 (length config.now.processes) (process_ahead config.now process ticks) }
    ensures few { result ≤ MAX_PROCESSES * most_work }
{
    let mut work = 0;
    for other in 0..config.processes.len() as u32 {
        work += process_ahead(config, process, ticks, other);
    }
    work
}

/// All that may come before the main in so many ticks.
pub(crate) fn ahead(config: &Config, process: u32, ticks: u32) -> u64
    requires checked { IsChecked config.now }
    requires limits { IsWithinLimits config.now }
    requires process { process < length config.now.processes }
    requires ticks { ticks ≤ MAX_SPAN }
    ensures ahead { result ≡ ahead config.now process ticks }
    ensures few { result ≤ most_ahead }
{
    let own = place_of(config, process).level;
    let blocking = longest_delay(config, own, config.mutexes.as_slice());
    let releases = releases_begun(config, own, ticks);
    blocking as u64 + releases + processes_ahead(config, process, ticks)
}
