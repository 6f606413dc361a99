//! How soon in its window a main can have its ticks.
ghost use Rattle.std.specs.Prelude.{ℕ, ◌≡◌, ◌*◌, ◌<◌, ◌≤◌, ◌&&◌, nat_lt, length};
ghost use Rattle.std.specs.List.{list_any};
ghost use Rattle.dk_config.specs.Certification.{uses};
ghost use Rattle.dk_config.specs.Ahead.{IsEnough};
ghost use Rattle.dk_config.specs.Checked.{IsChecked, IsWithinLimits};
ghost use Rattle.dk_config.specs.Windows.{budget, main_level, period, release};
ghost use Rattle.dk_when.specs.Bounds.{most_work};
ghost use Rattle.dk_when.specs.Earliest.{MayHave, always_ahead, may_hold_off, windows_over};

use crate::counting::{place_of, windows_begun};
use dk_certify::level_row;
use dk_config::{Config, MAX_LEVELS, MAX_SPAN, MutexRow, ProcessRow};

/// Whether the process uses one of these mutexes of a faster level than this one.
fn uses_faster(mutexes: &[MutexRow], row: &ProcessRow, level: u32) -> bool
    ensures { result ≡ list_any (λ mutex. nat_lt mutex.ceiling level && uses mutex row.now) mutexes.now }
{
    mutexes
        .iter()
        .any(|mutex| mutex.ceiling < level && mutex.is_used_by(row))
}

/// Whether a thread of the process may run before the kernel's own work of the level, as it holds a mutex.
fn may_hold_off(config: &Config, process: u32, level: u32) -> bool
    requires checked { IsChecked config.now }
    requires limits { IsWithinLimits config.now }
    requires process { process < length config.now.processes }
    ensures { result ≡ may_hold_off config.now process level }
{
    let row = &config.processes.as_slice()[process as usize];
    uses_faster(config.mutexes.as_slice(), row, level)
}

/// In how many windows of the level the kernel's own work is over, at least, where so many ticks end with one of the main.
fn windows_over(config: &Config, process: u32, level: u32, ticks: u32) -> u32
    requires checked { IsChecked config.now }
    requires limits { IsWithinLimits config.now }
    requires process { process < length config.now.processes }
    requires level { level < length config.now.levels }
    requires ticks { ticks ≤ MAX_SPAN }
    ensures windows { result ≡ windows_over config.now process level ticks }
    ensures few { result ≤ 2 * MAX_SPAN }
{
    if may_hold_off(config, process, level) {
        (ticks / level_row(config, level as usize).period).max(1)
    } else {
        windows_begun(config, level, ticks)
    }
}

/// The kernel's own work of the level that always comes before the main.
fn release_over(config: &Config, process: u32, level: u32, ticks: u32) -> u64
    requires checked { IsChecked config.now }
    requires limits { IsWithinLimits config.now }
    requires process { process < length config.now.processes }
    requires level { level < length config.now.levels }
    requires ticks { ticks ≤ MAX_SPAN }
    ensures work { result ≡ release config.now level * windows_over config.now process level ticks }
    ensures few { result ≤ most_work }
{
    level_row(config, level as usize).release as u64
        * windows_over(config, process, level, ticks) as u64
}

/// All of the kernel's own work that always comes before the main.
fn always_ahead(config: &Config, process: u32, ticks: u32) -> u64
    requires checked { IsChecked config.now }
    requires limits { IsWithinLimits config.now }
    requires process { process < length config.now.processes }
    requires ticks { ticks ≤ MAX_SPAN }
    ensures work { result ≡ always_ahead config.now process ticks }
    ensures few { result ≤ MAX_LEVELS * most_work }
{
    let own = place_of(config, process).level;
    let mut work = 0;
    for level in 0..own + 1 {
        work += release_over(config, process, level, ticks);
    }
    work
}

/// The least number of ticks of its window that have room for so many ticks of the main.
fn least_room(config: &Config, process: u32, ticks: u32) -> u32
    requires checked { IsChecked config.now }
    requires limits { IsWithinLimits config.now }
    requires process { process < length config.now.processes }
    requires few { ticks ≤ MAX_SPAN }
    ensures reached { MayHave config.now process ticks result }
    ensures least { (f : ℕ) → MayHave config.now process ticks f → result ≤ f }
    ensures within { result ≤ period config.now (main_level config.now process) }
{
    let own = place_of(config, process).level;
    let window = level_row(config, own as usize).period;
    let mut least = 0;
    while least < window {
        let needs = always_ahead(config, process, least) + ticks as u64;
        if needs <= least as u64 {
            return least;
        }
        least = needs.min(window as u64) as u32;
    }
    window
}

/// How soon in each of its windows the main of the process can have had a tick of its share, whatever the programs do:
/// after so many ticks and no fewer. It needs no memory.
pub fn begins_from(config: &Config, process: u32) -> u32
    requires checked { IsChecked config.now }
    requires limits { IsWithinLimits config.now }
    requires exists { process < length config.now.processes }
    ensures reached { MayHave config.now process 1 result }
    ensures least { (f : ℕ) → MayHave config.now process 1 f → result ≤ f }
    ensures sooner { (f : ℕ) → IsEnough config.now process 1 f → result ≤ f }
    ensures within { result ≤ period config.now (main_level config.now process) }
{
    least_room(config, process, 1)
}

/// How soon in each of its windows the main of the process can have had its whole budget. It needs no memory.
pub fn done_from(config: &Config, process: u32) -> u32
    requires checked { IsChecked config.now }
    requires limits { IsWithinLimits config.now }
    requires exists { process < length config.now.processes }
    ensures reached { MayHave config.now process (budget config.now process) result }
    ensures least { (f : ℕ) → MayHave config.now process (budget config.now process) f → result ≤ f }
    ensures sooner { (f : ℕ) → IsEnough config.now process (budget config.now process) f → result ≤ f }
    ensures within { result ≤ period config.now (main_level config.now process) }
{
    least_room(config, process, place_of(config, process).budget)
}
