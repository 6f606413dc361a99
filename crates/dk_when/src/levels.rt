//! By when in its window all threads of a level have had their shares.
ghost use Rattle.std.specs.Prelude.{ℕ, ◌≡◌, ◌*◌, ◌<◌, ◌≤◌, length, IfSome};
ghost use Rattle.std.specs.Option.{option_map_or};
ghost use Rattle.dk_config.specs.Ahead.{budgets_begun, level_ahead, slowest_up_to, IsEnoughForAll};
ghost use Rattle.dk_config.specs.Checked.{IsChecked, IsWithinLimits};
ghost use Rattle.dk_config.specs.Sums.{sum_from};
ghost use Rattle.dk_config.specs.Windows.{period};
ghost use Rattle.dk_when.specs.Bounds.{most_ahead, most_work};

use crate::counting::{budgets_begun, place_of, releases_begun};
use crate::searching::has_faster_slack;
use dk_certify::{level_row, longest_delay};
use dk_config::{Config, MAX_PROCESSES, MAX_SPAN};

/// The slowest level up to this one of a thread of the process, if it may have one.
fn slowest_up_to(config: &Config, level: u32, process: u32) -> Option<u32>
    requires checked { IsChecked config.now }
    requires limits { IsWithinLimits config.now }
    requires level { level < length config.now.levels }
    requires process { process < length config.now.processes }
    ensures slowest { result ≡ slowest_up_to config.now level process }
    ensures known { IfSome result (λ slowest. slowest < length config.now.levels) }
{
    let place = place_of(config, process);
    if place.level > level {
        return None;
    }
    if place.threads == 0 {
        return Some(place.level);
    }
    Some(place.slowest.min(level))
}

/// What the process gets at the levels up to this one in so many ticks.
fn process_up_to(config: &Config, level: u32, ticks: u32, process: u32) -> u64
    requires checked { IsChecked config.now }
    requires limits { IsWithinLimits config.now }
    requires level { level < length config.now.levels }
    requires process { process < length config.now.processes }
    requires ticks { ticks ≤ MAX_SPAN }
    ensures work { result
        ≡ option_map_or (budgets_begun config.now process ticks) (slowest_up_to config.now level process) 0 }
    ensures few { result ≤ most_work }
{
    match slowest_up_to(config, level, process) {
        Some(slowest) => budgets_begun(config, process, slowest, ticks),
        None => 0,
    }
}

/// What all processes get at the levels up to this one in so many ticks.
fn processes_up_to(config: &Config, level: u32, ticks: u32) -> u64
    requires checked { IsChecked config.now }
    requires limits { IsWithinLimits config.now }
    requires level { level < length config.now.levels }
    requires ticks { ticks ≤ MAX_SPAN }
    ensures work { result ≡ sum_from 0 (length config.now.processes)
        (λ q. option_map_or (budgets_begun config.now q ticks) (slowest_up_to config.now level q) 0) }
    ensures few { result ≤ MAX_PROCESSES * most_work }
{
    let mut work = 0;
    for process in 0..config.processes.len() as u32 {
        work += process_up_to(config, level, ticks, process);
    }
    work
}

/// All that may have to be done in so many ticks before all threads of the level are through.
pub fn level_ahead(config: &Config, level: u32, ticks: u32) -> u64
    requires checked { IsChecked config.now }
    requires limits { IsWithinLimits config.now }
    requires level { level < length config.now.levels }
    requires ticks { ticks ≤ MAX_SPAN }
    ensures ahead { result ≡ level_ahead config.now level ticks }
    ensures few { result ≤ most_ahead }
{
    let blocking = longest_delay(config, level, config.mutexes.as_slice());
    let releases = releases_begun(config, level, ticks);
    blocking as u64 + releases + processes_up_to(config, level, ticks)
}

/// After how many ticks of each of its windows all threads of the level, children too, have had their whole shares,
/// whatever they do: the least number that is enough. It needs no memory.
///
/// It is the length of the window where a process of a faster level has the right to slack.
pub fn level_done_by(config: &Config, level: u32) -> u32
    requires checked { IsChecked config.now }
    requires limits { IsWithinLimits config.now }
    requires exists { level < length config.now.levels }
    ensures reached { IsEnoughForAll config.now level result }
    ensures least { (f : ℕ) → IsEnoughForAll config.now level f → result ≤ f }
    ensures within { result ≤ period config.now level }
{
    let window = level_row(config, level as usize).period;
    if has_faster_slack(config.processes.as_slice(), level) {
        return window;
    }
    let mut least = 1;
    while least < window {
        let needs = level_ahead(config, level, least);
        if needs <= least as u64 {
            return least;
        }
        least = needs.min(window as u64) as u32;
    }
    window
}
