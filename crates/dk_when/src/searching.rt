//! The least number of ticks that are enough.
ghost use Rattle.std.specs.Prelude.{ℕ, ◌≡◌, ◌<◌, ◌≤◌, ◌&&◌, nat_lt, length};
ghost use Rattle.std.specs.List.{list_any};
ghost use Rattle.dk_config.specs.Ahead.{IsEnough};
ghost use Rattle.dk_config.specs.Checked.{IsChecked, IsWithinLimits};
ghost use Rattle.dk_config.specs.Windows.{budget, main_level, period};

use crate::counting::{ahead, place_of};
use dk_certify::level_row;
use dk_config::{Config, MAX_SPAN, ProcessRow};

/// Whether a process of a faster level than this one has the right to slack.
pub(crate) fn has_faster_slack(processes: &[ProcessRow], level: u32) -> bool
    ensures { result ≡ list_any (λ row. nat_lt row.level level && row.slack) processes.now }
{
    processes.iter().any(|row| row.level < level && row.slack)
}

/// The least number of ticks of its window that are enough for so many ticks of the main.
fn least_enough(config: &Config, process: u32, ticks: u32) -> u32
    requires checked { IsChecked config.now }
    requires limits { IsWithinLimits config.now }
    requires process { process < length config.now.processes }
    requires few { ticks ≤ MAX_SPAN }
    ensures reached { IsEnough config.now process ticks result }
    ensures least { (f : ℕ) → IsEnough config.now process ticks f → result ≤ f }
{
    let own = place_of(config, process).level;
    let window = level_row(config, own as usize).period;
    if has_faster_slack(config.processes.as_slice(), own) {
        return window;
    }
    let mut least = 0;
    while least < window {
        let needs = ahead(config, process, least) + ticks as u64;
        if needs <= least as u64 {
            return least;
        }
        least = needs.min(window as u64) as u32;
    }
    window
}

/// After how many ticks of each of its windows the main of the process has had a tick of its share, whatever the others
/// do: the least number that is enough. It needs no memory.
///
/// It is the length of the window where a process of a faster level has the right to slack. The search is that of
/// response times (Joseph and Pandya, 1986), from below to the first number that is enough.
pub fn begins_by(config: &Config, process: u32) -> u32
    requires checked { IsChecked config.now }
    requires limits { IsWithinLimits config.now }
    requires exists { process < length config.now.processes }
    ensures reached { IsEnough config.now process 1 result }
    ensures least { (f : ℕ) → IsEnough config.now process 1 f → result ≤ f }
    ensures within { result ≤ period config.now (main_level config.now process) }
{
    least_enough(config, process, 1)
}

/// After how many ticks of each of its windows the main of the process has had its whole budget. It needs no memory.
pub fn done_by(config: &Config, process: u32) -> u32
    requires checked { IsChecked config.now }
    requires limits { IsWithinLimits config.now }
    requires exists { process < length config.now.processes }
    ensures reached { IsEnough config.now process (budget config.now process) result }
    ensures least { (f : ℕ) → IsEnough config.now process (budget config.now process) f → result ≤ f }
    ensures within { result ≤ period config.now (main_level config.now process) }
{
    least_enough(config, process, place_of(config, process).budget)
}
