//! Whether allotments are within the spare of each level.
ghost use Rattle.std.specs.Prelude.{ℕ, ◌≡◌, ◌<◌, ◌≤◌, length};
ghost use Rattle.dk_config.specs.Certification.{spare};
ghost use Rattle.dk_config.specs.Checked.{IsChecked, IsWithinLimits};
ghost use Rattle.dk_slack_promise.specs.Allotted.{allotted};
ghost use Rattle.dk_allotment.specs.Given.{IsOverdrawn, given, most_part, part};

use crate::own::{level_of, spare_of};
use dk_config::Config;
use dk_plan::windows_in;

/// What the process is allotted in a window of the level.
pub(crate) fn part_of(config: &Config, allotments: &[u32], level: u32, process: u32) -> u64
    requires checked { IsChecked config.now }
    requires limits { IsWithinLimits config.now }
    requires one_each { length allotments.now ≡ length config.now.processes }
    requires level { level < length config.now.levels }
    requires process { process < length config.now.processes }
    ensures part { result ≡ part config.now allotments.now level process }
    ensures bounded { result ≤ most_part }
{
    let own = level_of(config, process);
    if own > level {
        return 0;
    }
    allotments[process as usize] as u64 * windows_in(config, level, own) as u64
}

/// What the processes of the levels up to this one are allotted in one of its windows.
pub fn allotted_at(config: &Config, allotments: &[u32], level: u32) -> u64
    requires checked { IsChecked config.now }
    requires limits { IsWithinLimits config.now }
    requires one_each { length allotments.now ≡ length config.now.processes }
    requires level { level < length config.now.levels }
    ensures { result ≡ allotted config.now (given allotments.now) level }
{
    let mut sum = 0;
    for process in 0..config.processes.len() as u32 {
        sum += part_of(config, allotments, level, process);
    }
    sum
}

/// The first level whose spare the allotments pass, a number for each process; `None` where they can be promised.
pub fn overdrawn_level(config: &Config, allotments: &[u32]) -> Option<u32>
    requires checked { IsChecked config.now }
    requires limits { IsWithinLimits config.now }
    requires one_each { length allotments.now ≡ length config.now.processes }
    ensures { IsOverdrawn config.now allotments.now result }
{
    for level in 0..config.levels.len() as u32 {
        if allotted_at(config, allotments, level) > spare_of(config, level) as u64 {
            return Some(level);
        }
    }
    None
}
