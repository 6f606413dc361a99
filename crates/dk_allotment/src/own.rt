//! What a process can be promised in each of its windows, and in each of the slowest level.
ghost use Rattle.std.specs.Prelude.{◌≡◌, ◌<◌, ◌≤◌, length};
ghost use Rattle.dk_config.specs.Certification.{spare};
ghost use Rattle.dk_config.specs.Checked.{IsAccepted, IsChecked, IsWithinLimits};
ghost use Rattle.dk_config.specs.Windows.{main_level};
ghost use Rattle.dk_slack_promise.specs.Long.{slowest};
ghost use Rattle.dk_allotment.specs.Alone.{IsOwnSlack};

use dk_certify::{demand_of, level_row, longest_delay};
use dk_config::{Config, MAX_SPAN};
use dk_plan::windows_in;

/// The ticks of a window of the level that nobody can claim.
pub fn spare_of(config: &Config, level: u32) -> u32
    requires checked { IsChecked config.now }
    requires limits { IsWithinLimits config.now }
    requires exists { level < length config.now.levels }
    ensures spare { result ≡ spare config.now level }
    ensures few { result ≤ MAX_SPAN }
{
    let window = level_row(config, level as usize).period as u64;
    let demand = demand_of(config, level as usize);
    let blocking = longest_delay(config, level, config.mutexes.as_slice());
    window
        .saturating_sub(demand)
        .saturating_sub(blocking as u64) as u32
}

/// The slack that each window of the slowest level has at least, for whoever goes on asking and stands first.
pub fn slowest_slack(config: &Config) -> u32
    requires checked { IsChecked config.now }
    requires limits { IsWithinLimits config.now }
    requires accepted { IsAccepted config.now }
    ensures spare { result ≡ spare config.now (slowest config.now) }
    ensures few { result ≤ MAX_SPAN }
{
    spare_of(config, config.levels.len() as u32 - 1)
}

/// The level of the process.
pub(crate) fn level_of(config: &Config, process: u32) -> u32
    requires checked { IsChecked config.now }
    requires process { process < length config.now.processes }
    ensures own { result ≡ main_level config.now process }
    ensures exists { result < length config.now.levels }
{
    config.processes.as_slice()[process as usize].level
}

/// The slack that the process can be promised in each window of its level, where no other has any: the greatest number
/// of ticks that each level's spare holds for each of these windows.
pub fn own_slack(config: &Config, process: u32) -> u32
    requires checked { IsChecked config.now }
    requires limits { IsWithinLimits config.now }
    requires accepted { IsAccepted config.now }
    requires process { process < length config.now.processes }
    ensures own { IsOwnSlack config.now process result }
    ensures few { result ≤ MAX_SPAN }
{
    let own = level_of(config, process);
    let mut most = spare_of(config, own);
    for level in own + 1..config.levels.len() as u32 {
        most = most.min(spare_of(config, level) / windows_in(config, level, own));
    }
    most
}
