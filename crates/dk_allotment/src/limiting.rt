//! What limits the slack that a process can be promised.
ghost use Rattle.std.specs.Prelude.{◌≡◌, ◌+◌, ◌*◌, ◌/◌, ◌<◌, ◌≤◌, nat_le, length};
ghost use Rattle.dk_config.specs.Certification.{spare};
ghost use Rattle.dk_config.specs.Checked.{IsAccepted, IsChecked, IsWithinLimits};
ghost use Rattle.dk_config.specs.Windows.{main_level, period};
ghost use Rattle.dk_allotment.specs.Alone.{IsFirstPassed, IsOwnSlack, alone};

use crate::own::{level_of, spare_of};
use dk_config::{Config, MAX_SPAN};
use dk_plan::windows_in;

/// Whether the spare of the level holds so many ticks in each window of a faster level, or of its own.
fn holds_each(config: &Config, level: u32, own: u32, ticks: u32) -> bool
    requires checked { IsChecked config.now }
    requires limits { IsWithinLimits config.now }
    requires accepted { IsAccepted config.now }
    requires level { level < length config.now.levels }
    requires own { own ≤ level }
    ensures { result ≡ nat_le (ticks * (period config.now level / period config.now own)) (spare config.now level) }
{
    ticks as u64 * windows_in(config, level, own) as u64 <= spare_of(config, level) as u64
}

/// The first level whose spare one tick more than the greatest allotment of the process alone would pass.
pub fn limiting_level(config: &Config, process: u32, most: u32) -> u32
    requires checked { IsChecked config.now }
    requires limits { IsWithinLimits config.now }
    requires accepted { IsAccepted config.now }
    requires process { process < length config.now.processes }
    requires own { IsOwnSlack config.now process most }
    requires few { most ≤ MAX_SPAN }
    ensures { IsFirstPassed config.now (alone process (most + 1)) result }
{
    let own = level_of(config, process);
    let last = config.levels.len() as u32 - 1;
    for level in own..last {
        if !holds_each(config, level, own, most + 1) {
            return level;
        }
    }
    last
}
