//! What always comes before the first job of a chain.
ghost use Rattle.std.specs.Prelude.{◌≡◌, ◌<◌, length};
ghost use Rattle.dk_bound.specs.Laws.{Always};
ghost use Rattle.dk_config.specs.Checked.{IsChecked, IsWithinLimits};
ghost use Rattle.dk_chain.specs.Sooner.{ReactsSooner, releases_before};

use crate::reacting::level_of;
use dk_certify::level_row;
use dk_config::Config;

/// The ticks of the kernel's own work that come first in each window of the process: that of its level and of the faster
/// ones.
#[tactic(auto, using(crate::proofs::Releases::sum_more))]
pub fn releases_before(config: &Config, process: u32) -> u64
    requires checked { IsChecked config.now }
    requires limits { IsWithinLimits config.now }
    requires exists { process < length config.now.processes }
    ensures { result ≡ releases_before config.now process }
{
    let level = level_of(config, process);
    let mut ticks = 0;
    for faster in 0..level + 1 {
        ticks += level_row(config, faster as usize).release as u64;
    }
    ticks
}

/// A chain answers an event that comes up to so many ticks later, as the kernel's own work of the levels up to the first
/// process's takes, by the same tick: that work comes first in each window, so the first job has not begun by then. So the
/// reaction time is by so much shorter, if a job counts that has not begun before the event.
pub fn sooner_law()
    ensures { Always ReactsSooner }
{}
