//! By when in its window a process has the slack that it is promised.
ghost use Rattle.std.specs.Prelude.{ℕ, ◌≡◌, ◌<◌, ◌≤◌, length};
ghost use Rattle.dk_config.specs.Checked.{IsChecked, IsWithinLimits};
ghost use Rattle.dk_config.specs.Windows.{main_level, period};
ghost use Rattle.dk_allotment.specs.Alone.{alone};
ghost use Rattle.dk_allotment.specs.Soon.{IsEnoughSlack};

use crate::own::level_of;
use dk_certify::level_row;
use dk_config::{Config, MAX_SPAN};
use dk_when::level_ahead;

/// After how many ticks of each of its windows a process has had so many ticks of slack, where no other has any: the
/// least number that is enough.
///
/// The search is that of response times (Joseph and Pandya, 1986), from below to the first number that is enough.
pub fn own_slack_by(config: &Config, process: u32, ticks: u32) -> u32
    requires checked { IsChecked config.now }
    requires limits { IsWithinLimits config.now }
    requires process { process < length config.now.processes }
    requires few { ticks ≤ MAX_SPAN }
    ensures reached { IsEnoughSlack config.now (alone process ticks) (main_level config.now process) result }
    ensures least { (f : ℕ) → IsEnoughSlack config.now (alone process ticks) (main_level config.now process) f → result ≤ f }
    ensures within { result ≤ period config.now (main_level config.now process) }
{
    let own = level_of(config, process);
    let window = level_row(config, own as usize).period;
    let mut least = 1;
    while least < window {
        let needs = level_ahead(config, own, least) + ticks as u64;
        if needs <= least as u64 {
            return least;
        }
        least = needs.min(window as u64) as u32;
    }
    window
}
