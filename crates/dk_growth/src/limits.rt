//! What stands in the way of one percent more.
ghost use Rattle.std.specs.Prelude.{◌≡◌, ◌<◌};
ghost use Rattle.dk_config.specs.Certification.{first_failing};
ghost use Rattle.dk_config.specs.Checked.{BreaksNoRule, IsChecked, IsWithinLimits};
ghost use Rattle.dk_growth.specs.Growth.{LimitsGrowth, grown};
ghost use Rattle.dk_growth.specs.declared.TheConstants.{TOO_MANY_PERCENT};

use crate::growing::{all_stay_in_range, fits_grown};
use dk_config::Config;

/// The first level that fails with the budgets grown.
fn fails_grown(config: &Config, percent: u32) -> Option<u32>
    requires checked { IsChecked config.now }
    requires limits { IsWithinLimits config.now }
    requires grown { IsWithinLimits (grown config.now percent) }
    ensures { result ≡ first_failing (grown config.now percent) }
{
    for level in 0..config.levels.len() as u32 {
        if !fits_grown(config, percent, level) {
            return Some(level);
        }
    }
    None
}

/// The first level that fails when the budgets grow by one percent more than this; `None` where with it a budget is above
/// 1,000,000, or where no level fails.
pub fn growth_limit(config: &Config, most: u32) -> Option<u32>
    requires unbroken { BreaksNoRule config.now }
    requires checked { IsChecked config.now }
    requires limits { IsWithinLimits config.now }
    requires few { most < TOO_MANY_PERCENT }
    ensures { LimitsGrowth config.now most result }
{
    if !all_stay_in_range(most + 1, config.processes.as_slice()) {
        return None;
    }
    fails_grown(config, most + 1)
}
