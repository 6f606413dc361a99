//! All rules that a configuration breaks.
ghost use Rattle.std.specs.Prelude.{◌≡◌, ◌++◌, OnOk, IfOk, slice_get};
ghost use Rattle.dk_config.specs.Rules.{all_tests};
ghost use Rattle.dk_config.specs.Tests.{first_broken};
ghost use Rattle.dk_faults.specs.Faults.{HasFewRows, broken};

use crate::levels::{add_budget_faults, add_level_faults, add_period_faults, add_slowest_faults};
use crate::names::{add_again_faults, add_name_faults};
use crate::ranges::{add_count_faults, add_range_faults, add_version_faults};
use crate::users::add_user_faults;
use dk_config::{Config, ConfigFault, NoMemory};
use std::alloc::Global;

// All of them, in their order.
fn add_faults(found: &mut Vec<ConfigFault>, config: &Config) -> Result<(), NoMemory>
    requires few { HasFewRows config.now }
    ensures { OnOk result (found.new.items ≡ found.old.items
        ++ broken (all_tests config.now)) }
{
    add_version_faults(found, config)?;
    add_count_faults(found, config)?;
    add_range_faults(found, config)?;
    add_period_faults(found, config)?;
    add_name_faults(found, config)?;
    add_again_faults(found, config)?;
    add_level_faults(found, config)?;
    add_budget_faults(found, config)?;
    add_user_faults(found, config)?;
    add_slowest_faults(found, config)?;
    Ok(())
}

/// All of the rules C4 to C13 that the configuration breaks: one fault for each test that fails, by number, then by
/// section, row and field. The first is the one that `dk_config::check` tells. `Err` is want of memory.
pub fn faults(alloc: Global, config: &Config) -> Result<Vec<ConfigFault>, NoMemory>
    requires few { HasFewRows config.now }
    ensures all { IfOk result (λ found. found.items ≡ broken (all_tests config.now)) }
    ensures first { IfOk result (λ found. slice_get found.items 0 ≡ first_broken (all_tests config.now)) }
{
    let mut found = Vec::new(alloc);
    add_faults(&mut found, config)?;
    Ok(found)
}
