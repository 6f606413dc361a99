//! Needs, tested against a configuration.
ghost use Rattle.std.specs.Prelude.{All, IfOk};
ghost use Rattle.dk_config.specs.Checked.{BreaksNoRule, IsChecked, IsWithinLimits};
ghost use Rattle.dk_needs.specs.Fit.{IsFit};
ghost use Rattle.dk_needs_check.specs.Unknown.{IsCheck};

use crate::asking::asked_allotments;
use crate::deciding::decide;
use crate::unknown::{Checking, unknown_of};
use dk_config::{Config, NoMemory};
use dk_needs::Needs;
use std::alloc::Global;

/// All that the needs tell of and the configuration hasn't got; and where it has got everything, a row for each thing that
/// they ask for. `Err` is want of memory.
///
/// A number that is told is the least or the greatest of its kind, and its row is met exactly where the bound holds. That it
/// holds of every run is promised where the configuration is certified.
pub fn check_needs(alloc: Global, config: &Config, needs: &Needs) -> Result<Checking, NoMemory>
    requires unbroken { BreaksNoRule config.now }
    requires checked { IsChecked config.now }
    requires limits { IsWithinLimits config.now }
    requires fit { All IsFit needs.now.rows }
    ensures { IfOk result (IsCheck config.now needs.now.rows) }
{
    let found = unknown_of(alloc, config, &needs.rows)?;
    if !found.is_empty() {
        return Ok(Checking::Unknown(found));
    }
    let allotments = asked_allotments(alloc, config, &needs.rows)?;
    let rows = decide(alloc, config, allotments.as_slice(), &needs.rows)?;
    Ok(Checking::Decided(rows))
}
