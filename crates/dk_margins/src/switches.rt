//! The greatest cost of a switch.
ghost use Rattle.std.specs.Prelude.{◌≡◌, ◌≤◌, IfSome, length};
ghost use Rattle.dk_config.specs.Checked.{BreaksNoRule, IsChecked, IsWithinLimits};
ghost use Rattle.dk_margins.specs.Margins.{IsGreatest, Stands, with_switch};
ghost use Rattle.dk_margins.specs.Limits.{LimitsSwitch};

use dk_certify::{Verdict, certify};
use dk_config::{Config, MAX_COST, ProcessRow};

/// The greatest cost up to 255 with which each budget has room for both switches and one tick.
fn most_switch(processes: &[ProcessRow]) -> u32
    ensures limit { LimitsSwitch processes.now (length processes.now) result }
    ensures few { result ≤ MAX_COST }
{
    let mut most = MAX_COST;
    for row in processes {
        most = most.min(row.budget.saturating_sub(1) / 2);
    }
    most
}

/// The greatest cost of a switch with which the configuration breaks none of the rules C4 to C13 and is accepted,
/// whatever it costs now; `None` where there is none.
///
/// A budget counts with its switches, so the levels need the same whatever a switch costs: only the room of each budget
/// and the range limit it.
pub fn greatest_switch(config: &Config) -> Option<u32>
    requires unbroken { BreaksNoRule config.now }
    requires checked { IsChecked config.now }
    requires limits { IsWithinLimits config.now }
    ensures greatest { IsGreatest (λ switch. Stands (with_switch config.now switch)) result }
    ensures few { IfSome result (λ most. most ≤ MAX_COST) }
{
    match certify(config) {
        Verdict::Accepted(_) => Some(most_switch(&config.processes)),
        Verdict::Fails { .. } => None,
    }
}
