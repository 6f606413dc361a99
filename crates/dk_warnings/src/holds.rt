//! The holds that no share of a process has room for.
ghost use Rattle.std.specs.Prelude.{◌≡◌, ◌+◌, ◌*◌, ◌<◌, ◌≤◌, ◌↔◌, IsTrue, length};
ghost use Rattle.dk_config.specs.Checked.{IsChecked, IsWithinLimits};
ghost use Rattle.dk_config.specs.Windows.{budget, longest_hold};
ghost use Rattle.dk_config.specs.declared.TheConstants.{MAX_SPAN};
ghost use Rattle.dk_trace.specs.Refusals.{least_share};
ghost use Rattle.dk_warnings.specs.Warnings.{NeverFits, greatest_child_share, greatest_share};
ghost use Rattle.dk_warnings.specs.Found.{room};

use dk_certify::level_row;
use dk_config::{Config, MAX_SPAN};

/// The ticks that the process has at most for its children, over each window of its own level.
fn most_lent(config: &Config, process: u32) -> u32
    requires checked { IsChecked config.now }
    requires limits { IsWithinLimits config.now }
    requires exists { process < length config.now.processes }
    ensures lent { result + least_share config.now ≡ budget config.now process }
    ensures few { result ≤ MAX_SPAN }
{
    config.processes.as_slice()[process as usize].budget - (2 * config.costs.switch + 1)
}

/// The greatest share of a child of the process, and 0 where it may have none.
pub(crate) fn child_share(config: &Config, process: u32) -> u64
    requires checked { IsChecked config.now }
    requires limits { IsWithinLimits config.now }
    requires exists { process < length config.now.processes }
    ensures share { result ≡ greatest_child_share config.now process }
{
    let row = &config.processes.as_slice()[process as usize];
    if row.threads == 0 {
        return 0;
    }
    let own = level_row(config, row.level as usize).period;
    let slowest = level_row(config, row.max_level as usize).period;
    most_lent(config, process) as u64 * slowest as u64 / own as u64
}

/// The hold of the mutex.
fn hold_of(config: &Config, mutex: u32) -> u32
    requires limits { IsWithinLimits config.now }
    requires exists { mutex < length config.now.mutexes }
    ensures hold { result ≡ longest_hold config.now mutex }
    ensures few { result ≤ MAX_SPAN }
{
    let row = &config.mutexes.as_slice()[mutex as usize];
    row.hold
}

/// The greatest share that a thread of the process can have of a window of its level.
fn greatest_share(config: &Config, process: u32) -> u64
    requires checked { IsChecked config.now }
    requires limits { IsWithinLimits config.now }
    requires exists { process < length config.now.processes }
    ensures { result ≡ greatest_share config.now process }
{
    let budget = config.processes.as_slice()[process as usize].budget;
    child_share(config, process).max(budget as u64)
}

/// The longest hold that the greatest share has room for.
pub(crate) fn room_of(config: &Config, process: u32) -> u64
    requires checked { IsChecked config.now }
    requires limits { IsWithinLimits config.now }
    requires exists { process < length config.now.processes }
    ensures { result ≡ room config.now process }
{
    greatest_share(config, process) - (2 * config.costs.switch + 1) as u64
}

/// Whether no thread of the process can ever have the time that a lock of the mutex asks for.
///
/// A thread can lock where its share has room for both switches, the last tick of the call and the hold; the earlier
/// ticks of the call may lie in the window before. `hold_never_fits_law` says what follows for every run.
pub fn never_fits(config: &Config, process: u32, mutex: u32) -> bool
    requires checked { IsChecked config.now }
    requires limits { IsWithinLimits config.now }
    requires process { process < length config.now.processes }
    requires mutex { mutex < length config.now.mutexes }
    ensures { IsTrue result ↔ NeverFits config.now process mutex }
{
    let least = 2 * config.costs.switch + 1;
    let share = greatest_share(config, process);
    share < hold_of(config, mutex) as u64 + least as u64
}
