ghost use Rattle.std.specs.Prelude.{ℕ, ◌≡◌, ◌+◌, ◌-◌, ◌%◌, ◌<◌, ◌≤◌, ◌^◌, length, slice_index};
ghost use Rattle.dk_demand.specs.Levels.{adjusted, between, by_level};
ghost use Rattle.dk_demand.specs.Counters.{ahead, run_up_to};

use dk_steps::Steps;
use std::ops::Range;
use std::sync::ledger::Ledger;

/// The cell with `raise - lower` added, in the direction that the difference has.
pub fn adjusted(cell: u64, lower: u64, raise: u64) -> u64
    requires low { lower ≤ cell + raise }
    requires high { adjusted lower raise cell < 2 ^ 64 }
    ensures { result ≡ adjusted lower raise cell }
{
    if lower <= raise {
        cell + (raise - lower)
    } else {
        cell - (lower - raise)
    }
}

/// How far the counter has to run yet to the mark.
#[inline(always)]
pub fn ahead(mark: u64, counter: u64) -> u64
    ensures { result ≡ ahead mark counter }
{
    mark.wrapping_sub(counter)
}

/// How far the counters of the level and of all faster ones have run, as a sum that begins anew after
/// 2^64 as they do.
pub fn run_up_to(counters: &[u64], level: u8) -> u64
    requires { level < length counters.now }
    ensures { result ≡ run_up_to level counters.now % 2 ^ 64 }
{
    let mut sum: u64 = 0;
    for faster in 0..level as usize + 1 {
        sum = sum.wrapping_add(counters[faster]);
    }
    sum
}

/// Takes `less` off the cells of these levels, and adds `more`. One step for each.
pub fn adjust_between<L: Ledger>(
    cells: &mut [u32],
    levels: Range<u8>,
    less: u32,
    more: u32,
    steps: &mut Steps<L>,
)
    requires known { levels.end ≤ length cells.old }
    requires low { (j : ℕ) → levels.start ≤ j → j < levels.end → less ≤ slice_index cells.old j + more }
    requires high { 0 < more → (j : ℕ) → levels.start ≤ j → j < levels.end
        → adjusted less more (slice_index cells.old j) < 2 ^ 32 }
    ensures cells { cells.new ≡ by_level (between levels.start levels.end (adjusted less more)) cells.old }
    ensures steps { steps.new ≡ steps.old + (levels.end - levels.start) }
{
    for blocked in levels.start as usize..levels.end as usize {
        cells[blocked] = adjusted(cells[blocked] as u64, less as u64, more as u64) as u32;
        steps.tick();
    }
}
