//! The windows of levels begin: cells, counts, the kernel's parts and shares, level by level and by the tables alone.
ghost use Rattle.std.specs.Prelude.{ℕ, ◌≡◌, ◌+◌, ◌*◌, ◌/◌, ◌<◌, ◌≤◌, ◌^◌, if◌then◌else◌, true, length, get_or};
ghost use Rattle.dk_config.specs.Sums.{below};
ghost use Rattle.dk_windows.specs.Clock.{begins_at, period_at};
ghost use Rattle.dk_budget.specs.Sound.{ArePeriods};
ghost use Rattle.dk_recount.specs.Opening.{AreKnown, all_rows, cell_steps, cells_begun, cells_set, counts_begun, kernel_work, parts_begun, shares_to_come};

use crate::opening::shares_by_level;
use arrayvec::ArrayVec;
use dk_budget::Loans;
use dk_config::{MAX_LEVELS, MAX_SPAN, MAX_THREADS};
use dk_demand::Demand;
use dk_ready::Parts;
use dk_slack::SlackTable;
use dk_steps::Steps;
use dk_threads::Threads;
use dk_windows::Windows;
use std::sync::ledger::Ledger;

/// The kernel's own work at the faster level in a window of the other.
fn faster_work(
    releases: &ArrayVec<u32, MAX_LEVELS>,
    windows: &Windows,
    faster: u8,
    level: u8,
) -> u64
    requires known { level < length windows.now.periods }
    requires faster { faster < length windows.now.periods }
    requires releases { length releases.now.items ≡ length windows.now.periods }
    ensures work { result ≡ get_or releases.now.items faster 0
        * (period_at windows.now level / period_at windows.now faster) }
    ensures few { result ≤ MAX_SPAN * 2 ^ 32 }
{
    let length = windows.period(level).ticks() as u64;
    let count = windows.period(faster).windows_in(length);
    releases[faster as usize] as u64 * count
}

/// The kernel's own work of the levels up to this one in a window of it.
fn kernel_work(releases: &ArrayVec<u32, MAX_LEVELS>, windows: &Windows, level: u8) -> u64
    requires known { level < length windows.now.periods }
    requires releases { length releases.now.items ≡ length windows.now.periods }
    requires periods { ArePeriods windows.now.periods }
    ensures work { result ≡ kernel_work releases.now.items windows.now level }
    ensures few { result ≤ MAX_LEVELS * MAX_SPAN * 2 ^ 32 }
{
    let mut sum: u64 = 0;
    for faster in 0..level + 1 {
        sum += faster_work(releases, windows, faster, level);
    }
    sum
}

/// All shares of the windows to come before the window of the level ends.
fn shares_to_come(loans: &Loans, windows: &Windows, processes: u8, level: u8) -> u64
    requires levels { windows.now.periods ≡ loans.now.periods }
    requires lenders { length loans.now.lenders ≡ processes }
    requires known { level < length windows.now.periods }
    ensures shares { result ≡ shares_to_come loans.now windows.now level }
    ensures few { result ≤ 2 ^ 8 * (MAX_THREADS * MAX_SPAN * MAX_SPAN) }
{
    let mut sum: u64 = 0;
    for process in 0..processes {
        sum += loans.future_shares(windows, process, level);
    }
    sum
}

/// The slowest level whose window begins, and 0 where none does.
fn slowest_begun(windows: &Windows, levels: u8) -> u8
    requires levels { length windows.now.periods ≡ levels }
    ensures { (level : ℕ) → level < levels → begins_at windows.now level ≡ true → level ≤ result }
{
    let mut slowest = 0;
    for level in 0..levels {
        if windows.begins(level) {
            slowest = level;
        }
    }
    slowest
}

/// Sets the cells of a level whose window begins, where the shares of its threads are known, and those
/// of the threads of all levels up to it.
fn begin_cell<L: Ledger>(
    loans: &Loans,
    releases: &ArrayVec<u32, MAX_LEVELS>,
    demand: &mut Demand,
    processes: u8,
    level: u8,
    own: u64,
    shares: u64,
    steps: &mut Steps<L>,
)
    requires levels { demand.old.windows.periods ≡ loans.now.periods }
    requires lenders { length loans.now.lenders ≡ processes }
    requires releases { length releases.now.items ≡ length demand.old.windows.periods }
    requires periods { ArePeriods demand.old.windows.periods }
    requires known { level < length demand.old.windows.periods }
    requires few_own { own ≤ 2 ^ 48 }
    requires few { shares ≤ 2 ^ 52 }
    ensures cells { demand.new ≡ (if begins_at demand.old.windows level
        then cells_set level (get_or releases.now.items level 0 + own)
        (kernel_work releases.now.items demand.old.windows level + shares
        + shares_to_come loans.now demand.old.windows level) demand.old
        else demand.old) }
    ensures steps { steps.new ≡ steps.old + (if begins_at demand.old.windows level then 3 else 0) }
{
    if demand.windows().begins(level) {
        let windows = demand.windows();
        let own = releases[level as usize] as u64 + own;
        let work = kernel_work(releases, windows, level);
        let remaining = work + shares + shares_to_come(loans, windows, processes, level);
        let blocking = demand.blocking(level);
        demand.released(level, own, remaining, blocking, steps);
    }
}

/// Sets the cells of all levels whose windows begin.
pub fn begin_cells<L: Ledger>(
    threads: &Threads,
    loans: &Loans,
    releases: &ArrayVec<u32, MAX_LEVELS>,
    demand: &mut Demand,
    processes: u8,
    steps: &mut Steps<L>,
)
    requires levels { demand.old.windows.periods ≡ loans.now.periods }
    requires processes { length threads.now.families ≡ processes }
    requires lenders { length loans.now.lenders ≡ processes }
    requires releases { length releases.now.items ≡ length demand.old.windows.periods }
    requires periods { ArePeriods demand.old.windows.periods }
    requires rows { AreKnown loans.now demand.old.windows (all_rows threads.now) }
    ensures cells { demand.new ≡ cells_begun releases.now.items threads.now loans.now
        (below (length releases.now.items)) demand.old }
    ensures steps { steps.new ≡ steps.old + cell_steps demand.old.windows (below (length releases.now.items)) }
{
    let levels = releases.len() as u8;
    let slowest = slowest_begun(demand.windows(), levels);
    let sums = shares_by_level(threads, loans, demand.windows(), processes, slowest);
    let mut shares: u64 = 0;
    for level in 0..levels {
        let own = sums[level as usize];
        shares += own;
        begin_cell(
            loans, releases, demand, processes, level, own, shares, steps,
        );
    }
}

/// The kernel's own part of each level whose window begins is anew.
pub fn begin_parts(kernel: &mut Parts, releases: &ArrayVec<u32, MAX_LEVELS>, windows: &Windows)
    requires parts { length kernel.old ≡ length windows.now.periods }
    requires releases { length releases.now.items ≡ length windows.now.periods }
    requires few { length windows.now.periods ≤ MAX_LEVELS }
    ensures { kernel.new ≡ parts_begun releases.now.items windows.now (below (length releases.now.items)) kernel.old }
{
    for level in 0..releases.len() {
        if windows.begins(level as u8) {
            kernel.begin(level as u8, releases[level]);
        }
    }
}

/// No tick is unclaimed of the windows that begin.
pub fn begin_counts(slack: &mut SlackTable, windows: &Windows, levels: u8)
    requires counts { length slack.old.unclaimed ≡ levels }
    requires levels { length windows.now.periods ≡ levels }
    ensures { slack.new ≡ record slack.old { unclaimed = counts_begun windows.now (below levels) slack.old.unclaimed } }
{
    for level in 0..levels {
        if windows.begins(level) {
            slack.window(level);
        }
    }
}
