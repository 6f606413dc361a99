//! The test of a configuration, level by level.
ghost use Rattle.std.specs.Prelude.{◌≡◌, ◌+◌, ◌*◌, ◌/◌, ◌<◌, ◌≤◌, ◌==◌, ◌||◌, ◌&&◌, nat_lt, if◌then◌else◌, length, sum_by, map, filter};
ghost use Rattle.std.specs.List.{list_any};
ghost use Rattle.dk_config.specs.Certification.{budgets_at, level_demand, can_block, uses};
ghost use Rattle.dk_config.specs.Checked.{IsChecked, IsWithinLimits, IsAccepted};
ghost use Rattle.dk_config.specs.Sums.{greatest};
ghost use Rattle.dk_config.specs.Windows.{period, release};
ghost use Rattle.dk_certify.specs.Bounds.{most_budgets, most_demand, most_work};
ghost use Rattle.dk_certify.specs.Verdicts.{verdict_of, rows_of, IfAccepted};

use crate::{Table, TableRow};
use dk_config::{Config, LevelRow, MAX_SPAN, MutexRow, ProcessRow};

/// The answer of the test.
#[derive(Drop)]
pub enum Verdict {
    /// Every level fits. The table has what was found at each.
    Accepted(Table),
    /// The first level that may miss its window: it can need `needs` ticks, and a window has `window`.
    Fails { level: u8, needs: u64, window: u32 },
}

/// The budgets of the level's processes together, in ticks per window of the level.
fn budgets_of(processes: &[ProcessRow], level: u32) -> u64
    requires { sum_by (λ row. if row.level == level then row.budget else 0) processes.now ≤ most_budgets }
    ensures sum { result ≡ sum_by (λ row. if row.level == level then row.budget else 0) processes.now }
    ensures bounded { result ≤ most_budgets }
{
    processes
        .iter()
        .map(|row| if row.level == level {
            row.budget as u64
        } else {
            0
        })
        .sum()
}

/// The level's row, whose numbers are in their ranges.
pub fn level_row(config: &Config, level: usize) -> LevelRow
    requires checked { IsChecked config.now }
    requires limits { IsWithinLimits config.now }
    requires exists { level < length config.now.levels }
    ensures period { result.period ≡ period config.now level }
    ensures release { result.release ≡ release config.now level }
    ensures positive { 0 < result.period }
    ensures short { result.period ≤ MAX_SPAN }
    ensures few { result.release ≤ MAX_SPAN }
{
    config.levels.as_slice()[level]
}

/// What one level can need in a window of a slower one, which has one or more of its windows.
fn work_of(config: &Config, level: usize, faster: usize) -> u64
    requires checked { IsChecked config.now }
    requires limits { IsWithinLimits config.now }
    requires exists { level < length config.now.levels }
    requires faster_exists { faster < length config.now.levels }
    ensures work { result
        ≡ (release config.now faster + budgets_at config.now faster) *
        (period config.now level / period config.now faster) }
    ensures bounded { result ≤ most_work }
{
    let window = level_row(config, level).period;
    let row = level_row(config, faster);
    let each = row.release as u64 + budgets_of(config.processes.as_slice(), faster as u32);
    each * (window / row.period) as u64
}

/// What the kernel and the budgets of the levels up to this one can need in one of its windows.
pub fn demand_of(config: &Config, level: usize) -> u64
    requires checked { IsChecked config.now }
    requires limits { IsWithinLimits config.now }
    requires exists { level < length config.now.levels }
    ensures demand { result ≡ level_demand config.now level }
    ensures bounded { result ≤ most_demand }
{
    let mut demand = 0;
    for faster in 0..level + 1 {
        demand += work_of(config, level, faster);
    }
    demand
}

/// Whether the process uses the mutex and can have a thread slower than the level.
fn is_slower_user(mutex: &MutexRow, level: u32, process: &ProcessRow) -> bool
    ensures { result ≡ (uses mutex.now process.now
        && (nat_lt level process.now.level || (nat_lt 0 process.now.threads && nat_lt level process.now.max_level))) }
{
    mutex.is_used_by(process)
        && (process.level > level || (process.threads > 0 && process.max_level > level))
}

fn has_slower_user(mutex: &MutexRow, level: u32, processes: &[ProcessRow]) -> bool
    ensures { result ≡ list_any (λ row. uses mutex.now row
        && (nat_lt level row.level || (nat_lt 0 row.threads && nat_lt level row.max_level))) processes.now }
{
    processes
        .iter()
        .any(|process| is_slower_user(mutex, level, process))
}

/// Whether a thread slower than the level can hold the mutex at that level or a faster one.
pub fn can_delay(config: &Config, level: u32, mutex: &MutexRow) -> bool
    ensures { result ≡ can_block config.now level mutex.now }
{
    mutex.ceiling <= level && has_slower_user(mutex, level, config.processes.as_slice())
}

/// The longest hold of these mutexes that can delay the level.
pub fn longest_delay(config: &Config, level: u32, mutexes: &[MutexRow]) -> u32
    ensures { result ≡ greatest (map (λ mutex. mutex.hold) (filter (can_block config.now level) mutexes.now)) }
{
    match mutexes {
        [] => 0,
        [first, rest @ ..] => {
            let later = longest_delay(config, level, rest);
            if can_delay(config, level, first) {
                first.hold.max(later)
            } else {
                later
            }
        }
    }
}

/// Whether every level's work fits its windows, and what was found at each; else the first level
/// that may miss one. It needs no memory.
///
/// A level can need the releases and budgets of all levels up to it, once for each of their windows
/// in its own, and waits at most once for a slower thread that holds a mutex at its level or a
/// faster one. Levels are rate-monotonic (Liu and Layland, 1973); the test is this project's own.
pub fn certify(config: &Config) -> Verdict
    requires checked { IsChecked config.now }
    requires limits { IsWithinLimits config.now }
    ensures verdict { result ≡ verdict_of config.now }
    ensures accepted { IfAccepted result (λ table. IsAccepted config.now) }
    ensures rows { IfAccepted result (λ table. table ≡ rows_of config.now) }
    ensures one_each { IfAccepted result (λ table. length table ≡ length config.now.levels) }
{
    let mut table = Table::new();
    for level in 0..config.levels.len() {
        let window = level_row(config, level).period;
        let demand = demand_of(config, level);
        let blocking = longest_delay(config, level as u32, config.mutexes.as_slice());
        let needs = demand + blocking as u64;
        if needs > window as u64 {
            return Verdict::Fails {
                level: level as u8,
                needs,
                window,
            };
        }
        table.push(TableRow {
            period: window,
            demand: demand as u32,
            blocking,
            spare: window - needs as u32,
        });
    }
    Verdict::Accepted(table)
}
