//! What the column of a process comes to.
ghost use Rattle.std.specs.Prelude.{◌≡◌, ◌≤◌, length, option_map, IfOk};
ghost use Rattle.std.specs.List.{AllByRecursion, filter_map};
ghost use Rattle.dk_config.specs.Checked.{IsWithinLimits};
ghost use Rattle.dk_config.specs.declared.rows.ProcessRow.{ProcessRow as Process};
ghost use Rattle.dk_profile.specs.declared.TheConstants.{MAX_PROFILE_BYTES, MAX_WORK};
ghost use Rattle.dk_times.specs.Laws.{IsTime};
ghost use Rattle.dk_times.specs.Table.{told};
ghost use Rattle.show_budgets.specs.Least.{IsShort, LeastIsLeast, UsesItsTable, ask_of, budget_of, longer, measure_of, times_for};
ghost use Rattle.show_budgets.specs.declared.measure.TheConstants.{MAX_RESERVE};

use crate::tops::tops_of;
use dk_config::{Config, NoMemory, ProcessRow};
use dk_replay_run::tables_law;
use dk_times::{Cell, jobs_law, read_cells};
use std::alloc::{AllocError, Global};

/// The greatest reserve, in percent.
pub const MAX_RESERVE: u32 = 1000;

/// What the measured jobs of a process come to.
#[derive(Clone, Copy)]
pub struct Measure {
    /// How many jobs were measured.
    pub jobs: u64,
    /// The ticks of the longest.
    pub greatest: u32,
    /// The ticks of the longest of the others, 0 where there is none.
    pub second: u32,
    /// The least budget with which each of them has room with both switches in its window.
    pub least: u32,
    /// The same where each takes longer by the reserve.
    pub budget: u32,
}

/// So many ticks and so many percent more, rounded up to a whole tick.
pub(crate) fn longer(percent: u32, ticks: u32) -> u32
    requires short { ticks ≤ MAX_WORK }
    requires reserve { percent ≤ MAX_RESERVE }
    ensures is { result ≡ longer percent ticks }
    ensures bounded { result ≤ 11_000_000 }
{
    ticks + ((ticks as u64 * percent as u64 + 99) / 100) as u32
}

/// The budget that a job of so many ticks needs, where it takes longer by the reserve.
fn budget_of(config: &Config, percent: u32, ticks: u32) -> u32
    requires limits { IsWithinLimits config.now }
    requires short { ticks ≤ MAX_WORK }
    requires reserve { percent ≤ MAX_RESERVE }
    ensures { result ≡ budget_of config.now percent ticks }
{
    longer(percent, ticks) + 2 * config.costs.switch
}

fn times_in(alloc: Global, cells: &[Cell]) -> Result<Vec<u32>, AllocError>
    ensures { IfOk result (λ v. v.items ≡ filter_map told cells.now) }
{
    let mut times = Vec::new(alloc);
    for cell in cells {
        if let Ok(ticks) = cell.says {
            times.push(ticks)?;
        }
    }
    Ok(times)
}

#[tactic(auto, using(crate::proofs::Least::greatest_within, crate::proofs::Least::second_within))]
fn measure_of(config: &Config, percent: u32, times: &[u32]) -> Measure
    requires limits { IsWithinLimits config.now }
    requires reserve { percent ≤ MAX_RESERVE }
    requires times { AllByRecursion (IsTime config.now.costs.call) times.now }
    ensures is { result ≡ measure_of config.now percent times.now }
    ensures short { result.second ≤ MAX_WORK }
{
    let tops = tops_of(times);
    Measure {
        jobs: times.len() as u64,
        greatest: tops.greatest,
        second: tops.second,
        least: budget_of(config, 0, tops.greatest),
        budget: budget_of(config, percent, tops.greatest),
    }
}

/// What the column of a process comes to, and nothing where it has no jobs.
pub(crate) fn ask_of(
    alloc: Global,
    config: &Config,
    percent: u32,
    table: &[u8],
    row: &ProcessRow,
) -> Result<Option<Measure>, NoMemory>
    requires limits { IsWithinLimits config.now }
    requires reserve { percent ≤ MAX_RESERVE }
    requires few { length table.now ≤ MAX_PROFILE_BYTES }
    ensures is { IfOk result (λ ask. ask ≡ ask_of config.now percent table.now row.now) }
    ensures short { IfOk result IsShort }
{
    jobs_law();
    let cells = read_cells(
        alloc,
        config.costs.call,
        row.name.as_str().as_bytes(),
        table,
    )?;
    let times = times_in(alloc, &cells)?;
    if times.is_empty() {
        return Ok(None);
    }
    Ok(Some(measure_of(config, percent, times.as_slice())))
}

/// The told budgets are least: with them each job of the column, longer by the reserve, has room with both switches in its
/// window, and with none that is less. In every run of an accepted configuration a process with neither children nor slack, whose
/// budget has room for its times, of which one is longer than its wait, and with the program of its column, uses in window k
/// exactly the time of row k and both switches, and it waits.
pub fn least_law()
    ensures least { LeastIsLeast }
    ensures runs { UsesItsTable }
{
    tables_law();
    jobs_law();
}
