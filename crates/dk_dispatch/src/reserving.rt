//! The tables before the first tick, from a configuration that is certified: the recount of no entries.
ghost use Rattle.std.specs.Prelude.{◌≡◌, ◌+◌, ◌*◌, ◌<◌, ◌≤◌, ◌==◌, if◌then◌else◌, length, map, sum_by, IfOk};
ghost use Rattle.dk_config.specs.Checked.{IsAccepted, IsChecked, IsWithinLimits};
ghost use Rattle.dk_certify.specs.Verdicts.{rows_of};
ghost use Rattle.dk_slack.specs.Slack.{at_start};
ghost use Rattle.dk_slack.specs.Recount.{spares_of};
ghost use Rattle.dk_recount.specs.Recount.{releases_of, rights_of};
ghost use Rattle.dk_recount.specs.Start.{first_cells, first_parts, own_of, seated};

use crate::node::node_at;
use arrayvec::ArrayVec;
use dk_certify::{Table, Verdict, certify};
use dk_config::{Config, MAX_LEVELS, MAX_PROCESSES, MAX_SPAN, MAX_THREADS, NoMemory, ProcessRow};
use dk_demand::{Demand, cells_are_changed_by_level};
use dk_overhead::Job;
use dk_ready::Jobs;
use dk_slack::SlackTable;
use dk_steps::Steps;
use dk_trace::ThreadId;
use std::alloc::{AllocError, Global};
use std::sync::ledger::Ledger;

/// What certification found at each level of a certified configuration.
pub fn table_of(config: &Config) -> Table
    requires checked { IsChecked config.now }
    requires limits { IsWithinLimits config.now }
    requires accepted { IsAccepted config.now }
    ensures { result ≡ rows_of config.now }
{
    match certify(config) {
        Verdict::Accepted(table) => table,
        Verdict::Fails { .. } => unreachable!(),
    }
}

/// The ticks of each level's window that nobody can claim.
fn spares_of(table: &Table, levels: u8) -> ArrayVec<u32, MAX_LEVELS>
    requires known { length table.now ≡ levels }
    requires few { levels ≤ MAX_LEVELS }
    ensures { result.items ≡ map (λ row. row.spare) table.now }
{
    let mut spares = ArrayVec::new();
    for level in 0..levels {
        spares.push(table.row(level).spare);
    }
    spares
}

/// Nobody asks for slack.
pub fn slack_of(alloc: Global, config: &Config, table: &Table) -> Result<SlackTable, NoMemory>
    requires limits { IsWithinLimits config.now }
    requires rows { table.now ≡ rows_of config.now }
    ensures { IfOk result (λ slack. slack ≡ at_start config.now (spares_of config.now)) }
{
    let spares = spares_of(table, config.levels.len() as u8);
    SlackTable::reserve(alloc, config, spares.as_slice())
}

/// The kernel's own work in a window of each level.
pub fn releases_of(config: &Config) -> ArrayVec<u32, MAX_LEVELS>
    requires { length config.now.levels ≤ MAX_LEVELS }
    ensures { result.items ≡ releases_of config.now }
{
    let mut releases = ArrayVec::new();
    for level in config.levels.as_slice() {
        releases.push(level.release);
    }
    releases
}

/// Which processes may ask for slack.
pub fn rights_of(config: &Config) -> ArrayVec<bool, MAX_PROCESSES>
    requires { length config.now.processes ≤ MAX_PROCESSES }
    ensures { result.items ≡ rights_of config.now }
{
    let mut rights = ArrayVec::new();
    for process in config.processes.as_slice() {
        rights.push(process.slack);
    }
    rights
}

/// The kernel's own part of each level, at the start of its first window.
pub fn first_parts(alloc: Global, config: &Config) -> Result<Vec<Job>, AllocError>
    ensures { IfOk result (λ parts. parts.items ≡ first_parts config.now) }
{
    let mut parts = Vec::new(alloc);
    for level in config.levels.as_slice() {
        parts.push(Job::released(level.release))?;
    }
    Ok(parts)
}

/// The budget of the row, where its process is of the level.
fn budget_at(row: &ProcessRow, level: u32) -> u64
    ensures { result ≡ (if row.now.level == level then row.now.budget else 0) }
{
    if row.level == level {
        row.budget as u64
    } else {
        0
    }
}

/// The budgets of the level's processes together.
fn budgets_of(processes: &[ProcessRow], level: u32) -> u64
    requires { sum_by (λ row. if row.level == level then row.budget else 0) processes.now
        ≤ MAX_PROCESSES * MAX_SPAN }
    ensures { result ≡ sum_by (λ row. if row.level == level then row.budget else 0) processes.now }
{
    let mut sum = 0;
    for row in processes {
        sum += budget_at(row, level);
    }
    sum
}

/// What a level has to do itself in its first window.
fn own_of(config: &Config, level: u8) -> u64
    requires limits { IsWithinLimits config.now }
    requires known { level < length config.now.levels }
    ensures { result ≡ own_of config.now level }
{
    let row = config.levels[level as usize];
    row.release as u64 + budgets_of(config.processes.as_slice(), level as u32)
}

/// What the levels have to do at tick 0.
pub fn first_cells<L: Ledger>(config: &Config, table: &Table, steps: &mut Steps<L>) -> Demand
    requires checked { IsChecked config.now }
    requires limits { IsWithinLimits config.now }
    requires rows { table.now ≡ rows_of config.now }
    ensures { result ≡ first_cells config.now }
{
    cells_are_changed_by_level();
    let mut demand = Demand::at_start(config);
    for level in 0..config.levels.len() {
        let level = level as u8;
        let own = own_of(config, level);
        let remaining = table.row(level).demand;
        demand.released(level, own, remaining as u64, 0, steps);
    }
    demand
}

/// The main of the process sits down on its node, with its budget in its first window.
fn seat_main<L: Ledger>(config: &Config, process: u8, jobs: &mut Jobs, steps: &mut Steps<L>)
    requires checked { IsChecked config.now }
    requires limits { IsWithinLimits config.now }
    requires known { process < length config.now.processes }
    requires mains { jobs.old ≡ seated config.now process }
    ensures { jobs.new ≡ seated config.now (process + 1) }
{
    let row = &config.processes[process as usize];
    let main = ThreadId { process, serial: 0 };
    let node = node_at(process, 0);
    jobs.release(node, main, row.level as u8, row.budget, steps);
}

/// Each main on its node.
pub fn first_jobs<L: Ledger>(
    alloc: Global,
    config: &Config,
    steps: &mut Steps<L>,
) -> Result<Jobs, NoMemory>
    requires checked { IsChecked config.now }
    requires limits { IsWithinLimits config.now }
    ensures { IfOk result (λ jobs. jobs ≡ seated config.now (length config.now.processes)) }
{
    let processes = config.processes.len() as u32;
    let levels = config.levels.len() as u32;
    let mut jobs = Jobs::reserve(
        alloc,
        config.costs.switch,
        MAX_THREADS as u32 * processes,
        levels,
    )?;
    for process in 0..processes {
        seat_main(config, process as u8, &mut jobs, steps);
    }
    Ok(jobs)
}
