//! How a chain goes on from job to job in a ledger, by tables with a row for each window.
ghost use Rattle.std.specs.Prelude.{ℕ, ◌+◌, ◌*◌, ◌/◌, ◌≡◌, ◌<◌, ◌≤◌, List, [], ◌∷◌, All, length, map, option_map, slice_get, Some, IfOk};
ghost use Rattle.std.specs.Option.{option_and_then};
ghost use Rattle.dk_config.specs.Checked.{IsChecked, IsWithinLimits};
ghost use Rattle.dk_config.specs.Configuration.{Configuration};
ghost use Rattle.dk_config.specs.Windows.{main_level, period};
ghost use Rattle.dk_config.specs.declared.TheConstants.{MAX_RUN_TICKS};
ghost use Rattle.dk_trace.specs.declared.Entry.{Entry as TickEntry};
ghost use Rattle.dk_chain_ledger.specs.Jobs.{job_in, job_of, window_of};
ghost use Rattle.dk_chain_ledger.specs.Tables.{IsTableOf, IsTrackOf, next_window, through, told};

use crate::jobs::{Job, job_in};
use dk_config::{Config, NoMemory};
use dk_trace::{Entry, ThreadId};
use std::alloc::Global;

/// The windows of a process of a chain that a ledger has whole.
#[derive(Drop)]
pub(crate) struct Track {
    /// The ticks of a window.
    pub(crate) ticks: u32,
    /// The main's job in each.
    pub(crate) jobs: Vec<Option<Job>>,
    /// By which tick the rest of the chain is through, that begins with this job.
    pub(crate) ends: Vec<Option<u32>>,
}

/// The ticks of a window of the process.
fn period_of(config: &Config, process: u32) -> u32
    requires checked { IsChecked config.now }
    requires limits { IsWithinLimits config.now }
    requires process { process < length config.now.processes }
    ensures period { result ≡ period config.now (main_level config.now process) }
    ensures some { 0 < result }
{
    let level = config.processes.as_slice()[process as usize].level;
    config.levels.as_slice()[level as usize].period
}

/// The main's job in the window of this number, which the ledger has whole.
fn job_of_window(main: ThreadId, entries: &[Entry], ticks: u32, window: usize) -> Option<Job>
    requires some { 0 < ticks }
    requires whole { window < length entries.now / ticks }
    requires few { length entries.now ≤ MAX_RUN_TICKS }
    ensures { result ≡ job_in main (window_of entries.now ticks window) (window * ticks) }
{
    let start = window * ticks as usize;
    let end = start + ticks as usize;
    job_in(main, &entries[start..end], start as u32)
}

/// The jobs of the process by the numbers of their windows.
fn jobs_of(
    alloc: Global,
    config: &Config,
    entries: &[Entry],
    process: u32,
) -> Result<Vec<Option<Job>>, NoMemory>
    requires checked { IsChecked config.now }
    requires limits { IsWithinLimits config.now }
    requires process { process < length config.now.processes }
    requires few { length entries.now ≤ MAX_RUN_TICKS }
    ensures jobs { IfOk result (λ v. IsTableOf (job_of config.now entries.now process) v.items) }
    ensures size { IfOk result (λ v. length v.items ≡ length entries.now / period config.now (main_level config.now process)) }
{
    let main = ThreadId {
        process: process as u8,
        serial: 0,
    };
    let ticks = period_of(config, process);
    let mut jobs = Vec::new(alloc);
    for window in 0..entries.len() / ticks as usize {
        jobs.push(job_of_window(main, entries, ticks, window))?;
    }
    Ok(jobs)
}

fn job_at(jobs: &[Option<Job>], window: usize) -> Option<Job>
    ensures { result ≡ told jobs.now window }
{
    match jobs.get(window) {
        Some(job) => *job,
        None => None,
    }
}

/// By which tick the window of this number ends the chain.
pub(crate) fn end_at(ends: &[Option<u32>], window: usize) -> Option<u32>
    ensures { result ≡ told ends.now window }
{
    match ends.get(window) {
        Some(end) => *end,
        None => None,
    }
}

/// The window of the next job, once the job before is over at this tick.
fn next_window(jobs: &[Option<Job>], ticks: u32, over: u32) -> usize
    requires some { 0 < ticks }
    ensures { result ≡ next_window (told jobs.now) ticks over }
{
    let window = (over.saturating_sub(1) / ticks) as usize;
    match job_at(jobs, window) {
        Some(job) if job.begun < over => window + 1,
        _ => window,
    }
}

/// By which tick the chain is through that begins with this job and goes on with these windows.
fn end_after(job: Option<Job>, next: &Track) -> Option<u32>
    requires some { 0 < next.now.ticks }
    ensures { result ≡ option_and_then (λ j. told next.now.ends.items (next_window (told next.now.jobs.items) next.now.ticks j.over)) job }
{
    let job = job?;
    let window = next_window(next.jobs.as_slice(), next.ticks, job.over);
    end_at(next.ends.as_slice(), window)
}

fn ends_of_last(alloc: Global, jobs: &[Option<Job>]) -> Result<Vec<Option<u32>>, NoMemory>
    ensures { IfOk result (λ v. v.items ≡ map (option_map (λ j. j.over)) jobs.now) }
{
    let mut ends = Vec::new(alloc);
    for job in jobs {
        ends.push(match job {
            Some(job) => Some(job.over),
            None => None,
        })?;
    }
    Ok(ends)
}

fn ends_before(
    alloc: Global,
    jobs: &[Option<Job>],
    next: &Track,
) -> Result<Vec<Option<u32>>, NoMemory>
    requires some { 0 < next.now.ticks }
    ensures { IfOk result (λ v. v.items ≡ map (option_and_then (λ j. told next.now.ends.items (next_window (told next.now.jobs.items) next.now.ticks j.over))) jobs.now) }
{
    let mut ends = Vec::new(alloc);
    for job in jobs {
        ends.push(end_after(*job, next))?;
    }
    Ok(ends)
}

/// The windows of the last process of a chain.
fn last_track(
    alloc: Global,
    config: &Config,
    entries: &[Entry],
    process: u32,
) -> Result<Track, NoMemory>
    requires checked { IsChecked config.now }
    requires limits { IsWithinLimits config.now }
    requires process { process < length config.now.processes }
    requires few { length entries.now ≤ MAX_RUN_TICKS }
    ensures track { IfOk result (IsTrackOf config.now entries.now process []) }
    ensures size { IfOk result (λ t. length t.ends.items * t.ticks ≤ length entries.now) }
    ensures some { IfOk result (λ t. 0 < t.ticks) }
{
    let jobs = jobs_of(alloc, config, entries, process)?;
    let ends = ends_of_last(alloc, jobs.as_slice())?;
    let ticks = period_of(config, process);
    Ok(Track { ticks, jobs, ends })
}

/// The windows of a process of a chain, before those of the next one.
fn track_before(
    alloc: Global,
    config: &Config,
    entries: &[Entry],
    process: u32,
    next: &Track,
) -> Result<Track, NoMemory>
    requires checked { IsChecked config.now }
    requires limits { IsWithinLimits config.now }
    requires process { process < length config.now.processes }
    requires few { length entries.now ≤ MAX_RUN_TICKS }
    requires next { 0 < next.now.ticks }
    ensures track { IfOk result (λ t. (q : ℕ) (rest : List ℕ) → IsTrackOf config.now entries.now q rest next.now
        → IsTrackOf config.now entries.now process (q ∷ rest) t) }
    ensures size { IfOk result (λ t. length t.ends.items * t.ticks ≤ length entries.now) }
    ensures some { IfOk result (λ t. 0 < t.ticks) }
{
    let jobs = jobs_of(alloc, config, entries, process)?;
    let ends = ends_before(alloc, jobs.as_slice(), next)?;
    let ticks = period_of(config, process);
    Ok(Track { ticks, jobs, ends })
}

/// The process at this place of the chain.
fn process_at(first: u32, rest: &[u32], place: usize) -> u32
    requires { place ≤ length rest.now }
    ensures { slice_get (first ∷ rest.now) place ≡ Some result }
{
    if place == 0 { first } else { rest[place - 1] }
}

/// The windows of the first process of a chain that goes on with the others.
pub(crate) fn track_of(
    alloc: Global,
    config: &Config,
    entries: &[Entry],
    first: u32,
    rest: &[u32],
) -> Result<Track, NoMemory>
    requires checked { IsChecked config.now }
    requires limits { IsWithinLimits config.now }
    requires there { All (λ p. p < length config.now.processes) (first ∷ rest.now) }
    requires few { length entries.now ≤ MAX_RUN_TICKS }
    ensures track { IfOk result (IsTrackOf config.now entries.now first rest.now) }
    ensures size { IfOk result (λ t. length t.ends.items * t.ticks ≤ length entries.now) }
    ensures some { IfOk result (λ t. 0 < t.ticks) }
{
    let last = process_at(first, rest, rest.len());
    let mut track = last_track(alloc, config, entries, last)?;
    for place in (0..rest.len()).rev() {
        let process = process_at(first, rest, place);
        track = track_before(alloc, config, entries, process, &track)?;
    }
    Ok(track)
}
