//! Whether all budgets certify together.
ghost use Rattle.std.specs.Prelude.{◌≡◌, ◌≤◌, length};
ghost use Rattle.show_budgets.specs.Together.{CanRun, IfCertified, ask_budget, rows_asked, together, with_asked, FitTogether, LeastTogether, RunTogether};

use crate::measure::Measure;
use dk_certify::{Overload, Verdict, certify};
use dk_config::{Config, ConfigFault, Layout, ProcessRow};
use dk_replay_run::tables_law;
use dk_times::jobs_law;

/// Whether a configuration with all budgets can be run.
#[derive(Clone, Copy)]
pub enum Together {
    /// It is certified.
    Certified,
    /// The first level that may miss its window.
    Fails(Overload),
    /// The first rule that it breaks.
    Broken(ConfigFault),
}

/// The budget that a process gets.
fn ask_budget(now: u32, ask: Option<Measure>) -> u32
    ensures { result ≡ ask_budget now ask }
{
    match ask {
        Some(measure) => measure.budget,
        None => now,
    }
}

/// Each process with the budget that it gets.
fn set_budgets(rows: &mut [ProcessRow], asks: &[Option<Measure>])
    ensures { rows.new ≡ rows_asked rows.old asks.now }
{
    if let Some((row, rows)) = rows.split_first_mut() {
        if let Some((ask, asks)) = asks.split_first() {
            row.budget = ask_budget(row.budget, *ask);
            set_budgets(rows, asks);
        }
    }
}

/// The configuration with the budgets that its processes get.
pub(crate) fn with_asked(config: Config, asks: &[Option<Measure>]) -> Config
    ensures { result ≡ with_asked config asks.now }
{
    let mut config = config;
    set_budgets(config.processes.as_mut_slice(), asks);
    config
}

/// Whether it can be run.
pub(crate) fn verdict_on(config: Config) -> Together
    ensures is { result ≡ together config }
    ensures certain { IfCertified result (CanRun config) }
{
    match Layout::of(config) {
        Ok(layout) => match certify(layout.config()) {
            Verdict::Accepted(_) => Together::Certified,
            Verdict::Fails {
                level,
                needs,
                window,
            } => Together::Fails(Overload {
                level,
                needs,
                window,
            }),
        },
        Err(fault) => Together::Broken(fault),
    }
}

/// With all told budgets together each is the least with which each job of its column, longer by the reserve, has room with both
/// switches in one window, and each job as it was measured has room too. So where the configuration with all of them is accepted, a
/// process with neither children nor slack, of which one time is longer than its wait, and with the program of its column, uses in
/// window k of every run exactly the time of row k and both switches, and it waits.
pub fn together_law()
    ensures least { LeastTogether }
    ensures fit { FitTogether }
    ensures runs { RunTogether }
{
    tables_law();
    jobs_law();
}
