//! What needs ask of all ticks.
ghost use Rattle.std.specs.Prelude.{◌≡◌, map, IfOk};
ghost use Rattle.dk_config.specs.Checked.{IsWithinLimits};
ghost use Rattle.dk_needs_always.specs.Asking.{asked_by, asked_for, asked_row, asked_what, asks_always, is_for_ever};

use dk_config::{Config, NoMemory};
use dk_needs::{Need, Needs, What};
use dk_needs_check::{Answer, Reason, Row, process_named};
use std::alloc::Global;

/// What a row asks of all ticks.
#[derive(Clone, Copy)]
pub(crate) enum Asked {
    Nothing,
    /// That the main of the process of this number waits in each of its windows.
    Waits(u32),
    /// That the run repeats.
    Repeats,
}

/// A row, with what it asks of all ticks.
#[derive(Clone, Copy)]
pub(crate) struct AskedRow {
    pub(crate) row: Row,
    pub(crate) asked: Asked,
}

fn is_for_ever(need: &Need) -> bool
    ensures { result ≡ is_for_ever need.now }
{
    match &need.what {
        What::Always { .. } | What::Slack { .. } => true,
        What::Run { forever, .. } => *forever,
        _ => false,
    }
}

/// Whether a need asks that a process waits in each of its windows, for slack, or that the run repeats for ever, so that the
/// programs are wanted.
pub fn asks_always(needs: &Needs) -> bool
    ensures { result ≡ asks_always needs.now.rows }
{
    needs.rows.iter().any(is_for_ever)
}

/// What a need asks of all ticks.
fn asked_what(config: &Config, what: &What) -> Asked
    requires { IsWithinLimits config.now }
    ensures { result ≡ asked_what config.now what.now }
{
    match what {
        What::Always { process } => match process_named(config, process.as_str()) {
            Some(number) => Asked::Waits(number),
            None => Asked::Nothing,
        },
        What::Run { .. } => Asked::Repeats,
        _ => Asked::Nothing,
    }
}

/// What a row of a need asks of all ticks: a row that is decided asks nothing.
fn asked_for(config: &Config, what: &What, answer: Answer) -> Asked
    requires { IsWithinLimits config.now }
    ensures { result ≡ asked_for config.now what.now answer }
{
    match answer {
        Answer::Open(Reason::NotTested) => asked_what(config, what),
        _ => Asked::Nothing,
    }
}

fn asked_by(config: &Config, needs: &[Need], row: Row) -> Asked
    requires { IsWithinLimits config.now }
    ensures { result ≡ asked_by config.now needs.now row }
{
    match needs.get(row.need) {
        Some(need) => asked_for(config, &need.what, row.answer),
        None => Asked::Nothing,
    }
}

/// These rows, each with what it asks of all ticks.
pub(crate) fn asked_rows(
    alloc: Global,
    config: &Config,
    needs: &[Need],
    rows: &[Row],
) -> Result<Vec<AskedRow>, NoMemory>
    requires { IsWithinLimits config.now }
    ensures { IfOk result (λ asked. asked.items ≡ map (asked_row config.now needs.now) rows.now) }
{
    let mut found = Vec::new(alloc);
    for row in rows {
        let asked = asked_by(config, needs, *row);
        found.push(AskedRow { row: *row, asked })?;
    }
    Ok(found)
}
