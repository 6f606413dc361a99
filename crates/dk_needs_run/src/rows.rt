//! The rows of needs of a run.
ghost use Rattle.std.specs.Prelude.{◌≡◌, ◌++◌, flat_map, IfOk, OnOk};
ghost use Rattle.dk_needs_run.specs.Rows.{bound_row, decided_by, decided_row, ledger_rows, run_rows};

use crate::RunFound;
use dk_config::NoMemory;
use dk_needs::{Need, What};
use dk_needs_check::{Answer, Bound, Measure, Reason, Row};
use std::alloc::Global;

/// Adds the row of a number, where anything is asked of it.
fn add_bound(
    rows: &mut Vec<Row>,
    need: usize,
    measure: Measure,
    number: u32,
    asked: Option<u32>,
) -> Result<(), NoMemory>
    ensures { OnOk result (rows.new.items ≡ rows.old.items ++ bound_row need measure number asked) }
{
    if let Some(asked) = asked {
        let bound = Bound {
            measure,
            number: Some(number),
            asked,
        };
        rows.push(Row {
            need,
            answer: Answer::Tested(bound),
        })?;
    }
    Ok(())
}

/// Adds what the audit found, and each number that is asked for.
fn add_run(
    rows: &mut Vec<Row>,
    need: usize,
    run: RunFound,
    overruns: Option<u32>,
    refused: Option<u32>,
    faults: Option<u32>,
) -> Result<(), NoMemory>
    ensures { OnOk result (rows.new.items ≡ rows.old.items ++ run_rows need run overruns refused faults) }
{
    rows.push(Row {
        need,
        answer: Answer::Audited(run.audit),
    })?;
    add_bound(rows, need, Measure::Overruns, run.overruns, overruns)?;
    add_bound(rows, need, Measure::Refused, run.refused, refused)?;
    add_bound(rows, need, Measure::Faults, run.faults, faults)
}

/// Adds the row of a need of a run, decided where it asks for a ledger.
fn add_of_run(
    rows: &mut Vec<Row>,
    run: RunFound,
    row: Row,
    overruns: Option<u32>,
    refused: Option<u32>,
    faults: Option<u32>,
) -> Result<(), NoMemory>
    ensures { OnOk result (rows.new.items ≡ rows.old.items ++ ledger_rows run row overruns refused faults row.answer) }
{
    match row.answer {
        Answer::Open(Reason::NoLedger) => {
            add_run(rows, row.need, run, overruns, refused, faults)
        }
        _ => {
            rows.push(row)?;
            Ok(())
        }
    }
}

/// Adds a row, decided where its need is of a run and asks for a ledger.
fn add_decided(rows: &mut Vec<Row>, run: RunFound, row: Row, what: &What) -> Result<(), NoMemory>
    ensures { OnOk result (rows.new.items ≡ rows.old.items ++ decided_row run row what.now) }
{
    match what {
        What::Run {
            overruns,
            refused,
            faults,
            ..
        } => add_of_run(rows, run, row, *overruns, *refused, *faults),
        _ => {
            rows.push(row)?;
            Ok(())
        }
    }
}

fn add_row(rows: &mut Vec<Row>, needs: &[Need], run: RunFound, row: Row) -> Result<(), NoMemory>
    ensures { OnOk result (rows.new.items ≡ rows.old.items ++ decided_by needs.now run row) }
{
    match needs.get(row.need) {
        Some(need) => add_decided(rows, run, row, &need.what),
        None => {
            rows.push(row)?;
            Ok(())
        }
    }
}

/// These rows, with those of a run decided.
pub(crate) fn decided_rows(
    alloc: Global,
    needs: &[Need],
    run: RunFound,
    before: &[Row],
) -> Result<Vec<Row>, NoMemory>
    ensures { IfOk result (λ rows. rows.items ≡ flat_map (decided_by needs.now run) before.now) }
{
    let mut rows = Vec::new(alloc);
    for row in before {
        add_row(&mut rows, needs, run, *row)?;
    }
    Ok(rows)
}
