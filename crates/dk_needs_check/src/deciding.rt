//! What is told of all needs.
ghost use Rattle.std.specs.Prelude.{◌≡◌, ◌++◌, All, length, IfOk, OnOk};
ghost use Rattle.dk_config.specs.Checked.{BreaksNoRule, IsChecked, IsWithinLimits};
ghost use Rattle.dk_needs.specs.Fit.{IsFit};
ghost use Rattle.dk_needs_check.specs.Rows.{AreRowsFrom, row_of, rows_of};

use crate::answers::answers_of;
use crate::{Answer, Answers, Row};
use dk_config::{Config, NoMemory};
use dk_needs::Need;
use std::alloc::{AllocError, Global};

fn add(rows: &mut Vec<Row>, need: usize, answer: Option<Answer>) -> Result<(), AllocError>
    ensures { OnOk result (rows.new.items ≡ rows.old.items ++ row_of need answer) }
{
    if let Some(answer) = answer {
        rows.push(Row { need, answer })?;
    }
    Ok(())
}

fn add_answers(rows: &mut Vec<Row>, need: usize, answers: Answers) -> Result<(), AllocError>
    ensures { OnOk result (rows.new.items ≡ rows.old.items ++ rows_of need answers) }
{
    add(rows, need, answers.first)?;
    add(rows, need, answers.second)
}

/// For each need, in order, a row for each thing that it asks for, with the number of the configuration and what is asked of
/// it. The configuration is certified where this is to hold of its runs. The allotments are those that needs ask for. `Err`
/// is want of memory.
pub(crate) fn decide(
    alloc: Global,
    config: &Config,
    allotments: &[u32],
    needs: &[Need],
) -> Result<Vec<Row>, NoMemory>
    requires unbroken { BreaksNoRule config.now }
    requires checked { IsChecked config.now }
    requires limits { IsWithinLimits config.now }
    requires one_each { length allotments.now ≡ length config.now.processes }
    requires fit { All IsFit needs.now }
    ensures { IfOk result (λ rows. AreRowsFrom config.now allotments.now 0 needs.now rows.items) }
{
    let mut rows = Vec::new(alloc);
    for (i, need) in needs.iter().enumerate() {
        let answers = answers_of(alloc, config, allotments, &need.what)?;
        add_answers(&mut rows, i, answers)?;
    }
    Ok(rows)
}
