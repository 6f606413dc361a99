//! Needs, tested against a configuration and a ledger.
ghost use Rattle.std.specs.Prelude.{◌≡◌, All, [], flat_map, IfErr, IfOk};
ghost use Rattle.dk_config.specs.Checked.{BreaksNoRule, IsAccepted, IsChecked, IsWithinLimits};
ghost use Rattle.dk_needs.specs.Fit.{IsFit};
ghost use Rattle.dk_needs_check.specs.Rows.{AreRows};
ghost use Rattle.dk_needs_check.specs.Unknown.{unknown_of};
ghost use Rattle.dk_needs_run.specs.Rows.{AreRunRows, IsRunCheck, decided_by};
ghost use Rattle.dk_needs_run.specs.Run.{IsFaultIn};

use crate::reading::run_of;
use crate::rows::decided_rows;
use crate::{RunFault, RunFound};
use dk_config::{Config, NoMemory};
use dk_needs::Needs;
use dk_needs_check::{Checking, Row, check_needs};
use std::alloc::Global;

fn rows_with(
    alloc: Global,
    needs: &Needs,
    run: RunFound,
    before: &[Row],
) -> Result<Vec<Row>, NoMemory>
    ensures { IfOk result (λ rows. rows.items ≡ flat_map (decided_by needs.now.rows run) before.now) }
{
    decided_rows(alloc, &needs.rows, run, before)
}

/// The rows, with those of a run decided by the ledger in these bytes.
fn decide(
    alloc: Global,
    config: &Config,
    needs: &Needs,
    before: &[Row],
    bytes: &[u8],
) -> Result<Vec<Row>, RunFault>
    requires checked { IsChecked config.now }
    requires limits { IsWithinLimits config.now }
    requires accepted { IsAccepted config.now }
    requires known { unknown_of config.now needs.now.rows ≡ [] }
    requires are { AreRows config.now 0 needs.now.rows before.now }
    ensures rows { IfOk result (λ rows. AreRunRows config.now needs.now.rows bytes.now rows.items) }
    ensures fault { IfErr result (IsFaultIn config.now bytes.now) }
{
    let run = run_of(alloc, config, bytes)?;
    Ok(rows_with(alloc, needs, run, before)?)
}

/// As `check_needs` of dk_needs_check, with the needs of a run decided by the ledger in these bytes.
///
/// `Line` and `Other` are those of `run_of`. The ledger isn't read where the configuration hasn't got something.
pub fn check_needs_of_run(
    alloc: Global,
    config: &Config,
    needs: &Needs,
    bytes: &[u8],
) -> Result<Checking, RunFault>
    requires unbroken { BreaksNoRule config.now }
    requires checked { IsChecked config.now }
    requires limits { IsWithinLimits config.now }
    requires accepted { IsAccepted config.now }
    requires fit { All IsFit needs.now.rows }
    ensures check { IfOk result (IsRunCheck config.now needs.now.rows bytes.now) }
    ensures fault { IfErr result (IsFaultIn config.now bytes.now) }
{
    match check_needs(alloc, config, needs)? {
        Checking::Unknown(found) => Ok(Checking::Unknown(found)),
        Checking::Decided(before) => {
            let rows = decide(alloc, config, needs, before.as_slice(), bytes)?;
            Ok(Checking::Decided(rows))
        }
    }
}
