//! What is told of a need of a run.
ghost use Rattle.dk_config.specs.Configuration.{Configuration};
ghost use Rattle.dk_ledger.specs.Readable.{Journal};
ghost use Rattle.dk_needs_run.specs.declared.found.RunFound.{RunFound};
ghost use Rattle.dk_needs_run.specs.Rows.{IsExact};
ghost use Rattle.dk_needs_run.specs.Run.{IsRunOf};

use dk_audit::one_finding;

/// All rows of a need of a run that a ledger decides are met exactly where its entries follow the rules, and there are no
/// more windows overrun, calls refused and faults in them than are asked for.
pub fn run_law()
    ensures { (c : Configuration) (j : Journal) (run : RunFound) → IsRunOf c j run → IsExact c j run }
{
    one_finding();
}
