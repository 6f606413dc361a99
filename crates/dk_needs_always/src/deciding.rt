//! The rows of needs, with those that ask of all ticks decided.
ghost use Rattle.std.specs.Prelude.{ℕ, ◌≡◌, true, false, map, IfOk};
ghost use Rattle.dk_config.specs.Checked.{IsWithinLimits};
ghost use Rattle.dk_cycle.specs.Told.{IsRunTold};
ghost use Rattle.dk_kernel.specs.Booting.{IsLoaded};
ghost use Rattle.dk_needs_always.specs.Asking.{asked_row};
ghost use Rattle.dk_needs_always.specs.Deciding.{AreDecided, AreKept, AreNotKept};
ghost use Rattle.dk_needs_always.specs.Telling.{has_if_kept};

use crate::ALWAYS_TICKS;
use crate::asking::{AskedRow, asked_rows};
use crate::lending::keep_for_ever;
use crate::telling::{decided_rows, has_if_kept, kept_rows};
use dk_allotment::overdrawn_level;
use dk_config::{Config, NoMemory};
use dk_cycle::RunTold;
use dk_cycle_start::SecondPass;
use dk_loader::Loaded;
use dk_needs::Needs;
use dk_needs_check::{Row, asked_allotments};
use dk_repeat_search::find_always;
use std::alloc::Global;

fn asked_in(
    alloc: Global,
    config: &Config,
    needs: &Needs,
    rows: &[Row],
) -> Result<Vec<AskedRow>, NoMemory>
    requires { IsWithinLimits config.now }
    ensures { IfOk result (λ asked. asked.items ≡ map (asked_row config.now needs.now.rows) rows.now) }
{
    asked_rows(alloc, config, &needs.rows, rows)
}

/// Whether it is known that the allotments of slack that the needs ask for hold together, and that no process of the run ever
/// takes more. It is looked up where a row asks for it. `Err` is want of memory.
fn are_kept(
    alloc: Global,
    loaded: &Loaded,
    needs: &Needs,
    rows: &[Row],
    told: RunTold,
) -> Result<bool, NoMemory>
    requires loaded { IsLoaded loaded.now }
    requires told { (ticks : ℕ) × IsRunTold loaded.now.config loaded.now.programs ticks told }
    ensures kept { IfOk result (λ kept. kept ≡ true → AreKept loaded.now needs.now.rows) }
    ensures lost { IfOk result (λ kept. kept ≡ false → has_if_kept rows.now ≡ true → AreNotKept loaded.now needs.now.rows told) }
{
    if !has_if_kept(rows) {
        return Ok(false);
    }
    let allotments = asked_allotments(alloc, &loaded.config, &needs.rows)?;
    match overdrawn_level(&loaded.config, allotments.as_slice()) {
        Some(_) => Ok(false),
        None => keep_for_ever(alloc, loaded, allotments.as_slice(), told),
    }
}

/// These rows of needs, in their order, each of which asks of all ticks decided by the configuration with its programs:
/// whether a main waits in each of its windows, and whether the run repeats. A bound that holds where each process keeps to
/// its slack is tested where that is known of the run. Each other row stays, and so does one whose process isn't there. `Err`
/// is want of memory.
pub fn decide_always(
    alloc: Global,
    loaded: Loaded,
    needs: &Needs,
    rows: &[Row],
) -> Result<Vec<Row>, NoMemory>
    requires loaded { IsLoaded loaded }
    ensures { IfOk result (λ decided. AreDecided loaded needs.now.rows rows.now decided.items) }
{
    let asked = asked_in(alloc, &loaded.config, needs, rows)?;
    let pass = SecondPass::of(alloc, &loaded)?;
    let always = find_always(alloc, loaded, ALWAYS_TICKS)?;
    let kept = are_kept(alloc, &pass.early, needs, rows, always.run)?;
    let decided = decided_rows(alloc, &always, asked.as_slice())?;
    kept_rows(alloc, kept, decided.as_slice())
}
