//! Whether each window of a process has enough, for ever.
ghost use Rattle.std.specs.Prelude.{◌≡◌, ◌<◌, IfOk, length};
ghost use Rattle.dk_cycle.specs.Seeking.{HasNoOwnCycle};
ghost use Rattle.dk_cycle.specs.Waiting.{IsWaits};
ghost use Rattle.dk_repeat_search.specs.Repeats.{searched_ticks};
ghost use Rattle.show_impact.specs.Impacts.{IsWaiting, Keeps};

use crate::{CertifiedLoad, Waiting};
use dk_config::NoMemory;
use dk_cycle::Waits;
use dk_impact::enough_law;
use dk_isa::holds_call;
use dk_repeat_search::find_always;
use std::alloc::Global;

/// So many ticks of the old configuration's run are searched for what a process does for ever.
pub const WAIT_TICKS: u32 = 1_000_000;

/// The number of the call that locks a mutex.
const LOCK: u8 = 5;

/// Of a process that waits in each of its windows.
fn waiting_always(load: &CertifiedLoad, process: u32) -> Waiting
    requires keeps { Keeps load.now process }
    requires waits { IsWaits load.now.config load.now.programs process (searched_ticks WAIT_TICKS) Waits.Always }
    ensures { IsWaiting load.now process result }
{
    let _config = load.config();
    enough_law();
    if holds_call(load.program(process), LOCK) {
        Waiting::Locks
    } else {
        Waiting::Always
    }
}

/// By what is found of its windows.
fn waiting_by(load: &CertifiedLoad, process: u32, waits: Waits) -> Waiting
    requires keeps { Keeps load.now process }
    requires waits { IsWaits load.now.config load.now.programs process (searched_ticks WAIT_TICKS) waits }
    requires none { waits ≡ Waits.NotWithin → HasNoOwnCycle load.now.config load.now.programs process (searched_ticks WAIT_TICKS) }
    ensures { IsWaiting load.now process result }
{
    match waits {
        Waits::Always => waiting_always(load, process),
        Waits::NotFrom(tick) => Waiting::NotFrom(tick),
        Waits::NotWithin | Waits::Unknown(_) => Waiting::NotWithin,
    }
}

/// What is known of whether each window of the process has enough. `Err` is want of memory.
pub(crate) fn waiting_of(
    alloc: Global,
    load: &CertifiedLoad,
    process: u32,
) -> Result<Waiting, NoMemory>
    requires known { process < length load.now.config.processes }
    requires keeps { Keeps load.now process }
    ensures { IfOk result (IsWaiting load.now process) }
{
    let loaded = load.copy(alloc)?;
    let always = find_always(alloc, loaded, WAIT_TICKS)?;
    Ok(waiting_by(load, process, always.waits[process as usize]))
}
