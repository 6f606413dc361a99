//! What is kept of all mains while a ledger is read.
ghost use Rattle.std.specs.Prelude.{[], ◌≡◌, ◌+◌, ◌<◌, ◌≤◌, IfOk};
ghost use Rattle.dk_config.specs.declared.TheConstants.{MAX_RUN_TICKS};
ghost use Rattle.dk_ledger.specs.Heading.{IsPrintable};
ghost use Rattle.show_ledger.specs.Told.{AreTold, AreUpTo, IsTold, mains_with};

use crate::told::{TENTHS, Told, told_line};
use dk_config::{MAX_RUN_TICKS, NoMemory};
use dk_ledger::{Header, LedgerLine};
use dk_window_report::{budget_at, main_row};
use std::alloc::Global;

/// The main of the process before tick 0.
fn new_main(header: &Header, process: u8) -> Told
    ensures { IsTold header.now [] process result }
{
    Told {
        budget: budget_at(header, process),
        row: main_row(header, process),
        tick: 0,
        tenths: [0; TENTHS],
    }
}

/// The mains before tick 0.
pub fn new_mains(alloc: Global, header: &Header) -> Result<Vec<Told>, NoMemory>
    requires { IsPrintable header.now }
    ensures { IfOk result (λ v. AreTold header.now [] v.items) }
{
    let mut mains = Vec::new(alloc);
    for process in 0..header.processes.len() {
        mains.push(new_main(header, process as u8))?;
    }
    Ok(mains)
}

/// Takes the entries of a line. They are told of the main that has them; every other one is left as it is.
pub fn take_line(mains: &mut Vec<Told>, line: LedgerLine)
    requires early { AreUpTo line.start mains.old.items }
    requires some { 0 < line.count }
    requires few { line.start + line.count ≤ MAX_RUN_TICKS }
    ensures { mains.new.items ≡ mains_with line mains.old.items }
{
    if let Some(thread) = line.label.thread() {
        let place = thread.process as usize;
        if thread.serial == 0 && place < mains.len() {
            mains[place] = told_line(line, mains[place]);
        }
    }
}
