//! What is counted of some ticks.
ghost use Rattle.std.specs.Prelude.{List, ◌≡◌, ◌+◌, ◌<◌, ◌≤◌, ◌∷◌, ◌++◌, [], map, replicate, IfOk};
ghost use Rattle.dk_config.specs.declared.TheConstants.{MAX_TICKS};
ghost use Rattle.dk_trace.specs.declared.Entry.{Entry};
ghost use Rattle.dk_trace.specs.Entries.{quiet};
ghost use Rattle.dk_cycle_counts.specs.declared.process.MainShare.{MainShare};
ghost use Rattle.dk_cycle_counts.specs.Process.{use_gone_by, use_of, use_with};
ghost use Rattle.dk_cycle_counts.specs.Counts.{AreCountsOf};

use crate::process::{MainShare, ProcessUse};
use crate::totals::CycleTotals;
use dk_config::{MAX_TICKS, NoMemory};
use dk_trace::{Entry, Label};
use dk_window_report::row_law;
use std::alloc::Global;

/// What is counted of some ticks: how many they are, whose they were, and what each process did in them.
#[derive(Drop)]
pub struct CycleCounts {
    pub ticks: u32,
    pub totals: CycleTotals,
    pub processes: Vec<ProcessUse>,
}

/// Counts one tick more, behind so many, of each process.
fn add_to_all(processes: &mut Vec<ProcessUse>, ticks: u32, entry: Entry)
    ensures { processes.new.items ≡ map (use_with ticks entry) processes.old.items }
{
    for process in processes.iter_mut() {
        *process = process.with_entry(ticks, entry);
    }
}

/// Counts so many ticks more, behind so many, that all have the label and no event, of each process.
fn all_gone_by(processes: &mut Vec<ProcessUse>, ticks: u32, label: Label, count: u32)
    requires { ticks + count ≤ MAX_TICKS }
    ensures { processes.new.items ≡ map (use_gone_by ticks label count) processes.old.items }
{
    for process in processes.iter_mut() {
        *process = process.gone_by(ticks, label, count);
    }
}

/// Of each process, in no ticks.
fn all_new(alloc: Global, shares: &[MainShare]) -> Result<Vec<ProcessUse>, NoMemory>
    ensures { IfOk result (λ uses. uses.items ≡ map (λ share. use_of share []) shares.now) }
{
    let mut uses = Vec::new(alloc);
    for share in shares {
        uses.push(ProcessUse::new(*share))?;
    }
    Ok(uses)
}

impl CycleCounts {
    /// Of no ticks. `Err` is want of memory.
    pub fn new(alloc: Global, shares: &[MainShare]) -> Result<CycleCounts, NoMemory>
        ensures { IfOk result (AreCountsOf shares.now []) }
    {
        Ok(CycleCounts {
            ticks: 0,
            totals: CycleTotals::new(),
            processes: all_new(alloc, shares)?,
        })
    }

    /// Counts one tick more, which has this entry.
    pub fn add(&mut self, entry: Entry)
        requires { self.old.ticks < MAX_TICKS }
        ensures counts { (shares : List MainShare) (es : List Entry) → AreCountsOf shares es self.old
            → AreCountsOf shares (entry ∷ es) self.new }
        ensures ticks { self.new.ticks ≡ self.old.ticks + 1 }
    {
        row_law();
        let ticks = self.ticks;
        self.totals.add(entry.label, 1);
        add_to_all(&mut self.processes, ticks, entry);
        self.ticks = ticks + 1;
    }

    /// Counts so many ticks more, which all have the label and no event.
    pub fn add_quiet(&mut self, label: Label, count: u32)
        requires { self.old.ticks + count ≤ MAX_TICKS }
        ensures counts { (shares : List MainShare) (es : List Entry) → AreCountsOf shares es self.old
            → AreCountsOf shares (replicate count (quiet label) ++ es) self.new }
        ensures ticks { self.new.ticks ≡ self.old.ticks + count }
    {
        row_law();
        let ticks = self.ticks;
        self.totals.add(label, count);
        all_gone_by(&mut self.processes, ticks, label, count);
        self.ticks = ticks + count;
    }
}
