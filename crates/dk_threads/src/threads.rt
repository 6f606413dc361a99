//! The table: the rows of the threads of all processes.
ghost use Rattle.std.specs.Prelude.{◌≡◌, ◌+◌, ◌<◌, IfOk, length, map};
ghost use Rattle.std.specs.List.{range_with_len};
ghost use Rattle.dk_config.specs.Checked.{IsChecked, IsWithinLimits};
ghost use Rattle.dk_threads.specs.Table.{family_ended, family_started, first_family};

use crate::family::Family;
use crate::row::{ThreadRow, is_stopped};
use dk_config::{Config, MAX_TICKS, NoMemory};
use dk_trace::ThreadId;
use dk_windows::Windows;
use std::alloc::{AllocError, Global};
use std::marker::Model;

/// The threads of all processes. They are seen, per process, as the row of its main, the rows of its
/// children that haven't ended, by rising serial, the number of children that it has had, and how many
/// it may have at a time; beside that as the number of levels. No call changes the last two.
///
/// A thread keeps its slot while it has a row, and no two rows of a process have one slot.
#[derive(Drop)]
pub struct Threads {
    levels: u8,
    families: Vec<Family>,
}

impl Model for Threads {
    ghost use Rattle.dk_threads.specs.Table.{Table, AreFamilies};

    ghost Value = { Table };

    ghost view = { λ t. record { levels = t.levels; families = t.families.items } };

    ghost invariant = { λ t. AreFamilies t.levels t.families.items };
}

/// Every process with its main.
fn families_of(alloc: Global, config: &Config) -> Result<Vec<Family>, AllocError>
    requires checked { IsChecked config.now }
    requires limits { IsWithinLimits config.now }
    ensures { IfOk result (λ families. families.items
        ≡ map (first_family config.now) (range_with_len 0 (length config.now.processes))) }
{
    let mut families = Vec::new(alloc);
    for process in 0..config.processes.len() {
        families.push(Family::reserve(alloc, config, process as u8)?)?;
    }
    Ok(families)
}

fn start_all(families: &mut Vec<Family>, now: u32)
    ensures { families.new.items ≡ map (family_started now) families.old.items }
{
    for family in families.iter_mut() {
        family.start_due(now);
    }
}

fn end_all(families: &mut Vec<Family>, now: u32)
    ensures { families.new.items ≡ map (family_ended now) families.old.items }
{
    for family in families.iter_mut() {
        family.end_due(now);
    }
}

impl Threads {
    ghost use Rattle.std.specs.Prelude.{true, Some, None, MatchOption, slice_get};
    ghost use Rattle.dk_threads.specs.Table.{AreFamilies, all_stopped, begun, changed_all, changed_at, child_stopped, children_at, find_row, has_room, has_serials, is_child, next_id, runs, serials_at, stands, table_at_start};

    /// Each main, live from tick 0 on in slot 0. All room that the threads will need is taken here.
    pub fn reserve(alloc: Global, config: &Config) -> Result<Threads, NoMemory>
        requires checked { IsChecked config.now }
        requires limits { IsWithinLimits config.now }
        ensures { IfOk result (λ threads. threads ≡ table_at_start config.now) }
    {
        let families = families_of(alloc, config)?;
        Ok(Threads {
            levels: config.levels.len() as u8,
            families,
        })
    }

    /// Adds a child of the process that starts at that tick, in the lowest free slot, and tells its name.
    /// The process stands, has room for one more child, and has had fewer than 4,000,000,000.
    pub fn begin(&mut self, process: u8, level: u8, start: u32) -> ThreadId
        requires stands { stands self.old process ≡ true }
        requires room { has_room self.old process ≡ true }
        requires few { has_serials self.old process ≡ true }
        requires known { level < self.old.levels }
        ensures name { result ≡ next_id self.old process }
        ensures rows { self.new ≡ changed_at (begun process level start) process self.old }
    {
        let family = &mut self.families[process as usize];
        family.begin(process, level, start)
    }

    /// Makes each child live whose start is the tick.
    pub fn start_due(&mut self, now: u32)
        ensures { self.new ≡ changed_all (family_started now) self.old }
    {
        start_all(&mut self.families, now);
    }

    /// Stops a child that has a row and isn't stopped. It ends with the present window of its level, and
    /// one that would start later leaves the table at once.
    pub fn stop(&mut self, id: ThreadId, windows: &Windows)
        requires child { is_child id ≡ true }
        requires runs { runs self.old id ≡ true }
        requires windows { length windows.now.periods ≡ self.old.levels }
        ensures { self.new ≡ changed_at (child_stopped id windows.now) id.process self.old }
    {
        let family = &mut self.families[id.process as usize];
        family.stop(id, windows);
    }

    /// Stops the main of a process that stands, and all its children that aren't stopped, each as `stop`
    /// does.
    pub fn stop_process(&mut self, process: u8, windows: &Windows)
        requires stands { stands self.old process ≡ true }
        requires windows { length windows.now.periods ≡ self.old.levels }
        ensures { self.new ≡ changed_at (all_stopped windows.now) process self.old }
    {
        let family = &mut self.families[process as usize];
        family.stop_all(windows);
    }

    /// Takes out the children whose end is the tick. A main keeps its row.
    pub fn end_due(&mut self, now: u32)
        ensures { self.new ≡ changed_all (family_ended now) self.old }
    {
        end_all(&mut self.families, now);
    }

    /// The threads of the process, if there is one of that number.
    #[inline(always)]
    fn family(&self, process: u8) -> Option<&Family>
        ensures { MatchOption result (slice_get self.now.families process ≡ None)
            (λ family. slice_get self.now.families process ≡ Some family.now) }
    {
        self.families.get(process as usize)
    }

    /// The row of the thread. None where it has none.
    pub fn find(&self, id: ThreadId) -> Option<ThreadRow>
        ensures { result ≡ find_row self.now id }
    {
        match self.family(id.process) {
            Some(family) => family.find(id),
            None => None,
        }
    }

    /// The child at that place of the process, by rising serial and counted from 0. None where there are
    /// not so many.
    pub fn child(&self, process: u8, index: u8) -> Option<ThreadRow>
        ensures { result ≡ slice_get (children_at self.now process) index }
    {
        match self.family(process) {
            Some(family) => family.children.get(index as usize),
            None => None,
        }
    }

    /// The serial that the next child of the process gets: one more than the children that it has had,
    /// which are fewer than 4,000,000,000.
    pub fn next_serial(&self, process: u8) -> u32
        requires few { has_serials self.now process ≡ true }
        ensures { result ≡ serials_at self.now process + 1 }
    {
        match self.family(process) {
            Some(family) => family.serials + 1,
            None => 1,
        }
    }

    /// Whether the process has a main that wasn't stopped.
    pub fn stands(&self, process: u8) -> bool
        ensures { result ≡ stands self.now process }
    {
        match self.family(process) {
            Some(family) => !is_stopped(family.main.state),
            None => false,
        }
    }

    /// Whether the process may have one more child.
    pub fn has_room(&self, process: u8) -> bool
        ensures { result ≡ has_room self.now process }
    {
        match self.family(process) {
            Some(family) => (family.children.len() as u32) < family.most,
            None => false,
        }
    }

    /// Whether the process has had fewer than 4,000,000,000 children. It is so of a number that names no
    /// process.
    pub fn has_serials(&self, process: u8) -> bool
        ensures { result ≡ has_serials self.now process }
    {
        match self.family(process) {
            Some(family) => family.serials < MAX_TICKS,
            None => true,
        }
    }

    /// Whether the thread has a row and wasn't stopped.
    pub fn runs(&self, id: ThreadId) -> bool
        ensures { result ≡ runs self.now id }
    {
        match self.find(id) {
            Some(row) => !is_stopped(row.state),
            None => false,
        }
    }

    /// How many levels there are.
    pub fn levels(&self) -> u8
        ensures { result ≡ self.now.levels }
    {
        self.levels
    }

    /// What a process of the table keeps: its children stand by rising serial, each in a slot from 1 to 8
    /// that no other has, and there are at most as many as it may have. Does nothing when it runs.
    pub fn rows_are_in_order(&self)
        ensures { AreFamilies self.now.levels self.now.families }
    {
        let _ = &self.families;
    }
}
