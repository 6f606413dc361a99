//! The rows of one process: its main and its children.
ghost use Rattle.std.specs.Prelude.{◌≡◌, ◌+◌, ◌<◌, ◌∷◌, All, IfOk, find, length};
ghost use Rattle.dk_config.specs.Windows.{main_level};
ghost use Rattle.dk_threads.specs.Rows.{is_row_of};
ghost use Rattle.dk_threads.specs.Table.{all_stopped, begun, child_stopped, family_ended, family_started, first_family, free_slot};

use crate::children::{end_due, start_due, stop_child, stop_with_main};
use crate::row::{State, ThreadRow};
use crate::rows::Rows;
use dk_config::{Config, MAX_CHILDREN, MAX_THREADS, MAX_TICKS};
use dk_trace::ThreadId;
use dk_windows::Windows;
use std::alloc::{AllocError, Global};

/// The threads of a process: its main, and its children that haven't ended, by rising serial.
#[derive(Drop)]
pub struct Family {
    pub main: ThreadRow,
    pub children: Rows,
    /// How many children the process has had.
    pub serials: u32,
    /// How many children it may have at a time, 0 to 8.
    pub most: u32,
}

/// The lowest slot of a child that no row has.
fn free_slot(rows: &Rows) -> u8
    ensures { result ≡ free_slot rows.now }
{
    for slot in 1..MAX_THREADS as u8 {
        if !rows.is_taken(slot) {
            return slot;
        }
    }
    0
}

impl Family {
    /// The process with its main, which is live from tick 0 on. All room is taken here.
    pub fn reserve(alloc: Global, config: &Config, process: u8) -> Result<Family, AllocError>
        requires known { process < length config.now.processes }
        requires few { main_level config.now process < 256 }
        ensures { IfOk result (λ family. family ≡ first_family config.now process) }
    {
        let children = Rows::reserve(alloc)?;
        let row = &config.processes[process as usize];
        Ok(Family {
            main: ThreadRow {
                id: ThreadId { process, serial: 0 },
                level: row.level as u8,
                slot: 0,
                state: State::Live,
                start: 0,
                end: None,
            },
            children,
            serials: 0,
            most: row.threads,
        })
    }

    /// Adds a child that starts at that tick, in the lowest free slot, and tells its name.
    pub fn begin(&mut self, process: u8, level: u8, start: u32) -> ThreadId
        requires room { length self.old.children < MAX_CHILDREN }
        requires few { self.old.serials < MAX_TICKS }
        ensures name { result ≡ record { process = process; serial = self.old.serials + 1 } }
        ensures family { self.new ≡ begun process level start self.old }
    {
        let id = ThreadId {
            process,
            serial: self.serials + 1,
        };
        let slot = free_slot(&self.children);
        self.children.push(ThreadRow {
            id,
            level,
            slot,
            state: State::Starting,
            start,
            end: None,
        });
        self.serials = id.serial;
        id
    }

    /// Makes each child live whose start is the tick. At most ticks there is none, and no row is moved.
    pub fn start_due(&mut self, now: u32)
        ensures { self.new ≡ family_started now self.old }
    {
        if self.children.starts_at(now) {
            start_due(&mut self.children, now);
        }
    }

    /// Stops the child of that name.
    pub fn stop(&mut self, id: ThreadId, windows: &Windows)
        requires { All (λ row. row.level < length windows.now.periods) self.old.children }
        ensures { self.new ≡ child_stopped id windows.now self.old }
    {
        stop_child(&mut self.children, id, windows);
    }

    /// Stops the main and all children that aren't stopped.
    pub fn stop_all(&mut self, windows: &Windows)
        requires { All (λ row. row.level < length windows.now.periods) self.old.children }
        ensures { self.new ≡ all_stopped windows.now self.old }
    {
        self.main.state = State::Stopped;
        stop_with_main(&mut self.children, windows);
    }

    /// Takes out the children whose end is the tick. At most ticks there is none, and no row is moved.
    pub fn end_due(&mut self, now: u32)
        ensures { self.new ≡ family_ended now self.old }
    {
        if self.children.ends_at(now) {
            end_due(&mut self.children, now);
        }
    }

    /// The row of the thread of that name.
    pub fn find(&self, id: ThreadId) -> Option<ThreadRow>
        ensures { result ≡ find (is_row_of id) (self.now.main ∷ self.now.children) }
    {
        if id.process == self.main.id.process && id.serial == self.main.id.serial {
            Some(self.main)
        } else {
            self.children.find(id)
        }
    }
}
