//! The rows of a process's children, by rising serial.
ghost use Rattle.std.specs.Prelude.{◌≡◌, ◌<◌, ◌≤◌, List, [], ◌∷◌, ◌++◌, IfOk, find, length, slice_get};
ghost use Rattle.std.specs.List.{cons_option, list_any};
ghost use Rattle.dk_threads.specs.Rows.{ends_at, is_row_of, is_taken, starts_at};

use crate::row::{ThreadRow, ends_at, is_same, starts_at};
use arrayvec::ArrayVec;
use dk_config::MAX_CHILDREN;
use dk_trace::ThreadId;
use slab::Slab;
use std::alloc::{AllocError, Global};
use std::marker::Model;

/// At most eight rows, in the order in which they came. The slab keeps them, and `keys` their order.
/// All room is taken at the start.
#[derive(Drop)]
pub struct Rows {
    slab: Slab<ThreadRow>,
    keys: ArrayVec<usize, MAX_CHILDREN>,
}

impl Model for Rows {
    ghost use Rattle.std.specs.Prelude.{List};
    ghost use Rattle.dk_threads.specs.declared.row.ThreadRow.{ThreadRow};
    ghost use Rattle.dk_threads.specs.Stored.{rows_at, IsStored};

    ghost Value = { List ThreadRow };

    ghost view = { λ r. rows_at r.slab r.keys.items };

    ghost invariant = { λ r. IsStored r.slab r.keys.items };
}

impl Rows {
    /// No rows, with room for eight.
    pub fn reserve(alloc: Global) -> Result<Rows, AllocError>
        ensures { IfOk result (λ r. r ≡ []) }
    {
        let mut slab = Slab::new(alloc);
        slab.reserve(MAX_CHILDREN)?;
        Ok(Rows {
            slab,
            keys: ArrayVec::new(),
        })
    }

    /// How many rows there are.
    pub fn len(&self) -> usize
        ensures rows { result ≡ length self.now }
        ensures few { length self.now ≤ MAX_CHILDREN }
    {
        self.keys.len()
    }

    /// The row at the place.
    pub fn get(&self, index: usize) -> Option<ThreadRow>
        ensures { result ≡ slice_get self.now index }
    {
        match self.keys.get(index) {
            Some(key) => self.slab.get(*key).copied(),
            None => None,
        }
    }

    /// Adds a row at the end.
    pub fn push(&mut self, row: ThreadRow)
        requires { length self.old < MAX_CHILDREN }
        ensures { self.new ≡ self.old ++ row ∷ [] }
    {
        let key = self.slab.insert_reserved(row);
        self.keys.push(key);
    }

    /// Takes the first row out.
    pub fn take_first(&mut self) -> ThreadRow
        requires { 0 < length self.old }
        ensures rows { self.old ≡ result ∷ self.new }
        ensures few { length self.new < MAX_CHILDREN }
    {
        let key = self.keys.remove(0);
        self.slab.remove(key)
    }

    /// Puts the row at the end, if there is one.
    pub fn put_back(&mut self, row: Option<ThreadRow>)
        requires { length self.old < MAX_CHILDREN }
        ensures { self.new ≡ self.old ++ cons_option row [] }
    {
        if let Some(row) = row {
            self.push(row);
        }
    }

    /// The first row of a thread of that name.
    pub fn find(&self, id: ThreadId) -> Option<ThreadRow>
        ensures { result ≡ find (is_row_of id) self.now }
    {
        for key in self.keys.as_slice() {
            if let Some(row) = self.slab.get(*key) {
                if is_same(id, &row.id) {
                    return Some(*row);
                }
            }
        }
        None
    }

    /// Whether the tick is the start of a child.
    pub fn starts_at(&self, now: u32) -> bool
        ensures { result ≡ list_any (starts_at now) self.now }
    {
        for key in self.keys.as_slice() {
            if let Some(row) = self.slab.get(*key) {
                if starts_at(row, now) {
                    return true;
                }
            }
        }
        false
    }

    /// Whether the tick is the end of a child.
    pub fn ends_at(&self, now: u32) -> bool
        ensures { result ≡ list_any (ends_at now) self.now }
    {
        for key in self.keys.as_slice() {
            if let Some(row) = self.slab.get(*key) {
                if ends_at(row, now) {
                    return true;
                }
            }
        }
        false
    }

    /// Whether a row has the slot.
    pub fn is_taken(&self, slot: u8) -> bool
        ensures { result ≡ is_taken self.now slot }
    {
        for key in self.keys.as_slice() {
            if let Some(row) = self.slab.get(*key) {
                if row.slot == slot {
                    return true;
                }
            }
        }
        false
    }
}
