//! The block of cells that a rail stands in.
ghost use Rattle.std.specs.Prelude.{◌≡◌, ℕ, ◌*◌, ◌<◌, ◌^◌, List, length, replicate, slice_index, slice_set, IfOk};

use crate::NoMemory;
use crate::cells::{Base, Cells, Deed, allocate, deallocate};
use std::alloc::Global;
use std::marker::Model;

/// A block of cells, seen as the list of their numbers. Dropping it gives its memory back.
pub struct Block {
    base: Base<usize>,
    cells: Cells<usize>,
    deed: Deed<usize, Global>,
    count: usize,
    alloc: Global,
}

impl Model for Block {
    ghost use Rattle.std.specs.Prelude.{◌≡◌, ℕ, List};
    ghost use Rattle.dk_rail.specs.Places.{numbers, IsBlock};

    ghost Value = { List ℕ };

    ghost view = { λ b. numbers b.cells.slots };

    ghost invariant = { λ b. IsBlock b.base.ptr b.cells.at b.deed.at b.cells.slots b.count b.deed.len
        × (b.deed.alloc ≡ b.alloc) };
}

impl Drop for Block {
    fn drop(self) {
        let Block {
            base,
            cells,
            deed,
            count,
            alloc,
        } = self;
        deallocate(&alloc, base, count, cells, deed);
    }
}

impl Block {
    /// This number of cells, each 0.
    pub(crate) fn new(alloc: Global, count: usize) -> Result<Block, NoMemory>
        requires { count < 2 ^ 36 }
        ensures { IfOk result (λ block. block ≡ replicate count 0) }
    {
        let (base, mut cells, deed) = allocate(&alloc, count)?;
        for index in 0..count {
            cells.write(base, index, 0);
        }
        Ok(Block {
            base,
            cells,
            deed,
            count,
            alloc,
        })
    }

    pub(crate) fn read(&self, index: usize) -> usize
        requires { index < length self.now }
        ensures { result ≡ slice_index self.now index }
    {
        *self.cells.get(self.base, index)
    }

    pub(crate) fn write(&mut self, index: usize, number: usize)
        requires { index < length self.old }
        ensures { self.new ≡ slice_set self.old index number }
    {
        self.cells.write(self.base, index, number);
    }
}
