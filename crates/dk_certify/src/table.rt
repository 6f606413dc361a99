//! What the test finds at each level.
ghost use Rattle.std.specs.Prelude.{◌≡◌, ◌<◌, ◌∷◌, [], ◌++◌, length, slice_get, Some};

use arrayvec::ArrayVec;
use dk_config::MAX_LEVELS;
use std::marker::Model;

/// What the test found at a level, in ticks of one window of the level.
#[derive(Clone, Copy, Default, PartialEq, Eq)]
pub struct TableRow {
    /// The window's length, from 1 to 1,000,000.
    pub period: u32,
    /// What the kernel and the budgets of the levels up to this one can need.
    pub demand: u32,
    /// The longest wait for a slower thread's mutex.
    pub blocking: u32,
    /// What nobody can claim: the period less demand and blocking.
    pub spare: u32,
}

/// The rows of an accepted configuration, one per level, seen as their list.
#[derive(Drop)]
pub struct Table {
    rows: ArrayVec<TableRow, MAX_LEVELS>,
}

impl Model for Table {
    ghost use Rattle.std.specs.Prelude.{List, length};
    ghost use Rattle.dk_certify.specs.declared.table.TableRow.{TableRow};

    ghost Value = { List TableRow };

    ghost view = { λ t. t.rows.items };
}

impl Table {
    pub(crate) fn new() -> Table
        ensures { result ≡ [] }
    {
        Table {
            rows: ArrayVec::new(),
        }
    }

    /// Adds the row of the next level.
    pub(crate) fn push(&mut self, row: TableRow)
        requires { length self.old < MAX_LEVELS }
        ensures { self.new ≡ self.old ++ row ∷ [] }
    {
        self.rows.push(row);
    }

    /// The row of a level of the table.
    pub fn row(&self, level: u8) -> TableRow
        requires { level < length self.now }
        ensures { slice_get self.now level ≡ Some result }
    {
        self.rows[level as usize]
    }
}
