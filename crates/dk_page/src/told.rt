//! What commands tell of a configuration and of a ledger.

use std::alloc::{AllocError, Global};

/// Whether a configuration is certified.
#[derive(Drop)]
pub enum Certification {
    /// What `when` tells of it, as a text and as a table.
    Certified { when: Vec<u8>, table: Vec<u8> },
    /// The first level that may miss its window, with the ticks that it needs and those of its window.
    Failing { level: u8, needs: u64, window: u32 },
}

/// What the commands tell of a configuration, as texts and as tables.
#[derive(Drop)]
pub struct Told {
    pub certificate: Vec<u8>,
    pub certificate_table: Vec<u8>,
    /// The sums of the certificate as one table: what each part takes of each level's window.
    pub matrix: Vec<u8>,
    pub certification: Certification,
    pub margins: Vec<u8>,
    pub margins_table: Vec<u8>,
    pub warnings: Vec<u8>,
    /// How many warnings there are.
    pub count: usize,
}

/// What needs, chains, what repeats, or a ledger add to a page: tiles, rows among the files, sections, and outputs.
#[derive(Drop)]
pub struct Additions {
    pub tile: Vec<u8>,
    pub file: Vec<u8>,
    pub sections: Vec<u8>,
    pub outputs: Vec<u8>,
}

impl Additions {
    ghost use Rattle.std.specs.Prelude.{◌≡◌, [], IfOk};
    ghost use Rattle.dk_page.specs.Needs.{IsBoth};

    /// Nothing.
    pub fn none(alloc: Global) -> Additions
        ensures tile { result.tile.items ≡ [] }
        ensures file { result.file.items ≡ [] }
        ensures sections { result.sections.items ≡ [] }
        ensures outputs { result.outputs.items ≡ [] }
    {
        Additions {
            tile: Vec::new(alloc),
            file: Vec::new(alloc),
            sections: Vec::new(alloc),
            outputs: Vec::new(alloc),
        }
    }

    /// What these add, and what others add behind it. `Err` is want of memory.
    pub fn with(self, more: &Additions) -> Result<Additions, AllocError>
        ensures { IfOk result (IsBoth self more.now) }
    {
        let Additions {
            mut tile,
            mut file,
            mut sections,
            mut outputs,
        } = self;
        tile.extend_from_slice(more.tile.as_slice())?;
        file.extend_from_slice(more.file.as_slice())?;
        sections.extend_from_slice(more.sections.as_slice())?;
        outputs.extend_from_slice(more.outputs.as_slice())?;
        Ok(Additions {
            tile,
            file,
            sections,
            outputs,
        })
    }
}
