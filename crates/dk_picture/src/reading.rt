//! The groups of a range, as a list.
ghost use Rattle.std.specs.Prelude.{ℕ, ◌≡◌, ◌≤◌, ◌++◌, ◌∷◌, [], IfOk, IsErrOf, OnOk, length};
ghost use Rattle.dk_ledger.specs.Readable.{Journal, IsReadable};
ghost use Rattle.dk_groups.specs.Groups.{groups};
ghost use Rattle.dk_groups.specs.Cutting.{HasGiven, IsCutting};
ghost use Rattle.dk_picture.specs.Numbers.{max_groups};
ghost use Rattle.dk_picture.specs.Pictures.{IsTooMany};

use dk_config::NoMemory;
use dk_groups::GroupReader;
use dk_ledger::LedgerLine;
use std::alloc::{AllocError, Global};

/// The most groups that a picture has.
pub const MAX_GROUPS: usize = 4_000;

/// Why there is no picture.
#[derive(Clone, Copy)]
pub enum PictureFault {
    /// The range has more than `MAX_GROUPS` groups; one up to this tick has as many.
    TooMany(u32),
    /// Want of memory.
    NoMemory,
}

impl From<NoMemory> for PictureFault {
    ghost use Rattle.std.specs.Prelude.{◌≡◌};
    ghost use Rattle.dk_picture.specs.declared.reading.PictureFault.TheVariants.{NoMemory};

    ghost from_gives = { λ _ e. e ≡ NoMemory };

    fn from(_: NoMemory) -> PictureFault {
        PictureFault::NoMemory
    }
}

impl From<AllocError> for PictureFault {
    ghost use Rattle.std.specs.Prelude.{◌≡◌};
    ghost use Rattle.dk_picture.specs.declared.reading.PictureFault.TheVariants.{NoMemory};

    ghost from_gives = { λ _ e. e ≡ NoMemory };

    fn from(_: AllocError) -> PictureFault {
        PictureFault::NoMemory
    }
}

fn push_group(groups: &mut Vec<LedgerLine>, group: LedgerLine) -> Result<(), AllocError>
    ensures { OnOk result (groups.new.items ≡ groups.old.items ++ group ∷ []) }
{
    groups.push(group)?;
    Ok(())
}

/// All groups of the reader's range.
pub(crate) fn read_groups(
    alloc: Global,
    reader: &mut GroupReader,
) -> Result<Vec<LedgerLine>, PictureFault>
    requires { IsCutting reader.old }
    ensures groups { IfOk result (λ gs. (j : Journal) → IsReadable j → HasGiven j [] reader.old
        → gs.items ≡ groups reader.old.from reader.old.to j.entries) }
    ensures few { IfOk result (λ gs. length gs.items ≤ max_groups) }
    ensures too_many { (t : ℕ) → IsErrOf result (PictureFault.TooMany t) → (j : Journal) → IsReadable j
        → HasGiven j [] reader.old → IsTooMany (groups reader.old.from reader.old.to j.entries) t }
{
    let mut groups = Vec::new(alloc);
    while let Some(group) = reader.next(alloc)? {
        if groups.len() == MAX_GROUPS {
            return Err(PictureFault::TooMany(group.start));
        }
        push_group(&mut groups, group)?;
    }
    Ok(groups)
}
