//! The files that commands are given.
ghost use Rattle.std.specs.Prelude.{◌≡◌, ◌≢◌, ◌+◌, ◌^◌, ◌<◌, ◌≤◌, IfOk, IfErr, IfSome, Some, false, length, None};
ghost use Rattle.dk_show.specs.Answers.{is_silent};
ghost use Rattle.dk_show.specs.Asking.{Asks, handed_out};
ghost use Rattle.dk_show.specs.Leaves.{Reads};
ghost use Rattle.dk_show.specs.Works.{IsOfLong};

use crate::Refusal;
use dk_outside::{Depot, DepotError};
use std::alloc::Global;

/// The whole file of this name. `long` is the refusal of one of more than so many bytes.
pub(crate) fn file_at<D: Depot>(
    alloc: Global,
    depot: &mut D,
    name: &str,
    most: u32,
    long: Refusal,
) -> Result<Vec<u8>, Refusal>
    requires given { (D.seen depot.old).given < 2 ^ 63 }
    requires told { is_silent long ≡ false }
    ensures held { IfSome (D.seen depot.old).files (λ at. IfOk result (λ v. at name.now ≡ Some v.items)) }
    ensures long { IfSome (D.seen depot.old).files (λ at. IfErr result (IsOfLong at name.now most long)) }
    ensures short { IfOk result (λ v. length v.items ≤ most) }
    ensures given { (D.seen depot.new).given ≤ (D.seen depot.old).given + (most + 1) }
    ensures asks { Asks (D.seen depot.old).files (λ at. handed_out most (at name.now)) (λ at. at name.now ≡ None)
        (D.seen depot.old) (D.seen depot.new) result }
    ensures reads { Reads (D.seen depot.old) (D.seen depot.new) result }
{
    match depot.read(alloc, name, most) {
        Ok(bytes) => {
            if bytes.len() > most as usize {
                Err(long)
            } else {
                Ok(bytes)
            }
        }
        Err(DepotError::Failed) => Err(Refusal::Depot),
        Err(DepotError::NoMemory) => Err(Refusal::NoMemory),
    }
}
