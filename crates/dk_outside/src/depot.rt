ghost use Rattle.std.specs.Prelude.{◌≡◌, ◌≢◌, ◌+◌, ◌^◌, ◌<◌, ◌≤◌, Err, IfOk, IfSome, OnErr, IsErrOf, vec_len};
ghost use Rattle.dk_outside.specs.Counts.{Rises};
ghost use Rattle.dk_outside.specs.Files.{IsReading, CountsStray};
ghost use Rattle.dk_outside.specs.Views.{DepotView};
ghost use Rattle.dk_outside.specs.declared.depot.DepotError.TheVariants.{Failed, NoMemory};

use std::alloc::{AllocError, Global};

/// Why a read gave nothing.
#[derive(Clone, Copy, Debug, PartialEq, Eq)]
pub enum DepotError {
    /// The outside failed, and the depot's count of faults rose.
    Failed,
    /// Want of memory.
    NoMemory,
}

impl From<AllocError> for DepotError {
    ghost from_gives = { λ _ e. e ≡ NoMemory };

    fn from(_: AllocError) -> Self {
        DepotError::NoMemory
    }
}

/// Where files are read from.
///
/// A depot starts with `faults`, `given` and `strays` at 0, and none of them ever falls.
pub trait Depot {
    /// What each name holds, and the counts of bytes given out, faults and strays.
    ghost seen: { Self → DepotView };

    /// Reads a file: the whole of it where it has at most `limit` bytes, else its first `limit + 1`.
    ///
    /// The condition keeps `given` within 64 bits.
    fn read(&mut self, alloc: Global, name: &str, limit: u32) -> Result<Vec<u8>, DepotError>
        requires { (seen self.old).given + limit + 1 < 2 ^ 64 }

        ensures short { IfOk result (λ v. vec_len v ≤ limit + 1) }
        ensures held { IfSome (seen self.old).files (λ at. IfOk result (λ v. IsReading at name.now limit v.items)) }
        ensures given_ok { IfOk result (λ v. (seen self.new).given ≡ (seen self.old).given + vec_len v) }
        ensures given_err { OnErr result ((seen self.new).given ≡ (seen self.old).given) }

        ensures cause { IsErrOf result Failed → Rises (seen self.old).faults (seen self.new).faults }
        ensures stays { result ≢ Err Failed → (seen self.new).faults ≡ (seen self.old).faults }
        ensures faults { (seen self.old).faults ≤ (seen self.new).faults }

        ensures stray { IfSome (seen self.old).files
            (λ at. CountsStray at name.now (seen self.old).strays (seen self.new).strays) }
        ensures strays { (seen self.old).strays ≤ (seen self.new).strays }

        ensures same { (seen self.new).files ≡ (seen self.old).files };
}
