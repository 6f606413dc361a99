//! Why a configuration or its programs can't be read.
ghost use Rattle.std.specs.Prelude.{◌≡◌};
ghost use Rattle.dk_loader.specs.declared.fault.LoadFault.TheVariants.{NoMemory};

use dk_config::{ConfigFault, NoMemory};
use std::alloc::{AllocError, AllocFailed};
use thiserror::Error;

/// Why a configuration or its programs were refused.
#[derive(Clone, Copy, Debug, PartialEq, Eq, Error)]
pub enum LoadFault {
    /// The bytes are no document of TOML.
    #[error("not TOML")]
    NotToml,
    /// The first of the rules C1 to C13 that the document breaks.
    #[error("C{}", .0.number)]
    Config(ConfigFault),
    /// A read failed: the depot's count of faults rose.
    #[error("a read failed")]
    Depot,
    /// The program of this process has more than 65,536 bytes.
    #[error("the program of process {0} is too long")]
    TooLong(u32),
    /// Want of memory.
    #[error("out of memory")]
    NoMemory,
}

impl From<NoMemory> for LoadFault {
    ghost from_gives = { λ _ e. e ≡ NoMemory };

    fn from(_: NoMemory) -> Self {
        LoadFault::NoMemory
    }
}

impl From<AllocError> for LoadFault {
    ghost from_gives = { λ _ e. e ≡ NoMemory };

    fn from(_: AllocError) -> Self {
        LoadFault::NoMemory
    }
}

impl<T: Drop> From<AllocFailed<T>> for LoadFault {
    ghost from_gives = { λ _ e. e ≡ NoMemory };

    fn from(_: AllocFailed<T>) -> Self {
        LoadFault::NoMemory
    }
}
