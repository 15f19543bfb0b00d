//! Why a read or a write was refused.

ghost use Rattle.std.specs.Prelude.{◌≡◌};
ghost use Rattle.actx_ports.specs.declared.faults.PortFault.TheVariants.{NoMemory};

use std::alloc::{AllocError, AllocFailed};
use thiserror::Error;

/// Why a read or a write was refused.
#[derive(Clone, Copy, Debug, Drop, PartialEq, Eq, Error)]
pub enum PortFault {
    /// The file or the stream failed, and the count of faults rose.
    #[error("Failed")]
    Failed,
    /// Want of memory.
    #[error("NoMemory")]
    NoMemory,
}

impl From<AllocError> for PortFault {
    ghost from_gives = { λ _ fault. fault ≡ NoMemory };

    fn from(_refused: AllocError) -> PortFault {
        PortFault::NoMemory
    }
}

impl<T: Drop> From<AllocFailed<T>> for PortFault {
    ghost from_gives = { λ _ fault. fault ≡ NoMemory };

    fn from(_refused: AllocFailed<T>) -> PortFault {
        PortFault::NoMemory
    }
}
