//! Why a program is refused by the static rules.

ghost use Rattle.std.specs.Prelude.{◌≡◌};
ghost use Rattle.actx_scope.specs.declared.fault.CheckFault.TheVariants.{NoMemory as no_memory};

use actx_data::NoMemory;
use std::alloc::{AllocError, AllocFailed};
use thiserror::Error;

/// Why a program is refused, with the number of the node: nodes are numbered from 0 as they stand in the text.
#[derive(Clone, Copy, Debug, Drop, PartialEq, Eq, Error)]
pub enum CheckFault {
    /// A name that isn't declared in scope is used (ECMA-262, 13.1, restricted).
    #[error("Undeclared")]
    Undeclared(u64),
    /// A name is bound a second time in its scope (ECMA-262, 14.2.1, 14.15.1, 15.1.1 and 16.1.1).
    #[error("Twice")]
    Twice(u64),
    /// A name is bound or used, or a key stands, that no program has (ECMA-262, 13.1.1, restricted).
    #[error("Reserved")]
    Reserved(u64),
    /// A statement or an expression stands outside of what it belongs to (ECMA-262, 14.8.1, 14.9.1 and 14.10).
    #[error("Misplaced")]
    Misplaced(u64),
    /// Memory ran out.
    #[error("NoMemory")]
    NoMemory,
}

impl From<NoMemory> for CheckFault {
    ghost from_gives = { λ _ e. e ≡ no_memory };

    fn from(_refused: NoMemory) -> CheckFault {
        CheckFault::NoMemory
    }
}

impl From<AllocError> for CheckFault {
    ghost from_gives = { λ _ e. e ≡ no_memory };

    fn from(_refused: AllocError) -> CheckFault {
        CheckFault::NoMemory
    }
}

impl<T: Drop> From<AllocFailed<T>> for CheckFault {
    ghost from_gives = { λ _ e. e ≡ no_memory };

    fn from(_refused: AllocFailed<T>) -> CheckFault {
        CheckFault::NoMemory
    }
}
