//! What is shown of a value.

ghost use Rattle.std.specs.Prelude.{◌≡◌, IfOk};

use super::{NoMemory, Twin, Units};
use std::alloc::Global;

/// The kinds of error that a program can make (ECMA-262, 20.5).
#[derive(Clone, Copy, Debug, Drop, PartialEq, Eq)]
pub enum ErrorName {
    Error,
    TypeError,
    RangeError,
    ReferenceError,
}

/// A value as it is shown. The k-th distinct object that a run shows has the number k, counted from 1.
#[derive(Debug, Drop, PartialEq, Eq)]
pub enum Shown {
    Undefined,
    Null,
    Truth(bool),
    Num(i64),
    Text(Units),
    Object(u64),
    /// An error shows its name and its message too.
    Failure {
        number: u64,
        name: ErrorName,
        message: Units,
    },
}

impl Twin for Shown {
    ghost same = { λ a b. a ≡ b };

    /// Errors: `NoMemory`, where a text or a message can't be copied.
    fn copy(&self, alloc: Global) -> Result<Shown, NoMemory> {
        Ok(match self {
            Shown::Undefined => Shown::Undefined,
            Shown::Null => Shown::Null,
            Shown::Truth(truth) => Shown::Truth(*truth),
            Shown::Num(number) => Shown::Num(*number),
            Shown::Text(text) => Shown::Text(text.copy(alloc)?),
            Shown::Object(number) => Shown::Object(*number),
            Shown::Failure {
                number,
                name,
                message,
            } => Shown::Failure {
                number: *number,
                name: *name,
                message: message.copy(alloc)?,
            },
        })
    }
}
