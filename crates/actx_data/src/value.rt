//! The values of a program (ECMA-262, 6.1, restricted).

ghost use Rattle.std.specs.Prelude.{◌≡◌, IfOk};

use super::{NoMemory, Twin, Units};
use std::alloc::Global;

/// A value. A number is within the range of the profile, and a thing is named by its number in the heap.
#[derive(Debug, Drop, PartialEq, Eq)]
pub enum Value {
    Undefined,
    Null,
    Truth(bool),
    Num(i64),
    Text(Units),
    Thing(u64),
}

impl Twin for Value {
    ghost same = { λ a b. a ≡ b };

    /// Errors: `NoMemory`, where a text can't be copied.
    fn copy(&self, alloc: Global) -> Result<Value, NoMemory> {
        Ok(match self {
            Value::Undefined => Value::Undefined,
            Value::Null => Value::Null,
            Value::Truth(truth) => Value::Truth(*truth),
            Value::Num(number) => Value::Num(*number),
            Value::Text(text) => Value::Text(text.copy(alloc)?),
            Value::Thing(number) => Value::Thing(*number),
        })
    }
}
