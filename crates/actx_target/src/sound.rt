//! Values whose numbers are within the range of the profile, as every value of a run is.

ghost use Rattle.std.specs.Prelude.{◌≡◌, IfOk, IfSome, IsTrue};
ghost use Rattle.actx_data.specs.Number.{IsWhole};
ghost use Rattle.actx_target.specs.Sound.{is_sound};

use actx_data::{NoMemory, Twin, Units, Value};
use std::alloc::Global;
use std::marker::Model;

/// A value of the profile, seen as the value itself.
#[derive(Drop)]
pub struct Sound {
    value: Value,
}

impl Model for Sound {
    ghost use Rattle.std.specs.Prelude.{IsTrue};
    ghost use Rattle.actx_data.specs.declared.value.Value.{Value as ProgramValue};
    ghost use Rattle.actx_target.specs.Sound.{is_sound};

    ghost Value = { ProgramValue };

    ghost view = { λ s. s.value };

    ghost invariant = { λ s. IsTrue (is_sound s.value) };
}

impl Sound {
    /// The value `undefined`.
    pub fn undefined() -> Sound
        ensures { result ≡ Value.Undefined }
    {
        Sound {
            value: Value::Undefined,
        }
    }

    /// A number of the profile.
    pub fn number(n: i64) -> Sound
        requires { IsWhole n }
        ensures { result ≡ Value.Num n }
    {
        Sound {
            value: Value::Num(n),
        }
    }

    /// A truth value.
    pub fn truth(truth: bool) -> Sound
        ensures { result ≡ Value.Truth truth }
    {
        Sound {
            value: Value::Truth(truth),
        }
    }

    /// A text.
    pub fn text(units: Units) -> Sound
        ensures { result ≡ Value.Text units }
    {
        Sound {
            value: Value::Text(units),
        }
    }

    /// A thing by its number in the heap.
    pub fn thing(number: u64) -> Sound
        ensures { result ≡ Value.Thing number }
    {
        Sound {
            value: Value::Thing(number),
        }
    }

    /// The value behind it, a number of which is within the range.
    pub fn value(&self) -> &Value
        ensures value { result.now ≡ self.now }
        ensures sound { IsTrue (is_sound self.now) }
    {
        &self.value
    }
}

impl Twin for Sound {
    ghost same = { λ a b. a ≡ b };

    fn copy(&self, alloc: Global) -> Result<Sound, NoMemory> {
        let value = self.value.copy(alloc)?;
        Ok(Sound { value })
    }
}
