//! What reading and writing of a property answer.

use actx_data::Value;

/// What reading a property answers (ECMA-262, 6.2.5.5 GetValue).
#[derive(Drop)]
pub enum Got {
    /// The value of the property, or `undefined` where there is none.
    Value(Value),
    /// A TypeError is to be thrown.
    Throws,
    /// The run leaves the profile.
    Leaves,
}

/// What writing a property answers (ECMA-262, 6.2.5.6 PutValue).
#[derive(Clone, Copy, Drop)]
pub enum Put {
    /// The property has the value.
    Done,
    /// A TypeError is to be thrown.
    Throws,
    /// The run leaves the profile.
    Leaves,
}
