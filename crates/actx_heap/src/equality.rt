//! Equality of values.

ghost use Rattle.std.specs.Prelude.{◌≡◌};
ghost use Rattle.actx_heap.specs.Properties.{same};

use actx_data::Value;

/// `===`: primitives by their values, things by their numbers (ECMA-262, 7.2.15).
pub fn same(a: &Value, b: &Value) -> bool
    ensures { result ≡ same a.now b.now }
{
    match (a, b) {
        (Value::Undefined, Value::Undefined) => true,
        (Value::Null, Value::Null) => true,
        (Value::Truth(x), Value::Truth(y)) => *x == *y,
        (Value::Num(x), Value::Num(y)) => *x == *y,
        (Value::Text(x), Value::Text(y)) => x.as_slice() == y.as_slice(),
        (Value::Thing(x), Value::Thing(y)) => *x == *y,
        _ => false,
    }
}
