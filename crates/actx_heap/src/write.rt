//! Writing of properties (ECMA-262, 6.2.5.6 and 10.1.9).

ghost use Rattle.std.specs.Prelude.{◌≡◌, IfOk, OnErr, slice_get};
ghost use Rattle.actx_heap.specs.Properties.{put_thing, put_at, put_in};
ghost use Rattle.actx_heap.specs.Views.{thing_of, things_of};

use crate::answers::Put;
use crate::thing::Thing;
use crate::words::is_word;
use actx_data::{NoMemory, Units, Value};

/// Sets a property of a thing, where that is a plain object.
fn put_thing<C: Drop>(thing: &mut Thing<C>, key: Units, value: Value) -> Result<Put, NoMemory>
    ensures answer { IfOk result (λ r. (r, thing_of thing.new) ≡ put_thing (thing_of thing.old) key value) }
    ensures kept { OnErr result (thing_of thing.new ≡ thing_of thing.old) }
{
    match thing {
        Thing::Plain(table) => {
            table.put(key, value)?;
            Ok(Put::Done)
        }
        _ => Ok(Put::Leaves),
    }
}

/// Sets a property of the thing with this number, where that is a plain object.
fn put_at<C: Drop>(
    things: &mut Vec<Thing<C>>,
    number: usize,
    key: Units,
    value: Value,
) -> Result<Put, NoMemory>
    ensures answer { IfOk result (λ r. (r, things_of things.new.items) ≡ put_at (slice_get (things_of things.old.items) number) (things_of things.old.items) number key value) }
    ensures kept { OnErr result (things_of things.new.items ≡ things_of things.old.items) }
{
    match things.get_mut(number) {
        None => Ok(Put::Leaves),
        Some(thing) => put_thing(thing, key, value),
    }
}

/// Sets a property of a value that is neither `undefined` nor `null`.
pub fn put_in<C: Drop>(
    things: &mut Vec<Thing<C>>,
    base: &Value,
    key: Option<Units>,
    value: Value,
) -> Result<Put, NoMemory>
    ensures answer { IfOk result (λ r. (r, things_of things.new.items) ≡ put_in (things_of things.old.items) base.now key value) }
    ensures kept { OnErr result (things_of things.new.items ≡ things_of things.old.items) }
{
    match (base, key) {
        (Value::Thing(number), Some(key)) => {
            if is_word(&key, b"__proto__") {
                return Ok(Put::Leaves);
            }
            put_at(things, *number as usize, key, value)
        }
        _ => Ok(Put::Leaves),
    }
}
