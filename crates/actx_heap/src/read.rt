//! Reading of properties (ECMA-262, 6.2.5.5, 10.1.8 and 10.4.3).

ghost use Rattle.std.specs.Prelude.{◌≡◌, IfOk, None, option_map};
ghost use Rattle.std.specs.Option.{option_copied};
ghost use Rattle.actx_heap.specs.Properties.{own_or, fixed_or, prop_of, failure_props, error_text, get_thing, get_text, get_from};
ghost use Rattle.actx_heap.specs.Views.{thing_of, things_of};

use crate::answers::Got;
use crate::keys::{index_of, is_index};
use crate::thing::Thing;
use crate::words::{is_inherited, is_word};
use actx_data::{ErrorName, NoMemory, Twin, Units, Value};
use std::alloc::Global;

/// The greatest number of the profile.
const GREATEST: usize = 9_007_199_254_740_991;

/// A property that an object has, or `undefined`; a name of Object.prototype is outside the profile.
fn own_or(alloc: Global, found: Option<&Value>, key: &Units) -> Result<Got, NoMemory>
    ensures { IfOk result (λ got. got ≡ own_or (option_copied found.entry) key.now) }
{
    match found {
        Some(value) => Ok(Got::Value(value.copy(alloc)?)),
        None => {
            if is_inherited(key) {
                Ok(Got::Leaves)
            } else {
                Ok(Got::Value(Value::Undefined))
            }
        }
    }
}

/// A property that is not there, of a thing whose names are fixed: only `then` may be asked for.
fn absent(key: &Units) -> Got
    ensures { result ≡ fixed_or None key.now }
{
    if is_word(key, b"then") {
        Got::Value(Value::Undefined)
    } else {
        Got::Leaves
    }
}

/// A property of a thing whose names are fixed.
fn fixed_or(alloc: Global, found: Option<&Value>, key: &Units) -> Result<Got, NoMemory>
    ensures { IfOk result (λ got. got ≡ fixed_or (option_copied found.entry) key.now) }
{
    match found {
        Some(value) => Ok(Got::Value(value.copy(alloc)?)),
        None => Ok(absent(key)),
    }
}

/// The units of an ASCII text.
fn ascii(alloc: Global, text: &[u8]) -> Result<Units, NoMemory>
    ensures { IfOk result (λ u. u ≡ text.now) }
{
    let list = text.iter().map(|byte| u16::from(*byte)).collect(alloc)?;
    Ok(Units::from_vec(list))
}

/// The text of an error's name (ECMA-262, 20.5.3.3 and 20.5.6.3.3).
fn error_text(alloc: Global, name: ErrorName) -> Result<Units, NoMemory>
    ensures { IfOk result (λ u. u ≡ error_text name) }
{
    match name {
        ErrorName::Error => ascii(alloc, b"Error"),
        ErrorName::TypeError => ascii(alloc, b"TypeError"),
        ErrorName::RangeError => ascii(alloc, b"RangeError"),
        ErrorName::ReferenceError => ascii(alloc, b"ReferenceError"),
    }
}

/// A property of an error: its name or its message.
fn get_failure(
    alloc: Global,
    name: ErrorName,
    message: &Units,
    key: &Units,
) -> Result<Got, NoMemory>
    ensures { IfOk result (λ got. got ≡ fixed_or (prop_of key.now (failure_props name message.now)) key.now) }
{
    if is_word(key, b"name") {
        return Ok(Got::Value(Value::Text(error_text(alloc, name)?)));
    }
    if is_word(key, b"message") {
        return Ok(Got::Value(Value::Text(message.copy(alloc)?)));
    }
    Ok(absent(key))
}

/// A property of a thing.
fn get_thing<C>(alloc: Global, thing: Option<&Thing<C>>, key: &Units) -> Result<Got, NoMemory>
    ensures { IfOk result (λ got. got ≡ get_thing (option_map thing_of (option_copied thing.entry)) key.now) }
{
    match thing {
        Some(Thing::Plain(table)) => own_or(alloc, table.get(key), key),
        Some(Thing::Listed(table)) => fixed_or(alloc, table.get(key), key),
        Some(Thing::Failure(name, message)) => get_failure(alloc, *name, message, key),
        Some(Thing::Function(_)) => Ok(absent(key)),
        None => Ok(Got::Leaves),
    }
}

/// The length of a text, or one of its units.
fn get_text(alloc: Global, units: &Units, key: &Units) -> Result<Got, NoMemory>
    ensures { IfOk result (λ got. got ≡ get_text units.now key.now) }
{
    if is_word(key, b"length") {
        let len = units.len();
        if len <= GREATEST {
            return Ok(Got::Value(Value::Num(len as i64)));
        }
        return Ok(Got::Leaves);
    }
    if !is_index(key.as_slice()) {
        return Ok(Got::Leaves);
    }
    match units.as_slice().get(index_of(key.as_slice()) as usize) {
        Some(unit) => Ok(Got::Value(Value::Text(Units::from_list(alloc, &[*unit])?))),
        None => Ok(Got::Value(Value::Undefined)),
    }
}

/// A property of a value that is neither `undefined` nor `null`.
pub fn get_from<C>(
    alloc: Global,
    things: &[Thing<C>],
    base: &Value,
    key: &Option<Units>,
) -> Result<Got, NoMemory>
    ensures { IfOk result (λ got. got ≡ get_from (things_of things.now) base.now key.now) }
{
    match (base, key) {
        (Value::Text(units), Some(key)) => get_text(alloc, units, key),
        (Value::Thing(number), Some(key)) => get_thing(alloc, things.get(*number as usize), key),
        _ => Ok(Got::Leaves),
    }
}
