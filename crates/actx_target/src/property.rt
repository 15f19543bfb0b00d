//! Reading and writing of properties whose key stands after a dot (ECMA-262, 10.1 and 13.3.2).

ghost use Rattle.std.specs.Prelude.{◌≡◌, IfOk, None, option_map, slice_get};
ghost use Rattle.std.specs.Option.{option_copied};
ghost use Rattle.actx_rules.specs.Properties.{own_or, fixed_or, prop_of, failure_props, weak_props, error_text, get_thing, get_text, get, put, put_thing};
ghost use Rattle.actx_target.specs.ThingView.{thing_of, things_of};
ghost use Rattle.actx_target.specs.View.{answer_view, put_view, put_answer, KeptAtThrow, with_put, put_is};

use crate::key::Key;
use crate::operators::{Answer, ascii};
use crate::sound::Sound;
use crate::table::Table;
use crate::thing::Thing;
use crate::word::{is_inherited, is_word};
use actx_data::{ErrorName, NoMemory, Twin, Units, Value};
use actx_grammar::name::Name;
use std::alloc::Global;

/// The greatest number of the profile.
const GREATEST: usize = 9_007_199_254_740_991;

/// How a property was set.
#[derive(Clone, Copy, Drop)]
pub enum Setting {
    Done,
    Throws,
    Leaves,
}

/// A property that an object has, or `undefined`; a name of Object.prototype is outside the profile.
fn own_or(alloc: Global, found: Option<&Sound>, key: &Name) -> Result<Answer, NoMemory>
    ensures { IfOk result (λ answer. answer_view answer ≡ own_or (option_copied found.entry) key.now) }
{
    match found {
        Some(value) => Ok(Answer::Gives(value.copy(alloc)?)),
        None => {
            if is_inherited(key) {
                Ok(Answer::Leaves)
            } else {
                Ok(Answer::Gives(Sound::undefined()))
            }
        }
    }
}

/// A property that is not there, of a thing whose names are fixed: only `then` may be asked for.
fn absent(key: &Name) -> Answer
    ensures { answer_view result ≡ fixed_or None key.now }
{
    if is_word(key, b"then") {
        Answer::Gives(Sound::undefined())
    } else {
        Answer::Leaves
    }
}

/// A property of a thing whose names are fixed.
fn fixed_or(alloc: Global, found: Option<&Sound>, key: &Name) -> Result<Answer, NoMemory>
    ensures { IfOk result (λ answer. answer_view answer ≡ fixed_or (option_copied found.entry) key.now) }
{
    match found {
        Some(value) => Ok(Answer::Gives(value.copy(alloc)?)),
        None => Ok(absent(key)),
    }
}

/// The text of an error's name (ECMA-262, 20.5).
fn error_text(alloc: Global, name: ErrorName) -> Result<Units, NoMemory>
    ensures { IfOk result (λ u. u ≡ error_text name) }
{
    match name {
        ErrorName::Error => ascii(alloc, b"Error"),
        ErrorName::TypeError => ascii(alloc, b"TypeError"),
        ErrorName::RangeError => ascii(alloc, b"RangeError"),
        ErrorName::ReferenceError => ascii(alloc, b"ReferenceError"),
    }
}

/// A property of an error: its name or its message.
fn get_failure(
    alloc: Global,
    name: ErrorName,
    message: &Units,
    key: &Name,
) -> Result<Answer, NoMemory>
    ensures { IfOk result (λ answer. answer_view answer ≡ fixed_or (prop_of key.now (failure_props name message.now)) key.now) }
{
    if is_word(key, b"name") {
        return Ok(Answer::Gives(Sound::text(error_text(alloc, name)?)));
    }
    if is_word(key, b"message") {
        return Ok(Answer::Gives(Sound::text(message.copy(alloc)?)));
    }
    Ok(absent(key))
}

/// A method of a WeakMap: the first things of the heap.
fn get_weak(key: &Name) -> Answer
    ensures { answer_view result ≡ fixed_or (prop_of key.now weak_props) key.now }
{
    if is_word(key, b"get") {
        return Answer::Gives(Sound::thing(0));
    }
    if is_word(key, b"set") {
        return Answer::Gives(Sound::thing(1));
    }
    absent(key)
}

/// A property of a thing.
fn get_thing(alloc: Global, thing: Option<&Thing<'_>>, key: &Name) -> Result<Answer, NoMemory>
    ensures { IfOk result (λ answer. answer_view answer ≡ get_thing (option_map thing_of (option_copied thing.entry)) key.now) }
{
    match thing {
        Some(Thing::Plain(table)) => own_or(alloc, table.get(&Key::of_name(alloc, key)?), key),
        Some(Thing::Listed(table)) => fixed_or(alloc, table.get(&Key::of_name(alloc, key)?), key),
        Some(Thing::Failure(name, message)) => get_failure(alloc, *name, message, key),
        Some(Thing::Closure(_, _, _)) => Ok(absent(key)),
        Some(Thing::Native(_)) => Ok(absent(key)),
        Some(Thing::Weak(_)) => Ok(get_weak(key)),
        None => Ok(Answer::Leaves),
    }
}

/// A property of a text: its length.
fn get_text(units: &Units, key: &Name) -> Answer
    ensures { answer_view result ≡ get_text units.now key.now }
{
    if is_word(key, b"length") {
        let len = units.len();
        if len <= GREATEST {
            return Answer::Gives(Sound::number(len as i64));
        }
    }
    Answer::Leaves
}

/// A property of a value.
pub fn get(alloc: Global, heap: &[Thing<'_>], base: &Value, key: &Name) -> Result<Answer, NoMemory>
    ensures { IfOk result (λ answer. answer_view answer ≡ get (things_of heap.now) base.now key.now) }
{
    match base {
        Value::Undefined => Ok(Answer::Throws(ErrorName::TypeError)),
        Value::Null => Ok(Answer::Throws(ErrorName::TypeError)),
        Value::Truth(_) => Ok(Answer::Leaves),
        Value::Num(_) => Ok(Answer::Leaves),
        Value::Text(units) => Ok(get_text(units, key)),
        Value::Thing(number) => get_thing(alloc, heap.get(*number as usize), key),
    }
}

/// Sets a property of a thing, where that is a plain object; whether it was.
fn put_in(alloc: Global, thing: &mut Thing<'_>, key: &Name, value: Sound) -> Result<bool, NoMemory>
    ensures { IfOk result (λ done. with_put (thing_of thing.old) key.now value ≡ put_is done (thing_of thing.new)) }
{
    match thing {
        Thing::Plain(table) => {
            table.put(Key::of_name(alloc, key)?, value)?;
            Ok(true)
        }
        Thing::Listed(_) => Ok(false),
        Thing::Failure(_, _) => Ok(false),
        Thing::Closure(_, _, _) => Ok(false),
        Thing::Native(_) => Ok(false),
        Thing::Weak(_) => Ok(false),
    }
}

/// Sets a property of the thing with this number, where that is a plain object; whether it was.
fn put_thing(
    alloc: Global,
    heap: &mut Vec<Thing<'_>>,
    number: usize,
    key: &Name,
    value: Sound,
) -> Result<bool, NoMemory>
    ensures { IfOk result (λ done. put_thing (slice_get (things_of heap.old.items) number) (things_of heap.old.items) number key.now value ≡ put_answer done (things_of heap.new.items)) }
{
    match heap.get_mut(number) {
        None => Ok(false),
        Some(thing) => {
            let done = put_in(alloc, thing, key, value)?;
            Ok(done)
        }
    }
}

/// Sets a property of a value.
pub fn put(
    alloc: Global,
    heap: &mut Vec<Thing<'_>>,
    base: &Value,
    key: &Name,
    value: Sound,
) -> Result<Setting, NoMemory>
    ensures put { IfOk result (λ r. put (things_of heap.old.items) base.now key.now value ≡ put_view r (things_of heap.new.items)) }
    ensures kept { IfOk result (λ r. KeptAtThrow r (things_of heap.old.items) (things_of heap.new.items)) }
{
    match base {
        Value::Undefined => Ok(Setting::Throws),
        Value::Null => Ok(Setting::Throws),
        Value::Truth(_) => Ok(Setting::Leaves),
        Value::Num(_) => Ok(Setting::Leaves),
        Value::Text(_) => Ok(Setting::Leaves),
        Value::Thing(number) => {
            if is_word(key, b"__proto__") {
                return Ok(Setting::Leaves);
            }
            if put_thing(alloc, heap, *number as usize, key, value)? {
                Ok(Setting::Done)
            } else {
                Ok(Setting::Leaves)
            }
        }
    }
}
