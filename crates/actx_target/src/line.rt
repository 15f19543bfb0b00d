//! The lines that `console.log` prints, as `1 a` of the values 1 and "a".

ghost use Rattle.std.specs.Prelude.{◌≡◌, ◌++◌, ◌≤◌, IfOk, OnOk, OnErr, IsTrue, ◌↔◌, Some, None, Option};
ghost use Rattle.std.specs.Option.{option_copied};
ghost use Rattle.std.specs.Prelude.{option_map};
ghost use Rattle.actx_rules.specs.Printing.{printed, printed_more, line_of, has_percent, is_format, is_line, thing_text};
ghost use Rattle.actx_target.specs.ThingView.{thing_of, things_of};
ghost use Rattle.actx_target.specs.View.{line_found};

use crate::operators::{ascii, primitive_text};
use crate::sound::Sound;
use crate::thing::Thing;
use actx_data::{NoMemory, Units, Value};
use std::alloc::Global;

/// The greatest number of units of a printed line.
const LONGEST_LINE: usize = 1_048_576;

/// What a line has for a thing: `[function]` for a function, and `[object]` for any other.
fn thing_text(alloc: Global, thing: Option<&Thing<'_>>) -> Result<Units, NoMemory>
    ensures { IfOk result (λ u. u ≡ thing_text (option_map thing_of (option_copied thing.entry))) }
{
    match thing {
        Some(Thing::Closure(_, _, _)) => ascii(alloc, b"[function]"),
        Some(Thing::Native(_)) => ascii(alloc, b"[function]"),
        Some(Thing::Plain(_)) => ascii(alloc, b"[object]"),
        Some(Thing::Listed(_)) => ascii(alloc, b"[object]"),
        Some(Thing::Failure(_, _)) => ascii(alloc, b"[object]"),
        Some(Thing::Weak(_)) => ascii(alloc, b"[object]"),
        None => ascii(alloc, b"[object]"),
    }
}

/// What a line has for a value.
fn printed(alloc: Global, heap: &[Thing<'_>], value: &Value) -> Result<Units, NoMemory>
    ensures { IfOk result (λ u. u ≡ printed (things_of heap.now) value.now) }
{
    if let Value::Thing(number) = value {
        return thing_text(alloc, heap.get(*number as usize));
    }
    match primitive_text(alloc, value)? {
        Some(text) => Ok(text),
        None => ascii(alloc, b""),
    }
}

/// Adds the texts of values to a line, with a space before each.
fn print_more(
    alloc: Global,
    heap: &[Thing<'_>],
    line: &mut Vec<u16>,
    values: &[Sound],
) -> Result<(), NoMemory>
    ensures { OnOk result (line.new.items ≡ line.old.items ++ printed_more (things_of heap.now) values.now) }
{
    for value in values {
        line.push(32)?;
        line.extend_from_slice(printed(alloc, heap, value.value())?.as_slice())?;
    }
    Ok(())
}

/// The texts of the values with a space between two, however long.
fn whole_line(alloc: Global, heap: &[Thing<'_>], values: &[Sound]) -> Result<Vec<u16>, NoMemory>
    ensures { IfOk result (λ v. v.items ≡ line_of (things_of heap.now) values.now) }
{
    let mut line = Vec::new(alloc);
    if let [first, more @ ..] = values {
        line.extend_from_slice(printed(alloc, heap, first.value())?.as_slice())?;
        print_more(alloc, heap, &mut line, more)?;
    }
    Ok(line)
}

/// Whether a sign `%` stands in a text.
fn has_percent(text: &Units) -> bool
    ensures { result ≡ has_percent text.now }
{
    text.as_slice().iter().any(|unit| *unit == 37)
}

/// Whether the values would be printed by a format: a first text with `%`, and more behind it.
fn is_format(values: &[Sound]) -> bool
    ensures { result ≡ is_format values.now }
{
    match values {
        [first, _, ..] => match first.value() {
            Value::Text(text) => has_percent(text),
            _ => false,
        },
        _ => false,
    }
}

/// The line of these values; `None` exactly where they make none in the profile.
pub fn line_of(
    alloc: Global,
    heap: &[Thing<'_>],
    values: &[Sound],
) -> Result<Option<Units>, NoMemory>
    ensures { IfOk result (λ found. found ≡ line_found (things_of heap.now) values.now) }
{
    if is_format(values) {
        return Ok(None);
    }
    let line = whole_line(alloc, heap, values)?;
    if line.len() > LONGEST_LINE {
        return Ok(None);
    }
    Ok(Some(Units::from_vec(line)))
}
