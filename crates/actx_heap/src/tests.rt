//! Each row of the property table and of equality, on a small heap.

ghost use Rattle.std.specs.Prelude.{◌≡◌, IfOk, length};

use super::{Got, Heap, Kind, Put, Seen, same};
use actx_data::{ErrorName, NoMemory, Twin, Units, Value};
use std::alloc::Global;
use std::test::Fail;

fn units(alloc: Global, text: &str) -> Result<Units, NoMemory> {
    let list = text.bytes().map(u16::from).collect(alloc)?;
    Ok(Units::from_vec(list))
}

fn key(alloc: Global, text: &str) -> Result<Value, NoMemory> {
    Ok(Value::Text(units(alloc, text)?))
}

/// What a reading answers in short: the value as text, `!` where it throws, `~` where the run leaves.
fn shown(alloc: Global, got: Got) -> Result<String, NoMemory> {
    Ok(match got {
        Got::Throws => format!(in alloc; "!")?,
        Got::Leaves => format!(in alloc; "~")?,
        Got::Value(Value::Undefined) => format!(in alloc; "undefined")?,
        Got::Value(Value::Num(n)) => format!(in alloc; "{n}")?,
        Got::Value(Value::Text(text)) => text.to_text(alloc)?,
        Got::Value(Value::Thing(thing)) => format!(in alloc; "#{thing}")?,
        Got::Value(_) => format!(in alloc; "other")?,
    })
}

/// Whether reading answers this.
fn reads(
    alloc: Global,
    heap: &Heap<Units>,
    base: &Value,
    name: &str,
    wanted: &str,
) -> Result<bool, NoMemory> {
    let name = key(alloc, name)?;
    let text = shown(alloc, heap.get(base, &name)?)?;
    Ok(text.as_str() == wanted)
}

/// How a property was set, as a letter.
fn put(
    alloc: Global,
    heap: &mut Heap<Units>,
    base: &Value,
    name: &str,
    number: i64,
) -> Result<char, NoMemory> {
    let name = key(alloc, name)?;
    Ok(match heap.put(base, &name, Value::Num(number))? {
        Put::Done => 'd',
        Put::Throws => 't',
        Put::Leaves => 'l',
    })
}

/// What a thing is, as a letter.
fn letter(seen: Seen<'_, Units>) -> char {
    match seen {
        Seen::Plain => 'p',
        Seen::Listed => 'l',
        Seen::Failure(ErrorName::RangeError, _) => 'r',
        Seen::Failure(_, _) => 'e',
        Seen::Function(_) => 'f',
    }
}

/// A heap with an object, a listed thing with `get`, an error and a function.
fn small(alloc: Global) -> Result<Heap<Units>, NoMemory>
    ensures { IfOk result (λ h. length h ≡ 4) }
{
    let mut heap = Heap::new(alloc);
    heap.make(Kind::Plain)?;
    let mut methods = Vec::new(alloc);
    methods.push((units(alloc, "get")?, Value::Thing(3)))?;
    heap.make(Kind::Listed(methods))?;
    heap.make(Kind::Failure(ErrorName::RangeError, units(alloc, "far")?))?;
    heap.make(Kind::Function(units(alloc, "code")?))?;
    Ok(heap)
}

#[test]
fn things_are_numbered_from_zero_and_told_apart(rt: HostRuntime) -> Result<(), Fail> {
    let mut heap = small(rt.alloc())?;
    for (thing, wanted) in [(0, 'p'), (1, 'l'), (2, 'r'), (3, 'f')] {
        assert_eq!(rt; letter(heap.kind(thing)), wanted);
    }
    assert_eq!(rt; heap.make(Kind::Plain)?, 4);
    Ok(())
}

#[test]
fn objects_have_what_was_put(rt: HostRuntime) -> Result<(), Fail> {
    let alloc = rt.alloc();
    let mut heap = small(alloc)?;
    let object = Value::Thing(0);
    assert!(rt; reads(alloc, &heap, &object, "valueOf", "~")?);
    let puts = [
        ("x", 1, 'd'),
        ("valueOf", 2, 'd'),
        ("x", 3, 'd'),
        ("-1", 5, 'd'),
        ("__proto__", 4, 'l'),
    ];
    for (name, number, wanted) in puts {
        assert_eq!(rt; put(alloc, &mut heap, &object, name, number)?, wanted);
    }
    for (name, wanted) in [
        ("x", "3"),
        ("valueOf", "2"),
        ("-1", "5"),
        ("y", "undefined"),
    ] {
        assert!(rt; reads(alloc, &heap, &object, name, wanted)?);
    }
    Ok(())
}

#[test]
fn a_frozen_object_keeps_its_properties(rt: HostRuntime) -> Result<(), Fail> {
    let alloc = rt.alloc();
    let mut heap = small(alloc)?;
    heap.freeze(0);
    let object = Value::Thing(0);
    assert_eq!(rt; put(alloc, &mut heap, &object, "x", 1)?, 'l');
    assert!(rt; reads(alloc, &heap, &object, "x", "~")?);
    assert!(rt; reads(alloc, &heap, &object, "then", "undefined")?);
    Ok(())
}

#[test]
fn each_row_of_reading(rt: HostRuntime) -> Result<(), Fail> {
    let alloc = rt.alloc();
    let heap = small(alloc)?;
    let text = key(alloc, "abc")?;
    for (name, wanted) in [
        ("length", "3"),
        ("1", "b"),
        ("3", "undefined"),
        ("01", "~"),
        ("", "~"),
        ("-1", "~"),
        ("99999999999999999999999999", "undefined"),
    ] {
        assert!(rt; reads(alloc, &heap, &text, name, wanted)?);
    }
    for (thing, name, wanted) in [
        (1, "get", "#3"),
        (1, "then", "undefined"),
        (1, "set", "~"),
        (2, "name", "RangeError"),
        (2, "message", "far"),
        (2, "stack", "~"),
        (3, "then", "undefined"),
        (3, "name", "~"),
    ] {
        assert!(rt; reads(alloc, &heap, &Value::Thing(thing), name, wanted)?);
    }
    Ok(())
}

#[test]
fn only_objects_are_written(rt: HostRuntime) -> Result<(), Fail> {
    let alloc = rt.alloc();
    let mut heap = small(alloc)?;
    let rows = [
        (Value::Undefined, "!", 't'),
        (Value::Null, "!", 't'),
        (Value::Truth(true), "~", 'l'),
        (Value::Num(1), "~", 'l'),
        (key(alloc, "abc")?, "~", 'l'),
        (Value::Thing(1), "~", 'l'),
        (Value::Thing(2), "~", 'l'),
        (Value::Thing(3), "~", 'l'),
    ];
    for (base, wanted, letter) in rows.iter() {
        assert!(rt; reads(alloc, &heap, base, "x", wanted)?);
        assert_eq!(rt; put(alloc, &mut heap, base, "x", 1)?, *letter);
    }
    Ok(())
}

#[test]
fn values_are_the_same_by_value_and_things_by_number(rt: HostRuntime) -> Result<(), Fail> {
    let alloc = rt.alloc();
    let values = [
        Value::Undefined,
        Value::Null,
        Value::Truth(false),
        Value::Truth(true),
        Value::Num(0),
        Value::Num(1),
        key(alloc, "")?,
        key(alloc, "1")?,
        Value::Thing(0),
        Value::Thing(1),
    ];
    for (i, a) in values.iter().enumerate() {
        for (j, b) in values.iter().enumerate() {
            assert_eq!(rt; same(a, b), i == j);
        }
    }
    Ok(())
}

#[test]
fn a_copy_has_the_same_things_and_its_own_properties(rt: HostRuntime) -> Result<(), Fail> {
    let alloc = rt.alloc();
    let mut heap = small(alloc)?;
    put(alloc, &mut heap, &Value::Thing(0), "x", 1)?;
    let mut twin = heap.copy(alloc)?;
    put(alloc, &mut twin, &Value::Thing(0), "x", 2)?;
    assert!(rt; reads(alloc, &heap, &Value::Thing(0), "x", "1")?);
    for (thing, name, wanted) in [(0, "x", "2"), (1, "get", "#3"), (2, "message", "far")] {
        assert!(rt; reads(alloc, &twin, &Value::Thing(thing), name, wanted)?);
    }
    Ok(())
}
