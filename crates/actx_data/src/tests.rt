//! Copies of each type of value, compared with their sources.

use super::{
    End, ErrorName, Event, JobKind, NoMemory, Shown, TraceEvent, Twin, Units, Value, copy_all,
};
use std::alloc::Global;
use std::test::Fail;

fn text(alloc: Global) -> Result<Units, NoMemory> {
    Units::from_list(alloc, &[104, 105])
}

/// A copy through the bound alone equals its source.
fn is_copied<T: Twin + PartialEq + Drop>(alloc: Global, value: &T) -> Result<bool, NoMemory> {
    let twin = value.copy(alloc)?;
    Ok(twin == *value)
}

#[test]
fn copied_values(rt: HostRuntime) -> Result<(), Fail> {
    let values = [
        Value::Undefined,
        Value::Null,
        Value::Truth(true),
        Value::Num(-7),
        Value::Text(text(rt.alloc())?),
        Value::Thing(3),
    ];
    for value in values.iter() {
        assert!(rt; is_copied(rt.alloc(), value)?);
    }
    assert!(rt; Value::Num(1) != Value::Thing(1));
    let twins = copy_all(rt.alloc(), &values)?;
    assert!(rt; twins.as_slice() == values.as_slice());
    Ok(())
}

#[test]
fn copied_shown_values(rt: HostRuntime) -> Result<(), Fail> {
    let failure = Shown::Failure {
        number: 1,
        name: ErrorName::RangeError,
        message: text(rt.alloc())?,
    };
    assert!(rt; is_copied(rt.alloc(), &failure)?);
    let other = Shown::Failure {
        number: 1,
        name: ErrorName::TypeError,
        message: text(rt.alloc())?,
    };
    assert!(rt; failure != other);
    let shown = [
        Shown::Undefined,
        Shown::Null,
        Shown::Truth(false),
        Shown::Num(0),
        Shown::Text(text(rt.alloc())?),
        Shown::Object(2),
    ];
    for value in shown.iter() {
        assert!(rt; is_copied(rt.alloc(), value)?);
    }
    let ends = [End::Going, End::Ended, End::Threw(failure), End::Left];
    for end in ends.iter() {
        assert!(rt; is_copied(rt.alloc(), end)?);
    }
    Ok(())
}

#[test]
fn copied_events(rt: HostRuntime) -> Result<(), Fail> {
    let event = Event {
        name: text(rt.alloc())?,
        text: Units::from_list(rt.alloc(), &[])?,
    };
    assert!(rt; is_copied(rt.alloc(), &event)?);
    let events = [
        TraceEvent::Out(text(rt.alloc())?),
        TraceEvent::Start,
        TraceEvent::Job(JobKind::Resume, Shown::Object(1)),
        TraceEvent::Get(4, Shown::Text(text(rt.alloc())?)),
        TraceEvent::Begin {
            id: 2,
            parent: 1,
            name: text(rt.alloc())?,
        },
        TraceEvent::Finish { id: 2, ok: true },
    ];
    for value in events.iter() {
        assert!(rt; is_copied(rt.alloc(), value)?);
    }
    assert!(rt; TraceEvent::Finish { id: 2, ok: true } != TraceEvent::Finish { id: 2, ok: false });
    Ok(())
}
