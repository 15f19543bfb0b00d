//! The order of a mapping's entries and of the line.

use super::{Line, Mapping, Next};
use actx_data::{Event, NoMemory, Twin, Units, Value};
use std::alloc::Global;
use std::test::Fail;

fn event(alloc: Global, name: u16) -> Result<Event, NoMemory> {
    let name = Units::from_list(alloc, &[name])?;
    let text = Units::from_list(alloc, &[])?;
    Ok(Event { name, text })
}

#[test]
fn a_mapped_variable_keeps_its_place(rt: HostRuntime) -> Result<(), Fail> {
    let empty = Mapping::new(rt.alloc());
    assert!(rt; empty.get(0).is_none() && empty.entries().is_empty());
    let one = empty.with(7, Value::Num(1))?;
    let two = one.with(0, Value::Num(2))?;
    let again = two.with(7, Value::Num(3))?;
    assert!(rt; empty.entries().is_empty());
    assert!(rt; one.entries() == &[(7, Value::Num(1))][..]);
    assert!(rt; two.entries() == &[(7, Value::Num(1)), (0, Value::Num(2))][..]);
    assert!(rt; again.entries() == &[(7, Value::Num(3)), (0, Value::Num(2))][..]);
    assert!(rt; again.get(0) == Some(&Value::Num(2)));
    assert!(rt; again.get(8).is_none());
    let twin = again.copy(rt.alloc())?;
    assert!(rt; twin.entries() == again.entries());
    Ok(())
}

/// The name of what comes next: a job's number, or an event's one unit.
fn next_of(line: &mut Line<Units>) -> Option<u16> {
    match line.next() {
        Next::Job(units) => units.as_slice().first().copied(),
        Next::Host(event) => event.name.as_slice().first().copied(),
        Next::Nothing => None,
    }
}

#[test]
fn jobs_come_in_order_and_before_events(rt: HostRuntime) -> Result<(), Fail> {
    let alloc = rt.alloc();
    let mut events = Vec::new(alloc);
    events.push(event(alloc, 10)?)?;
    events.push(event(alloc, 11)?)?;
    let mut line = Line::new(alloc, events);
    line.queue(Units::from_list(alloc, &[1])?)?;
    line.queue(Units::from_list(alloc, &[2])?)?;
    let mut twin = line.copy(alloc)?;
    for wanted in [1, 2, 10] {
        assert_eq!(rt; next_of(&mut line), Some(wanted));
    }
    line.queue(Units::from_list(alloc, &[3])?)?;
    for wanted in [3, 11] {
        assert_eq!(rt; next_of(&mut line), Some(wanted));
    }
    assert!(rt; matches!(line.next(), Next::Nothing));
    for wanted in [1, 2, 10, 11] {
        assert_eq!(rt; next_of(&mut twin), Some(wanted));
    }
    assert!(rt; matches!(twin.next(), Next::Nothing));
    Ok(())
}
