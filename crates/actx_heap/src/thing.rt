//! The things of the heap: objects, errors and functions.

ghost use Rattle.std.specs.Prelude.{◌≡◌, ◌<◌, length, IfOk};
ghost use Rattle.actx_heap.specs.Things.{ThingSame, HeapSame};
ghost use Rattle.actx_heap.specs.Properties.{frozen, with_frozen};
ghost use Rattle.actx_heap.specs.Views.{thing_of, things_of};

use crate::table::Table;
use actx_data::{ErrorName, NoMemory, Twin, Units};
use std::alloc::Global;

/// A thing of the heap; what a function is made of is the machine's.
#[derive(Drop)]
pub enum Thing<C> {
    /// An object whose properties may be set and added.
    Plain(Table),
    /// What has the same properties for ever.
    Listed(Table),
    Failure(ErrorName, Units),
    Function(C),
}

/// Makes an object one whose properties stay.
fn freeze<C: Drop>(thing: &mut Thing<C>)
    ensures { thing_of thing.new ≡ frozen (thing_of thing.old) }
{
    if let Thing::Plain(table) = thing {
        let table = table.take();
        *thing = Thing::Listed(table);
    }
}

/// Makes the thing with this number one whose properties stay, where it is an object.
pub fn freeze_at<C: Drop>(things: &mut Vec<Thing<C>>, number: usize)
    requires { number < length things.old.items }
    ensures { things_of things.new.items ≡ with_frozen (things_of things.old.items) number }
{
    freeze(&mut things[number]);
}

/// The same thing once more.
fn twin_of<C: Twin + Drop>(alloc: Global, thing: &Thing<C>) -> Result<Thing<C>, NoMemory>
    ensures { IfOk result (λ twin. ThingSame C.same (thing_of twin) (thing_of thing.now)) }
{
    Ok(match thing {
        Thing::Plain(table) => Thing::Plain(table.twin(alloc)?),
        Thing::Listed(table) => Thing::Listed(table.twin(alloc)?),
        Thing::Failure(name, message) => Thing::Failure(*name, message.copy(alloc)?),
        Thing::Function(code) => Thing::Function(code.copy(alloc)?),
    })
}

/// The same things once more, in order.
pub fn twins_of<C: Twin + Drop>(
    alloc: Global,
    things: &[Thing<C>],
) -> Result<Vec<Thing<C>>, NoMemory>
    ensures { IfOk result (λ twins. HeapSame C.same (things_of twins.items) (things_of things.now)) }
{
    let mut twins = Vec::with_capacity(alloc, things.len())?;
    for thing in things {
        let twin = twin_of(alloc, thing)?;
        twins.push(twin)?;
    }
    Ok(twins)
}
