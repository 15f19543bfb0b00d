//! The heap: the things of a run by their numbers (ECMA-262, 6.1.7).

ghost use Rattle.std.specs.Prelude.{◌≡◌, ◌<◌, [], ◌∷◌, ◌++◌, length, Some, IfOk, OnOk, OnErr, slice_get, option_map};
ghost use Rattle.actx_heap.specs.Properties.{get, put, with_frozen};
ghost use Rattle.actx_heap.specs.Views.{thing_of, kind_thing, what_of, seen_view};

use crate::answers::{Got, Put};
use crate::keys::key_text;
use crate::read::get_from;
use crate::table::Table;
use crate::thing::{Thing, freeze_at, twins_of};
use crate::write::put_in;
use actx_data::{ErrorName, NoMemory, Twin, Units, Value};
use std::alloc::Global;
use std::marker::Model;

/// What a new thing is made of.
#[derive(Drop)]
pub enum Kind<C> {
    /// An object without properties.
    Plain,
    /// What has these properties for ever, as a promise has its methods.
    Listed(Vec<(Units, Value)>),
    /// An error with its message.
    Failure(ErrorName, Units),
    /// A function, with what it is made of.
    Function(C),
}

/// What a thing is.
#[derive(Drop)]
pub enum Seen<'a, C> {
    Plain,
    Listed,
    Failure(ErrorName, &'a Units),
    Function(&'a C),
}

/// The things of a run; a thing's number is its place.
#[derive(Drop)]
pub struct Heap<C> {
    alloc: Global,
    things: Vec<Thing<C>>,
}

impl<C> Model for Heap<C> {
    ghost use Rattle.std.specs.Prelude.{List, map};
    ghost use Rattle.actx_heap.specs.Things as m;
    ghost use Rattle.actx_heap.specs.Views.{thing_of};

    ghost Value = { List (m.Thing C) };

    ghost view = { λ h. map thing_of h.things.items };
}

impl<C: Drop> Heap<C> {
    /// No things; no memory is taken.
    pub fn new(alloc: Global) -> Heap<C>
        ensures { result ≡ [] }
    {
        Heap {
            alloc,
            things: Vec::new(alloc),
        }
    }

    /// Makes a thing, and answers its number. Where there is no memory, nothing changes.
    pub fn make(&mut self, kind: Kind<C>) -> Result<u64, NoMemory>
        ensures made { OnOk result (self.new ≡ self.old ++ kind_thing kind ∷ []) }
        ensures number { IfOk result (λ n. n ≡ length self.old) }
        ensures kept { OnErr result (self.new ≡ self.old) }
    {
        let thing = match kind {
            Kind::Plain => Thing::Plain(Table::new(self.alloc)),
            Kind::Listed(list) => Thing::Listed(Table::of_list(self.alloc, list)?),
            Kind::Failure(name, message) => Thing::Failure(name, message),
            Kind::Function(code) => Thing::Function(code),
        };
        let number = self.things.len() as u64;
        self.things.push(thing)?;
        Ok(number)
    }

    /// What a thing is.
    pub fn kind(&self, thing: u64) -> Seen<'_, C>
        requires { thing < length self.now }
        ensures { Some (seen_view result) ≡ option_map what_of (slice_get self.now thing) }
    {
        match &self.things[thing as usize] {
            Thing::Plain(_) => Seen::Plain,
            Thing::Listed(_) => Seen::Listed,
            Thing::Failure(name, message) => Seen::Failure(*name, message),
            Thing::Function(code) => Seen::Function(code),
        }
    }

    /// Reads a property of a value (ECMA-262, 13.3.2, 13.3.3 and 6.2.5.5).
    pub fn get(&self, base: &Value, key: &Value) -> Result<Got, NoMemory>
        ensures { IfOk result (λ got. got ≡ get self.now base.now key.now) }
    {
        match base {
            Value::Undefined => Ok(Got::Throws),
            Value::Null => Ok(Got::Throws),
            _ => {
                let key = key_text(self.alloc, key)?;
                get_from(self.alloc, self.things.as_slice(), base, &key)
            }
        }
    }

    /// Sets a property of a value (ECMA-262, 13.15.2 and 6.2.5.6). Unless the answer is `Done`, nothing changes.
    pub fn put(&mut self, base: &Value, key: &Value, value: Value) -> Result<Put, NoMemory>
        ensures answer { IfOk result (λ r. (r, self.new) ≡ put self.old base.now key.now value) }
        ensures kept { OnErr result (self.new ≡ self.old) }
    {
        match base {
            Value::Undefined => Ok(Put::Throws),
            Value::Null => Ok(Put::Throws),
            _ => {
                let key = key_text(self.alloc, key)?;
                put_in(&mut self.things, base, key, value)
            }
        }
    }

    /// Makes an object one whose properties stay; any other thing stays as it is (ECMA-262, 20.1.2.6).
    pub fn freeze(&mut self, thing: u64)
        requires { thing < length self.old }
        ensures { self.new ≡ with_frozen self.old thing }
    {
        freeze_at(&mut self.things, thing as usize);
    }
}

impl<C: Twin + Drop> Twin for Heap<C> {
    ghost use Rattle.actx_heap.specs.Things.{HeapSame};

    ghost same = { λ a b. HeapSame C.same a b };

    /// Errors: `NoMemory`, where a thing can't be copied.
    fn copy(&self, alloc: Global) -> Result<Heap<C>, NoMemory> {
        let things = twins_of(alloc, self.things.as_slice())?;
        Ok(Heap { alloc, things })
    }
}
