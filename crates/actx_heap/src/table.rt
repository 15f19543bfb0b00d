//! The properties of a thing by their keys, in the order in which they were added (ECMA-262, 10.1.11).

ghost use Rattle.std.specs.Prelude.{◌≡◌, [], OnOk, OnErr, IfOk};
ghost use Rattle.std.specs.Option.{option_copied};
ghost use Rattle.actx_heap.specs.Properties.{prop_of, with_prop, with_props};

use actx_data::{NoMemory, Twin, Units, Value};
use indexmap::IndexMap;
use std::alloc::Global;
use std::marker::Model;
use std::mem;

/// Properties, seen as their list.
#[derive(Drop)]
pub struct Table {
    alloc: Global,
    entries: IndexMap<Units, Value>,
}

impl Model for Table {
    ghost use Rattle.std.specs.Prelude.{List, map};
    ghost use Rattle.actx_heap.specs.Things.{Prop, prop_in};

    ghost Value = { List Prop };

    ghost view = { λ t. map prop_in t.entries.entries };
}

impl Table {
    /// No properties; no memory is taken.
    pub fn new(alloc: Global) -> Table
        ensures { result ≡ [] }
    {
        Table {
            alloc,
            entries: IndexMap::new(alloc),
        }
    }

    /// The properties of a list of names with their values; a later one of a name replaces an earlier one.
    pub fn of_list(alloc: Global, list: Vec<(Units, Value)>) -> Result<Table, NoMemory>
        ensures { IfOk result (λ t. t ≡ with_props list.items []) }
    {
        let mut table = Table::new(alloc);
        for (key, value) in list {
            table.put(key, value)?;
        }
        Ok(table)
    }

    /// The value of a property, where there is one of this key.
    #[tactic(auto, using(crate::proofs::Tables::prop_found))]
    pub fn get(&self, key: &Units) -> Option<&Value>
        ensures { option_copied result ≡ prop_of key.now self.now }
    {
        self.entries.get(key)
    }

    /// Sets a property: one that is there keeps its place, and a new one goes last. Where there is no memory, nothing changes.
    #[tactic(auto, using(crate::proofs::Tables::prop_put))]
    pub fn put(&mut self, key: Units, value: Value) -> Result<(), NoMemory>
        ensures done { OnOk result (self.new ≡ with_prop key value self.old) }
        ensures kept { OnErr result (self.new ≡ self.old) }
    {
        self.entries.insert(key, value)?;
        Ok(())
    }

    /// Moves the properties out, and leaves none; no memory is taken.
    pub fn take(&mut self) -> Table
        ensures taken { result ≡ self.old }
        ensures left { self.new ≡ [] }
    {
        let alloc = self.alloc;
        mem::replace(self, Table::new(alloc))
    }

    /// The same properties once more.
    pub fn twin(&self, alloc: Global) -> Result<Table, NoMemory>
        ensures { IfOk result (λ t. t ≡ self.now) }
    {
        let mut table = Table::new(alloc);
        for (key, value) in self.entries.iter() {
            table.put(key.copy(alloc)?, value.copy(alloc)?)?;
        }
        Ok(table)
    }
}
