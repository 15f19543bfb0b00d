//! The properties of a thing by their keys, in the order in which they were added (ECMA-262, 10.1).

ghost use Rattle.std.specs.Prelude.{◌≡◌, [], map, OnOk, IfOk, option_map};
ghost use Rattle.std.specs.Option.{option_copied};
ghost use Rattle.actx_target.specs.Cells.{prop_in};
ghost use Rattle.actx_rules.specs.Properties.{prop_of, with_prop};

use crate::key::Key;
use crate::sound::Sound;
use actx_data::NoMemory;
use indexmap::IndexMap;
use std::alloc::Global;
use std::marker::Model;

/// Properties, seen as their list.
#[derive(Drop)]
pub struct Table {
    entries: IndexMap<Key, Sound>,
}

impl Model for Table {
    ghost use Rattle.std.specs.Prelude.{List, map};
    ghost use Rattle.actx_rules.specs.State.{Prop};
    ghost use Rattle.actx_target.specs.Cells.{prop_in};

    ghost Value = { List Prop };

    ghost view = { λ t. map prop_in t.entries.entries };
}

impl Table {
    /// No properties; no memory is taken.
    pub fn new(alloc: Global) -> Table
        ensures { result ≡ [] }
    {
        Table {
            entries: IndexMap::new(alloc),
        }
    }

    /// The value of a property, where there is one of this key.
    #[tactic(auto, using(crate::proofs::Tables::prop_found))]
    pub fn get(&self, key: &Key) -> Option<&Sound>
        ensures { option_copied result ≡ prop_of key.now self.now }
    {
        self.entries.get(key)
    }

    /// Sets a property: one that is there keeps its place, and a new one goes last.
    #[tactic(auto, using(crate::proofs::Tables::prop_put))]
    pub fn put(&mut self, key: Key, value: Sound) -> Result<(), NoMemory>
        ensures { OnOk result (self.new ≡ with_prop key value self.old) }
    {
        self.entries.insert(key, value)?;
        Ok(())
    }
}
