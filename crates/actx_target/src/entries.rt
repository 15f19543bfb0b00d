//! What a WeakMap has for things (ECMA-262, 24.3).

ghost use Rattle.std.specs.Prelude.{◌≡◌, [], map, OnOk, IfOk, option_map};
ghost use Rattle.std.specs.Option.{option_copied};
ghost use Rattle.actx_target.specs.Cells.{entry_in};
ghost use Rattle.actx_rules.specs.Properties.{entry_of, with_entry};

use crate::sound::Sound;
use actx_data::NoMemory;
use indexmap::IndexMap;
use std::alloc::Global;
use std::marker::Model;

/// The values for things by their numbers, seen as the list of entries.
#[derive(Drop)]
pub struct Entries {
    values: IndexMap<u64, Sound>,
}

impl Model for Entries {
    ghost use Rattle.std.specs.Prelude.{List, map};
    ghost use Rattle.actx_rules.specs.State.{Entry};
    ghost use Rattle.actx_target.specs.Cells.{entry_in};

    ghost Value = { List Entry };

    ghost view = { λ e. map entry_in e.values.entries };
}

impl Entries {
    /// No entries; no memory is taken.
    pub fn new(alloc: Global) -> Entries
        ensures { result ≡ [] }
    {
        Entries {
            values: IndexMap::new(alloc),
        }
    }

    /// The value for a thing, where there is one.
    #[tactic(auto, using(crate::proofs::Tables::entry_found))]
    pub fn get(&self, thing: u64) -> Option<&Sound>
        ensures { option_copied result ≡ entry_of thing self.now }
    {
        self.values.get(&thing)
    }

    /// Sets the value for a thing: one that is there keeps its place, and a new one goes last.
    #[tactic(auto, using(crate::proofs::Tables::entry_put))]
    pub fn put(&mut self, thing: u64, value: Sound) -> Result<(), NoMemory>
        ensures { OnOk result (self.new ≡ with_entry thing value self.old) }
    {
        self.values.insert(thing, value)?;
        Ok(())
    }
}
