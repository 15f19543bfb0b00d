//! Keys of properties, as `name` of `v.name` and of `{ name: "v" }`.

ghost use Rattle.std.specs.Prelude.{◌≡◌, ◌==◌, List, ℕ, IfOk};
ghost use Rattle.std.proofs.Common.{rules};
ghost use Rattle.std.specs.Cmp.Rules.{comparing, hashing};
ghost use Rattle.std.specs.Cmp.Lexicographic.{pointwise};
ghost use Rattle.std.specs.Hash as fed;

use actx_data::{NoMemory, Units};
use actx_grammar::name::Name;
use std::alloc::Global;
use std::hash::{Hash, Hasher};
use std::marker::Model;

/// A key, seen as its list of units: those of a text, or the characters of a name.
#[derive(Drop)]
pub struct Key {
    units: Vec<u32>,
}

impl Model for Key {
    ghost Value = { List ℕ };

    ghost view = { λ k. k.units.items };
}

impl Key {
    /// The key that a name is.
    pub fn of_name(alloc: Global, name: &Name) -> Result<Key, NoMemory>
        ensures { IfOk result (λ k. k ≡ name.now) }
    {
        let units = name
            .as_slice()
            .iter()
            .map(|char| *char as u32)
            .collect(alloc)?;
        Ok(Key { units })
    }

    /// The key that a text is.
    pub fn of_units(alloc: Global, units: &Units) -> Result<Key, NoMemory>
        ensures { IfOk result (λ k. k ≡ units.now) }
    {
        let units = units
            .as_slice()
            .iter()
            .map(|unit| u32::from(*unit))
            .collect(alloc)?;
        Ok(Key { units })
    }
}

impl PartialEq for Key {
    ghost eq = { pointwise ◌==◌ };

    ghost laws = { Prim.search (comparing, rules) };

    fn eq(&self, other: &Key) -> bool {
        self.units.as_slice() == other.units.as_slice()
    }
}

impl Eq for Key {
    ghost laws = { Prim.search (comparing, rules) };
}

impl Hash for Key {
    ghost hash_input = { fed.slice fed.u32 };

    ghost respects_eq = { Prim.search (hashing, rules) };

    fn hash<H: Hasher>(&self, state: &mut H) {
        self.units.as_slice().hash(state);
    }
}
