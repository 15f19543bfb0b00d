//! The names of a scope that stand before a place, so that a second binding of one of them is found.

ghost use Rattle.std.specs.Prelude.{◌≡◌, [], IfOk, OnOk, length, not};
ghost use Rattle.actx_grammar.specs.Static.{is_among};
ghost use Rattle.actx_scope.specs.Found.{grown, outer_part};

use actx_data::{NoMemory, Twin};
use actx_grammar::name::Name;
use indexmap::IndexSet;
use std::alloc::Global;
use std::marker::Model;

/// Names that are bound, seen as their list, the last one first.
#[derive(Drop)]
pub struct Bound {
    names: IndexSet<Name>,
}

impl Model for Bound {
    ghost use Rattle.std.specs.Prelude.{List, ℕ, reverse};

    ghost Value = { List (List ℕ) };

    ghost view = { λ b. reverse b.names.keys };
}

impl Bound {
    /// No names; no memory is taken.
    pub fn new(alloc: Global) -> Bound
        ensures { result ≡ [] }
    {
        Bound {
            names: IndexSet::new(alloc),
        }
    }

    /// How many there are.
    pub fn len(&self) -> usize
        ensures { result ≡ length self.now }
    {
        self.names.len()
    }

    /// Adds a name and says whether it is new. Errors: `NoMemory`.
    pub fn add(&mut self, alloc: Global, name: &Name) -> Result<bool, NoMemory>
        ensures new { IfOk result (λ new. new ≡ not (is_among self.old name.now)) }
        ensures added { OnOk result (self.new ≡ grown self.old name.now) }
    {
        let new = self.names.insert(name.copy(alloc)?)?;
        Ok(new)
    }

    /// Only the first names stay bound, this many.
    pub fn leave(&mut self, count: usize)
        ensures { self.new ≡ outer_part count self.old }
    {
        self.names.truncate(count);
    }
}
