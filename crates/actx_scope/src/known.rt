//! The declarations that are known at a place, in a table, so that each look-up takes the same time however many there are.

ghost use Rattle.std.specs.Prelude.{◌≡◌, ◌∷◌, ◌-◌, ◌++◌, [], Some, IsSome, OnOk, drop, length};
ghost use Rattle.std.specs.HashMap.{get, Updates};
ghost use Rattle.actx_grammar.specs.Static.{same_name};
ghost use Rattle.actx_scope.specs.Found.{found, outer_part};
ghost use Rattle.actx_scope.specs.Tables.{looked_up};

use super::declared::Declared;
use actx_data::{NoMemory, Twin};
use actx_grammar::name::Name;
use indexmap::IndexMap;
use std::alloc::Global;
use std::marker::Model;

/// A name that was declared, with its node and the node that its name had before.
#[derive(Drop)]
pub struct Hidden {
    pub name: Name,
    pub node: u64,
    pub before: Option<u64>,
}

/// The declarations that are known, seen as their list, the innermost first.
#[derive(Drop)]
pub struct Known {
    table: IndexMap<Name, Option<u64>>,
    log: Vec<Hidden>,
}

impl Model for Known {
    ghost use Rattle.std.specs.Prelude.{List, []};
    ghost use Rattle.actx_grammar.specs.Static as spec;

    ghost Value = { List spec.Declared };

    ghost use Rattle.actx_scope.specs.Tables.{stacked, Fits};

    ghost view = { λ k. stacked [] k.log.items };

    ghost invariant = { λ k. Fits k.table k.log.items };
}

/// What a table has for a name.
fn look_up(table: &IndexMap<Name, Option<u64>>, name: &Name) -> Option<u64>
    ensures { result ≡ looked_up table.now name.now }
{
    match table.get(name) {
        Some(node) => *node,
        None => None,
    }
}

/// Gives a name back what it had before it was declared.
fn put_back(table: &mut IndexMap<Name, Option<u64>>, hidden: Hidden)
    ensures { IsSome (get same_name table.old hidden.name) → Updates same_name table.old table.new hidden.name (Some hidden.before) }
{
    if let Some(node) = table.get_mut(&hidden.name) {
        *node = hidden.before;
    }
}

impl Known {
    /// No declarations; no memory is taken.
    pub fn new(alloc: Global) -> Known
        ensures { result ≡ [] }
    {
        Known {
            table: IndexMap::new(alloc),
            log: Vec::new(alloc),
        }
    }

    /// The node of the innermost declaration of a name, where one is known.
    pub fn find(&self, name: &Name) -> Option<u64>
        ensures { result ≡ found self.now name.now }
    {
        look_up(&self.table, name)
    }

    /// How many declarations are known.
    pub fn len(&self) -> usize
        ensures { result ≡ length self.now }
    {
        self.log.len()
    }

    /// One more declaration is known, the innermost. Errors: `NoMemory`.
    pub fn declare(&mut self, alloc: Global, declared: Declared) -> Result<(), NoMemory>
        ensures { OnOk result (self.new ≡ declared ∷ self.old) }
    {
        let Declared { name, node } = declared;
        let before = look_up(&self.table, &name);
        let key = name.copy(alloc)?;
        self.log.reserve(1)?;
        self.table.insert(key, Some(node))?;
        self.log.push(Hidden { name, node, before })?;
        Ok(())
    }

    /// The innermost declaration is no longer known, where there is one.
    fn forget(&mut self)
        ensures { self.new ≡ drop 1 self.old }
    {
        if let Some(hidden) = self.log.pop() {
            put_back(&mut self.table, hidden);
        }
    }

    /// Only the outermost declarations stay known, this many.
    pub fn leave(&mut self, count: usize)
        ensures { self.new ≡ outer_part count self.old }
    {
        while self.len() > count {
            self.forget();
        }
    }
}

/// Makes declarations known, the first of them innermost.
pub fn declare_all(alloc: Global, known: &mut Known, names: Vec<Declared>) -> Result<(), NoMemory>
    ensures { OnOk result (known.new ≡ names.items ++ known.old) }
{
    let mut rest = names;
    while let Some(name) = rest.pop() {
        known.declare(alloc, name)?;
    }
    Ok(())
}
