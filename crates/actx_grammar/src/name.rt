//! Names of a program (ECMA-262, 12.7).

ghost use Rattle.std.specs.Prelude.{◌≡◌, ◌==◌, List, ℕ, IfOk};
ghost use Rattle.std.proofs.Common.{rules};
ghost use Rattle.std.specs.Cmp.Rules.{comparing, hashing};
ghost use Rattle.std.specs.Cmp.Lexicographic.{pointwise};
ghost use Rattle.std.specs.Hash as fed;

use actx_data::{NoMemory, Twin};
use std::alloc::Global;
use std::hash::{Hash, Hasher};
use std::marker::Model;

/// A name, seen as its list of characters.
#[derive(Debug, Drop)]
pub struct Name {
    chars: Vec<char>,
}

impl Model for Name {
    ghost Value = { List ℕ };

    ghost view = { λ n. n.chars.items };
}

impl Name {
    /// The name of these characters.
    pub fn from_list(alloc: Global, chars: &[char]) -> Result<Name, NoMemory>
        ensures { IfOk result (λ n. n ≡ chars.now) }
    {
        let chars = Vec::from_slice(alloc, chars)?;
        Ok(Name { chars })
    }

    /// The name of a list that is handed over; no memory is taken.
    pub fn from_vec(chars: Vec<char>) -> Name
        ensures { result ≡ chars.items }
    {
        Name { chars }
    }

    /// All characters, in order.
    pub fn as_slice(&self) -> &[char]
        ensures { result.now ≡ self.now }
    {
        self.chars.as_slice()
    }
}

impl Twin for Name {
    ghost same = { λ a b. a ≡ b };

    fn copy(&self, alloc: Global) -> Result<Name, NoMemory> {
        Name::from_list(alloc, self.chars.as_slice())
    }
}

impl PartialEq for Name {
    ghost eq = { pointwise ◌==◌ };

    ghost laws = { Prim.search (comparing, rules) };

    fn eq(&self, other: &Name) -> bool {
        self.chars.as_slice() == other.chars.as_slice()
    }
}

impl Eq for Name {
    ghost laws = { Prim.search (comparing, rules) };
}

impl Hash for Name {
    ghost hash_input = { fed.slice fed.char };

    ghost respects_eq = { Prim.search (hashing, rules) };

    fn hash<H: Hasher>(&self, state: &mut H) {
        self.chars.as_slice().hash(state);
    }
}
