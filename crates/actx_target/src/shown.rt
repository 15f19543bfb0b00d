//! The things that a run has shown, by the order in which each was shown first.

ghost use Rattle.std.specs.Prelude.{◌≡◌, [], OnOk, IfOk};
ghost use Rattle.actx_data.specs.declared.value.Value.TheVariants.{Thing};
ghost use Rattle.actx_rules.specs.Properties.{more_shown, place_in};

use actx_data::NoMemory;
use indexmap::IndexSet;
use std::alloc::Global;
use std::marker::Model;

/// The numbers of the things that were shown, in their order.
#[derive(Drop)]
pub struct ShownThings {
    numbers: IndexSet<u64>,
}

impl Model for ShownThings {
    ghost use Rattle.std.specs.Prelude.{List, ℕ};

    ghost Value = { List ℕ };

    ghost view = { λ s. s.numbers.keys };
}

impl ShownThings {
    /// Nothing was shown; no memory is taken.
    pub fn new(alloc: Global) -> ShownThings
        ensures { result ≡ [] }
    {
        ShownThings {
            numbers: IndexSet::new(alloc),
        }
    }

    /// The number of a thing among those that were shown, from 1; a new one goes last.
    #[tactic(auto, using(crate::proofs::Tables::shown_put, crate::proofs::Tables::shown_place))]
    pub fn show(&mut self, thing: u64) -> Result<u64, NoMemory>
        ensures shown { OnOk result (self.new ≡ more_shown self.old (Thing thing)) }
        ensures place { IfOk result (λ n. n ≡ place_in 1 thing self.new) }
    {
        let (index, _) = self.numbers.insert_full(thing)?;
        let _room = self.numbers.len(); // this read tells the proof that one more is a number
        Ok(index as u64 + 1)
    }
}
