//! The expressions that have begun along a walk, the innermost last.

ghost use Rattle.std.specs.Prelude.{◌≡◌, ◌∷◌, [], List, MatchOption, OnOk};

use actx_data::NoMemory;
use std::alloc::Global;
use std::marker::Model;

/// An expression that has begun: where it begins with its parentheses, and where those end that are still open.
#[derive(Clone, Copy, Drop)]
pub struct Group {
    pub start: usize,
    pub inner: usize,
}

/// Groups, seen as a list with the innermost first.
#[derive(Drop)]
pub struct Groups {
    list: Vec<Group>,
}

impl Model for Groups {
    ghost use Rattle.std.specs.Prelude.{List, []};
    ghost use Rattle.actx_places.specs.declared.places.groups.Group.{Group};
    ghost use Rattle.actx_places.specs.WalkView.{onto};

    ghost Value = { List Group };

    ghost view = { λ g. onto g.list.items [] };
}

impl Groups {
    pub fn new(alloc: Global) -> Groups
        ensures { result ≡ [] }
    {
        Groups {
            list: Vec::new(alloc),
        }
    }

    #[tactic(auto, using(crate::proofs::WalkGroups::onto_last))]
    pub fn push(&mut self, group: Group) -> Result<(), NoMemory>
        ensures { OnOk result (self.new ≡ group ∷ self.old) }
    {
        self.list.push(group)?;
        Ok(())
    }

    #[tactic(auto, using(crate::proofs::WalkGroups::onto_last))]
    pub fn pop(&mut self) -> Option<Group>
        ensures { MatchOption result ((self.old ≡ []) × (self.new ≡ [])) (λ g. self.old ≡ g ∷ self.new) }
    {
        self.list.pop()
    }
}
