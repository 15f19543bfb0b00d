//! What the walk over a program keeps, and what it does at one node.

ghost use Rattle.std.specs.Prelude.{◌≡◌, OnOk};
ghost use Rattle.actx_scope.specs.Faults.{first_some};
ghost use Rattle.actx_scope.specs.Machine as m;
ghost use Rattle.actx_scope.specs.States.{state};

use crate::count::after;
use crate::fault::CheckFault;
use crate::link::Link;
use crate::names::{is_inherited, is_proto, is_unbindable};
use crate::place::{Place, misplaced_unless, reserved_if};
use actx_data::{NoMemory, Units};
use actx_grammar::name::Name;
use std::alloc::Global;

/// The place, the links of the nodes so far, the next node's number and the first offence.
#[derive(Drop)]
pub struct Walk {
    pub place: Place,
    pub links: Vec<Link>,
    pub at: u64,
    pub fault: Option<CheckFault>,
}

/// The first of two faults.
fn first(one: Option<CheckFault>, two: Option<CheckFault>) -> Option<CheckFault>
    ensures { result ≡ first_some one two }
{
    match one {
        Some(fault) => Some(fault),
        None => two,
    }
}

impl Walk {
    /// The walk at the beginning of a program; no memory is taken.
    #[tactic(auto, unfolding(crate::specs::States::state))]
    pub fn new(alloc: Global) -> Walk
        ensures { state result ≡ m.start }
    {
        Walk {
            place: Place::outermost(alloc),
            links: Vec::new(alloc),
            at: 0,
            fault: None,
        }
    }

    /// The next node's number.
    #[tactic(auto, unfolding(crate::specs::States::state))]
    pub fn number(&self) -> u64
        ensures { result ≡ (state self.now).at }
    {
        self.at
    }

    /// Passes a node that refers to this.
    #[tactic(auto, unfolding(crate::specs::States::state, crate::specs::Machine::passed))]
    fn pass(&mut self, link: Link) -> Result<(), NoMemory>
        ensures { OnOk result (state self.new ≡ m.passed link (state self.old)) }
    {
        self.at = after(self.at)?;
        self.links.push(link)?;
        Ok(())
    }

    /// Passes a node that may not offend and uses no name.
    pub fn node(&mut self) -> Result<(), NoMemory>
        ensures { OnOk result (state self.new ≡ m.passed Link.Nothing (state self.old)) }
    {
        Ok(self.pass(Link::Nothing)?)
    }

    /// Keeps a fault, where none is kept.
    #[tactic(auto, unfolding(crate::specs::States::state))]
    fn note(&mut self, fault: Option<CheckFault>)
        ensures { state self.new ≡ m.with_fault fault (state self.old) }
    {
        self.fault = first(self.fault, fault);
    }

    /// Passes `this`, which stands in a function that is no arrow.
    #[tactic(auto, unfolding(crate::specs::States::state, crate::specs::Machine::offending, crate::specs::Machine::passed))]
    pub fn this(&mut self) -> Result<(), NoMemory>
        ensures { OnOk result (state self.new ≡ m.offending m.without_this (state self.old)) }
    {
        self.note(misplaced_unless(self.place.around.has_this, self.at));
        Ok(self.pass(Link::Nothing)?)
    }

    /// Passes a `yield`, which stands in a generator.
    #[tactic(auto, unfolding(crate::specs::States::state, crate::specs::Machine::offending, crate::specs::Machine::passed))]
    pub fn yields(&mut self) -> Result<(), NoMemory>
        ensures { OnOk result (state self.new ≡ m.offending m.outside_generator (state self.old)) }
    {
        self.note(misplaced_unless(self.place.around.in_generator, self.at));
        Ok(self.pass(Link::Nothing)?)
    }

    /// Passes an `await`, or a loop with one, which stands in an async function.
    #[tactic(auto, unfolding(crate::specs::States::state, crate::specs::Machine::offending, crate::specs::Machine::passed))]
    pub fn awaits(&mut self) -> Result<(), NoMemory>
        ensures { OnOk result (state self.new ≡ m.offending m.outside_async (state self.old)) }
    {
        self.note(misplaced_unless(self.place.around.in_async, self.at));
        Ok(self.pass(Link::Nothing)?)
    }

    /// Passes a `break` or `continue`, which stands in a loop.
    #[tactic(auto, unfolding(crate::specs::States::state, crate::specs::Machine::offending, crate::specs::Machine::passed))]
    pub fn leaps(&mut self) -> Result<(), NoMemory>
        ensures { OnOk result (state self.new ≡ m.offending m.outside_loop (state self.old)) }
    {
        self.note(misplaced_unless(self.place.around.in_loop, self.at));
        Ok(self.pass(Link::Nothing)?)
    }

    /// Passes a `return`, which stands in a function.
    #[tactic(auto, unfolding(crate::specs::States::state, crate::specs::Machine::offending, crate::specs::Machine::passed))]
    pub fn returns(&mut self) -> Result<(), NoMemory>
        ensures { OnOk result (state self.new ≡ m.offending m.outside_function (state self.old)) }
    {
        self.note(misplaced_unless(self.place.around.in_function, self.at));
        Ok(self.pass(Link::Nothing)?)
    }

    /// Passes a use of a name that is read.
    #[tactic(auto, unfolding(crate::specs::States::state, crate::specs::Machine::used, crate::specs::Machine::passed))]
    pub fn read(&mut self, alloc: Global, name: &Name) -> Result<(), NoMemory>
        ensures { OnOk result (state self.new ≡ m.used name.now (state self.old)) }
    {
        let fault = self.place.use_fault(self.at, name);
        self.note(fault);
        let link = self.place.link(alloc, name)?;
        Ok(self.pass(link)?)
    }

    /// Passes a use of a name that is written.
    #[tactic(auto, unfolding(crate::specs::States::state, crate::specs::Machine::targeted, crate::specs::Machine::passed))]
    pub fn write(&mut self, alloc: Global, name: &Name) -> Result<(), NoMemory>
        ensures { OnOk result (state self.new ≡ m.targeted name.now (state self.old)) }
    {
        let fault = self.place.target_fault(self.at, name);
        self.note(fault);
        let link = self.place.link(alloc, name)?;
        Ok(self.pass(link)?)
    }

    /// Passes a name that the scope binds.
    #[tactic(auto, unfolding(crate::specs::States::state, crate::specs::Machine::bound, crate::specs::Machine::passed))]
    pub fn bind(&mut self, alloc: Global, name: &Name) -> Result<(), NoMemory>
        ensures { OnOk result (state self.new ≡ m.bound name.now (state self.old)) }
    {
        let fault = self.place.bind(alloc, self.at, name)?;
        self.note(fault);
        Ok(self.pass(Link::Nothing)?)
    }

    /// Passes a name that is bound where nothing of its scope stands before.
    #[tactic(auto, unfolding(crate::specs::States::state, crate::specs::Machine::offending, crate::specs::Machine::passed))]
    pub fn bind_alone(&mut self, name: &Name) -> Result<(), NoMemory>
        ensures { OnOk result (state self.new ≡ m.offending (m.bound_alone name.now) (state self.old)) }
    {
        self.note(reserved_if(is_unbindable(name), self.at));
        Ok(self.pass(Link::Nothing)?)
    }

    /// Passes a name after a dot.
    #[tactic(auto, unfolding(crate::specs::States::state, crate::specs::Machine::offending, crate::specs::Machine::passed))]
    pub fn dot(&mut self, name: &Name) -> Result<(), NoMemory>
        ensures { OnOk result (state self.new ≡ m.offending (m.dotted name.now) (state self.old)) }
    {
        self.note(reserved_if(is_inherited(name), self.at));
        Ok(self.pass(Link::Nothing)?)
    }

    /// Passes a fixed key of an object literal.
    #[tactic(auto, unfolding(crate::specs::States::state, crate::specs::Machine::offending, crate::specs::Machine::passed))]
    pub fn fixed_key(&mut self, key: &Units) -> Result<(), NoMemory>
        ensures { OnOk result (state self.new ≡ m.offending (m.fixed key.now) (state self.old)) }
    {
        self.note(reserved_if(is_proto(key), self.at));
        Ok(self.pass(Link::Nothing)?)
    }

    /// Passes a function expression's own name, where it has one.
    pub fn own(&mut self, name: &Option<Name>) -> Result<(), NoMemory>
        ensures { OnOk result (state self.new ≡ m.own_walk name.now (state self.old)) }
    {
        match name {
            Some(name) => Ok(self.bind_alone(name)?),
            None => Ok(()),
        }
    }

    /// Passes a declaration's name.
    pub fn named(&mut self, alloc: Global, name: &Option<Name>) -> Result<(), NoMemory>
        ensures { OnOk result (state self.new ≡ m.named_walk name.now (state self.old)) }
    {
        match name {
            Some(name) => Ok(self.bind(alloc, name)?),
            None => Ok(()),
        }
    }

    /// Passes parameters.
    pub fn params(&mut self, alloc: Global, params: &Vec<Name>) -> Result<(), NoMemory>
        ensures { OnOk result (state self.new ≡ m.params_walk params.now.items (state self.old)) }
    {
        for name in params {
            self.bind(alloc, name)?;
        }
        Ok(())
    }
}
