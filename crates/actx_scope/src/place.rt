//! Places of a program: what is known there, and what stands round it.

ghost use Rattle.std.specs.Prelude.{◌≡◌, ◌++◌, [], true, false, IfOk, OnOk, length};
ghost use Rattle.actx_grammar.specs.Static as spec;
ghost use Rattle.actx_grammar.specs.declared.operators.FunctionKind.{FunctionKind};
ghost use Rattle.actx_scope.specs.Faults.{first_fault};
ghost use Rattle.actx_scope.specs.Found.{grown, outer_part};
ghost use Rattle.actx_scope.specs.Links.{link_of};
ghost use Rattle.actx_scope.specs.Places.{seen, within};

use super::bound::Bound;
use super::declared::Declared;
use super::fault::CheckFault;
use super::known::{Known, declare_all};
use super::link::Link;
use super::names::{is_unbindable, is_unusable};
use actx_data::{NoMemory, Twin};
use actx_grammar::name::Name;
use actx_grammar::operators::FunctionKind;
use std::alloc::Global;
use std::mem::replace;

/// What stands round a place.
#[derive(Clone, Copy, Drop)]
pub struct Around {
    pub in_loop: bool,
    pub in_function: bool,
    pub in_generator: bool,
    pub in_async: bool,
    /// A function that is no arrow stands round it.
    pub has_this: bool,
}

/// A place: the declarations in scope, the names of the same scope that stand before, and what stands round it.
#[derive(Drop)]
pub struct Place {
    pub known: Known,
    pub bound: Bound,
    pub around: Around,
}

/// What a place was before a scope was entered.
#[derive(Drop)]
pub struct Outer {
    pub depth: usize,
    pub bound: Bound,
    pub around: Around,
}

impl Around {
    /// Nothing stands round the program.
    pub fn outermost() -> Around
        ensures { result ≡ record { in_loop = false; in_function = false; in_generator = false; in_async = false; has_this = false } }
    {
        Around {
            in_loop: false,
            in_function: false,
            in_generator: false,
            in_async: false,
            has_this: false,
        }
    }

    /// What stands round the body of a loop.
    pub fn looped(self) -> Around
        ensures { result ≡ record self { in_loop = true } }
    {
        Around {
            in_loop: true,
            ..self
        }
    }

    /// What stands round the body of a function (ECMA-262, 15).
    pub fn within(self, kind: FunctionKind) -> Around
        ensures { result ≡ within kind self }
    {
        let (in_generator, in_async, is_arrow) = match kind {
            FunctionKind::Normal => (false, false, false),
            FunctionKind::Arrow => (false, false, true),
            FunctionKind::Generator => (true, false, false),
            FunctionKind::Async => (false, true, false),
            FunctionKind::AsyncArrow => (false, true, true),
            FunctionKind::AsyncGenerator => (true, true, false),
        };
        // A loop round a function isn't one of its body.
        let in_loop = false;
        Around {
            in_loop,
            in_function: true,
            in_generator,
            in_async,
            has_this: !is_arrow || self.has_this,
        }
    }
}

impl Place {
    /// The place round a program.
    pub fn outermost(alloc: Global) -> Place
        ensures { seen result ≡ spec.outermost }
    {
        Place {
            known: Known::new(alloc),
            bound: Bound::new(alloc),
            around: Around::outermost(),
        }
    }

    /// Enters a scope that binds some names, with something round it. Errors: `NoMemory`.
    pub fn enter(
        &mut self,
        alloc: Global,
        names: Vec<Declared>,
        around: Around,
    ) -> Result<Outer, NoMemory>
        ensures entered { OnOk result (self.new ≡ record { known = names.items ++ self.old.known; bound = []; around = around }) }
        ensures outer { IfOk result (λ outer. outer ≡ record { depth = length self.old.known; bound = self.old.bound; around = self.old.around }) }
    {
        let depth = self.known.len();
        declare_all(alloc, &mut self.known, names)?;
        let bound = replace(&mut self.bound, Bound::new(alloc));
        let outer = Outer {
            depth,
            bound,
            around: self.around,
        };
        self.around = around;
        Ok(outer)
    }

    /// Leaves a scope.
    pub fn leave(&mut self, outer: Outer)
        ensures { self.new ≡ record { known = outer_part outer.depth self.old.known; bound = outer.bound; around = outer.around } }
    {
        self.known.leave(outer.depth);
        self.bound = outer.bound;
        self.around = outer.around;
    }

    /// What a use of a name refers to. Errors: `NoMemory`.
    pub fn link(&self, alloc: Global, name: &Name) -> Result<Link, NoMemory>
        ensures { IfOk result (λ link. link ≡ link_of self.now.known name.now) }
    {
        match self.known.find(name) {
            Some(node) => Ok(Link::To(node)),
            None => Ok(Link::Free(name.copy(alloc)?)),
        }
    }

    /// The fault of a name that is read at a node: `Reserved` where no program uses it, else `Undeclared` where none is in
    /// scope.
    pub fn use_fault(&self, at: u64, name: &Name) -> Option<CheckFault>
        ensures { result ≡ first_fault (spec.use_offences (seen self.now) at name.now) }
    {
        if is_unusable(name) {
            return Some(CheckFault::Reserved(at));
        }
        match self.known.find(name) {
            Some(_) => None,
            None => Some(CheckFault::Undeclared(at)),
        }
    }

    /// The fault of a name that is written at a node: `Reserved` where no program assigns it, else as of one that is read.
    pub fn target_fault(&self, at: u64, name: &Name) -> Option<CheckFault>
        ensures { result ≡ first_fault (spec.target_offences (seen self.now) at name.now) }
    {
        if is_unbindable(name) {
            return Some(CheckFault::Reserved(at));
        }
        self.use_fault(at, name)
    }

    /// Binds a name of the scope at a node. Answers its fault: `Twice` where the scope binds it before, else `Reserved` where
    /// no program binds it. Errors: `NoMemory`.
    pub fn bind(
        &mut self,
        alloc: Global,
        at: u64,
        name: &Name,
    ) -> Result<Option<CheckFault>, NoMemory>
        ensures fault { IfOk result (λ fault. fault ≡ first_fault (spec.binding_offences (seen self.old) at name.now)) }
        ensures bound { OnOk result (self.new ≡ record self.old { bound = grown self.old.bound name.now }) }
    {
        if !self.bound.add(alloc, name)? {
            return Ok(Some(CheckFault::Twice(at)));
        }
        Ok(reserved_if(is_unbindable(name), at))
    }
}

/// The fault of what no program has at a node.
pub fn reserved_if(bad: bool, at: u64) -> Option<CheckFault>
    ensures { result ≡ first_fault (spec.offends_if bad at spec.reserved) }
{
    if bad {
        Some(CheckFault::Reserved(at))
    } else {
        None
    }
}

/// The fault of what stands at a node outside of what it belongs to.
pub fn misplaced_unless(good: bool, at: u64) -> Option<CheckFault>
    ensures { result ≡ first_fault (spec.unless good at) }
{
    if good {
        None
    } else {
        Some(CheckFault::Misplaced(at))
    }
}
