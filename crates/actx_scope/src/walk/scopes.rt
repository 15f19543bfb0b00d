//! Scopes: how the walk over a program enters and leaves them.

ghost use Rattle.std.specs.Prelude.{◌≡◌, ◌++◌, true, IfOk, OnOk};
ghost use Rattle.actx_grammar.specs.Static as spec;
ghost use Rattle.actx_ast.specs.View.{function_view, init_view, stmts_view};
ghost use Rattle.actx_scope.specs.Machine as m;
ghost use Rattle.actx_scope.specs.Places.{within};
ghost use Rattle.actx_scope.specs.States.{state};

use super::state::Walk;
use crate::count::{after, names_end};
use crate::declared::{Declared, add, add_init, add_list, add_own, add_params};
use crate::place::Outer;
use actx_ast::tree::{ForInit, Function, Stmt};
use actx_data::NoMemory;
use actx_grammar::name::Name;
use std::alloc::Global;

/// What a function's parameters, of which the first has this number, and its body declare.
fn inner_names(alloc: Global, at: u64, function: &Function) -> Result<Vec<Declared>, NoMemory>
    ensures { IfOk result (λ names. names.items ≡ m.code_declared (function_view function.now) at) }
{
    let mut names = Vec::new(alloc);
    add_params(alloc, &mut names, at, &function.params)?;
    let behind = names_end(at, &function.params)?;
    add_list(alloc, &mut names, behind, &function.body)?;
    Ok(names)
}

impl Walk {
    /// Enters the scope of a list of statements.
    #[tactic(auto, unfolding(crate::specs::States::state, crate::specs::Machine::entered, crate::specs::Machine::outside))]
    pub fn enter_list(&mut self, alloc: Global, body: &Vec<Stmt>) -> Result<Outer, NoMemory>
        ensures entered { OnOk result (state self.new ≡ m.entered (m.stmts_declared (stmts_view body.now.items)) (state self.old)) }
        ensures outer { IfOk result (λ outer. outer ≡ m.outside (state self.old)) }
    {
        let mut names = Vec::new(alloc);
        add_list(alloc, &mut names, self.at, body)?;
        let around = self.place.around;
        Ok(self.place.enter(alloc, names, around)?)
    }

    /// Enters the scope of a `for` that begins with this.
    #[tactic(auto, unfolding(crate::specs::States::state, crate::specs::Machine::entered, crate::specs::Machine::outside))]
    pub fn enter_init(&mut self, alloc: Global, init: &ForInit) -> Result<Outer, NoMemory>
        ensures entered { OnOk result (state self.new ≡ m.entered (m.init_names (init_view init.now)) (state self.old)) }
        ensures outer { IfOk result (λ outer. outer ≡ m.outside (state self.old)) }
    {
        let mut names = Vec::new(alloc);
        add_init(alloc, &mut names, self.at, init)?;
        let around = self.place.around;
        Ok(self.place.enter(alloc, names, around)?)
    }

    /// Enters the scope of one name.
    #[tactic(auto, unfolding(crate::specs::States::state, crate::specs::Machine::entered, crate::specs::Machine::outside))]
    pub fn enter_name(&mut self, alloc: Global, name: &Name) -> Result<Outer, NoMemory>
        ensures entered { OnOk result (state self.new ≡ m.entered (m.name_declared name.now) (state self.old)) }
        ensures outer { IfOk result (λ outer. outer ≡ m.outside (state self.old)) }
    {
        let mut names = Vec::new(alloc);
        add(alloc, &mut names, self.at, name)?;
        let around = self.place.around;
        Ok(self.place.enter(alloc, names, around)?)
    }

    /// Enters the scope of a `catch` with a name: the name and what its list declares.
    #[tactic(auto, unfolding(crate::specs::States::state, crate::specs::Machine::entered, crate::specs::Machine::outside))]
    pub fn enter_catcher(
        &mut self,
        alloc: Global,
        name: &Name,
        body: &Vec<Stmt>,
    ) -> Result<Outer, NoMemory>
        ensures entered { OnOk result (state self.new ≡ m.entered (m.catch_declared name.now (stmts_view body.now.items)) (state self.old)) }
        ensures outer { IfOk result (λ outer. outer ≡ m.outside (state self.old)) }
    {
        let mut names = Vec::new(alloc);
        add(alloc, &mut names, self.at, name)?;
        add_list(alloc, &mut names, after(self.at)?, body)?;
        let around = self.place.around;
        Ok(self.place.enter(alloc, names, around)?)
    }

    /// Enters a scope that declares nothing.
    #[tactic(auto, unfolding(crate::specs::States::state, crate::specs::Machine::entered, crate::specs::Machine::outside))]
    pub fn enter_clause(&mut self, alloc: Global) -> Result<Outer, NoMemory>
        ensures entered { OnOk result (state self.new ≡ m.entered m.nothing_declared (state self.old)) }
        ensures outer { IfOk result (λ outer. outer ≡ m.outside (state self.old)) }
    {
        let names = Vec::new(alloc);
        let around = self.place.around;
        Ok(self.place.enter(alloc, names, around)?)
    }

    /// Enters the scope of a declaration's function.
    #[tactic(auto, unfolding(crate::specs::States::state, crate::specs::Machine::entered_declaration, crate::specs::Machine::outside))]
    pub fn enter_declaration(
        &mut self,
        alloc: Global,
        function: &Function,
    ) -> Result<Outer, NoMemory>
        ensures entered { OnOk result (state self.new ≡ m.entered_declaration (function_view function.now) (state self.old)) }
        ensures outer { IfOk result (λ outer. outer ≡ m.outside (state self.old)) }
    {
        let names = inner_names(alloc, self.at, function)?;
        let around = self.place.around.within(function.kind);
        Ok(self.place.enter(alloc, names, around)?)
    }

    /// Enters the scope of a function expression, whose own name, where it has one, is declared by the node with this number.
    #[tactic(auto, unfolding(crate::specs::States::state, crate::specs::Machine::entered_expression, crate::specs::Machine::outside))]
    pub fn enter_expression(
        &mut self,
        alloc: Global,
        own: u64,
        function: &Function,
    ) -> Result<Outer, NoMemory>
        ensures entered { OnOk result (state self.new ≡ m.entered_expression own function.now.name (function_view function.now) (state self.old)) }
        ensures outer { IfOk result (λ outer. outer ≡ m.outside (state self.old)) }
    {
        let mut names = inner_names(alloc, self.at, function)?;
        add_own(alloc, &mut names, own, &function.name)?;
        let around = self.place.around.within(function.kind);
        Ok(self.place.enter(alloc, names, around)?)
    }

    /// Leaves a scope.
    #[tactic(auto, unfolding(crate::specs::States::state, crate::specs::Machine::left))]
    pub fn leave(&mut self, outer: Outer)
        ensures { state self.new ≡ m.left outer (state self.old) }
    {
        self.place.leave(outer);
    }

    /// How many names of the scope are bound before.
    #[tactic(auto, unfolding(crate::specs::States::state, crate::specs::Machine::bound_count))]
    pub fn bound_count(&self) -> usize
        ensures { result ≡ m.bound_count (state self.now) }
    {
        self.place.bound.len()
    }

    /// Only the first names of the scope stay bound, this many.
    #[tactic(auto, unfolding(crate::specs::States::state, crate::specs::Machine::forgotten))]
    pub fn forget(&mut self, count: usize)
        ensures { state self.new ≡ m.forgotten count (state self.old) }
    {
        self.place.bound.leave(count);
    }

    /// Enters the body of a loop, and answers whether a loop stood round it.
    #[tactic(auto, unfolding(crate::specs::States::state, crate::specs::Machine::with_loop, crate::specs::Machine::is_looped))]
    pub fn enter_loop(&mut self) -> bool
        ensures entered { state self.new ≡ m.with_loop true (state self.old) }
        ensures outer { result ≡ m.is_looped (state self.old) }
    {
        let outer = self.place.around.in_loop;
        self.place.around.in_loop = true;
        outer
    }

    /// Leaves the body of a loop.
    #[tactic(auto, unfolding(crate::specs::States::state, crate::specs::Machine::with_loop))]
    pub fn leave_loop(&mut self, outer: bool)
        ensures { state self.new ≡ m.with_loop outer (state self.old) }
    {
        self.place.around.in_loop = outer;
    }
}
