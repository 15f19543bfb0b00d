//! The walk over functions.

ghost use Rattle.std.specs.Prelude.{◌≡◌, OnOk};
ghost use Rattle.actx_ast.specs.View.{function_view};
ghost use Rattle.actx_scope.specs.Machine.{function_walk, declaration_walk};
ghost use Rattle.actx_scope.specs.States.{state};

use super::state::Walk;
use super::stmts::walk_list;
use actx_ast::tree::Function;
use actx_data::NoMemory;
use std::alloc::Global;

/// A function expression, from its own name on, which is known round its parameters.
#[cycle(walk)]
pub fn walk_function(alloc: Global, walk: &mut Walk, function: &Function) -> Result<(), NoMemory>
    ensures { OnOk result (state walk.new ≡ function_walk (function_view function.now) (state walk.old)) }
{
    let own = walk.number();
    walk.own(&function.name)?;
    let outer = walk.enter_expression(alloc, own, function)?;
    walk.params(alloc, &function.params)?;
    walk_list(alloc, walk, &function.body)?;
    walk.leave(outer);
    Ok(())
}

/// The function of a declaration, from its name on, which the list binds that it stands in.
#[cycle(walk)]
pub fn walk_declaration(alloc: Global, walk: &mut Walk, function: &Function) -> Result<(), NoMemory>
    ensures { OnOk result (state walk.new ≡ declaration_walk (function_view function.now) (state walk.old)) }
{
    walk.named(alloc, &function.name)?;
    let outer = walk.enter_declaration(alloc, function)?;
    walk.params(alloc, &function.params)?;
    walk_list(alloc, walk, &function.body)?;
    walk.leave(outer);
    Ok(())
}
