//! The walk over statements.

ghost use Rattle.std.specs.Prelude.{◌≡◌, OnOk};
ghost use Rattle.actx_ast.specs.View.{lets_view, consts_view, init_view, stmt_view, stmts_view, catcher_view, clauses_view};
ghost use Rattle.actx_scope.specs.Machine.{part, loop_part, lets_walk, consts_walk, init_walk, stmt_walk, stmts_walk, catch_walk, clauses_walk, block_walk, clause_walk};
ghost use Rattle.actx_scope.specs.States.{state};

use super::exprs::{walk_expr, walk_maybe};
use super::functions::walk_declaration;
use super::state::Walk;
use actx_ast::tree::{Catcher, Clause, ConstItem, ForInit, LetItem, Stmt};
use actx_data::NoMemory;
use std::alloc::Global;

/// The items of a `let`.
#[cycle(walk)]
fn walk_lets(alloc: Global, walk: &mut Walk, items: &Vec<LetItem>) -> Result<(), NoMemory>
    ensures { OnOk result (state walk.new ≡ lets_walk (lets_view items.now.items) (state walk.old)) }
{
    for item in items {
        walk.bind(alloc, &item.name)?;
        walk_maybe(alloc, walk, &item.value)?;
    }
    Ok(())
}

/// The items of a `const`.
#[cycle(walk)]
fn walk_consts(alloc: Global, walk: &mut Walk, items: &Vec<ConstItem>) -> Result<(), NoMemory>
    ensures { OnOk result (state walk.new ≡ consts_walk (consts_view items.now.items) (state walk.old)) }
{
    for item in items {
        walk.bind(alloc, &item.name)?;
        walk_expr(alloc, walk, &item.value)?;
    }
    Ok(())
}

/// What a `for` begins with; its names are left behind it, since nothing else of the scope binds any.
#[cycle(walk)]
fn walk_init(alloc: Global, walk: &mut Walk, init: &ForInit) -> Result<(), NoMemory>
    ensures { OnOk result (state walk.new ≡ init_walk (init_view init.now) (state walk.old)) }
{
    match init {
        ForInit::Nothing => Ok(()),
        ForInit::Let(items) => {
            let count = walk.bound_count();
            walk_lets(alloc, walk, items)?;
            walk.forget(count);
            Ok(())
        }
        ForInit::Const(items) => {
            let count = walk.bound_count();
            walk_consts(alloc, walk, items)?;
            walk.forget(count);
            Ok(())
        }
        ForInit::Value(e) => Ok(walk_expr(alloc, walk, e)?),
    }
}

/// A statement of a list.
#[cycle(walk)]
fn walk_stmt(alloc: Global, walk: &mut Walk, statement: &Stmt) -> Result<(), NoMemory>
    ensures { OnOk result (state walk.new ≡ stmt_walk (stmt_view statement.now) (state walk.old)) }
{
    match statement {
        Stmt::Let(items) => {
            walk.node()?;
            Ok(walk_lets(alloc, walk, items)?)
        }
        Stmt::Const(items) => {
            walk.node()?;
            Ok(walk_consts(alloc, walk, items)?)
        }
        Stmt::Fun(function) => {
            walk.node()?;
            Ok(walk_declaration(alloc, walk, function)?)
        }
        Stmt::Block(body) => {
            walk.node()?;
            Ok(walk_block(alloc, walk, body)?)
        }
        Stmt::If(test, yes, None) => {
            walk.node()?;
            walk_expr(alloc, walk, test)?;
            Ok(walk_part(alloc, walk, yes)?)
        }
        Stmt::If(test, yes, Some(no)) => {
            walk.node()?;
            walk_expr(alloc, walk, test)?;
            walk_part(alloc, walk, yes)?;
            Ok(walk_part(alloc, walk, no)?)
        }
        Stmt::While(test, body) => {
            walk.node()?;
            walk_expr(alloc, walk, test)?;
            Ok(walk_loop_part(alloc, walk, body)?)
        }
        Stmt::DoWhile(body, test) => {
            walk.node()?;
            walk_loop_part(alloc, walk, body)?;
            Ok(walk_expr(alloc, walk, test)?)
        }
        Stmt::For(init, test, update, body) => {
            walk.node()?;
            let outer = walk.enter_init(alloc, init)?;
            walk_init(alloc, walk, init)?;
            walk_maybe(alloc, walk, test)?;
            walk_maybe(alloc, walk, update)?;
            walk_loop_part(alloc, walk, body)?;
            walk.leave(outer);
            Ok(())
        }
        Stmt::ForOf {
            constant: _,
            name,
            over,
            body,
        } => {
            walk.node()?;
            let outer = walk.enter_name(alloc, name)?;
            walk.bind_alone(name)?;
            walk_expr(alloc, walk, over)?;
            walk_loop_part(alloc, walk, body)?;
            walk.leave(outer);
            Ok(())
        }
        Stmt::ForAwait {
            constant: _,
            name,
            over,
            body,
        } => {
            walk.awaits()?;
            let outer = walk.enter_name(alloc, name)?;
            walk.bind_alone(name)?;
            walk_expr(alloc, walk, over)?;
            walk_loop_part(alloc, walk, body)?;
            walk.leave(outer);
            Ok(())
        }
        Stmt::Break => Ok(walk.leaps()?),
        Stmt::Continue => Ok(walk.leaps()?),
        Stmt::Return(value) => {
            walk.returns()?;
            Ok(walk_maybe(alloc, walk, value)?)
        }
        Stmt::Throw(value) => {
            walk.node()?;
            Ok(walk_expr(alloc, walk, value)?)
        }
        Stmt::Try {
            block,
            catcher: None,
            last: None,
        } => {
            walk.node()?;
            Ok(walk_block(alloc, walk, block)?)
        }
        Stmt::Try {
            block,
            catcher: Some(catcher),
            last: None,
        } => {
            walk.node()?;
            walk_block(alloc, walk, block)?;
            Ok(walk_catcher(alloc, walk, catcher)?)
        }
        Stmt::Try {
            block,
            catcher: None,
            last: Some(last),
        } => {
            walk.node()?;
            walk_block(alloc, walk, block)?;
            Ok(walk_block(alloc, walk, last)?)
        }
        Stmt::Try {
            block,
            catcher: Some(catcher),
            last: Some(last),
        } => {
            walk.node()?;
            walk_block(alloc, walk, block)?;
            walk_catcher(alloc, walk, catcher)?;
            Ok(walk_block(alloc, walk, last)?)
        }
        Stmt::Value(e) => {
            walk.node()?;
            Ok(walk_expr(alloc, walk, e)?)
        }
        Stmt::Empty => Ok(walk.node()?),
        Stmt::Switch(e, clauses) => {
            walk.node()?;
            walk_expr(alloc, walk, e)?;
            Ok(walk_clauses(alloc, walk, clauses)?)
        }
    }
}

/// A statement that is a part of another; the names that it binds are left behind it.
#[cycle(walk)]
fn walk_part(alloc: Global, walk: &mut Walk, body: &Stmt) -> Result<(), NoMemory>
    ensures { OnOk result (state walk.new ≡ part (stmt_walk (stmt_view body.now)) (state walk.old)) }
{
    let count = walk.bound_count();
    walk_stmt(alloc, walk, body)?;
    walk.forget(count);
    Ok(())
}

/// The body of a loop.
#[cycle(walk)]
fn walk_loop_part(alloc: Global, walk: &mut Walk, body: &Stmt) -> Result<(), NoMemory>
    ensures { OnOk result (state walk.new ≡ loop_part (stmt_walk (stmt_view body.now)) (state walk.old)) }
{
    let outer = walk.enter_loop();
    walk_part(alloc, walk, body)?;
    walk.leave_loop(outer);
    Ok(())
}

/// A list of statements in a scope of its own.
#[cycle(walk)]
pub fn walk_block(alloc: Global, walk: &mut Walk, body: &Vec<Stmt>) -> Result<(), NoMemory>
    ensures { OnOk result (state walk.new ≡ block_walk (stmts_view body.now.items) (state walk.old)) }
{
    let outer = walk.enter_list(alloc, body)?;
    walk_list(alloc, walk, body)?;
    walk.leave(outer);
    Ok(())
}

/// A list of statements, in a scope whose names are known.
#[cycle(walk)]
pub fn walk_list(alloc: Global, walk: &mut Walk, body: &Vec<Stmt>) -> Result<(), NoMemory>
    ensures { OnOk result (state walk.new ≡ stmts_walk (stmts_view body.now.items) (state walk.old)) }
{
    for statement in body {
        walk_stmt(alloc, walk, statement)?;
    }
    Ok(())
}

/// The `catch` part of a `try`: its name and its list are one scope.
#[cycle(walk)]
fn walk_catcher(alloc: Global, walk: &mut Walk, catcher: &Catcher) -> Result<(), NoMemory>
    ensures { OnOk result (state walk.new ≡ catch_walk (catcher_view catcher.now) (state walk.old)) }
{
    match &catcher.name {
        None => Ok(walk_block(alloc, walk, &catcher.body)?),
        Some(name) => {
            let outer = walk.enter_catcher(alloc, name, &catcher.body)?;
            walk.bind(alloc, name)?;
            walk_list(alloc, walk, &catcher.body)?;
            walk.leave(outer);
            Ok(())
        }
    }
}

/// The clauses of a `switch`.
#[cycle(walk)]
fn walk_clauses(alloc: Global, walk: &mut Walk, clauses: &Vec<Clause>) -> Result<(), NoMemory>
    ensures { OnOk result (state walk.new ≡ clauses_walk (clauses_view clauses.now.items) (state walk.old)) }
{
    for clause in clauses {
        walk_clause(alloc, walk, &clause.body)?;
    }
    Ok(())
}

/// The list of a clause.
#[cycle(walk)]
fn walk_clause(alloc: Global, walk: &mut Walk, body: &Vec<Stmt>) -> Result<(), NoMemory>
    ensures { OnOk result (state walk.new ≡ clause_walk (stmts_view body.now.items) (state walk.old)) }
{
    let outer = walk.enter_clause(alloc)?;
    walk_list(alloc, walk, body)?;
    walk.leave(outer);
    Ok(())
}
