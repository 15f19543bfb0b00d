//! The walk over expressions.

ghost use Rattle.std.specs.Prelude.{◌≡◌, OnOk, option_map};
ghost use Rattle.actx_ast.specs.View.{expr_view, exprs_view, key_view, prop_key_view, properties_view, maybe_expr};
ghost use Rattle.actx_scope.specs.Machine.{expr_walk, exprs_walk, maybe_walk, key_walk, prop_key_walk, properties_walk};
ghost use Rattle.actx_scope.specs.States.{state};

use super::functions::walk_function;
use super::state::Walk;
use actx_ast::tree::{Expr, Key, PropKey, Property};
use actx_data::NoMemory;
use std::alloc::Global;

/// An expression.
#[cycle(walk)]
pub fn walk_expr(alloc: Global, walk: &mut Walk, e: &Expr) -> Result<(), NoMemory>
    ensures { OnOk result (state walk.new ≡ expr_walk (expr_view e.now) (state walk.old)) }
{
    match e {
        Expr::Num(_) => Ok(walk.node()?),
        Expr::Text(_) => Ok(walk.node()?),
        Expr::Truth(_) => Ok(walk.node()?),
        Expr::Null => Ok(walk.node()?),
        Expr::Undefined => Ok(walk.node()?),
        Expr::This => Ok(walk.this()?),
        Expr::Named(name) => Ok(walk.read(alloc, name)?),
        Expr::Unary(_, e) => {
            walk.node()?;
            Ok(walk_expr(alloc, walk, e)?)
        }
        Expr::Binary(_, left, right) => {
            walk.node()?;
            walk_expr(alloc, walk, left)?;
            Ok(walk_expr(alloc, walk, right)?)
        }
        Expr::Logic(_, left, right) => {
            walk.node()?;
            walk_expr(alloc, walk, left)?;
            Ok(walk_expr(alloc, walk, right)?)
        }
        Expr::Choice(test, yes, no) => {
            walk.node()?;
            walk_expr(alloc, walk, test)?;
            walk_expr(alloc, walk, yes)?;
            Ok(walk_expr(alloc, walk, no)?)
        }
        Expr::SetName(name, value) => {
            walk.write(alloc, name)?;
            Ok(walk_expr(alloc, walk, value)?)
        }
        Expr::SetMember(base, key, value) => {
            walk.node()?;
            walk_expr(alloc, walk, base)?;
            walk_key(alloc, walk, key)?;
            Ok(walk_expr(alloc, walk, value)?)
        }
        Expr::Change(name, _, value) => {
            walk.write(alloc, name)?;
            Ok(walk_expr(alloc, walk, value)?)
        }
        Expr::Bump {
            name,
            up: _,
            before: _,
        } => Ok(walk.write(alloc, name)?),
        Expr::Member(base, key) => {
            walk.node()?;
            walk_expr(alloc, walk, base)?;
            Ok(walk_key(alloc, walk, key)?)
        }
        Expr::Call(callee, args) => {
            walk.node()?;
            walk_expr(alloc, walk, callee)?;
            Ok(walk_exprs(alloc, walk, args)?)
        }
        Expr::Object(properties) => {
            walk.node()?;
            Ok(walk_properties(alloc, walk, properties)?)
        }
        Expr::Function(function) => {
            walk.node()?;
            Ok(walk_function(alloc, walk, function)?)
        }
        Expr::Yield(None) => Ok(walk.yields()?),
        Expr::Yield(Some(value)) => {
            walk.yields()?;
            Ok(walk_expr(alloc, walk, value)?)
        }
        Expr::YieldAll(value) => {
            walk.yields()?;
            Ok(walk_expr(alloc, walk, value)?)
        }
        Expr::Await(value) => {
            walk.awaits()?;
            Ok(walk_expr(alloc, walk, value)?)
        }
        Expr::Form(_, parts) => {
            walk.node()?;
            Ok(walk_exprs(alloc, walk, parts)?)
        }
    }
}

/// Expressions.
#[cycle(walk)]
fn walk_exprs(alloc: Global, walk: &mut Walk, es: &Vec<Expr>) -> Result<(), NoMemory>
    ensures { OnOk result (state walk.new ≡ exprs_walk (exprs_view es.now.items) (state walk.old)) }
{
    for e in es {
        walk_expr(alloc, walk, e)?;
    }
    Ok(())
}

/// An expression, where there is one.
#[cycle(walk)]
pub fn walk_maybe(alloc: Global, walk: &mut Walk, e: &Option<Box<Expr>>) -> Result<(), NoMemory>
    ensures { OnOk result (state walk.new ≡ maybe_walk (maybe_expr (option_map (λ b. expr_view b.value) e.now)) (state walk.old)) }
{
    match e {
        None => Ok(()),
        Some(e) => Ok(walk_expr(alloc, walk, e)?),
    }
}

/// The key of a member.
#[cycle(walk)]
fn walk_key(alloc: Global, walk: &mut Walk, key: &Key) -> Result<(), NoMemory>
    ensures { OnOk result (state walk.new ≡ key_walk (key_view key.now) (state walk.old)) }
{
    match key {
        Key::Dot(name) => Ok(walk.dot(name)?),
        Key::Index(e) => Ok(walk_expr(alloc, walk, e)?),
    }
}

/// The key of a property.
#[cycle(walk)]
fn walk_prop_key(alloc: Global, walk: &mut Walk, key: &PropKey) -> Result<(), NoMemory>
    ensures { OnOk result (state walk.new ≡ prop_key_walk (prop_key_view key.now) (state walk.old)) }
{
    match key {
        PropKey::Fixed(units) => Ok(walk.fixed_key(units)?),
        PropKey::Computed(e) => Ok(walk_expr(alloc, walk, e)?),
    }
}

/// The properties of an object literal.
#[cycle(walk)]
fn walk_properties(
    alloc: Global,
    walk: &mut Walk,
    properties: &Vec<Property>,
) -> Result<(), NoMemory>
    ensures { OnOk result (state walk.new ≡ properties_walk (properties_view properties.now.items) (state walk.old)) }
{
    for property in properties {
        walk_prop_key(alloc, walk, &property.key)?;
        walk_expr(alloc, walk, &property.value)?;
    }
    Ok(())
}
