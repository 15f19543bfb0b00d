//! Copies that are done, the last first. The parts of a node were listed in their order, so that what is taken always is of the
//! kind that is wanted; `NoMemory` stands where it were not, and nothing is said of that case.

ghost use Rattle.std.specs.Prelude.{◌≡◌, ◌∷◌, IfOk, OnOk};
ghost use Rattle.actx_ast.specs.Copies.{a_stmt, an_expr, copied, copy_seen, some_clauses, some_consts, some_exprs, some_lets, some_properties, some_stmts};
ghost use Rattle.actx_ast.specs.View.{clauses_view, consts_view, expr_view, exprs_view, lets_view, properties_view, stmt_view, stmts_view};

use crate::tree::{Clause, ConstItem, Expr, LetItem, Property, Stmt};
use actx_data::NoMemory;
use std::alloc::Global;

/// A copy that waits for what it stands in.
#[derive(Drop)]
pub(super) enum Copied {
    Expr(Expr),
    Stmt(Stmt),
    Exprs(Vec<Expr>),
    Stmts(Vec<Stmt>),
    Properties(Vec<Property>),
    Lets(Vec<LetItem>),
    Consts(Vec<ConstItem>),
    Clauses(Vec<Clause>),
}

#[tactic(auto, using(crate::proofs::Copied::copied_last))]
pub(super) fn put(done: &mut Vec<Copied>, copy: Copied) -> Result<(), NoMemory>
    ensures { OnOk result (copied done.new.items ≡ copy_seen copy ∷ copied done.old.items) }
{
    done.push(copy)?;
    Ok(())
}

#[tactic(auto, using(crate::proofs::Copied::copied_last))]
pub(super) fn take_expr(done: &mut Vec<Copied>) -> Result<Expr, NoMemory>
    ensures { IfOk result (λ x. copied done.old.items ≡ an_expr (expr_view x) ∷ copied done.new.items) }
{
    match done.pop() {
        Some(Copied::Expr(x)) => Ok(x),
        _ => Err(NoMemory),
    }
}

#[tactic(auto, using(crate::proofs::Copied::copied_last))]
pub(super) fn take_stmt(done: &mut Vec<Copied>) -> Result<Stmt, NoMemory>
    ensures { IfOk result (λ x. copied done.old.items ≡ a_stmt (stmt_view x) ∷ copied done.new.items) }
{
    match done.pop() {
        Some(Copied::Stmt(x)) => Ok(x),
        _ => Err(NoMemory),
    }
}

#[tactic(auto, using(crate::proofs::Copied::copied_last))]
pub(super) fn take_exprs(done: &mut Vec<Copied>) -> Result<Vec<Expr>, NoMemory>
    ensures { IfOk result (λ x. copied done.old.items ≡ some_exprs (exprs_view x.items) ∷ copied done.new.items) }
{
    match done.pop() {
        Some(Copied::Exprs(x)) => Ok(x),
        _ => Err(NoMemory),
    }
}

#[tactic(auto, using(crate::proofs::Copied::copied_last))]
pub(super) fn take_stmts(done: &mut Vec<Copied>) -> Result<Vec<Stmt>, NoMemory>
    ensures { IfOk result (λ x. copied done.old.items ≡ some_stmts (stmts_view x.items) ∷ copied done.new.items) }
{
    match done.pop() {
        Some(Copied::Stmts(x)) => Ok(x),
        _ => Err(NoMemory),
    }
}

#[tactic(auto, using(crate::proofs::Copied::copied_last))]
pub(super) fn take_properties(done: &mut Vec<Copied>) -> Result<Vec<Property>, NoMemory>
    ensures { IfOk result (λ x. copied done.old.items ≡ some_properties (properties_view x.items) ∷ copied done.new.items) }
{
    match done.pop() {
        Some(Copied::Properties(x)) => Ok(x),
        _ => Err(NoMemory),
    }
}

#[tactic(auto, using(crate::proofs::Copied::copied_last))]
pub(super) fn take_lets(done: &mut Vec<Copied>) -> Result<Vec<LetItem>, NoMemory>
    ensures { IfOk result (λ x. copied done.old.items ≡ some_lets (lets_view x.items) ∷ copied done.new.items) }
{
    match done.pop() {
        Some(Copied::Lets(x)) => Ok(x),
        _ => Err(NoMemory),
    }
}

#[tactic(auto, using(crate::proofs::Copied::copied_last))]
pub(super) fn take_consts(done: &mut Vec<Copied>) -> Result<Vec<ConstItem>, NoMemory>
    ensures { IfOk result (λ x. copied done.old.items ≡ some_consts (consts_view x.items) ∷ copied done.new.items) }
{
    match done.pop() {
        Some(Copied::Consts(x)) => Ok(x),
        _ => Err(NoMemory),
    }
}

#[tactic(auto, using(crate::proofs::Copied::copied_last))]
pub(super) fn take_clauses(done: &mut Vec<Copied>) -> Result<Vec<Clause>, NoMemory>
    ensures { IfOk result (λ x. copied done.old.items ≡ some_clauses (clauses_view x.items) ∷ copied done.new.items) }
{
    match done.pop() {
        Some(Copied::Clauses(x)) => Ok(x),
        _ => Err(NoMemory),
    }
}

pub(super) fn take_boxed_expr(alloc: Global, done: &mut Vec<Copied>) -> Result<Box<Expr>, NoMemory>
    ensures { IfOk result (λ x. copied done.old.items ≡ an_expr (expr_view x.value) ∷ copied done.new.items) }
{
    let x = take_expr(done)?;
    Ok(Box::new(alloc, x)?)
}

pub(super) fn take_boxed_stmt(alloc: Global, done: &mut Vec<Copied>) -> Result<Box<Stmt>, NoMemory>
    ensures { IfOk result (λ x. copied done.old.items ≡ a_stmt (stmt_view x.value) ∷ copied done.new.items) }
{
    let x = take_stmt(done)?;
    Ok(Box::new(alloc, x)?)
}
