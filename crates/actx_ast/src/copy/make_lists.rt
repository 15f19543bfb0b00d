//! Copies of lists, part by part.

ghost use Rattle.std.specs.Prelude.{◌≡◌, IfOk, OnOk};
ghost use Rattle.actx_ast.specs.Copies.{clauses_end, consts_end, copied, exprs_end, lets_end, made, properties_end, stmts_end};
ghost use Rattle.actx_ast.specs.View.{clause_view, clauses_view, const_view, consts_view, expr_view, exprs_view, let_view, lets_view, properties_view, property_view, stmt_view, stmts_view};
ghost use Rattle.actx_ast.specs.declared.copy.order.Node.TheVariants.{AddClause, AddConst, AddExpr, AddLet, AddProperty, AddStmt};

use super::done::{
    Copied, put, take_clauses, take_consts, take_expr, take_exprs, take_lets, take_properties,
    take_stmt, take_stmts,
};
use super::make_exprs::{make_maybe, make_prop_key};
use crate::tree::{Clause, ConstItem, Expr, LetItem, Property, Stmt};
use actx_data::{NoMemory, Twin};
use std::alloc::Global;

#[tactic(auto, using(crate::proofs::Copied::exprs_last))]
fn end_exprs(mut items: Vec<Expr>, x: Expr) -> Result<Vec<Expr>, NoMemory>
    ensures { IfOk result (λ r. exprs_view r.items ≡ exprs_end (exprs_view items.items) (expr_view x)) }
{
    items.push(x)?;
    Ok(items)
}

pub(super) fn add_to_exprs(done: &mut Vec<Copied>) -> Result<(), NoMemory>
    ensures { OnOk result (copied done.new.items ≡ made AddExpr (copied done.old.items)) }
{
    let items = take_exprs(done)?;
    let x = take_expr(done)?;
    let longer = end_exprs(items, x)?;
    put(done, Copied::Exprs(longer))?;
    Ok(())
}

#[tactic(auto, using(crate::proofs::Copied::stmts_last))]
fn end_stmts(mut items: Vec<Stmt>, x: Stmt) -> Result<Vec<Stmt>, NoMemory>
    ensures { IfOk result (λ r. stmts_view r.items ≡ stmts_end (stmts_view items.items) (stmt_view x)) }
{
    items.push(x)?;
    Ok(items)
}

pub(super) fn add_to_stmts(done: &mut Vec<Copied>) -> Result<(), NoMemory>
    ensures { OnOk result (copied done.new.items ≡ made AddStmt (copied done.old.items)) }
{
    let items = take_stmts(done)?;
    let x = take_stmt(done)?;
    let longer = end_stmts(items, x)?;
    put(done, Copied::Stmts(longer))?;
    Ok(())
}

#[tactic(auto, using(crate::proofs::Copied::properties_last))]
fn end_properties(mut items: Vec<Property>, x: Property) -> Result<Vec<Property>, NoMemory>
    ensures { IfOk result (λ r. properties_view r.items ≡ properties_end (properties_view items.items) (property_view x)) }
{
    items.push(x)?;
    Ok(items)
}

pub(super) fn add_to_properties(
    alloc: Global,
    property: &Property,
    done: &mut Vec<Copied>,
) -> Result<(), NoMemory>
    ensures { OnOk result (copied done.new.items ≡ made (AddProperty property.entry) (copied done.old.items)) }
{
    let items = take_properties(done)?;
    let value = take_expr(done)?;
    let key = make_prop_key(alloc, &property.key, done)?;
    let longer = end_properties(items, Property { key, value })?;
    put(done, Copied::Properties(longer))?;
    Ok(())
}

#[tactic(auto, using(crate::proofs::Copied::lets_last))]
fn end_lets(mut items: Vec<LetItem>, x: LetItem) -> Result<Vec<LetItem>, NoMemory>
    ensures { IfOk result (λ r. lets_view r.items ≡ lets_end (lets_view items.items) (let_view x)) }
{
    items.push(x)?;
    Ok(items)
}

pub(super) fn add_to_lets(
    alloc: Global,
    item: &LetItem,
    done: &mut Vec<Copied>,
) -> Result<(), NoMemory>
    ensures { OnOk result (copied done.new.items ≡ made (AddLet item.entry) (copied done.old.items)) }
{
    let items = take_lets(done)?;
    let name = item.name.copy(alloc)?;
    let value = make_maybe(alloc, &item.value, done)?;
    let longer = end_lets(items, LetItem { name, value })?;
    put(done, Copied::Lets(longer))?;
    Ok(())
}

#[tactic(auto, using(crate::proofs::Copied::consts_last))]
fn end_consts(mut items: Vec<ConstItem>, x: ConstItem) -> Result<Vec<ConstItem>, NoMemory>
    ensures { IfOk result (λ r. consts_view r.items ≡ consts_end (consts_view items.items) (const_view x)) }
{
    items.push(x)?;
    Ok(items)
}

pub(super) fn add_to_consts(
    alloc: Global,
    item: &ConstItem,
    done: &mut Vec<Copied>,
) -> Result<(), NoMemory>
    ensures { OnOk result (copied done.new.items ≡ made (AddConst item.entry) (copied done.old.items)) }
{
    let items = take_consts(done)?;
    let name = item.name.copy(alloc)?;
    let value = take_expr(done)?;
    let longer = end_consts(items, ConstItem { name, value })?;
    put(done, Copied::Consts(longer))?;
    Ok(())
}

#[tactic(auto, using(crate::proofs::Copied::clauses_last))]
fn end_clauses(mut items: Vec<Clause>, x: Clause) -> Result<Vec<Clause>, NoMemory>
    ensures { IfOk result (λ r. clauses_view r.items ≡ clauses_end (clauses_view items.items) (clause_view x)) }
{
    items.push(x)?;
    Ok(items)
}

pub(super) fn add_to_clauses(clause: &Clause, done: &mut Vec<Copied>) -> Result<(), NoMemory>
    ensures { OnOk result (copied done.new.items ≡ made (AddClause clause.entry) (copied done.old.items)) }
{
    let items = take_clauses(done)?;
    let body = take_stmts(done)?;
    let longer = end_clauses(
        items,
        Clause {
            number: clause.number,
            body,
        },
    )?;
    put(done, Copied::Clauses(longer))?;
    Ok(())
}
