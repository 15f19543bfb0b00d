//! The nodes of a tree, each before its parts, found over a list of the parts that wait.

ghost use Rattle.std.specs.Prelude.{◌≡◌, ◌<◌, ◌+◌, [], ◌∷◌, OnOk, List, IfOk};
ghost use Rattle.actx_ast.specs.Copies.{Seen, built, made, waiting, work_seen, work_weigh, work_weight};

mod exprs;
mod lists;
mod stmts;

use crate::tree::{Clause, ConstItem, Expr, LetItem, Property, Stmt};
use actx_data::NoMemory;
use std::alloc::Global;

/// A part of a tree that waits.
#[derive(Drop)]
pub(super) enum Work<'a> {
    Expr(&'a Expr),
    Stmt(&'a Stmt),
    Exprs(&'a [Expr]),
    Stmts(&'a [Stmt]),
    Properties(&'a [Property]),
    Lets(&'a [LetItem]),
    Consts(&'a [ConstItem]),
    Clauses(&'a [Clause]),
}

/// A node of a tree; a list of parts is one for its end and one for each part.
#[derive(Drop)]
pub(super) enum Node<'a> {
    Expr(&'a Expr),
    Stmt(&'a Stmt),
    NoExprs,
    AddExpr,
    NoStmts,
    AddStmt,
    NoProperties,
    AddProperty(&'a Property),
    NoLets,
    AddLet(&'a LetItem),
    NoConsts,
    AddConst(&'a ConstItem),
    NoClauses,
    AddClause(&'a Clause),
}

#[tactic(auto, using(crate::proofs::Copied::waiting_last, crate::proofs::Copied::weigh_last))]
fn push<'a>(work: &mut Vec<Work<'a>>, next: Work<'a>) -> Result<(), NoMemory>
    ensures seen { OnOk result (waiting work.new.items ≡ work_seen next.entry ∷ waiting work.old.items) }
    ensures weight { OnOk result (work_weigh work.new.items ≡ work_weigh work.old.items + work_weight next.entry) }
{
    work.push(next)?;
    Ok(())
}

#[tactic(auto, using(crate::proofs::Copied::built_last))]
fn list<'a>(order: &mut Vec<Node<'a>>, node: Node<'a>) -> Result<(), NoMemory>
    ensures { OnOk result ((s : List Seen) → built order.new.items s ≡ built order.old.items (made node.entry s)) }
{
    order.push(node)?;
    Ok(())
}

/// Lists the node of a part that waited, and has its parts wait.
#[tactic(auto, using(crate::proofs::Made::expr_seen, crate::proofs::Made::stmt_seen))]
fn see<'a>(
    next: Work<'a>,
    work: &mut Vec<Work<'a>>,
    order: &mut Vec<Node<'a>>,
) -> Result<(), NoMemory>
    ensures seen { OnOk result (built order.new.items (waiting work.new.items) ≡ built order.old.items (work_seen next.entry ∷ waiting work.old.items)) }
    ensures weight { OnOk result (work_weigh work.new.items < work_weigh work.old.items + work_weight next.entry) }
{
    match next {
        Work::Expr(e) => {
            list(order, Node::Expr(e))?;
            exprs::see_expr(work, e)
        }
        Work::Stmt(st) => {
            list(order, Node::Stmt(st))?;
            stmts::see_stmt(work, st)
        }
        Work::Exprs(es) => lists::see_exprs(es, work, order),
        Work::Stmts(ss) => lists::see_stmts(ss, work, order),
        Work::Properties(ps) => lists::see_properties(ps, work, order),
        Work::Lets(items) => lists::see_lets(items, work, order),
        Work::Consts(items) => lists::see_consts(items, work, order),
        Work::Clauses(clauses) => lists::see_clauses(clauses, work, order),
    }
}

/// The nodes of what is given, each before its parts.
#[tactic(auto, using(crate::proofs::Copied::waiting_last, crate::proofs::Copied::weigh_last, crate::proofs::Copied::waiting_none, crate::proofs::Copied::built_none))]
pub(super) fn nodes<'a>(alloc: Global, whole: Work<'a>) -> Result<Vec<Node<'a>>, NoMemory>
    ensures { IfOk result (λ order. built order.items [] ≡ work_seen whole.entry ∷ []) }
{
    let mut work = Vec::new(alloc);
    let mut order = Vec::new(alloc);
    push(&mut work, whole)?;
    while let Some(next) = work.pop() {
        see(next, &mut work, &mut order)?;
    }
    Ok(order)
}
