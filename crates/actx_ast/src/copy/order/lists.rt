//! Lists of parts, from the last.

ghost use Rattle.std.specs.Prelude.{◌≡◌, ◌<◌, ◌≤◌, ◌+◌, ◌*◌, ◌∷◌, OnOk, map};
ghost use Rattle.actx_ast.specs.Apart.{clause_work, const_work, expr_work, let_work, listed, property_work, stmt_work};
ghost use Rattle.actx_ast.specs.Copies.{built, clauses_end, consts_end, exprs_end, lets_end, properties_end, some_clauses, some_consts, some_exprs, some_lets, some_properties, some_stmts, stmts_end, waiting, work_weigh};
ghost use Rattle.actx_ast.specs.View.{clause_view, clauses_view, const_view, consts_view, expr_view, exprs_view, let_view, lets_view, properties_view, property_view, stmt_view, stmts_view};

use super::exprs::see_prop_key;
use super::stmts::see_maybe;
use super::{Node, Work, list, push};
use crate::tree::{Clause, ConstItem, Expr, LetItem, Property, Stmt};
use actx_data::NoMemory;

#[tactic(auto, using(crate::proofs::Made::exprs_split, crate::proofs::Made::exprs_more))]
pub(super) fn see_exprs<'a>(
    items: &'a [Expr],
    work: &mut Vec<Work<'a>>,
    order: &mut Vec<Node<'a>>,
) -> Result<(), NoMemory>
    ensures seen { OnOk result (built order.new.items (waiting work.new.items) ≡ built order.old.items (some_exprs (exprs_view items.now) ∷ waiting work.old.items)) }
    ensures weight { OnOk result (work_weigh work.new.items < work_weigh work.old.items + 4 * listed (map expr_work items.now)) }
{
    match items.split_last() {
        None => list(order, Node::NoExprs),
        Some((last, rest)) => see_last_expr(last, rest, work, order),
    }
}

fn see_last_expr<'a>(
    last: &'a Expr,
    rest: &'a [Expr],
    work: &mut Vec<Work<'a>>,
    order: &mut Vec<Node<'a>>,
) -> Result<(), NoMemory>
    ensures seen { OnOk result (built order.new.items (waiting work.new.items) ≡ built order.old.items (some_exprs (exprs_end (exprs_view rest.now) (expr_view last.now)) ∷ waiting work.old.items)) }
    ensures weight { OnOk result (work_weigh work.new.items < work_weigh work.old.items + 4 + 4 * expr_work last.now + 4 * listed (map expr_work rest.now)) }
{
    list(order, Node::AddExpr)?;
    push(work, Work::Expr(last))?;
    push(work, Work::Exprs(rest))
}

#[tactic(auto, using(crate::proofs::Made::stmts_split, crate::proofs::Made::stmts_more))]
pub(super) fn see_stmts<'a>(
    items: &'a [Stmt],
    work: &mut Vec<Work<'a>>,
    order: &mut Vec<Node<'a>>,
) -> Result<(), NoMemory>
    ensures seen { OnOk result (built order.new.items (waiting work.new.items) ≡ built order.old.items (some_stmts (stmts_view items.now) ∷ waiting work.old.items)) }
    ensures weight { OnOk result (work_weigh work.new.items < work_weigh work.old.items + 4 * listed (map stmt_work items.now)) }
{
    match items.split_last() {
        None => list(order, Node::NoStmts),
        Some((last, rest)) => see_last_stmt(last, rest, work, order),
    }
}

fn see_last_stmt<'a>(
    last: &'a Stmt,
    rest: &'a [Stmt],
    work: &mut Vec<Work<'a>>,
    order: &mut Vec<Node<'a>>,
) -> Result<(), NoMemory>
    ensures seen { OnOk result (built order.new.items (waiting work.new.items) ≡ built order.old.items (some_stmts (stmts_end (stmts_view rest.now) (stmt_view last.now)) ∷ waiting work.old.items)) }
    ensures weight { OnOk result (work_weigh work.new.items < work_weigh work.old.items + 4 + 4 * stmt_work last.now + 4 * listed (map stmt_work rest.now)) }
{
    list(order, Node::AddStmt)?;
    push(work, Work::Stmt(last))?;
    push(work, Work::Stmts(rest))
}

#[tactic(auto, using(crate::proofs::Made::properties_split, crate::proofs::Made::properties_more))]
pub(super) fn see_properties<'a>(
    items: &'a [Property],
    work: &mut Vec<Work<'a>>,
    order: &mut Vec<Node<'a>>,
) -> Result<(), NoMemory>
    ensures seen { OnOk result (built order.new.items (waiting work.new.items) ≡ built order.old.items (some_properties (properties_view items.now) ∷ waiting work.old.items)) }
    ensures weight { OnOk result (work_weigh work.new.items < work_weigh work.old.items + 4 * listed (map property_work items.now)) }
{
    match items.split_last() {
        None => list(order, Node::NoProperties),
        Some((last, rest)) => see_last_property(last, rest, work, order),
    }
}

fn see_last_property<'a>(
    last: &'a Property,
    rest: &'a [Property],
    work: &mut Vec<Work<'a>>,
    order: &mut Vec<Node<'a>>,
) -> Result<(), NoMemory>
    ensures seen { OnOk result (built order.new.items (waiting work.new.items) ≡ built order.old.items (some_properties (properties_end (properties_view rest.now) (property_view last.now)) ∷ waiting work.old.items)) }
    ensures weight { OnOk result (work_weigh work.new.items < work_weigh work.old.items + 4 + 4 * property_work last.now + 4 * listed (map property_work rest.now)) }
{
    list(order, Node::AddProperty(last))?;
    see_prop_key(work, &last.key)?;
    push(work, Work::Expr(&last.value))?;
    push(work, Work::Properties(rest))
}

#[tactic(auto, using(crate::proofs::Made::lets_split, crate::proofs::Made::lets_more))]
pub(super) fn see_lets<'a>(
    items: &'a [LetItem],
    work: &mut Vec<Work<'a>>,
    order: &mut Vec<Node<'a>>,
) -> Result<(), NoMemory>
    ensures seen { OnOk result (built order.new.items (waiting work.new.items) ≡ built order.old.items (some_lets (lets_view items.now) ∷ waiting work.old.items)) }
    ensures weight { OnOk result (work_weigh work.new.items < work_weigh work.old.items + 4 * listed (map let_work items.now)) }
{
    match items.split_last() {
        None => list(order, Node::NoLets),
        Some((last, rest)) => see_last_let(last, rest, work, order),
    }
}

fn see_last_let<'a>(
    last: &'a LetItem,
    rest: &'a [LetItem],
    work: &mut Vec<Work<'a>>,
    order: &mut Vec<Node<'a>>,
) -> Result<(), NoMemory>
    ensures seen { OnOk result (built order.new.items (waiting work.new.items) ≡ built order.old.items (some_lets (lets_end (lets_view rest.now) (let_view last.now)) ∷ waiting work.old.items)) }
    ensures weight { OnOk result (work_weigh work.new.items < work_weigh work.old.items + 4 + 4 * let_work last.now + 4 * listed (map let_work rest.now)) }
{
    list(order, Node::AddLet(last))?;
    see_maybe(work, &last.value)?;
    push(work, Work::Lets(rest))
}

#[tactic(auto, using(crate::proofs::Made::consts_split, crate::proofs::Made::consts_more))]
pub(super) fn see_consts<'a>(
    items: &'a [ConstItem],
    work: &mut Vec<Work<'a>>,
    order: &mut Vec<Node<'a>>,
) -> Result<(), NoMemory>
    ensures seen { OnOk result (built order.new.items (waiting work.new.items) ≡ built order.old.items (some_consts (consts_view items.now) ∷ waiting work.old.items)) }
    ensures weight { OnOk result (work_weigh work.new.items < work_weigh work.old.items + 4 * listed (map const_work items.now)) }
{
    match items.split_last() {
        None => list(order, Node::NoConsts),
        Some((last, rest)) => see_last_const(last, rest, work, order),
    }
}

fn see_last_const<'a>(
    last: &'a ConstItem,
    rest: &'a [ConstItem],
    work: &mut Vec<Work<'a>>,
    order: &mut Vec<Node<'a>>,
) -> Result<(), NoMemory>
    ensures seen { OnOk result (built order.new.items (waiting work.new.items) ≡ built order.old.items (some_consts (consts_end (consts_view rest.now) (const_view last.now)) ∷ waiting work.old.items)) }
    ensures weight { OnOk result (work_weigh work.new.items < work_weigh work.old.items + 4 + 4 * const_work last.now + 4 * listed (map const_work rest.now)) }
{
    list(order, Node::AddConst(last))?;
    push(work, Work::Expr(&last.value))?;
    push(work, Work::Consts(rest))
}

#[tactic(auto, using(crate::proofs::Made::clauses_split, crate::proofs::Made::clauses_more))]
pub(super) fn see_clauses<'a>(
    items: &'a [Clause],
    work: &mut Vec<Work<'a>>,
    order: &mut Vec<Node<'a>>,
) -> Result<(), NoMemory>
    ensures seen { OnOk result (built order.new.items (waiting work.new.items) ≡ built order.old.items (some_clauses (clauses_view items.now) ∷ waiting work.old.items)) }
    ensures weight { OnOk result (work_weigh work.new.items < work_weigh work.old.items + 4 * listed (map clause_work items.now)) }
{
    match items.split_last() {
        None => list(order, Node::NoClauses),
        Some((last, rest)) => see_last_clause(last, rest, work, order),
    }
}

fn see_last_clause<'a>(
    last: &'a Clause,
    rest: &'a [Clause],
    work: &mut Vec<Work<'a>>,
    order: &mut Vec<Node<'a>>,
) -> Result<(), NoMemory>
    ensures seen { OnOk result (built order.new.items (waiting work.new.items) ≡ built order.old.items (some_clauses (clauses_end (clauses_view rest.now) (clause_view last.now)) ∷ waiting work.old.items)) }
    ensures weight { OnOk result (work_weigh work.new.items < work_weigh work.old.items + 4 + 4 * clause_work last.now + 4 * listed (map clause_work rest.now)) }
{
    list(order, Node::AddClause(last))?;
    push(work, Work::Stmts(&last.body))?;
    push(work, Work::Clauses(rest))
}
