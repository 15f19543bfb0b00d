//! Statements along a walk: `if ( a ) b ; else c ;`.

ghost use Rattle.std.specs.Prelude.{◌≡◌, ◌≤◌, ◌<◌, ◌+◌, OnOk, option_map};
ghost use Rattle.actx_ast.specs.Sizes.{consts_size, expr_size, lets_size, maybe_size, stmt_size, stmts_size};
ghost use Rattle.actx_grammar.specs.Tree as node;
ghost use Rattle.actx_ast.specs.View.{consts_view, expr_view, lets_view, maybe_expr, stmt_view, stmts_view};
ghost use Rattle.actx_places.specs.Walk as spec;
ghost use Rattle.actx_places.specs.WalkWork.{acts, weigh};

use super::exprs::expr;
use super::functions::code;
use super::lists::{consts, lets};
use super::loops::{do_while, for_loop, for_of, maybe};
use super::tries::{switch, tried};
use super::walk::Walk;
use super::{Item, push};
use actx_ast::tree::{ConstItem, Expr, Function, LetItem, Stmt};
use actx_data::NoMemory;

pub(super) fn statements<'a>(
    walk: &mut Walk<'a>,
    work: &mut Vec<Item<'a>>,
    stmts: &'a [Stmt],
) -> Result<(), NoMemory>
    ensures walk { OnOk result (acts work.new.items walk.new ≡ acts work.old.items (spec.stmts (stmts_view stmts.now) walk.old)) }
    ensures weight { OnOk result (weigh work.new.items < weigh work.old.items + 1 + stmts_size (stmts_view stmts.now)) }
{
    match stmts {
        [] => Ok(()),
        [first, rest @ ..] => with_statements(walk, work, first, rest),
    }
}

#[tactic(auto, using(crate::proofs::WalkPieces::acts_last))]
fn with_statements<'a>(
    walk: &mut Walk<'a>,
    work: &mut Vec<Item<'a>>,
    first: &'a Stmt,
    rest: &'a [Stmt],
) -> Result<(), NoMemory>
    ensures walk { OnOk result (acts work.new.items walk.new ≡ acts work.old.items (spec.stmts (stmts_view rest.now) (spec.stmt (stmt_view first.now) walk.old))) }
    ensures weight { OnOk result (weigh work.new.items ≤ weigh work.old.items + 1 + stmt_size (stmt_view first.now) + stmts_size (stmts_view rest.now)) }
{
    push(work, Item::Stmts(false, rest))?;
    statement(walk, work, first)
}

/// Statements in braces.
#[tactic(auto, using(crate::proofs::WalkPieces::acts_last))]
pub(super) fn braces<'a>(
    walk: &mut Walk<'a>,
    work: &mut Vec<Item<'a>>,
    stmts: &'a [Stmt],
) -> Result<(), NoMemory>
    ensures walk { OnOk result (acts work.new.items walk.new ≡ acts work.old.items (spec.braces (stmts_view stmts.now) walk.old)) }
    ensures weight { OnOk result (weigh work.new.items ≤ weigh work.old.items + 2 + stmts_size (stmts_view stmts.now)) }
{
    walk.step();
    push(work, Item::Step)?;
    push(work, Item::Stmts(false, stmts))
}

pub(super) fn statement<'a>(
    walk: &mut Walk<'a>,
    work: &mut Vec<Item<'a>>,
    stmt: &'a Stmt,
) -> Result<(), NoMemory>
    ensures walk { OnOk result (acts work.new.items walk.new ≡ acts work.old.items (spec.stmt (stmt_view stmt.now) walk.old)) }
    ensures weight { OnOk result (weigh work.new.items < weigh work.old.items + stmt_size (stmt_view stmt.now)) }
{
    match stmt {
        Stmt::Let(items) => let_items(walk, work, items),
        Stmt::Const(items) => const_items(walk, work, items),
        Stmt::Fun(function) => declaration(walk, work, function),
        Stmt::Block(stmts) => block(walk, work, stmts),
        Stmt::If(test, branch, None) => headed(walk, work, test, branch),
        Stmt::If(test, branch, Some(other)) => if_else(walk, work, test, branch, other),
        Stmt::While(test, body) => headed(walk, work, test, body),
        Stmt::DoWhile(body, test) => do_while(walk, work, body, test),
        Stmt::For(init, test, update, body) => for_loop(walk, work, init, test, update, body),
        Stmt::ForOf { over, body, .. } => for_of(walk, work, over, body),
        Stmt::ForAwait { .. } => Ok(()),
        Stmt::Break | Stmt::Continue => words(walk, work, 2),
        Stmt::Return(value) => returned(walk, work, value),
        Stmt::Throw(e) => led(walk, work, e),
        Stmt::Try {
            block,
            catcher,
            last,
        } => tried(walk, work, block, catcher, last),
        Stmt::Value(e) => value_ended(walk, work, e),
        Stmt::Empty => words(walk, work, 1),
        Stmt::Switch(e, rows) => switch(walk, work, e, rows),
    }
}

/// A statement without parts.
fn words<'a>(walk: &mut Walk<'a>, work: &mut Vec<Item<'a>>, count: usize) -> Result<(), NoMemory>
    ensures walk { OnOk result (acts work.new.items walk.new ≡ acts work.old.items (spec.pass count (spec.mark walk.old))) }
    ensures weight { OnOk result (weigh work.new.items ≡ weigh work.old.items + 0) }
{
    let _ = work.len();
    walk.mark()?;
    walk.pass(count);
    Ok(())
}

#[tactic(auto, using(crate::proofs::WalkPieces::acts_last))]
fn let_items<'a>(
    walk: &mut Walk<'a>,
    work: &mut Vec<Item<'a>>,
    items: &'a [LetItem],
) -> Result<(), NoMemory>
    ensures walk { OnOk result (acts work.new.items walk.new ≡ acts work.old.items (spec.stmt (node.Let (lets_view items.now)) walk.old)) }
    ensures weight { OnOk result (weigh work.new.items ≤ weigh work.old.items + 2 + lets_size (lets_view items.now)) }
{
    walk.mark()?;
    walk.step();
    push(work, Item::Step)?;
    lets(walk, work, items)
}

#[tactic(auto, using(crate::proofs::WalkPieces::acts_last))]
fn const_items<'a>(
    walk: &mut Walk<'a>,
    work: &mut Vec<Item<'a>>,
    items: &'a [ConstItem],
) -> Result<(), NoMemory>
    ensures walk { OnOk result (acts work.new.items walk.new ≡ acts work.old.items (spec.stmt (node.Const (consts_view items.now)) walk.old)) }
    ensures weight { OnOk result (weigh work.new.items ≤ weigh work.old.items + 2 + consts_size (consts_view items.now)) }
{
    walk.mark()?;
    walk.step();
    push(work, Item::Step)?;
    consts(walk, work, items)
}

fn declaration<'a>(
    walk: &mut Walk<'a>,
    work: &mut Vec<Item<'a>>,
    function: &'a Function,
) -> Result<(), NoMemory>
    ensures walk { OnOk result (acts work.new.items walk.new ≡ acts work.old.items (spec.function function.now.name function.now.kind function.now.params.items (stmts_view function.now.body.items) (spec.mark walk.old))) }
    ensures weight { OnOk result (weigh work.new.items ≤ weigh work.old.items + 2 + stmts_size (stmts_view function.now.body.items)) }
{
    walk.mark()?;
    code(walk, work, function)
}

fn block<'a>(
    walk: &mut Walk<'a>,
    work: &mut Vec<Item<'a>>,
    stmts: &'a [Stmt],
) -> Result<(), NoMemory>
    ensures walk { OnOk result (acts work.new.items walk.new ≡ acts work.old.items (spec.braces (stmts_view stmts.now) (spec.mark walk.old))) }
    ensures weight { OnOk result (weigh work.new.items ≤ weigh work.old.items + 2 + stmts_size (stmts_view stmts.now)) }
{
    walk.mark()?;
    braces(walk, work, stmts)
}

/// A word and an expression in parentheses.
#[tactic(auto, using(crate::proofs::WalkPieces::acts_last))]
fn head<'a>(walk: &mut Walk<'a>, work: &mut Vec<Item<'a>>, test: &'a Expr) -> Result<(), NoMemory>
    ensures walk { OnOk result (acts work.new.items walk.new ≡ acts work.old.items (spec.step (spec.expr (expr_view test.now) (spec.pass 2 (spec.mark walk.old))))) }
    ensures weight { OnOk result (weigh work.new.items ≤ weigh work.old.items + 2 + expr_size (expr_view test.now)) }
{
    walk.mark()?;
    walk.pass(2);
    push(work, Item::Step)?;
    expr(walk, work, test)
}

#[tactic(auto, using(crate::proofs::WalkPieces::acts_last))]
fn headed<'a>(
    walk: &mut Walk<'a>,
    work: &mut Vec<Item<'a>>,
    test: &'a Expr,
    body: &'a Stmt,
) -> Result<(), NoMemory>
    ensures walk { OnOk result (acts work.new.items walk.new ≡ acts work.old.items (spec.stmt (node.While (expr_view test.now) (stmt_view body.now)) walk.old)) }
    ensures weight { OnOk result (weigh work.new.items ≤ weigh work.old.items + 2 + expr_size (expr_view test.now) + stmt_size (stmt_view body.now)) }
{
    push(work, Item::Stmt(body))?;
    head(walk, work, test)
}

#[tactic(auto, using(crate::proofs::WalkPieces::acts_last))]
fn if_else<'a>(
    walk: &mut Walk<'a>,
    work: &mut Vec<Item<'a>>,
    test: &'a Expr,
    branch: &'a Stmt,
    other: &'a Stmt,
) -> Result<(), NoMemory>
    ensures walk { OnOk result (acts work.new.items walk.new ≡ acts work.old.items (spec.stmt (node.If (expr_view test.now) (stmt_view branch.now) (node.some_stmt (stmt_view other.now))) walk.old)) }
    ensures weight { OnOk result (weigh work.new.items ≤ weigh work.old.items + 3 + expr_size (expr_view test.now) + stmt_size (stmt_view branch.now) + stmt_size (stmt_view other.now)) }
{
    push(work, Item::Stmt(other))?;
    push(work, Item::Step)?;
    push(work, Item::Stmt(branch))?;
    head(walk, work, test)
}

/// `return` with its value or without.
#[tactic(auto, using(crate::proofs::WalkPieces::acts_last))]
fn returned<'a>(
    walk: &mut Walk<'a>,
    work: &mut Vec<Item<'a>>,
    value: &'a Option<Box<Expr>>,
) -> Result<(), NoMemory>
    ensures walk { OnOk result (acts work.new.items walk.new ≡ acts work.old.items (spec.step (spec.maybe (maybe_expr (option_map (λ b. expr_view b.value) value.now)) (spec.step (spec.mark walk.old))))) }
    ensures weight { OnOk result (weigh work.new.items ≤ weigh work.old.items + 1 + maybe_size (maybe_expr (option_map (λ b. expr_view b.value) value.now))) }
{
    walk.mark()?;
    walk.step();
    push(work, Item::Step)?;
    maybe(work, value)
}

/// A word and an expression.
#[tactic(auto, using(crate::proofs::WalkPieces::acts_last))]
fn led<'a>(walk: &mut Walk<'a>, work: &mut Vec<Item<'a>>, e: &'a Expr) -> Result<(), NoMemory>
    ensures walk { OnOk result (acts work.new.items walk.new ≡ acts work.old.items (spec.step (spec.expr (expr_view e.now) (spec.step (spec.mark walk.old))))) }
    ensures weight { OnOk result (weigh work.new.items ≤ weigh work.old.items + 2 + expr_size (expr_view e.now)) }
{
    walk.mark()?;
    walk.step();
    push(work, Item::Step)?;
    expr(walk, work, e)
}

#[tactic(auto, using(crate::proofs::WalkPieces::acts_last))]
fn value_ended<'a>(
    walk: &mut Walk<'a>,
    work: &mut Vec<Item<'a>>,
    e: &'a Expr,
) -> Result<(), NoMemory>
    ensures walk { OnOk result (acts work.new.items walk.new ≡ acts work.old.items (spec.step (spec.expr (expr_view e.now) (spec.mark walk.old)))) }
    ensures weight { OnOk result (weigh work.new.items ≤ weigh work.old.items + 2 + expr_size (expr_view e.now)) }
{
    walk.mark()?;
    push(work, Item::Step)?;
    expr(walk, work, e)
}
