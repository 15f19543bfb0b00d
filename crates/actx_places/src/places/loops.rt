//! Loops along a walk: `for ( let i = 0 ; i < 9 ; i ++ ) { }`.

ghost use Rattle.std.specs.Prelude.{◌≡◌, ◌≤◌, ◌<◌, ◌+◌, OnOk, option_map};
ghost use Rattle.actx_ast.specs.Sizes.{expr_size, init_size, maybe_size, stmt_size};
ghost use Rattle.actx_grammar.specs.Tree as node;
ghost use Rattle.actx_ast.specs.View.{expr_view, init_view, maybe_expr, stmt_view};
ghost use Rattle.actx_places.specs.Walk as spec;
ghost use Rattle.actx_places.specs.WalkWork.{acts, weigh};

use super::exprs::expr;
use super::lists::{consts, lets};
use super::walk::Walk;
use super::{Item, Manner, push};
use actx_ast::tree::{Expr, ForInit, Stmt};
use actx_data::NoMemory;

#[tactic(auto, using(crate::proofs::WalkPieces::acts_last))]
pub(super) fn do_while<'a>(
    walk: &mut Walk<'a>,
    work: &mut Vec<Item<'a>>,
    body: &'a Stmt,
    test: &'a Expr,
) -> Result<(), NoMemory>
    ensures walk { OnOk result (acts work.new.items walk.new ≡ acts work.old.items (spec.stmt (node.DoWhile (stmt_view body.now) (expr_view test.now)) walk.old)) }
    ensures weight { OnOk result (weigh work.new.items ≤ weigh work.old.items + 5 + stmt_size (stmt_view body.now) + expr_size (expr_view test.now)) }
{
    walk.mark()?;
    walk.step();
    push(work, Item::Pass(2))?;
    push(work, Item::Expr(Manner::Whole, test))?;
    push(work, Item::Pass(2))?;
    push(work, Item::Stmt(body))
}

#[tactic(auto, using(crate::proofs::WalkPieces::acts_last))]
pub(super) fn for_loop<'a>(
    walk: &mut Walk<'a>,
    work: &mut Vec<Item<'a>>,
    start: &'a ForInit,
    test: &'a Option<Box<Expr>>,
    update: &'a Option<Box<Expr>>,
    body: &'a Stmt,
) -> Result<(), NoMemory>
    ensures walk { OnOk result (acts work.new.items walk.new ≡ acts work.old.items (spec.stmt (node.For (init_view start.now) (maybe_expr (option_map (λ b. expr_view b.value) test.now)) (maybe_expr (option_map (λ b. expr_view b.value) update.now)) (stmt_view body.now)) walk.old)) }
    ensures weight { OnOk result (weigh work.new.items < weigh work.old.items + 24 + init_size (init_view start.now) + maybe_size (maybe_expr (option_map (λ b. expr_view b.value) test.now)) + maybe_size (maybe_expr (option_map (λ b. expr_view b.value) update.now)) + stmt_size (stmt_view body.now)) }
{
    walk.mark()?;
    walk.pass(2);
    push(work, Item::Stmt(body))?;
    push(work, Item::Step)?;
    maybe(work, update)?;
    push(work, Item::Step)?;
    maybe(work, test)?;
    push(work, Item::Step)?;
    init(walk, work, start)
}

/// An expression that may be left out, later.
#[tactic(auto, using(crate::proofs::WalkPieces::acts_last))]
pub(super) fn maybe<'a>(work: &mut Vec<Item<'a>>, e: &'a Option<Box<Expr>>) -> Result<(), NoMemory>
    ensures walk { OnOk result ((w : spec.Walk) → acts work.new.items w ≡ acts work.old.items (spec.maybe (maybe_expr (option_map (λ b. expr_view b.value) e.now)) w)) }
    ensures weight { OnOk result (weigh work.new.items ≤ weigh work.old.items + maybe_size (maybe_expr (option_map (λ b. expr_view b.value) e.now))) }
{
    match e {
        None => Ok(()),
        Some(e) => push(work, Item::Expr(Manner::Whole, e)),
    }
}

fn init<'a>(
    walk: &mut Walk<'a>,
    work: &mut Vec<Item<'a>>,
    start: &'a ForInit,
) -> Result<(), NoMemory>
    ensures walk { OnOk result (acts work.new.items walk.new ≡ acts work.old.items (spec.init (init_view start.now) walk.old)) }
    ensures weight { OnOk result (weigh work.new.items ≤ weigh work.old.items + 1 + init_size (init_view start.now)) }
{
    match start {
        ForInit::Nothing => Ok(()),
        ForInit::Let(items) => {
            walk.step();
            lets(walk, work, items)
        }
        ForInit::Const(items) => {
            walk.step();
            consts(walk, work, items)
        }
        ForInit::Value(e) => expr(walk, work, e),
    }
}

#[tactic(auto, using(crate::proofs::WalkPieces::acts_last))]
pub(super) fn for_of<'a>(
    walk: &mut Walk<'a>,
    work: &mut Vec<Item<'a>>,
    over: &'a Expr,
    body: &'a Stmt,
) -> Result<(), NoMemory>
    ensures walk { OnOk result (acts work.new.items walk.new ≡ acts work.old.items (spec.stmt_of (expr_view over.now) (stmt_view body.now) walk.old)) }
    ensures weight { OnOk result (weigh work.new.items ≤ weigh work.old.items + 2 + expr_size (expr_view over.now) + stmt_size (stmt_view body.now)) }
{
    walk.mark()?;
    walk.pass(3);
    walk.mark()?;
    walk.pass(2);
    push(work, Item::Stmt(body))?;
    push(work, Item::Step)?;
    expr(walk, work, over)
}
