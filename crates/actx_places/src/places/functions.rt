//! Functions along a walk, and the bodies of arrows: `( a , b ) => ( a )`.

ghost use Rattle.std.specs.Prelude.{◌≡◌, ◌≤◌, ◌<◌, ◌+◌, OnOk, option_map};
ghost use Rattle.actx_ast.specs.Sizes.{code_size, expr_size, maybe_size, stmt_size, stmts_size};
ghost use Rattle.actx_grammar.specs.Tree as node;
ghost use Rattle.actx_ast.specs.View.{expr_view, function_view, maybe_expr, stmt_view, stmts_view};
ghost use Rattle.actx_places.specs.Walk as spec;
ghost use Rattle.actx_places.specs.WalkWork.{acts, weigh};

use super::exprs::expr;
use super::stmts::braces;
use super::walk::Walk;
use super::{Item, push};
use actx_ast::tree::{Expr, Function, Stmt};
use actx_data::NoMemory;
use actx_grammar::operators::FunctionKind;
use actx_grammar::token::Sign;

/// A function expression.
#[tactic(auto, using(crate::proofs::WalkPieces::acts_last))]
pub(super) fn function_expr<'a>(
    walk: &mut Walk<'a>,
    work: &mut Vec<Item<'a>>,
    function: &'a Function,
) -> Result<(), NoMemory>
    ensures walk { OnOk result (acts work.new.items walk.new ≡ acts work.old.items (spec.spine (node.Function (function_view function.now)) walk.old)) }
    ensures weight { OnOk result (weigh work.new.items < weigh work.old.items + 24 + code_size (function_view function.now)) }
{
    if is_arrow(function.kind) {
        arrow(walk, work, function)
    } else {
        named_function(walk, work, function)
    }
}

/// A function with its words.
#[tactic(auto, using(crate::proofs::WalkPieces::acts_last))]
fn named_function<'a>(
    walk: &mut Walk<'a>,
    work: &mut Vec<Item<'a>>,
    function: &'a Function,
) -> Result<(), NoMemory>
    ensures walk { OnOk result (acts work.new.items walk.new ≡ acts work.old.items (spec.close (spec.function function.now.name function.now.kind function.now.params.items (stmts_view function.now.body.items) (spec.own walk.old)))) }
    ensures weight { OnOk result (weigh work.new.items ≤ weigh work.old.items + 6 + stmts_size (stmts_view function.now.body.items)) }
{
    walk.own()?;
    push(work, Item::Close)?;
    code(walk, work, function)
}

/// An arrow function.
#[tactic(auto, using(crate::proofs::WalkPieces::acts_last))]
fn arrow<'a>(
    walk: &mut Walk<'a>,
    work: &mut Vec<Item<'a>>,
    function: &'a Function,
) -> Result<(), NoMemory>
    ensures walk { OnOk result (acts work.new.items walk.new ≡ acts work.old.items (spec.close (spec.arrow function.now.kind function.now.params.items (stmts_view function.now.body.items) (spec.own_arrow function.now.kind walk.old)))) }
    ensures weight { OnOk result (weigh work.new.items ≤ weigh work.old.items + 6 + stmts_size (stmts_view function.now.body.items)) }
{
    walk.own_arrow(function.kind)?;
    walk.pass(head_words(function.kind));
    walk.arrow_params(&function.params)?;
    walk.step();
    push(work, Item::Close)?;
    push(work, Item::Stmts(true, &function.body))
}

/// A function from its first word on.
pub(super) fn code<'a>(
    walk: &mut Walk<'a>,
    work: &mut Vec<Item<'a>>,
    function: &'a Function,
) -> Result<(), NoMemory>
    ensures walk { OnOk result (acts work.new.items walk.new ≡ acts work.old.items (spec.function function.now.name function.now.kind function.now.params.items (stmts_view function.now.body.items) walk.old)) }
    ensures weight { OnOk result (weigh work.new.items ≤ weigh work.old.items + 2 + stmts_size (stmts_view function.now.body.items)) }
{
    walk.pass(head_words(function.kind));
    walk.own_name(&function.name)?;
    walk.params(&function.params)?;
    braces(walk, work, &function.body)
}

/// How many words stand before a function's name or an arrow's parameters.
fn head_words(kind: FunctionKind) -> usize
    ensures { result ≡ spec.head_words kind }
{
    match kind {
        FunctionKind::Arrow => 0,
        FunctionKind::Normal | FunctionKind::AsyncArrow => 1,
        FunctionKind::Generator | FunctionKind::Async => 2,
        FunctionKind::AsyncGenerator => 3,
    }
}

fn is_arrow(kind: FunctionKind) -> bool
    ensures { result ≡ spec.is_arrow kind }
{
    matches!(kind, FunctionKind::Arrow | FunctionKind::AsyncArrow)
}

pub(super) fn method<'a>(
    walk: &mut Walk<'a>,
    work: &mut Vec<Item<'a>>,
    e: &'a Expr,
    at: usize,
) -> Result<(), NoMemory>
    ensures walk { OnOk result (acts work.new.items walk.new ≡ acts work.old.items (spec.method (expr_view e.now) at walk.old)) }
    ensures weight { OnOk result (weigh work.new.items ≤ weigh work.old.items + 2 + expr_size (expr_view e.now)) }
{
    match e {
        Expr::Function(function) => {
            walk.mark_at(at)?;
            walk.params(&function.params)?;
            braces(walk, work, &function.body)
        }
        _ => Ok(()),
    }
}

/// The body of an arrow: statements in braces, or an expression.
pub(super) fn arrow_body<'a>(
    walk: &mut Walk<'a>,
    work: &mut Vec<Item<'a>>,
    stmts: &'a [Stmt],
) -> Result<(), NoMemory>
    ensures walk { OnOk result (acts work.new.items walk.new ≡ acts work.old.items (spec.arrow_body (stmts_view stmts.now) walk.old)) }
    ensures weight { OnOk result (weigh work.new.items < weigh work.old.items + 4 + stmts_size (stmts_view stmts.now)) }
{
    match stmts {
        [] => empty_body(walk, work),
        [first, ..] => {
            if walk.is_at(Sign::OpenBrace) {
                braces(walk, work, stmts)
            } else {
                short(walk, work, first)
            }
        }
    }
}

fn empty_body<'a>(walk: &mut Walk<'a>, work: &mut Vec<Item<'a>>) -> Result<(), NoMemory>
    ensures walk { OnOk result (acts work.new.items walk.new ≡ acts work.old.items (spec.pass 2 walk.old)) }
    ensures weight { OnOk result (weigh work.new.items ≡ weigh work.old.items + 0) }
{
    let _ = work.len();
    walk.pass(2);
    Ok(())
}

/// A body that is an expression.
fn short<'a>(walk: &mut Walk<'a>, work: &mut Vec<Item<'a>>, stmt: &'a Stmt) -> Result<(), NoMemory>
    ensures walk { OnOk result (acts work.new.items walk.new ≡ acts work.old.items (spec.short (stmt_view stmt.now) walk.old)) }
    ensures weight { OnOk result (weigh work.new.items ≤ weigh work.old.items + 1 + stmt_size (stmt_view stmt.now)) }
{
    match stmt {
        Stmt::Return(value) => short_value(walk, work, value),
        _ => Ok(()),
    }
}

fn short_value<'a>(
    walk: &mut Walk<'a>,
    work: &mut Vec<Item<'a>>,
    value: &'a Option<Box<Expr>>,
) -> Result<(), NoMemory>
    ensures walk { OnOk result (acts work.new.items walk.new ≡ acts work.old.items (spec.short_value (maybe_expr (option_map (λ b. expr_view b.value) value.now)) walk.old)) }
    ensures weight { OnOk result (weigh work.new.items ≤ weigh work.old.items + 1 + maybe_size (maybe_expr (option_map (λ b. expr_view b.value) value.now))) }
{
    match value {
        None => Ok(()),
        Some(e) => {
            walk.mark()?;
            expr(walk, work, e)
        }
    }
}
