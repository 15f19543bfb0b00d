//! Expressions along a walk: `( a + b ) * c`.

ghost use Rattle.std.specs.Prelude.{◌≡◌, ◌≤◌, ◌<◌, ◌+◌, OnOk, length};
ghost use Rattle.actx_ast.specs.Sizes.{expr_size, key_size, properties_size};
ghost use Rattle.actx_grammar.specs.Tree as node;
ghost use Rattle.actx_ast.specs.View.{expr_view, key_view, properties_view};
ghost use Rattle.actx_grammar.specs.declared.operators.BinaryOp.TheVariants.{Add};
ghost use Rattle.actx_places.specs.Walk as spec;
ghost use Rattle.actx_places.specs.WalkWork.{acts, weigh};

use super::calls::{call, form_call};
use super::functions::{function_expr, method};
use super::lists::properties;
use super::walk::Walk;
use super::{Item, Manner, push};
use actx_ast::tree::{Expr, Key, Property};
use actx_data::NoMemory;
use actx_grammar::operators::Form;
use actx_grammar::token::Sign;

/// An expression with its parentheses.
#[tactic(auto, using(crate::proofs::WalkPieces::acts_last))]
pub(super) fn expr<'a>(
    walk: &mut Walk<'a>,
    work: &mut Vec<Item<'a>>,
    e: &'a Expr,
) -> Result<(), NoMemory>
    ensures walk { OnOk result (acts work.new.items walk.new ≡ acts work.old.items (spec.expr (expr_view e.now) walk.old)) }
    ensures weight { OnOk result (weigh work.new.items ≤ weigh work.old.items + 1 + expr_size (expr_view e.now)) }
{
    push(work, Item::Leave)?;
    push(work, Item::Expr(Manner::Spine, e))?;
    walk.begin()
}

/// An expression behind the parentheses round it, and those that end behind it.
pub(super) fn spine<'a>(
    walk: &mut Walk<'a>,
    work: &mut Vec<Item<'a>>,
    e: &'a Expr,
) -> Result<(), NoMemory>
    ensures walk { OnOk result (acts work.new.items walk.new ≡ acts work.old.items (spec.spine (expr_view e.now) walk.old)) }
    ensures weight { OnOk result (weigh work.new.items < weigh work.old.items + expr_size (expr_view e.now)) }
{
    match e {
        Expr::Num(_)
        | Expr::Text(_)
        | Expr::Truth(_)
        | Expr::Null
        | Expr::Undefined
        | Expr::This
        | Expr::Named(_)
        | Expr::Yield(None) => word(walk, work, 1),
        Expr::Bump { .. } => word(walk, work, 2),
        Expr::Unary(_, a) | Expr::Await(a) | Expr::Yield(Some(a)) => prefix(walk, work, 1, a),
        Expr::SetName(_, a) | Expr::Change(_, _, a) | Expr::YieldAll(a) => prefix(walk, work, 2, a),
        Expr::Binary(_, a, b) | Expr::Logic(_, a, b) => infix(walk, work, a, b),
        Expr::Choice(test, a, b) => choice(walk, work, test, a, b),
        Expr::SetMember(base, key, a) => set_member(walk, work, base, key, a),
        Expr::Member(base, key) => member(walk, work, base, key),
        Expr::Call(callee, args) => call(walk, work, callee, 0, args),
        Expr::Object(properties) => object(walk, work, properties),
        Expr::Function(function) => function_expr(walk, work, function),
        Expr::Form(form, parts) => form_call(walk, work, *form, parts),
    }
}

/// Tokens without a part that is an expression.
fn word<'a>(walk: &mut Walk<'a>, work: &mut Vec<Item<'a>>, count: usize) -> Result<(), NoMemory>
    ensures walk { OnOk result (acts work.new.items walk.new ≡ acts work.old.items (spec.close (spec.pass count (spec.own walk.old)))) }
    ensures weight { OnOk result (weigh work.new.items ≡ weigh work.old.items + 0) }
{
    let _ = work.len();
    walk.own()?;
    walk.pass(count);
    walk.close()
}

/// Tokens before an expression.
#[tactic(auto, using(crate::proofs::WalkPieces::acts_last))]
fn prefix<'a>(
    walk: &mut Walk<'a>,
    work: &mut Vec<Item<'a>>,
    count: usize,
    e: &'a Expr,
) -> Result<(), NoMemory>
    ensures walk { OnOk result (acts work.new.items walk.new ≡ acts work.old.items (spec.close (spec.expr (expr_view e.now) (spec.pass count (spec.own walk.old))))) }
    ensures weight { OnOk result (weigh work.new.items ≤ weigh work.old.items + 2 + expr_size (expr_view e.now)) }
{
    walk.own()?;
    walk.pass(count);
    push(work, Item::Close)?;
    expr(walk, work, e)
}

/// An operator between two expressions.
#[tactic(auto, using(crate::proofs::WalkPieces::acts_last))]
fn infix<'a>(
    walk: &mut Walk<'a>,
    work: &mut Vec<Item<'a>>,
    a: &'a Expr,
    b: &'a Expr,
) -> Result<(), NoMemory>
    ensures walk { OnOk result (acts work.new.items walk.new ≡ acts work.old.items (spec.spine (node.Binary Add (expr_view a.now) (expr_view b.now)) walk.old)) }
    ensures weight { OnOk result (weigh work.new.items ≤ weigh work.old.items + 5 + expr_size (expr_view a.now) + expr_size (expr_view b.now)) }
{
    push(work, Item::Close)?;
    push(work, Item::Expr(Manner::Whole, b))?;
    push(work, Item::Step)?;
    left(walk, work, a)
}

/// The left operand of a node, which begins where the operand does or in the parentheses before.
#[tactic(auto, using(crate::proofs::WalkPieces::acts_last))]
pub(super) fn left<'a>(
    walk: &mut Walk<'a>,
    work: &mut Vec<Item<'a>>,
    a: &'a Expr,
) -> Result<(), NoMemory>
    ensures walk { OnOk result (acts work.new.items walk.new ≡ acts work.old.items (spec.settle (length (spec.places walk.old)) (spec.spine (expr_view a.now) (spec.later walk.old)))) }
    ensures weight { OnOk result (weigh work.new.items ≡ weigh work.old.items + 1 + expr_size (expr_view a.now)) }
{
    push(work, Item::Settle(walk.count()))?;
    push(work, Item::Expr(Manner::Spine, a))?;
    walk.later()
}

/// `test ? a : b`
#[tactic(auto, using(crate::proofs::WalkPieces::acts_last))]
fn choice<'a>(
    walk: &mut Walk<'a>,
    work: &mut Vec<Item<'a>>,
    test: &'a Expr,
    a: &'a Expr,
    b: &'a Expr,
) -> Result<(), NoMemory>
    ensures walk { OnOk result (acts work.new.items walk.new ≡ acts work.old.items (spec.spine (node.Choice (expr_view test.now) (expr_view a.now) (expr_view b.now)) walk.old)) }
    ensures weight { OnOk result (weigh work.new.items ≤ weigh work.old.items + 9 + expr_size (expr_view test.now) + expr_size (expr_view a.now) + expr_size (expr_view b.now)) }
{
    push(work, Item::Close)?;
    push(work, Item::Expr(Manner::Whole, b))?;
    push(work, Item::Step)?;
    push(work, Item::Expr(Manner::Whole, a))?;
    push(work, Item::Step)?;
    left(walk, work, test)
}

/// `base . key = a` and `base [ key ] = a`
#[tactic(auto, using(crate::proofs::WalkPieces::acts_last))]
fn set_member<'a>(
    walk: &mut Walk<'a>,
    work: &mut Vec<Item<'a>>,
    base: &'a Expr,
    key: &'a Key,
    a: &'a Expr,
) -> Result<(), NoMemory>
    ensures walk { OnOk result (acts work.new.items walk.new ≡ acts work.old.items (spec.spine (node.SetMember (expr_view base.now) (key_view key.now) (expr_view a.now)) walk.old)) }
    ensures weight { OnOk result (weigh work.new.items ≤ weigh work.old.items + 6 + expr_size (expr_view base.now) + key_size (key_view key.now) + expr_size (expr_view a.now)) }
{
    push(work, Item::Close)?;
    push(work, Item::Expr(Manner::Whole, a))?;
    push(work, Item::Step)?;
    push_key(work, key)?;
    left(walk, work, base)
}

/// `base . key` and `base [ key ]`
#[tactic(auto, using(crate::proofs::WalkPieces::acts_last))]
fn member<'a>(
    walk: &mut Walk<'a>,
    work: &mut Vec<Item<'a>>,
    base: &'a Expr,
    key: &'a Key,
) -> Result<(), NoMemory>
    ensures walk { OnOk result (acts work.new.items walk.new ≡ acts work.old.items (spec.spine (node.Member (expr_view base.now) (key_view key.now)) walk.old)) }
    ensures weight { OnOk result (weigh work.new.items ≤ weigh work.old.items + 3 + expr_size (expr_view base.now) + key_size (key_view key.now)) }
{
    push(work, Item::Close)?;
    push_key(work, key)?;
    left(walk, work, base)
}

/// The key of a member is walked over next.
fn push_key<'a>(work: &mut Vec<Item<'a>>, key: &'a Key) -> Result<(), NoMemory>
    ensures walk { OnOk result ((w : spec.Walk) → acts work.new.items w ≡ acts work.old.items (spec.member_key (key_view key.now) w)) }
    ensures weight { OnOk result (weigh work.new.items ≤ weigh work.old.items + key_size (key_view key.now)) }
{
    match key {
        Key::Dot(_) => push_dot(work),
        Key::Index(e) => push_index(work, e),
    }
}

#[tactic(auto, using(crate::proofs::WalkPieces::acts_last))]
fn push_dot<'a>(work: &mut Vec<Item<'a>>) -> Result<(), NoMemory>
    ensures walk { OnOk result ((w : spec.Walk) → acts work.new.items w ≡ acts work.old.items (spec.step (spec.mark (spec.step w)))) }
    ensures weight { OnOk result (weigh work.new.items ≡ weigh work.old.items + 3) }
{
    push(work, Item::Step)?;
    push(work, Item::Mark)?;
    push(work, Item::Step)
}

#[tactic(auto, using(crate::proofs::WalkPieces::acts_last))]
fn push_index<'a>(work: &mut Vec<Item<'a>>, e: &'a Expr) -> Result<(), NoMemory>
    ensures walk { OnOk result ((w : spec.Walk) → acts work.new.items w ≡ acts work.old.items (spec.step (spec.expr (expr_view e.now) (spec.step w)))) }
    ensures weight { OnOk result (weigh work.new.items ≡ weigh work.old.items + 4 + expr_size (expr_view e.now)) }
{
    push(work, Item::Step)?;
    push(work, Item::Expr(Manner::Whole, e))?;
    push(work, Item::Step)
}

/// A key of one token.
pub(super) fn key_word<'a>(walk: &mut Walk<'a>, work: &mut Vec<Item<'a>>) -> Result<(), NoMemory>
    ensures walk { OnOk result (acts work.new.items walk.new ≡ acts work.old.items (spec.step (spec.mark walk.old))) }
    ensures weight { OnOk result (weigh work.new.items ≡ weigh work.old.items + 0) }
{
    let _ = work.len();
    walk.mark()?;
    walk.step();
    Ok(())
}

/// A key that is an expression, behind its bracket.
#[tactic(auto, using(crate::proofs::WalkPieces::acts_last))]
pub(super) fn bracketed<'a>(
    walk: &mut Walk<'a>,
    work: &mut Vec<Item<'a>>,
    e: &'a Expr,
) -> Result<(), NoMemory>
    ensures walk { OnOk result (acts work.new.items walk.new ≡ acts work.old.items (spec.step (spec.expr (expr_view e.now) walk.old))) }
    ensures weight { OnOk result (weigh work.new.items ≤ weigh work.old.items + 2 + expr_size (expr_view e.now)) }
{
    push(work, Item::Step)?;
    expr(walk, work, e)
}

/// An object literal.
#[tactic(auto, using(crate::proofs::WalkPieces::acts_last))]
fn object<'a>(
    walk: &mut Walk<'a>,
    work: &mut Vec<Item<'a>>,
    list: &'a [Property],
) -> Result<(), NoMemory>
    ensures walk { OnOk result (acts work.new.items walk.new ≡ acts work.old.items (spec.spine (node.Object (properties_view list.now)) walk.old)) }
    ensures weight { OnOk result (weigh work.new.items ≤ weigh work.old.items + 4 + properties_size (properties_view list.now)) }
{
    walk.own()?;
    walk.step();
    push(work, Item::Close)?;
    push(work, Item::Step)?;
    push(work, Item::Comma)?;
    properties(walk, work, list)
}

/// What stands behind a key: a value, the rest of a method that begins at a token, or nothing.
pub(super) fn value<'a>(
    walk: &mut Walk<'a>,
    work: &mut Vec<Item<'a>>,
    e: &'a Expr,
    at: usize,
) -> Result<(), NoMemory>
    ensures walk { OnOk result (acts work.new.items walk.new ≡ acts work.old.items (spec.value (expr_view e.now) at walk.old)) }
    ensures weight { OnOk result (weigh work.new.items < weigh work.old.items + 4 + expr_size (expr_view e.now)) }
{
    if walk.is_at(Sign::Colon) {
        walk.step();
        expr(walk, work, e)
    } else if walk.is_at(Sign::OpenParen) {
        method(walk, work, e, at)
    } else {
        alone(walk, work, at)
    }
}

fn alone<'a>(walk: &mut Walk<'a>, work: &mut Vec<Item<'a>>, at: usize) -> Result<(), NoMemory>
    ensures walk { OnOk result (acts work.new.items walk.new ≡ acts work.old.items (spec.mark_at at walk.old)) }
    ensures weight { OnOk result (weigh work.new.items ≡ weigh work.old.items + 0) }
{
    let _ = work.len();
    walk.mark_at(at)
}
