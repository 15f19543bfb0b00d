//! Lists along a walk, with a comma between two of their items.

ghost use Rattle.std.specs.Prelude.{◌≡◌, ◌≤◌, ◌<◌, ◌+◌, OnOk};
ghost use Rattle.actx_ast.specs.Sizes.{consts_size, expr_size, exprs_size, lets_size, maybe_size, prop_key_size, properties_size};
ghost use Rattle.actx_ast.specs.View.{const_view, consts_view, expr_view, exprs_view, let_view, lets_view, maybe_expr, prop_key_view, properties_view, property_view};
ghost use Rattle.std.specs.Prelude.{Option, option_map};
ghost use Rattle.actx_places.specs.Walk as spec;
ghost use Rattle.actx_places.specs.WalkProperty.{property};
ghost use Rattle.actx_places.specs.WalkWork.{acts, weigh};

use super::exprs::{bracketed, expr, key_word};
use super::walk::Walk;
use super::{Item, Manner, push};
use actx_ast::tree::{ConstItem, Expr, LetItem, PropKey, Property};
use actx_data::NoMemory;
use actx_grammar::operators::FunctionKind;
use actx_grammar::token::Sign;

/// Each with a comma before it.
pub(super) fn more_exprs<'a>(
    walk: &mut Walk<'a>,
    work: &mut Vec<Item<'a>>,
    es: &'a [Expr],
) -> Result<(), NoMemory>
    ensures walk { OnOk result (acts work.new.items walk.new ≡ acts work.old.items (spec.more_exprs (exprs_view es.now) walk.old)) }
    ensures weight { OnOk result (weigh work.new.items < weigh work.old.items + 1 + exprs_size (exprs_view es.now)) }
{
    match es {
        [] => Ok(()),
        [first, rest @ ..] => {
            walk.step();
            with_exprs(walk, work, first, rest)
        }
    }
}

pub(super) fn properties<'a>(
    walk: &mut Walk<'a>,
    work: &mut Vec<Item<'a>>,
    list: &'a [Property],
) -> Result<(), NoMemory>
    ensures walk { OnOk result (acts work.new.items walk.new ≡ acts work.old.items (spec.properties (properties_view list.now) walk.old)) }
    ensures weight { OnOk result (weigh work.new.items ≤ weigh work.old.items + properties_size (properties_view list.now)) }
{
    match list {
        [] => Ok(()),
        [first, rest @ ..] => with_properties(walk, work, first, rest),
    }
}

/// Each with a comma before it.
pub(super) fn more_properties<'a>(
    walk: &mut Walk<'a>,
    work: &mut Vec<Item<'a>>,
    list: &'a [Property],
) -> Result<(), NoMemory>
    ensures walk { OnOk result (acts work.new.items walk.new ≡ acts work.old.items (spec.more_properties (properties_view list.now) walk.old)) }
    ensures weight { OnOk result (weigh work.new.items < weigh work.old.items + 1 + properties_size (properties_view list.now)) }
{
    match list {
        [] => Ok(()),
        [first, rest @ ..] => {
            walk.step();
            with_properties(walk, work, first, rest)
        }
    }
}

/// A property with its key.
#[tactic(auto, using(crate::proofs::WalkPieces::acts_last))]
fn property<'a>(
    walk: &mut Walk<'a>,
    work: &mut Vec<Item<'a>>,
    one: &'a Property,
) -> Result<(), NoMemory>
    ensures walk { OnOk result (acts work.new.items walk.new ≡ acts work.old.items (property (prop_key_view one.now.key) (expr_view one.now.value) walk.old)) }
    ensures weight { OnOk result (weigh work.new.items ≤ weigh work.old.items + 6 + prop_key_size (prop_key_view one.now.key) + expr_size (expr_view one.now.value)) }
{
    let at = walk.at();
    if has_head(&one.value, walk) {
        walk.step();
    }
    push(work, Item::Expr(Manner::Value(at), &one.value))?;
    prop_key(walk, work, &one.key)
}

fn prop_key<'a>(
    walk: &mut Walk<'a>,
    work: &mut Vec<Item<'a>>,
    key: &'a PropKey,
) -> Result<(), NoMemory>
    ensures walk { OnOk result (acts work.new.items walk.new ≡ acts work.old.items (spec.prop_key (prop_key_view key.now) walk.old)) }
    ensures weight { OnOk result (weigh work.new.items ≤ weigh work.old.items + 2 + prop_key_size (prop_key_view key.now)) }
{
    match key {
        PropKey::Fixed(_) => key_word(walk, work),
        PropKey::Computed(e) => {
            walk.step();
            bracketed(walk, work, e)
        }
    }
}

/// Whether a word stands before a method's key.
fn has_head(e: &Expr, walk: &Walk) -> bool
    ensures { result ≡ spec.has_head (expr_view e.now) (spec.rest walk.now) }
{
    match e {
        Expr::Function(function) => match function.kind {
            FunctionKind::Generator => walk.is_at(Sign::Star),
            FunctionKind::Async => walk.is_at_async(),
            _ => false,
        },
        _ => false,
    }
}

/// The items of a `let`.
pub(super) fn lets<'a>(
    walk: &mut Walk<'a>,
    work: &mut Vec<Item<'a>>,
    items: &'a [LetItem],
) -> Result<(), NoMemory>
    ensures walk { OnOk result (acts work.new.items walk.new ≡ acts work.old.items (spec.lets (lets_view items.now) walk.old)) }
    ensures weight { OnOk result (weigh work.new.items ≤ weigh work.old.items + 1 + lets_size (lets_view items.now)) }
{
    match items {
        [] => Ok(()),
        [first, rest @ ..] => with_lets(walk, work, first, rest),
    }
}

/// Each with a comma before it.
pub(super) fn more_lets<'a>(
    walk: &mut Walk<'a>,
    work: &mut Vec<Item<'a>>,
    items: &'a [LetItem],
) -> Result<(), NoMemory>
    ensures walk { OnOk result (acts work.new.items walk.new ≡ acts work.old.items (spec.more_lets (lets_view items.now) walk.old)) }
    ensures weight { OnOk result (weigh work.new.items < weigh work.old.items + 1 + lets_size (lets_view items.now)) }
{
    match items {
        [] => Ok(()),
        [first, rest @ ..] => {
            walk.step();
            with_lets(walk, work, first, rest)
        }
    }
}

fn let_item<'a>(
    walk: &mut Walk<'a>,
    work: &mut Vec<Item<'a>>,
    item: &'a LetItem,
) -> Result<(), NoMemory>
    ensures walk { OnOk result (acts work.new.items walk.new ≡ acts work.old.items (spec.let_value (maybe_expr (option_map (λ b. expr_view b.value) item.now.value)) (spec.step (spec.mark walk.old)))) }
    ensures weight { OnOk result (weigh work.new.items ≤ weigh work.old.items + 1 + maybe_size (maybe_expr (option_map (λ b. expr_view b.value) item.now.value))) }
{
    walk.mark()?;
    walk.step();
    match &item.value {
        None => Ok(()),
        Some(e) => {
            walk.step();
            expr(walk, work, e)
        }
    }
}

/// The items of a `const`.
pub(super) fn consts<'a>(
    walk: &mut Walk<'a>,
    work: &mut Vec<Item<'a>>,
    items: &'a [ConstItem],
) -> Result<(), NoMemory>
    ensures walk { OnOk result (acts work.new.items walk.new ≡ acts work.old.items (spec.consts (consts_view items.now) walk.old)) }
    ensures weight { OnOk result (weigh work.new.items ≤ weigh work.old.items + 1 + consts_size (consts_view items.now)) }
{
    match items {
        [] => Ok(()),
        [first, rest @ ..] => with_consts(walk, work, first, rest),
    }
}

/// Each with a comma before it.
pub(super) fn more_consts<'a>(
    walk: &mut Walk<'a>,
    work: &mut Vec<Item<'a>>,
    items: &'a [ConstItem],
) -> Result<(), NoMemory>
    ensures walk { OnOk result (acts work.new.items walk.new ≡ acts work.old.items (spec.more_consts (consts_view items.now) walk.old)) }
    ensures weight { OnOk result (weigh work.new.items < weigh work.old.items + 1 + consts_size (consts_view items.now)) }
{
    match items {
        [] => Ok(()),
        [first, rest @ ..] => {
            walk.step();
            with_consts(walk, work, first, rest)
        }
    }
}

fn const_item<'a>(
    walk: &mut Walk<'a>,
    work: &mut Vec<Item<'a>>,
    item: &'a ConstItem,
) -> Result<(), NoMemory>
    ensures walk { OnOk result (acts work.new.items walk.new ≡ acts work.old.items (spec.expr (expr_view item.now.value) (spec.pass 2 (spec.mark walk.old)))) }
    ensures weight { OnOk result (weigh work.new.items ≤ weigh work.old.items + 1 + expr_size (expr_view item.now.value)) }
{
    walk.mark()?;
    walk.pass(2);
    expr(walk, work, &item.value)
}

#[tactic(auto, using(crate::proofs::WalkPieces::acts_last))]
fn with_exprs<'a>(
    walk: &mut Walk<'a>,
    work: &mut Vec<Item<'a>>,
    first: &'a Expr,
    rest: &'a [Expr],
) -> Result<(), NoMemory>
    ensures walk { OnOk result (acts work.new.items walk.new ≡ acts work.old.items (spec.more_exprs (exprs_view rest.now) (spec.expr (expr_view first.now) walk.old))) }
    ensures weight { OnOk result (weigh work.new.items ≤ weigh work.old.items + 2 + expr_size (expr_view first.now) + exprs_size (exprs_view rest.now)) }
{
    push(work, Item::Exprs(rest))?;
    expr(walk, work, first)
}

#[tactic(auto, using(crate::proofs::WalkPieces::acts_last))]
fn with_properties<'a>(
    walk: &mut Walk<'a>,
    work: &mut Vec<Item<'a>>,
    first: &'a Property,
    rest: &'a [Property],
) -> Result<(), NoMemory>
    ensures walk { OnOk result (acts work.new.items walk.new ≡ acts work.old.items (spec.more_properties (properties_view rest.now) (property (prop_key_view first.now.key) (expr_view first.now.value) walk.old))) }
    ensures weight { OnOk result (weigh work.new.items ≤ weigh work.old.items + 7 + prop_key_size (prop_key_view first.now.key) + expr_size (expr_view first.now.value) + properties_size (properties_view rest.now)) }
{
    push(work, Item::Properties(rest))?;
    property(walk, work, first)
}

#[tactic(auto, using(crate::proofs::WalkPieces::acts_last))]
fn with_lets<'a>(
    walk: &mut Walk<'a>,
    work: &mut Vec<Item<'a>>,
    first: &'a LetItem,
    rest: &'a [LetItem],
) -> Result<(), NoMemory>
    ensures walk { OnOk result (acts work.new.items walk.new ≡ acts work.old.items (spec.more_lets (lets_view rest.now) (spec.let_value (maybe_expr (option_map (λ b. expr_view b.value) first.now.value)) (spec.step (spec.mark walk.old))))) }
    ensures weight { OnOk result (weigh work.new.items ≤ weigh work.old.items + 2 + maybe_size (maybe_expr (option_map (λ b. expr_view b.value) first.now.value)) + lets_size (lets_view rest.now)) }
{
    push(work, Item::Lets(rest))?;
    let_item(walk, work, first)
}

#[tactic(auto, using(crate::proofs::WalkPieces::acts_last))]
fn with_consts<'a>(
    walk: &mut Walk<'a>,
    work: &mut Vec<Item<'a>>,
    first: &'a ConstItem,
    rest: &'a [ConstItem],
) -> Result<(), NoMemory>
    ensures walk { OnOk result (acts work.new.items walk.new ≡ acts work.old.items (spec.more_consts (consts_view rest.now) (spec.expr (expr_view first.now.value) (spec.pass 2 (spec.mark walk.old))))) }
    ensures weight { OnOk result (weigh work.new.items ≤ weigh work.old.items + 2 + expr_size (expr_view first.now.value) + consts_size (consts_view rest.now)) }
{
    push(work, Item::Consts(rest))?;
    const_item(walk, work, first)
}
