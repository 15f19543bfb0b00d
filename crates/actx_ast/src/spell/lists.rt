//! Lists that are spelled next, with commas between: `a = 1 , b = 2`.

ghost use Rattle.std.specs.Prelude.{◌≡◌, ◌≤◌, ◌<◌, ◌+◌, ◌++◌, ◌∷◌, OnOk};
ghost use Rattle.actx_ast.specs.Sizes.{consts_size, expr_size, exprs_size, lets_size, maybe_size, prop_key_size, properties_size};
ghost use Rattle.actx_grammar.specs.Spell as spec;
ghost use Rattle.actx_grammar.specs.Spell.{inner};
ghost use Rattle.actx_ast.specs.Unspelled.{rest_of, weigh};
ghost use Rattle.actx_ast.specs.View.{const_view, consts_view, expr_view, exprs_view, let_view, lets_view, prop_key_view, properties_view, property_view};

use super::exprs::in_brackets;
use super::{Work, mark, push, sign};
use crate::tree::{ConstItem, Expr, LetItem, PropKey, Property};
use actx_data::{NoMemory, Twin};
use actx_grammar::token::{Sign, TokenKind};
use std::alloc::Global;

/// Expressions in parentheses.
#[tactic(auto, using(std::proofs::Common::append_assoc))]
pub(super) fn arguments<'a>(work: &mut Vec<Work<'a>>, args: &'a [Expr]) -> Result<(), NoMemory>
    ensures rest { OnOk result (rest_of work.new.items ≡ spec.round (spec.spell_list (exprs_view args.now)) ++ rest_of work.old.items) }
    ensures weight { OnOk result (weigh work.new.items ≤ weigh work.old.items + 3 + exprs_size (exprs_view args.now)) }
{
    sign(work, Sign::CloseParen)?;
    list_exprs(work, args)?;
    sign(work, Sign::OpenParen)
}

fn list_exprs<'a>(work: &mut Vec<Work<'a>>, es: &'a [Expr]) -> Result<(), NoMemory>
    ensures rest { OnOk result (rest_of work.new.items ≡ spec.spell_list (exprs_view es.now) ++ rest_of work.old.items) }
    ensures weight { OnOk result (weigh work.new.items ≤ weigh work.old.items + exprs_size (exprs_view es.now)) }
{
    match es {
        [] => Ok(()),
        [first, rest @ ..] => with_exprs(work, first, rest),
    }
}

/// Each with a comma before it.
pub(super) fn more_exprs<'a>(work: &mut Vec<Work<'a>>, es: &'a [Expr]) -> Result<(), NoMemory>
    ensures rest { OnOk result (rest_of work.new.items ≡ spec.spell_more (exprs_view es.now) ++ rest_of work.old.items) }
    ensures weight { OnOk result (weigh work.new.items < weigh work.old.items + 1 + exprs_size (exprs_view es.now)) }
{
    match es {
        [] => Ok(()),
        [first, rest @ ..] => {
            with_exprs(work, first, rest)?;
            sign(work, Sign::Comma)
        }
    }
}

#[tactic(auto, using(std::proofs::Common::append_assoc))]
fn with_exprs<'a>(
    work: &mut Vec<Work<'a>>,
    first: &'a Expr,
    rest: &'a [Expr],
) -> Result<(), NoMemory>
    ensures rest { OnOk result (rest_of work.new.items ≡ (spec.spell inner (expr_view first.now) 1 ++ spec.spell_more (exprs_view rest.now)) ++ rest_of work.old.items) }
    ensures weight { OnOk result (weigh work.new.items ≡ weigh work.old.items + 4 + expr_size (expr_view first.now) + exprs_size (exprs_view rest.now)) }
{
    push(work, Work::Exprs(rest))?;
    push(work, Work::Tree(first, false, 1))
}

pub(super) fn list_properties<'a>(
    alloc: Global,
    work: &mut Vec<Work<'a>>,
    properties: &'a [Property],
) -> Result<(), NoMemory>
    ensures rest { OnOk result (rest_of work.new.items ≡ spec.spell_properties (properties_view properties.now) ++ rest_of work.old.items) }
    ensures weight { OnOk result (weigh work.new.items ≤ weigh work.old.items + properties_size (properties_view properties.now)) }
{
    match properties {
        [] => Ok(()),
        [first, rest @ ..] => with_properties(alloc, work, first, rest),
    }
}

/// Each with a comma before it.
pub(super) fn more_properties<'a>(
    alloc: Global,
    work: &mut Vec<Work<'a>>,
    properties: &'a [Property],
) -> Result<(), NoMemory>
    ensures rest { OnOk result (rest_of work.new.items ≡ spec.spell_more_properties (properties_view properties.now) ++ rest_of work.old.items) }
    ensures weight { OnOk result (weigh work.new.items < weigh work.old.items + 1 + properties_size (properties_view properties.now)) }
{
    match properties {
        [] => Ok(()),
        [first, rest @ ..] => {
            with_properties(alloc, work, first, rest)?;
            sign(work, Sign::Comma)
        }
    }
}

#[tactic(auto, using(std::proofs::Common::append_assoc))]
fn with_properties<'a>(
    alloc: Global,
    work: &mut Vec<Work<'a>>,
    first: &'a Property,
    rest: &'a [Property],
) -> Result<(), NoMemory>
    ensures rest { OnOk result (rest_of work.new.items ≡ (spec.spell_prop_key (property_view first.now).0 ++ TokenKind.Sign Sign.Colon ∷ (spec.spell inner (property_view first.now).1 1 ++ spec.spell_more_properties (properties_view rest.now))) ++ rest_of work.old.items) }
    ensures weight { OnOk result (weigh work.new.items ≤ weigh work.old.items + 5 + prop_key_size (property_view first.now).0 + expr_size (property_view first.now).1 + properties_size (properties_view rest.now)) }
{
    push(work, Work::Properties(rest))?;
    push(work, Work::Tree(&first.value, false, 1))?;
    sign(work, Sign::Colon)?;
    property_key(alloc, work, &first.key)
}

fn property_key<'a>(
    alloc: Global,
    work: &mut Vec<Work<'a>>,
    key: &'a PropKey,
) -> Result<(), NoMemory>
    ensures rest { OnOk result (rest_of work.new.items ≡ spec.spell_prop_key (prop_key_view key.now) ++ rest_of work.old.items) }
    ensures weight { OnOk result (weigh work.new.items ≤ weigh work.old.items + prop_key_size (prop_key_view key.now)) }
{
    match key {
        PropKey::Fixed(units) => mark(work, TokenKind::Text(units.copy(alloc)?)),
        PropKey::Computed(e) => in_brackets(work, e),
    }
}

pub(super) fn list_lets<'a>(
    alloc: Global,
    work: &mut Vec<Work<'a>>,
    items: &'a [LetItem],
) -> Result<(), NoMemory>
    ensures rest { OnOk result (rest_of work.new.items ≡ spec.spell_lets (lets_view items.now) ++ rest_of work.old.items) }
    ensures weight { OnOk result (weigh work.new.items ≤ weigh work.old.items + lets_size (lets_view items.now)) }
{
    match items {
        [] => Ok(()),
        [first, rest @ ..] => with_lets(alloc, work, first, rest),
    }
}

/// Each with a comma before it.
pub(super) fn more_lets<'a>(
    alloc: Global,
    work: &mut Vec<Work<'a>>,
    items: &'a [LetItem],
) -> Result<(), NoMemory>
    ensures rest { OnOk result (rest_of work.new.items ≡ spec.spell_more_lets (lets_view items.now) ++ rest_of work.old.items) }
    ensures weight { OnOk result (weigh work.new.items < weigh work.old.items + 1 + lets_size (lets_view items.now)) }
{
    match items {
        [] => Ok(()),
        [first, rest @ ..] => {
            with_lets(alloc, work, first, rest)?;
            sign(work, Sign::Comma)
        }
    }
}

#[tactic(auto, using(std::proofs::Common::append_assoc))]
fn with_lets<'a>(
    alloc: Global,
    work: &mut Vec<Work<'a>>,
    first: &'a LetItem,
    rest: &'a [LetItem],
) -> Result<(), NoMemory>
    ensures rest { OnOk result (rest_of work.new.items ≡ TokenKind.Name (let_view first.now).0 ∷ ((spec.spell_let (let_view first.now).1 ++ spec.spell_more_lets (lets_view rest.now)) ++ rest_of work.old.items)) }
    ensures weight { OnOk result (weigh work.new.items ≤ weigh work.old.items + 2 + maybe_size (let_view first.now).1 + lets_size (lets_view rest.now)) }
{
    push(work, Work::Lets(rest))?;
    given(work, first)?;
    mark(work, TokenKind::Name(first.name.copy(alloc)?))
}

/// `= value`, where an item has a value.
fn given<'a>(work: &mut Vec<Work<'a>>, item: &'a LetItem) -> Result<(), NoMemory>
    ensures rest { OnOk result (rest_of work.new.items ≡ spec.spell_let (let_view item.now).1 ++ rest_of work.old.items) }
    ensures weight { OnOk result (weigh work.new.items ≤ weigh work.old.items + maybe_size (let_view item.now).1) }
{
    match &item.value {
        Some(value) => {
            push(work, Work::Tree(value, false, 1))?;
            sign(work, Sign::Assign)
        }
        None => Ok(()),
    }
}

pub(super) fn list_consts<'a>(
    alloc: Global,
    work: &mut Vec<Work<'a>>,
    items: &'a [ConstItem],
) -> Result<(), NoMemory>
    ensures rest { OnOk result (rest_of work.new.items ≡ spec.spell_consts (consts_view items.now) ++ rest_of work.old.items) }
    ensures weight { OnOk result (weigh work.new.items ≤ weigh work.old.items + consts_size (consts_view items.now)) }
{
    match items {
        [] => Ok(()),
        [first, rest @ ..] => with_consts(alloc, work, first, rest),
    }
}

/// Each with a comma before it.
pub(super) fn more_consts<'a>(
    alloc: Global,
    work: &mut Vec<Work<'a>>,
    items: &'a [ConstItem],
) -> Result<(), NoMemory>
    ensures rest { OnOk result (rest_of work.new.items ≡ spec.spell_more_consts (consts_view items.now) ++ rest_of work.old.items) }
    ensures weight { OnOk result (weigh work.new.items < weigh work.old.items + 1 + consts_size (consts_view items.now)) }
{
    match items {
        [] => Ok(()),
        [first, rest @ ..] => {
            with_consts(alloc, work, first, rest)?;
            sign(work, Sign::Comma)
        }
    }
}

#[tactic(auto, using(std::proofs::Common::append_assoc))]
fn with_consts<'a>(
    alloc: Global,
    work: &mut Vec<Work<'a>>,
    first: &'a ConstItem,
    rest: &'a [ConstItem],
) -> Result<(), NoMemory>
    ensures rest { OnOk result (rest_of work.new.items ≡ TokenKind.Name (const_view first.now).0 ∷ TokenKind.Sign Sign.Assign ∷ ((spec.spell inner (const_view first.now).1 1 ++ spec.spell_more_consts (consts_view rest.now)) ++ rest_of work.old.items)) }
    ensures weight { OnOk result (weigh work.new.items ≤ weigh work.old.items + 6 + expr_size (const_view first.now).1 + consts_size (consts_view rest.now)) }
{
    push(work, Work::Consts(rest))?;
    push(work, Work::Tree(&first.value, false, 1))?;
    sign(work, Sign::Assign)?;
    mark(work, TokenKind::Name(first.name.copy(alloc)?))
}
