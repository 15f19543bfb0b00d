//! Lists of a tree: the first of a list comes next, and the others behind it.

ghost use Rattle.std.specs.Prelude.{◌≡◌, ◌≤◌, ◌<◌, ◌+◌, ◌++◌, OnOk};
ghost use Rattle.actx_ast.specs.Sizes.{clauses_size, consts_size, exprs_size, key_size, lets_size, maybe_size, prop_key_size, properties_size, stmts_size};
ghost use Rattle.actx_ast.specs.View.{clauses_view, consts_view, exprs_view, key_view, lets_view, maybe_expr, prop_key_view, properties_view, stmts_view, expr_view};
ghost use Rattle.actx_nodes.specs.Heads.{clauses_heads, consts_heads, exprs_heads, key_heads, lets_heads, maybe_heads, prop_key_heads, properties_heads, stmts_heads};
ghost use Rattle.actx_nodes.specs.Walk.{rest_of, weigh};
ghost use Rattle.std.specs.Prelude.{option_map};

use super::counts::count_maybe;
use super::{Piece, push, push_head};
use crate::label::Label;
use actx_ast::tree::{Clause, ConstItem, Expr, Key, LetItem, PropKey, Property, Stmt};
use actx_data::{NoMemory, Twin};
use std::alloc::Global;

#[tactic(auto, using(std::proofs::Common::append_assoc))]
pub(super) fn exprs<'a>(work: &mut Vec<Piece<'a>>, es: &'a [Expr]) -> Result<(), NoMemory>
    ensures rest { OnOk result (rest_of work.new.items ≡ exprs_heads (exprs_view es.now) ++ rest_of work.old.items) }
    ensures weight { OnOk result (weigh work.new.items < weigh work.old.items + 1 + exprs_size (exprs_view es.now)) }
{
    match es {
        [] => Ok(()),
        [first, rest @ ..] => {
            push(work, Piece::Exprs(rest))?;
            push(work, Piece::Expr(first))
        }
    }
}

#[tactic(auto, using(std::proofs::Common::append_assoc))]
pub(super) fn statements<'a>(work: &mut Vec<Piece<'a>>, stmts: &'a [Stmt]) -> Result<(), NoMemory>
    ensures rest { OnOk result (rest_of work.new.items ≡ stmts_heads (stmts_view stmts.now) ++ rest_of work.old.items) }
    ensures weight { OnOk result (weigh work.new.items < weigh work.old.items + 1 + stmts_size (stmts_view stmts.now)) }
{
    match stmts {
        [] => Ok(()),
        [first, rest @ ..] => {
            push(work, Piece::Stmts(rest))?;
            push(work, Piece::Stmt(first))
        }
    }
}

/// The key of a member.
pub(super) fn key<'a>(
    alloc: Global,
    work: &mut Vec<Piece<'a>>,
    key: &'a Key,
) -> Result<(), NoMemory>
    ensures rest { OnOk result (rest_of work.new.items ≡ key_heads (key_view key.now) ++ rest_of work.old.items) }
    ensures weight { OnOk result (weigh work.new.items ≤ weigh work.old.items + key_size (key_view key.now)) }
{
    match key {
        Key::Dot(name) => push_head(work, Label::Name(name.copy(alloc)?), 0),
        Key::Index(e) => push(work, Piece::Expr(e)),
    }
}

/// The key of a property.
fn prop_key<'a>(alloc: Global, work: &mut Vec<Piece<'a>>, key: &'a PropKey) -> Result<(), NoMemory>
    ensures rest { OnOk result (rest_of work.new.items ≡ prop_key_heads (prop_key_view key.now) ++ rest_of work.old.items) }
    ensures weight { OnOk result (weigh work.new.items ≤ weigh work.old.items + prop_key_size (prop_key_view key.now)) }
{
    match key {
        PropKey::Fixed(units) => push_head(work, Label::Key(units.copy(alloc)?), 0),
        PropKey::Computed(e) => push(work, Piece::Expr(e)),
    }
}

#[tactic(auto, using(std::proofs::Common::append_assoc))]
pub(super) fn properties<'a>(
    alloc: Global,
    work: &mut Vec<Piece<'a>>,
    rows: &'a [Property],
) -> Result<(), NoMemory>
    ensures rest { OnOk result (rest_of work.new.items ≡ properties_heads (properties_view rows.now) ++ rest_of work.old.items) }
    ensures weight { OnOk result (weigh work.new.items < weigh work.old.items + 1 + properties_size (properties_view rows.now)) }
{
    match rows {
        [] => Ok(()),
        [first, rest @ ..] => {
            push(work, Piece::Properties(rest))?;
            push(work, Piece::Expr(&first.value))?;
            prop_key(alloc, work, &first.key)
        }
    }
}

/// An expression that may be absent.
pub(super) fn maybe<'a>(
    work: &mut Vec<Piece<'a>>,
    value: &'a Option<Box<Expr>>,
) -> Result<(), NoMemory>
    ensures rest { OnOk result (rest_of work.new.items ≡ maybe_heads (maybe_expr (option_map (λ b. expr_view b.value) value.now)) ++ rest_of work.old.items) }
    ensures weight { OnOk result (weigh work.new.items ≤ weigh work.old.items + maybe_size (maybe_expr (option_map (λ b. expr_view b.value) value.now))) }
{
    match value {
        Some(e) => push(work, Piece::Expr(e)),
        None => Ok(()),
    }
}

#[tactic(auto, using(std::proofs::Common::append_assoc))]
pub(super) fn lets<'a>(
    alloc: Global,
    work: &mut Vec<Piece<'a>>,
    items: &'a [LetItem],
) -> Result<(), NoMemory>
    ensures rest { OnOk result (rest_of work.new.items ≡ lets_heads (lets_view items.now) ++ rest_of work.old.items) }
    ensures weight { OnOk result (weigh work.new.items < weigh work.old.items + 1 + lets_size (lets_view items.now)) }
{
    match items {
        [] => Ok(()),
        [first, rest @ ..] => {
            push(work, Piece::Lets(rest))?;
            maybe(work, &first.value)?;
            push_head(
                work,
                Label::LetItem(first.name.copy(alloc)?),
                count_maybe(&first.value),
            )
        }
    }
}

#[tactic(auto, using(std::proofs::Common::append_assoc))]
pub(super) fn consts<'a>(
    alloc: Global,
    work: &mut Vec<Piece<'a>>,
    items: &'a [ConstItem],
) -> Result<(), NoMemory>
    ensures rest { OnOk result (rest_of work.new.items ≡ consts_heads (consts_view items.now) ++ rest_of work.old.items) }
    ensures weight { OnOk result (weigh work.new.items < weigh work.old.items + 1 + consts_size (consts_view items.now)) }
{
    match items {
        [] => Ok(()),
        [first, rest @ ..] => {
            push(work, Piece::Consts(rest))?;
            push(work, Piece::Expr(&first.value))?;
            push_head(work, Label::ConstItem(first.name.copy(alloc)?), 1)
        }
    }
}

/// The statements of all clauses of a `switch`.
#[tactic(auto, using(std::proofs::Common::append_assoc))]
pub(super) fn clauses<'a>(work: &mut Vec<Piece<'a>>, rows: &'a [Clause]) -> Result<(), NoMemory>
    ensures rest { OnOk result (rest_of work.new.items ≡ clauses_heads (clauses_view rows.now) ++ rest_of work.old.items) }
    ensures weight { OnOk result (weigh work.new.items < weigh work.old.items + 1 + clauses_size (clauses_view rows.now)) }
{
    match rows {
        [] => Ok(()),
        [first, rest @ ..] => {
            push(work, Piece::Clauses(rest))?;
            push(work, Piece::Stmts(first.body.as_slice()))
        }
    }
}
