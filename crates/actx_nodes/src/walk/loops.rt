//! Loops: the head, and the parts in text order behind it.

ghost use Rattle.std.specs.Prelude.{◌≡◌, ◌<◌, ◌≤◌, ◌+◌, ◌++◌, ◌∷◌, [], option_map, IfOk, OnOk};
ghost use Rattle.actx_ast.specs.Sizes.{expr_size, init_size, maybe_size, stmt_size};
ghost use Rattle.actx_ast.specs.View.{expr_view, init_view, maybe_expr, stmt_view};
ghost use Rattle.actx_grammar.specs.Tree as node;
ghost use Rattle.actx_nodes.specs.Build.{init_parts};
ghost use Rattle.actx_nodes.specs.Heads.{expr_heads, for_count, for_label, head, init_heads, init_label, is_expr, stmt_head, stmt_heads};
ghost use Rattle.actx_nodes.specs.Walk.{rest_of, weigh};

use super::counts::{count_consts, count_lets, count_maybe, sum};
use super::lists::maybe;
use super::{Piece, push, push_head, stmt_head};
use crate::label::{ForLabel, InitLabel, Label, StmtLabel};
use actx_ast::tree::{Expr, ForInit, Stmt};
use actx_data::{NoMemory, Twin};
use actx_grammar::name::Name;
use std::alloc::Global;

/// What a `for` begins with.
fn init<'a>(work: &mut Vec<Piece<'a>>, init: &'a ForInit) -> Result<(), NoMemory>
    ensures rest { OnOk result (rest_of work.new.items ≡ init_heads (init_view init.now) ++ rest_of work.old.items) }
    ensures weight { OnOk result (weigh work.new.items ≤ weigh work.old.items + init_size (init_view init.now)) }
{
    match init {
        ForInit::Nothing => Ok(()),
        ForInit::Let(items) => push(work, Piece::Lets(items)),
        ForInit::Const(items) => push(work, Piece::Consts(items)),
        ForInit::Value(e) => push(work, Piece::Expr(e)),
    }
}

fn init_label_of(init: &ForInit) -> InitLabel
    ensures { result ≡ init_label (init_view init.now) }
{
    match init {
        ForInit::Nothing => InitLabel::Nothing,
        ForInit::Let(items) => InitLabel::Let(count_lets(items)),
        ForInit::Const(items) => InitLabel::Const(count_consts(items)),
        ForInit::Value(_) => InitLabel::Value,
    }
}

/// How many parts the beginning of a `for` is.
pub fn init_parts(init: InitLabel) -> usize
    ensures { result ≡ init_parts init }
{
    match init {
        InitLabel::Nothing => 0,
        InitLabel::Let(n) => n,
        InitLabel::Const(n) => n,
        InitLabel::Value => 1,
    }
}

fn is_there(value: &Option<Box<Expr>>) -> bool
    ensures { result ≡ is_expr (maybe_expr (option_map (λ b. expr_view b.value) value.now)) }
{
    match value {
        Some(_) => true,
        None => false,
    }
}

fn for_label_of(init: &ForInit, test: &Option<Box<Expr>>, update: &Option<Box<Expr>>) -> ForLabel
    ensures { result ≡ for_label (init_view init.now) (maybe_expr (option_map (λ b. expr_view b.value) test.now)) (maybe_expr (option_map (λ b. expr_view b.value) update.now)) }
{
    ForLabel {
        init: init_label_of(init),
        test: is_there(test),
        update: is_there(update),
    }
}

fn count_for(
    init: &ForInit,
    test: &Option<Box<Expr>>,
    update: &Option<Box<Expr>>,
) -> Result<usize, NoMemory>
    ensures { IfOk result (λ n. n ≡ for_count (init_view init.now) (maybe_expr (option_map (λ b. expr_view b.value) test.now)) (maybe_expr (option_map (λ b. expr_view b.value) update.now))) }
{
    let behind = sum(count_maybe(update), 1)?;
    let behind = sum(count_maybe(test), behind)?;
    sum(init_parts(init_label_of(init)), behind)
}

#[tactic(auto, using(std::proofs::Common::append_assoc))]
pub(super) fn for_loop<'a>(
    work: &mut Vec<Piece<'a>>,
    start: &'a ForInit,
    test: &'a Option<Box<Expr>>,
    update: &'a Option<Box<Expr>>,
    body: &'a Stmt,
) -> Result<(), NoMemory>
    ensures rest { OnOk result (rest_of work.new.items ≡ stmt_heads (node.For (init_view start.now) (maybe_expr (option_map (λ b. expr_view b.value) test.now)) (maybe_expr (option_map (λ b. expr_view b.value) update.now)) (stmt_view body.now)) ++ rest_of work.old.items) }
    ensures weight { OnOk result (weigh work.new.items ≤ weigh work.old.items + 1 + init_size (init_view start.now) + maybe_size (maybe_expr (option_map (λ b. expr_view b.value) test.now)) + maybe_size (maybe_expr (option_map (λ b. expr_view b.value) update.now)) + stmt_size (stmt_view body.now)) }
{
    let parts = count_for(start, test, update)?;
    push(work, Piece::Stmt(body))?;
    maybe(work, update)?;
    maybe(work, test)?;
    init(work, start)?;
    stmt_head(
        work,
        StmtLabel::For(for_label_of(start, test, update)),
        parts,
    )
}

/// `for ( name of over ) body` and its like.
#[tactic(auto, using(std::proofs::Common::append_assoc))]
pub(super) fn named_loop<'a>(
    alloc: Global,
    work: &mut Vec<Piece<'a>>,
    label: StmtLabel,
    name: &Name,
    over: &'a Expr,
    body: &'a Stmt,
) -> Result<(), NoMemory>
    ensures rest { OnOk result (rest_of work.new.items ≡ stmt_head label 3 ∷ head (Label.Name name.now) 0 ∷ ((expr_heads (expr_view over.now) ++ stmt_heads (stmt_view body.now)) ++ rest_of work.old.items)) }
    ensures weight { OnOk result (weigh work.new.items ≡ weigh work.old.items + 2 + expr_size (expr_view over.now) + stmt_size (stmt_view body.now)) }
{
    push(work, Piece::Stmt(body))?;
    push(work, Piece::Expr(over))?;
    push_head(work, Label::Name(name.copy(alloc)?), 0)?;
    stmt_head(work, label, 3)
}
