//! Statements that are spelled next: `let a = 1 ;`.

ghost use Rattle.std.specs.Prelude.{◌≡◌, ◌≤◌, ◌<◌, ◌+◌, ◌++◌, ◌∷◌, [], option_map, OnOk};
ghost use Rattle.actx_ast.specs.Sizes.{consts_size, expr_size, lets_size, maybe_size, stmt_size, stmts_size};
ghost use Rattle.actx_grammar.specs.Spell as spec;
ghost use Rattle.actx_grammar.specs.Spell.{inner};
ghost use Rattle.actx_grammar.specs.Tree as node;
ghost use Rattle.actx_ast.specs.Unspelled.{rest_of, weigh};
ghost use Rattle.actx_ast.specs.View.{consts_view, expr_view, lets_view, maybe_expr, stmt_view, stmts_view};

use super::blocks::{caught, caught_last, switch};
use super::calls::{block, function};
use super::lists::{list_consts, list_lets};
use super::loops::{do_while, for_await, for_loop, for_of, headed_body, if_else};
use super::{Work, keyword, push, sign};
use crate::tree::{ConstItem, Expr, LetItem, Stmt};
use actx_data::NoMemory;
use actx_grammar::token::{Keyword, Sign, TokenKind};
use std::alloc::Global;

#[tactic(auto, using(std::proofs::Common::append_assoc))]
pub(super) fn statements<'a>(work: &mut Vec<Work<'a>>, stmts: &'a [Stmt]) -> Result<(), NoMemory>
    ensures rest { OnOk result (rest_of work.new.items ≡ spec.spell_program (stmts_view stmts.now) ++ rest_of work.old.items) }
    ensures weight { OnOk result (weigh work.new.items < weigh work.old.items + 1 + stmts_size (stmts_view stmts.now)) }
{
    match stmts {
        [] => Ok(()),
        [first, rest @ ..] => {
            push(work, Work::Statements(rest))?;
            push(work, Work::Statement(first))
        }
    }
}

/// A statement's tokens, or the pieces that it has.
pub(super) fn statement<'a>(
    alloc: Global,
    work: &mut Vec<Work<'a>>,
    stmt: &'a Stmt,
) -> Result<(), NoMemory>
    ensures rest { OnOk result (rest_of work.new.items ≡ spec.spell_stmt (stmt_view stmt.now) ++ rest_of work.old.items) }
    ensures weight { OnOk result (weigh work.new.items < weigh work.old.items + stmt_size (stmt_view stmt.now)) }
{
    match stmt {
        Stmt::Let(items) => let_items(alloc, work, items),
        Stmt::Const(items) => const_items(alloc, work, items),
        Stmt::Fun(f) => function(work, f),
        Stmt::Block(body) => block(work, body),
        Stmt::If(test, branch, None) => headed_body(work, Keyword::If, test, branch),
        Stmt::If(test, branch, Some(other)) => if_else(work, test, branch, other),
        Stmt::While(test, body) => headed_body(work, Keyword::While, test, body),
        Stmt::DoWhile(body, test) => do_while(work, body, test),
        Stmt::For(init, test, update, body) => for_loop(alloc, work, init, test, update, body),
        Stmt::ForOf {
            constant,
            name,
            over,
            body,
        } => for_of(alloc, work, *constant, name, over, body),
        Stmt::ForAwait {
            constant,
            name,
            over,
            body,
        } => for_await(alloc, work, *constant, name, over, body),
        Stmt::Break => ended(work, Keyword::Break),
        Stmt::Continue => ended(work, Keyword::Continue),
        Stmt::Return(value) => returned(work, value),
        Stmt::Throw(value) => led(work, Keyword::Throw, value),
        Stmt::Try {
            block,
            catcher,
            last: None,
        } => caught(alloc, work, block, catcher),
        Stmt::Try {
            block,
            catcher,
            last: Some(last),
        } => caught_last(alloc, work, block, catcher, last),
        Stmt::Value(value) => value_ended(work, value),
        Stmt::Empty => sign(work, Sign::Semicolon),
        Stmt::Switch(value, rows) => switch(work, value, rows),
    }
}

#[tactic(auto, using(std::proofs::Common::append_assoc))]
fn let_items<'a>(
    alloc: Global,
    work: &mut Vec<Work<'a>>,
    items: &'a [LetItem],
) -> Result<(), NoMemory>
    ensures rest { OnOk result (rest_of work.new.items ≡ spec.spell_stmt (node.Let (lets_view items.now)) ++ rest_of work.old.items) }
    ensures weight { OnOk result (weigh work.new.items ≤ weigh work.old.items + 2 + lets_size (lets_view items.now)) }
{
    sign(work, Sign::Semicolon)?;
    list_lets(alloc, work, items)?;
    keyword(work, Keyword::Let)
}

#[tactic(auto, using(std::proofs::Common::append_assoc))]
fn const_items<'a>(
    alloc: Global,
    work: &mut Vec<Work<'a>>,
    items: &'a [ConstItem],
) -> Result<(), NoMemory>
    ensures rest { OnOk result (rest_of work.new.items ≡ spec.spell_stmt (node.Const (consts_view items.now)) ++ rest_of work.old.items) }
    ensures weight { OnOk result (weigh work.new.items ≤ weigh work.old.items + 2 + consts_size (consts_view items.now)) }
{
    sign(work, Sign::Semicolon)?;
    list_consts(alloc, work, items)?;
    keyword(work, Keyword::Const)
}

/// `return ;` and `return value ;`
fn returned<'a>(work: &mut Vec<Work<'a>>, value: &'a Option<Box<Expr>>) -> Result<(), NoMemory>
    ensures rest { OnOk result (rest_of work.new.items ≡ spec.spell_stmt (node.Return (maybe_expr (option_map (λ b. expr_view b.value) value.now))) ++ rest_of work.old.items) }
    ensures weight { OnOk result (weigh work.new.items ≤ weigh work.old.items + 2 + maybe_size (maybe_expr (option_map (λ b. expr_view b.value) value.now))) }
{
    match value {
        None => ended(work, Keyword::Return),
        Some(value) => led(work, Keyword::Return, value),
    }
}

/// `value ;`
#[tactic(auto, using(std::proofs::Common::append_assoc))]
fn value_ended<'a>(work: &mut Vec<Work<'a>>, value: &'a Expr) -> Result<(), NoMemory>
    ensures rest { OnOk result (rest_of work.new.items ≡ spec.spell_stmt (node.Value (expr_view value.now)) ++ rest_of work.old.items) }
    ensures weight { OnOk result (weigh work.new.items ≡ weigh work.old.items + 4 + expr_size (expr_view value.now)) }
{
    sign(work, Sign::Semicolon)?;
    push(work, Work::Tree(value, true, 1))
}

/// `throw value ;` and its like.
#[tactic(auto, using(std::proofs::Common::append_assoc))]
fn led<'a>(work: &mut Vec<Work<'a>>, word: Keyword, value: &'a Expr) -> Result<(), NoMemory>
    ensures rest { OnOk result (rest_of work.new.items ≡ TokenKind.Keyword word ∷ ((spec.spell inner (expr_view value.now) 1 ++ TokenKind.Sign Sign.Semicolon ∷ []) ++ rest_of work.old.items)) }
    ensures weight { OnOk result (weigh work.new.items ≡ weigh work.old.items + 5 + expr_size (expr_view value.now)) }
{
    sign(work, Sign::Semicolon)?;
    push(work, Work::Tree(value, false, 1))?;
    keyword(work, word)
}

/// `break ;` and its like.
fn ended<'a>(work: &mut Vec<Work<'a>>, word: Keyword) -> Result<(), NoMemory>
    ensures rest { OnOk result (rest_of work.new.items ≡ TokenKind.Keyword word ∷ TokenKind.Sign Sign.Semicolon ∷ rest_of work.old.items) }
    ensures weight { OnOk result (weigh work.new.items ≡ weigh work.old.items + 2) }
{
    sign(work, Sign::Semicolon)?;
    keyword(work, word)
}
