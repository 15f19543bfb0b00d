//! A copy of a statement, made of the copies of what stands in it.

ghost use Rattle.std.specs.Prelude.{◌≡◌, ◌∷◌, IfOk, List, map, option_map};
ghost use Rattle.actx_ast.specs.Copies.{Seen, a_stmt, catch_onto, copied, init_onto, last_onto, maybe_onto, maybe_stmt_onto, stmt_made, stmt_onto, with_catch, with_init, with_last, with_maybe, with_maybe_stmt};
ghost use Rattle.actx_grammar.specs.Tree as t;
ghost use Rattle.actx_ast.specs.View.{catch_of, catcher_view, expr_view, init_view, last_of, maybe_expr, maybe_stmt, stmt_view};

use super::done::{
    Copied, take_boxed_expr, take_boxed_stmt, take_clauses, take_consts, take_lets, take_stmts,
};
use super::make_exprs::{copy_maybe_name, make_function, make_maybe};
use crate::tree::{Catcher, Expr, ForInit, Stmt};
use actx_data::{NoMemory, Twin};
use std::alloc::Global;

pub(super) fn make_stmt(alloc: Global, st: &Stmt, done: &mut Vec<Copied>) -> Result<Stmt, NoMemory>
    ensures parts { IfOk result (λ r. copied done.old.items ≡ stmt_onto (stmt_view r) (copied done.new.items)) }
    ensures like { IfOk result (λ r. (s : List Seen) → stmt_made (stmt_view st.now) (stmt_onto (stmt_view r) s) ≡ a_stmt (stmt_view r) ∷ s) }
{
    match st {
        Stmt::Let(_) => Ok(Stmt::Let(take_lets(done)?)),
        Stmt::Const(_) => Ok(Stmt::Const(take_consts(done)?)),
        Stmt::Fun(f) => Ok(Stmt::Fun(make_function(alloc, f, done)?)),
        Stmt::Block(_) => Ok(Stmt::Block(take_stmts(done)?)),
        Stmt::If(_, _, no) => {
            let test = take_boxed_expr(alloc, done)?;
            let yes = take_boxed_stmt(alloc, done)?;
            let no = make_other(alloc, no, done)?;
            Ok(Stmt::If(test, yes, no))
        }
        Stmt::While(_, _) => {
            let test = take_boxed_expr(alloc, done)?;
            let body = take_boxed_stmt(alloc, done)?;
            Ok(Stmt::While(test, body))
        }
        Stmt::DoWhile(_, _) => {
            let test = take_boxed_expr(alloc, done)?;
            let body = take_boxed_stmt(alloc, done)?;
            Ok(Stmt::DoWhile(body, test))
        }
        Stmt::For(init, test, update, _) => {
            let body = take_boxed_stmt(alloc, done)?;
            let init = make_init(alloc, init, done)?;
            let test = make_maybe(alloc, test, done)?;
            let update = make_maybe(alloc, update, done)?;
            Ok(looped(init, test, update, body))
        }
        Stmt::ForOf { constant, name, .. } => {
            let name = name.copy(alloc)?;
            let over = take_boxed_expr(alloc, done)?;
            let body = take_boxed_stmt(alloc, done)?;
            Ok(Stmt::ForOf {
                constant: *constant,
                name,
                over,
                body,
            })
        }
        Stmt::ForAwait { constant, name, .. } => {
            let name = name.copy(alloc)?;
            let over = take_boxed_expr(alloc, done)?;
            let body = take_boxed_stmt(alloc, done)?;
            Ok(Stmt::ForAwait {
                constant: *constant,
                name,
                over,
                body,
            })
        }
        Stmt::Break => Ok(Stmt::Break),
        Stmt::Continue => Ok(Stmt::Continue),
        Stmt::Return(value) => Ok(Stmt::Return(make_maybe(alloc, value, done)?)),
        Stmt::Throw(_) => Ok(Stmt::Throw(take_boxed_expr(alloc, done)?)),
        Stmt::Try { catcher, last, .. } => {
            let block = take_stmts(done)?;
            let catcher = make_catcher(alloc, catcher, done)?;
            let last = make_last(alloc, last, done)?;
            Ok(Stmt::Try {
                block,
                catcher,
                last,
            })
        }
        Stmt::Value(_) => Ok(Stmt::Value(take_boxed_expr(alloc, done)?)),
        Stmt::Empty => Ok(Stmt::Empty),
        Stmt::Switch(_, _) => {
            let e = take_boxed_expr(alloc, done)?;
            let clauses = take_clauses(done)?;
            Ok(Stmt::Switch(e, clauses))
        }
    }
}

fn looped(
    init: ForInit,
    test: Option<Box<Expr>>,
    update: Option<Box<Expr>>,
    body: Box<Stmt>,
) -> Stmt
    ensures { stmt_view result ≡ t.For (init_view init) (maybe_expr (option_map (λ b. expr_view b.value) test)) (maybe_expr (option_map (λ b. expr_view b.value) update)) (stmt_view body.value) }
{
    Stmt::For(init, test, update, body)
}

fn make_init(alloc: Global, init: &ForInit, done: &mut Vec<Copied>) -> Result<ForInit, NoMemory>
    ensures parts { IfOk result (λ r. copied done.old.items ≡ init_onto (init_view r) (copied done.new.items)) }
    ensures like { IfOk result (λ r. (k : t.Init → List Seen → List Seen) (s : List Seen) → with_init (init_view init.now) k (init_onto (init_view r) s) ≡ k (init_view r) s) }
{
    match init {
        ForInit::Nothing => Ok(ForInit::Nothing),
        ForInit::Let(_) => {
            let items = take_lets(done)?;
            Ok(ForInit::Let(items))
        }
        ForInit::Const(_) => {
            let items = take_consts(done)?;
            Ok(ForInit::Const(items))
        }
        ForInit::Value(_) => {
            let e = take_boxed_expr(alloc, done)?;
            Ok(ForInit::Value(e))
        }
    }
}

fn make_other(
    alloc: Global,
    st: &Option<Box<Stmt>>,
    done: &mut Vec<Copied>,
) -> Result<Option<Box<Stmt>>, NoMemory>
    ensures parts { IfOk result (λ r. copied done.old.items ≡ maybe_stmt_onto (maybe_stmt (option_map (λ b. stmt_view b.value) r)) (copied done.new.items)) }
    ensures like { IfOk result (λ r. (k : t.MaybeStmt → List Seen → List Seen) (s : List Seen) → with_maybe_stmt (maybe_stmt (option_map (λ b. stmt_view b.value) st.now)) k (maybe_stmt_onto (maybe_stmt (option_map (λ b. stmt_view b.value) r)) s) ≡ k (maybe_stmt (option_map (λ b. stmt_view b.value) r)) s) }
{
    match st {
        Some(_) => {
            let st = take_boxed_stmt(alloc, done)?;
            Ok(Some(st))
        }
        None => Ok(None),
    }
}

fn make_catcher(
    alloc: Global,
    catcher: &Option<Catcher>,
    done: &mut Vec<Copied>,
) -> Result<Option<Catcher>, NoMemory>
    ensures parts { IfOk result (λ r. copied done.old.items ≡ catch_onto (catch_of (option_map catcher_view r)) (copied done.new.items)) }
    ensures like { IfOk result (λ r. (k : t.Catch → List Seen → List Seen) (s : List Seen) → with_catch (catch_of (option_map catcher_view catcher.now)) k (catch_onto (catch_of (option_map catcher_view r)) s) ≡ k (catch_of (option_map catcher_view r)) s) }
{
    match catcher {
        Some(x) => {
            let name = copy_maybe_name(alloc, &x.name)?;
            let body = take_stmts(done)?;
            Ok(Some(Catcher { name, body }))
        }
        None => Ok(None),
    }
}

fn make_last(
    alloc: Global,
    last: &Option<Vec<Stmt>>,
    done: &mut Vec<Copied>,
) -> Result<Option<Vec<Stmt>>, NoMemory>
    ensures parts { IfOk result (λ r. copied done.old.items ≡ last_onto (last_of (option_map (λ ss. map stmt_view ss.items) r)) (copied done.new.items)) }
    ensures like { IfOk result (λ r. (k : t.Last → List Seen → List Seen) (s : List Seen) → with_last (last_of (option_map (λ ss. map stmt_view ss.items) last.now)) k (last_onto (last_of (option_map (λ ss. map stmt_view ss.items) r)) s) ≡ k (last_of (option_map (λ ss. map stmt_view ss.items) r)) s) }
{
    match last {
        Some(_) => {
            let ss = take_stmts(done)?;
            Ok(Some(ss))
        }
        None => Ok(None),
    }
}
