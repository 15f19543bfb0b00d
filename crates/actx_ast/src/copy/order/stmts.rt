//! What stands in a statement, to wait.

ghost use Rattle.std.specs.Prelude.{◌≡◌, ◌≤◌, ◌+◌, ◌*◌, OnOk, map, option_map};
ghost use Rattle.actx_ast.specs.Apart.{boxed_work, catcher_work, expr_work, listed, maybe_work, stmt_work};
ghost use Rattle.actx_ast.specs.Copies.{catch_onto, last_onto, maybe_onto, maybe_stmt_onto, stmt_onto, waiting, work_weigh};
ghost use Rattle.actx_ast.specs.View.{catch_of, catcher_view, expr_view, last_of, maybe_expr, maybe_stmt, stmt_view};

use super::exprs::{see_function, see_init};
use super::{Work, push};
use crate::tree::{Catcher, Expr, Stmt};
use actx_data::NoMemory;

pub(super) fn see_stmt<'a>(work: &mut Vec<Work<'a>>, st: &'a Stmt) -> Result<(), NoMemory>
    ensures seen { OnOk result (waiting work.new.items ≡ stmt_onto (stmt_view st.now) (waiting work.old.items)) }
    ensures weight { OnOk result (work_weigh work.new.items ≤ work_weigh work.old.items + 4 * stmt_work st.now) }
{
    match st {
        Stmt::Let(items) => push(work, Work::Lets(items)),
        Stmt::Const(items) => push(work, Work::Consts(items)),
        Stmt::Fun(f) => see_function(work, f),
        Stmt::Block(ss) => push(work, Work::Stmts(ss)),
        Stmt::If(test, yes, no) => {
            see_other(work, no)?;
            push(work, Work::Stmt(yes))?;
            push(work, Work::Expr(test))
        }
        Stmt::While(test, body) => {
            push(work, Work::Stmt(body))?;
            push(work, Work::Expr(test))
        }
        Stmt::DoWhile(body, test) => {
            push(work, Work::Stmt(body))?;
            push(work, Work::Expr(test))
        }
        Stmt::For(init, test, update, body) => {
            see_maybe(work, update)?;
            see_maybe(work, test)?;
            see_init(work, init)?;
            push(work, Work::Stmt(body))
        }
        Stmt::ForOf { over, body, .. } => {
            push(work, Work::Stmt(body))?;
            push(work, Work::Expr(over))
        }
        Stmt::ForAwait { over, body, .. } => {
            push(work, Work::Stmt(body))?;
            push(work, Work::Expr(over))
        }
        Stmt::Break => Ok(()),
        Stmt::Continue => Ok(()),
        Stmt::Return(value) => see_maybe(work, value),
        Stmt::Throw(value) => push(work, Work::Expr(value)),
        Stmt::Try {
            block,
            catcher,
            last,
        } => {
            see_last(work, last)?;
            see_catcher(work, catcher)?;
            push(work, Work::Stmts(block))
        }
        Stmt::Value(e) => push(work, Work::Expr(e)),
        Stmt::Empty => Ok(()),
        Stmt::Switch(e, clauses) => {
            push(work, Work::Clauses(clauses))?;
            push(work, Work::Expr(e))
        }
    }
}

pub(super) fn see_maybe<'a>(
    work: &mut Vec<Work<'a>>,
    e: &'a Option<Box<Expr>>,
) -> Result<(), NoMemory>
    ensures seen { OnOk result (waiting work.new.items ≡ maybe_onto (maybe_expr (option_map (λ b. expr_view b.value) e.now)) (waiting work.old.items)) }
    ensures weight { OnOk result (work_weigh work.new.items ≤ work_weigh work.old.items + 4 * boxed_work (option_map (λ b. expr_work b.value) e.now)) }
{
    match e {
        Some(x) => push(work, Work::Expr(x)),
        None => Ok(()),
    }
}

fn see_other<'a>(work: &mut Vec<Work<'a>>, st: &'a Option<Box<Stmt>>) -> Result<(), NoMemory>
    ensures seen { OnOk result (waiting work.new.items ≡ maybe_stmt_onto (maybe_stmt (option_map (λ b. stmt_view b.value) st.now)) (waiting work.old.items)) }
    ensures weight { OnOk result (work_weigh work.new.items ≤ work_weigh work.old.items + 4 * boxed_work (option_map (λ b. stmt_work b.value) st.now)) }
{
    match st {
        Some(x) => push(work, Work::Stmt(x)),
        None => Ok(()),
    }
}

fn see_catcher<'a>(work: &mut Vec<Work<'a>>, catcher: &'a Option<Catcher>) -> Result<(), NoMemory>
    ensures seen { OnOk result (waiting work.new.items ≡ catch_onto (catch_of (option_map catcher_view catcher.now)) (waiting work.old.items)) }
    ensures weight { OnOk result (work_weigh work.new.items ≤ work_weigh work.old.items + 4 * maybe_work (option_map catcher_work catcher.now)) }
{
    match catcher {
        Some(x) => push(work, Work::Stmts(&x.body)),
        None => Ok(()),
    }
}

fn see_last<'a>(work: &mut Vec<Work<'a>>, last: &'a Option<Vec<Stmt>>) -> Result<(), NoMemory>
    ensures seen { OnOk result (waiting work.new.items ≡ last_onto (last_of (option_map (λ ss. map stmt_view ss.items) last.now)) (waiting work.old.items)) }
    ensures weight { OnOk result (work_weigh work.new.items ≤ work_weigh work.old.items + 4 * maybe_work (option_map (λ ss. listed (map stmt_work ss.items)) last.now)) }
{
    match last {
        Some(x) => push(work, Work::Stmts(x)),
        None => Ok(()),
    }
}
