//! What stands in an expression, to wait.

ghost use Rattle.std.specs.Prelude.{◌≡◌, ◌≤◌, ◌+◌, ◌*◌, OnOk};
ghost use Rattle.actx_ast.specs.Apart.{expr_work, function_work, init_work, key_work};
ghost use Rattle.actx_ast.specs.Copies.{code_onto, expr_onto, init_onto, key_onto, prop_key_onto, prop_key_work, waiting, work_weigh};
ghost use Rattle.actx_ast.specs.View.{expr_view, function_view, init_view, key_view, prop_key_view};

use super::{Work, push};
use crate::tree::{Expr, ForInit, Function, Key, PropKey};
use actx_data::NoMemory;

pub(super) fn see_expr<'a>(work: &mut Vec<Work<'a>>, e: &'a Expr) -> Result<(), NoMemory>
    ensures seen { OnOk result (waiting work.new.items ≡ expr_onto (expr_view e.now) (waiting work.old.items)) }
    ensures weight { OnOk result (work_weigh work.new.items ≤ work_weigh work.old.items + 4 * expr_work e.now) }
{
    match e {
        Expr::Num(_) => Ok(()),
        Expr::Text(_) => Ok(()),
        Expr::Truth(_) => Ok(()),
        Expr::Null => Ok(()),
        Expr::Undefined => Ok(()),
        Expr::This => Ok(()),
        Expr::Named(_) => Ok(()),
        Expr::Unary(_, e) => push(work, Work::Expr(e)),
        Expr::Binary(_, a, b) => {
            push(work, Work::Expr(b))?;
            push(work, Work::Expr(a))
        }
        Expr::Logic(_, a, b) => {
            push(work, Work::Expr(b))?;
            push(work, Work::Expr(a))
        }
        Expr::Choice(test, a, b) => {
            push(work, Work::Expr(b))?;
            push(work, Work::Expr(a))?;
            push(work, Work::Expr(test))
        }
        Expr::SetName(_, value) => push(work, Work::Expr(value)),
        Expr::SetMember(base, key, value) => {
            see_key(work, key)?;
            push(work, Work::Expr(value))?;
            push(work, Work::Expr(base))
        }
        Expr::Change(_, _, value) => push(work, Work::Expr(value)),
        Expr::Bump { .. } => Ok(()),
        Expr::Member(base, key) => {
            see_key(work, key)?;
            push(work, Work::Expr(base))
        }
        Expr::Call(callee, args) => {
            push(work, Work::Exprs(args))?;
            push(work, Work::Expr(callee))
        }
        Expr::Object(properties) => push(work, Work::Properties(properties)),
        Expr::Function(f) => see_function(work, f),
        Expr::Yield(Some(value)) => push(work, Work::Expr(value)),
        Expr::Yield(None) => Ok(()),
        Expr::YieldAll(value) => push(work, Work::Expr(value)),
        Expr::Await(value) => push(work, Work::Expr(value)),
        Expr::Form(_, parts) => push(work, Work::Exprs(parts)),
    }
}

fn see_key<'a>(work: &mut Vec<Work<'a>>, key: &'a Key) -> Result<(), NoMemory>
    ensures seen { OnOk result (waiting work.new.items ≡ key_onto (key_view key.now) (waiting work.old.items)) }
    ensures weight { OnOk result (work_weigh work.new.items ≤ work_weigh work.old.items + 4 * key_work key.now) }
{
    match key {
        Key::Dot(_) => Ok(()),
        Key::Index(e) => push(work, Work::Expr(e)),
    }
}

pub(super) fn see_prop_key<'a>(work: &mut Vec<Work<'a>>, key: &'a PropKey) -> Result<(), NoMemory>
    ensures seen { OnOk result (waiting work.new.items ≡ prop_key_onto (prop_key_view key.now) (waiting work.old.items)) }
    ensures weight { OnOk result (work_weigh work.new.items ≤ work_weigh work.old.items + 4 * prop_key_work key.now) }
{
    match key {
        PropKey::Fixed(_) => Ok(()),
        PropKey::Computed(e) => push(work, Work::Expr(e)),
    }
}

pub(super) fn see_function<'a>(work: &mut Vec<Work<'a>>, f: &'a Function) -> Result<(), NoMemory>
    ensures seen { OnOk result (waiting work.new.items ≡ code_onto (function_view f.now) (waiting work.old.items)) }
    ensures weight { OnOk result (work_weigh work.new.items ≤ work_weigh work.old.items + 4 * function_work f.now) }
{
    push(work, Work::Stmts(&f.body))
}

pub(super) fn see_init<'a>(work: &mut Vec<Work<'a>>, init: &'a ForInit) -> Result<(), NoMemory>
    ensures seen { OnOk result (waiting work.new.items ≡ init_onto (init_view init.now) (waiting work.old.items)) }
    ensures weight { OnOk result (work_weigh work.new.items ≤ work_weigh work.old.items + 4 * init_work init.now) }
{
    match init {
        ForInit::Nothing => Ok(()),
        ForInit::Let(items) => push(work, Work::Lets(items)),
        ForInit::Const(items) => push(work, Work::Consts(items)),
        ForInit::Value(e) => push(work, Work::Expr(e)),
    }
}
