//! A copy of an expression, made of the copies of what stands in it.

ghost use Rattle.std.specs.Prelude.{◌≡◌, ◌∷◌, IfOk, List, option_map};
ghost use Rattle.actx_ast.specs.Copies.{Seen, an_expr, code_onto, copied, expr_made, expr_onto, key_onto, maybe_onto, prop_key_onto, with_code, with_key, with_maybe, with_prop_key};
ghost use Rattle.actx_grammar.specs.Tree as t;
ghost use Rattle.actx_ast.specs.View.{expr_view, function_view, key_view, maybe_expr, prop_key_view};

use super::done::{Copied, take_boxed_expr, take_exprs, take_properties, take_stmts};
use crate::tree::{Expr, Function, Key, PropKey};
use actx_data::{NoMemory, Twin};
use actx_grammar::name::Name;
use std::alloc::Global;

pub(super) fn copy_names(alloc: Global, names: &[Name]) -> Result<Vec<Name>, NoMemory>
    ensures { IfOk result (λ r. r.items ≡ names.now) }
{
    let mut out = Vec::new(alloc);
    for name in names {
        out.push(name.copy(alloc)?)?;
    }
    Ok(out)
}

pub(super) fn copy_maybe_name(alloc: Global, name: &Option<Name>) -> Result<Option<Name>, NoMemory>
    ensures { IfOk result (λ r. r ≡ name.now) }
{
    match name {
        Some(name) => Ok(Some(name.copy(alloc)?)),
        None => Ok(None),
    }
}

pub(super) fn make_expr(alloc: Global, e: &Expr, done: &mut Vec<Copied>) -> Result<Expr, NoMemory>
    ensures parts { IfOk result (λ r. copied done.old.items ≡ expr_onto (expr_view r) (copied done.new.items)) }
    ensures like { IfOk result (λ r. (s : List Seen) → expr_made (expr_view e.now) (expr_onto (expr_view r) s) ≡ an_expr (expr_view r) ∷ s) }
{
    match e {
        Expr::Num(n) => Ok(Expr::Num(*n)),
        Expr::Text(u) => Ok(Expr::Text(u.copy(alloc)?)),
        Expr::Truth(b) => Ok(Expr::Truth(*b)),
        Expr::Null => Ok(Expr::Null),
        Expr::Undefined => Ok(Expr::Undefined),
        Expr::This => Ok(Expr::This),
        Expr::Named(x) => Ok(Expr::Named(x.copy(alloc)?)),
        Expr::Unary(op, _) => Ok(Expr::Unary(*op, take_boxed_expr(alloc, done)?)),
        Expr::Binary(op, _, _) => {
            let a = take_boxed_expr(alloc, done)?;
            let b = take_boxed_expr(alloc, done)?;
            Ok(Expr::Binary(*op, a, b))
        }
        Expr::Logic(op, _, _) => {
            let a = take_boxed_expr(alloc, done)?;
            let b = take_boxed_expr(alloc, done)?;
            Ok(Expr::Logic(*op, a, b))
        }
        Expr::Choice(_, _, _) => {
            let test = take_boxed_expr(alloc, done)?;
            let a = take_boxed_expr(alloc, done)?;
            let b = take_boxed_expr(alloc, done)?;
            Ok(Expr::Choice(test, a, b))
        }
        Expr::SetName(x, _) => {
            let x = x.copy(alloc)?;
            let value = take_boxed_expr(alloc, done)?;
            Ok(Expr::SetName(x, value))
        }
        Expr::SetMember(_, key, _) => {
            let base = take_boxed_expr(alloc, done)?;
            let value = take_boxed_expr(alloc, done)?;
            let key = make_key(alloc, key, done)?;
            Ok(Expr::SetMember(base, key, value))
        }
        Expr::Change(x, op, _) => {
            let x = x.copy(alloc)?;
            let value = take_boxed_expr(alloc, done)?;
            Ok(Expr::Change(x, *op, value))
        }
        Expr::Bump { name, up, before } => {
            let name = name.copy(alloc)?;
            Ok(Expr::Bump {
                name,
                up: *up,
                before: *before,
            })
        }
        Expr::Member(_, key) => {
            let base = take_boxed_expr(alloc, done)?;
            let key = make_key(alloc, key, done)?;
            Ok(Expr::Member(base, key))
        }
        Expr::Call(_, _) => {
            let callee = take_boxed_expr(alloc, done)?;
            let args = take_exprs(done)?;
            Ok(Expr::Call(callee, args))
        }
        Expr::Object(_) => Ok(Expr::Object(take_properties(done)?)),
        Expr::Function(f) => {
            let f = make_function(alloc, f, done)?;
            Ok(Expr::Function(Box::new(alloc, f)?))
        }
        Expr::Yield(value) => Ok(Expr::Yield(make_maybe(alloc, value, done)?)),
        Expr::YieldAll(_) => Ok(Expr::YieldAll(take_boxed_expr(alloc, done)?)),
        Expr::Await(_) => Ok(Expr::Await(take_boxed_expr(alloc, done)?)),
        Expr::Form(form, _) => Ok(Expr::Form(*form, take_exprs(done)?)),
    }
}

fn make_key(alloc: Global, key: &Key, done: &mut Vec<Copied>) -> Result<Key, NoMemory>
    ensures parts { IfOk result (λ r. copied done.old.items ≡ key_onto (key_view r) (copied done.new.items)) }
    ensures like { IfOk result (λ r. (k : t.Key → List Seen → List Seen) (s : List Seen) → with_key (key_view key.now) k (key_onto (key_view r) s) ≡ k (key_view r) s) }
{
    match key {
        Key::Dot(x) => {
            let x = x.copy(alloc)?;
            Ok(Key::Dot(x))
        }
        Key::Index(_) => {
            let e = take_boxed_expr(alloc, done)?;
            Ok(Key::Index(e))
        }
    }
}

pub(super) fn make_prop_key(
    alloc: Global,
    key: &PropKey,
    done: &mut Vec<Copied>,
) -> Result<PropKey, NoMemory>
    ensures parts { IfOk result (λ r. copied done.old.items ≡ prop_key_onto (prop_key_view r) (copied done.new.items)) }
    ensures like { IfOk result (λ r. (k : t.PropKey → List Seen → List Seen) (s : List Seen) → with_prop_key (prop_key_view key.now) k (prop_key_onto (prop_key_view r) s) ≡ k (prop_key_view r) s) }
{
    match key {
        PropKey::Fixed(u) => {
            let u = u.copy(alloc)?;
            Ok(PropKey::Fixed(u))
        }
        PropKey::Computed(_) => {
            let e = take_boxed_expr(alloc, done)?;
            Ok(PropKey::Computed(e))
        }
    }
}

pub(super) fn make_maybe(
    alloc: Global,
    e: &Option<Box<Expr>>,
    done: &mut Vec<Copied>,
) -> Result<Option<Box<Expr>>, NoMemory>
    ensures parts { IfOk result (λ r. copied done.old.items ≡ maybe_onto (maybe_expr (option_map (λ b. expr_view b.value) r)) (copied done.new.items)) }
    ensures like { IfOk result (λ r. (k : t.MaybeExpr → List Seen → List Seen) (s : List Seen) → with_maybe (maybe_expr (option_map (λ b. expr_view b.value) e.now)) k (maybe_onto (maybe_expr (option_map (λ b. expr_view b.value) r)) s) ≡ k (maybe_expr (option_map (λ b. expr_view b.value) r)) s) }
{
    match e {
        Some(_) => {
            let e = take_boxed_expr(alloc, done)?;
            Ok(Some(e))
        }
        None => Ok(None),
    }
}

pub(super) fn make_function(
    alloc: Global,
    f: &Function,
    done: &mut Vec<Copied>,
) -> Result<Function, NoMemory>
    ensures parts { IfOk result (λ r. copied done.old.items ≡ code_onto (function_view r) (copied done.new.items)) }
    ensures like { IfOk result (λ r. (k : t.Code → List Seen → List Seen) (s : List Seen) → with_code (function_view f.now) k (code_onto (function_view r) s) ≡ k (function_view r) s) }
{
    let name = copy_maybe_name(alloc, &f.name)?;
    let params = copy_names(alloc, &f.params)?;
    let body = take_stmts(done)?;
    Ok(Function {
        name,
        kind: f.kind,
        params,
        body,
    })
}
