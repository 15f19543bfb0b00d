//! Expressions: the head, and the parts in text order behind it.

ghost use Rattle.std.specs.Prelude.{◌≡◌, ◌<◌, ◌≤◌, ◌+◌, ◌++◌, ◌∷◌, [], suc, option_map, OnOk};
ghost use Rattle.actx_ast.specs.Sizes.{code_size, expr_size, exprs_size, key_size, maybe_size, properties_size};
ghost use Rattle.actx_ast.specs.View.{expr_view, exprs_view, function_view, key_view, maybe_expr, properties_view};
ghost use Rattle.actx_grammar.specs.Tree as node;
ghost use Rattle.actx_nodes.specs.Heads.{expr_head, expr_heads};
ghost use Rattle.actx_nodes.specs.Walk.{rest_of, weigh};

use super::counts::{count_exprs, count_maybe, count_properties, sum};
use super::functions::{count_parts, label_of, parts};
use super::lists::{key, maybe};
use super::{Piece, expr_head, push};
use crate::label::ExprLabel;
use actx_ast::tree::{Expr, Function, Key, Property};
use actx_data::{NoMemory, Twin};
use actx_grammar::operators::Form;
use std::alloc::Global;

/// An expression.
pub(super) fn expr<'a>(
    alloc: Global,
    work: &mut Vec<Piece<'a>>,
    e: &'a Expr,
) -> Result<(), NoMemory>
    ensures rest { OnOk result (rest_of work.new.items ≡ expr_heads (expr_view e.now) ++ rest_of work.old.items) }
    ensures weight { OnOk result (weigh work.new.items < weigh work.old.items + expr_size (expr_view e.now)) }
{
    match e {
        Expr::Num(n) => expr_head(work, ExprLabel::Num(*n), 0),
        Expr::Text(units) => expr_head(work, ExprLabel::Text(units.copy(alloc)?), 0),
        Expr::Truth(truth) => expr_head(work, ExprLabel::Truth(*truth), 0),
        Expr::Null => expr_head(work, ExprLabel::Null, 0),
        Expr::Undefined => expr_head(work, ExprLabel::Undefined, 0),
        Expr::This => expr_head(work, ExprLabel::This, 0),
        Expr::Named(name) => expr_head(work, ExprLabel::Named(name.copy(alloc)?), 0),
        Expr::Unary(op, a) => one_part(work, ExprLabel::Unary(*op), a),
        Expr::Binary(op, a, b) => two_parts(work, ExprLabel::Binary(*op), a, b),
        Expr::Logic(op, a, b) => two_parts(work, ExprLabel::Logic(*op), a, b),
        Expr::Choice(test, a, b) => choice(work, test, a, b),
        Expr::SetName(name, value) => one_part(work, ExprLabel::SetName(name.copy(alloc)?), value),
        Expr::SetMember(base, key, value) => set_member(alloc, work, base, key, value),
        Expr::Change(name, op, value) => {
            one_part(work, ExprLabel::Change(name.copy(alloc)?, *op), value)
        }
        Expr::Bump { name, up, before } => {
            let name = name.copy(alloc)?;
            let label = ExprLabel::Bump {
                name,
                up: *up,
                before: *before,
            };
            expr_head(work, label, 0)
        }
        Expr::Member(base, key) => member(alloc, work, base, key),
        Expr::Call(callee, args) => call(work, callee, args),
        Expr::Object(rows) => object(work, rows),
        Expr::Function(f) => function(alloc, work, f),
        Expr::Yield(value) => yield_value(work, value),
        Expr::YieldAll(value) => one_part(work, ExprLabel::YieldAll, value),
        Expr::Await(value) => one_part(work, ExprLabel::Await, value),
        Expr::Form(form, parts) => form_call(work, *form, parts),
    }
}

fn one_part<'a>(work: &mut Vec<Piece<'a>>, label: ExprLabel, a: &'a Expr) -> Result<(), NoMemory>
    ensures rest { OnOk result (rest_of work.new.items ≡ expr_head label 1 ∷ (expr_heads (expr_view a.now) ++ rest_of work.old.items)) }
    ensures weight { OnOk result (weigh work.new.items ≡ weigh work.old.items + 1 + expr_size (expr_view a.now)) }
{
    push(work, Piece::Expr(a))?;
    expr_head(work, label, 1)
}

#[tactic(auto, using(std::proofs::Common::append_assoc))]
fn two_parts<'a>(
    work: &mut Vec<Piece<'a>>,
    label: ExprLabel,
    a: &'a Expr,
    b: &'a Expr,
) -> Result<(), NoMemory>
    ensures rest { OnOk result (rest_of work.new.items ≡ expr_head label 2 ∷ ((expr_heads (expr_view a.now) ++ expr_heads (expr_view b.now)) ++ rest_of work.old.items)) }
    ensures weight { OnOk result (weigh work.new.items ≡ weigh work.old.items + 1 + expr_size (expr_view a.now) + expr_size (expr_view b.now)) }
{
    push(work, Piece::Expr(b))?;
    push(work, Piece::Expr(a))?;
    expr_head(work, label, 2)
}

#[tactic(auto, using(std::proofs::Common::append_assoc))]
fn choice<'a>(
    work: &mut Vec<Piece<'a>>,
    test: &'a Expr,
    a: &'a Expr,
    b: &'a Expr,
) -> Result<(), NoMemory>
    ensures rest { OnOk result (rest_of work.new.items ≡ expr_heads (node.Choice (expr_view test.now) (expr_view a.now) (expr_view b.now)) ++ rest_of work.old.items) }
    ensures weight { OnOk result (weigh work.new.items ≡ weigh work.old.items + 1 + expr_size (expr_view test.now) + expr_size (expr_view a.now) + expr_size (expr_view b.now)) }
{
    push(work, Piece::Expr(b))?;
    push(work, Piece::Expr(a))?;
    push(work, Piece::Expr(test))?;
    expr_head(work, ExprLabel::Choice, 3)
}

#[tactic(auto, using(std::proofs::Common::append_assoc))]
fn set_member<'a>(
    alloc: Global,
    work: &mut Vec<Piece<'a>>,
    base: &'a Expr,
    member: &'a Key,
    value: &'a Expr,
) -> Result<(), NoMemory>
    ensures rest { OnOk result (rest_of work.new.items ≡ expr_heads (node.SetMember (expr_view base.now) (key_view member.now) (expr_view value.now)) ++ rest_of work.old.items) }
    ensures weight { OnOk result (weigh work.new.items ≤ weigh work.old.items + 1 + expr_size (expr_view base.now) + key_size (key_view member.now) + expr_size (expr_view value.now)) }
{
    push(work, Piece::Expr(value))?;
    key(alloc, work, member)?;
    push(work, Piece::Expr(base))?;
    expr_head(work, ExprLabel::SetMember, 3)
}

#[tactic(auto, using(std::proofs::Common::append_assoc))]
fn member<'a>(
    alloc: Global,
    work: &mut Vec<Piece<'a>>,
    base: &'a Expr,
    member: &'a Key,
) -> Result<(), NoMemory>
    ensures rest { OnOk result (rest_of work.new.items ≡ expr_heads (node.Member (expr_view base.now) (key_view member.now)) ++ rest_of work.old.items) }
    ensures weight { OnOk result (weigh work.new.items ≤ weigh work.old.items + 1 + expr_size (expr_view base.now) + key_size (key_view member.now)) }
{
    key(alloc, work, member)?;
    push(work, Piece::Expr(base))?;
    expr_head(work, ExprLabel::Member, 2)
}

#[tactic(auto, using(std::proofs::Common::append_assoc))]
fn call<'a>(work: &mut Vec<Piece<'a>>, callee: &'a Expr, args: &'a [Expr]) -> Result<(), NoMemory>
    ensures rest { OnOk result (rest_of work.new.items ≡ expr_heads (node.Call (expr_view callee.now) (exprs_view args.now)) ++ rest_of work.old.items) }
    ensures weight { OnOk result (weigh work.new.items ≡ weigh work.old.items + 2 + expr_size (expr_view callee.now) + exprs_size (exprs_view args.now)) }
{
    let parts = sum(count_exprs(args), 1)?;
    push(work, Piece::Exprs(args))?;
    push(work, Piece::Expr(callee))?;
    expr_head(work, ExprLabel::Call, parts)
}

fn object<'a>(work: &mut Vec<Piece<'a>>, rows: &'a [Property]) -> Result<(), NoMemory>
    ensures rest { OnOk result (rest_of work.new.items ≡ expr_heads (node.Object (properties_view rows.now)) ++ rest_of work.old.items) }
    ensures weight { OnOk result (weigh work.new.items ≡ weigh work.old.items + 2 + properties_size (properties_view rows.now)) }
{
    let parts = count_properties(rows)?;
    push(work, Piece::Properties(rows))?;
    expr_head(work, ExprLabel::Object, parts)
}

fn function<'a>(
    alloc: Global,
    work: &mut Vec<Piece<'a>>,
    function: &'a Function,
) -> Result<(), NoMemory>
    ensures rest { OnOk result (rest_of work.new.items ≡ expr_heads (node.Function (function_view function.now)) ++ rest_of work.old.items) }
    ensures weight { OnOk result (weigh work.new.items ≤ weigh work.old.items + 1 + code_size (function_view function.now)) }
{
    let count = count_parts(function)?;
    parts(alloc, work, function)?;
    expr_head(work, ExprLabel::Function(label_of(function)), count)
}

fn yield_value<'a>(work: &mut Vec<Piece<'a>>, value: &'a Option<Box<Expr>>) -> Result<(), NoMemory>
    ensures rest { OnOk result (rest_of work.new.items ≡ expr_heads (node.Yield (maybe_expr (option_map (λ b. expr_view b.value) value.now))) ++ rest_of work.old.items) }
    ensures weight { OnOk result (weigh work.new.items ≤ weigh work.old.items + 1 + maybe_size (maybe_expr (option_map (λ b. expr_view b.value) value.now))) }
{
    maybe(work, value)?;
    expr_head(work, ExprLabel::Yield, count_maybe(value))
}

fn form_call<'a>(work: &mut Vec<Piece<'a>>, form: Form, parts: &'a [Expr]) -> Result<(), NoMemory>
    ensures rest { OnOk result (rest_of work.new.items ≡ expr_heads (node.Built form (exprs_view parts.now)) ++ rest_of work.old.items) }
    ensures weight { OnOk result (weigh work.new.items ≡ weigh work.old.items + 2 + exprs_size (exprs_view parts.now)) }
{
    push(work, Piece::Exprs(parts))?;
    expr_head(work, ExprLabel::Form(form), count_exprs(parts))
}
