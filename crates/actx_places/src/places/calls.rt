//! Calls and built-in forms along a walk: `f ( a , b )`.

ghost use Rattle.std.specs.Prelude.{◌≡◌, ◌≤◌, ◌<◌, ◌+◌, OnOk, length};
ghost use Rattle.actx_grammar.specs.Forms.{form_words};
ghost use Rattle.actx_ast.specs.Sizes.{expr_size, exprs_size};
ghost use Rattle.actx_grammar.specs.Tree as node;
ghost use Rattle.actx_ast.specs.View.{expr_view, exprs_view};
ghost use Rattle.actx_places.specs.Walk as spec;
ghost use Rattle.actx_places.specs.WalkWork.{acts, weigh};

use super::exprs::left;
use super::walk::Walk;
use super::{Item, Manner, push};
use actx_ast::tree::Expr;
use actx_data::NoMemory;
use actx_grammar::operators::Form;

/// A call, with so many tokens between callee and arguments.
#[tactic(auto, using(crate::proofs::WalkPieces::acts_last))]
pub(super) fn call<'a>(
    walk: &mut Walk<'a>,
    work: &mut Vec<Item<'a>>,
    callee: &'a Expr,
    count: usize,
    args: &'a [Expr],
) -> Result<(), NoMemory>
    ensures walk { OnOk result (acts work.new.items walk.new ≡ acts work.old.items (spec.close (spec.arguments (exprs_view args.now) (spec.pass count (spec.settle (length (spec.places walk.old)) (spec.spine (expr_view callee.now) (spec.later walk.old))))))) }
    ensures weight { OnOk result (weigh work.new.items ≤ weigh work.old.items + 10 + expr_size (expr_view callee.now) + exprs_size (exprs_view args.now)) }
{
    push(work, Item::Close)?;
    push_arguments(work, args)?;
    push(work, Item::Pass(count))?;
    left(walk, work, callee)
}

/// Arguments in parentheses are walked over next.
#[tactic(auto, using(crate::proofs::WalkPieces::acts_last))]
fn push_arguments<'a>(work: &mut Vec<Item<'a>>, args: &'a [Expr]) -> Result<(), NoMemory>
    ensures walk { OnOk result ((w : spec.Walk) → acts work.new.items w ≡ acts work.old.items (spec.arguments (exprs_view args.now) w)) }
    ensures weight { OnOk result (weigh work.new.items ≤ weigh work.old.items + 6 + exprs_size (exprs_view args.now)) }
{
    push(work, Item::Step)?;
    push(work, Item::Comma)?;
    push_exprs(work, args)?;
    push(work, Item::Step)
}

fn push_exprs<'a>(work: &mut Vec<Item<'a>>, es: &'a [Expr]) -> Result<(), NoMemory>
    ensures walk { OnOk result ((w : spec.Walk) → acts work.new.items w ≡ acts work.old.items (spec.exprs (exprs_view es.now) w)) }
    ensures weight { OnOk result (weigh work.new.items ≤ weigh work.old.items + exprs_size (exprs_view es.now)) }
{
    match es {
        [] => Ok(()),
        [first, rest @ ..] => push_some(work, first, rest),
    }
}

#[tactic(auto, using(crate::proofs::WalkPieces::acts_last))]
fn push_some<'a>(
    work: &mut Vec<Item<'a>>,
    first: &'a Expr,
    rest: &'a [Expr],
) -> Result<(), NoMemory>
    ensures walk { OnOk result ((w : spec.Walk) → acts work.new.items w ≡ acts work.old.items (spec.more_exprs (exprs_view rest.now) (spec.expr (expr_view first.now) w))) }
    ensures weight { OnOk result (weigh work.new.items ≡ weigh work.old.items + 3 + expr_size (expr_view first.now) + exprs_size (exprs_view rest.now)) }
{
    push(work, Item::Exprs(rest))?;
    push(work, Item::Expr(Manner::Whole, first))
}

/// A built-in form with its parts.
#[tactic(auto, using(crate::proofs::WalkForms::built_call, crate::proofs::WalkForms::other_form))]
pub(super) fn form_call<'a>(
    walk: &mut Walk<'a>,
    work: &mut Vec<Item<'a>>,
    form: Form,
    parts: &'a [Expr],
) -> Result<(), NoMemory>
    ensures walk { OnOk result (acts work.new.items walk.new ≡ acts work.old.items (spec.spine (node.Built form (exprs_view parts.now)) walk.old)) }
    ensures weight { OnOk result (weigh work.new.items < weigh work.old.items + 24 + exprs_size (exprs_view parts.now)) }
{
    if form == Form::CallWith {
        call_with(walk, work, parts)
    } else {
        words(walk, work, form, parts)
    }
}

/// How many words a form has.
fn word_count(form: Form) -> usize
    ensures { result ≡ length (form_words form) }
{
    match form {
        Form::QueueMicrotask => 1,
        Form::NewPromise | Form::NewWeakMap | Form::NewError(_) => 2,
        Form::Log
        | Form::PromiseResolve
        | Form::PromiseReject
        | Form::HostOn
        | Form::Span
        | Form::CurrentSpan
        | Form::Freeze
        | Form::Note
        | Form::On
        | Form::Leave => 3,
        Form::NewVariable | Form::NewSnapshot => 4,
        Form::Wrap => 5,
        Form::CallWith
        | Form::Iterate
        | Form::NewCell
        | Form::ReadCell
        | Form::SetCell
        | Form::Coroutine(_) => 0,
    }
}

/// `f . call ( .. )`
fn call_with<'a>(
    walk: &mut Walk<'a>,
    work: &mut Vec<Item<'a>>,
    parts: &'a [Expr],
) -> Result<(), NoMemory>
    ensures walk { OnOk result (acts work.new.items walk.new ≡ acts work.old.items (spec.call_with (exprs_view parts.now) walk.old)) }
    ensures weight { OnOk result (weigh work.new.items < weigh work.old.items + 24 + exprs_size (exprs_view parts.now)) }
{
    match parts {
        [] => words(walk, work, Form::CallWith, parts),
        [callee, rest @ ..] => call(walk, work, callee, 2, rest),
    }
}

/// A form that is spelled by its words.
#[tactic(auto, using(crate::proofs::WalkPieces::acts_last))]
fn words<'a>(
    walk: &mut Walk<'a>,
    work: &mut Vec<Item<'a>>,
    form: Form,
    parts: &'a [Expr],
) -> Result<(), NoMemory>
    ensures walk { OnOk result (acts work.new.items walk.new ≡ acts work.old.items (spec.close (spec.arguments (exprs_view parts.now) (spec.pass (length (form_words form)) (spec.own walk.old))))) }
    ensures weight { OnOk result (weigh work.new.items ≤ weigh work.old.items + 7 + exprs_size (exprs_view parts.now)) }
{
    walk.own()?;
    walk.pass(word_count(form));
    push(work, Item::Close)?;
    push_arguments(work, parts)
}
