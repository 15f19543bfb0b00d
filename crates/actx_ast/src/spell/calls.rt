//! Calls, objects and functions that are spelled next: `f ( 1 )`, `{ "a" : 1 }`, `function ( ) { }`.

ghost use Rattle.std.specs.Prelude.{◌≡◌, ◌≤◌, ◌+◌, ◌++◌, OnOk};
ghost use Rattle.actx_grammar.specs.Forms as forms;
ghost use Rattle.actx_ast.specs.Sizes.{code_size, expr_size, exprs_size, properties_size, stmts_size};
ghost use Rattle.actx_grammar.specs.Spell as spec;
ghost use Rattle.actx_ast.specs.Starts.{start_of};
ghost use Rattle.actx_grammar.specs.Tree as node;
ghost use Rattle.actx_ast.specs.Unspelled.{bare, rest_of, weigh};
ghost use Rattle.actx_ast.specs.View.{expr_view, exprs_view, function_view, properties_view, stmts_view};

use super::lists::{arguments, list_properties};
use super::put::word;
use super::{Work, mark, push, sign};
use crate::tree::{Expr, Function, Property, Stmt};
use actx_data::NoMemory;
use actx_grammar::operators::Form;
use actx_grammar::token::Sign;
use std::alloc::Global;

/// `callee ( args )`
#[tactic(auto, using(std::proofs::Common::append_assoc))]
pub(super) fn call<'a>(
    work: &mut Vec<Work<'a>>,
    first: bool,
    callee: &'a Expr,
    args: &'a [Expr],
) -> Result<(), NoMemory>
    ensures rest { OnOk result (rest_of work.new.items ≡ (spec.spell (start_of first) (expr_view callee.now) 11 ++ spec.round (spec.spell_list (exprs_view args.now))) ++ rest_of work.old.items) }
    ensures weight { OnOk result (weigh work.new.items ≤ weigh work.old.items + 6 + expr_size (expr_view callee.now) + exprs_size (exprs_view args.now)) }
{
    arguments(work, args)?;
    push(work, Work::Tree(callee, first, 11))
}

/// `{ key : value }`
#[tactic(auto, using(std::proofs::Common::append_assoc))]
pub(super) fn object<'a>(
    alloc: Global,
    work: &mut Vec<Work<'a>>,
    properties: &'a [Property],
) -> Result<(), NoMemory>
    ensures rest { OnOk result (rest_of work.new.items ≡ spec.braced (spec.spell_properties (properties_view properties.now)) ++ rest_of work.old.items) }
    ensures weight { OnOk result (weigh work.new.items ≤ weigh work.old.items + 3 + properties_size (properties_view properties.now)) }
{
    sign(work, Sign::CloseBrace)?;
    list_properties(alloc, work, properties)?;
    sign(work, Sign::OpenBrace)
}

/// A function without parentheses round it.
#[tactic(auto, using(std::proofs::Common::append_assoc))]
pub(super) fn function<'a>(work: &mut Vec<Work<'a>>, function: &'a Function) -> Result<(), NoMemory>
    ensures rest { OnOk result (rest_of work.new.items ≡ spec.spell_stmt (node.Fun (function_view function.now)) ++ rest_of work.old.items) }
    ensures weight { OnOk result (weigh work.new.items ≤ weigh work.old.items + code_size (function_view function.now)) }
{
    block(work, function.body.as_slice())?;
    push(work, Work::Head(function))
}

/// `{ statements }`
#[tactic(auto, using(std::proofs::Common::append_assoc))]
pub(super) fn block<'a>(work: &mut Vec<Work<'a>>, body: &'a [Stmt]) -> Result<(), NoMemory>
    ensures rest { OnOk result (rest_of work.new.items ≡ spec.braced (spec.spell_program (stmts_view body.now)) ++ rest_of work.old.items) }
    ensures weight { OnOk result (weigh work.new.items ≡ weigh work.old.items + 3 + stmts_size (stmts_view body.now)) }
{
    sign(work, Sign::CloseBrace)?;
    push(work, Work::Statements(body))?;
    sign(work, Sign::OpenBrace)
}

/// A form with its parts.
pub(super) fn form_call<'a>(
    alloc: Global,
    work: &mut Vec<Work<'a>>,
    first: bool,
    form: Form,
    parts: &'a [Expr],
) -> Result<(), NoMemory>
    ensures rest { OnOk result (rest_of work.new.items ≡ bare (start_of first) (node.Built form (exprs_view parts.now)) ++ rest_of work.old.items) }
    ensures weight { OnOk result (weigh work.new.items ≤ weigh work.old.items + 9 + exprs_size (exprs_view parts.now)) }
{
    match form {
        Form::CallWith => call_with(alloc, work, first, parts),
        _ => worded(work, form, parts),
    }
}

/// The words of a form, and its parts in parentheses.
#[tactic(auto, using(std::proofs::Common::append_assoc))]
fn worded<'a>(work: &mut Vec<Work<'a>>, form: Form, parts: &'a [Expr]) -> Result<(), NoMemory>
    ensures rest { OnOk result (rest_of work.new.items ≡ (forms.form_words form ++ spec.round (spec.spell_list (exprs_view parts.now))) ++ rest_of work.old.items) }
    ensures weight { OnOk result (weigh work.new.items ≤ weigh work.old.items + 4 + exprs_size (exprs_view parts.now)) }
{
    arguments(work, parts)?;
    push(work, Work::Words(form))
}

/// `callee . call ( args )`: its first part stands before the others.
#[tactic(auto, using(std::proofs::Common::append_assoc))]
fn call_with<'a>(
    alloc: Global,
    work: &mut Vec<Work<'a>>,
    first: bool,
    parts: &'a [Expr],
) -> Result<(), NoMemory>
    ensures rest { OnOk result (rest_of work.new.items ≡ bare (start_of first) (node.Built Form.CallWith (exprs_view parts.now)) ++ rest_of work.old.items) }
    ensures weight { OnOk result (weigh work.new.items ≤ weigh work.old.items + 9 + exprs_size (exprs_view parts.now)) }
{
    match parts {
        [] => worded(work, Form::CallWith, parts),
        [callee, rest @ ..] => {
            arguments(work, rest)?;
            mark(work, word(alloc, b"call")?)?;
            sign(work, Sign::Dot)?;
            push(work, Work::Tree(callee, first, 11))
        }
    }
}
