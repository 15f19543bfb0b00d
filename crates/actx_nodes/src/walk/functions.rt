//! Functions: the own name, the parameters, the body.

ghost use Rattle.std.specs.Prelude.{◌≡◌, ◌≤◌, ◌<◌, ◌+◌, ◌++◌, IfOk, OnOk};
ghost use Rattle.actx_ast.specs.Sizes.{code_size};
ghost use Rattle.actx_ast.specs.View.{function_view};
ghost use Rattle.actx_nodes.specs.Heads.{code_heads, function_count, function_label, is_some, name_heads};
ghost use Rattle.actx_nodes.specs.Walk.{rest_of, weigh};

use super::counts::{count_stmts, one, sum};
use super::{Piece, push, push_head};
use crate::label::{FunctionLabel, Label};
use actx_ast::tree::Function;
use actx_data::{NoMemory, Twin};
use actx_grammar::name::Name;
use std::alloc::Global;

/// Whether there is a name.
pub(super) fn is_named(name: &Option<Name>) -> bool
    ensures { result ≡ is_some name.now }
{
    match name {
        Some(_) => true,
        None => false,
    }
}

/// A name that may be absent.
pub(super) fn own_name<'a>(
    alloc: Global,
    work: &mut Vec<Piece<'a>>,
    name: &'a Option<Name>,
) -> Result<(), NoMemory>
    ensures rest { OnOk result (rest_of work.new.items ≡ name_heads name.now ++ rest_of work.old.items) }
    ensures weight { OnOk result (weigh work.new.items ≤ weigh work.old.items + 1) }
{
    match name {
        Some(name) => push_head(work, Label::Name(name.copy(alloc)?), 0),
        None => Ok(()),
    }
}

pub(super) fn label_of(function: &Function) -> FunctionLabel
    ensures { result ≡ function_label (function_view function.now) }
{
    FunctionLabel {
        kind: function.kind,
        named: is_named(&function.name),
        params: function.params.len(),
    }
}

/// How many parts a function has.
pub(super) fn count_parts(function: &Function) -> Result<usize, NoMemory>
    ensures { IfOk result (λ n. n ≡ function_count (function_view function.now)) }
{
    let body = count_stmts(&function.body);
    sum(
        one(is_named(&function.name)),
        sum(function.params.len(), body)?,
    )
}

/// What stands in a function.
#[tactic(auto, using(std::proofs::Common::append_assoc))]
pub(super) fn parts<'a>(
    alloc: Global,
    work: &mut Vec<Piece<'a>>,
    function: &'a Function,
) -> Result<(), NoMemory>
    ensures rest { OnOk result (rest_of work.new.items ≡ code_heads (function_view function.now) ++ rest_of work.old.items) }
    ensures weight { OnOk result (weigh work.new.items < weigh work.old.items + code_size (function_view function.now)) }
{
    push(work, Piece::Stmts(function.body.as_slice()))?;
    push(work, Piece::Names(function.params.as_slice()))?;
    own_name(alloc, work, &function.name)
}
