//! Which forms and functions a side spells: `new WeakMap()` on the plain side alone.

ghost use Rattle.std.specs.Prelude.{◌≡◌, ◌↔◌, None, IsTrue};
ghost use Rattle.actx_grammar.specs.Forms as spec;
ghost use Rattle.actx_grammar.specs.Sides.{IsDeclared, IsShape};

use super::name::Name;
use super::names::is_own_name;
use super::operators::{BinaryOp, Form, FunctionKind};
use super::side::Side;

/// Whether a side spells the form by its words.
pub fn has_words(side: Side, form: Form) -> bool
    ensures { IsTrue result ↔ spec.HasWords side form }
{
    match form {
        Form::Log | Form::NewError(_) | Form::QueueMicrotask => true,
        Form::NewPromise
        | Form::PromiseResolve
        | Form::PromiseReject
        | Form::NewVariable
        | Form::NewSnapshot
        | Form::Wrap
        | Form::HostOn
        | Form::Span
        | Form::CurrentSpan => side == Side::Source,
        Form::NewWeakMap | Form::Freeze | Form::Note | Form::On | Form::Leave => {
            side == Side::Plain
        }
        _ => false,
    }
}

/// Whether a form takes so many parts.
pub fn suits(form: Form, count: usize) -> bool
    ensures { IsTrue result ↔ spec.Suits form count }
{
    match form {
        Form::Log => true,
        Form::PromiseResolve | Form::PromiseReject | Form::NewVariable | Form::NewError(_) => {
            count <= 1
        }
        Form::NewSnapshot | Form::CurrentSpan | Form::NewWeakMap | Form::Leave | Form::NewCell =>
            count == 0,
        Form::NewPromise
        | Form::Wrap
        | Form::QueueMicrotask
        | Form::Freeze
        | Form::Iterate
        | Form::ReadCell
        | Form::Coroutine(_) => count == 1,
        Form::HostOn | Form::Span | Form::On | Form::SetCell => count == 2,
        Form::Note => count == 4,
        Form::CallWith => count >= 1,
    }
}

/// Whether an operator has an assignment of its own, as `+=`.
pub fn changes(op: BinaryOp) -> bool
    ensures { IsTrue result ↔ (spec.change_of op ≡ None → ⊥) }
{
    match op {
        BinaryOp::Add | BinaryOp::Sub | BinaryOp::Mul => true,
        _ => false,
    }
}

/// Whether a declaration may have the kind.
pub fn is_declared(side: Side, kind: FunctionKind) -> bool
    ensures { IsTrue result ↔ IsDeclared side kind }
{
    match kind {
        FunctionKind::Normal => true,
        FunctionKind::Generator | FunctionKind::Async => side == Side::Source,
        FunctionKind::Arrow | FunctionKind::AsyncArrow | FunctionKind::AsyncGenerator => false,
    }
}

/// Whether a function of the kind may be an expression with this name, or without one.
pub fn is_shape(side: Side, kind: FunctionKind, name: &Option<Name>) -> bool
    ensures { IsTrue result ↔ IsShape side kind name.now }
{
    match (kind, name) {
        (FunctionKind::Arrow, None) => true,
        (FunctionKind::AsyncArrow, None) => side == Side::Source,
        (FunctionKind::Arrow | FunctionKind::AsyncArrow, Some(_)) => false,
        _ => is_declared(side, kind) && is_own_name(side, name),
    }
}
