//! How tightly operators bind, and where an expression needs parentheses: `a * (b + c)` (ECMA-262, 13).

ghost use Rattle.std.specs.Prelude.{◌≡◌, ◌≤◌};
ghost use Rattle.actx_grammar.specs.Forms as forms;
ghost use Rattle.actx_grammar.specs.Spell as spec;
ghost use Rattle.actx_ast.specs.Starts.{start_of};
ghost use Rattle.actx_ast.specs.View.{expr_view};

use super::tree::Expr;
use actx_grammar::operators::{BinaryOp, FunctionKind, LogicOp};

/// The level of an operator of two operands.
pub fn level_of(op: BinaryOp) -> u8
    ensures value { result ≡ forms.level_of op }
    ensures small { result ≤ 8 }
{
    match op {
        BinaryOp::Same | BinaryOp::NotSame => 5,
        BinaryOp::Less | BinaryOp::LessSame | BinaryOp::More | BinaryOp::MoreSame => 6,
        BinaryOp::Add | BinaryOp::Sub => 7,
        BinaryOp::Mul => 8,
    }
}

/// The level of `&&`, `||` and `??`.
pub fn logic_level(op: LogicOp) -> u8
    ensures { result ≡ spec.logic_level op }
{
    match op {
        LogicOp::And => 4,
        LogicOp::Or | LogicOp::Coalesce => 3,
    }
}

/// The level of their left operand, which may be a chain of the same operator.
pub fn left_level(op: LogicOp, left: &Expr) -> u8
    ensures { result ≡ spec.left_level op (expr_view left.now) }
{
    match op {
        LogicOp::And => 4,
        LogicOp::Or => or_level(left),
        LogicOp::Coalesce => coalesce_level(left),
    }
}

fn or_level(left: &Expr) -> u8
    ensures { result ≡ spec.left_level LogicOp.Or (expr_view left.now) }
{
    match left {
        Expr::Logic(LogicOp::Or, _, _) => 3,
        _ => 4,
    }
}

fn coalesce_level(left: &Expr) -> u8
    ensures { result ≡ spec.left_level LogicOp.Coalesce (expr_view left.now) }
{
    match left {
        Expr::Logic(LogicOp::Coalesce, _, _) => 3,
        _ => 5,
    }
}

/// The level of their right operand.
pub fn right_level(op: LogicOp) -> u8
    ensures { result ≡ spec.right_level op }
{
    match op {
        LogicOp::And | LogicOp::Coalesce => 5,
        LogicOp::Or => 4,
    }
}

/// Whether a statement begins inside an expression too: parentheses stand between them.
pub fn inside(wrapped: bool, first: bool) -> bool
    ensures { start_of result ≡ spec.within wrapped (start_of first) }
{
    if wrapped { false } else { first }
}

/// Whether a function needs parentheses.
pub fn is_wrapped(kind: FunctionKind, first: bool, level: u8) -> bool
    ensures { result ≡ spec.wrapped kind (start_of first) level }
{
    match kind {
        FunctionKind::Arrow | FunctionKind::AsyncArrow => 1 < level,
        _ => first,
    }
}
