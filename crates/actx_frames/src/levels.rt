//! How tightly operators bind, as `*` binds tighter than `+`.

ghost use Rattle.std.specs.Prelude.{◌≡◌};
ghost use Rattle.actx_grammar.specs.Forms.{level_of};
ghost use Rattle.actx_grammar.specs.ParserOperands.{tighter};
ghost use Rattle.actx_grammar.specs.ParserState.{logic_level};

use actx_grammar::operators::{BinaryOp, LogicOp};

/// The level of an operator: 5 for equality, 6 for order, 7 for sums, 8 for products.
pub fn level_of(op: BinaryOp) -> u8
    ensures { result ≡ level_of op }
{
    match op {
        BinaryOp::Same => 5,
        BinaryOp::NotSame => 5,
        BinaryOp::Less => 6,
        BinaryOp::LessSame => 6,
        BinaryOp::More => 6,
        BinaryOp::MoreSame => 6,
        BinaryOp::Add => 7,
        BinaryOp::Sub => 7,
        BinaryOp::Mul => 8,
    }
}

/// The level of `&&`, `||` and `??`.
pub fn logic_level(op: LogicOp) -> u8
    ensures { result ≡ logic_level op }
{
    match op {
        LogicOp::And => 4,
        LogicOp::Or => 3,
        LogicOp::Coalesce => 3,
    }
}

/// The level of what is no such form on the left of an operator.
pub fn tighter(op: LogicOp) -> u8
    ensures { result ≡ tighter op }
{
    match op {
        LogicOp::And => 4,
        LogicOp::Or => 4,
        LogicOp::Coalesce => 5,
    }
}
