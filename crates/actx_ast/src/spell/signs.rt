//! The signs of operators: `+`, `&&`, `*=`.

ghost use Rattle.std.specs.Prelude.{◌≡◌};
ghost use Rattle.actx_grammar.specs.Forms as forms;
ghost use Rattle.actx_grammar.specs.Spell as spec;

use actx_grammar::operators::{BinaryOp, LogicOp, UnaryOp};
use actx_grammar::token::{Keyword, Sign, TokenKind};

pub(super) fn unary_word(op: UnaryOp) -> TokenKind
    ensures { result ≡ forms.unary_word op }
{
    match op {
        UnaryOp::Not => TokenKind::Sign(Sign::Not),
        UnaryOp::Minus => TokenKind::Sign(Sign::Minus),
        UnaryOp::Typeof => TokenKind::Keyword(Keyword::Typeof),
        UnaryOp::Void => TokenKind::Keyword(Keyword::Void),
    }
}

pub(super) fn sign_of(op: BinaryOp) -> Sign
    ensures { result ≡ forms.sign_of op }
{
    match op {
        BinaryOp::Add => Sign::Plus,
        BinaryOp::Sub => Sign::Minus,
        BinaryOp::Mul => Sign::Star,
        BinaryOp::Same => Sign::Same,
        BinaryOp::NotSame => Sign::NotSame,
        BinaryOp::Less => Sign::Less,
        BinaryOp::LessSame => Sign::LessSame,
        BinaryOp::More => Sign::More,
        BinaryOp::MoreSame => Sign::MoreSame,
    }
}

pub(super) fn logic_sign(op: LogicOp) -> Sign
    ensures { result ≡ spec.logic_sign op }
{
    match op {
        LogicOp::And => Sign::And,
        LogicOp::Or => Sign::Or,
        LogicOp::Coalesce => Sign::Coalesce,
    }
}

/// `=` with its operator; only `+`, `-` and `*` have one.
pub(super) fn change_sign(op: BinaryOp) -> Sign
    ensures { result ≡ spec.change_sign op }
{
    match op {
        BinaryOp::Add => Sign::AddAssign,
        BinaryOp::Sub => Sign::SubAssign,
        BinaryOp::Mul => Sign::MulAssign,
        _ => Sign::Assign,
    }
}

pub(super) fn bump_sign(up: bool) -> Sign
    ensures { result ≡ forms.bump_sign up }
{
    if up { Sign::Increment } else { Sign::Decrement }
}
