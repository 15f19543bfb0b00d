//! Words behind a dot, as `a.b` and `f.call( 1 )`.

ghost use Rattle.std.specs.Prelude.{◌≡◌, IfOk, List, Some};
ghost use Rattle.actx_grammar.specs.Names.{word_of};
ghost use Rattle.actx_grammar.specs.ParserFunctions.{at_call, member_word};
ghost use Rattle.actx_grammar.specs.ParserState.{Frame as Held};
ghost use Rattle.actx_grammar.specs.Tree.{also, none};
ghost use Rattle.actx_ast.specs.View.{expr_view, exprs_view};
ghost use Rattle.actx_frames.specs.ParserView.{move_of, stack_view};

use actx_ast::tree::{Expr, Key};
use actx_data::NoMemory;
use actx_frames::key::word_of;
use actx_frames::limits::Rules;
use actx_frames::moves::need_in;
use actx_frames::stack::Stack;
use actx_frames::state::{Frame, Mode, Operand, Step};
use actx_frames::word::is_word;
use actx_grammar::name::Name;
use actx_grammar::operators::Form;
use actx_grammar::side::Side;
use actx_grammar::token::{Sign, TokenKind};
use std::alloc::Global;

/// A member by its name, or the function that `.call` calls.
fn named_member(side: Side, operand: Operand, word: Name) -> Step
    ensures { (s : List Held) → member_word side (expr_view operand.expr.value) (Some word) operand.reach s ≡ move_of result s }
{
    let Operand { expr, reach } = operand;
    match side {
        Side::Source => Step::Go(Mode::HaveMember(expr, Key::Dot(word), reach)),
        Side::Plain => {
            if is_word(&word, b"call") {
                Step::Go(Mode::CallOpen(Operand { expr, reach }))
            } else {
                Step::Go(Mode::HaveMember(expr, Key::Dot(word), reach))
            }
        }
    }
}

/// A token where the word behind a dot is wanted.
pub fn at_member_name(
    alloc: Global,
    rules: Rules,
    operand: Operand,
    token: &TokenKind,
) -> Result<Step, NoMemory>
    ensures { IfOk result (λ r. (s : List Held) → member_word rules.side (expr_view operand.expr.value) (word_of token.now) operand.reach s ≡ move_of r s) }
{
    match word_of(alloc, token)? {
        Some(word) => Ok(named_member(rules.side, operand, word)),
        None => Ok(Step::Refused),
    }
}

/// The list of one expression.
fn one_part(alloc: Global, expr: Box<Expr>) -> Result<Vec<Expr>, NoMemory>
    ensures { IfOk result (λ es. exprs_view es.items ≡ also (expr_view expr.value) none) }
{
    let mut parts = Vec::new(alloc);
    parts.push(Box::into_inner(expr))?;
    Ok(parts)
}

/// The parts of `f.call` begin with the function.
fn open_call(alloc: Global, operand: Operand, stack: &mut Stack) -> Result<Step, NoMemory>
    ensures { IfOk result (λ r. at_call (expr_view operand.expr.value) operand.reach (stack_view stack.old) (TokenKind.Sign Sign.OpenParen) ≡ move_of r (stack_view stack.new)) }
{
    let Operand { expr, reach } = operand;
    let parts = one_part(alloc, expr)?;
    need_in(Frame::Form(Form::CallWith, parts, reach), stack)
}

/// A token where the parenthesis behind `.call` is wanted.
pub fn at_call(
    alloc: Global,
    operand: Operand,
    token: &TokenKind,
    stack: &mut Stack,
) -> Result<Step, NoMemory>
    ensures { IfOk result (λ r. at_call (expr_view operand.expr.value) operand.reach (stack_view stack.old) token.now ≡ move_of r (stack_view stack.new)) }
{
    let _unchanged = stack.here(); // this read tells the proof that the stack stays
    match token {
        TokenKind::Sign(Sign::OpenParen) => open_call(alloc, operand, stack),
        TokenKind::Sign(_) => Ok(Step::Refused),
        TokenKind::Name(_) => Ok(Step::Refused),
        TokenKind::Keyword(_) => Ok(Step::Refused),
        TokenKind::Number(_) => Ok(Step::Refused),
        TokenKind::Text(_) => Ok(Step::Refused),
    }
}
