//! Names and what may follow them, as the `a` of `( a ) => a`, which is first read as an expression.

ghost use Rattle.std.specs.Prelude.{◌≡◌, ◌∷◌, [], if◌then◌else◌, IfOk, true, false};
ghost use Rattle.actx_grammar.specs.ParserFunctions.{assign, at_closed, at_first, at_name, at_opened};
ghost use Rattle.actx_grammar.specs.ParserOperands.{at_have, named};
ghost use Rattle.actx_grammar.specs.ParserState.{fits, here, in_paren, refuse};
ghost use Rattle.actx_frames.specs.ParserView.{bounds, frame_view, move_of, stack_view};

use super::behind::at_have;
use actx_ast::tree::Expr;
use actx_data::{NoMemory, Twin};
use actx_frames::limits::{Rules, deeper, fits_below, takes_whole};
use actx_frames::moves::{go_if, need_if};
use actx_frames::operand::need_on;
use actx_frames::stack::Stack;
use actx_frames::state::{Frame, Head, Mode, Operand, Step};
use actx_frames::word::{is_binding, named};
use actx_grammar::name::Name;
use actx_grammar::operators::{BinaryOp, FunctionKind};
use actx_grammar::token::{Sign, TokenKind};
use std::alloc::Global;

/// The list of one name.
pub fn one_param(alloc: Global, name: Name) -> Result<Vec<Name>, NoMemory>
    ensures { IfOk result (λ xs. xs.items ≡ name ∷ []) }
{
    let mut params = Vec::new(alloc);
    params.push(name)?;
    Ok(params)
}

/// A name that is assigned.
fn assign(rules: Rules, frame: Frame, stack: &mut Stack) -> Result<Step, NoMemory>
    ensures { IfOk result (λ r. assign (bounds rules) (frame_view frame) (stack_view stack.old) ≡ move_of r (stack_view stack.new)) }
{
    let test = takes_whole(stack) && fits_below(rules, stack);
    need_if(test, frame, stack)
}

/// The name is an operand.
fn have_named(
    alloc: Global,
    rules: Rules,
    name: &Name,
    token: &TokenKind,
    stack: &mut Stack,
) -> Result<Step, NoMemory>
    ensures { IfOk result (λ r. at_have (bounds rules) (named name.now) (here (stack_view stack.old)) (stack_view stack.old) token.now ≡ move_of r (stack_view stack.new)) }
{
    let expr = named(alloc, name)?;
    let reach = stack.here();
    at_have(alloc, rules, Operand { expr, reach }, token, stack)
}

/// `=>` behind a name: the name is the parameter of an arrow.
fn name_arrow(alloc: Global, rules: Rules, name: Name, stack: &mut Stack) -> Result<Step, NoMemory>
    ensures { IfOk result (λ r. at_name (bounds rules) name (stack_view stack.old) (TokenKind.Sign Sign.Arrow) false ≡ move_of r (stack_view stack.new)) }
{
    let params = one_param(alloc, name)?;
    let mode = Mode::ArrowBody(FunctionKind::Arrow, params);
    Ok(go_if(takes_whole(stack), mode))
}

/// A sign behind a name on its line.
fn name_sign(
    alloc: Global,
    rules: Rules,
    name: Name,
    sign: Sign,
    token: &TokenKind,
    stack: &mut Stack,
) -> Result<Step, NoMemory>
    requires { token.now ≡ TokenKind.Sign sign }
    ensures { IfOk result (λ r. at_name (bounds rules) name (stack_view stack.old) (TokenKind.Sign sign) false ≡ move_of r (stack_view stack.new)) }
{
    match sign {
        Sign::Arrow => name_arrow(alloc, rules, name, stack),
        Sign::Increment => {
            let _unchanged = stack.here(); // this read tells the proof that the stack stays
            let (up, before) = (true, false);
            let expr = Box::new(alloc, Expr::Bump { name, up, before })?;
            Ok(Step::Go(Mode::HaveBump(expr)))
        }
        Sign::Decrement => {
            let _unchanged = stack.here(); // this read tells the proof that the stack stays
            let (up, before) = (false, false);
            let expr = Box::new(alloc, Expr::Bump { name, up, before })?;
            Ok(Step::Go(Mode::HaveBump(expr)))
        }
        Sign::Assign => assign(rules, Frame::SetName(name), stack),
        Sign::AddAssign => assign(rules, Frame::Change(name, BinaryOp::Add), stack),
        Sign::SubAssign => assign(rules, Frame::Change(name, BinaryOp::Sub), stack),
        Sign::MulAssign => assign(rules, Frame::Change(name, BinaryOp::Mul), stack),
        _ => have_named(alloc, rules, &name, token, stack),
    }
}

/// A sign behind a name and a line end.
fn name_sign_below(
    alloc: Global,
    rules: Rules,
    name: Name,
    sign: Sign,
    token: &TokenKind,
    stack: &mut Stack,
) -> Result<Step, NoMemory>
    requires { token.now ≡ TokenKind.Sign sign }
    ensures { IfOk result (λ r. at_name (bounds rules) name (stack_view stack.old) (TokenKind.Sign sign) true ≡ move_of r (stack_view stack.new)) }
{
    match sign {
        Sign::Arrow => Ok(Step::Refused),
        Sign::Increment => Ok(Step::Refused),
        Sign::Decrement => Ok(Step::Refused),
        Sign::Assign => assign(rules, Frame::SetName(name), stack),
        Sign::AddAssign => assign(rules, Frame::Change(name, BinaryOp::Add), stack),
        Sign::SubAssign => assign(rules, Frame::Change(name, BinaryOp::Sub), stack),
        Sign::MulAssign => assign(rules, Frame::Change(name, BinaryOp::Mul), stack),
        _ => have_named(alloc, rules, &name, token, stack),
    }
}

/// A token behind a name, which might be an arrow's parameter.
pub fn at_name(
    alloc: Global,
    rules: Rules,
    name: Name,
    token: &TokenKind,
    line_before: bool,
    stack: &mut Stack,
) -> Result<Step, NoMemory>
    ensures { IfOk result (λ r. at_name (bounds rules) name (stack_view stack.old) token.now line_before ≡ move_of r (stack_view stack.new)) }
{
    match token {
        TokenKind::Sign(sign) => {
            if line_before {
                name_sign_below(alloc, rules, name, *sign, token, stack)
            } else {
                name_sign(alloc, rules, name, *sign, token, stack)
            }
        }
        _ => have_named(alloc, rules, &name, token, stack),
    }
}

/// Opens a parenthesis, where what stands in it may be so deep.
fn open_paren(rules: Rules, stack: &mut Stack) -> Result<bool, NoMemory>
    ensures { IfOk result (λ b. (fits (bounds rules) (here (in_paren ∷ stack_view stack.old)) ≡ b) × (stack_view stack.new ≡ (if b then in_paren ∷ stack_view stack.old else stack_view stack.old))) }
{
    if fits_below(rules, stack) {
        stack.push(Frame::Paren)?;
        Ok(true)
    } else {
        Ok(false)
    }
}

/// A token behind a parenthesis where an operand begins.
pub fn at_opened(
    alloc: Global,
    rules: Rules,
    token: &TokenKind,
    stack: &mut Stack,
) -> Result<Step, NoMemory>
    ensures { IfOk result (λ r. at_opened (bounds rules) rules.side (stack_view stack.old) token.now ≡ move_of r (stack_view stack.new)) }
{
    match token {
        TokenKind::Sign(Sign::CloseParen) => {
            let mode = Mode::ArrowSign(FunctionKind::Arrow, Vec::new(alloc));
            Ok(go_if(takes_whole(stack), mode))
        }
        TokenKind::Name(name) => {
            if is_binding(rules.side, name) {
                let _unchanged = stack.here(); // this read tells the proof that the stack stays
                Ok(Step::Go(Mode::FirstName(name.copy(alloc)?)))
            } else {
                need_on(alloc, rules, Frame::Paren, token, stack)
            }
        }
        _ => need_on(alloc, rules, Frame::Paren, token, stack),
    }
}

/// A token behind a name in an open parenthesis.
pub fn at_first(
    alloc: Global,
    rules: Rules,
    name: Name,
    token: &TokenKind,
    line_before: bool,
    stack: &mut Stack,
) -> Result<Step, NoMemory>
    ensures { IfOk result (λ r. at_first (bounds rules) name (stack_view stack.old) token.now line_before ≡ move_of r (stack_view stack.new)) }
{
    match token {
        TokenKind::Sign(Sign::Comma) => {
            let params = one_param(alloc, name)?;
            let mode = Mode::ParamNext(Head::Arrow(FunctionKind::Arrow), params);
            Ok(go_if(takes_whole(stack), mode))
        }
        TokenKind::Sign(Sign::CloseParen) => {
            let _unchanged = stack.here(); // this read tells the proof that the stack stays
            Ok(Step::Go(Mode::ClosedName(name)))
        }
        _ => {
            if open_paren(rules, stack)? {
                at_name(alloc, rules, name, token, line_before, stack)
            } else {
                Ok(Step::Refused)
            }
        }
    }
}

/// A name in parentheses, which is an operand.
fn closed_operand(
    alloc: Global,
    rules: Rules,
    name: &Name,
    token: &TokenKind,
    stack: &mut Stack,
) -> Result<Step, NoMemory>
    ensures { IfOk result (λ r. (if fits (bounds rules) (here (in_paren ∷ stack_view stack.old)) then at_have (bounds rules) (named name.now) (here (in_paren ∷ stack_view stack.old)) (stack_view stack.old) token.now else refuse) ≡ move_of r (stack_view stack.new)) }
{
    if fits_below(rules, stack) {
        let expr = named(alloc, name)?;
        let reach = deeper(stack.here())?;
        Ok(at_have(alloc, rules, Operand { expr, reach }, token, stack)?)
    } else {
        Ok(Step::Refused)
    }
}

/// A token behind a name in parentheses.
pub fn at_closed(
    alloc: Global,
    rules: Rules,
    name: Name,
    token: &TokenKind,
    line_before: bool,
    stack: &mut Stack,
) -> Result<Step, NoMemory>
    ensures { IfOk result (λ r. at_closed (bounds rules) name (stack_view stack.old) token.now line_before ≡ move_of r (stack_view stack.new)) }
{
    match token {
        TokenKind::Sign(Sign::Arrow) => {
            let params = one_param(alloc, name)?;
            let mode = Mode::ArrowBody(FunctionKind::Arrow, params);
            Ok(go_if(takes_whole(stack) && !line_before, mode))
        }
        _ => closed_operand(alloc, rules, &name, token, stack),
    }
}
