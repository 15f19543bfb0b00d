//! Where an operand is wanted, as behind `const a =`.

ghost use Rattle.std.specs.Prelude.{◌≡◌, ◌∷◌, IfOk, List};
ghost use Rattle.actx_grammar.specs.Grammar.{count};
ghost use Rattle.actx_grammar.specs.ParserOperands.{at_bump_name, at_need, begin_operand, close_arguments, key_operand, operand, prefix, suits};
ghost use Rattle.actx_grammar.specs.ParserState.{Frame as Held, go_if, have};
ghost use Rattle.actx_grammar.specs.Tree.{Built};
ghost use Rattle.actx_ast.specs.View.{expr_view, exprs_view};
ghost use Rattle.actx_frames.specs.ParserView.{bounds, frame_view, move_of, stack_view};

use super::forms::{first_word, suits};
use super::limits::{Rules, begins_statement, fits, fits_below, has_room, is_source, takes_whole};
use super::lists::count;
use super::moves::{go_if, have, have_new, need_if};
use super::nodes::call;
use super::stack::Stack;
use super::state::{Frame, Mode, Operand, Role, Step};
use super::word::{is_binding, is_built_in};
use actx_ast::tree::Expr;
use actx_data::{NoMemory, Twin, Units};
use actx_grammar::name::Name;
use actx_grammar::operators::{Form, UnaryOp};
use actx_grammar::token::{Keyword, Sign, TokenKind};
use std::alloc::Global;

/// An operator before its operand.
fn prefix(rules: Rules, op: UnaryOp, stack: &mut Stack) -> Result<Step, NoMemory>
    ensures { IfOk result (λ r. prefix (bounds rules) op (stack_view stack.old) ≡ move_of r (stack_view stack.new)) }
{
    need_if(fits_below(rules, stack), Frame::Unary(op), stack)
}

/// A number.
fn number_operand(alloc: Global, rules: Rules, n: u64, stack: &mut Stack) -> Result<Step, NoMemory>
    ensures { IfOk result (λ r. operand (bounds rules) rules.side (stack_view stack.old) (TokenKind.Number n) ≡ move_of r (stack_view stack.new)) }
{
    let reach = stack.here();
    have_new(alloc, Expr::Num(n), reach)
}

/// A text.
fn text_operand(
    alloc: Global,
    rules: Rules,
    units: &Units,
    stack: &mut Stack,
) -> Result<Step, NoMemory>
    ensures { IfOk result (λ r. operand (bounds rules) rules.side (stack_view stack.old) (TokenKind.Text units.now) ≡ move_of r (stack_view stack.new)) }
{
    let reach = stack.here();
    let units = units.copy(alloc)?;
    have_new(alloc, Expr::Text(units), reach)
}

/// A name, which is a reference or begins a form.
fn name_operand(
    alloc: Global,
    rules: Rules,
    name: &Name,
    token: &TokenKind,
    stack: &mut Stack,
) -> Result<Step, NoMemory>
    requires { token.now ≡ TokenKind.Name name.now }
    ensures { IfOk result (λ r. operand (bounds rules) rules.side (stack_view stack.old) (TokenKind.Name name.now) ≡ move_of r (stack_view stack.new)) }
{
    if is_built_in(rules.side, name) {
        Ok(first_word(alloc, rules, token, stack)?)
    } else {
        let _unchanged = stack.here(); // this read tells the proof that the stack stays
        Ok(Step::Go(Mode::HaveName(name.copy(alloc)?)))
    }
}

/// A reserved word.
fn key_operand(
    alloc: Global,
    rules: Rules,
    keyword: Keyword,
    stack: &mut Stack,
) -> Result<Step, NoMemory>
    ensures { IfOk result (λ r. key_operand (bounds rules) rules.side (stack_view stack.old) keyword ≡ move_of r (stack_view stack.new)) }
{
    match keyword {
        Keyword::This => Ok(have_new(alloc, Expr::This, stack.here())?),
        Keyword::True => Ok(have_new(alloc, Expr::Truth(true), stack.here())?),
        Keyword::False => Ok(have_new(alloc, Expr::Truth(false), stack.here())?),
        Keyword::Null => Ok(have_new(alloc, Expr::Null, stack.here())?),
        Keyword::New => first_word(alloc, rules, &TokenKind::Keyword(Keyword::New), stack),
        Keyword::Function => {
            let mode = Mode::FunctionNext(Role::Expression);
            Ok(go_if(!begins_statement(stack), mode))
        }
        Keyword::Async => {
            let _unchanged = stack.here(); // this read tells the proof that the stack stays
            Ok(go_if(is_source(rules.side), Mode::AsyncNext))
        }
        Keyword::Await => {
            let test = is_source(rules.side) && fits_below(rules, stack);
            need_if(test, Frame::Await, stack)
        }
        Keyword::Yield => {
            let test = is_source(rules.side) && takes_whole(stack);
            let _unchanged = stack.here(); // this read tells the proof that the stack stays
            Ok(go_if(test, Mode::YieldNext))
        }
        Keyword::Typeof => prefix(rules, UnaryOp::Typeof, stack),
        Keyword::Void => prefix(rules, UnaryOp::Void, stack),
        _ => {
            let _unchanged = stack.here(); // this read tells the proof that the stack stays
            Ok(Step::Refused)
        }
    }
}

/// A sign.
fn sign_operand(
    alloc: Global,
    rules: Rules,
    sign: Sign,
    stack: &mut Stack,
) -> Result<Step, NoMemory>
    ensures { IfOk result (λ r. operand (bounds rules) rules.side (stack_view stack.old) (TokenKind.Sign sign) ≡ move_of r (stack_view stack.new)) }
{
    match sign {
        Sign::Not => prefix(rules, UnaryOp::Not, stack),
        Sign::Minus => prefix(rules, UnaryOp::Minus, stack),
        Sign::Increment => {
            let _unchanged = stack.here(); // this read tells the proof that the stack stays
            Ok(Step::Go(Mode::BumpName(true)))
        }
        Sign::Decrement => {
            let _unchanged = stack.here(); // this read tells the proof that the stack stays
            Ok(Step::Go(Mode::BumpName(false)))
        }
        Sign::OpenParen => {
            let test = takes_whole(stack) || fits_below(rules, stack);
            let _unchanged = stack.here(); // this read tells the proof that the stack stays
            Ok(go_if(test, Mode::Opened))
        }
        Sign::OpenBrace => {
            let mode = Mode::KeyNext(Vec::new(alloc), stack.here());
            Ok(go_if(!begins_statement(stack), mode))
        }
        _ => {
            let _unchanged = stack.here(); // this read tells the proof that the stack stays
            Ok(Step::Refused)
        }
    }
}

/// The first token of an operand.
fn operand(
    alloc: Global,
    rules: Rules,
    token: &TokenKind,
    stack: &mut Stack,
) -> Result<Step, NoMemory>
    ensures { IfOk result (λ r. operand (bounds rules) rules.side (stack_view stack.old) token.now ≡ move_of r (stack_view stack.new)) }
{
    match token {
        TokenKind::Number(n) => Ok(number_operand(alloc, rules, *n, stack)?),
        TokenKind::Text(units) => Ok(text_operand(alloc, rules, units, stack)?),
        TokenKind::Name(name) => name_operand(alloc, rules, name, token, stack),
        TokenKind::Keyword(keyword) => key_operand(alloc, rules, *keyword, stack),
        TokenKind::Sign(sign) => sign_operand(alloc, rules, *sign, stack),
    }
}

/// A form with these parts, where it takes so many.
pub fn close_form(
    alloc: Global,
    form: Form,
    parts: Vec<Expr>,
    reach: usize,
) -> Result<Step, NoMemory>
    ensures { IfOk result (λ r. (s : List Held) → go_if (suits form (count (exprs_view parts.items))) (have (Built form (exprs_view parts.items)) reach) s ≡ move_of r s) }
{
    let fitting = suits(form, count(&parts));
    let expr = Box::new(alloc, Expr::Form(form, parts))?;
    Ok(go_if(fitting, Mode::Have(Operand { expr, reach })))
}

/// No further argument stands on a frame before the closing parenthesis.
fn close_arguments_on(alloc: Global, frame: Frame) -> Result<Step, NoMemory>
    ensures { IfOk result (λ r. (s : List Held) → close_arguments (frame_view frame ∷ s) ≡ move_of r s) }
{
    match frame {
        Frame::Call(callee, args, reach) => Ok(have(call(alloc, callee, args)?, reach)),
        Frame::Form(form, parts, reach) => Ok(close_form(alloc, form, parts, reach)?),
        other => {
            drop(other);
            Ok(Step::Refused)
        }
    }
}

/// No further argument stands before the closing parenthesis.
fn close_arguments(alloc: Global, stack: &mut Stack) -> Result<Step, NoMemory>
    ensures { IfOk result (λ r. close_arguments (stack_view stack.old) ≡ move_of r (stack_view stack.new)) }
{
    match stack.pop() {
        Some(frame) => Ok(close_arguments_on(alloc, frame)?),
        None => Ok(Step::Refused),
    }
}

/// A token where an operand begins.
fn begin_operand(
    alloc: Global,
    rules: Rules,
    token: &TokenKind,
    stack: &mut Stack,
) -> Result<Step, NoMemory>
    ensures { IfOk result (λ r. begin_operand (bounds rules) rules.side (stack_view stack.old) token.now ≡ move_of r (stack_view stack.new)) }
{
    if fits(rules, stack.here()) && has_room(rules, stack) {
        Ok(operand(alloc, rules, token, stack)?)
    } else {
        Ok(Step::Refused)
    }
}

/// A token where an operand is wanted.
pub fn at_need(
    alloc: Global,
    rules: Rules,
    token: &TokenKind,
    stack: &mut Stack,
) -> Result<Step, NoMemory>
    ensures { IfOk result (λ r. at_need (bounds rules) rules.side (stack_view stack.old) token.now ≡ move_of r (stack_view stack.new)) }
{
    match token {
        TokenKind::Sign(Sign::CloseParen) => close_arguments(alloc, stack),
        _ => begin_operand(alloc, rules, token, stack),
    }
}

/// A token where an operand is wanted on one more frame.
pub fn need_on(
    alloc: Global,
    rules: Rules,
    frame: Frame,
    token: &TokenKind,
    stack: &mut Stack,
) -> Result<Step, NoMemory>
    ensures { IfOk result (λ r. at_need (bounds rules) rules.side (frame_view frame ∷ stack_view stack.old) token.now ≡ move_of r (stack_view stack.new)) }
{
    stack.push(frame)?;
    at_need(alloc, rules, token, stack)
}

/// A token behind `++` or `--`: the name that is changed.
pub fn at_bump_name(
    alloc: Global,
    rules: Rules,
    up: bool,
    token: &TokenKind,
) -> Result<Step, NoMemory>
    ensures { IfOk result (λ r. (s : List Held) → at_bump_name rules.side up s token.now ≡ move_of r s) }
{
    match token {
        TokenKind::Name(name) => {
            let fitting = is_binding(rules.side, name);
            let name = name.copy(alloc)?;
            let before = true;
            let expr = Box::new(alloc, Expr::Bump { name, up, before })?;
            Ok(go_if(fitting, Mode::HaveBump(expr)))
        }
        TokenKind::Keyword(_) => Ok(Step::Refused),
        TokenKind::Number(_) => Ok(Step::Refused),
        TokenKind::Text(_) => Ok(Step::Refused),
        TokenKind::Sign(_) => Ok(Step::Refused),
    }
}
