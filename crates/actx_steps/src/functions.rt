//! Functions that begin, as `function * g`, `async ( a )` and `yield`.

ghost use Rattle.std.specs.Prelude.{◌≡◌, ◌∷◌, ◌&&◌, if◌then◌else◌, IfOk, List, true, false};
ghost use Rattle.actx_grammar.specs.ParserFunctions.{at_async, at_async_start, at_function, at_function_name, at_yield, begins_operand, nameless, yield_operand};
ghost use Rattle.actx_grammar.specs.ParserState.{Frame as Held, fits, here, in_value, refuse};
ghost use Rattle.actx_frames.specs.ParserView.{bounds, move_of, role_view, stack_view};

use super::ends::at_whole;
use super::names::one_param;
use actx_ast::tree::Expr;
use actx_data::{NoMemory, Twin};
use actx_frames::limits::{Rules, begins_statement, fits_below, is_source, takes_whole};
use actx_frames::moves::{go_if, need_if};
use actx_frames::operand::need_on;
use actx_frames::stack::Stack;
use actx_frames::state::{Frame, Head, Mode, Operand, Role, Step};
use actx_frames::word::is_binding;
use actx_grammar::operators::FunctionKind;
use actx_grammar::token::{Keyword, Sign, TokenKind};
use std::alloc::Global;

/// The parameters of a function without a name, which is no declaration.
fn nameless(alloc: Global, role: Role, kind: FunctionKind) -> Step
    ensures { (s : List Held) → nameless (role_view role) kind s ≡ move_of result s }
{
    match role {
        Role::Expression => {
            let head = Head::Function(Role::Expression, kind, None);
            Step::Go(Mode::ParamNext(head, Vec::new(alloc)))
        }
        other => {
            drop(other);
            Step::Refused
        }
    }
}

/// A token where a function's name is wanted.
pub fn at_function_name(
    alloc: Global,
    rules: Rules,
    role: Role,
    kind: FunctionKind,
    token: &TokenKind,
) -> Result<Step, NoMemory>
    ensures { IfOk result (λ r. (s : List Held) → at_function_name rules.side (role_view role) kind s token.now ≡ move_of r s) }
{
    match token {
        TokenKind::Name(name) => {
            let test = is_binding(rules.side, name);
            let head = Head::Function(role, kind, Some(name.copy(alloc)?));
            Ok(go_if(test, Mode::ParamsOpen(head)))
        }
        TokenKind::Sign(Sign::OpenParen) => Ok(nameless(alloc, role, kind)),
        TokenKind::Sign(_) => Ok(Step::Refused),
        TokenKind::Keyword(_) => Ok(Step::Refused),
        TokenKind::Number(_) => Ok(Step::Refused),
        TokenKind::Text(_) => Ok(Step::Refused),
    }
}

/// A token behind `function`.
pub fn at_function(
    alloc: Global,
    rules: Rules,
    role: Role,
    token: &TokenKind,
) -> Result<Step, NoMemory>
    ensures { IfOk result (λ r. (s : List Held) → at_function rules.side (role_view role) s token.now ≡ move_of r s) }
{
    match token {
        TokenKind::Sign(Sign::Star) => {
            let mode = Mode::NameNext(role, FunctionKind::Generator);
            Ok(go_if(is_source(rules.side), mode))
        }
        _ => at_function_name(alloc, rules, role, FunctionKind::Normal, token),
    }
}

/// A token behind `async` on its line.
fn async_line(
    alloc: Global,
    rules: Rules,
    token: &TokenKind,
    stack: &mut Stack,
) -> Result<Step, NoMemory>
    ensures { IfOk result (λ r. at_async rules.side (stack_view stack.old) token.now false ≡ move_of r (stack_view stack.new)) }
{
    match token {
        TokenKind::Keyword(Keyword::Function) => {
            let mode = Mode::NameNext(Role::Expression, FunctionKind::Async);
            Ok(go_if(!begins_statement(stack), mode))
        }
        TokenKind::Sign(Sign::OpenParen) => {
            let head = Head::Arrow(FunctionKind::AsyncArrow);
            let mode = Mode::ParamNext(head, Vec::new(alloc));
            Ok(go_if(takes_whole(stack), mode))
        }
        TokenKind::Name(name) => {
            let test = takes_whole(stack) && is_binding(rules.side, name);
            let params = one_param(alloc, name.copy(alloc)?)?;
            let mode = Mode::ArrowSign(FunctionKind::AsyncArrow, params);
            Ok(go_if(test, mode))
        }
        TokenKind::Keyword(_) => Ok(Step::Refused),
        TokenKind::Sign(_) => Ok(Step::Refused),
        TokenKind::Number(_) => Ok(Step::Refused),
        TokenKind::Text(_) => Ok(Step::Refused),
    }
}

/// A token behind `async` in an expression.
pub fn at_async(
    alloc: Global,
    rules: Rules,
    token: &TokenKind,
    line_before: bool,
    stack: &mut Stack,
) -> Result<Step, NoMemory>
    ensures { IfOk result (λ r. at_async rules.side (stack_view stack.old) token.now line_before ≡ move_of r (stack_view stack.new)) }
{
    if line_before {
        Ok(Step::Refused)
    } else {
        Ok(async_line(alloc, rules, token, stack)?)
    }
}

/// Opens an expression statement, where its expression may be so deep.
fn open_value(rules: Rules, stack: &mut Stack) -> Result<bool, NoMemory>
    ensures { IfOk result (λ b. (fits (bounds rules) (here (in_value ∷ stack_view stack.old)) ≡ b) × (stack_view stack.new ≡ (if b then in_value ∷ stack_view stack.old else stack_view stack.old))) }
{
    if fits_below(rules, stack) {
        stack.push(Frame::Value)?;
        Ok(true)
    } else {
        Ok(false)
    }
}

/// An expression statement begins with `async`.
fn async_value(
    alloc: Global,
    rules: Rules,
    token: &TokenKind,
    line_before: bool,
    stack: &mut Stack,
) -> Result<Step, NoMemory>
    ensures { IfOk result (λ r. (if fits (bounds rules) (here (in_value ∷ stack_view stack.old)) then at_async rules.side (in_value ∷ stack_view stack.old) token.now line_before else refuse) ≡ move_of r (stack_view stack.new)) }
{
    if open_value(rules, stack)? {
        at_async(alloc, rules, token, line_before, stack)
    } else {
        Ok(Step::Refused)
    }
}

/// A token behind `async` where a statement begins.
pub fn at_async_start(
    alloc: Global,
    rules: Rules,
    token: &TokenKind,
    line_before: bool,
    stack: &mut Stack,
) -> Result<Step, NoMemory>
    ensures { IfOk result (λ r. at_async_start (bounds rules) rules.side (stack_view stack.old) token.now line_before ≡ move_of r (stack_view stack.new)) }
{
    match token {
        TokenKind::Keyword(Keyword::Function) => {
            if line_before {
                async_value(alloc, rules, token, line_before, stack)
            } else {
                let _unchanged = stack.here(); // this read tells the proof that the stack stays
                let mode = Mode::NameNext(Role::Declaration, FunctionKind::Async);
                Ok(Step::Go(mode))
            }
        }
        _ => async_value(alloc, rules, token, line_before, stack),
    }
}

/// Whether an operand begins with this word.
fn word_begins(keyword: Keyword) -> bool
    ensures { result ≡ begins_operand (TokenKind.Keyword keyword) }
{
    match keyword {
        Keyword::This => true,
        Keyword::True => true,
        Keyword::False => true,
        Keyword::Null => true,
        Keyword::New => true,
        Keyword::Function => true,
        Keyword::Async => true,
        Keyword::Await => true,
        Keyword::Yield => true,
        Keyword::Typeof => true,
        Keyword::Void => true,
        _ => false,
    }
}

/// Whether an operand begins with this sign.
fn sign_begins(sign: Sign) -> bool
    ensures { result ≡ begins_operand (TokenKind.Sign sign) }
{
    match sign {
        Sign::Not => true,
        Sign::Minus => true,
        Sign::Increment => true,
        Sign::Decrement => true,
        Sign::OpenParen => true,
        Sign::OpenBrace => true,
        _ => false,
    }
}

/// Whether an operand begins so.
fn begins_operand(token: &TokenKind) -> bool
    ensures { result ≡ begins_operand token.now }
{
    match token {
        TokenKind::Name(_) => true,
        TokenKind::Number(_) => true,
        TokenKind::Text(_) => true,
        TokenKind::Keyword(keyword) => word_begins(*keyword),
        TokenKind::Sign(sign) => sign_begins(*sign),
    }
}

/// What is yielded, or what stands behind a `yield` without a value.
fn yield_operand(
    alloc: Global,
    rules: Rules,
    valued: bool,
    token: &TokenKind,
    stack: &mut Stack,
) -> Result<Step, NoMemory>
    ensures { IfOk result (λ r. yield_operand (bounds rules) rules.side valued (stack_view stack.old) token.now ≡ move_of r (stack_view stack.new)) }
{
    if valued {
        need_on(alloc, rules, Frame::Yield, token, stack)
    } else {
        let expr = Box::new(alloc, Expr::Yield(None))?;
        let reach = stack.here();
        at_whole(alloc, Operand { expr, reach }, token, stack)
    }
}

fn yield_other(
    alloc: Global,
    rules: Rules,
    token: &TokenKind,
    line_before: bool,
    stack: &mut Stack,
) -> Result<Step, NoMemory>
    ensures { IfOk result (λ r. yield_operand (bounds rules) rules.side (begins_operand token.now && (if line_before then false else true)) (stack_view stack.old) token.now ≡ move_of r (stack_view stack.new)) }
{
    let valued = begins_operand(token) && !line_before;
    yield_operand(alloc, rules, valued, token, stack)
}

/// A token behind `yield`.
pub fn at_yield(
    alloc: Global,
    rules: Rules,
    token: &TokenKind,
    line_before: bool,
    stack: &mut Stack,
) -> Result<Step, NoMemory>
    ensures { IfOk result (λ r. at_yield (bounds rules) rules.side (stack_view stack.old) token.now line_before ≡ move_of r (stack_view stack.new)) }
{
    match token {
        TokenKind::Sign(Sign::Star) => {
            if line_before {
                yield_other(alloc, rules, token, line_before, stack)
            } else {
                need_if(fits_below(rules, stack), Frame::YieldAll, stack)
            }
        }
        _ => yield_other(alloc, rules, token, line_before, stack),
    }
}
