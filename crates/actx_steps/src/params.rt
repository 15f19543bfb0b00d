//! Parameters and what stands before a function's body, as the sign `=>` of an arrow.

ghost use Rattle.std.specs.Prelude.{◌≡◌, IfOk, List, true, false};
ghost use Rattle.actx_grammar.specs.ParserFunctions.{at_arrow_body, at_arrow_sign, at_body_open, at_param, at_params_open, behind_param, close_params, function_depth};
ghost use Rattle.actx_grammar.specs.ParserState.{Frame as Held, function_head};
ghost use Rattle.actx_frames.specs.ParserView.{bounds, head_view, move_of, role_view, stack_view};

use actx_data::{NoMemory, Twin};
use actx_frames::limits::{Rules, deeper, takes_more};
use actx_frames::moves::{go_if, open_list};
use actx_frames::operand::need_on;
use actx_frames::stack::Stack;
use actx_frames::state::{Frame, Head, ListOwner, Mode, Role, Step};
use actx_frames::word::is_binding;
use actx_grammar::name::Name;
use actx_grammar::operators::FunctionKind;
use actx_grammar::token::{Sign, TokenKind};
use std::alloc::Global;
use std::cmp::max;

/// The list of parameters ends.
fn close_params(head: Head, params: Vec<Name>) -> Step
    ensures { (s : List Held) → close_params (head_view head) params.items s ≡ move_of result s }
{
    match head {
        Head::Arrow(kind) => Step::Go(Mode::ArrowSign(kind, params)),
        Head::Function(role, kind, name) => {
            let head = Head::Function(role, kind, name);
            Step::Go(Mode::BodyOpen(head, params))
        }
    }
}

/// One more parameter.
fn add_param(rules: Rules, head: Head, params: Vec<Name>, name: Name) -> Result<Step, NoMemory>
    ensures { IfOk result (λ r. (s : List Held) → at_param (bounds rules) rules.side (head_view head) params.items s (TokenKind.Name name) ≡ move_of r s) }
{
    let mut params = params;
    let test = is_binding(rules.side, &name) && takes_more(rules, params.len());
    params.push(name)?;
    Ok(go_if(test, Mode::ParamBehind(head, params)))
}

/// A parameter, or the end of the list.
pub fn at_param(
    alloc: Global,
    rules: Rules,
    head: Head,
    params: Vec<Name>,
    token: &TokenKind,
) -> Result<Step, NoMemory>
    ensures { IfOk result (λ r. (s : List Held) → at_param (bounds rules) rules.side (head_view head) params.items s token.now ≡ move_of r s) }
{
    match token {
        TokenKind::Name(name) => add_param(rules, head, params, name.copy(alloc)?),
        TokenKind::Sign(Sign::CloseParen) => Ok(close_params(head, params)),
        TokenKind::Sign(_) => Ok(Step::Refused),
        TokenKind::Keyword(_) => Ok(Step::Refused),
        TokenKind::Number(_) => Ok(Step::Refused),
        TokenKind::Text(_) => Ok(Step::Refused),
    }
}

/// A token behind a parameter.
pub fn behind_param(head: Head, params: Vec<Name>, token: &TokenKind) -> Step
    ensures { (s : List Held) → behind_param (head_view head) params.items s token.now ≡ move_of result s }
{
    match token {
        TokenKind::Sign(Sign::Comma) => Step::Go(Mode::ParamNext(head, params)),
        TokenKind::Sign(Sign::CloseParen) => close_params(head, params),
        TokenKind::Sign(_) => Step::Refused,
        TokenKind::Name(_) => Step::Refused,
        TokenKind::Keyword(_) => Step::Refused,
        TokenKind::Number(_) => Step::Refused,
        TokenKind::Text(_) => Step::Refused,
    }
}

/// A token where `=>` is wanted, on the line of what stands before it.
pub fn at_arrow_sign(
    kind: FunctionKind,
    params: Vec<Name>,
    token: &TokenKind,
    line_before: bool,
) -> Step
    ensures { (s : List Held) → at_arrow_sign kind params.items s token.now line_before ≡ move_of result s }
{
    match token {
        TokenKind::Sign(Sign::Arrow) => {
            if line_before {
                Step::Refused
            } else {
                Step::Go(Mode::ArrowBody(kind, params))
            }
        }
        TokenKind::Sign(_) => Step::Refused,
        TokenKind::Name(_) => Step::Refused,
        TokenKind::Keyword(_) => Step::Refused,
        TokenKind::Number(_) => Step::Refused,
        TokenKind::Text(_) => Step::Refused,
    }
}

/// The first token of an arrow's body.
pub fn at_arrow_body(
    alloc: Global,
    rules: Rules,
    kind: FunctionKind,
    params: Vec<Name>,
    token: &TokenKind,
    stack: &mut Stack,
) -> Result<Step, NoMemory>
    ensures { IfOk result (λ r. at_arrow_body (bounds rules) rules.side kind params.items (stack_view stack.old) token.now ≡ move_of r (stack_view stack.new)) }
{
    match token {
        TokenKind::Sign(Sign::OpenBrace) => {
            let owner = ListOwner::Body(Head::Arrow(kind), params);
            open_list(alloc, owner, stack.here(), stack)
        }
        _ => need_on(alloc, rules, Frame::Arrow(kind, params), token, stack),
    }
}

/// The reach of a method, if the role is one, and the depth of the function that stands here.
fn role_depth(
    role: &Role,
    kind: FunctionKind,
    name: &Option<Name>,
    stack: &Stack,
) -> Result<usize, NoMemory>
    ensures { IfOk result (λ n. n ≡ function_depth (function_head (role_view role.now) kind name.now) (stack_view stack.now)) }
{
    match role {
        Role::Method(_, _, reach) => Ok(max(*reach, deeper(stack.here())?)),
        _ => Ok(stack.here()),
    }
}

/// The depth of the function whose body is read; of a method it is one below its object.
fn function_depth(head: &Head, stack: &Stack) -> Result<usize, NoMemory>
    ensures { IfOk result (λ n. n ≡ function_depth (head_view head.now) (stack_view stack.now)) }
{
    match head {
        Head::Function(role, kind, name) => Ok(role_depth(role, *kind, name, stack)?),
        Head::Arrow(_) => Ok(stack.here()),
    }
}

/// A token where the body of a function is wanted.
pub fn at_body_open(
    alloc: Global,
    head: Head,
    params: Vec<Name>,
    token: &TokenKind,
    stack: &mut Stack,
) -> Result<Step, NoMemory>
    ensures { IfOk result (λ r. at_body_open (head_view head) params.items (stack_view stack.old) token.now ≡ move_of r (stack_view stack.new)) }
{
    let reach = function_depth(&head, stack)?;
    match token {
        TokenKind::Sign(Sign::OpenBrace) => {
            Ok(open_list(alloc, ListOwner::Body(head, params), reach, stack)?)
        }
        TokenKind::Sign(_) => Ok(Step::Refused),
        TokenKind::Name(_) => Ok(Step::Refused),
        TokenKind::Keyword(_) => Ok(Step::Refused),
        TokenKind::Number(_) => Ok(Step::Refused),
        TokenKind::Text(_) => Ok(Step::Refused),
    }
}

/// A token where the parenthesis before parameters is wanted.
pub fn at_params_open(alloc: Global, head: Head, token: &TokenKind) -> Step
    ensures { (s : List Held) → at_params_open (head_view head) s token.now ≡ move_of result s }
{
    match token {
        TokenKind::Sign(Sign::OpenParen) => Step::Go(Mode::ParamNext(head, Vec::new(alloc))),
        TokenKind::Sign(_) => Step::Refused,
        TokenKind::Name(_) => Step::Refused,
        TokenKind::Keyword(_) => Step::Refused,
        TokenKind::Number(_) => Step::Refused,
        TokenKind::Text(_) => Step::Refused,
    }
}
