//! Signs that end an expression, as the semicolon of `return a ;`.

ghost use Rattle.std.specs.Prelude.{◌≡◌, ◌∷◌, IfOk, List, suc};
ghost use Rattle.actx_grammar.specs.Grammar.{count, with_last};
ghost use Rattle.actx_grammar.specs.ParserOperands.{after_computed, at_whole, close_brace, close_bracket, close_paren, colon, comma, end_consts, end_lets, semicolon, suits};
ghost use Rattle.actx_grammar.specs.ParserState.{Frame as Held, go_if, have, settled};
ghost use Rattle.actx_grammar.specs.Tree.{Built, Call};
ghost use Rattle.actx_ast.specs.View.{consts_view, expr_view, exprs_view, lets_view, properties_view};
ghost use Rattle.actx_frames.specs.ParserView.{frame_view, items_of_view, move_of, settled_of, stack_view};

use actx_ast::tree::{ConstItem, Expr, ForInit, Key, LetItem, PropKey, Property, Stmt};
use actx_data::NoMemory;
use actx_frames::lists::{with_const, with_last, with_let, with_property};
use actx_frames::moves::{body_in, ended_new, have, have_new, need_in};
use actx_frames::nodes::{call, returning};
use actx_frames::operand::close_form;
use actx_frames::settle::settle;
use actx_frames::stack::Stack;
use actx_frames::state::{Frame, ItemsOf, Mode, Operand, Step};
use actx_grammar::operators::{Form, FunctionKind};
use actx_grammar::token::{Sign, TokenKind};
use std::alloc::Global;
use std::cmp::max;

/// A call whose last argument is this.
fn call_with_last(
    alloc: Global,
    callee: Box<Expr>,
    args: Vec<Expr>,
    last: Box<Expr>,
) -> Result<Box<Expr>, NoMemory>
    ensures { IfOk result (λ e. expr_view e.value ≡ Call (expr_view callee.value) (with_last (exprs_view args.items) (expr_view last.value))) }
{
    call(alloc, callee, with_last(args, last)?)
}

/// A form whose last part is this, where it takes so many.
fn close_form_with(
    alloc: Global,
    form: Form,
    parts: Vec<Expr>,
    last: Box<Expr>,
    reach: usize,
) -> Result<Step, NoMemory>
    ensures { IfOk result (λ r. (s : List Held) → go_if (suits form (suc (count (exprs_view parts.items)))) (have (Built form (with_last (exprs_view parts.items) (expr_view last.value))) reach) s ≡ move_of r s) }
{
    let parts = with_last(parts, last)?;
    Ok(close_form(alloc, form, parts, reach)?)
}

/// A closing parenthesis behind an expression on a frame.
fn close_paren_on(
    alloc: Global,
    frame: Frame,
    held: Operand,
    stack: &mut Stack,
) -> Result<Step, NoMemory>
    ensures { IfOk result (λ r. close_paren (settled (expr_view held.expr.value) held.reach (frame_view frame ∷ stack_view stack.old)) ≡ move_of r (stack_view stack.new)) }
{
    let _unchanged = stack.here(); // this read tells the proof that the stack stays
    let Operand { expr, reach } = held;
    match frame {
        Frame::Paren => Ok(have(expr, reach)),
        Frame::Call(callee, args, q) => {
            let call = call_with_last(alloc, callee, args, expr)?;
            Ok(have(call, max(q, reach)))
        }
        Frame::Form(form, parts, q) => {
            Ok(close_form_with(alloc, form, parts, expr, max(q, reach))?)
        },
        Frame::If => Ok(body_in(Frame::YesOf(Operand { expr, reach }), stack)?),
        Frame::While => Ok(body_in(Frame::WhileOf(Operand { expr, reach }), stack)?),
        Frame::DoTest(stmt, q) => Ok(Step::Go(Mode::DoEnd(stmt, expr, max(q, reach)))),
        Frame::ForUpdate(init, test, q) => {
            let frame = Frame::ForBody(init, test, Some(expr), max(q, reach));
            Ok(body_in(frame, stack)?)
        }
        Frame::ForOver(constant, name) => {
            let frame = Frame::ForOfBody(constant, name, Operand { expr, reach });
            Ok(body_in(frame, stack)?)
        }
        Frame::Switch => Ok(Step::Go(Mode::SwitchBrace(Operand { expr, reach }))),
        other => {
            drop(other);
            Ok(Step::Refused)
        }
    }
}

/// A closing parenthesis behind an expression.
pub fn close_paren(alloc: Global, held: Operand, stack: &mut Stack) -> Result<Step, NoMemory>
    ensures { IfOk result (λ r. close_paren (settled_of held stack.old) ≡ move_of r (stack_view stack.new)) }
{
    match stack.pop() {
        Some(frame) => close_paren_on(alloc, frame, held, stack),
        None => Ok(Step::Refused),
    }
}

/// Behind a key in brackets.
fn after_computed(
    properties: Vec<Property>,
    kind: Option<FunctionKind>,
    key: Box<Expr>,
    reach: usize,
) -> Step
    ensures { (s : List Held) → after_computed (properties_view properties.items) kind (expr_view key.value) reach s ≡ move_of result s }
{
    let key = PropKey::Computed(key);
    match kind {
        None => Step::Go(Mode::KeyBehind(properties, key, reach)),
        Some(kind) => Step::Go(Mode::MethodOpen(properties, kind, key, reach)),
    }
}

/// A closing bracket behind an expression on a frame.
fn close_bracket_on(frame: Frame, held: Operand, stack: &mut Stack) -> Result<Step, NoMemory>
    ensures { IfOk result (λ r. close_bracket (settled (expr_view held.expr.value) held.reach (frame_view frame ∷ stack_view stack.old)) ≡ move_of r (stack_view stack.new)) }
{
    let _unchanged = stack.here(); // this read tells the proof that the stack stays
    let Operand { expr, reach } = held;
    match frame {
        Frame::Index(base) => {
            let reach = max(base.reach, reach);
            let key = Key::Index(expr);
            Ok(Step::Go(Mode::HaveMember(base.expr, key, reach)))
        }
        Frame::Computed(properties, kind, q) => {
            Ok(after_computed(properties, kind, expr, max(q, reach)))
        }
        other => {
            drop(other);
            Ok(Step::Refused)
        }
    }
}

/// A closing bracket behind an expression.
pub fn close_bracket(held: Operand, stack: &mut Stack) -> Result<Step, NoMemory>
    ensures { IfOk result (λ r. close_bracket (settled_of held stack.old) ≡ move_of r (stack_view stack.new)) }
{
    match stack.pop() {
        Some(frame) => close_bracket_on(frame, held, stack),
        None => Ok(Step::Refused),
    }
}

/// A closing brace behind an expression: a literal ends on a frame.
fn close_brace_on(
    alloc: Global,
    frame: Frame,
    held: Operand,
    stack: &mut Stack,
) -> Result<Step, NoMemory>
    ensures { IfOk result (λ r. close_brace (settled (expr_view held.expr.value) held.reach (frame_view frame ∷ stack_view stack.old)) ≡ move_of r (stack_view stack.new)) }
{
    let _unchanged = stack.here(); // this read tells the proof that the stack stays
    let Operand { expr, reach } = held;
    match frame {
        Frame::Property(properties, key, q) => {
            let properties = with_property(properties, key, expr)?;
            Ok(have_new(alloc, Expr::Object(properties), max(q, reach))?)
        }
        other => {
            drop(other);
            Ok(Step::Refused)
        }
    }
}

/// A closing brace behind an expression: a literal ends.
pub fn close_brace(alloc: Global, held: Operand, stack: &mut Stack) -> Result<Step, NoMemory>
    ensures { IfOk result (λ r. close_brace (settled_of held stack.old) ≡ move_of r (stack_view stack.new)) }
{
    match stack.pop() {
        Some(frame) => close_brace_on(alloc, frame, held, stack),
        None => Ok(Step::Refused),
    }
}

/// A comma: behind an argument, a property or an item on a frame.
fn comma_on(frame: Frame, held: Operand, stack: &mut Stack) -> Result<Step, NoMemory>
    ensures { IfOk result (λ r. comma (settled (expr_view held.expr.value) held.reach (frame_view frame ∷ stack_view stack.old)) ≡ move_of r (stack_view stack.new)) }
{
    let _unchanged = stack.here(); // this read tells the proof that the stack stays
    let Operand { expr, reach } = held;
    match frame {
        Frame::Call(callee, args, q) => {
            let args = with_last(args, expr)?;
            Ok(need_in(Frame::Call(callee, args, max(q, reach)), stack)?)
        }
        Frame::Form(form, parts, q) => {
            let parts = with_last(parts, expr)?;
            Ok(need_in(Frame::Form(form, parts, max(q, reach)), stack)?)
        }
        Frame::Property(properties, key, q) => {
            let properties = with_property(properties, key, expr)?;
            Ok(Step::Go(Mode::KeyNext(properties, max(q, reach))))
        }
        Frame::Let(of, items, name, q) => {
            let items = with_let(items, name, Some(expr))?;
            Ok(Step::Go(Mode::LetName(of, items, max(q, reach))))
        }
        Frame::Const(of, items, name, q) => {
            let items = with_const(items, name, expr)?;
            Ok(Step::Go(Mode::ConstName(of, items, max(q, reach))))
        }
        other => {
            drop(other);
            Ok(Step::Refused)
        }
    }
}

/// A comma: behind an argument, a property or an item.
pub fn comma(held: Operand, stack: &mut Stack) -> Result<Step, NoMemory>
    ensures { IfOk result (λ r. comma (settled_of held stack.old) ≡ move_of r (stack_view stack.new)) }
{
    match stack.pop() {
        Some(frame) => comma_on(frame, held, stack),
        None => Ok(Step::Refused),
    }
}

/// The items of a `let` end.
pub fn end_lets(
    alloc: Global,
    of: ItemsOf,
    items: Vec<LetItem>,
    reach: usize,
) -> Result<Step, NoMemory>
    ensures { IfOk result (λ r. (s : List Held) → end_lets (items_of_view of) (lets_view items.items) reach s ≡ move_of r s) }
{
    match of {
        ItemsOf::Statement => Ok(ended_new(alloc, Stmt::Let(items), reach)?),
        ItemsOf::For => Ok(Step::Go(Mode::ForTest(ForInit::Let(items), reach))),
    }
}

/// The items of a `const` end.
pub fn end_consts(
    alloc: Global,
    of: ItemsOf,
    items: Vec<ConstItem>,
    reach: usize,
) -> Result<Step, NoMemory>
    ensures { IfOk result (λ r. (s : List Held) → end_consts (items_of_view of) (consts_view items.items) reach s ≡ move_of r s) }
{
    match of {
        ItemsOf::Statement => Ok(ended_new(alloc, Stmt::Const(items), reach)?),
        ItemsOf::For => Ok(Step::Go(Mode::ForTest(ForInit::Const(items), reach))),
    }
}

/// A semicolon behind an expression on a frame.
fn semicolon_on(
    alloc: Global,
    frame: Frame,
    held: Operand,
    stack: &mut Stack,
) -> Result<Step, NoMemory>
    ensures { IfOk result (λ r. semicolon (settled (expr_view held.expr.value) held.reach (frame_view frame ∷ stack_view stack.old)) ≡ move_of r (stack_view stack.new)) }
{
    let _unchanged = stack.here(); // this read tells the proof that the stack stays
    let Operand { expr, reach } = held;
    match frame {
        Frame::Value => Ok(ended_new(alloc, Stmt::Value(expr), reach)?),
        Frame::Let(of, items, name, q) => {
            let items = with_let(items, name, Some(expr))?;
            Ok(end_lets(alloc, of, items, max(q, reach))?)
        }
        Frame::Const(of, items, name, q) => {
            let items = with_const(items, name, expr)?;
            Ok(end_consts(alloc, of, items, max(q, reach))?)
        }
        Frame::Return => Ok(ended_new(alloc, returning(expr), reach)?),
        Frame::Throw => Ok(ended_new(alloc, Stmt::Throw(expr), reach)?),
        Frame::ForInit => Ok(Step::Go(Mode::ForTest(ForInit::Value(expr), reach))),
        Frame::ForTest(init, q) => {
            let reach = max(q, reach);
            Ok(Step::Go(Mode::ForUpdate(init, Some(expr), reach)))
        }
        other => {
            drop(other);
            Ok(Step::Refused)
        }
    }
}

/// A semicolon behind an expression.
pub fn semicolon(alloc: Global, held: Operand, stack: &mut Stack) -> Result<Step, NoMemory>
    ensures { IfOk result (λ r. semicolon (settled_of held stack.old) ≡ move_of r (stack_view stack.new)) }
{
    match stack.pop() {
        Some(frame) => semicolon_on(alloc, frame, held, stack),
        None => Ok(Step::Refused),
    }
}

/// A colon behind an expression on a frame.
fn colon_on(frame: Frame, held: Operand, stack: &mut Stack) -> Result<Step, NoMemory>
    ensures { IfOk result (λ r. colon (settled (expr_view held.expr.value) held.reach (frame_view frame ∷ stack_view stack.old)) ≡ move_of r (stack_view stack.new)) }
{
    let _unchanged = stack.here(); // this read tells the proof that the stack stays
    let Operand { expr, reach } = held;
    match frame {
        Frame::Choice(test) => {
            let reach = max(test.reach, reach);
            let frame = Frame::Other(test.expr, Operand { expr, reach });
            Ok(need_in(frame, stack)?)
        }
        other => {
            drop(other);
            Ok(Step::Refused)
        }
    }
}

/// A colon behind an expression.
pub fn colon(held: Operand, stack: &mut Stack) -> Result<Step, NoMemory>
    ensures { IfOk result (λ r. colon (settled_of held stack.old) ≡ move_of r (stack_view stack.new)) }
{
    match stack.pop() {
        Some(frame) => colon_on(frame, held, stack),
        None => Ok(Step::Refused),
    }
}

/// A sign behind any expression.
fn whole_sign(
    alloc: Global,
    operand: Operand,
    sign: Sign,
    stack: &mut Stack,
) -> Result<Step, NoMemory>
    ensures { IfOk result (λ r. at_whole (expr_view operand.expr.value) operand.reach (stack_view stack.old) (TokenKind.Sign sign) ≡ move_of r (stack_view stack.new)) }
{
    match sign {
        Sign::CloseParen => {
            let held = settle(alloc, 0, operand, stack)?;
            close_paren(alloc, held, stack)
        }
        Sign::CloseBracket => {
            let held = settle(alloc, 0, operand, stack)?;
            close_bracket(held, stack)
        }
        Sign::CloseBrace => {
            let held = settle(alloc, 0, operand, stack)?;
            close_brace(alloc, held, stack)
        }
        Sign::Comma => {
            let held = settle(alloc, 0, operand, stack)?;
            comma(held, stack)
        }
        Sign::Semicolon => {
            let held = settle(alloc, 0, operand, stack)?;
            semicolon(alloc, held, stack)
        }
        Sign::Colon => {
            let held = settle(alloc, 0, operand, stack)?;
            colon(held, stack)
        }
        _ => {
            let _unchanged = stack.here(); // this read tells the proof that the stack stays
            Ok(Step::Refused)
        }
    }
}

/// A token behind an expression that no operator goes on.
pub fn at_whole(
    alloc: Global,
    operand: Operand,
    token: &TokenKind,
    stack: &mut Stack,
) -> Result<Step, NoMemory>
    ensures { IfOk result (λ r. at_whole (expr_view operand.expr.value) operand.reach (stack_view stack.old) token.now ≡ move_of r (stack_view stack.new)) }
{
    let _unchanged = stack.here(); // this read tells the proof that the stack stays
    match token {
        TokenKind::Sign(sign) => whole_sign(alloc, operand, *sign, stack),
        TokenKind::Name(_) => Ok(Step::Refused),
        TokenKind::Keyword(_) => Ok(Step::Refused),
        TokenKind::Number(_) => Ok(Step::Refused),
        TokenKind::Text(_) => Ok(Step::Refused),
    }
}
