//! Behind an operand, as behind the `1` of `const a = 1 ;`.

ghost use Rattle.std.specs.Prelude.{◌≡◌, ◌∷◌, IfOk, List, ℕ, suc};
ghost use Rattle.actx_grammar.specs.Forms.{level_of};
ghost use Rattle.actx_grammar.specs.ParserOperands.{at_have, at_logic, at_member, at_operator, binary, choice, logic, mixes};
ghost use Rattle.actx_grammar.specs.ParserState.{Frame as Held, fits, in_logic, logic_level, settle};
ghost use Rattle.actx_grammar.specs.Tree.{Expr as Tree};
ghost use Rattle.actx_ast.specs.View.{expr_view, key_view};
ghost use Rattle.actx_frames.specs.ParserView.{bounds, move_of, settled_of, stack_view};

use super::ends::at_whole;
use actx_ast::tree::{Expr, Key};
use actx_data::NoMemory;
use actx_frames::levels::{level_of, logic_level, tighter};
use actx_frames::limits::{Rules, deeper, fits_deeper, takes_whole};
use actx_frames::moves::{go_if, need_if};
use actx_frames::nodes::member;
use actx_frames::settle::settle;
use actx_frames::stack::Stack;
use actx_frames::state::{Frame, Mode, Operand, Step};
use actx_grammar::operators::{BinaryOp, LogicOp};
use actx_grammar::token::{Sign, TokenKind};
use std::alloc::Global;

/// An operator: its left operand is what stands before it.
fn binary(rules: Rules, op: BinaryOp, left: Operand, stack: &mut Stack) -> Result<Step, NoMemory>
    ensures { IfOk result (λ r. binary (bounds rules) op (settled_of left stack.old) ≡ move_of r (stack_view stack.new)) }
{
    let Operand { expr, reach } = left;
    let test = fits_deeper(rules, reach);
    let reach = deeper(reach)?;
    need_if(test, Frame::Binary(op, Operand { expr, reach }), stack)
}

fn at_binary(
    alloc: Global,
    rules: Rules,
    op: BinaryOp,
    operand: Operand,
    stack: &mut Stack,
) -> Result<Step, NoMemory>
    ensures { IfOk result (λ r. binary (bounds rules) op (settle (level_of op) (expr_view operand.expr.value) operand.reach (stack_view stack.old)) ≡ move_of r (stack_view stack.new)) }
{
    let left = settle(alloc, level_of(op), operand, stack)?;
    binary(rules, op, left, stack)
}

fn logic(rules: Rules, op: LogicOp, left: Operand, stack: &mut Stack) -> Result<Step, NoMemory>
    ensures { IfOk result (λ r. logic (bounds rules) op (settled_of left stack.old) ≡ move_of r (stack_view stack.new)) }
{
    let Operand { expr, reach } = left;
    let test = fits_deeper(rules, reach);
    let reach = deeper(reach)?;
    need_if(test, Frame::Logic(op, Operand { expr, reach }), stack)
}

/// Whether one of two such operators is `??`, and the other isn't.
fn apart(op: LogicOp, other: LogicOp) -> bool
    ensures { (e : Tree) (r : ℕ) (s : List Held) → result ≡ mixes op (in_logic other e r ∷ s) }
{
    match op {
        LogicOp::Coalesce => match other {
            LogicOp::Coalesce => false,
            LogicOp::And => true,
            LogicOp::Or => true,
        },
        LogicOp::And => other == LogicOp::Coalesce,
        LogicOp::Or => other == LogicOp::Coalesce,
    }
}

/// Whether the operator stands beside one that it may not stand beside without parentheses.
fn mixes(op: LogicOp, stack: &Stack) -> bool
    ensures { result ≡ mixes op (stack_view stack.now) }
{
    match stack.top() {
        Some(Frame::Logic(other, _)) => apart(op, *other),
        _ => false,
    }
}

/// `&&`, `||` or `??`.
fn at_logic(
    alloc: Global,
    rules: Rules,
    op: LogicOp,
    operand: Operand,
    stack: &mut Stack,
) -> Result<Step, NoMemory>
    ensures { IfOk result (λ r. at_logic (bounds rules) op (logic_level op) (expr_view operand.expr.value) operand.reach (stack_view stack.old) ≡ move_of r (stack_view stack.new)) }
{
    let held = settle(alloc, tighter(op), operand, stack)?;
    if mixes(op, stack) {
        Ok(Step::Refused)
    } else {
        let left = settle(alloc, logic_level(op), held, stack)?;
        Ok(logic(rules, op, left, stack)?)
    }
}

fn choice(rules: Rules, test: Operand, stack: &mut Stack) -> Result<Step, NoMemory>
    ensures { IfOk result (λ r. choice (bounds rules) (settled_of test stack.old) ≡ move_of r (stack_view stack.new)) }
{
    let Operand { expr, reach } = test;
    let test = fits_deeper(rules, reach);
    let reach = deeper(reach)?;
    need_if(test, Frame::Choice(Operand { expr, reach }), stack)
}

/// `?`
fn at_choice(
    alloc: Global,
    rules: Rules,
    operand: Operand,
    stack: &mut Stack,
) -> Result<Step, NoMemory>
    ensures { IfOk result (λ r. choice (bounds rules) (settle 3 (expr_view operand.expr.value) operand.reach (stack_view stack.old)) ≡ move_of r (stack_view stack.new)) }
{
    let test = settle(alloc, 3, operand, stack)?;
    choice(rules, test, stack)
}

/// A sign behind an operand that nothing but operators goes on.
fn operator_sign(
    alloc: Global,
    rules: Rules,
    operand: Operand,
    sign: Sign,
    token: &TokenKind,
    stack: &mut Stack,
) -> Result<Step, NoMemory>
    requires { token.now ≡ TokenKind.Sign sign }
    ensures { IfOk result (λ r. at_operator (bounds rules) (expr_view operand.expr.value) operand.reach (stack_view stack.old) (TokenKind.Sign sign) ≡ move_of r (stack_view stack.new)) }
{
    match sign {
        Sign::Plus => at_binary(alloc, rules, BinaryOp::Add, operand, stack),
        Sign::Minus => at_binary(alloc, rules, BinaryOp::Sub, operand, stack),
        Sign::Star => at_binary(alloc, rules, BinaryOp::Mul, operand, stack),
        Sign::Same => at_binary(alloc, rules, BinaryOp::Same, operand, stack),
        Sign::NotSame => at_binary(alloc, rules, BinaryOp::NotSame, operand, stack),
        Sign::Less => at_binary(alloc, rules, BinaryOp::Less, operand, stack),
        Sign::LessSame => at_binary(alloc, rules, BinaryOp::LessSame, operand, stack),
        Sign::More => at_binary(alloc, rules, BinaryOp::More, operand, stack),
        Sign::MoreSame => at_binary(alloc, rules, BinaryOp::MoreSame, operand, stack),
        Sign::And => at_logic(alloc, rules, LogicOp::And, operand, stack),
        Sign::Or => at_logic(alloc, rules, LogicOp::Or, operand, stack),
        Sign::Coalesce => at_logic(alloc, rules, LogicOp::Coalesce, operand, stack),
        Sign::Question => at_choice(alloc, rules, operand, stack),
        _ => at_whole(alloc, operand, token, stack),
    }
}

/// A token behind an operand that nothing but operators goes on.
pub fn at_operator(
    alloc: Global,
    rules: Rules,
    operand: Operand,
    token: &TokenKind,
    stack: &mut Stack,
) -> Result<Step, NoMemory>
    ensures { IfOk result (λ r. at_operator (bounds rules) (expr_view operand.expr.value) operand.reach (stack_view stack.old) token.now ≡ move_of r (stack_view stack.new)) }
{
    match token {
        TokenKind::Sign(sign) => operator_sign(alloc, rules, operand, *sign, token, stack),
        _ => at_whole(alloc, operand, token, stack),
    }
}

/// A sign behind an operand with which a member or a call goes on.
fn have_sign(
    alloc: Global,
    rules: Rules,
    operand: Operand,
    sign: Sign,
    token: &TokenKind,
    stack: &mut Stack,
) -> Result<Step, NoMemory>
    requires { token.now ≡ TokenKind.Sign sign }
    ensures { IfOk result (λ r. at_have (bounds rules) (expr_view operand.expr.value) operand.reach (stack_view stack.old) (TokenKind.Sign sign) ≡ move_of r (stack_view stack.new)) }
{
    match sign {
        Sign::Dot => dot(rules, operand, stack),
        Sign::OpenBracket => open_index(rules, operand, stack),
        Sign::OpenParen => open_call(alloc, rules, operand, stack),
        _ => at_operator(alloc, rules, operand, token, stack),
    }
}

/// The word behind a dot follows.
fn dot(rules: Rules, operand: Operand, stack: &mut Stack) -> Result<Step, NoMemory>
    ensures { IfOk result (λ r. at_have (bounds rules) (expr_view operand.expr.value) operand.reach (stack_view stack.old) (TokenKind.Sign Sign.Dot) ≡ move_of r (stack_view stack.new)) }
{
    let _unchanged = stack.here(); // this read tells the proof that the stack stays
    let Operand { expr, reach } = operand;
    let test = fits_deeper(rules, reach);
    let reach = deeper(reach)?;
    Ok(go_if(test, Mode::MemberName(Operand { expr, reach })))
}

/// A key in brackets follows.
fn open_index(rules: Rules, operand: Operand, stack: &mut Stack) -> Result<Step, NoMemory>
    ensures { IfOk result (λ r. at_have (bounds rules) (expr_view operand.expr.value) operand.reach (stack_view stack.old) (TokenKind.Sign Sign.OpenBracket) ≡ move_of r (stack_view stack.new)) }
{
    let Operand { expr, reach } = operand;
    let test = fits_deeper(rules, reach);
    let reach = deeper(reach)?;
    need_if(test, Frame::Index(Operand { expr, reach }), stack)
}

/// The arguments of a call begin.
fn open_call(
    alloc: Global,
    rules: Rules,
    operand: Operand,
    stack: &mut Stack,
) -> Result<Step, NoMemory>
    ensures { IfOk result (λ r. at_have (bounds rules) (expr_view operand.expr.value) operand.reach (stack_view stack.old) (TokenKind.Sign Sign.OpenParen) ≡ move_of r (stack_view stack.new)) }
{
    let Operand { expr, reach } = operand;
    let test = fits_deeper(rules, reach);
    let reach = deeper(reach)?;
    need_if(test, Frame::Call(expr, Vec::new(alloc), reach), stack)
}

/// A token behind an operand.
pub fn at_have(
    alloc: Global,
    rules: Rules,
    operand: Operand,
    token: &TokenKind,
    stack: &mut Stack,
) -> Result<Step, NoMemory>
    ensures { IfOk result (λ r. at_have (bounds rules) (expr_view operand.expr.value) operand.reach (stack_view stack.old) token.now ≡ move_of r (stack_view stack.new)) }
{
    match token {
        TokenKind::Sign(sign) => have_sign(alloc, rules, operand, *sign, token, stack),
        _ => at_operator(alloc, rules, operand, token, stack),
    }
}

/// A token behind a member: it is set, or read.
pub fn at_member(
    alloc: Global,
    rules: Rules,
    base: Box<Expr>,
    key: Key,
    reach: usize,
    token: &TokenKind,
    stack: &mut Stack,
) -> Result<Step, NoMemory>
    ensures { IfOk result (λ r. at_member (bounds rules) (expr_view base.value) (key_view key) reach (stack_view stack.old) token.now ≡ move_of r (stack_view stack.new)) }
{
    match token {
        TokenKind::Sign(Sign::Assign) => {
            need_if(takes_whole(stack), Frame::Set(base, key, reach), stack)
        }
        _ => {
            let expr = member(alloc, base, key)?;
            at_have(alloc, rules, Operand { expr, reach }, token, stack)
        }
    }
}
