//! What an operand ends, as the `2` of `1 * 2 + 3` ends the product.

ghost use Rattle.std.specs.Prelude.{◌≡◌, ◌∷◌, IfOk, List};
ghost use Rattle.actx_grammar.specs.ParserState.{Frame as Held, settle};
ghost use Rattle.actx_ast.specs.View.{expr_view};
ghost use Rattle.actx_frames.specs.ParserView.{bound_of, frame_view, settled_of, stack_view};

use super::levels::{level_of, logic_level};
use super::nodes::{
    arrow, awaited, binary, change, choice, logic, set_member, set_name, unary, yielded,
    yielded_all,
};
use super::stack::Stack;
use super::state::{Frame, Operand};
use actx_data::NoMemory;
use std::alloc::Global;

/// What becomes of an operand on a frame: it ends the frame, or the frame stays below it.
#[derive(Drop)]
pub enum Bound {
    Held(Operand),
    Back(Frame, Operand),
}

/// An operand on a frame, which ends it where the frame binds at the level at least.
fn bind(alloc: Global, level: u8, frame: Frame, held: Operand) -> Result<Bound, NoMemory>
    ensures { IfOk result (λ b. (s : List Held) → settle level (expr_view held.expr.value) held.reach (frame_view frame ∷ s) ≡ bound_of level b s) }
{
    match frame {
        Frame::Unary(op) => {
            if level <= 9 {
                Ok(Bound::Held(unary(alloc, op, held)?))
            } else {
                Ok(Bound::Back(Frame::Unary(op), held))
            }
        }
        Frame::Await => {
            if level <= 9 {
                Ok(Bound::Held(awaited(alloc, held)?))
            } else {
                Ok(Bound::Back(Frame::Await, held))
            }
        }
        Frame::Binary(op, left) => {
            if level <= level_of(op) {
                Ok(Bound::Held(binary(alloc, op, left, held)?))
            } else {
                Ok(Bound::Back(Frame::Binary(op, left), held))
            }
        }
        Frame::Logic(op, left) => {
            if level <= logic_level(op) {
                Ok(Bound::Held(logic(alloc, op, left, held)?))
            } else {
                Ok(Bound::Back(Frame::Logic(op, left), held))
            }
        }
        Frame::Other(test, yes) => {
            if level <= 2 {
                Ok(Bound::Held(choice(alloc, test, yes, held)?))
            } else {
                Ok(Bound::Back(Frame::Other(test, yes), held))
            }
        }
        Frame::SetName(name) => {
            if level <= 1 {
                Ok(Bound::Held(set_name(alloc, name, held)?))
            } else {
                Ok(Bound::Back(Frame::SetName(name), held))
            }
        }
        Frame::Set(base, key, reach) => {
            if level <= 1 {
                Ok(Bound::Held(set_member(alloc, base, key, reach, held)?))
            } else {
                Ok(Bound::Back(Frame::Set(base, key, reach), held))
            }
        }
        Frame::Change(name, op) => {
            if level <= 1 {
                Ok(Bound::Held(change(alloc, name, op, held)?))
            } else {
                Ok(Bound::Back(Frame::Change(name, op), held))
            }
        }
        Frame::Arrow(kind, params) => {
            if level <= 1 {
                Ok(Bound::Held(arrow(alloc, kind, params, held)?))
            } else {
                Ok(Bound::Back(Frame::Arrow(kind, params), held))
            }
        }
        Frame::Yield => {
            if level <= 1 {
                Ok(Bound::Held(yielded(alloc, held)?))
            } else {
                Ok(Bound::Back(Frame::Yield, held))
            }
        }
        Frame::YieldAll => {
            if level <= 1 {
                Ok(Bound::Held(yielded_all(alloc, held)?))
            } else {
                Ok(Bound::Back(Frame::YieldAll, held))
            }
        }
        other => Ok(Bound::Back(other, held)),
    }
}

/// The operand with what it ends: the operators on the stack that bind at the level at least, and at level 1 what is
/// set and an arrow.
pub fn settle(
    alloc: Global,
    level: u8,
    operand: Operand,
    stack: &mut Stack,
) -> Result<Operand, NoMemory>
    ensures { IfOk result (λ held. settle level (expr_view operand.expr.value) operand.reach (stack_view stack.old) ≡ settled_of held stack.new) }
{
    let mut held = operand;
    while let Some(frame) = stack.pop() {
        match bind(alloc, level, frame, held)? {
            Bound::Held(next) => held = next,
            Bound::Back(frame, held) => {
                stack.push(frame)?;
                return Ok(held);
            }
        }
    }
    Ok(held)
}
