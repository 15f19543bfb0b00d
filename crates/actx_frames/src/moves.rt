//! Moves that many tokens make, as the one to an operand on one more frame.

ghost use Rattle.std.specs.Prelude.{◌≡◌, ◌∷◌, IfOk, List};
ghost use Rattle.actx_grammar.specs.ParserFunctions.{open_list};
ghost use Rattle.actx_grammar.specs.ParserOperands.{ended};
ghost use Rattle.actx_grammar.specs.ParserState.{Frame as Held, body_start, go, go_if, have, need};
ghost use Rattle.actx_ast.specs.View.{expr_view, stmt_view};
ghost use Rattle.actx_frames.specs.ParserView.{frame_view, mode_view, move_of, owner_view, stack_view};

use super::stack::Stack;
use super::state::{Frame, ListOwner, Mode, Operand, Step};
use actx_ast::tree::{Expr, Stmt};
use actx_data::NoMemory;
use std::alloc::Global;

/// Goes on where the test is true.
pub fn go_if(test: bool, mode: Mode) -> Step
    ensures { (s : List Held) → move_of result s ≡ go_if test (mode_view mode) s }
{
    if test { Step::Go(mode) } else { Step::Refused }
}

/// What is behind an operand.
pub fn have(expr: Box<Expr>, reach: usize) -> Step
    ensures { (s : List Held) → move_of result s ≡ go (have (expr_view expr.value) reach) s }
{
    Step::Go(Mode::Have(Operand { expr, reach }))
}

/// What is behind an operand that is made now.
pub fn have_new(alloc: Global, expr: Expr, reach: usize) -> Result<Step, NoMemory>
    ensures { IfOk result (λ r. (s : List Held) → move_of r s ≡ go (have (expr_view expr) reach) s) }
{
    Ok(have(Box::new(alloc, expr)?, reach))
}

/// What is behind a statement.
pub fn ended(stmt: Box<Stmt>, reach: usize) -> Step
    ensures { (s : List Held) → move_of result s ≡ ended (stmt_view stmt.value) reach s }
{
    Step::Go(Mode::HaveStmt(stmt, reach))
}

/// What is behind a statement that is made now.
pub fn ended_new(alloc: Global, stmt: Stmt, reach: usize) -> Result<Step, NoMemory>
    ensures { IfOk result (λ r. (s : List Held) → move_of r s ≡ ended (stmt_view stmt) reach s) }
{
    Ok(ended(Box::new(alloc, stmt)?, reach))
}

/// An operand is wanted on one more frame.
pub fn need_in(frame: Frame, stack: &mut Stack) -> Result<Step, NoMemory>
    ensures { IfOk result (λ r. move_of r (stack_view stack.new) ≡ go need (frame_view frame ∷ stack_view stack.old)) }
{
    stack.push(frame)?;
    Ok(Step::Go(Mode::Need))
}

/// An operand is wanted on one more frame where the test is true.
pub fn need_if(test: bool, frame: Frame, stack: &mut Stack) -> Result<Step, NoMemory>
    ensures { IfOk result (λ r. move_of r (stack_view stack.new) ≡ go_if test need (frame_view frame ∷ stack_view stack.old)) }
{
    if test {
        Ok(need_in(frame, stack)?)
    } else {
        let _unchanged = stack.here(); // this read tells the proof that the stack stays
        Ok(Step::Refused)
    }
}

/// A statement that is no declaration is wanted on one more frame.
pub fn body_in(frame: Frame, stack: &mut Stack) -> Result<Step, NoMemory>
    ensures { IfOk result (λ r. move_of r (stack_view stack.new) ≡ go body_start (frame_view frame ∷ stack_view stack.old)) }
{
    stack.push(frame)?;
    Ok(Step::Go(Mode::BodyStart))
}

/// A list of statements begins.
pub fn open_list(
    alloc: Global,
    owner: ListOwner,
    reach: usize,
    stack: &mut Stack,
) -> Result<Step, NoMemory>
    ensures { IfOk result (λ r. move_of r (stack_view stack.new) ≡ open_list (owner_view owner) reach (stack_view stack.old)) }
{
    stack.push(Frame::List(owner, Vec::new(alloc), reach))?;
    Ok(Step::Go(Mode::Start))
}
