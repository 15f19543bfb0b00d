//! Behind a statement, as behind the `b ;` of `if (a) b ; else c ;`.

ghost use Rattle.std.specs.Prelude.{◌≡◌, ◌∷◌, IfOk, List, max, option_map};
ghost use Rattle.actx_grammar.specs.Parser.{behind_standing, behind_stmt, settle_stmt, standing, to_else};
ghost use Rattle.actx_grammar.specs.ParserState.{Frame as Held, do_of};
ghost use Rattle.actx_grammar.specs.Tree.{For as Looping, ForOf as Iterating, If as Testing, While as Repeating, no_stmt, some_stmt};
ghost use Rattle.actx_ast.specs.View.{expr_view, init_view, maybe_stmt, stmt_view};
ghost use Rattle.actx_frames.specs.ParserView.{bounds, frame_view, maybe_expr_view, move_of, stack_view};
ghost use Rattle.actx_steps.specs.StandingView.{branch_of, joined_of, standing_of};

use super::statements::at_start;
use actx_ast::tree::{Expr, ForInit, Stmt};
use actx_data::NoMemory;
use actx_frames::limits::Rules;
use actx_frames::lists::with_stmt;
use actx_frames::stack::Stack;
use actx_frames::state::{Frame, Mode, Operand, Step};
use actx_grammar::name::Name;
use actx_grammar::token::{Keyword, TokenKind};
use std::alloc::Global;
use std::cmp::max;

/// A statement, and the depth of its deepest part in the whole text.
#[derive(Drop)]
pub struct Standing {
    pub stmt: Box<Stmt>,
    pub reach: usize,
}

/// What becomes of a statement on a frame: it ends the frame, or the frame stays below it.
#[derive(Drop)]
pub enum Joined {
    Held(Standing),
    Back(Frame, Standing),
}

/// What an `else` finds behind a statement on a frame: the frame of its own statement, a greater statement, or no `if`.
#[derive(Drop)]
pub enum Branch {
    Else(Frame),
    Held(Standing),
    Refused,
}

fn some(stmt: Box<Stmt>) -> Option<Box<Stmt>>
    ensures { maybe_stmt (option_map (λ b. stmt_view b.value) result) ≡ some_stmt (stmt_view stmt.value) }
{
    Some(stmt)
}

/// An `if`, maybe with `else`.
fn tested(
    alloc: Global,
    test: Box<Expr>,
    yes: Box<Stmt>,
    no: Option<Box<Stmt>>,
) -> Result<Box<Stmt>, NoMemory>
    ensures { IfOk result (λ st. stmt_view st.value ≡ Testing (expr_view test.value) (stmt_view yes.value) (maybe_stmt (option_map (λ b. stmt_view b.value) no))) }
{
    Ok(Box::new(alloc, Stmt::If(test, yes, no))?)
}

/// An `if` without `else`.
fn test_alone(alloc: Global, test: Operand, yes: Standing) -> Result<Standing, NoMemory>
    ensures { IfOk result (λ st. (stmt_view st.stmt.value ≡ Testing (expr_view test.expr.value) (stmt_view yes.stmt.value) no_stmt) × (st.reach ≡ max test.reach yes.reach)) }
{
    let reach = max(test.reach, yes.reach);
    let stmt = tested(alloc, test.expr, yes.stmt, None)?;
    Ok(Standing { stmt, reach })
}

/// An `if` with `else`.
fn test_both(
    alloc: Global,
    test: Box<Expr>,
    yes: Box<Stmt>,
    reach: usize,
    no: Standing,
) -> Result<Standing, NoMemory>
    ensures { IfOk result (λ st. (stmt_view st.stmt.value ≡ Testing (expr_view test.value) (stmt_view yes.value) (some_stmt (stmt_view no.stmt.value))) × (st.reach ≡ max reach no.reach)) }
{
    let reach = max(reach, no.reach);
    let stmt = tested(alloc, test, yes, some(no.stmt))?;
    Ok(Standing { stmt, reach })
}

fn repeating(alloc: Global, test: Operand, body: Standing) -> Result<Standing, NoMemory>
    ensures { IfOk result (λ st. (stmt_view st.stmt.value ≡ Repeating (expr_view test.expr.value) (stmt_view body.stmt.value)) × (st.reach ≡ max test.reach body.reach)) }
{
    let reach = max(test.reach, body.reach);
    let stmt = Box::new(alloc, Stmt::While(test.expr, body.stmt))?;
    Ok(Standing { stmt, reach })
}

fn looping(
    alloc: Global,
    init: ForInit,
    test: Option<Box<Expr>>,
    update: Option<Box<Expr>>,
    reach: usize,
    body: Standing,
) -> Result<Standing, NoMemory>
    ensures { IfOk result (λ st. (stmt_view st.stmt.value ≡ Looping (init_view init) (maybe_expr_view test) (maybe_expr_view update) (stmt_view body.stmt.value)) × (st.reach ≡ max reach body.reach)) }
{
    let reach = max(reach, body.reach);
    let stmt = Box::new(alloc, Stmt::For(init, test, update, body.stmt))?;
    Ok(Standing { stmt, reach })
}

fn iterating(
    alloc: Global,
    constant: bool,
    name: Name,
    over: Operand,
    body: Standing,
) -> Result<Standing, NoMemory>
    ensures { IfOk result (λ st. (stmt_view st.stmt.value ≡ Iterating constant name (expr_view over.expr.value) (stmt_view body.stmt.value)) × (st.reach ≡ max over.reach body.reach)) }
{
    let reach = max(over.reach, body.reach);
    let over = over.expr;
    let body = body.stmt;
    let made = Stmt::ForOf {
        constant,
        name,
        over,
        body,
    };
    let stmt = Box::new(alloc, made)?;
    Ok(Standing { stmt, reach })
}

/// A statement on a frame, where no `else` follows.
fn join(alloc: Global, frame: Frame, held: Standing) -> Result<Joined, NoMemory>
    ensures { IfOk result (λ j. (s : List Held) → settle_stmt (stmt_view held.stmt.value) held.reach (frame_view frame ∷ s) ≡ joined_of j s) }
{
    match frame {
        Frame::YesOf(test) => Ok(Joined::Held(test_alone(alloc, test, held)?)),
        Frame::NoOf(test, yes, reach) => {
            Ok(Joined::Held(test_both(alloc, test, yes, reach, held)?))
        }
        Frame::WhileOf(test) => Ok(Joined::Held(repeating(alloc, test, held)?)),
        Frame::ForBody(init, test, update, reach) => {
            Ok(Joined::Held(looping(alloc, init, test, update, reach, held)?))
        }
        Frame::ForOfBody(constant, name, over) => {
            Ok(Joined::Held(iterating(alloc, constant, name, over, held)?))
        }
        other => Ok(Joined::Back(other, held)),
    }
}

/// The statement with what it ends, where no `else` follows.
pub fn settle_stmt(
    alloc: Global,
    standing: Standing,
    stack: &mut Stack,
) -> Result<Standing, NoMemory>
    ensures { IfOk result (λ held. settle_stmt (stmt_view standing.stmt.value) standing.reach (stack_view stack.old) ≡ standing_of held stack.new) }
{
    let mut held = standing;
    while let Some(frame) = stack.pop() {
        match join(alloc, frame, held)? {
            Joined::Held(next) => held = next,
            Joined::Back(frame, held) => {
                stack.push(frame)?;
                return Ok(held);
            }
        }
    }
    Ok(held)
}

/// A statement on a frame, where `else` follows.
fn branch_on(alloc: Global, frame: Frame, held: Standing) -> Result<Branch, NoMemory>
    ensures { IfOk result (λ b. (s : List Held) → to_else (stmt_view held.stmt.value) held.reach (frame_view frame ∷ s) ≡ branch_of b s) }
{
    match frame {
        Frame::YesOf(test) => {
            let reach = max(test.reach, held.reach);
            Ok(Branch::Else(Frame::NoOf(test.expr, held.stmt, reach)))
        }
        Frame::NoOf(test, yes, reach) => {
            Ok(Branch::Held(test_both(alloc, test, yes, reach, held)?))
        }
        Frame::WhileOf(test) => Ok(Branch::Held(repeating(alloc, test, held)?)),
        Frame::ForBody(init, test, update, reach) => {
            Ok(Branch::Held(looping(alloc, init, test, update, reach, held)?))
        }
        Frame::ForOfBody(constant, name, over) => {
            Ok(Branch::Held(iterating(alloc, constant, name, over, held)?))
        }
        other => {
            drop(other);
            Ok(Branch::Refused)
        }
    }
}

/// An `else`, which belongs to the nearest `if`.
fn to_else(alloc: Global, standing: Standing, stack: &mut Stack) -> Result<Step, NoMemory>
    ensures { IfOk result (λ r. to_else (stmt_view standing.stmt.value) standing.reach (stack_view stack.old) ≡ move_of r (stack_view stack.new)) }
{
    let mut held = standing;
    while let Some(frame) = stack.pop() {
        match branch_on(alloc, frame, held)? {
            Branch::Else(frame) => {
                stack.push(frame)?;
                return Ok(Step::Go(Mode::BodyStart));
            }
            Branch::Held(next) => held = next,
            Branch::Refused => return Ok(Step::Refused),
        }
    }
    Ok(Step::Refused)
}

/// A token behind the body of a `do`.
fn at_do(rules: Rules, held: Standing, token: &TokenKind, stack: &mut Stack) -> Step
    ensures { behind_standing (bounds rules) rules.side (standing (stmt_view held.stmt.value) held.reach (do_of ∷ stack_view stack.old)) token.now ≡ move_of result (stack_view stack.new) }
{
    let _unchanged = stack.here(); // this read tells the proof that the stack stays
    match token {
        TokenKind::Keyword(Keyword::While) => Step::Go(Mode::DoWhile(held.stmt, held.reach)),
        TokenKind::Keyword(_) => Step::Refused,
        TokenKind::Sign(_) => Step::Refused,
        TokenKind::Name(_) => Step::Refused,
        TokenKind::Number(_) => Step::Refused,
        TokenKind::Text(_) => Step::Refused,
    }
}

/// A token behind a statement on a frame that it doesn't end.
fn behind_on(
    alloc: Global,
    rules: Rules,
    frame: Frame,
    held: Standing,
    token: &TokenKind,
    stack: &mut Stack,
) -> Result<Step, NoMemory>
    ensures { IfOk result (λ r. behind_standing (bounds rules) rules.side (standing (stmt_view held.stmt.value) held.reach (frame_view frame ∷ stack_view stack.old)) token.now ≡ move_of r (stack_view stack.new)) }
{
    match frame {
        Frame::List(owner, stmts, q) => {
            let reach = max(q, held.reach);
            let stmts = with_stmt(stmts, held.stmt)?;
            stack.push(Frame::List(owner, stmts, reach))?;
            Ok(at_start(alloc, rules, token, stack)?)
        }
        Frame::DoOf => Ok(at_do(rules, held, token, stack)),
        other => {
            drop(other);
            Ok(Step::Refused)
        }
    }
}

/// A token behind a statement that ended all that it ends.
fn behind_standing(
    alloc: Global,
    rules: Rules,
    held: Standing,
    token: &TokenKind,
    stack: &mut Stack,
) -> Result<Step, NoMemory>
    ensures { IfOk result (λ r. behind_standing (bounds rules) rules.side (standing_of held stack.old) token.now ≡ move_of r (stack_view stack.new)) }
{
    match stack.pop() {
        Some(frame) => behind_on(alloc, rules, frame, held, token, stack),
        None => Ok(Step::Refused),
    }
}

fn behind_settled(
    alloc: Global,
    rules: Rules,
    standing: Standing,
    token: &TokenKind,
    stack: &mut Stack,
) -> Result<Step, NoMemory>
    ensures { IfOk result (λ r. behind_standing (bounds rules) rules.side (settle_stmt (stmt_view standing.stmt.value) standing.reach (stack_view stack.old)) token.now ≡ move_of r (stack_view stack.new)) }
{
    let held = settle_stmt(alloc, standing, stack)?;
    behind_standing(alloc, rules, held, token, stack)
}

/// A token behind a statement.
pub fn behind_stmt(
    alloc: Global,
    rules: Rules,
    stmt: Box<Stmt>,
    reach: usize,
    token: &TokenKind,
    stack: &mut Stack,
) -> Result<Step, NoMemory>
    ensures { IfOk result (λ r. behind_stmt (bounds rules) rules.side (stmt_view stmt.value) reach (stack_view stack.old) token.now ≡ move_of r (stack_view stack.new)) }
{
    let standing = Standing { stmt, reach };
    match token {
        TokenKind::Keyword(Keyword::Else) => to_else(alloc, standing, stack),
        _ => behind_settled(alloc, rules, standing, token, stack),
    }
}
