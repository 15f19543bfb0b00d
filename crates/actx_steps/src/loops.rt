//! Heads of statements, as the `( a ; b ; c )` of a `for`.

ghost use Rattle.std.specs.Prelude.{◌≡◌, IfOk, List};
ghost use Rattle.actx_grammar.specs.Parser.{at_brace, at_do_end, at_for, at_for_test, at_for_update, at_open, at_paren};
ghost use Rattle.actx_grammar.specs.ParserState.{Frame as Held};
ghost use Rattle.actx_grammar.specs.Tree.{DoWhile};
ghost use Rattle.actx_ast.specs.View.{expr_view, init_view, stmt_view};
ghost use Rattle.actx_frames.specs.ParserView.{bounds, frame_view, maybe_expr_view, mode_view, move_of, owner_view, stack_view};

use actx_ast::tree::{Expr, ForInit, Stmt};
use actx_data::NoMemory;
use actx_frames::limits::Rules;
use actx_frames::moves::{body_in, ended, need_in, open_list};
use actx_frames::operand::need_on;
use actx_frames::stack::Stack;
use actx_frames::state::{Frame, ItemsOf, ListOwner, Mode, Step};
use actx_grammar::token::{Keyword, Sign, TokenKind};
use std::alloc::Global;

/// A token where the parenthesis before an expression is wanted.
pub fn at_open(frame: Frame, token: &TokenKind, stack: &mut Stack) -> Result<Step, NoMemory>
    ensures { IfOk result (λ r. at_open (frame_view frame) (stack_view stack.old) token.now ≡ move_of r (stack_view stack.new)) }
{
    let _unchanged = stack.here(); // this read tells the proof that the stack stays
    match token {
        TokenKind::Sign(Sign::OpenParen) => Ok(need_in(frame, stack)?),
        TokenKind::Sign(_) => Ok(Step::Refused),
        TokenKind::Name(_) => Ok(Step::Refused),
        TokenKind::Keyword(_) => Ok(Step::Refused),
        TokenKind::Number(_) => Ok(Step::Refused),
        TokenKind::Text(_) => Ok(Step::Refused),
    }
}

/// A token where a parenthesis is wanted, and then something else.
pub fn at_paren(mode: Mode, token: &TokenKind) -> Step
    ensures { (s : List Held) → at_paren (mode_view mode) s token.now ≡ move_of result s }
{
    match token {
        TokenKind::Sign(Sign::OpenParen) => Step::Go(mode),
        TokenKind::Sign(_) => Step::Refused,
        TokenKind::Name(_) => Step::Refused,
        TokenKind::Keyword(_) => Step::Refused,
        TokenKind::Number(_) => Step::Refused,
        TokenKind::Text(_) => Step::Refused,
    }
}

/// A token where the brace of a list of statements is wanted.
pub fn at_brace(
    alloc: Global,
    owner: ListOwner,
    reach: usize,
    token: &TokenKind,
    stack: &mut Stack,
) -> Result<Step, NoMemory>
    ensures { IfOk result (λ r. at_brace (owner_view owner) reach (stack_view stack.old) token.now ≡ move_of r (stack_view stack.new)) }
{
    let _unchanged = stack.here(); // this read tells the proof that the stack stays
    match token {
        TokenKind::Sign(Sign::OpenBrace) => Ok(open_list(alloc, owner, reach, stack)?),
        TokenKind::Sign(_) => Ok(Step::Refused),
        TokenKind::Name(_) => Ok(Step::Refused),
        TokenKind::Keyword(_) => Ok(Step::Refused),
        TokenKind::Number(_) => Ok(Step::Refused),
        TokenKind::Text(_) => Ok(Step::Refused),
    }
}

/// A `do` with its body and test.
fn do_while(alloc: Global, stmt: Box<Stmt>, test: Box<Expr>) -> Result<Box<Stmt>, NoMemory>
    ensures { IfOk result (λ st. stmt_view st.value ≡ DoWhile (stmt_view stmt.value) (expr_view test.value)) }
{
    Ok(Box::new(alloc, Stmt::DoWhile(stmt, test))?)
}

/// A token behind the test of a `do`.
pub fn at_do_end(
    alloc: Global,
    stmt: Box<Stmt>,
    test: Box<Expr>,
    reach: usize,
    token: &TokenKind,
) -> Result<Step, NoMemory>
    ensures { IfOk result (λ r. (s : List Held) → at_do_end (stmt_view stmt.value) (expr_view test.value) reach s token.now ≡ move_of r s) }
{
    match token {
        TokenKind::Sign(Sign::Semicolon) => Ok(ended(do_while(alloc, stmt, test)?, reach)),
        TokenKind::Sign(_) => Ok(Step::Refused),
        TokenKind::Name(_) => Ok(Step::Refused),
        TokenKind::Keyword(_) => Ok(Step::Refused),
        TokenKind::Number(_) => Ok(Step::Refused),
        TokenKind::Text(_) => Ok(Step::Refused),
    }
}

/// A token behind the parenthesis of a `for`.
pub fn at_for(
    alloc: Global,
    rules: Rules,
    token: &TokenKind,
    stack: &mut Stack,
) -> Result<Step, NoMemory>
    ensures { IfOk result (λ r. at_for (bounds rules) rules.side (stack_view stack.old) token.now ≡ move_of r (stack_view stack.new)) }
{
    let reach = stack.here();
    match token {
        TokenKind::Keyword(Keyword::Let) => {
            Ok(Step::Go(Mode::LetName(ItemsOf::For, Vec::new(alloc), reach)))
        }
        TokenKind::Keyword(Keyword::Const) => {
            Ok(Step::Go(Mode::ConstName(ItemsOf::For, Vec::new(alloc), reach)))
        }
        TokenKind::Sign(Sign::Semicolon) => Ok(Step::Go(Mode::ForTest(ForInit::Nothing, reach))),
        _ => need_on(alloc, rules, Frame::ForInit, token, stack),
    }
}

/// A token where the test of a `for` is wanted.
pub fn at_for_test(
    alloc: Global,
    rules: Rules,
    init: ForInit,
    reach: usize,
    token: &TokenKind,
    stack: &mut Stack,
) -> Result<Step, NoMemory>
    ensures { IfOk result (λ r. at_for_test (bounds rules) rules.side (init_view init) reach (stack_view stack.old) token.now ≡ move_of r (stack_view stack.new)) }
{
    match token {
        TokenKind::Sign(Sign::Semicolon) => {
            let _unchanged = stack.here(); // this read tells the proof that the stack stays
            Ok(Step::Go(Mode::ForUpdate(init, None, reach)))
        }
        _ => need_on(alloc, rules, Frame::ForTest(init, reach), token, stack),
    }
}

/// A token where the update of a `for` is wanted.
pub fn at_for_update(
    alloc: Global,
    rules: Rules,
    init: ForInit,
    test: Option<Box<Expr>>,
    reach: usize,
    token: &TokenKind,
    stack: &mut Stack,
) -> Result<Step, NoMemory>
    ensures { IfOk result (λ r. at_for_update (bounds rules) rules.side (init_view init) (maybe_expr_view test) reach (stack_view stack.old) token.now ≡ move_of r (stack_view stack.new)) }
{
    match token {
        TokenKind::Sign(Sign::CloseParen) => {
            body_in(Frame::ForBody(init, test, None, reach), stack)
        }
        _ => need_on(
            alloc,
            rules,
            Frame::ForUpdate(init, test, reach),
            token,
            stack,
        ),
    }
}
