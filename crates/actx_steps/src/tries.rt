//! The parts of `try` and `switch`, as the `catch ( e ) { }` behind a block.

ghost use Rattle.std.specs.Prelude.{◌≡◌, IfOk, List};
ghost use Rattle.actx_grammar.specs.Parser.{at_case, at_case_colon, at_catch, at_catch_close, at_catch_name, at_catch_open, at_clause, at_finally, at_switch};
ghost use Rattle.actx_grammar.specs.ParserState.{Frame as Held};
ghost use Rattle.actx_grammar.specs.Tree.{Try, no_last};
ghost use Rattle.actx_ast.specs.View.{clauses_view, expr_view, stmt_view, stmts_view};
ghost use Rattle.actx_frames.specs.ParserView.{bounds, catch_view, move_of, stack_view};

use super::bodies::tried;
use super::loops::at_brace;
use super::standing::behind_stmt;
use actx_ast::tree::{Catcher, Clause, Expr, Stmt};
use actx_data::{NoMemory, Twin};
use actx_frames::limits::Rules;
use actx_frames::moves::{ended_new, go_if, open_list};
use actx_frames::stack::Stack;
use actx_frames::state::{ListOwner, Mode, Step};
use actx_frames::word::is_binding;
use actx_grammar::name::Name;
use actx_grammar::token::{Keyword, Sign, TokenKind};
use std::alloc::Global;

/// A token behind the block of a `try`.
pub fn at_catch(block: Vec<Stmt>, reach: usize, token: &TokenKind) -> Step
    ensures { (s : List Held) → at_catch (stmts_view block.items) reach s token.now ≡ move_of result s }
{
    match token {
        TokenKind::Keyword(Keyword::Catch) => Step::Go(Mode::CatchOpen(block, reach)),
        TokenKind::Keyword(Keyword::Finally) => Step::Go(Mode::FinallyOpen(block, None, reach)),
        TokenKind::Keyword(_) => Step::Refused,
        TokenKind::Sign(_) => Step::Refused,
        TokenKind::Name(_) => Step::Refused,
        TokenKind::Number(_) => Step::Refused,
        TokenKind::Text(_) => Step::Refused,
    }
}

/// A token behind `catch`.
pub fn at_catch_open(
    alloc: Global,
    block: Vec<Stmt>,
    reach: usize,
    token: &TokenKind,
    stack: &mut Stack,
) -> Result<Step, NoMemory>
    ensures { IfOk result (λ r. at_catch_open (stmts_view block.items) reach (stack_view stack.old) token.now ≡ move_of r (stack_view stack.new)) }
{
    match token {
        TokenKind::Sign(Sign::OpenParen) => {
            let _unchanged = stack.here(); // this read tells the proof that the stack stays
            Ok(Step::Go(Mode::CatchName(block, reach)))
        }
        _ => at_brace(alloc, ListOwner::Caught(block, None), reach, token, stack),
    }
}

/// A token where the name of what was thrown is wanted.
pub fn at_catch_name(
    alloc: Global,
    rules: Rules,
    block: Vec<Stmt>,
    reach: usize,
    token: &TokenKind,
) -> Result<Step, NoMemory>
    ensures { IfOk result (λ r. (s : List Held) → at_catch_name rules.side (stmts_view block.items) reach s token.now ≡ move_of r s) }
{
    match token {
        TokenKind::Name(name) => {
            let mode = Mode::CatchClose(block, name.copy(alloc)?, reach);
            Ok(go_if(is_binding(rules.side, name), mode))
        }
        TokenKind::Keyword(_) => Ok(Step::Refused),
        TokenKind::Number(_) => Ok(Step::Refused),
        TokenKind::Text(_) => Ok(Step::Refused),
        TokenKind::Sign(_) => Ok(Step::Refused),
    }
}

/// A token behind that name.
pub fn at_catch_close(block: Vec<Stmt>, name: Name, reach: usize, token: &TokenKind) -> Step
    ensures { (s : List Held) → at_catch_close (stmts_view block.items) name reach s token.now ≡ move_of result s }
{
    match token {
        TokenKind::Sign(Sign::CloseParen) => Step::Go(Mode::CatchBlock(block, name, reach)),
        TokenKind::Sign(_) => Step::Refused,
        TokenKind::Name(_) => Step::Refused,
        TokenKind::Keyword(_) => Step::Refused,
        TokenKind::Number(_) => Step::Refused,
        TokenKind::Text(_) => Step::Refused,
    }
}

/// A `try` without `finally`.
pub fn try_alone(block: Vec<Stmt>, catcher: Option<Catcher>) -> Stmt
    ensures { stmt_view result ≡ Try (stmts_view block.items) (catch_view catcher) no_last }
{
    tried(block, catcher, None)
}

/// A token behind the `catch` part.
pub fn at_finally(
    alloc: Global,
    rules: Rules,
    block: Vec<Stmt>,
    catcher: Option<Catcher>,
    reach: usize,
    token: &TokenKind,
    stack: &mut Stack,
) -> Result<Step, NoMemory>
    ensures { IfOk result (λ r. at_finally (bounds rules) rules.side (stmts_view block.items) (catch_view catcher) reach (stack_view stack.old) token.now ≡ move_of r (stack_view stack.new)) }
{
    match token {
        TokenKind::Keyword(Keyword::Finally) => {
            let _unchanged = stack.here(); // this read tells the proof that the stack stays
            Ok(Step::Go(Mode::FinallyOpen(block, catcher, reach)))
        }
        _ => {
            let stmt = Box::new(alloc, try_alone(block, catcher))?;
            behind_stmt(alloc, rules, stmt, reach, token, stack)
        }
    }
}

/// A token where the brace of a `switch` is wanted.
pub fn at_switch(alloc: Global, expr: Box<Expr>, reach: usize, token: &TokenKind) -> Step
    ensures { (s : List Held) → at_switch (expr_view expr.value) reach s token.now ≡ move_of result s }
{
    match token {
        TokenKind::Sign(Sign::OpenBrace) => {
            Step::Go(Mode::ClauseNext(expr, Vec::new(alloc), reach))
        }
        TokenKind::Sign(_) => Step::Refused,
        TokenKind::Name(_) => Step::Refused,
        TokenKind::Keyword(_) => Step::Refused,
        TokenKind::Number(_) => Step::Refused,
        TokenKind::Text(_) => Step::Refused,
    }
}

/// A token where the first clause of a `switch` may begin.
pub fn at_clause(
    alloc: Global,
    expr: Box<Expr>,
    clauses: Vec<Clause>,
    reach: usize,
    token: &TokenKind,
) -> Result<Step, NoMemory>
    ensures { IfOk result (λ r. (s : List Held) → at_clause (expr_view expr.value) (clauses_view clauses.items) reach s token.now ≡ move_of r s) }
{
    match token {
        TokenKind::Sign(Sign::CloseBrace) => {
            Ok(ended_new(alloc, Stmt::Switch(expr, clauses), reach)?)
        }
        TokenKind::Keyword(Keyword::Case) => Ok(Step::Go(Mode::CaseNumber(expr, clauses, reach))),
        TokenKind::Keyword(Keyword::Default) => {
            Ok(Step::Go(Mode::CaseColon(expr, clauses, None, reach)))
        }
        TokenKind::Sign(_) => Ok(Step::Refused),
        TokenKind::Keyword(_) => Ok(Step::Refused),
        TokenKind::Name(_) => Ok(Step::Refused),
        TokenKind::Number(_) => Ok(Step::Refused),
        TokenKind::Text(_) => Ok(Step::Refused),
    }
}

/// A token where the number of a clause is wanted.
pub fn at_case(expr: Box<Expr>, clauses: Vec<Clause>, reach: usize, token: &TokenKind) -> Step
    ensures { (s : List Held) → at_case (expr_view expr.value) (clauses_view clauses.items) reach s token.now ≡ move_of result s }
{
    match token {
        TokenKind::Number(n) => Step::Go(Mode::CaseColon(expr, clauses, Some(*n), reach)),
        TokenKind::Name(_) => Step::Refused,
        TokenKind::Keyword(_) => Step::Refused,
        TokenKind::Text(_) => Step::Refused,
        TokenKind::Sign(_) => Step::Refused,
    }
}

/// A token where the colon of a clause is wanted.
pub fn at_case_colon(
    alloc: Global,
    expr: Box<Expr>,
    clauses: Vec<Clause>,
    number: Option<u64>,
    reach: usize,
    token: &TokenKind,
    stack: &mut Stack,
) -> Result<Step, NoMemory>
    ensures { IfOk result (λ r. at_case_colon (expr_view expr.value) (clauses_view clauses.items) number reach (stack_view stack.old) token.now ≡ move_of r (stack_view stack.new)) }
{
    let _unchanged = stack.here(); // this read tells the proof that the stack stays
    match token {
        TokenKind::Sign(Sign::Colon) => {
            let owner = ListOwner::Clause(expr, clauses, number);
            Ok(open_list(alloc, owner, reach, stack)?)
        }
        TokenKind::Sign(_) => Ok(Step::Refused),
        TokenKind::Name(_) => Ok(Step::Refused),
        TokenKind::Keyword(_) => Ok(Step::Refused),
        TokenKind::Number(_) => Ok(Step::Refused),
        TokenKind::Text(_) => Ok(Step::Refused),
    }
}
