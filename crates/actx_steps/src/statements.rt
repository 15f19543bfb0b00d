//! Where a statement begins, as `if` does in `if (a) b;`.

ghost use Rattle.std.specs.Prelude.{◌≡◌, ◌∷◌, if◌then◌else◌, IfOk};
ghost use Rattle.actx_grammar.specs.Parser.{at_body_start, at_jump, at_return, at_start, at_statement, at_throw, list_keyword, statement_keyword, with_parts, without_parts};
ghost use Rattle.actx_grammar.specs.ParserOperands.{at_need};
ghost use Rattle.actx_grammar.specs.ParserState.{in_return, jump_end, refuse};
ghost use Rattle.actx_ast.specs.View.{stmt_view};
ghost use Rattle.actx_frames.specs.ParserView.{bounds, mode_view, move_of, stack_view};

use super::bodies::{close_list, next_clause};
use actx_ast::tree::Stmt;
use actx_data::NoMemory;
use actx_frames::limits::{Rules, fits, fits_below};
use actx_frames::moves::{body_in, ended, ended_new, go_if, open_list};
use actx_frames::operand::need_on;
use actx_frames::stack::Stack;
use actx_frames::state::{Frame, ItemsOf, ListOwner, Mode, Role, Step};
use actx_grammar::side::Side;
use actx_grammar::token::{Keyword, Sign, TokenKind};
use std::alloc::Global;

/// A statement whose parts stand one level below it.
fn with_parts(rules: Rules, mode: Mode, stack: &mut Stack) -> Step
    ensures { with_parts (bounds rules) (mode_view mode) (stack_view stack.old) ≡ move_of result (stack_view stack.new) }
{
    go_if(fits_below(rules, stack), mode)
}

/// A statement that has no parts, or may have none.
fn without_parts(rules: Rules, mode: Mode, stack: &mut Stack) -> Step
    ensures { without_parts (bounds rules) (mode_view mode) (stack_view stack.old) ≡ move_of result (stack_view stack.new) }
{
    go_if(fits(rules, stack.here()), mode)
}

/// `do`
fn begin_do(rules: Rules, stack: &mut Stack) -> Result<Step, NoMemory>
    ensures { IfOk result (λ r. statement_keyword (bounds rules) rules.side (stack_view stack.old) Keyword.Do ≡ move_of r (stack_view stack.new)) }
{
    if fits_below(rules, stack) {
        Ok(body_in(Frame::DoOf, stack)?)
    } else {
        Ok(Step::Refused)
    }
}

/// `switch`, which texts of users don't have.
fn begin_switch(
    alloc: Global,
    rules: Rules,
    token: &TokenKind,
    stack: &mut Stack,
) -> Result<Step, NoMemory>
    requires { token.now ≡ TokenKind.Keyword Keyword.Switch }
    ensures { IfOk result (λ r. statement_keyword (bounds rules) rules.side (stack_view stack.old) Keyword.Switch ≡ move_of r (stack_view stack.new)) }
{
    match rules.side {
        Side::Source => need_on(alloc, rules, Frame::Value, token, stack),
        Side::Plain => Ok(with_parts(rules, Mode::SwitchOpen, stack)),
    }
}

/// `break` or `continue`.
fn begin_jump(alloc: Global, rules: Rules, stmt: Stmt, stack: &mut Stack) -> Result<Step, NoMemory>
    ensures { IfOk result (λ r. without_parts (bounds rules) (jump_end (stmt_view stmt)) (stack_view stack.old) ≡ move_of r (stack_view stack.new)) }
{
    let stmt = Box::new(alloc, stmt)?;
    Ok(without_parts(rules, Mode::JumpEnd(stmt), stack))
}

/// A reserved word where a statement that is no declaration begins.
fn statement_keyword(
    alloc: Global,
    rules: Rules,
    keyword: Keyword,
    token: &TokenKind,
    stack: &mut Stack,
) -> Result<Step, NoMemory>
    requires { token.now ≡ TokenKind.Keyword keyword }
    ensures { IfOk result (λ r. statement_keyword (bounds rules) rules.side (stack_view stack.old) keyword ≡ move_of r (stack_view stack.new)) }
{
    match keyword {
        Keyword::If => Ok(with_parts(rules, Mode::IfOpen, stack)),
        Keyword::While => Ok(with_parts(rules, Mode::WhileOpen, stack)),
        Keyword::Do => begin_do(rules, stack),
        Keyword::For => Ok(with_parts(rules, Mode::ForOpen, stack)),
        Keyword::Break => begin_jump(alloc, rules, Stmt::Break, stack),
        Keyword::Continue => begin_jump(alloc, rules, Stmt::Continue, stack),
        Keyword::Return => Ok(without_parts(rules, Mode::ReturnNext, stack)),
        Keyword::Throw => Ok(with_parts(rules, Mode::ThrowNext, stack)),
        Keyword::Try => Ok(without_parts(rules, Mode::TryOpen, stack)),
        Keyword::Switch => begin_switch(alloc, rules, token, stack),
        Keyword::Function => Ok(Step::Refused),
        _ => need_on(alloc, rules, Frame::Value, token, stack),
    }
}

/// `let`, `const` and `function` where a declaration may stand.
fn begin_let(alloc: Global, rules: Rules, stack: &mut Stack) -> Step
    ensures { list_keyword (bounds rules) rules.side (stack_view stack.old) Keyword.Let ≡ move_of result (stack_view stack.new) }
{
    let mode = Mode::LetName(ItemsOf::Statement, Vec::new(alloc), stack.here());
    without_parts(rules, mode, stack)
}

fn begin_const(alloc: Global, rules: Rules, stack: &mut Stack) -> Step
    ensures { list_keyword (bounds rules) rules.side (stack_view stack.old) Keyword.Const ≡ move_of result (stack_view stack.new) }
{
    let mode = Mode::ConstName(ItemsOf::Statement, Vec::new(alloc), stack.here());
    with_parts(rules, mode, stack)
}

/// `async` where a declaration may stand.
fn begin_async(
    alloc: Global,
    rules: Rules,
    token: &TokenKind,
    stack: &mut Stack,
) -> Result<Step, NoMemory>
    requires { token.now ≡ TokenKind.Keyword Keyword.Async }
    ensures { IfOk result (λ r. list_keyword (bounds rules) rules.side (stack_view stack.old) Keyword.Async ≡ move_of r (stack_view stack.new)) }
{
    match rules.side {
        Side::Source => Ok(without_parts(rules, Mode::AsyncStart, stack)),
        Side::Plain => statement_keyword(alloc, rules, Keyword::Async, token, stack),
    }
}

/// A reserved word in a list: a declaration begins, or another statement, or the list goes on as a clause.
fn list_keyword(
    alloc: Global,
    rules: Rules,
    keyword: Keyword,
    token: &TokenKind,
    stack: &mut Stack,
) -> Result<Step, NoMemory>
    requires { token.now ≡ TokenKind.Keyword keyword }
    ensures { IfOk result (λ r. list_keyword (bounds rules) rules.side (stack_view stack.old) keyword ≡ move_of r (stack_view stack.new)) }
{
    match keyword {
        Keyword::Let => Ok(begin_let(alloc, rules, stack)),
        Keyword::Const => Ok(begin_const(alloc, rules, stack)),
        Keyword::Function => {
            Ok(without_parts(rules, Mode::FunctionNext(Role::Declaration), stack))
        }
        Keyword::Async => begin_async(alloc, rules, token, stack),
        Keyword::Case => next_clause(true, stack),
        Keyword::Default => next_clause(false, stack),
        _ => statement_keyword(alloc, rules, keyword, token, stack),
    }
}

/// A block.
fn begin_block(alloc: Global, rules: Rules, stack: &mut Stack) -> Result<Step, NoMemory>
    ensures { IfOk result (λ r. at_statement (bounds rules) rules.side (stack_view stack.old) (TokenKind.Sign Sign.OpenBrace) ≡ move_of r (stack_view stack.new)) }
{
    let reach = stack.here();
    if fits(rules, reach) {
        Ok(open_list(alloc, ListOwner::Block, reach, stack)?)
    } else {
        Ok(Step::Refused)
    }
}

/// The empty statement.
fn empty(alloc: Global, rules: Rules, stack: &mut Stack) -> Result<Step, NoMemory>
    ensures { IfOk result (λ r. at_statement (bounds rules) rules.side (stack_view stack.old) (TokenKind.Sign Sign.Semicolon) ≡ move_of r (stack_view stack.new)) }
{
    let mode = Mode::HaveStmt(Box::new(alloc, Stmt::Empty)?, stack.here());
    Ok(without_parts(rules, mode, stack))
}

/// A token that is no reserved word where a statement begins.
fn at_statement(
    alloc: Global,
    rules: Rules,
    token: &TokenKind,
    stack: &mut Stack,
) -> Result<Step, NoMemory>
    ensures { IfOk result (λ r. at_statement (bounds rules) rules.side (stack_view stack.old) token.now ≡ move_of r (stack_view stack.new)) }
{
    match token {
        TokenKind::Sign(Sign::OpenBrace) => begin_block(alloc, rules, stack),
        TokenKind::Sign(Sign::Semicolon) => empty(alloc, rules, stack),
        _ => need_on(alloc, rules, Frame::Value, token, stack),
    }
}

/// A token where a statement or the end of its list stands.
pub fn at_start(
    alloc: Global,
    rules: Rules,
    token: &TokenKind,
    stack: &mut Stack,
) -> Result<Step, NoMemory>
    ensures { IfOk result (λ r. at_start (bounds rules) rules.side (stack_view stack.old) token.now ≡ move_of r (stack_view stack.new)) }
{
    match token {
        TokenKind::Keyword(keyword) => list_keyword(alloc, rules, *keyword, token, stack),
        TokenKind::Sign(Sign::CloseBrace) => close_list(alloc, stack),
        _ => at_statement(alloc, rules, token, stack),
    }
}

/// A token where a statement that is no declaration begins.
pub fn at_body_start(
    alloc: Global,
    rules: Rules,
    token: &TokenKind,
    stack: &mut Stack,
) -> Result<Step, NoMemory>
    ensures { IfOk result (λ r. at_body_start (bounds rules) rules.side (stack_view stack.old) token.now ≡ move_of r (stack_view stack.new)) }
{
    match token {
        TokenKind::Keyword(keyword) => statement_keyword(alloc, rules, *keyword, token, stack),
        _ => at_statement(alloc, rules, token, stack),
    }
}

/// A token behind `break` and its like.
pub fn at_jump(stmt: Box<Stmt>, token: &TokenKind, stack: &mut Stack) -> Step
    ensures { at_jump (stmt_view stmt.value) (stack_view stack.old) token.now ≡ move_of result (stack_view stack.new) }
{
    let reach = stack.here();
    match token {
        TokenKind::Sign(Sign::Semicolon) => ended(stmt, reach),
        TokenKind::Sign(_) => Step::Refused,
        TokenKind::Name(_) => Step::Refused,
        TokenKind::Keyword(_) => Step::Refused,
        TokenKind::Number(_) => Step::Refused,
        TokenKind::Text(_) => Step::Refused,
    }
}

/// What is returned stands on the line of `return`.
fn return_value(
    alloc: Global,
    rules: Rules,
    token: &TokenKind,
    line_before: bool,
    stack: &mut Stack,
) -> Result<Step, NoMemory>
    ensures { IfOk result (λ r. (if line_before then refuse else at_need (bounds rules) rules.side (in_return ∷ stack_view stack.old) token.now) ≡ move_of r (stack_view stack.new)) }
{
    if line_before {
        Ok(Step::Refused)
    } else {
        Ok(need_on(alloc, rules, Frame::Return, token, stack)?)
    }
}

/// A token behind `return`.
pub fn at_return(
    alloc: Global,
    rules: Rules,
    token: &TokenKind,
    line_before: bool,
    stack: &mut Stack,
) -> Result<Step, NoMemory>
    ensures { IfOk result (λ r. at_return (bounds rules) rules.side (stack_view stack.old) token.now line_before ≡ move_of r (stack_view stack.new)) }
{
    match token {
        TokenKind::Sign(Sign::Semicolon) => {
            Ok(ended_new(alloc, Stmt::Return(None), stack.here())?)
        }
        _ => return_value(alloc, rules, token, line_before, stack),
    }
}

/// A token behind `throw`, on its line.
pub fn at_throw(
    alloc: Global,
    rules: Rules,
    token: &TokenKind,
    line_before: bool,
    stack: &mut Stack,
) -> Result<Step, NoMemory>
    ensures { IfOk result (λ r. at_throw (bounds rules) rules.side (stack_view stack.old) token.now line_before ≡ move_of r (stack_view stack.new)) }
{
    if line_before {
        Ok(Step::Refused)
    } else {
        Ok(need_on(alloc, rules, Frame::Throw, token, stack)?)
    }
}
