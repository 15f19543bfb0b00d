//! The parser's loop, a token at a time.

ghost use Rattle.std.specs.Prelude.{◌≡◌, IfOk, option_map};
ghost use Rattle.actx_grammar.specs.Parser.{finish, finish_standing, move, settle_stmt};
ghost use Rattle.actx_grammar.specs.ParserState.{start};
ghost use Rattle.actx_ast.specs.View.{program_view, stmt_view, stmts_view};
ghost use Rattle.actx_frames.specs.ParserView.{alone, bounds, frame_view, listed, mode_view, move_of, stack_view};
ghost use Rattle.actx_steps.specs.StandingView.{standing_of};
ghost use Rattle.actx_lex.specs.Lexemes.{lexemes};
ghost use Rattle.actx_parse.specs.Scan.{scan, scan_of};

use actx_ast::tree::{Program, Stmt};
use actx_data::NoMemory;
use actx_frames::forms::at_words;
use actx_frames::limits::Rules;
use actx_frames::lists::with_stmt;
use actx_frames::operand::{at_bump_name, at_need};
use actx_frames::stack::Stack;
use actx_frames::state::{Frame, ListOwner, Mode, Operand, Step};
use actx_grammar::token::TokenKind;
use actx_lex::token::Token;
use actx_steps::behind::{at_have, at_member, at_operator};
use actx_steps::ends::at_whole;
use actx_steps::functions::{at_async, at_async_start, at_function, at_function_name, at_yield};
use actx_steps::items::{at_const_behind, at_const_name, at_let_behind, at_let_name};
use actx_steps::loops::{
    at_brace, at_do_end, at_for, at_for_test, at_for_update, at_open, at_paren,
};
use actx_steps::members::{at_call, at_member_name};
use actx_steps::names::{at_closed, at_first, at_name, at_opened};
use actx_steps::objects::{
    at_key, at_method, at_method_key, behind_async, behind_key, behind_key_name, behind_property,
};
use actx_steps::params::{
    at_arrow_body, at_arrow_sign, at_body_open, at_param, at_params_open, behind_param,
};
use actx_steps::standing::{Standing, behind_stmt, settle_stmt};
use actx_steps::statements::{at_body_start, at_jump, at_return, at_start, at_throw};
use actx_steps::tries::{
    at_case, at_case_colon, at_catch, at_catch_close, at_catch_name, at_catch_open, at_clause,
    at_finally, at_switch, try_alone,
};
use std::alloc::Global;

/// What the tokens come to: a program, or the number of the first one that none goes on with.
#[derive(Drop)]
pub enum Outcome {
    Parsed(Program),
    Refused(usize),
}

/// One token.
fn step(
    alloc: Global,
    rules: Rules,
    mode: Mode,
    kind: &TokenKind,
    line_before: bool,
    stack: &mut Stack,
) -> Result<Step, NoMemory>
    ensures { IfOk result (λ r. move (bounds rules) rules.side (mode_view mode) (stack_view stack.old) kind.now line_before ≡ move_of r (stack_view stack.new)) }
{
    let here = stack.here();
    match mode {
        Mode::Start => at_start(alloc, rules, kind, stack),
        Mode::BodyStart => at_body_start(alloc, rules, kind, stack),
        Mode::HaveStmt(stmt, reach) => behind_stmt(alloc, rules, stmt, reach, kind, stack),
        Mode::Need => at_need(alloc, rules, kind, stack),
        Mode::Have(operand) => at_have(alloc, rules, operand, kind, stack),
        Mode::HaveMember(base, key, reach) => {
            at_member(alloc, rules, base, key, reach, kind, stack)
        }
        Mode::HaveName(name) => at_name(alloc, rules, name, kind, line_before, stack),
        Mode::HaveBump(expr) => {
            at_operator(alloc, rules, Operand { expr, reach: here }, kind, stack)
        }
        Mode::Whole(operand) => at_whole(alloc, operand, kind, stack),
        Mode::Opened => at_opened(alloc, rules, kind, stack),
        Mode::FirstName(name) => at_first(alloc, rules, name, kind, line_before, stack),
        Mode::ClosedName(name) => at_closed(alloc, rules, name, kind, line_before, stack),
        Mode::BumpName(up) => at_bump_name(alloc, rules, up, kind),
        Mode::YieldNext => at_yield(alloc, rules, kind, line_before, stack),
        Mode::AsyncNext => at_async(alloc, rules, kind, line_before, stack),
        Mode::AsyncStart => at_async_start(alloc, rules, kind, line_before, stack),
        Mode::FunctionNext(role) => at_function(alloc, rules, role, kind),
        Mode::NameNext(role, of) => at_function_name(alloc, rules, role, of, kind),
        Mode::ParamsOpen(head) => Ok(at_params_open(alloc, head, kind)),
        Mode::ParamNext(head, params) => at_param(alloc, rules, head, params, kind),
        Mode::ParamBehind(head, params) => Ok(behind_param(head, params, kind)),
        Mode::ArrowSign(of, params) => Ok(at_arrow_sign(of, params, kind, line_before)),
        Mode::ArrowBody(of, params) => at_arrow_body(alloc, rules, of, params, kind, stack),
        Mode::BodyOpen(head, params) => at_body_open(alloc, head, params, kind, stack),
        Mode::KeyNext(properties, reach) => at_key(alloc, rules, properties, reach, kind, stack),
        Mode::KeyBehind(properties, key, reach) => {
            behind_key(alloc, properties, key, reach, kind, stack)
        }
        Mode::KeyName(properties, name, reach) => {
            behind_key_name(alloc, rules, properties, name, reach, kind, stack)
        }
        Mode::KeyAsync(properties, reach) => {
            behind_async(alloc, properties, reach, kind, line_before, stack)
        }
        Mode::KeyEnd(properties, reach) => behind_property(alloc, properties, reach, kind),
        Mode::MethodKey(properties, of, reach) => {
            at_method_key(alloc, properties, of, reach, kind, stack)
        }
        Mode::MethodOpen(properties, of, key, reach) => {
            Ok(at_method(alloc, properties, of, key, reach, kind))
        }
        Mode::MemberName(operand) => at_member_name(alloc, rules, operand, kind),
        Mode::CallOpen(operand) => at_call(alloc, operand, kind, stack),
        Mode::WordsNext(words) => at_words(alloc, rules, words, kind, stack),
        Mode::LetName(of, items, reach) => at_let_name(alloc, rules, of, items, reach, kind),
        Mode::LetBehind(of, items, name, reach) => {
            at_let_behind(alloc, rules, of, items, name, reach, kind, stack)
        }
        Mode::ConstName(of, items, reach) => at_const_name(alloc, rules, of, items, reach, kind),
        Mode::ConstBehind(of, items, name, reach) => {
            at_const_behind(rules, of, items, name, reach, kind, stack)
        }
        Mode::JumpEnd(stmt) => Ok(at_jump(stmt, kind, stack)),
        Mode::ReturnNext => at_return(alloc, rules, kind, line_before, stack),
        Mode::ThrowNext => at_throw(alloc, rules, kind, line_before, stack),
        Mode::IfOpen => at_open(Frame::If, kind, stack),
        Mode::WhileOpen => at_open(Frame::While, kind, stack),
        Mode::DoWhile(stmt, reach) => at_open(Frame::DoTest(stmt, reach), kind, stack),
        Mode::DoEnd(stmt, test, reach) => at_do_end(alloc, stmt, test, reach, kind),
        Mode::ForOpen => Ok(at_paren(Mode::ForNext, kind)),
        Mode::ForNext => at_for(alloc, rules, kind, stack),
        Mode::ForTest(init, reach) => at_for_test(alloc, rules, init, reach, kind, stack),
        Mode::ForUpdate(init, test, reach) => {
            at_for_update(alloc, rules, init, test, reach, kind, stack)
        }
        Mode::TryOpen => at_brace(alloc, ListOwner::Tried, here, kind, stack),
        Mode::CatchNext(block, reach) => Ok(at_catch(block, reach, kind)),
        Mode::CatchOpen(block, reach) => at_catch_open(alloc, block, reach, kind, stack),
        Mode::CatchName(block, reach) => at_catch_name(alloc, rules, block, reach, kind),
        Mode::CatchClose(block, name, reach) => Ok(at_catch_close(block, name, reach, kind)),
        Mode::CatchBlock(block, name, reach) => {
            at_brace(
                alloc,
                ListOwner::Caught(block, Some(name)),
                reach,
                kind,
                stack,
            )
        }
        Mode::FinallyNext(block, catcher, reach) => {
            at_finally(alloc, rules, block, catcher, reach, kind, stack)
        }
        Mode::FinallyOpen(block, catcher, reach) => {
            at_brace(
                alloc,
                ListOwner::Finally(block, catcher),
                reach,
                kind,
                stack,
            )
        }
        Mode::SwitchOpen => at_open(Frame::Switch, kind, stack),
        Mode::SwitchBrace(operand) => { Ok(at_switch(alloc, operand.expr, operand.reach, kind)) }
        Mode::ClauseNext(expr, clauses, reach) => at_clause(alloc, expr, clauses, reach, kind),
        Mode::CaseNumber(expr, clauses, reach) => Ok(at_case(expr, clauses, reach, kind)),
        Mode::CaseColon(expr, clauses, number, reach) => {
            at_case_colon(alloc, expr, clauses, number, reach, kind, stack)
        }
    }
}

/// The statements of the program, where its list is the frame.
fn program_list(frame: Frame) -> Option<Vec<Stmt>>
    ensures { option_map (λ v. stmts_view v.items) result ≡ listed (frame_view frame) }
{
    match frame {
        Frame::List(ListOwner::Program, stmts, _) => Some(stmts),
        other => {
            drop(other);
            None
        }
    }
}

/// The statements of the program, where its list alone is open.
fn only_list(stack: &mut Stack) -> Option<Vec<Stmt>>
    ensures { option_map (λ v. stmts_view v.items) result ≡ alone (stack_view stack.old) }
{
    let frame = stack.pop()?;
    if stack.top().is_none() {
        program_list(frame)
    } else {
        None
    }
}

/// The program, where its list alone is open.
fn finish_list(stack: &mut Stack) -> Option<Program>
    ensures { option_map program_view result ≡ finish start (stack_view stack.old) }
{
    let body = only_list(stack)?;
    Some(Program { body })
}

/// The program with a last statement.
fn finish_standing(held: Standing, stack: &mut Stack) -> Result<Option<Program>, NoMemory>
    ensures { IfOk result (λ found. option_map program_view found ≡ finish_standing (standing_of held stack.old)) }
{
    match only_list(stack) {
        Some(body) => {
            let body = with_stmt(body, held.stmt)?;
            Ok(Some(Program { body }))
        }
        None => Ok(None),
    }
}

/// The program, where this statement is its last.
fn finish_stmt(
    alloc: Global,
    stmt: Box<Stmt>,
    reach: usize,
    stack: &mut Stack,
) -> Result<Option<Program>, NoMemory>
    ensures { IfOk result (λ found. option_map program_view found ≡ finish_standing (settle_stmt (stmt_view stmt.value) reach (stack_view stack.old))) }
{
    let held = settle_stmt(alloc, Standing { stmt, reach }, stack)?;
    finish_standing(held, stack)
}

/// The program, where what is wanted and what is open make one.
fn finish(alloc: Global, mode: Mode, stack: &mut Stack) -> Result<Option<Program>, NoMemory>
    ensures { IfOk result (λ found. option_map program_view found ≡ finish (mode_view mode) (stack_view stack.old)) }
{
    match mode {
        Mode::Start => Ok(finish_list(stack)),
        Mode::HaveStmt(stmt, reach) => finish_stmt(alloc, stmt, reach, stack),
        Mode::FinallyNext(block, catcher, reach) => {
            let stmt = Box::new(alloc, try_alone(block, catcher))?;
            finish_stmt(alloc, stmt, reach, stack)
        }
        other => {
            drop(other);
            Ok(None)
        }
    }
}

/// What the tokens come to by some rules.
pub fn scan(alloc: Global, rules: Rules, tokens: &[Token]) -> Result<Outcome, NoMemory>
    ensures { IfOk result (λ r. scan_of r ≡ scan (bounds rules) rules.side (lexemes tokens.now)) }
{
    let mut mode = Mode::Start;
    let mut stack = Stack::new(alloc);
    stack.push(Frame::List(ListOwner::Program, Vec::new(alloc), 0))?;
    for (at, token) in tokens.iter().enumerate() {
        match step(
            alloc,
            rules,
            mode,
            &token.kind,
            token.line_before,
            &mut stack,
        )? {
            Step::Go(next) => mode = next,
            Step::Refused => return Ok(Outcome::Refused(at)),
        }
    }
    match finish(alloc, mode, &mut stack)? {
        Some(program) => Ok(Outcome::Parsed(program)),
        None => Ok(Outcome::Refused(tokens.len())),
    }
}
