//! Lists of statements that end, as the body of a function.

ghost use Rattle.std.specs.Prelude.{◌≡◌, ◌∷◌, IfOk, List, Some, None, map, option_map};
ghost use Rattle.actx_grammar.specs.Parser.{close_list, end_body, end_list, next_clause};
ghost use Rattle.actx_grammar.specs.ParserState.{Frame as Held, arrow_head, clause_of, function_head, in_list};
ghost use Rattle.actx_grammar.specs.Grammar.{with_property};
ghost use Rattle.actx_grammar.specs.Tree.{Function as Functional, Try, catch, code, last};
ghost use Rattle.actx_ast.specs.View.{clauses_view, expr_view, last_of, prop_key_view, properties_view, stmt_view, stmts_view};
ghost use Rattle.actx_frames.specs.ParserView.{catch_view, frame_view, head_view, move_of, owner_view, role_view, stack_view};

use actx_ast::tree::{Catcher, Clause, Expr, PropKey, Property, Stmt};
use actx_data::NoMemory;
use actx_frames::lists::{with_clause, with_property};
use actx_frames::moves::{ended_new, have};
use actx_frames::nodes::{code, function};
use actx_frames::stack::Stack;
use actx_frames::state::{Frame, Head, ListOwner, Mode, Operand, Role, Step};
use actx_grammar::name::Name;
use actx_grammar::operators::FunctionKind;
use std::alloc::Global;

/// The body of an arrow ends.
fn end_arrow(
    alloc: Global,
    kind: FunctionKind,
    params: Vec<Name>,
    body: Vec<Stmt>,
    reach: usize,
) -> Result<Step, NoMemory>
    ensures { IfOk result (λ r. (s : List Held) → end_body (arrow_head kind) params.items (stmts_view body.items) reach s ≡ move_of r s) }
{
    let expr = function(alloc, None, kind, params, body)?;
    Ok(Step::Go(Mode::Whole(Operand { expr, reach })))
}

/// The body of a method ends.
fn end_method(
    alloc: Global,
    properties: Vec<Property>,
    key: PropKey,
    kind: FunctionKind,
    params: Vec<Name>,
    body: Vec<Stmt>,
) -> Result<Vec<Property>, NoMemory>
    ensures { IfOk result (λ ps. properties_view ps.items ≡ with_property (properties_view properties.items) (prop_key_view key) (Functional (code None kind params.items (stmts_view body.items)))) }
{
    let value = function(alloc, None, kind, params, body)?;
    with_property(properties, key, value)
}

/// The body of a function that isn't an arrow ends.
fn end_function(
    alloc: Global,
    role: Role,
    kind: FunctionKind,
    name: Option<Name>,
    params: Vec<Name>,
    body: Vec<Stmt>,
    reach: usize,
) -> Result<Step, NoMemory>
    ensures { IfOk result (λ r. (s : List Held) → end_body (function_head (role_view role) kind name) params.items (stmts_view body.items) reach s ≡ move_of r s) }
{
    match role {
        Role::Expression => {
            let expr = function(alloc, name, kind, params, body)?;
            Ok(have(expr, reach))
        }
        Role::Declaration => {
            let stmt = Stmt::Fun(code(name, kind, params, body));
            Ok(ended_new(alloc, stmt, reach)?)
        }
        Role::Method(properties, key, _) => {
            let properties = end_method(alloc, properties, key, kind, params, body)?;
            Ok(Step::Go(Mode::KeyEnd(properties, reach)))
        }
    }
}

/// The body of a function ends.
fn end_body(
    alloc: Global,
    head: Head,
    params: Vec<Name>,
    body: Vec<Stmt>,
    reach: usize,
) -> Result<Step, NoMemory>
    ensures { IfOk result (λ r. (s : List Held) → end_body (head_view head) params.items (stmts_view body.items) reach s ≡ move_of r s) }
{
    match head {
        Head::Arrow(kind) => end_arrow(alloc, kind, params, body, reach),
        Head::Function(role, kind, name) => {
            end_function(alloc, role, kind, name, params, body, reach)
        }
    }
}

/// The list of a clause ends, and the `switch` with it.
fn end_switch(
    alloc: Global,
    expr: Box<Expr>,
    clauses: Vec<Clause>,
    number: Option<u64>,
    body: Vec<Stmt>,
    reach: usize,
) -> Result<Step, NoMemory>
    ensures { IfOk result (λ r. (s : List Held) → end_list (clause_of (expr_view expr.value) (clauses_view clauses.items) number) (stmts_view body.items) reach s ≡ move_of r s) }
{
    let clauses = with_clause(clauses, number, body)?;
    ended_new(alloc, Stmt::Switch(expr, clauses), reach)
}

/// A `catch` part.
fn catcher(name: Option<Name>, body: Vec<Stmt>) -> Option<Catcher>
    ensures { catch_view result ≡ catch name (stmts_view body.items) }
{
    Some(Catcher { name, body })
}

/// A `try`, maybe with its `finally` part.
pub fn tried(block: Vec<Stmt>, catcher: Option<Catcher>, last: Option<Vec<Stmt>>) -> Stmt
    ensures { stmt_view result ≡ Try (stmts_view block.items) (catch_view catcher) (last_of (option_map (λ v. map stmt_view v.items) last)) }
{
    Stmt::Try {
        block,
        catcher,
        last,
    }
}

/// A `try` with its `finally` part.
fn try_with(block: Vec<Stmt>, catcher: Option<Catcher>, stmts: Vec<Stmt>) -> Stmt
    ensures { stmt_view result ≡ Try (stmts_view block.items) (catch_view catcher) (last (stmts_view stmts.items)) }
{
    tried(block, catcher, Some(stmts))
}

/// A list of statements ends.
fn end_list(
    alloc: Global,
    owner: ListOwner,
    stmts: Vec<Stmt>,
    reach: usize,
) -> Result<Step, NoMemory>
    ensures { IfOk result (λ r. (s : List Held) → end_list (owner_view owner) (stmts_view stmts.items) reach s ≡ move_of r s) }
{
    match owner {
        ListOwner::Program => Ok(Step::Refused),
        ListOwner::Body(head, params) => end_body(alloc, head, params, stmts, reach),
        ListOwner::Block => Ok(ended_new(alloc, Stmt::Block(stmts), reach)?),
        ListOwner::Tried => Ok(Step::Go(Mode::CatchNext(stmts, reach))),
        ListOwner::Caught(block, name) => {
            let catcher = catcher(name, stmts);
            Ok(Step::Go(Mode::FinallyNext(block, catcher, reach)))
        }
        ListOwner::Finally(block, catcher) => {
            Ok(ended_new(alloc, try_with(block, catcher, stmts), reach)?)
        }
        ListOwner::Clause(expr, clauses, number) => {
            end_switch(alloc, expr, clauses, number, stmts, reach)
        }
    }
}

/// A list of statements ends on a frame.
fn close_list_on(alloc: Global, frame: Frame) -> Result<Step, NoMemory>
    ensures { IfOk result (λ r. (s : List Held) → close_list (frame_view frame ∷ s) ≡ move_of r s) }
{
    match frame {
        Frame::List(owner, stmts, reach) => end_list(alloc, owner, stmts, reach),
        other => {
            drop(other);
            Ok(Step::Refused)
        }
    }
}

/// A closing brace where a statement may begin.
pub fn close_list(alloc: Global, stack: &mut Stack) -> Result<Step, NoMemory>
    ensures { IfOk result (λ r. close_list (stack_view stack.old) ≡ move_of r (stack_view stack.new)) }
{
    match stack.pop() {
        Some(frame) => Ok(close_list_on(alloc, frame)?),
        None => Ok(Step::Refused),
    }
}

/// Another clause begins behind one of a number.
fn behind_number(
    numbered: bool,
    expr: Box<Expr>,
    clauses: Vec<Clause>,
    number: u64,
    body: Vec<Stmt>,
    reach: usize,
) -> Result<Step, NoMemory>
    ensures { IfOk result (λ r. (s : List Held) → next_clause numbered (in_list (clause_of (expr_view expr.value) (clauses_view clauses.items) (Some number)) (stmts_view body.items) reach ∷ s) ≡ move_of r s) }
{
    let clauses = with_clause(clauses, Some(number), body)?;
    if numbered {
        Ok(Step::Go(Mode::CaseNumber(expr, clauses, reach)))
    } else {
        Ok(Step::Go(Mode::CaseColon(expr, clauses, None, reach)))
    }
}

/// Another clause begins behind one; the `default` is the last.
fn behind_clause(
    numbered: bool,
    expr: Box<Expr>,
    clauses: Vec<Clause>,
    number: Option<u64>,
    body: Vec<Stmt>,
    reach: usize,
) -> Result<Step, NoMemory>
    ensures { IfOk result (λ r. (s : List Held) → next_clause numbered (in_list (clause_of (expr_view expr.value) (clauses_view clauses.items) number) (stmts_view body.items) reach ∷ s) ≡ move_of r s) }
{
    match number {
        Some(n) => behind_number(numbered, expr, clauses, n, body, reach),
        None => Ok(Step::Refused),
    }
}

/// Another clause begins behind a list.
fn behind_list(
    numbered: bool,
    owner: ListOwner,
    body: Vec<Stmt>,
    reach: usize,
) -> Result<Step, NoMemory>
    ensures { IfOk result (λ r. (s : List Held) → next_clause numbered (in_list (owner_view owner) (stmts_view body.items) reach ∷ s) ≡ move_of r s) }
{
    match owner {
        ListOwner::Clause(expr, clauses, number) => {
            behind_clause(numbered, expr, clauses, number, body, reach)
        }
        other => {
            drop(other);
            Ok(Step::Refused)
        }
    }
}

/// Another clause begins on a frame.
fn clause_on(numbered: bool, frame: Frame) -> Result<Step, NoMemory>
    ensures { IfOk result (λ r. (s : List Held) → next_clause numbered (frame_view frame ∷ s) ≡ move_of r s) }
{
    match frame {
        Frame::List(owner, stmts, reach) => behind_list(numbered, owner, stmts, reach),
        other => {
            drop(other);
            Ok(Step::Refused)
        }
    }
}

/// `case` or `default`.
pub fn next_clause(numbered: bool, stack: &mut Stack) -> Result<Step, NoMemory>
    ensures { IfOk result (λ r. next_clause numbered (stack_view stack.old) ≡ move_of r (stack_view stack.new)) }
{
    match stack.pop() {
        Some(frame) => Ok(clause_on(numbered, frame)?),
        None => Ok(Step::Refused),
    }
}
