//! Numbers of nodes: the number behind a tree whose first node has a given number.

ghost use Rattle.std.specs.Prelude.{◌≡◌, ◌+◌, suc, IfOk, length, option_map};
ghost use Rattle.actx_grammar.specs.Nodes.{name_nodes, expr_nodes, exprs_nodes, maybe_nodes, key_nodes, prop_key_nodes, properties_nodes, code_nodes, lets_nodes, consts_nodes, init_nodes, stmt_nodes, stmts_nodes, catch_nodes, last_nodes, clauses_nodes};
ghost use Rattle.actx_ast.specs.View.{expr_view, exprs_view, key_view, prop_key_view, properties_view, function_view, lets_view, consts_view, init_view, stmt_view, stmts_view, catcher_view, clauses_view, maybe_expr};

use actx_ast::tree::{
    Catcher, Clause, ConstItem, Expr, ForInit, Function, Key, LetItem, PropKey, Property, Stmt,
};
use actx_data::NoMemory;
use actx_grammar::name::Name;

/// The next number.
pub fn after(at: u64) -> Result<u64, NoMemory>
    ensures { IfOk result (λ end. end ≡ suc at) }
{
    match at.checked_add(1) {
        Some(end) => Ok(end),
        None => Err(NoMemory),
    }
}

/// The number behind a name, where there is one.
pub fn name_end(at: u64, name: &Option<Name>) -> Result<u64, NoMemory>
    ensures { IfOk result (λ end. end ≡ at + name_nodes name.now) }
{
    match name {
        Some(_) => Ok(after(at)?),
        None => Ok(at),
    }
}

/// The number behind some names.
pub fn names_end(at: u64, names: &Vec<Name>) -> Result<u64, NoMemory>
    ensures { IfOk result (λ end. end ≡ at + length names.now.items) }
{
    match at.checked_add(names.len() as u64) {
        Some(end) => Ok(end),
        None => Err(NoMemory),
    }
}

/// The number behind an expression.
#[cycle(count)]
pub fn expr_end(at: u64, e: &Expr) -> Result<u64, NoMemory>
    ensures { IfOk result (λ end. end ≡ at + expr_nodes (expr_view e.now)) }
{
    let inner = after(at)?;
    match e {
        Expr::Num(_) => Ok(inner),
        Expr::Text(_) => Ok(inner),
        Expr::Truth(_) => Ok(inner),
        Expr::Null => Ok(inner),
        Expr::Undefined => Ok(inner),
        Expr::This => Ok(inner),
        Expr::Named(_) => Ok(inner),
        Expr::Unary(_, e) => Ok(expr_end(inner, e)?),
        Expr::Binary(_, left, right) => Ok(expr_end(expr_end(inner, left)?, right)?),
        Expr::Logic(_, left, right) => Ok(expr_end(expr_end(inner, left)?, right)?),
        Expr::Choice(test, yes, no) => {
            let behind = expr_end(expr_end(inner, test)?, yes)?;
            Ok(expr_end(behind, no)?)
        }
        Expr::SetName(_, value) => Ok(expr_end(inner, value)?),
        Expr::SetMember(base, key, value) => {
            let behind = key_end(expr_end(inner, base)?, key)?;
            Ok(expr_end(behind, value)?)
        }
        Expr::Change(_, _, value) => Ok(expr_end(inner, value)?),
        Expr::Bump {
            name: _,
            up: _,
            before: _,
        } => Ok(inner),
        Expr::Member(base, key) => Ok(key_end(expr_end(inner, base)?, key)?),
        Expr::Call(callee, args) => Ok(exprs_end(expr_end(inner, callee)?, args)?),
        Expr::Object(properties) => Ok(properties_end(inner, properties)?),
        Expr::Function(function) => Ok(function_end(inner, function)?),
        Expr::Yield(None) => Ok(inner),
        Expr::Yield(Some(value)) => Ok(expr_end(inner, value)?),
        Expr::YieldAll(value) => Ok(expr_end(inner, value)?),
        Expr::Await(value) => Ok(expr_end(inner, value)?),
        Expr::Form(_, parts) => Ok(exprs_end(inner, parts)?),
    }
}

/// The number behind some expressions.
#[cycle(count)]
fn exprs_end(at: u64, es: &Vec<Expr>) -> Result<u64, NoMemory>
    ensures { IfOk result (λ end. end ≡ at + exprs_nodes (exprs_view es.now.items)) }
{
    let mut end = at;
    for e in es {
        end = expr_end(end, e)?;
    }
    Ok(end)
}

/// The number behind an expression, where there is one.
#[cycle(count)]
pub fn maybe_end(at: u64, e: &Option<Box<Expr>>) -> Result<u64, NoMemory>
    ensures { IfOk result (λ end. end ≡ at + maybe_nodes (maybe_expr (option_map (λ b. expr_view b.value) e.now))) }
{
    match e {
        None => Ok(at),
        Some(e) => Ok(expr_end(at, e)?),
    }
}

/// The number behind the key of a member.
#[cycle(count)]
fn key_end(at: u64, key: &Key) -> Result<u64, NoMemory>
    ensures { IfOk result (λ end. end ≡ at + key_nodes (key_view key.now)) }
{
    match key {
        Key::Dot(_) => Ok(after(at)?),
        Key::Index(e) => Ok(expr_end(at, e)?),
    }
}

/// The number behind the key of a property.
#[cycle(count)]
fn prop_key_end(at: u64, key: &PropKey) -> Result<u64, NoMemory>
    ensures { IfOk result (λ end. end ≡ at + prop_key_nodes (prop_key_view key.now)) }
{
    match key {
        PropKey::Fixed(_) => Ok(after(at)?),
        PropKey::Computed(e) => Ok(expr_end(at, e)?),
    }
}

/// The number behind some properties.
#[cycle(count)]
fn properties_end(at: u64, properties: &Vec<Property>) -> Result<u64, NoMemory>
    ensures { IfOk result (λ end. end ≡ at + properties_nodes (properties_view properties.now.items)) }
{
    let mut end = at;
    for property in properties {
        end = prop_key_end(end, &property.key)?;
        end = expr_end(end, &property.value)?;
    }
    Ok(end)
}

/// The number behind what stands in a function: its own name, its parameters and its body.
#[cycle(count)]
fn function_end(at: u64, function: &Function) -> Result<u64, NoMemory>
    ensures { IfOk result (λ end. end ≡ at + code_nodes (function_view function.now)) }
{
    let behind = name_end(at, &function.name)?;
    let behind = names_end(behind, &function.params)?;
    Ok(stmts_end(behind, &function.body)?)
}

/// The number behind the items of a `let`.
#[cycle(count)]
fn lets_end(at: u64, items: &Vec<LetItem>) -> Result<u64, NoMemory>
    ensures { IfOk result (λ end. end ≡ at + lets_nodes (lets_view items.now.items)) }
{
    let mut end = at;
    for item in items {
        end = after(end)?;
        end = maybe_end(end, &item.value)?;
    }
    Ok(end)
}

/// The number behind the items of a `const`.
#[cycle(count)]
fn consts_end(at: u64, items: &Vec<ConstItem>) -> Result<u64, NoMemory>
    ensures { IfOk result (λ end. end ≡ at + consts_nodes (consts_view items.now.items)) }
{
    let mut end = at;
    for item in items {
        end = after(end)?;
        end = expr_end(end, &item.value)?;
    }
    Ok(end)
}

/// The number behind what a `for` begins with.
#[cycle(count)]
fn init_end(at: u64, init: &ForInit) -> Result<u64, NoMemory>
    ensures { IfOk result (λ end. end ≡ at + init_nodes (init_view init.now)) }
{
    match init {
        ForInit::Nothing => Ok(at),
        ForInit::Let(items) => Ok(lets_end(at, items)?),
        ForInit::Const(items) => Ok(consts_end(at, items)?),
        ForInit::Value(e) => Ok(expr_end(at, e)?),
    }
}

/// The number behind a statement.
#[cycle(count)]
pub fn stmt_end(at: u64, statement: &Stmt) -> Result<u64, NoMemory>
    ensures { IfOk result (λ end. end ≡ at + stmt_nodes (stmt_view statement.now)) }
{
    let inner = after(at)?;
    match statement {
        Stmt::Let(items) => Ok(lets_end(inner, items)?),
        Stmt::Const(items) => Ok(consts_end(inner, items)?),
        Stmt::Fun(function) => Ok(function_end(inner, function)?),
        Stmt::Block(body) => Ok(stmts_end(inner, body)?),
        Stmt::If(test, yes, None) => Ok(stmt_end(expr_end(inner, test)?, yes)?),
        Stmt::If(test, yes, Some(no)) => {
            let behind = stmt_end(expr_end(inner, test)?, yes)?;
            Ok(stmt_end(behind, no)?)
        }
        Stmt::While(test, body) => Ok(stmt_end(expr_end(inner, test)?, body)?),
        Stmt::DoWhile(body, test) => Ok(expr_end(stmt_end(inner, body)?, test)?),
        Stmt::For(init, test, update, body) => {
            let behind = maybe_end(init_end(inner, init)?, test)?;
            Ok(stmt_end(maybe_end(behind, update)?, body)?)
        }
        Stmt::ForOf {
            constant: _,
            name: _,
            over,
            body,
        } => Ok(stmt_end(expr_end(after(inner)?, over)?, body)?),
        Stmt::ForAwait {
            constant: _,
            name: _,
            over,
            body,
        } => Ok(stmt_end(expr_end(after(inner)?, over)?, body)?),
        Stmt::Break => Ok(inner),
        Stmt::Continue => Ok(inner),
        Stmt::Return(value) => Ok(maybe_end(inner, value)?),
        Stmt::Throw(value) => Ok(expr_end(inner, value)?),
        Stmt::Try {
            block,
            catcher: None,
            last: None,
        } => Ok(stmts_end(inner, block)?),
        Stmt::Try {
            block,
            catcher: Some(catcher),
            last: None,
        } => Ok(catcher_end(stmts_end(inner, block)?, catcher)?),
        Stmt::Try {
            block,
            catcher: None,
            last: Some(last),
        } => Ok(stmts_end(stmts_end(inner, block)?, last)?),
        Stmt::Try {
            block,
            catcher: Some(catcher),
            last: Some(last),
        } => {
            let behind = catcher_end(stmts_end(inner, block)?, catcher)?;
            Ok(stmts_end(behind, last)?)
        }
        Stmt::Value(e) => Ok(expr_end(inner, e)?),
        Stmt::Empty => Ok(inner),
        Stmt::Switch(e, clauses) => Ok(clauses_end(expr_end(inner, e)?, clauses)?),
    }
}

/// The number behind some statements.
#[cycle(count)]
pub fn stmts_end(at: u64, body: &Vec<Stmt>) -> Result<u64, NoMemory>
    ensures { IfOk result (λ end. end ≡ at + stmts_nodes (stmts_view body.now.items)) }
{
    let mut end = at;
    for statement in body {
        end = stmt_end(end, statement)?;
    }
    Ok(end)
}

/// The number behind a `catch` part.
#[cycle(count)]
fn catcher_end(at: u64, catcher: &Catcher) -> Result<u64, NoMemory>
    ensures { IfOk result (λ end. end ≡ at + catch_nodes (catcher_view catcher.now)) }
{
    let behind = name_end(at, &catcher.name)?;
    Ok(stmts_end(behind, &catcher.body)?)
}

/// The number behind the clauses of a `switch`.
#[cycle(count)]
fn clauses_end(at: u64, clauses: &Vec<Clause>) -> Result<u64, NoMemory>
    ensures { IfOk result (λ end. end ≡ at + clauses_nodes (clauses_view clauses.now.items)) }
{
    let mut end = at;
    for clause in clauses {
        end = stmts_end(end, &clause.body)?;
    }
    Ok(end)
}
