//! How deep a program's own tokens go: `( a + b ) * c ;` goes 5 levels deep, as a statement, a product, parentheses, a sum and a name.

ghost use Rattle.std.specs.Prelude.{◌≡◌, drop, min, max, suc, option_map, ℕ};
ghost use Rattle.actx_grammar.specs.Depth as spec;
ghost use Rattle.actx_grammar.specs.Spell.{inner};
ghost use Rattle.actx_ast.specs.Starts.{start_of};
ghost use Rattle.actx_grammar.specs.Tree as tree;
ghost use Rattle.actx_ast.specs.View.{catch_of, catcher_view, clause_view, clauses_view, const_view, consts_view, expr_view, exprs_view, function_view, init_view, key_view, let_view, lets_view, maybe_expr, maybe_stmt, program_view, prop_key_view, properties_view, property_view, stmt_view, stmts_view};
ghost use Rattle.actx_grammar.specs.declared.operators.Form.TheVariants as Form;

use super::levels::{inside, is_wrapped, left_level, level_of, logic_level, right_level};
use super::tree::{
    Catcher, Clause, ConstItem, Expr, ForInit, Function, Key, LetItem, Program, PropKey, Property,
    Stmt,
};
use actx_grammar::operators::Form;

/// How deep the program's own tokens go, or 4,294,967,295 where that is less: a node is one level deeper than its parent,
/// parentheses are a level, and a list goes as deep as the deepest of its parts.
pub fn depth(program: &Program) -> u32
    ensures { result ≡ min (spec.depth_program (program_view program.now)) 4294967295 }
{
    statements_depth(&program.body)
}

/// One level more.
fn above(depth: u32) -> u32
    ensures { result ≡ min (suc depth) 4294967295 }
{
    depth.saturating_add(1)
}

/// The deeper of two.
fn deeper(a: u32, b: u32) -> u32
    ensures { result ≡ max a b }
{
    if a < b { b } else { a }
}

/// One level above the deepest of three.
fn above_three(a: u32, b: u32, c: u32) -> u32
    ensures { (l m n : ℕ) → a ≡ min l 4294967295 → b ≡ min m 4294967295 → c ≡ min n 4294967295 → result ≡ min (suc (max l (max m n))) 4294967295 }
{
    above(deeper(a, deeper(b, c)))
}

/// With the level of the parentheses, where there are some.
fn wrap(wrapped: bool, depth: u32) -> u32
    ensures { (n : ℕ) → depth ≡ min n 4294967295 → result ≡ min (spec.with_parens wrapped n) 4294967295 }
{
    if wrapped {
        depth.saturating_add(1)
    } else {
        depth
    }
}

/// `first` says whether a statement begins with the expression.
#[cycle(depth)]
#[tactic(auto, using(crate::proofs::FormDepths::form_level))]
fn expr_depth(first: bool, e: &Expr, level: u8) -> u32
    ensures { result ≡ min (spec.depth (start_of first) (expr_view e.now) level) 4294967295 }
{
    match e {
        Expr::Num(_)
        | Expr::Text(_)
        | Expr::Truth(_)
        | Expr::Null
        | Expr::Undefined
        | Expr::This
        | Expr::Named(_) => 1,
        Expr::Unary(_, a) => wrap(9 < level, above(expr_depth(false, a, 9))),
        Expr::Binary(op, a, b) => {
            let own = level_of(*op);
            let left = expr_depth(inside(own < level, first), a, own);
            let right = expr_depth(false, b, own + 1);
            wrap(own < level, above(deeper(left, right)))
        }
        Expr::Logic(op, a, b) => {
            let own = logic_level(*op);
            let left = expr_depth(inside(own < level, first), a, left_level(*op, a));
            let right = expr_depth(false, b, right_level(*op));
            wrap(own < level, above(deeper(left, right)))
        }
        Expr::Choice(test, a, b) => {
            let test = expr_depth(inside(2 < level, first), test, 3);
            let branches = deeper(expr_depth(false, a, 1), expr_depth(false, b, 1));
            wrap(2 < level, above(deeper(test, branches)))
        }
        Expr::SetName(_, value) => wrap(1 < level, above(expr_depth(false, value, 1))),
        Expr::SetMember(base, key, value) => {
            let base = expr_depth(inside(1 < level, first), base, 11);
            let rest = deeper(key_depth(key), expr_depth(false, value, 1));
            wrap(1 < level, above(deeper(base, rest)))
        }
        Expr::Change(_, _, value) => wrap(1 < level, above(expr_depth(false, value, 1))),
        Expr::Bump { .. } => wrap(10 < level, 1),
        Expr::Member(base, key) => {
            let base = expr_depth(inside(11 < level, first), base, 11);
            wrap(11 < level, above(deeper(base, key_depth(key))))
        }
        Expr::Call(callee, args) => {
            let callee = expr_depth(inside(11 < level, first), callee, 11);
            wrap(11 < level, above(deeper(callee, list_depth(args, 0))))
        }
        Expr::Object(properties) => wrap(first, above(properties_depth(properties))),
        Expr::Function(function) => {
            let wrapped = is_wrapped(function.kind, first, level);
            wrap(wrapped, above(statements_depth(&function.body)))
        }
        Expr::Yield(None) => wrap(1 < level, 1),
        Expr::Yield(Some(value)) => wrap(1 < level, above(expr_depth(false, value, 1))),
        Expr::YieldAll(value) => wrap(1 < level, above(expr_depth(false, value, 1))),
        Expr::Await(value) => wrap(9 < level, above(expr_depth(false, value, 9))),
        Expr::Form(form, parts) => wrap(
            11 < level,
            form_depth(inside(11 < level, first), *form, parts),
        ),
    }
}

/// A form without parentheses round it.
#[cycle(depth)]
fn form_depth(first: bool, form: Form, parts: &[Expr]) -> u32
    ensures { result ≡ min (spec.depth (start_of first) (tree.Built form (exprs_view parts.now)) 11) 4294967295 }
{
    match form {
        Form::CallWith => call_with_depth(first, parts),
        _ => above(list_depth(parts, 0)),
    }
}

/// `f.call` without parentheses round it: its first part stands before the others.
#[cycle(depth)]
fn call_with_depth(first: bool, parts: &[Expr]) -> u32
    ensures { result ≡ min (spec.depth (start_of first) (tree.Built Form.CallWith (exprs_view parts.now)) 11) 4294967295 }
{
    match parts {
        [] => 1,
        [callee, ..] => above(deeper(expr_depth(first, callee, 11), list_depth(parts, 1))),
    }
}

/// The expressions from a place on.
#[cycle(depth)]
fn list_depth(es: &[Expr], from: usize) -> u32
    ensures { result ≡ min (spec.depth_list (exprs_view (drop from es.now))) 4294967295 }
{
    let mut depth = 0;
    for i in from..es.len() {
        depth = deeper(depth, expr_depth(false, &es[i], 1));
    }
    depth
}

#[cycle(depth)]
fn key_depth(key: &Key) -> u32
    ensures { result ≡ min (spec.depth_key (key_view key.now)) 4294967295 }
{
    match key {
        Key::Dot(_) => 0,
        Key::Index(e) => expr_depth(false, e, 1),
    }
}

#[cycle(depth)]
fn property_key_depth(key: &PropKey) -> u32
    ensures { result ≡ min (spec.depth_prop_key (prop_key_view key.now)) 4294967295 }
{
    match key {
        PropKey::Fixed(_) => 0,
        PropKey::Computed(e) => expr_depth(false, e, 1),
    }
}

#[cycle(depth)]
fn property_depth(property: &Property) -> u32
    ensures { result ≡ min (max (spec.depth_prop_key (property_view property.now).0) (spec.depth inner (property_view property.now).1 1)) 4294967295 }
{
    deeper(
        property_key_depth(&property.key),
        expr_depth(false, &property.value, 1),
    )
}

#[cycle(depth)]
fn properties_depth(properties: &[Property]) -> u32
    ensures { result ≡ min (spec.depth_properties (properties_view properties.now)) 4294967295 }
{
    let mut depth = 0;
    for property in properties {
        depth = deeper(depth, property_depth(property));
    }
    depth
}

#[cycle(depth)]
fn maybe_depth(e: &Option<Box<Expr>>) -> u32
    ensures { result ≡ min (spec.depth_maybe (maybe_expr (option_map (λ b. expr_view b.value) e.now))) 4294967295 }
{
    match e {
        None => 0,
        Some(e) => expr_depth(false, e, 1),
    }
}

#[cycle(depth)]
fn let_depth(item: &LetItem) -> u32
    ensures { result ≡ min (spec.depth_maybe (let_view item.now).1) 4294967295 }
{
    maybe_depth(&item.value)
}

#[cycle(depth)]
fn lets_depth(items: &[LetItem]) -> u32
    ensures { result ≡ min (spec.depth_lets (lets_view items.now)) 4294967295 }
{
    let mut depth = 0;
    for item in items {
        depth = deeper(depth, let_depth(item));
    }
    depth
}

#[cycle(depth)]
fn const_depth(item: &ConstItem) -> u32
    ensures { result ≡ min (spec.depth inner (const_view item.now).1 1) 4294967295 }
{
    expr_depth(false, &item.value, 1)
}

#[cycle(depth)]
fn consts_depth(items: &[ConstItem]) -> u32
    ensures { result ≡ min (spec.depth_consts (consts_view items.now)) 4294967295 }
{
    let mut depth = 0;
    for item in items {
        depth = deeper(depth, const_depth(item));
    }
    depth
}

#[cycle(depth)]
fn init_depth(init: &ForInit) -> u32
    ensures { result ≡ min (spec.depth_init (init_view init.now)) 4294967295 }
{
    match init {
        ForInit::Nothing => 0,
        ForInit::Let(items) => lets_depth(items),
        ForInit::Const(items) => consts_depth(items),
        ForInit::Value(e) => expr_depth(false, e, 1),
    }
}

#[cycle(depth)]
fn function_depth(function: &Function) -> u32
    ensures { result ≡ min (spec.depth_stmt (tree.Fun (function_view function.now))) 4294967295 }
{
    above(statements_depth(&function.body))
}

#[cycle(depth)]
fn statement_depth(stmt: &Stmt) -> u32
    ensures { result ≡ min (spec.depth_stmt (stmt_view stmt.now)) 4294967295 }
{
    match stmt {
        Stmt::Let(items) => above(lets_depth(items)),
        Stmt::Const(items) => above(consts_depth(items)),
        Stmt::Fun(function) => function_depth(function),
        Stmt::Block(body) => above(statements_depth(body)),
        Stmt::If(test, branch, other) => {
            let test = expr_depth(false, test, 1);
            above_three(test, statement_depth(branch), other_depth(other))
        }
        Stmt::While(test, body) => {
            above(deeper(expr_depth(false, test, 1), statement_depth(body)))
        }
        Stmt::DoWhile(body, test) => {
            above(deeper(statement_depth(body), expr_depth(false, test, 1)))
        }
        Stmt::For(init, test, update, body) => {
            let head = deeper(init_depth(init), maybe_depth(test));
            above(deeper(head, deeper(maybe_depth(update), statement_depth(body))))
        }
        Stmt::ForOf { over, body, .. } => {
            above(deeper(expr_depth(false, over, 1), statement_depth(body)))
        }
        Stmt::ForAwait { over, body, .. } => {
            above(deeper(expr_depth(false, over, 1), statement_depth(body)))
        }
        Stmt::Break | Stmt::Continue | Stmt::Empty => 1,
        Stmt::Return(value) => above(maybe_depth(value)),
        Stmt::Throw(value) => above(expr_depth(false, value, 1)),
        Stmt::Try {
            block,
            catcher,
            last: None,
        } => above(deeper(statements_depth(block), catch_depth(catcher))),
        Stmt::Try {
            block,
            catcher,
            last: Some(last),
        } => {
            let rest = deeper(catch_depth(catcher), statements_depth(last));
            above(deeper(statements_depth(block), rest))
        }
        Stmt::Value(value) => above(expr_depth(true, value, 1)),
        Stmt::Switch(value, clauses) => {
            above(deeper(expr_depth(false, value, 1), clauses_depth(clauses)))
        }
    }
}

#[cycle(depth)]
fn other_depth(other: &Option<Box<Stmt>>) -> u32
    ensures { result ≡ min (spec.depth_branch (maybe_stmt (option_map (λ b. stmt_view b.value) other.now))) 4294967295 }
{
    match other {
        None => 0,
        Some(other) => statement_depth(other),
    }
}

#[cycle(depth)]
fn statements_depth(body: &[Stmt]) -> u32
    ensures { result ≡ min (spec.depth_program (stmts_view body.now)) 4294967295 }
{
    let mut depth = 0;
    for stmt in body {
        depth = deeper(depth, statement_depth(stmt));
    }
    depth
}

#[cycle(depth)]
fn catch_depth(catcher: &Option<Catcher>) -> u32
    ensures { result ≡ min (spec.depth_catch (catch_of (option_map catcher_view catcher.now))) 4294967295 }
{
    match catcher {
        None => 0,
        Some(catcher) => statements_depth(&catcher.body),
    }
}

#[cycle(depth)]
fn clause_depth(clause: &Clause) -> u32
    ensures { result ≡ min (spec.depth_program (clause_view clause.now).1) 4294967295 }
{
    statements_depth(&clause.body)
}

#[cycle(depth)]
fn clauses_depth(clauses: &[Clause]) -> u32
    ensures { result ≡ min (spec.depth_clauses (clauses_view clauses.now)) 4294967295 }
{
    let mut depth = 0;
    for clause in clauses {
        depth = deeper(depth, clause_depth(clause));
    }
    depth
}
