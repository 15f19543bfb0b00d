//! Which programs a side spells: `switch` stands on the plain side alone, `await` among users' texts alone.

ghost use Rattle.std.specs.Prelude.{◌↔◌, IsTrue, option_map};
ghost use Rattle.actx_ast.specs.Clauses.{EachOn, IsNumber};
ghost use Rattle.actx_grammar.specs.Grammar.{IsBody};
ghost use Rattle.actx_grammar.specs.Names.{IsBinding};
ghost use Rattle.actx_grammar.specs.Sides.{CatchOn, ClausesOn, ConstsOn, ExprOn, ExprsOn, InitOn, KeyOn, LetsOn, MaybeOn, PropertiesOn, PropKeyOn, StmtOn, StmtsOn};
ghost use Rattle.actx_grammar.specs.Tree as tree;
ghost use Rattle.actx_ast.specs.View.{clauses_view, consts_view, expr_view, exprs_view, function_view, init_view, key_view, lets_view, maybe_expr, catcher_view, clause_view, const_view, let_view, property_view, program_view, prop_key_view, properties_view, stmt_view, stmts_view};
ghost use Rattle.actx_grammar.specs.declared.side.Side.TheVariants as Side;

mod nodes;

use super::tree::{
    Catcher, Clause, ConstItem, Expr, ForInit, Function, Key, LetItem, Program, PropKey, Property,
    Stmt,
};
use actx_grammar::forms::{changes, is_declared, is_shape};
use actx_grammar::names::{
    are_bindings, is_binding, is_key, is_member_word, is_own_name, is_reference,
};
use actx_grammar::side::Side;
use nodes::{
    ends_open, has_consts, has_lets, is_body, is_default_last, is_form, is_number, is_text,
    is_written,
};

/// Whether some text of a user spells the program, however long and deep it is (ECMA-262, 12 to 15).
///
/// It takes no memory. It recurses, and 40,000 levels of a program fit a stack of 8 MiB.
pub fn is_source(program: &Program) -> bool
    ensures { IsTrue result ↔ StmtsOn Side.Source (program_view program.now) }
{
    are_statements(Side::Source, &program.body)
}

/// Whether some text of the compiler spells the program, however long and deep it is (ECMA-262, 12 to 15).
///
/// It takes no memory. It recurses, and 40,000 levels of a program fit a stack of 8 MiB.
pub fn is_plain(program: &Program) -> bool
    ensures { IsTrue result ↔ StmtsOn Side.Plain (program_view program.now) }
{
    are_statements(Side::Plain, &program.body)
}

#[cycle(sides)]
fn is_expr(side: Side, e: &Expr) -> bool
    ensures { IsTrue result ↔ ExprOn side (expr_view e.now) }
{
    match e {
        Expr::Num(n) => is_written(*n),
        Expr::Text(units) => is_text(units),
        Expr::Truth(_) | Expr::Null | Expr::Undefined | Expr::This => true,
        Expr::Named(name) => is_reference(side, name),
        Expr::Unary(_, a) => is_expr(side, a),
        Expr::Binary(_, a, b) => is_expr(side, a) && is_expr(side, b),
        Expr::Logic(_, a, b) => is_expr(side, a) && is_expr(side, b),
        Expr::Choice(test, a, b) => is_expr(side, test) && (is_expr(side, a) && is_expr(side, b)),
        Expr::SetName(name, value) => is_binding(side, name) && is_expr(side, value),
        Expr::SetMember(base, key, value) => {
            is_expr(side, base) && (is_key_of(side, key) && is_expr(side, value))
        }
        Expr::Change(name, op, value) => {
            is_binding(side, name) && (changes(*op) && is_expr(side, value))
        }
        Expr::Bump { name, .. } => is_binding(side, name),
        Expr::Member(base, key) => is_expr(side, base) && is_key_of(side, key),
        Expr::Call(callee, args) => is_expr(side, callee) && are_exprs(side, args),
        Expr::Object(properties) => are_properties(side, properties),
        Expr::Function(function) => is_function(side, function),
        Expr::Yield(None) => side == Side::Source,
        Expr::Yield(Some(value)) => side == Side::Source && is_expr(side, value),
        Expr::YieldAll(value) => side == Side::Source && is_expr(side, value),
        Expr::Await(value) => side == Side::Source && is_expr(side, value),
        Expr::Form(form, parts) => is_form(side, *form, parts) && are_exprs(side, parts),
    }
}

#[cycle(sides)]
fn are_exprs(side: Side, es: &[Expr]) -> bool
    ensures { IsTrue result ↔ ExprsOn side (exprs_view es.now) }
{
    for e in es {
        if !is_expr(side, e) {
            return false;
        }
    }
    true
}

/// Whether an expression may stand there, or there is none.
#[cycle(sides)]
fn is_maybe(side: Side, e: &Option<Box<Expr>>) -> bool
    ensures { IsTrue result ↔ MaybeOn side (maybe_expr (option_map (λ b. expr_view b.value) e.now)) }
{
    match e {
        None => true,
        Some(e) => is_expr(side, e),
    }
}

#[cycle(sides)]
fn is_key_of(side: Side, key: &Key) -> bool
    ensures { IsTrue result ↔ KeyOn side (key_view key.now) }
{
    match key {
        Key::Dot(name) => is_member_word(name.as_slice()) && is_key(side, name),
        Key::Index(e) => is_expr(side, e),
    }
}

#[cycle(sides)]
fn is_property_key(side: Side, key: &PropKey) -> bool
    ensures { IsTrue result ↔ PropKeyOn side (prop_key_view key.now) }
{
    match key {
        PropKey::Fixed(units) => is_text(units),
        PropKey::Computed(e) => is_expr(side, e),
    }
}

#[cycle(sides)]
fn is_property(side: Side, property: &Property) -> bool
    ensures { IsTrue result ↔ (PropKeyOn side (property_view property.now).0 × ExprOn side (property_view property.now).1) }
{
    is_property_key(side, &property.key) && is_expr(side, &property.value)
}

#[cycle(sides)]
fn are_properties(side: Side, properties: &[Property]) -> bool
    ensures { IsTrue result ↔ PropertiesOn side (properties_view properties.now) }
{
    for property in properties {
        if !is_property(side, property) {
            return false;
        }
    }
    true
}

#[cycle(sides)]
fn is_function(side: Side, function: &Function) -> bool
    ensures { IsTrue result ↔ ExprOn side (tree.Function (function_view function.now)) }
{
    is_shape(side, function.kind, &function.name)
        && (are_bindings(side, &function.params) && are_statements(side, &function.body))
}

/// Whether a function may be declared.
#[cycle(sides)]
fn is_declaration(side: Side, function: &Function) -> bool
    ensures { IsTrue result ↔ StmtOn side (tree.Fun (function_view function.now)) }
{
    match &function.name {
        None => false,
        Some(name) => {
            is_declared(side, function.kind)
                && (is_binding(side, name)
                    && (are_bindings(side, &function.params)
                        && are_statements(side, &function.body)))
        }
    }
}

#[cycle(sides)]
fn is_let(side: Side, item: &LetItem) -> bool
    ensures { IsTrue result ↔ (IsBinding side (let_view item.now).0 × MaybeOn side (let_view item.now).1) }
{
    is_binding(side, &item.name) && is_maybe(side, &item.value)
}

#[cycle(sides)]
fn are_lets(side: Side, items: &[LetItem]) -> bool
    ensures { IsTrue result ↔ LetsOn side (lets_view items.now) }
{
    for item in items {
        if !is_let(side, item) {
            return false;
        }
    }
    true
}

#[cycle(sides)]
fn is_const(side: Side, item: &ConstItem) -> bool
    ensures { IsTrue result ↔ (IsBinding side (const_view item.now).0 × ExprOn side (const_view item.now).1) }
{
    is_binding(side, &item.name) && is_expr(side, &item.value)
}

#[cycle(sides)]
fn are_consts(side: Side, items: &[ConstItem]) -> bool
    ensures { IsTrue result ↔ ConstsOn side (consts_view items.now) }
{
    for item in items {
        if !is_const(side, item) {
            return false;
        }
    }
    true
}

/// What a `for` begins with.
#[cycle(sides)]
fn is_init(side: Side, init: &ForInit) -> bool
    ensures { IsTrue result ↔ InitOn side (init_view init.now) }
{
    match init {
        ForInit::Nothing => true,
        ForInit::Let(items) => has_lets(items) && are_lets(side, items),
        ForInit::Const(items) => has_consts(items) && are_consts(side, items),
        ForInit::Value(e) => is_expr(side, e),
    }
}

/// Whether a statement is a branch or a body of its own.
#[cycle(sides)]
fn is_branch(side: Side, stmt: &Stmt) -> bool
    ensures { IsTrue result ↔ (IsBody (stmt_view stmt.now) × StmtOn side (stmt_view stmt.now)) }
{
    is_body(stmt) && is_statement(side, stmt)
}

#[cycle(sides)]
fn is_statement(side: Side, stmt: &Stmt) -> bool
    ensures { IsTrue result ↔ StmtOn side (stmt_view stmt.now) }
{
    match stmt {
        Stmt::Let(items) => has_lets(items) && are_lets(side, items),
        Stmt::Const(items) => has_consts(items) && are_consts(side, items),
        Stmt::Fun(function) => is_declaration(side, function),
        Stmt::Block(body) => are_statements(side, body),
        Stmt::If(test, branch, None) => is_expr(side, test) && is_branch(side, branch),
        Stmt::If(test, branch, Some(other)) => {
            is_expr(side, test)
                && (is_branch(side, branch) && (!ends_open(branch) && is_branch(side, other)))
        }
        Stmt::While(test, body) => is_expr(side, test) && is_branch(side, body),
        Stmt::DoWhile(body, test) => is_branch(side, body) && is_expr(side, test),
        Stmt::For(init, test, update, body) => {
            is_init(side, init)
                && (is_maybe(side, test) && (is_maybe(side, update) && is_branch(side, body)))
        }
        Stmt::ForOf {
            name,
            over,
            body,
            ..
        } => {
            side == Side::Source
                && (is_binding(side, name) && (is_expr(side, over) && is_branch(side, body)))
        }
        Stmt::ForAwait { .. } => false,
        Stmt::Break | Stmt::Continue | Stmt::Empty => true,
        Stmt::Return(value) => is_maybe(side, value),
        Stmt::Throw(value) => is_expr(side, value),
        Stmt::Try {
            catcher: None,
            last: None,
            ..
        } => false,
        Stmt::Try {
            block,
            catcher: Some(catcher),
            last: None,
        } => are_statements(side, block) && is_catch(side, catcher),
        Stmt::Try {
            block,
            catcher: None,
            last: Some(last),
        } => are_statements(side, block) && are_statements(side, last),
        Stmt::Try {
            block,
            catcher: Some(catcher),
            last: Some(last),
        } => {
            are_statements(side, block) && (is_catch(side, catcher) && are_statements(side, last))
        }
        Stmt::Value(value) => is_expr(side, value),
        Stmt::Switch(value, clauses) => {
            side == Side::Plain && (is_expr(side, value) && are_clauses(side, clauses))
        }
    }
}

#[cycle(sides)]
fn are_statements(side: Side, body: &[Stmt]) -> bool
    ensures { IsTrue result ↔ StmtsOn side (stmts_view body.now) }
{
    for stmt in body {
        if !is_statement(side, stmt) {
            return false;
        }
    }
    true
}

#[cycle(sides)]
fn is_catch(side: Side, catcher: &Catcher) -> bool
    ensures { IsTrue result ↔ CatchOn side (catcher_view catcher.now) }
{
    is_own_name(side, &catcher.name) && are_statements(side, &catcher.body)
}

/// Whether a clause is of the side, wherever it stands.
#[cycle(sides)]
fn is_clause(side: Side, clause: &Clause) -> bool
    ensures { IsTrue result ↔ (IsNumber (clause_view clause.now).0 × StmtsOn side (clause_view clause.now).1) }
{
    is_number(clause.number) && are_statements(side, &clause.body)
}

/// Whether each clause is of the side, wherever it stands.
#[cycle(sides)]
fn is_each_clause(side: Side, clauses: &[Clause]) -> bool
    ensures { IsTrue result ↔ EachOn side (clauses_view clauses.now) }
{
    for clause in clauses {
        if !is_clause(side, clause) {
            return false;
        }
    }
    true
}

#[cycle(sides)]
fn are_clauses(side: Side, clauses: &[Clause]) -> bool
    ensures { IsTrue result ↔ ClausesOn side (clauses_view clauses.now) }
{
    is_default_last(clauses) && is_each_clause(side, clauses)
}
