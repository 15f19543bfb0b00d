//! Lists that grow at their end, as the arguments of a call.

ghost use Rattle.std.specs.Prelude.{◌≡◌, IfOk};
ghost use Rattle.actx_grammar.specs.Grammar.{count, with_last, with_let, with_const, with_property};
ghost use Rattle.actx_grammar.specs.Parser.{with_stmt, with_clause};
ghost use Rattle.actx_ast.specs.View.{expr_view, exprs_view, lets_view, let_view, consts_view, const_view, properties_view, property_view, prop_key_view, stmt_view, stmts_view, clauses_view, clause_view};
ghost use Rattle.actx_frames.specs.ParserView.{maybe_expr_view};

use actx_ast::tree::{Clause, ConstItem, Expr, LetItem, PropKey, Property, Stmt};
use actx_data::NoMemory;
use actx_grammar::name::Name;

/// How many expressions a list has.
#[tactic(auto, using(crate::proofs::ParseStack::how_many))]
pub fn count(list: &Vec<Expr>) -> usize
    ensures { result ≡ count (exprs_view list.now.items) }
{
    list.len()
}

/// A list with one expression more.
#[tactic(auto, using(crate::proofs::ParseStack::one_more))]
pub fn with_last(list: Vec<Expr>, last: Box<Expr>) -> Result<Vec<Expr>, NoMemory>
    ensures { IfOk result (λ es. exprs_view es.items ≡ with_last (exprs_view list.items) (expr_view last.value)) }
{
    let mut list = list;
    list.push(Box::into_inner(last))?;
    Ok(list)
}

fn let_item(name: Name, value: Option<Box<Expr>>) -> LetItem
    ensures { let_view result ≡ (name, maybe_expr_view value) }
{
    LetItem { name, value }
}

/// A list with one item more.
#[tactic(auto, using(crate::proofs::ParseStack::let_more))]
pub fn with_let(
    list: Vec<LetItem>,
    name: Name,
    value: Option<Box<Expr>>,
) -> Result<Vec<LetItem>, NoMemory>
    ensures { IfOk result (λ is. lets_view is.items ≡ with_let (lets_view list.items) name (maybe_expr_view value)) }
{
    let mut list = list;
    list.push(let_item(name, value))?;
    Ok(list)
}

fn const_item(name: Name, value: Box<Expr>) -> ConstItem
    ensures { const_view result ≡ (name, expr_view value.value) }
{
    let value = Box::into_inner(value);
    ConstItem { name, value }
}

/// A list with one item more.
#[tactic(auto, using(crate::proofs::ParseStack::const_more))]
pub fn with_const(
    list: Vec<ConstItem>,
    name: Name,
    value: Box<Expr>,
) -> Result<Vec<ConstItem>, NoMemory>
    ensures { IfOk result (λ is. consts_view is.items ≡ with_const (consts_view list.items) name (expr_view value.value)) }
{
    let mut list = list;
    list.push(const_item(name, value))?;
    Ok(list)
}

fn property(key: PropKey, value: Box<Expr>) -> Property
    ensures { property_view result ≡ (prop_key_view key, expr_view value.value) }
{
    let value = Box::into_inner(value);
    Property { key, value }
}

/// A list with one property more.
#[tactic(auto, using(crate::proofs::ParseStack::property_more))]
pub fn with_property(
    list: Vec<Property>,
    key: PropKey,
    value: Box<Expr>,
) -> Result<Vec<Property>, NoMemory>
    ensures { IfOk result (λ ps. properties_view ps.items ≡ with_property (properties_view list.items) (prop_key_view key) (expr_view value.value)) }
{
    let mut list = list;
    list.push(property(key, value))?;
    Ok(list)
}

/// A list with one statement more.
#[tactic(auto, using(crate::proofs::ParseStack::stmt_more))]
pub fn with_stmt(list: Vec<Stmt>, last: Box<Stmt>) -> Result<Vec<Stmt>, NoMemory>
    ensures { IfOk result (λ ss. stmts_view ss.items ≡ with_stmt (stmts_view list.items) (stmt_view last.value)) }
{
    let mut list = list;
    list.push(Box::into_inner(last))?;
    Ok(list)
}

fn clause(number: Option<u64>, body: Vec<Stmt>) -> Clause
    ensures { clause_view result ≡ (number, stmts_view body.items) }
{
    Clause { number, body }
}

/// A list with one clause more.
#[tactic(auto, using(crate::proofs::ParseStack::clause_more))]
pub fn with_clause(
    list: Vec<Clause>,
    number: Option<u64>,
    body: Vec<Stmt>,
) -> Result<Vec<Clause>, NoMemory>
    ensures { IfOk result (λ cs. clauses_view cs.items ≡ with_clause (clauses_view list.items) number (stmts_view body.items)) }
{
    let mut list = list;
    list.push(clause(number, body))?;
    Ok(list)
}
