//! Shapes of which the prelude is built, as `base.key` and `const name = value;`.

ghost use Rattle.std.specs.Prelude.{◌≡◌, IfOk, [], ◌∷◌, ◌++◌, option_map};
ghost use Rattle.actx_grammar.specs.Grammar.{with_last};
ghost use Rattle.actx_grammar.specs.Parser.{with_stmt};
ghost use Rattle.actx_grammar.specs.Tree as t;
ghost use Rattle.actx_ast.specs.View.{expr_view, exprs_view, maybe_expr, maybe_stmt, properties_view, stmt_view, stmts_view};
ghost use Rattle.actx_rules.specs.Prelude as spec;

use actx_ast::tree::{ConstItem, Expr, Key, PropKey, Property, Stmt};
use actx_data::{NoMemory, Units};
use actx_grammar::name::Name;
use actx_grammar::operators::{BinaryOp, Form};
use std::alloc::Global;

/// The name of these ASCII characters.
pub fn name(alloc: Global, word: &[u8]) -> Result<Name, NoMemory>
    ensures { IfOk result (λ n. n ≡ word.now) }
{
    let chars = word.iter().map(|byte| char::from(*byte)).collect(alloc)?;
    Ok(Name::from_vec(chars))
}

/// The text of these ASCII characters.
pub fn units(alloc: Global, word: &[u8]) -> Result<Units, NoMemory>
    ensures { IfOk result (λ u. u ≡ word.now) }
{
    let list = word.iter().map(|byte| u16::from(*byte)).collect(alloc)?;
    Ok(Units::from_vec(list))
}

pub fn named(alloc: Global, word: &[u8]) -> Result<Expr, NoMemory>
    ensures { IfOk result (λ e. expr_view e ≡ t.Named word.now) }
{
    Ok(Expr::Named(name(alloc, word)?))
}

/// `base.key`.
pub fn member(alloc: Global, base: Expr, key: &[u8]) -> Result<Expr, NoMemory>
    ensures { IfOk result (λ e. expr_view e ≡ spec.member (expr_view base) key.now) }
{
    let base = Box::new(alloc, base)?;
    Ok(Expr::Member(base, Key::Dot(name(alloc, key)?)))
}

/// `base.key`, of a name.
pub fn member_of(alloc: Global, base: &[u8], key: &[u8]) -> Result<Expr, NoMemory>
    ensures { IfOk result (λ e. expr_view e ≡ spec.member (t.Named base.now) key.now) }
{
    let base = named(alloc, base)?;
    member(alloc, base, key)
}

pub fn one(alloc: Global, a: Expr) -> Result<Vec<Expr>, NoMemory>
    ensures { IfOk result (λ v. exprs_view v.items ≡ spec.one (expr_view a)) }
{
    Ok(vec![in alloc; a]?)
}

pub fn two(alloc: Global, a: Expr, b: Expr) -> Result<Vec<Expr>, NoMemory>
    ensures { IfOk result (λ v. exprs_view v.items ≡ spec.two (expr_view a) (expr_view b)) }
{
    Ok(vec![in alloc; a, b]?)
}

pub fn three(alloc: Global, a: Expr, b: Expr, c: Expr) -> Result<Vec<Expr>, NoMemory>
    ensures { IfOk result (λ v. exprs_view v.items ≡ spec.three (expr_view a) (expr_view b) (expr_view c)) }
{
    Ok(vec![in alloc; a, b, c]?)
}

pub fn call(alloc: Global, callee: Expr, args: Vec<Expr>) -> Result<Expr, NoMemory>
    ensures { IfOk result (λ e. expr_view e ≡ t.Call (expr_view callee) (exprs_view args.items)) }
{
    Ok(Expr::Call(Box::new(alloc, callee)?, args))
}

/// A call of a name.
pub fn call_of(alloc: Global, callee: &[u8], args: Vec<Expr>) -> Result<Expr, NoMemory>
    ensures { IfOk result (λ e. expr_view e ≡ t.Call (t.Named callee.now) (exprs_view args.items)) }
{
    let callee = named(alloc, callee)?;
    call(alloc, callee, args)
}

/// `key: value` in a literal.
pub fn property(alloc: Global, key: &[u8], value: Expr) -> Result<Property, NoMemory>
    ensures { IfOk result (λ p. properties_view (p ∷ []) ≡ spec.keyed key.now (expr_view value) t.no_properties) }
{
    let key = PropKey::Fixed(units(alloc, key)?);
    Ok(Property { key, value })
}

/// `Object.freeze({ .. })`.
pub fn freeze(alloc: Global, properties: Vec<Property>) -> Result<Expr, NoMemory>
    ensures { IfOk result (λ e. expr_view e ≡ spec.freeze (properties_view properties.items)) }
{
    Ok(Expr::Form(Form::Freeze, one(alloc, Expr::Object(properties))?))
}

/// `const name = value;`.
pub fn constant(alloc: Global, word: &[u8], value: Expr) -> Result<Stmt, NoMemory>
    ensures { IfOk result (λ s. stmt_view s ≡ spec.const word.now (expr_view value)) }
{
    let name = name(alloc, word)?;
    Ok(Stmt::Const(vec![in alloc; ConstItem { name, value }]?))
}

/// `e;`.
pub fn evaluated(alloc: Global, e: Expr) -> Result<Stmt, NoMemory>
    ensures { IfOk result (λ s. stmt_view s ≡ t.Value (expr_view e)) }
{
    Ok(Stmt::Value(Box::new(alloc, e)?))
}

fn some(e: Box<Expr>) -> Option<Box<Expr>>
    ensures { maybe_expr (option_map (λ b. expr_view b.value) result) ≡ t.some_expr (expr_view e.value) }
{
    Some(e)
}

/// `return e;`.
pub fn returned(alloc: Global, e: Expr) -> Result<Stmt, NoMemory>
    ensures { IfOk result (λ s. stmt_view s ≡ spec.returns (expr_view e)) }
{
    let value = some(Box::new(alloc, e)?);
    Ok(Stmt::Return(value))
}

/// A statement that is executed where a test holds, and one where it doesn't.
fn branch(test: Box<Expr>, yes: Box<Stmt>, no: Option<Box<Stmt>>) -> Stmt
    ensures { stmt_view result ≡ t.If (expr_view test.value) (stmt_view yes.value) (maybe_stmt (option_map (λ b. stmt_view b.value) no)) }
{
    Stmt::If(test, yes, no)
}

/// `if (test) { .. }`.
pub fn when(alloc: Global, test: Expr, yes: Vec<Stmt>) -> Result<Stmt, NoMemory>
    ensures { IfOk result (λ s. stmt_view s ≡ spec.when (expr_view test) (stmts_view yes.items)) }
{
    let test = Box::new(alloc, test)?;
    let yes = Box::new(alloc, Stmt::Block(yes))?;
    Ok(branch(test, yes, None))
}

/// `try { .. } finally { .. }`.
pub fn ended_by(block: Vec<Stmt>, last: Vec<Stmt>) -> Stmt
    ensures { stmt_view result ≡ spec.ended_by (stmts_view block.items) (stmts_view last.items) }
{
    Stmt::Try {
        block,
        catcher: None,
        last: Some(last),
    }
}

/// A list of one statement.
pub fn only(alloc: Global, a: Stmt) -> Result<Vec<Stmt>, NoMemory>
    ensures { IfOk result (λ v. stmts_view v.items ≡ t.next (stmt_view a) t.end) }
{
    Ok(vec![in alloc; a]?)
}

/// A list of two statements.
pub fn both(alloc: Global, a: Stmt, b: Stmt) -> Result<Vec<Stmt>, NoMemory>
    ensures { IfOk result (λ v. stmts_view v.items ≡ t.next (stmt_view a) (t.next (stmt_view b) t.end)) }
{
    Ok(vec![in alloc; a, b]?)
}

/// `a === b`.
pub fn same(alloc: Global, a: Expr, b: Expr) -> Result<Expr, NoMemory>
    ensures { IfOk result (λ e. expr_view e ≡ t.Binary BinaryOp.Same (expr_view a) (expr_view b)) }
{
    let left = Box::new(alloc, a)?;
    Ok(Expr::Binary(BinaryOp::Same, left, Box::new(alloc, b)?))
}

/// `base.key = value`, of a name.
pub fn set_member(alloc: Global, base: &[u8], key: &[u8], value: Expr) -> Result<Stmt, NoMemory>
    ensures { IfOk result (λ s. stmt_view s ≡ t.Value (spec.set_member (t.Named base.now) key.now (expr_view value))) }
{
    let base = Box::new(alloc, named(alloc, base)?)?;
    let key = Key::Dot(name(alloc, key)?);
    evaluated(alloc, Expr::SetMember(base, key, Box::new(alloc, value)?))
}

/// A list with a statement more.
#[tactic(auto, using(crate::proofs::Shapes::statement_last))]
pub fn then(list: Vec<Stmt>, statement: Stmt) -> Result<Vec<Stmt>, NoMemory>
    ensures { IfOk result (λ v. stmts_view v.items ≡ with_stmt (stmts_view list.items) (stmt_view statement)) }
{
    let mut list = list;
    list.push(statement)?;
    Ok(list)
}

/// A list with an expression more.
#[tactic(auto, using(crate::proofs::Shapes::expression_last))]
pub fn and(list: Vec<Expr>, last: Expr) -> Result<Vec<Expr>, NoMemory>
    ensures { IfOk result (λ v. exprs_view v.items ≡ with_last (exprs_view list.items) (expr_view last)) }
{
    let mut list = list;
    list.push(last)?;
    Ok(list)
}

/// A list with a name's value more.
pub fn and_named(alloc: Global, list: Vec<Expr>, word: &[u8]) -> Result<Vec<Expr>, NoMemory>
    ensures { IfOk result (λ v. exprs_view v.items ≡ with_last (exprs_view list.items) (t.Named word.now)) }
{
    and(list, named(alloc, word)?)
}

/// A list with a name more.
pub fn and_name(alloc: Global, list: Vec<Name>, word: &[u8]) -> Result<Vec<Name>, NoMemory>
    ensures { IfOk result (λ v. v.items ≡ list.items ++ word.now ∷ []) }
{
    let mut list = list;
    list.push(name(alloc, word)?)?;
    Ok(list)
}
