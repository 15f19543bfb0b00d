//! The lowering: the prelude, and behind it the program with its names renamed, as `const p_a = 1;` of `const a = 1;`.

ghost use Rattle.std.specs.Prelude.{◌≡◌, IfOk, option_map};
ghost use Rattle.actx_ast.specs.View.{expr_view, maybe_expr, exprs_view, const_view, consts_view, function_view, key_view, prop_key_view, property_view, properties_view, stmt_view, stmts_view, program_view};
ghost use Rattle.actx_grammar.specs.Tree.{Named};
ghost use Rattle.actx_rules.specs.Prelude.{name_variable};
ghost use Rattle.actx_rules.specs.Low.{p_, names_renamed, own_renamed, form_emitted, renamed, key_renamed, prop_key_renamed, code_renamed, value_renamed, all_renamed, properties_renamed, items_renamed, stmt_renamed, program_renamed, low};

use actx_ast::tree::{ConstItem, Expr, Function, Key, Program, PropKey, Property, Stmt};
use actx_data::{NoMemory, Twin};
use actx_grammar::name::Name;
use actx_grammar::operators::Form;
use actx_prelude::prelude::prelude;
use std::alloc::Global;

/// A name of the program as it is emitted: with `p_` before it.
fn rename(alloc: Global, name: &Name) -> Result<Name, NoMemory>
    ensures { IfOk result (λ n. n ≡ p_ name.now) }
{
    let mut chars = vec![in alloc; 'p', '_']?;
    chars.extend_from_slice(name.as_slice())?;
    Ok(Name::from_vec(chars))
}

/// Names as they are emitted.
fn names_renamed(alloc: Global, names: &Vec<Name>) -> Result<Vec<Name>, NoMemory>
    ensures { IfOk result (λ made. made.items ≡ names_renamed names.now.items) }
{
    let mut made = Vec::new(alloc);
    for name in names {
        made.push(rename(alloc, name)?)?;
    }
    Ok(made)
}

/// A function's own name as it is emitted.
fn own_renamed(alloc: Global, name: &Option<Name>) -> Result<Option<Name>, NoMemory>
    ensures { IfOk result (λ made. made ≡ own_renamed name.now) }
{
    match name {
        None => Ok(None),
        Some(name) => Ok(Some(rename(alloc, name)?)),
    }
}

/// The prelude's function that makes a variable.
fn variable_maker(alloc: Global) -> Result<Expr, NoMemory>
    ensures { IfOk result (λ d. expr_view d ≡ Named name_variable) }
{
    let chars = vec![in alloc; '_', '_', 'v', 'a', 'r', 'i', 'a', 'b', 'l', 'e']?;
    Ok(Expr::Named(Name::from_vec(chars)))
}

/// A form with its parts as it is emitted: a variable's constructor is a call of the prelude's function.
fn form_emitted(alloc: Global, form: Form, parts: Vec<Expr>) -> Result<Expr, NoMemory>
    ensures { IfOk result (λ d. expr_view d ≡ form_emitted form (exprs_view parts.items)) }
{
    match form {
        Form::NewVariable => Ok(Expr::Call(Box::new(alloc, variable_maker(alloc)?)?, parts)),
        _ => Ok(Expr::Form(form, parts)),
    }
}

/// An expression as it is emitted.
#[cycle(renamed)]
fn renamed(alloc: Global, e: &Expr) -> Result<Expr, NoMemory>
    ensures { IfOk result (λ d. expr_view d ≡ renamed (expr_view e.now)) }
{
    match e {
        Expr::Num(n) => Ok(Expr::Num(*n)),
        Expr::Text(units) => Ok(Expr::Text(units.copy(alloc)?)),
        Expr::Undefined => Ok(Expr::Undefined),
        Expr::This => Ok(Expr::This),
        Expr::Named(name) => Ok(Expr::Named(rename(alloc, name)?)),
        Expr::Binary(op, left, right) => {
            let left = Box::new(alloc, renamed(alloc, left)?)?;
            let right = Box::new(alloc, renamed(alloc, right)?)?;
            Ok(Expr::Binary(*op, left, right))
        }
        Expr::Member(base, key) => {
            let base = Box::new(alloc, renamed(alloc, base)?)?;
            Ok(Expr::Member(base, key_renamed(alloc, key)?))
        }
        Expr::Call(callee, args) => {
            let callee = Box::new(alloc, renamed(alloc, callee)?)?;
            Ok(Expr::Call(callee, all_renamed(alloc, args)?))
        }
        Expr::Object(properties) => Ok(Expr::Object(properties_renamed(alloc, properties)?)),
        Expr::Function(function) => {
            Ok(Expr::Function(Box::new(alloc, function_renamed(alloc, function)?)?))
        }
        Expr::Form(form, parts) => form_emitted(alloc, *form, all_renamed(alloc, parts)?),
        _ => Ok(Expr::Undefined),
    }
}

/// The key of a member as it is emitted: a name stays.
#[cycle(renamed)]
fn key_renamed(alloc: Global, key: &Key) -> Result<Key, NoMemory>
    ensures { IfOk result (λ made. key_view made ≡ key_renamed (key_view key.now)) }
{
    match key {
        Key::Dot(name) => Ok(Key::Dot(name.copy(alloc)?)),
        Key::Index(e) => Ok(Key::Index(Box::new(alloc, renamed(alloc, e)?)?)),
    }
}

/// The key of a property as it is emitted: one that is fixed stays.
#[cycle(renamed)]
fn prop_key_renamed(alloc: Global, key: &PropKey) -> Result<PropKey, NoMemory>
    ensures { IfOk result (λ made. prop_key_view made ≡ prop_key_renamed (prop_key_view key.now)) }
{
    match key {
        PropKey::Fixed(units) => Ok(PropKey::Fixed(units.copy(alloc)?)),
        PropKey::Computed(e) => Ok(PropKey::Computed(Box::new(alloc, renamed(alloc, e)?)?)),
    }
}

/// Expressions as they are emitted.
#[cycle(renamed)]
fn all_renamed(alloc: Global, es: &Vec<Expr>) -> Result<Vec<Expr>, NoMemory>
    ensures { IfOk result (λ ds. exprs_view ds.items ≡ all_renamed (exprs_view es.now.items)) }
{
    let mut made = Vec::new(alloc);
    for e in es {
        made.push(renamed(alloc, e)?)?;
    }
    Ok(made)
}

/// A property as it is emitted.
#[cycle(renamed)]
fn property_renamed(alloc: Global, property: &Property) -> Result<Property, NoMemory>
    ensures { IfOk result (λ made. property_view made ≡ (prop_key_renamed (property_view property.now).0, renamed (property_view property.now).1)) }
{
    let key = prop_key_renamed(alloc, &property.key)?;
    let value = renamed(alloc, &property.value)?;
    Ok(Property { key, value })
}

/// Properties as they are emitted.
#[cycle(renamed)]
fn properties_renamed(alloc: Global, properties: &Vec<Property>) -> Result<Vec<Property>, NoMemory>
    ensures { IfOk result (λ made. properties_view made.items ≡ properties_renamed (properties_view properties.now.items)) }
{
    let mut made = Vec::new(alloc);
    for property in properties {
        made.push(property_renamed(alloc, property)?)?;
    }
    Ok(made)
}

/// A function as it is emitted.
#[cycle(renamed)]
fn function_renamed(alloc: Global, function: &Function) -> Result<Function, NoMemory>
    ensures { IfOk result (λ made. function_view made ≡ code_renamed (function_view function.now)) }
{
    let name = own_renamed(alloc, &function.name)?;
    let params = names_renamed(alloc, &function.params)?;
    let body = program_renamed(alloc, &function.body)?;
    Ok(Function {
        name,
        kind: function.kind,
        params,
        body,
    })
}

/// An item of a const as it is emitted.
#[cycle(renamed)]
fn item_renamed(alloc: Global, item: &ConstItem) -> Result<ConstItem, NoMemory>
    ensures { IfOk result (λ made. const_view made ≡ (p_ (const_view item.now).0, renamed (const_view item.now).1)) }
{
    let name = rename(alloc, &item.name)?;
    let value = renamed(alloc, &item.value)?;
    Ok(ConstItem { name, value })
}

/// Items of a const as they are emitted.
#[cycle(renamed)]
fn items_renamed(alloc: Global, items: &Vec<ConstItem>) -> Result<Vec<ConstItem>, NoMemory>
    ensures { IfOk result (λ made. consts_view made.items ≡ items_renamed (consts_view items.now.items)) }
{
    let mut made = Vec::new(alloc);
    for item in items {
        made.push(item_renamed(alloc, item)?)?;
    }
    Ok(made)
}

/// What a function returns as it is emitted.
#[cycle(renamed)]
fn value_renamed(alloc: Global, value: &Option<Box<Expr>>) -> Result<Option<Box<Expr>>, NoMemory>
    ensures { IfOk result (λ made. maybe_expr (option_map (λ b. expr_view b.value) made) ≡ value_renamed (maybe_expr (option_map (λ b. expr_view b.value) value.now))) }
{
    match value {
        None => Ok(None),
        Some(e) => Ok(Some(Box::new(alloc, renamed(alloc, e)?)?)),
    }
}

/// A statement as it is emitted.
#[cycle(renamed)]
fn statement_renamed(alloc: Global, statement: &Stmt) -> Result<Stmt, NoMemory>
    ensures { IfOk result (λ made. stmt_view made ≡ stmt_renamed (stmt_view statement.now)) }
{
    match statement {
        Stmt::Const(items) => Ok(Stmt::Const(items_renamed(alloc, items)?)),
        Stmt::Value(e) => Ok(Stmt::Value(Box::new(alloc, renamed(alloc, e)?)?)),
        Stmt::Return(value) => Ok(Stmt::Return(value_renamed(alloc, value)?)),
        _ => Ok(Stmt::Empty),
    }
}

/// Statements as they are emitted.
#[cycle(renamed)]
fn program_renamed(alloc: Global, statements: &Vec<Stmt>) -> Result<Vec<Stmt>, NoMemory>
    ensures { IfOk result (λ made. stmts_view made.items ≡ program_renamed (stmts_view statements.now.items)) }
{
    let mut made = Vec::new(alloc);
    for statement in statements {
        made.push(statement_renamed(alloc, statement)?)?;
    }
    Ok(made)
}

/// The emitted program: the prelude, and then the statements of the program with their names renamed.
#[tactic(auto, using(crate::proofs::Lowered::followed))]
pub fn lower(alloc: Global, program: &Program) -> Result<Program, NoMemory>
    ensures { IfOk result (λ q. program_view q ≡ low (program_view program.now)) }
{
    let mut body = prelude(alloc)?;
    let mut own = program_renamed(alloc, &program.body)?;
    body.append(&mut own)?;
    Ok(Program { body })
}
