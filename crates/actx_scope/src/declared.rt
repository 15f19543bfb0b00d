//! Declarations: names with the nodes that declare them, as a list of statements declares them (ECMA-262, 8.2.4).

ghost use Rattle.std.specs.Prelude.{◌≡◌, ◌+◌, ◌++◌, ◌∷◌, [], OnOk, IfOk, length};
ghost use Rattle.actx_grammar.specs.Static.{declared, lets_declared, consts_declared, own_declared, params_declared, stmt_declared, list_declared, init_declared};
ghost use Rattle.actx_ast.specs.View.{lets_view, consts_view, init_view, stmt_view, stmts_view};

use super::count::{after, expr_end, maybe_end, name_end, stmt_end};
use actx_ast::tree::{ConstItem, ForInit, LetItem, Stmt};
use actx_data::{NoMemory, Twin};
use actx_grammar::name::Name;
use std::alloc::Global;
use std::marker::Model;

/// A name with the number of the node that declares it.
#[derive(Drop)]
pub struct Declared {
    pub name: Name,
    pub node: u64,
}

impl Model for Declared {
    ghost use Rattle.actx_grammar.specs.Static as spec;

    ghost Value = { spec.Declared };

    ghost view = { λ d. spec.declared d.name d.node };
}

/// Adds the declaration of a name to others.
pub fn add(alloc: Global, names: &mut Vec<Declared>, node: u64, name: &Name) -> Result<(), NoMemory>
    ensures { OnOk result (names.new.items ≡ names.old.items ++ declared name.now node ∷ []) }
{
    let name = name.copy(alloc)?;
    names.push(Declared { name, node })?;
    Ok(())
}

/// Adds a function's own name, where it has one.
pub fn add_own(
    alloc: Global,
    names: &mut Vec<Declared>,
    at: u64,
    name: &Option<Name>,
) -> Result<(), NoMemory>
    ensures { OnOk result (names.new.items ≡ names.old.items ++ own_declared at name.now) }
{
    match name {
        Some(name) => Ok(add(alloc, names, at, name)?),
        None => Ok(()),
    }
}

/// Adds parameters.
pub fn add_params(
    alloc: Global,
    names: &mut Vec<Declared>,
    at: u64,
    params: &Vec<Name>,
) -> Result<(), NoMemory>
    ensures { OnOk result (names.new.items ≡ names.old.items ++ params_declared at params.now.items) }
{
    let mut node = at;
    for name in params {
        add(alloc, names, node, name)?;
        node = after(node)?;
    }
    Ok(())
}

/// Adds the items of a `let`.
fn add_lets(
    alloc: Global,
    names: &mut Vec<Declared>,
    at: u64,
    items: &Vec<LetItem>,
) -> Result<(), NoMemory>
    ensures { OnOk result (names.new.items ≡ names.old.items ++ lets_declared at (lets_view items.now.items)) }
{
    let mut node = at;
    for item in items {
        add(alloc, names, node, &item.name)?;
        node = maybe_end(after(node)?, &item.value)?;
    }
    Ok(())
}

/// Adds the items of a `const`.
fn add_consts(
    alloc: Global,
    names: &mut Vec<Declared>,
    at: u64,
    items: &Vec<ConstItem>,
) -> Result<(), NoMemory>
    ensures { OnOk result (names.new.items ≡ names.old.items ++ consts_declared at (consts_view items.now.items)) }
{
    let mut node = at;
    for item in items {
        add(alloc, names, node, &item.name)?;
        node = expr_end(after(node)?, &item.value)?;
    }
    Ok(())
}

/// Adds what a statement of a list declares there.
fn add_statement(
    alloc: Global,
    names: &mut Vec<Declared>,
    at: u64,
    statement: &Stmt,
) -> Result<(), NoMemory>
    ensures { OnOk result (names.new.items ≡ names.old.items ++ stmt_declared at (stmt_view statement.now)) }
{
    match statement {
        Stmt::Let(items) => Ok(add_lets(alloc, names, after(at)?, items)?),
        Stmt::Const(items) => Ok(add_consts(alloc, names, after(at)?, items)?),
        Stmt::Fun(function) => Ok(add_own(alloc, names, after(at)?, &function.name)?),
        _ => Ok(()),
    }
}

/// Adds what a list of statements declares, whose first node has this number.
pub fn add_list(
    alloc: Global,
    names: &mut Vec<Declared>,
    at: u64,
    body: &Vec<Stmt>,
) -> Result<(), NoMemory>
    ensures { OnOk result (names.new.items ≡ names.old.items ++ list_declared at (stmts_view body.now.items)) }
{
    let mut node = at;
    for statement in body {
        add_statement(alloc, names, node, statement)?;
        node = stmt_end(node, statement)?;
    }
    Ok(())
}

/// Adds what a `for` declares by what it begins with.
pub fn add_init(
    alloc: Global,
    names: &mut Vec<Declared>,
    at: u64,
    init: &ForInit,
) -> Result<(), NoMemory>
    ensures { OnOk result (names.new.items ≡ names.old.items ++ init_declared at (init_view init.now)) }
{
    match init {
        ForInit::Let(items) => Ok(add_lets(alloc, names, at, items)?),
        ForInit::Const(items) => Ok(add_consts(alloc, names, at, items)?),
        ForInit::Nothing => Ok(()),
        ForInit::Value(_) => Ok(()),
    }
}
