//! Copies, which are printed as what they were made of.

use super::{nest, nest_stmt, wrap, wrap_stmt};
use actx_ast::spell::spell;
use actx_ast::tree::{
    Catcher, Clause, ConstItem, Expr, ForInit, Function, Key, LetItem, Program, PropKey, Property,
    Stmt,
};
use actx_data::{NoMemory, Twin};
use actx_grammar::name::Name;
use actx_grammar::operators::FunctionKind;
use std::alloc::Global;
use std::process::Abort;
use std::test::Fail;

/// The tokens of a statement.
fn printed(alloc: Global, stmt: Stmt) -> Result<String, NoMemory> {
    let mut body = Vec::new(alloc);
    body.push(stmt)?;
    let tokens = spell(alloc, &Program { body })?;
    Ok(format!(in alloc; "{tokens:?}")?)
}

fn expect(rt: &impl Abort, alloc: Global, stmt: Stmt) -> Result<(), NoMemory> {
    let copy = stmt.copy(alloc)?;
    let old = printed(alloc, stmt)?;
    assert_eq!(rt; printed(alloc, copy)?, old);
    Ok(())
}

#[test]
fn each_kind_is_copied(rt: HostRuntime) -> Result<(), Fail> {
    let alloc = rt.alloc();
    for kind in 0..20u32 {
        let e = wrap(alloc, kind, Expr::Num(7))?;
        expect(&rt, alloc, Stmt::Value(Box::new(alloc, e)?))?;
    }
    for kind in 0..18u32 {
        let e = wrap(alloc, kind, Expr::Truth(true))?;
        expect(&rt, alloc, wrap_stmt(alloc, kind, Stmt::Break, e)?)?;
    }
    Ok(())
}

/// How many tokens a statement has.
fn count(alloc: Global, stmt: Stmt) -> Result<usize, NoMemory> {
    let mut body = Vec::new(alloc);
    body.push(stmt)?;
    Ok(spell(alloc, &Program { body })?.len())
}

#[test]
fn deep_trees_are_copied(rt: HostRuntime) -> Result<(), Fail> {
    let alloc = rt.alloc();
    let e = nest(alloc, 40000)?;
    let copy = e.copy(alloc)?;
    let old = count(alloc, Stmt::Value(Box::new(alloc, e)?))?;
    assert_eq!(rt; count(alloc, Stmt::Value(Box::new(alloc, copy)?))?, old);
    let stmt = nest_stmt(alloc, 40000)?;
    let copy = stmt.copy(alloc)?;
    let old = count(alloc, stmt)?;
    assert_eq!(rt; count(alloc, copy)?, old);
    Ok(())
}

#[test]
fn a_program_is_copied(rt: HostRuntime) -> Result<(), Fail> {
    let alloc = rt.alloc();
    let mut body = Vec::new(alloc);
    body.push(Stmt::Break)?;
    body.push(nest_stmt(alloc, 40)?)?;
    let program = Program { body };
    let copy = program.copy(alloc)?;
    let old = spell(alloc, &program)?;
    let new = spell(alloc, &copy)?;
    assert_eq!(rt;
        format!(in alloc; "{new:?}")?,
        format!(in alloc; "{old:?}")?
    );
    Ok(())
}

fn boxed(alloc: Global) -> Result<Box<Expr>, NoMemory> {
    Ok(Box::new(alloc, Expr::Num(3))?)
}

fn object(alloc: Global, property: Property) -> Result<Stmt, NoMemory> {
    let mut properties = Vec::new(alloc);
    properties.push(property)?;
    Ok(Stmt::Value(Box::new(alloc, Expr::Object(properties))?))
}

#[test]
fn keys_are_copied(rt: HostRuntime) -> Result<(), Fail> {
    let alloc = rt.alloc();
    let key = Key::Index(boxed(alloc)?);
    let copy = Expr::Member(boxed(alloc)?, key.copy(alloc)?);
    let old = printed(
        alloc,
        Stmt::Value(Box::new(alloc, Expr::Member(boxed(alloc)?, key))?),
    )?;
    assert_eq!(rt; printed(alloc, Stmt::Value(Box::new(alloc, copy)?))?, old);
    let property = Property {
        key: PropKey::Computed(boxed(alloc)?),
        value: Expr::Num(4),
    };
    let copy = property.copy(alloc)?;
    let old = printed(alloc, object(alloc, property)?)?;
    assert_eq!(rt; printed(alloc, object(alloc, copy)?)?, old);
    Ok(())
}

fn body(alloc: Global) -> Result<Vec<Stmt>, NoMemory> {
    let mut body = Vec::new(alloc);
    body.push(Stmt::Break)?;
    Ok(body)
}

#[test]
fn functions_and_clauses_are_copied(rt: HostRuntime) -> Result<(), Fail> {
    let alloc = rt.alloc();
    let function = Function {
        name: None,
        kind: FunctionKind::AsyncGenerator,
        params: Vec::new(alloc),
        body: body(alloc)?,
    };
    let copy = Stmt::Fun(function.copy(alloc)?);
    let old = printed(alloc, Stmt::Fun(function))?;
    assert_eq!(rt; printed(alloc, copy)?, old);
    let clause = Clause {
        number: Some(5),
        body: body(alloc)?,
    };
    let copy = clause.copy(alloc)?;
    let old = printed(alloc, switch(alloc, clause)?)?;
    assert_eq!(rt; printed(alloc, switch(alloc, copy)?)?, old);
    let catcher = Catcher {
        name: None,
        body: body(alloc)?,
    };
    let copy = catcher.copy(alloc)?;
    let old = printed(alloc, caught(alloc, catcher))?;
    assert_eq!(rt; printed(alloc, caught(alloc, copy))?, old);
    Ok(())
}

fn switch(alloc: Global, clause: Clause) -> Result<Stmt, NoMemory> {
    let mut clauses = Vec::new(alloc);
    clauses.push(clause)?;
    Ok(Stmt::Switch(Box::new(alloc, Expr::This)?, clauses))
}

fn caught(alloc: Global, catcher: Catcher) -> Stmt {
    Stmt::Try {
        block: Vec::new(alloc),
        catcher: Some(catcher),
        last: None,
    }
}

fn looped(alloc: Global, init: ForInit) -> Result<Stmt, NoMemory> {
    let body = Box::new(alloc, Stmt::Empty)?;
    Ok(Stmt::For(init, None, None, body))
}

#[test]
fn items_are_copied(rt: HostRuntime) -> Result<(), Fail> {
    let alloc = rt.alloc();
    let item = LetItem {
        name: Name::from_list(alloc, &['x'])?,
        value: Some(Box::new(alloc, Expr::Num(6))?),
    };
    let mut items = Vec::new(alloc);
    items.push(item.copy(alloc)?)?;
    items.push(item)?;
    let init = ForInit::Let(items);
    let copy = init.copy(alloc)?;
    let old = printed(alloc, looped(alloc, init)?)?;
    assert_eq!(rt; printed(alloc, looped(alloc, copy)?)?, old);
    let item = ConstItem {
        name: Name::from_list(alloc, &['y'])?,
        value: Expr::Num(8),
    };
    let mut items = Vec::new(alloc);
    items.push(item.copy(alloc)?)?;
    items.push(item)?;
    let init = ForInit::Const(items);
    let copy = init.copy(alloc)?;
    let old = printed(alloc, looped(alloc, init)?)?;
    assert_eq!(rt; printed(alloc, looped(alloc, copy)?)?, old);
    Ok(())
}
