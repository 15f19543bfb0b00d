//! Programs that one side spells, both or none.

use super::{wrap, wrap_stmt};
use actx_ast::sides::{is_plain, is_source};
use actx_ast::tree::{Clause, Expr, Function, Key, Program, Stmt};
use actx_data::NoMemory;
use actx_grammar::name::Name;
use actx_grammar::operators::{Form, FunctionKind};
use std::alloc::{AllocError, Global};
use std::process::Abort;
use std::test::Fail;

fn program(alloc: Global, stmt: Stmt) -> Result<Program, AllocError> {
    let mut body = Vec::new(alloc);
    body.push(stmt)?;
    Ok(Program { body })
}

fn expect(
    rt: &impl Abort,
    alloc: Global,
    stmt: Stmt,
    source: bool,
    plain: bool,
) -> Result<(), AllocError> {
    let program = program(alloc, stmt)?;
    assert_eq!(rt; is_source(&program), source);
    assert_eq!(rt; is_plain(&program), plain);
    Ok(())
}

fn expect_expr(
    rt: &impl Abort,
    alloc: Global,
    e: Expr,
    source: bool,
    plain: bool,
) -> Result<(), AllocError> {
    expect(rt, alloc, Stmt::Value(Box::new(alloc, e)?), source, plain)
}

fn named(alloc: Global, word: &[char]) -> Result<Expr, NoMemory> {
    Ok(Expr::Named(Name::from_list(alloc, word)?))
}

fn dotted(alloc: Global, word: &[char]) -> Result<Expr, NoMemory> {
    let name = Name::from_list(alloc, word)?;
    let base = Box::new(alloc, Expr::This)?;
    Ok(Expr::Member(base, Key::Dot(name)))
}

/// A form with so many parts.
fn form(alloc: Global, form: Form, count: u32) -> Result<Expr, AllocError> {
    let mut parts = Vec::new(alloc);
    for _ in 0..count {
        parts.push(Expr::This)?;
    }
    Ok(Expr::Form(form, parts))
}

fn function(alloc: Global, kind: FunctionKind, body: Stmt) -> Result<Function, NoMemory> {
    let name = Name::from_list(alloc, &['f'])?;
    let mut stmts = Vec::new(alloc);
    stmts.push(body)?;
    Ok(Function {
        name: Some(name),
        kind,
        params: Vec::new(alloc),
        body: stmts,
    })
}

fn clause(alloc: Global, number: Option<u64>) -> Clause {
    Clause {
        number,
        body: Vec::new(alloc),
    }
}

#[test]
fn expressions_of_the_sides(rt: HostRuntime) -> Result<(), Fail> {
    let alloc = rt.alloc();
    for kind in 0..20u32 {
        let e = wrap(alloc, kind, Expr::This)?;
        let plain = kind < 14 || kind == 17;
        expect_expr(&rt, alloc, e, kind != 18, plain)?;
    }
    expect_expr(&rt, alloc, Expr::Num(9_007_199_254_740_991), true, true)?;
    expect_expr(&rt, alloc, Expr::Num(9_007_199_254_740_992), false, false)?;
    Ok(())
}

#[test]
fn statements_of_the_sides(rt: HostRuntime) -> Result<(), Fail> {
    let alloc = rt.alloc();
    for kind in 0..18u32 {
        let stmt = wrap_stmt(alloc, kind, Stmt::Empty, Expr::This)?;
        let both = kind != 0 && kind != 3 && kind != 11;
        expect(&rt, alloc, stmt, both && kind != 14, both && kind != 10)?;
    }
    expect(&rt, alloc, Stmt::Let(Vec::new(alloc)), false, false)?;
    expect(&rt, alloc, Stmt::Const(Vec::new(alloc)), false, false)?;
    Ok(())
}

#[test]
fn no_else_is_of_two_statements(rt: HostRuntime) -> Result<(), Fail> {
    let alloc = rt.alloc();
    let open = Stmt::If(
        Box::new(alloc, Expr::This)?,
        Box::new(alloc, Stmt::Empty)?,
        None,
    );
    let other = Box::new(alloc, Stmt::Empty)?;
    let hanging = Stmt::If(
        Box::new(alloc, Expr::This)?,
        Box::new(alloc, open)?,
        Some(other),
    );
    expect(&rt, alloc, hanging, false, false)?;
    Ok(())
}

#[test]
fn a_default_stands_last(rt: HostRuntime) -> Result<(), Fail> {
    let alloc = rt.alloc();
    let mut clauses = Vec::new(alloc);
    clauses.push(clause(alloc, Some(1)))?;
    clauses.push(clause(alloc, None))?;
    expect(
        &rt,
        alloc,
        Stmt::Switch(Box::new(alloc, Expr::This)?, clauses),
        false,
        true,
    )?;
    let mut clauses = Vec::new(alloc);
    clauses.push(clause(alloc, None))?;
    clauses.push(clause(alloc, Some(1)))?;
    expect(
        &rt,
        alloc,
        Stmt::Switch(Box::new(alloc, Expr::This)?, clauses),
        false,
        false,
    )?;
    Ok(())
}

#[test]
fn names_of_the_sides(rt: HostRuntime) -> Result<(), Fail> {
    let alloc = rt.alloc();
    expect_expr(&rt, alloc, named(alloc, &['a', '1'])?, true, true)?;
    expect_expr(
        &rt,
        alloc,
        named(alloc, &['H', 'o', 's', 't'])?,
        false,
        true,
    )?;
    expect_expr(
        &rt,
        alloc,
        named(alloc, &['O', 'b', 'j', 'e', 'c', 't'])?,
        true,
        false,
    )?;
    expect_expr(&rt, alloc, named(alloc, &['i', 'f'])?, false, false)?;
    expect_expr(&rt, alloc, named(alloc, &['1', 'a'])?, false, false)?;
    expect_expr(&rt, alloc, named(alloc, &[])?, false, false)?;
    let undefined = ['u', 'n', 'd', 'e', 'f', 'i', 'n', 'e', 'd'];
    expect_expr(&rt, alloc, named(alloc, &undefined)?, false, false)?;
    expect_expr(&rt, alloc, dotted(alloc, &['i', 'f'])?, true, true)?;
    expect_expr(
        &rt,
        alloc,
        dotted(alloc, &['c', 'a', 'l', 'l'])?,
        true,
        false,
    )?;
    expect_expr(&rt, alloc, dotted(alloc, &['1'])?, false, false)?;
    Ok(())
}

#[test]
fn forms_of_the_sides(rt: HostRuntime) -> Result<(), Fail> {
    let alloc = rt.alloc();
    expect_expr(
        &rt,
        alloc,
        form(alloc, Form::QueueMicrotask, 1)?,
        true,
        true,
    )?;
    expect_expr(
        &rt,
        alloc,
        form(alloc, Form::QueueMicrotask, 0)?,
        false,
        false,
    )?;
    expect_expr(&rt, alloc, form(alloc, Form::HostOn, 2)?, true, false)?;
    expect_expr(&rt, alloc, form(alloc, Form::NewWeakMap, 0)?, false, true)?;
    expect_expr(&rt, alloc, form(alloc, Form::NewWeakMap, 1)?, false, false)?;
    expect_expr(&rt, alloc, form(alloc, Form::Note, 4)?, false, true)?;
    expect_expr(&rt, alloc, form(alloc, Form::CallWith, 1)?, false, true)?;
    expect_expr(&rt, alloc, form(alloc, Form::CallWith, 0)?, false, false)?;
    expect_expr(&rt, alloc, form(alloc, Form::NewCell, 0)?, false, false)?;
    Ok(())
}

#[test]
fn functions_of_the_sides(rt: HostRuntime) -> Result<(), Fail> {
    let alloc = rt.alloc();
    let normal = function(alloc, FunctionKind::Normal, Stmt::Empty)?;
    expect(&rt, alloc, Stmt::Fun(normal), true, true)?;
    let generator = function(alloc, FunctionKind::Generator, Stmt::Empty)?;
    expect(&rt, alloc, Stmt::Fun(generator), true, false)?;
    let arrow = function(alloc, FunctionKind::Arrow, Stmt::Empty)?;
    expect(&rt, alloc, Stmt::Fun(arrow), false, false)?;
    let own = function(alloc, FunctionKind::Async, Stmt::Empty)?;
    expect_expr(
        &rt,
        alloc,
        Expr::Function(Box::new(alloc, own)?),
        true,
        false,
    )?;
    let arrow = function(alloc, FunctionKind::Arrow, Stmt::Empty)?;
    expect_expr(
        &rt,
        alloc,
        Expr::Function(Box::new(alloc, arrow)?),
        false,
        false,
    )?;
    Ok(())
}

/// Expressions of one kind in one another.
fn nest(alloc: Global, kind: u32, levels: u32) -> Result<Stmt, AllocError> {
    let mut e = Expr::This;
    for _ in 0..levels {
        e = wrap(alloc, kind, e)?;
    }
    Ok(Stmt::Value(Box::new(alloc, e)?))
}

/// Statements of one kind in one another.
fn nest_stmt(alloc: Global, kind: u32, levels: u32) -> Result<Stmt, AllocError> {
    let mut stmt = Stmt::Empty;
    for _ in 0..levels {
        stmt = wrap_stmt(alloc, kind, stmt, Expr::This)?;
    }
    Ok(stmt)
}

/// Functions in the statements of functions.
fn functions(alloc: Global, levels: u32) -> Result<Stmt, NoMemory> {
    let mut stmt = Stmt::Empty;
    for _ in 0..levels {
        stmt = Stmt::Fun(function(alloc, FunctionKind::Normal, stmt)?);
    }
    Ok(stmt)
}

#[test]
fn deep_expressions_are_tested(rt: HostRuntime) -> Result<(), Fail> {
    let alloc = rt.alloc();
    for kind in 0..18u32 {
        // A function stands in a statement, which is a level too.
        let levels = if kind == 13 { 20000 } else { 40000 };
        let stmt = nest(alloc, kind, levels)?;
        expect(&rt, alloc, stmt, true, kind < 14 || kind == 17)?;
    }
    Ok(())
}

#[test]
fn deep_statements_are_tested(rt: HostRuntime) -> Result<(), Fail> {
    let alloc = rt.alloc();
    for kind in 1..16u32 {
        if kind != 3 && kind != 11 {
            let stmt = nest_stmt(alloc, kind, 40000)?;
            expect(&rt, alloc, stmt, kind != 14, kind != 10)?;
        }
    }
    expect(&rt, alloc, functions(alloc, 40000)?, true, true)?;
    Ok(())
}
