//! Small programs: what the static rules say of them, and what their names refer to.

mod make;

use actx_ast::tree::{Expr, ForInit, LetItem, Program, Stmt};
use actx_data::NoMemory;
use actx_grammar::name::Name;
use actx_grammar::operators::FunctionKind;
use actx_scope::{CheckFault, check, free_names};
use make::Make;
use std::alloc::Global;
use std::test::Fail;

/// The fault of a program of these statements, where it has one.
fn fault(alloc: Global, body: Vec<Stmt>) -> Option<CheckFault> {
    let program = Program { body };
    match check(alloc, &program) {
        Ok(_) => None,
        Err(fault) => Some(fault),
    }
}

#[test]
fn a_name_that_is_not_in_scope_is_undeclared(rt: HostRuntime) -> Result<(), Fail> {
    let m = Make::new(rt.alloc());
    // a;
    let body = m.one(m.uses("a")?)?;
    assert_eq!(rt; fault(rt.alloc(), body), Some(CheckFault::Undeclared(1)));
    // a = 1;
    let body = m.one(m.sets("a")?)?;
    assert_eq!(rt; fault(rt.alloc(), body), Some(CheckFault::Undeclared(1)));
    // { let a; } a;
    let body = m.two(Stmt::Block(m.one(m.lets("a")?)?), m.uses("a")?)?;
    assert_eq!(rt; fault(rt.alloc(), body), Some(CheckFault::Undeclared(4)));
    // (function f() {}); f;
    let f = m.function("f", FunctionKind::Normal, &[], m.none())?;
    let body = m.two(m.function_value(f)?, m.uses("f")?)?;
    assert_eq!(rt; fault(rt.alloc(), body), Some(CheckFault::Undeclared(4)));
    // a; function a() {}
    let a = m.function("a", FunctionKind::Normal, &[], m.none())?;
    let body = m.two(m.uses("a")?, Stmt::Fun(a))?;
    assert_eq!(rt; fault(rt.alloc(), body), None);
    Ok(())
}

#[test]
fn a_scope_binds_a_name_once(rt: HostRuntime) -> Result<(), Fail> {
    let m = Make::new(rt.alloc());
    // let a; let a;
    let body = m.two(m.lets("a")?, m.lets("a")?)?;
    assert_eq!(rt; fault(rt.alloc(), body), Some(CheckFault::Twice(3)));
    // let a; { let a; }
    let body = m.two(m.lets("a")?, Stmt::Block(m.one(m.lets("a")?)?))?;
    assert_eq!(rt; fault(rt.alloc(), body), None);
    // function a() {} let a;
    let a = m.function("a", FunctionKind::Normal, &[], m.none())?;
    let body = m.two(Stmt::Fun(a), m.lets("a")?)?;
    assert_eq!(rt; fault(rt.alloc(), body), Some(CheckFault::Twice(3)));
    // (a, a) => {};
    let f = m.function("", FunctionKind::Arrow, &["a", "a"], m.none())?;
    let body = m.one(m.function_value(f)?)?;
    assert_eq!(rt; fault(rt.alloc(), body), Some(CheckFault::Twice(3)));
    // (a) => { let a; };
    let f = m.function("", FunctionKind::Arrow, &["a"], m.one(m.lets("a")?)?)?;
    let body = m.one(m.function_value(f)?)?;
    assert_eq!(rt; fault(rt.alloc(), body), Some(CheckFault::Twice(4)));
    // try {} catch (a) { let a; }
    let body = m.one(m.tries("a", m.one(m.lets("a")?)?)?)?;
    assert_eq!(rt; fault(rt.alloc(), body), Some(CheckFault::Twice(3)));
    // for (let a, a;;);
    let init = ForInit::Let(m.items(&["a", "a"])?);
    let body = m.one(Stmt::For(init, None, None, m.empty()?))?;
    assert_eq!(rt; fault(rt.alloc(), body), Some(CheckFault::Twice(2)));
    Ok(())
}

#[test]
fn some_names_and_keys_are_reserved(rt: HostRuntime) -> Result<(), Fail> {
    let m = Make::new(rt.alloc());
    let faults = [
        // let eval;
        (m.lets("eval")?, Some(CheckFault::Reserved(1))),
        // let undefined;
        (m.lets("undefined")?, Some(CheckFault::Reserved(1))),
        // arguments;
        (m.uses("arguments")?, Some(CheckFault::Reserved(1))),
        // undefined = 1;
        (m.sets("undefined")?, Some(CheckFault::Reserved(1))),
        // null.valueOf;
        (m.member("valueOf")?, Some(CheckFault::Reserved(3))),
        // null.value;
        (m.member("value")?, None),
        // ({ __proto__: 1 });
        (m.object("__proto__")?, Some(CheckFault::Reserved(2))),
        // ({ proto: 1 });
        (m.object("proto")?, None),
    ];
    for (statement, want) in faults {
        let body = m.one(statement)?;
        assert_eq!(rt; fault(rt.alloc(), body), want);
    }
    Ok(())
}

#[test]
fn statements_and_expressions_stand_where_they_belong(rt: HostRuntime) -> Result<(), Fail> {
    let m = Make::new(rt.alloc());
    let faults = [
        // break;
        (Stmt::Break, Some(CheckFault::Misplaced(0))),
        // while (true) break;
        (m.loops(Stmt::Break)?, None),
        // while (true) () => { break; };
        (
            m.loops(m.within(FunctionKind::Arrow, Stmt::Break)?)?,
            Some(CheckFault::Misplaced(4)),
        ),
        // return;
        (Stmt::Return(None), Some(CheckFault::Misplaced(0))),
        // () => { return; };
        (m.within(FunctionKind::Arrow, Stmt::Return(None))?, None),
        // this;
        (
            Stmt::Value(m.boxed(Expr::This)?),
            Some(CheckFault::Misplaced(1)),
        ),
        // () => { this; };
        (
            m.within(FunctionKind::Arrow, Stmt::Value(m.boxed(Expr::This)?))?,
            Some(CheckFault::Misplaced(3)),
        ),
        // (function () { () => { this; }; });
        (
            m.within(
                FunctionKind::Normal,
                m.within(FunctionKind::Arrow, Stmt::Value(m.boxed(Expr::This)?))?,
            )?,
            None,
        ),
        // () => { yield; };
        (
            m.within(
                FunctionKind::Arrow,
                Stmt::Value(m.boxed(Expr::Yield(None))?),
            )?,
            Some(CheckFault::Misplaced(3)),
        ),
        // (function* () { yield; });
        (
            m.within(
                FunctionKind::Generator,
                Stmt::Value(m.boxed(Expr::Yield(None))?),
            )?,
            None,
        ),
        // await null;
        (m.awaits()?, Some(CheckFault::Misplaced(1))),
        // async () => { await null; };
        (m.within(FunctionKind::AsyncArrow, m.awaits()?)?, None),
    ];
    for (statement, want) in faults {
        let body = m.one(statement)?;
        assert_eq!(rt; fault(rt.alloc(), body), want);
    }
    Ok(())
}

#[test]
fn the_first_of_two_faults_is_answered(rt: HostRuntime) -> Result<(), Fail> {
    let m = Make::new(rt.alloc());
    // a; break;
    let body = m.two(m.uses("a")?, Stmt::Break)?;
    assert_eq!(rt; fault(rt.alloc(), body), Some(CheckFault::Undeclared(1)));
    // { break; } eval;
    let body = m.two(Stmt::Block(m.one(Stmt::Break)?), m.uses("eval")?)?;
    assert_eq!(rt; fault(rt.alloc(), body), Some(CheckFault::Misplaced(1)));
    Ok(())
}

#[test]
fn a_use_refers_to_the_innermost_declaration(rt: HostRuntime) -> Result<(), Fail> {
    let m = Make::new(rt.alloc());
    // let a; { a; let a; }
    let inner = Stmt::Block(m.two(m.uses("a")?, m.lets("a")?)?);
    let mut body = m.two(m.lets("a")?, inner)?;
    // a;
    body.push(m.uses("a")?)?;
    let program = Program { body };
    let scopes = check(rt.alloc(), &program)?;
    let want = [
        (0, None),
        (1, None),
        (4, Some(6)),
        (6, None),
        (7, None),
        (8, Some(1)),
        (9, None),
        (u64::MAX, None),
    ];
    for (node, declaration) in want {
        assert_eq!(rt; scopes.declared_by(node), declaration);
    }
    Ok(())
}

#[test]
fn a_function_declares_its_names(rt: HostRuntime) -> Result<(), Fail> {
    let m = Make::new(rt.alloc());
    // function f(a) { c; b; a; f; c; let b; }
    let mut body = m.none();
    for name in ["c", "b", "a", "f", "d", "c"] {
        body.push(m.uses(name)?)?;
    }
    body.push(m.lets("b")?)?;
    let f = m.function("f", FunctionKind::Normal, &["a"], body)?;
    let names = free_names(rt.alloc(), &f)?;
    assert_eq!(rt; names.len(), 2);
    assert!(rt; names[0] == m.name("c")?);
    assert!(rt; names[1] == m.name("d")?);
    Ok(())
}

/// A name for each number.
fn numbered(m: Make, number: u32) -> Result<Name, NoMemory> {
    let mut chars = Vec::new(m.alloc());
    let mut rest = number;
    for _ in 0..5 {
        chars.push(if rest % 16 < 8 { 'a' } else { 'b' })?;
        chars.push(if rest % 8 < 4 { 'a' } else { 'b' })?;
        chars.push(if rest % 4 < 2 { 'a' } else { 'b' })?;
        chars.push(if rest % 2 < 1 { 'a' } else { 'b' })?;
        rest /= 16;
    }
    Ok(Name::from_vec(chars))
}

#[test]
fn a_scope_of_many_names_is_no_slower(rt: HostRuntime) -> Result<(), Fail> {
    let m = Make::new(rt.alloc());
    let mut items = Vec::new(rt.alloc());
    let mut body = m.none();
    for number in 0..50_000u32 {
        let name = numbered(m, number)?;
        items.push(LetItem { name, value: None })?;
        body.push(Stmt::Value(m.boxed(Expr::Named(numbered(m, number)?))?))?;
    }
    body.push(Stmt::Let(items))?;
    let program = Program { body };
    let scopes = check(rt.alloc(), &program)?;
    assert_eq!(rt; scopes.declared_by(1), Some(100_001));
    assert_eq!(rt; scopes.declared_by(99_999), Some(150_000));
    Ok(())
}
