//! Trees of each kind of node, dropped, and names, copied.

mod copies;
mod depths;
mod sides;
mod spelled;

use actx_ast::tree::{
    Catcher, Clause, ConstItem, Expr, ForInit, Function, Key, LetItem, PropKey, Property, Stmt,
};
use actx_data::Twin;
use actx_grammar::name::Name;
use actx_grammar::operators::{BinaryOp, Form, FunctionKind, LogicOp, UnaryOp};
use std::alloc::{AllocError, Global};
use std::test::Fail;

fn boxed(alloc: Global) -> Result<Box<Expr>, AllocError> {
    Ok(Box::new(alloc, Expr::This)?)
}

fn named(alloc: Global) -> Result<Name, AllocError> {
    let mut chars = Vec::new(alloc);
    chars.push('x')?;
    Ok(Name::from_vec(chars))
}

fn exprs(alloc: Global, e: Expr) -> Result<Vec<Expr>, AllocError> {
    let mut es = Vec::new(alloc);
    es.push(Expr::Null)?;
    es.push(e)?;
    Ok(es)
}

fn stmts(alloc: Global, st: Stmt) -> Result<Vec<Stmt>, AllocError> {
    let mut ss = Vec::new(alloc);
    ss.push(Stmt::Empty)?;
    ss.push(st)?;
    Ok(ss)
}

fn function(alloc: Global, st: Stmt) -> Result<Function, AllocError> {
    let mut params = Vec::new(alloc);
    params.push(named(alloc)?)?;
    Ok(Function {
        name: None,
        kind: FunctionKind::Arrow,
        params,
        body: stmts(alloc, st)?,
    })
}

fn object(alloc: Global, e: Expr) -> Result<Expr, AllocError> {
    let mut properties = Vec::new(alloc);
    properties.push(Property {
        key: PropKey::Computed(boxed(alloc)?),
        value: e,
    })?;
    Ok(Expr::Object(properties))
}

/// An expression of one of twenty kinds that holds `e`.
pub fn wrap(alloc: Global, kind: u32, e: Expr) -> Result<Expr, AllocError> {
    match kind % 20 {
        0 => Ok(Expr::Unary(UnaryOp::Not, Box::new(alloc, e)?)),
        1 => Ok(Expr::Binary(BinaryOp::Add, Box::new(alloc, e)?, boxed(alloc)?)),
        2 => Ok(Expr::Binary(BinaryOp::Sub, boxed(alloc)?, Box::new(alloc, e)?)),
        3 => Ok(Expr::Logic(LogicOp::And, Box::new(alloc, e)?, boxed(alloc)?)),
        4 => Ok(Expr::Choice(boxed(alloc)?, Box::new(alloc, e)?, boxed(alloc)?)),
        5 => Ok(Expr::SetName(named(alloc)?, Box::new(alloc, e)?)),
        6 => Ok(Expr::SetMember(
            boxed(alloc)?,
            Key::Index(Box::new(alloc, e)?),
            boxed(alloc)?,
        )),
        7 => Ok(Expr::Change(named(alloc)?, BinaryOp::Mul, Box::new(alloc, e)?)),
        8 => Ok(Expr::Member(Box::new(alloc, e)?, Key::Dot(named(alloc)?))),
        9 => Ok(Expr::Member(boxed(alloc)?, Key::Index(Box::new(alloc, e)?))),
        10 => Ok(Expr::Call(Box::new(alloc, e)?, exprs(alloc, Expr::Undefined)?)),
        11 => Ok(Expr::Call(boxed(alloc)?, exprs(alloc, e)?)),
        12 => object(alloc, e),
        13 => {
            let f = function(alloc, Stmt::Value(Box::new(alloc, e)?))?;
            Ok(Expr::Function(Box::new(alloc, f)?))
        }
        14 => Ok(Expr::Yield(Some(Box::new(alloc, e)?))),
        15 => Ok(Expr::YieldAll(Box::new(alloc, e)?)),
        16 => Ok(Expr::Await(Box::new(alloc, e)?)),
        17 => Ok(Expr::Form(Form::Log, exprs(alloc, e)?)),
        18 => {
            let name = named(alloc)?;
            let bump = Expr::Bump {
                name,
                up: true,
                before: false,
            };
            Ok(Expr::Form(Form::Wrap, exprs(alloc, bump)?))
        }
        _ => Ok(Expr::Yield(None)),
    }
}

fn lets(alloc: Global, e: Expr) -> Result<Vec<LetItem>, AllocError> {
    let mut items = Vec::new(alloc);
    items.push(LetItem {
        name: named(alloc)?,
        value: Some(Box::new(alloc, e)?),
    })?;
    Ok(items)
}

fn consts(alloc: Global, e: Expr) -> Result<Vec<ConstItem>, AllocError> {
    let mut items = Vec::new(alloc);
    items.push(ConstItem {
        name: named(alloc)?,
        value: e,
    })?;
    Ok(items)
}

fn clauses(alloc: Global, st: Stmt) -> Result<Vec<Clause>, AllocError> {
    let mut clauses = Vec::new(alloc);
    clauses.push(Clause {
        number: Some(1),
        body: stmts(alloc, st)?,
    })?;
    Ok(clauses)
}

/// A statement of one of eighteen kinds that holds `st` and `e`.
pub fn wrap_stmt(alloc: Global, kind: u32, st: Stmt, e: Expr) -> Result<Stmt, AllocError> {
    match kind % 18 {
        0 => Ok(Stmt::Fun(function(alloc, st)?)),
        1 => Ok(Stmt::Block(stmts(alloc, st)?)),
        2 => Ok(Stmt::If(Box::new(alloc, e)?, Box::new(alloc, st)?, None)),
        3 => {
            let yes = Box::new(alloc, Stmt::Let(lets(alloc, e)?))?;
            Ok(Stmt::If(
                Box::new(alloc, Expr::This)?,
                yes,
                Some(Box::new(alloc, st)?),
            ))
        }
        4 => Ok(Stmt::While(Box::new(alloc, e)?, Box::new(alloc, st)?)),
        5 => Ok(Stmt::DoWhile(Box::new(alloc, st)?, Box::new(alloc, e)?)),
        6 => Ok(Stmt::For(
            ForInit::Nothing,
            Some(Box::new(alloc, e)?),
            None,
            Box::new(alloc, st)?,
        )),
        7 => Ok(Stmt::For(
            ForInit::Let(lets(alloc, e)?),
            None,
            Some(Box::new(alloc, Expr::Null)?),
            Box::new(alloc, st)?,
        )),
        8 => Ok(Stmt::For(
            ForInit::Const(consts(alloc, e)?),
            None,
            None,
            Box::new(alloc, st)?,
        )),
        9 => Ok(Stmt::For(
            ForInit::Value(Box::new(alloc, e)?),
            None,
            None,
            Box::new(alloc, st)?,
        )),
        10 => Ok(Stmt::ForOf {
            constant: true,
            name: named(alloc)?,
            over: Box::new(alloc, e)?,
            body: Box::new(alloc, st)?,
        }),
        11 => Ok(Stmt::ForAwait {
            constant: false,
            name: named(alloc)?,
            over: Box::new(alloc, e)?,
            body: Box::new(alloc, st)?,
        }),
        12 => {
            let thrown = Stmt::Throw(Box::new(alloc, e)?);
            let catcher = Catcher {
                name: None,
                body: stmts(alloc, thrown)?,
            };
            Ok(Stmt::Try {
                block: stmts(alloc, st)?,
                catcher: Some(catcher),
                last: None,
            })
        }
        13 => {
            let returned = Stmt::Return(Some(Box::new(alloc, e)?));
            Ok(Stmt::Try {
                block: stmts(alloc, returned)?,
                catcher: None,
                last: Some(stmts(alloc, st)?),
            })
        }
        14 => Ok(Stmt::Switch(Box::new(alloc, e)?, clauses(alloc, st)?)),
        15 => {
            let items = consts(alloc, e)?;
            let mut ss = stmts(alloc, st)?;
            ss.push(Stmt::Const(items))?;
            Ok(Stmt::Block(ss))
        }
        16 => Ok(Stmt::Return(None)),
        _ => Ok(Stmt::Value(Box::new(alloc, e)?)),
    }
}

/// Expressions in one another, of each kind that goes on in turn.
pub fn nest(alloc: Global, depth: u32) -> Result<Expr, AllocError> {
    let mut e = Expr::Num(1);
    for i in 0..depth {
        e = wrap(alloc, i % 18, e)?;
    }
    Ok(e)
}

/// Statements in one another, of each kind that goes on in turn.
pub fn nest_stmt(alloc: Global, depth: u32) -> Result<Stmt, AllocError> {
    let mut st = Stmt::Break;
    for i in 0..depth {
        let e = wrap(alloc, i, Expr::Truth(true))?;
        st = wrap_stmt(alloc, i % 16, st, e)?;
    }
    Ok(st)
}

fn each(alloc: Global) -> Result<(), AllocError> {
    for i in 0..20u32 {
        let e = wrap(alloc, i, Expr::Num(1))?;
        let st = wrap_stmt(alloc, i, Stmt::Continue, e)?;
        drop(st);
    }
    Ok(())
}

fn deep(alloc: Global, depth: u32) -> Result<(), AllocError> {
    let e = nest(alloc, depth)?;
    drop(e);
    let st = nest_stmt(alloc, depth)?;
    drop(st);
    Ok(())
}

#[test]
fn each_kind_is_dropped(rt: HostRuntime) {
    assert!(rt; each(rt.alloc()).is_ok());
}

#[test]
fn deep_trees_are_dropped(rt: HostRuntime) {
    assert!(rt; deep(rt.alloc(), 40000).is_ok());
}

#[test]
fn names_are_copied(rt: HostRuntime) -> Result<(), Fail> {
    let name = Name::from_list(rt.alloc(), &['a', 'é'])?;
    let copy = name.copy(rt.alloc())?;
    assert!(rt; copy == name);
    assert_eq!(rt; copy.as_slice().len(), 2);
    Ok(())
}
