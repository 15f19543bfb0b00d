//! Programs and how deep they go.

use super::{nest, nest_stmt};
use actx_ast::depth::depth;
use actx_ast::tree::{Expr, Function, Program, Stmt};
use actx_grammar::operators::{BinaryOp, FunctionKind, UnaryOp};
use std::alloc::{AllocError, Global};
use std::test::Fail;

fn depth_of(alloc: Global, stmt: Stmt) -> Result<u32, AllocError> {
    let mut body = Vec::new(alloc);
    body.push(stmt)?;
    let program = Program { body };
    Ok(depth(&program))
}

fn binary(alloc: Global, op: BinaryOp, left: Expr) -> Result<Expr, AllocError> {
    Ok(Expr::Binary(op, Box::new(alloc, left)?, Box::new(alloc, Expr::This)?))
}

/// `! ! .. ! this ;`
fn unaries(alloc: Global, levels: u32) -> Result<Stmt, AllocError> {
    let mut e = Expr::This;
    for _ in 0..levels {
        e = Expr::Unary(UnaryOp::Not, Box::new(alloc, e)?);
    }
    Ok(Stmt::Value(Box::new(alloc, e)?))
}

/// `{ { .. ; .. } }`
fn blocks(alloc: Global, levels: u32) -> Result<Stmt, AllocError> {
    let mut stmt = Stmt::Empty;
    for _ in 0..levels {
        let mut body = Vec::new(alloc);
        body.push(stmt)?;
        stmt = Stmt::Block(body);
    }
    Ok(stmt)
}

/// Functions in the statements of functions.
fn functions(alloc: Global, levels: u32) -> Result<Stmt, AllocError> {
    let mut stmt = Stmt::Empty;
    for _ in 0..levels {
        let mut body = Vec::new(alloc);
        body.push(stmt)?;
        stmt = Stmt::Fun(Function {
            name: None,
            kind: FunctionKind::Normal,
            params: Vec::new(alloc),
            body,
        });
    }
    Ok(stmt)
}

#[test]
fn parentheses_are_a_level(rt: HostRuntime) -> Result<(), Fail> {
    let alloc = rt.alloc();
    let product = binary(alloc, BinaryOp::Mul, Expr::This)?;
    assert_eq!(rt; depth_of(alloc, Stmt::Value(Box::new(alloc, product)?))?, 3);
    let sum = binary(alloc, BinaryOp::Add, Expr::This)?;
    let product = binary(alloc, BinaryOp::Mul, sum)?;
    assert_eq!(rt; depth_of(alloc, Stmt::Value(Box::new(alloc, product)?))?, 5);
    Ok(())
}

#[test]
fn the_program_is_no_level(rt: HostRuntime) -> Result<(), Fail> {
    let alloc = rt.alloc();
    let body = Vec::new(alloc);
    assert_eq!(rt; depth(&Program { body }), 0);
    assert_eq!(rt; depth_of(alloc, Stmt::Empty)?, 1);
    Ok(())
}

#[test]
fn deep_programs_are_measured(rt: HostRuntime) -> Result<(), Fail> {
    let alloc = rt.alloc();
    let stmt = unaries(alloc, 40000)?;
    assert_eq!(rt; depth_of(alloc, stmt)?, 40002);
    let stmt = blocks(alloc, 40000)?;
    assert_eq!(rt; depth_of(alloc, stmt)?, 40001);
    let stmt = functions(alloc, 40000)?;
    assert_eq!(rt; depth_of(alloc, stmt)?, 40001);
    let expr = nest(alloc, 40000)?;
    assert!(rt; depth_of(alloc, Stmt::Value(Box::new(alloc, expr)?))? > 40000);
    let stmt = nest_stmt(alloc, 40000)?;
    assert!(rt; depth_of(alloc, stmt)? > 20000);
    Ok(())
}
