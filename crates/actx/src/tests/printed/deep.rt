//! Programs of 40,000 levels and their texts.

use super::{one, text, value};
use actx_ast::tree::{Expr, Function, Stmt};
use actx_data::NoMemory;
use actx_grammar::operators::{FunctionKind, UnaryOp};
use std::alloc::Global;
use std::test::Fail;

const LEVELS: u32 = 40000;

fn unaries(alloc: Global) -> Result<Expr, NoMemory> {
    let mut e = Expr::This;
    for _ in 0..LEVELS {
        e = Expr::Unary(UnaryOp::Not, Box::new(alloc, e)?);
    }
    Ok(e)
}

fn blocks(alloc: Global) -> Result<Stmt, NoMemory> {
    let mut stmt = Stmt::Empty;
    for _ in 0..LEVELS {
        stmt = Stmt::Block(one(alloc, stmt)?);
    }
    Ok(stmt)
}

fn functions(alloc: Global) -> Result<Expr, NoMemory> {
    let mut e = Expr::This;
    for _ in 0..LEVELS {
        let f = Function {
            name: None,
            kind: FunctionKind::Arrow,
            params: Vec::new(alloc),
            body: one(alloc, Stmt::Return(Some(Box::new(alloc, e)?)))?,
        };
        e = Expr::Function(Box::new(alloc, f)?);
    }
    Ok(e)
}

#[test]
fn deep_programs_are_printed(rt: HostRuntime) -> Result<(), Fail> {
    let alloc = rt.alloc();
    // `! ` a level, and `this ;` with a line end.
    let e = unaries(alloc)?;
    assert_eq!(rt; value(alloc, e)?.len(), 80007);
    // `{` and `}` a level, each with a line end, and `;` with one.
    let stmt = blocks(alloc)?;
    assert_eq!(rt; text(alloc, stmt)?.len(), 160002);
    // `( ) => {`, `return `, `;` and `}` a level, three of them with a line end, and `this ` and `;` with one.
    let e = functions(alloc)?;
    assert_eq!(rt; value(alloc, e)?.len(), 800007);
    Ok(())
}
