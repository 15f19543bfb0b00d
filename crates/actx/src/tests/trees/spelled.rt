//! Programs and how many tokens they have.

use super::{nest, nest_stmt};
use actx_ast::spell::spell;
use actx_ast::tree::{Expr, Program, Stmt};
use actx_data::NoMemory;
use actx_grammar::token::TokenKind;
use std::alloc::Global;
use std::test::Fail;

fn tokens(alloc: Global, stmt: Stmt) -> Result<Vec<TokenKind>, NoMemory> {
    let mut body = Vec::new(alloc);
    body.push(stmt)?;
    spell(alloc, &Program { body })
}

#[test]
fn a_statement_is_spelled(rt: HostRuntime) -> Result<(), Fail> {
    let alloc = rt.alloc();
    assert_eq!(rt; tokens(alloc, Stmt::Empty)?.len(), 1);
    assert_eq!(rt;
        tokens(alloc, Stmt::Value(Box::new(alloc, Expr::This)?))?.len(),
        2
    );
    Ok(())
}

#[test]
fn no_statement_is_spelled_by_no_token(rt: HostRuntime) -> Result<(), Fail> {
    let alloc = rt.alloc();
    let body = Vec::new(alloc);
    assert_eq!(rt; spell(alloc, &Program { body })?.len(), 0);
    Ok(())
}

#[test]
fn deep_programs_are_spelled(rt: HostRuntime) -> Result<(), Fail> {
    let alloc = rt.alloc();
    let expr = nest(alloc, 40000)?;
    assert!(rt; tokens(alloc, Stmt::Value(Box::new(alloc, expr)?))?.len() > 40000);
    let stmt = nest_stmt(alloc, 40000)?;
    assert!(rt; tokens(alloc, stmt)?.len() > 40000);
    Ok(())
}
