//! Programs and their texts.

mod deep;
mod exprs;
mod functions;
mod stmts;

use actx_ast::tree::{Expr, Program, Stmt};
use actx_data::{NoMemory, Units};
use actx_emit::emit::{emit, text_of};
use actx_grammar::name::Name;
use std::alloc::Global;
use std::test::Fail;

fn name(alloc: Global, letters: &str) -> Result<Name, NoMemory> {
    Ok(Name::from_vec(letters.chars().collect(alloc)?))
}

fn named(alloc: Global, letters: &str) -> Result<Expr, NoMemory> {
    Ok(Expr::Named(name(alloc, letters)?))
}

fn boxed(alloc: Global, letters: &str) -> Result<Box<Expr>, NoMemory> {
    Ok(Box::new(alloc, named(alloc, letters)?)?)
}

fn units(alloc: Global, list: &[u16]) -> Result<Units, NoMemory> {
    Units::from_list(alloc, list)
}

fn one(alloc: Global, stmt: Stmt) -> Result<Vec<Stmt>, NoMemory> {
    let mut body = Vec::new(alloc);
    body.push(stmt)?;
    Ok(body)
}

fn text(alloc: Global, stmt: Stmt) -> Result<Vec<u8>, NoMemory> {
    let body = one(alloc, stmt)?;
    text_of(alloc, &Program { body })
}

fn value(alloc: Global, e: Expr) -> Result<Vec<u8>, NoMemory> {
    text(alloc, Stmt::Value(Box::new(alloc, e)?))
}

#[test]
fn no_statement_is_a_line_end(rt: HostRuntime) -> Result<(), Fail> {
    let alloc = rt.alloc();
    let program = Program {
        body: Vec::new(alloc),
    };
    assert_eq!(rt; emit(alloc, &program)?.as_slice(), b"\n".as_slice());
    Ok(())
}
