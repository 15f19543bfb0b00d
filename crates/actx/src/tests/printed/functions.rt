//! Functions and their texts.

use super::{name, one, text, value};
use actx_ast::tree::{Expr, Function, Stmt};
use actx_data::NoMemory;
use actx_grammar::name::Name;
use actx_grammar::operators::FunctionKind;
use std::alloc::Global;
use std::test::Fail;

fn function(alloc: Global, own: Option<Name>, kind: FunctionKind) -> Result<Function, NoMemory> {
    let mut params = Vec::new(alloc);
    params.push(name(alloc, "a")?)?;
    params.push(name(alloc, "b")?)?;
    Ok(Function {
        name: own,
        kind,
        params,
        body: one(alloc, Stmt::Return(None))?,
    })
}

fn expr(alloc: Global, own: Option<Name>, kind: FunctionKind) -> Result<Vec<u8>, NoMemory> {
    let f = function(alloc, own, kind)?;
    value(alloc, Expr::Function(Box::new(alloc, f)?))
}

#[test]
fn declarations(rt: HostRuntime) -> Result<(), Fail> {
    let alloc = rt.alloc();
    let f = function(alloc, Some(name(alloc, "f")?), FunctionKind::Normal)?;
    assert_eq!(rt;
        text(alloc, Stmt::Fun(f))?.as_slice(),
        b"function f ( a , b ) {\nreturn ;\n}\n".as_slice()
    );
    let f = function(alloc, Some(name(alloc, "f")?), FunctionKind::AsyncGenerator)?;
    assert_eq!(rt;
        text(alloc, Stmt::Fun(f))?.as_slice(),
        b"async function * f ( a , b ) {\nreturn ;\n}\n".as_slice()
    );
    Ok(())
}

#[test]
fn expressions_at_the_beginning(rt: HostRuntime) -> Result<(), Fail> {
    let alloc = rt.alloc();
    let wrapped = expr(alloc, None, FunctionKind::Normal)?;
    assert_eq!(rt;
        wrapped.as_slice(),
        b"( function ( a , b ) {\nreturn ;\n}\n) ;\n".as_slice()
    );
    let wrapped = expr(alloc, None, FunctionKind::Generator)?;
    assert_eq!(rt;
        wrapped.as_slice(),
        b"( function * ( a , b ) {\nreturn ;\n}\n) ;\n".as_slice()
    );
    let wrapped = expr(alloc, Some(name(alloc, "f")?), FunctionKind::Async)?;
    assert_eq!(rt;
        wrapped.as_slice(),
        b"( async function f ( a , b ) {\nreturn ;\n}\n) ;\n".as_slice()
    );
    Ok(())
}

#[test]
fn arrows(rt: HostRuntime) -> Result<(), Fail> {
    let alloc = rt.alloc();
    let arrow = expr(alloc, None, FunctionKind::Arrow)?;
    assert_eq!(rt;
        arrow.as_slice(),
        b"( a , b ) => {\nreturn ;\n}\n;\n".as_slice()
    );
    let arrow = expr(alloc, None, FunctionKind::AsyncArrow)?;
    assert_eq!(rt;
        arrow.as_slice(),
        b"async ( a , b ) => {\nreturn ;\n}\n;\n".as_slice()
    );
    Ok(())
}
