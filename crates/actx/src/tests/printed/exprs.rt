//! Expressions and their texts.

use super::{boxed, name, named, units, value};
use actx_ast::tree::{Expr, Key, PropKey, Property};
use actx_data::NoMemory;
use actx_grammar::operators::{BinaryOp, Form, LogicOp, UnaryOp};
use std::alloc::Global;
use std::test::Fail;

fn binary(alloc: Global, op: BinaryOp, left: Expr, right: Expr) -> Result<Expr, NoMemory> {
    Ok(Expr::Binary(op, Box::new(alloc, left)?, Box::new(alloc, right)?))
}

fn logic(alloc: Global, op: LogicOp, left: Expr, right: Expr) -> Result<Expr, NoMemory> {
    Ok(Expr::Logic(op, Box::new(alloc, left)?, Box::new(alloc, right)?))
}

fn pair(alloc: Global) -> Result<Vec<Expr>, NoMemory> {
    let mut parts = Vec::new(alloc);
    parts.push(named(alloc, "a")?)?;
    parts.push(named(alloc, "b")?)?;
    Ok(parts)
}

#[test]
fn literals(rt: HostRuntime) -> Result<(), Fail> {
    let alloc = rt.alloc();
    assert_eq!(rt;
        value(alloc, Expr::Num(120))?.as_slice(),
        b"120 ;\n".as_slice()
    );
    assert_eq!(rt;
        value(alloc, Expr::Truth(true))?.as_slice(),
        b"true ;\n".as_slice()
    );
    assert_eq!(rt;
        value(alloc, Expr::Truth(false))?.as_slice(),
        b"false ;\n".as_slice()
    );
    assert_eq!(rt;
        value(alloc, Expr::Null)?.as_slice(),
        b"null ;\n".as_slice()
    );
    assert_eq!(rt;
        value(alloc, Expr::Undefined)?.as_slice(),
        b"undefined ;\n".as_slice()
    );
    assert_eq!(rt;
        value(alloc, Expr::This)?.as_slice(),
        b"this ;\n".as_slice()
    );
    let e = named(alloc, "a$")?;
    assert_eq!(rt; value(alloc, e)?.as_slice(), b"a$ ;\n".as_slice());
    Ok(())
}

#[test]
fn texts_with_escapes_and_surrogates(rt: HostRuntime) -> Result<(), Fail> {
    let alloc = rt.alloc();
    let e = Expr::Text(units(alloc, &[34, 97, 92, 32, 126])?);
    assert_eq!(rt;
        value(alloc, e)?.as_slice(),
        b"\"\\\"a\\\\ ~\" ;\n".as_slice()
    );
    let e = Expr::Text(units(alloc, &[10, 127, 228, 0xd83d, 0xde00, 0xdfff])?);
    assert_eq!(rt;
        value(alloc, e)?.as_slice(),
        b"\"\\u000a\\u007f\\u00e4\\ud83d\\ude00\\udfff\" ;\n".as_slice()
    );
    Ok(())
}

#[test]
fn names_of_other_scripts(rt: HostRuntime) -> Result<(), Fail> {
    let alloc = rt.alloc();
    let e = named(alloc, "\u{e4}\u{4e2d}")?;
    assert_eq!(rt;
        value(alloc, e)?.as_slice(),
        b"\xc3\xa4\xe4\xb8\xad ;\n".as_slice()
    );
    Ok(())
}

#[test]
fn operators_and_parentheses(rt: HostRuntime) -> Result<(), Fail> {
    let alloc = rt.alloc();
    let e = Expr::Unary(UnaryOp::Typeof, boxed(alloc, "a")?);
    assert_eq!(rt; value(alloc, e)?.as_slice(), b"typeof a ;\n".as_slice());
    let minus = Expr::Unary(UnaryOp::Minus, boxed(alloc, "a")?);
    let e = Expr::Unary(UnaryOp::Minus, Box::new(alloc, minus)?);
    assert_eq!(rt; value(alloc, e)?.as_slice(), b"- - a ;\n".as_slice());
    let sum = binary(alloc, BinaryOp::Add, named(alloc, "a")?, named(alloc, "b")?)?;
    let e = binary(alloc, BinaryOp::Mul, sum, named(alloc, "c")?)?;
    assert_eq!(rt;
        value(alloc, e)?.as_slice(),
        b"( a + b ) * c ;\n".as_slice()
    );
    let sum = binary(alloc, BinaryOp::Sub, named(alloc, "b")?, named(alloc, "c")?)?;
    let e = binary(alloc, BinaryOp::Sub, named(alloc, "a")?, sum)?;
    assert_eq!(rt;
        value(alloc, e)?.as_slice(),
        b"a - ( b - c ) ;\n".as_slice()
    );
    let both = logic(alloc, LogicOp::And, named(alloc, "b")?, named(alloc, "c")?)?;
    let e = logic(alloc, LogicOp::Or, named(alloc, "a")?, both)?;
    assert_eq!(rt; value(alloc, e)?.as_slice(), b"a || b && c ;\n".as_slice());
    let either = logic(alloc, LogicOp::Or, named(alloc, "a")?, named(alloc, "b")?)?;
    let e = logic(alloc, LogicOp::Coalesce, either, named(alloc, "c")?)?;
    assert_eq!(rt;
        value(alloc, e)?.as_slice(),
        b"( a || b ) ?? c ;\n".as_slice()
    );
    let e = Expr::Choice(boxed(alloc, "a")?, boxed(alloc, "b")?, boxed(alloc, "c")?);
    assert_eq!(rt; value(alloc, e)?.as_slice(), b"a ? b : c ;\n".as_slice());
    Ok(())
}

#[test]
fn assignments(rt: HostRuntime) -> Result<(), Fail> {
    let alloc = rt.alloc();
    let e = Expr::SetName(name(alloc, "a")?, boxed(alloc, "b")?);
    assert_eq!(rt; value(alloc, e)?.as_slice(), b"a = b ;\n".as_slice());
    let e = Expr::Change(name(alloc, "a")?, BinaryOp::Sub, boxed(alloc, "b")?);
    assert_eq!(rt; value(alloc, e)?.as_slice(), b"a -= b ;\n".as_slice());
    let key = Key::Index(boxed(alloc, "b")?);
    let e = Expr::SetMember(boxed(alloc, "a")?, key, boxed(alloc, "c")?);
    assert_eq!(rt; value(alloc, e)?.as_slice(), b"a [ b ] = c ;\n".as_slice());
    let e = Expr::Bump {
        name: name(alloc, "a")?,
        up: true,
        before: true,
    };
    assert_eq!(rt; value(alloc, e)?.as_slice(), b"++ a ;\n".as_slice());
    let e = Expr::Bump {
        name: name(alloc, "a")?,
        up: false,
        before: false,
    };
    assert_eq!(rt; value(alloc, e)?.as_slice(), b"a -- ;\n".as_slice());
    Ok(())
}

#[test]
fn members_and_calls(rt: HostRuntime) -> Result<(), Fail> {
    let alloc = rt.alloc();
    let e = Expr::Member(boxed(alloc, "a")?, Key::Dot(name(alloc, "const")?));
    assert_eq!(rt; value(alloc, e)?.as_slice(), b"a . const ;\n".as_slice());
    let e = Expr::Call(boxed(alloc, "f")?, pair(alloc)?);
    assert_eq!(rt; value(alloc, e)?.as_slice(), b"f ( a , b ) ;\n".as_slice());
    let e = Expr::Call(boxed(alloc, "f")?, Vec::new(alloc));
    assert_eq!(rt; value(alloc, e)?.as_slice(), b"f ( ) ;\n".as_slice());
    let e = Expr::Form(Form::Log, pair(alloc)?);
    assert_eq!(rt;
        value(alloc, e)?.as_slice(),
        b"console . log ( a , b ) ;\n".as_slice()
    );
    let e = Expr::Form(Form::CallWith, pair(alloc)?);
    assert_eq!(rt;
        value(alloc, e)?.as_slice(),
        b"a . call ( b ) ;\n".as_slice()
    );
    Ok(())
}

#[test]
fn an_object_at_the_beginning(rt: HostRuntime) -> Result<(), Fail> {
    let alloc = rt.alloc();
    let mut properties = Vec::new(alloc);
    properties.push(Property {
        key: PropKey::Fixed(units(alloc, &[97])?),
        value: Expr::Num(1),
    })?;
    properties.push(Property {
        key: PropKey::Computed(boxed(alloc, "b")?),
        value: Expr::Num(2),
    })?;
    let e = Expr::Object(properties);
    assert_eq!(rt;
        value(alloc, e)?.as_slice(),
        b"( {\n\"a\" : 1 , [ b ] : 2 }\n) ;\n".as_slice()
    );
    Ok(())
}

#[test]
fn coroutines(rt: HostRuntime) -> Result<(), Fail> {
    let alloc = rt.alloc();
    assert_eq!(rt;
        value(alloc, Expr::Yield(None))?.as_slice(),
        b"yield ;\n".as_slice()
    );
    let e = Expr::Yield(Some(boxed(alloc, "a")?));
    assert_eq!(rt; value(alloc, e)?.as_slice(), b"yield a ;\n".as_slice());
    let e = Expr::YieldAll(boxed(alloc, "a")?);
    assert_eq!(rt; value(alloc, e)?.as_slice(), b"yield * a ;\n".as_slice());
    let e = Expr::Await(boxed(alloc, "a")?);
    assert_eq!(rt; value(alloc, e)?.as_slice(), b"await a ;\n".as_slice());
    Ok(())
}
