//! Statements and their texts.

use super::{name, named, one, text};
use actx_ast::tree::{Catcher, Clause, ConstItem, Expr, ForInit, LetItem, Stmt};
use actx_data::NoMemory;
use std::alloc::Global;
use std::test::Fail;

fn lets(alloc: Global) -> Result<Vec<LetItem>, NoMemory> {
    let mut items = Vec::new(alloc);
    items.push(LetItem {
        name: name(alloc, "a")?,
        value: None,
    })?;
    items.push(LetItem {
        name: name(alloc, "b")?,
        value: Some(Box::new(alloc, Expr::Num(1))?),
    })?;
    Ok(items)
}

fn consts(alloc: Global) -> Result<Vec<ConstItem>, NoMemory> {
    let mut items = Vec::new(alloc);
    items.push(ConstItem {
        name: name(alloc, "a")?,
        value: Expr::Num(1),
    })?;
    items.push(ConstItem {
        name: name(alloc, "b")?,
        value: Expr::Num(2),
    })?;
    Ok(items)
}

fn empty(alloc: Global) -> Result<Box<Stmt>, NoMemory> {
    Ok(Box::new(alloc, Stmt::Empty)?)
}

#[test]
fn declarations(rt: HostRuntime) -> Result<(), Fail> {
    let alloc = rt.alloc();
    let stmt = Stmt::Let(lets(alloc)?);
    assert_eq!(rt;
        text(alloc, stmt)?.as_slice(),
        b"let a , b = 1 ;\n".as_slice()
    );
    let stmt = Stmt::Const(consts(alloc)?);
    assert_eq!(rt;
        text(alloc, stmt)?.as_slice(),
        b"const a = 1 , b = 2 ;\n".as_slice()
    );
    Ok(())
}

#[test]
fn branches(rt: HostRuntime) -> Result<(), Fail> {
    let alloc = rt.alloc();
    let stmt = Stmt::If(Box::new(alloc, Expr::This)?, empty(alloc)?, None);
    assert_eq!(rt;
        text(alloc, stmt)?.as_slice(),
        b"if ( this ) ;\n".as_slice()
    );
    let other = Box::new(alloc, Stmt::Block(Vec::new(alloc)))?;
    let stmt = Stmt::If(Box::new(alloc, Expr::This)?, empty(alloc)?, Some(other));
    assert_eq!(rt;
        text(alloc, stmt)?.as_slice(),
        b"if ( this ) ;\nelse {\n}\n".as_slice()
    );
    Ok(())
}

#[test]
fn loops(rt: HostRuntime) -> Result<(), Fail> {
    let alloc = rt.alloc();
    let stmt = Stmt::While(Box::new(alloc, Expr::This)?, Box::new(alloc, Stmt::Break)?);
    assert_eq!(rt;
        text(alloc, stmt)?.as_slice(),
        b"while ( this ) break ;\n".as_slice()
    );
    let stmt = Stmt::DoWhile(
        Box::new(alloc, Stmt::Continue)?,
        Box::new(alloc, Expr::This)?,
    );
    assert_eq!(rt;
        text(alloc, stmt)?.as_slice(),
        b"do continue ;\nwhile ( this ) ;\n".as_slice()
    );
    let stmt = Stmt::For(ForInit::Nothing, None, None, empty(alloc)?);
    assert_eq!(rt;
        text(alloc, stmt)?.as_slice(),
        b"for ( ;\n;\n) ;\n".as_slice()
    );
    let stmt = Stmt::For(
        ForInit::Const(consts(alloc)?),
        Some(Box::new(alloc, Expr::Num(3))?),
        Some(Box::new(alloc, Expr::Num(4))?),
        empty(alloc)?,
    );
    assert_eq!(rt;
        text(alloc, stmt)?.as_slice(),
        b"for ( const a = 1 , b = 2 ;\n3 ;\n4 ) ;\n".as_slice()
    );
    let stmt = Stmt::ForOf {
        constant: true,
        name: name(alloc, "a")?,
        over: Box::new(alloc, named(alloc, "b")?)?,
        body: empty(alloc)?,
    };
    assert_eq!(rt;
        text(alloc, stmt)?.as_slice(),
        b"for ( const a of b ) ;\n".as_slice()
    );
    let stmt = Stmt::ForAwait {
        constant: false,
        name: name(alloc, "a")?,
        over: Box::new(alloc, named(alloc, "b")?)?,
        body: empty(alloc)?,
    };
    assert_eq!(rt;
        text(alloc, stmt)?.as_slice(),
        b"for await ( let a of b ) ;\n".as_slice()
    );
    Ok(())
}

#[test]
fn ends(rt: HostRuntime) -> Result<(), Fail> {
    let alloc = rt.alloc();
    assert_eq!(rt;
        text(alloc, Stmt::Return(None))?.as_slice(),
        b"return ;\n".as_slice()
    );
    let stmt = Stmt::Return(Some(Box::new(alloc, Expr::This)?));
    assert_eq!(rt;
        text(alloc, stmt)?.as_slice(),
        b"return this ;\n".as_slice()
    );
    let stmt = Stmt::Throw(Box::new(alloc, Expr::This)?);
    assert_eq!(rt; text(alloc, stmt)?.as_slice(), b"throw this ;\n".as_slice());
    Ok(())
}

#[test]
fn tries(rt: HostRuntime) -> Result<(), Fail> {
    let alloc = rt.alloc();
    let catcher = Catcher {
        name: Some(name(alloc, "a")?),
        body: one(alloc, Stmt::Empty)?,
    };
    let stmt = Stmt::Try {
        block: Vec::new(alloc),
        catcher: Some(catcher),
        last: None,
    };
    assert_eq!(rt;
        text(alloc, stmt)?.as_slice(),
        b"try {\n}\ncatch ( a ) {\n;\n}\n".as_slice()
    );
    let catcher = Catcher {
        name: None,
        body: Vec::new(alloc),
    };
    let stmt = Stmt::Try {
        block: Vec::new(alloc),
        catcher: Some(catcher),
        last: Some(one(alloc, Stmt::Empty)?),
    };
    assert_eq!(rt;
        text(alloc, stmt)?.as_slice(),
        b"try {\n}\ncatch {\n}\nfinally {\n;\n}\n".as_slice()
    );
    Ok(())
}

#[test]
fn clauses(rt: HostRuntime) -> Result<(), Fail> {
    let alloc = rt.alloc();
    let mut rows = Vec::new(alloc);
    rows.push(Clause {
        number: Some(1),
        body: one(alloc, Stmt::Break)?,
    })?;
    rows.push(Clause {
        number: None,
        body: Vec::new(alloc),
    })?;
    let stmt = Stmt::Switch(Box::new(alloc, Expr::This)?, rows);
    assert_eq!(rt;
        text(alloc, stmt)?.as_slice(),
        b"switch ( this ) {\ncase 1 : break ;\ndefault : }\n".as_slice()
    );
    Ok(())
}
