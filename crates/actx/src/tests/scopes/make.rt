//! Small trees for tests.

use actx_ast::tree::{Catcher, Expr, Function, Key, LetItem, PropKey, Property, Stmt};
use actx_data::{NoMemory, Units};
use actx_grammar::name::Name;
use actx_grammar::operators::FunctionKind;
use std::alloc::Global;

/// What makes trees.
#[derive(Clone, Copy, Drop)]
pub struct Make {
    alloc: Global,
}

impl Make {
    pub fn new(alloc: Global) -> Make {
        Make { alloc }
    }

    pub fn alloc(self) -> Global {
        self.alloc
    }

    /// The name of a text.
    pub fn name(self, text: &str) -> Result<Name, NoMemory> {
        let mut chars = Vec::new(self.alloc);
        for c in text.chars() {
            chars.push(c)?;
        }
        Ok(Name::from_vec(chars))
    }

    pub fn none(self) -> Vec<Stmt> {
        Vec::new(self.alloc)
    }

    pub fn one(self, statement: Stmt) -> Result<Vec<Stmt>, NoMemory> {
        let mut body = Vec::new(self.alloc);
        body.push(statement)?;
        Ok(body)
    }

    pub fn two(self, first: Stmt, second: Stmt) -> Result<Vec<Stmt>, NoMemory> {
        let mut body = self.one(first)?;
        body.push(second)?;
        Ok(body)
    }

    pub fn boxed(self, e: Expr) -> Result<Box<Expr>, NoMemory> {
        Ok(Box::new(self.alloc, e)?)
    }

    /// `;` as a part of another statement.
    pub fn empty(self) -> Result<Box<Stmt>, NoMemory> {
        Ok(Box::new(self.alloc, Stmt::Empty)?)
    }

    /// The items of `let a, b;`.
    pub fn items(self, names: &[&str]) -> Result<Vec<LetItem>, NoMemory> {
        let mut items = Vec::new(self.alloc);
        for name in names {
            let name = self.name(name)?;
            items.push(LetItem { name, value: None })?;
        }
        Ok(items)
    }

    /// `let a;`
    pub fn lets(self, name: &str) -> Result<Stmt, NoMemory> {
        Ok(Stmt::Let(self.items(&[name])?))
    }

    /// `a;`
    pub fn uses(self, name: &str) -> Result<Stmt, NoMemory> {
        Ok(Stmt::Value(self.boxed(Expr::Named(self.name(name)?))?))
    }

    /// `a = null;`
    pub fn sets(self, name: &str) -> Result<Stmt, NoMemory> {
        let value = self.boxed(Expr::Null)?;
        Ok(Stmt::Value(self.boxed(Expr::SetName(self.name(name)?, value))?))
    }

    /// `null.a;`
    pub fn member(self, name: &str) -> Result<Stmt, NoMemory> {
        let base = self.boxed(Expr::Null)?;
        Ok(Stmt::Value(self.boxed(Expr::Member(base, Key::Dot(self.name(name)?)))?))
    }

    /// `({ a: null });`, of an ASCII key
    pub fn object(self, key: &str) -> Result<Stmt, NoMemory> {
        let mut units = Vec::new(self.alloc);
        for byte in key.as_bytes() {
            units.push(u16::from(*byte))?;
        }
        let mut properties = Vec::new(self.alloc);
        properties.push(Property {
            key: PropKey::Fixed(Units::from_vec(units)),
            value: Expr::Null,
        })?;
        Ok(Stmt::Value(self.boxed(Expr::Object(properties))?))
    }

    /// A function; a name without characters is none.
    pub fn function(
        self,
        name: &str,
        kind: FunctionKind,
        names: &[&str],
        body: Vec<Stmt>,
    ) -> Result<Function, NoMemory> {
        let mut params = Vec::new(self.alloc);
        for param in names {
            params.push(self.name(param)?)?;
        }
        let name = if name.is_empty() {
            None
        } else {
            Some(self.name(name)?)
        };
        Ok(Function {
            name,
            kind,
            params,
            body,
        })
    }

    /// A function expression as a statement.
    pub fn function_value(self, function: Function) -> Result<Stmt, NoMemory> {
        let function = Box::new(self.alloc, function)?;
        Ok(Stmt::Value(self.boxed(Expr::Function(function))?))
    }

    /// A function without a name round a statement, as a statement.
    pub fn within(self, kind: FunctionKind, statement: Stmt) -> Result<Stmt, NoMemory> {
        let function = self.function("", kind, &[], self.one(statement)?)?;
        self.function_value(function)
    }

    /// `while (true) ..`
    pub fn loops(self, statement: Stmt) -> Result<Stmt, NoMemory> {
        let body = Box::new(self.alloc, statement)?;
        Ok(Stmt::While(self.boxed(Expr::Truth(true))?, body))
    }

    /// `await null;`
    pub fn awaits(self) -> Result<Stmt, NoMemory> {
        Ok(Stmt::Value(self.boxed(Expr::Await(self.boxed(Expr::Null)?))?))
    }

    /// `try {} catch (a) {..}`
    pub fn tries(self, name: &str, body: Vec<Stmt>) -> Result<Stmt, NoMemory> {
        let catcher = Catcher {
            name: Some(self.name(name)?),
            body,
        };
        Ok(Stmt::Try {
            block: self.none(),
            catcher: Some(catcher),
            last: None,
        })
    }
}
