//! Copies of what stands in trees: keys, items, functions and clauses.

ghost use Rattle.std.specs.Prelude.{◌≡◌, IfOk, map, option_map};
ghost use Rattle.actx_ast.specs.View.{catcher_view, clause_view, const_view, expr_view, function_view, init_view, key_view, let_view, maybe_expr, prop_key_view, property_view, stmts_view};

use super::copy_of;
use super::done::{take_consts, take_lets, take_stmts};
use super::make_exprs::{copy_maybe_name, copy_names};
use super::order::Work;
use crate::tree::{
    Catcher, Clause, ConstItem, Expr, ForInit, Function, Key, LetItem, PropKey, Property, Stmt,
};
use actx_data::{NoMemory, Twin};
use std::alloc::Global;

fn copy_body(alloc: Global, body: &[Stmt]) -> Result<Vec<Stmt>, NoMemory>
    ensures { IfOk result (λ r. stmts_view r.items ≡ stmts_view body.now) }
{
    let mut done = copy_of(alloc, Work::Stmts(body))?;
    take_stmts(&mut done)
}

fn copy_maybe(alloc: Global, e: &Option<Box<Expr>>) -> Result<Option<Box<Expr>>, NoMemory>
    ensures { IfOk result (λ r. maybe_expr (option_map (λ b. expr_view b.value) r) ≡ maybe_expr (option_map (λ b. expr_view b.value) e.now)) }
{
    match e {
        Some(e) => {
            let e = e.copy(alloc)?;
            Ok(Some(Box::new(alloc, e)?))
        }
        None => Ok(None),
    }
}

impl Twin for Key {
    ghost same = { λ a b. key_view a ≡ key_view b };

    fn copy(&self, alloc: Global) -> Result<Key, NoMemory> {
        match self {
            Key::Dot(name) => Ok(Key::Dot(name.copy(alloc)?)),
            Key::Index(e) => {
                let e = e.copy(alloc)?;
                Ok(Key::Index(Box::new(alloc, e)?))
            }
        }
    }
}

impl Twin for PropKey {
    ghost same = { λ a b. prop_key_view a ≡ prop_key_view b };

    fn copy(&self, alloc: Global) -> Result<PropKey, NoMemory> {
        match self {
            PropKey::Fixed(units) => Ok(PropKey::Fixed(units.copy(alloc)?)),
            PropKey::Computed(e) => {
                let e = e.copy(alloc)?;
                Ok(PropKey::Computed(Box::new(alloc, e)?))
            }
        }
    }
}

impl Twin for Property {
    ghost same = { λ a b. property_view a ≡ property_view b };

    fn copy(&self, alloc: Global) -> Result<Property, NoMemory> {
        let key = self.key.copy(alloc)?;
        let value = self.value.copy(alloc)?;
        Ok(Property { key, value })
    }
}

impl Twin for Function {
    ghost same = { λ a b. function_view a ≡ function_view b };

    fn copy(&self, alloc: Global) -> Result<Function, NoMemory> {
        let name = copy_maybe_name(alloc, &self.name)?;
        let params = copy_names(alloc, &self.params)?;
        let body = copy_body(alloc, &self.body)?;
        Ok(Function {
            name,
            kind: self.kind,
            params,
            body,
        })
    }
}

impl Twin for LetItem {
    ghost same = { λ a b. let_view a ≡ let_view b };

    fn copy(&self, alloc: Global) -> Result<LetItem, NoMemory> {
        let name = self.name.copy(alloc)?;
        let value = copy_maybe(alloc, &self.value)?;
        Ok(LetItem { name, value })
    }
}

impl Twin for ConstItem {
    ghost same = { λ a b. const_view a ≡ const_view b };

    fn copy(&self, alloc: Global) -> Result<ConstItem, NoMemory> {
        let name = self.name.copy(alloc)?;
        let value = self.value.copy(alloc)?;
        Ok(ConstItem { name, value })
    }
}

impl Twin for ForInit {
    ghost same = { λ a b. init_view a ≡ init_view b };

    fn copy(&self, alloc: Global) -> Result<ForInit, NoMemory> {
        match self {
            ForInit::Nothing => Ok(ForInit::Nothing),
            ForInit::Let(items) => {
                let mut done = copy_of(alloc, Work::Lets(items))?;
                Ok(ForInit::Let(take_lets(&mut done)?))
            }
            ForInit::Const(items) => {
                let mut done = copy_of(alloc, Work::Consts(items))?;
                Ok(ForInit::Const(take_consts(&mut done)?))
            }
            ForInit::Value(e) => {
                let e = e.copy(alloc)?;
                Ok(ForInit::Value(Box::new(alloc, e)?))
            }
        }
    }
}

impl Twin for Catcher {
    ghost same = { λ a b. catcher_view a ≡ catcher_view b };

    fn copy(&self, alloc: Global) -> Result<Catcher, NoMemory> {
        let name = copy_maybe_name(alloc, &self.name)?;
        let body = copy_body(alloc, &self.body)?;
        Ok(Catcher { name, body })
    }
}

impl Twin for Clause {
    ghost same = { λ a b. clause_view a ≡ clause_view b };

    fn copy(&self, alloc: Global) -> Result<Clause, NoMemory> {
        let body = copy_body(alloc, &self.body)?;
        Ok(Clause {
            number: self.number,
            body,
        })
    }
}
