//! Names that the grammar knows, as `console`.

ghost use Rattle.std.specs.Prelude.{◌≡◌, IfOk};
ghost use Rattle.actx_grammar.specs.ParserOperands.{is_binding, is_built_in, named, same_word};
ghost use Rattle.actx_ast.specs.View.{expr_view};

use actx_ast::tree::Expr;
use actx_data::{NoMemory, Twin};
use actx_grammar::name::Name;
use actx_grammar::side::Side;
use std::alloc::Global;

/// Whether the name is this word of ASCII characters.
pub fn is_word(name: &Name, word: &[u8]) -> bool
    ensures { result ≡ same_word name.now word.now }
{
    let chars = name.as_slice();
    if chars.len() != word.len() {
        return false;
    }
    for (i, c) in chars.iter().enumerate() {
        if *c as u32 != u32::from(word[i]) {
            return false;
        }
    }
    true
}

/// Whether the name is of a built-in thing.
pub fn is_built_in(side: Side, name: &Name) -> bool
    ensures { result ≡ is_built_in side name.now }
{
    match side {
        Side::Source => {
            is_word(name, b"Promise")
                || is_word(name, b"AsyncContext")
                || is_word(name, b"console")
                || is_word(name, b"Trace")
                || is_word(name, b"Host")
                || is_word(name, b"Error")
                || is_word(name, b"TypeError")
                || is_word(name, b"RangeError")
                || is_word(name, b"ReferenceError")
                || is_word(name, b"queueMicrotask")
        }
        Side::Plain => {
            is_word(name, b"console")
                || is_word(name, b"Error")
                || is_word(name, b"TypeError")
                || is_word(name, b"RangeError")
                || is_word(name, b"ReferenceError")
                || is_word(name, b"queueMicrotask")
                || is_word(name, b"WeakMap")
                || is_word(name, b"Object")
                || is_word(name, b"__actx")
        }
    }
}

/// Whether the name may be bound.
pub fn is_binding(side: Side, name: &Name) -> bool
    ensures { result ≡ is_binding side name.now }
{
    !is_built_in(side, name)
}

/// A name that is an expression.
pub fn named(alloc: Global, name: &Name) -> Result<Box<Expr>, NoMemory>
    ensures { IfOk result (λ e. expr_view e.value ≡ named name.now) }
{
    if is_word(name, b"undefined") {
        Ok(Box::new(alloc, Expr::Undefined)?)
    } else {
        let name = name.copy(alloc)?;
        Ok(Box::new(alloc, Expr::Named(name))?)
    }
}
