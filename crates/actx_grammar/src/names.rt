//! Which words are names, and what a name may stand for on a side: `Promise` is a name, and no program binds it
//! (ECMA-262, 12.7).

ghost use Rattle.std.specs.Prelude.{◌≡◌, ◌==◌, ◌↔◌, All, Contains, IsTrue};
ghost use Rattle.std.specs.Cmp.Lexicographic.{pointwise};
ghost use Rattle.std.specs.List.{list_any};
ghost use Rattle.actx_grammar.specs.declared.side.Side.TheVariants as Side;
ghost use Rattle.actx_grammar.specs.Names as spec;
ghost use Rattle.actx_grammar.specs.Sides.{IsWord};
ghost use Rattle.actx_grammar.specs.Words as words;

use super::name::Name;
use super::reserved::{is_keyword, is_word};
use super::side::Side;

/// IdentifierStart (12.7).
fn is_name_start(c: char) -> bool
    ensures { result ≡ words.is_name_start c }
{
    c == '$' || c == '_' || unicode_ident::is_xid_start(c)
}

/// IdentifierPart (12.7).
fn is_name_part(c: char) -> bool
    ensures { result ≡ words.is_name_part c }
{
    c == '$' || unicode_ident::is_xid_continue(c)
}

/// Whether each of the characters may stand in a name behind its first.
fn are_parts(chars: &[char]) -> bool
    ensures { IsTrue result ↔ All (λ c. IsTrue (words.is_name_part c)) chars.now }
{
    chars.iter().all(|c| is_name_part(*c))
}

/// Whether a word is a name.
pub fn is_name(word: &[char]) -> bool
    ensures { IsTrue result ↔ words.IsName word.now }
{
    match word {
        [] => false,
        [first, more @ ..] => is_name_start(*first) && are_parts(more) && !is_keyword(word),
    }
}

/// Whether a word may stand behind a dot.
pub fn is_member_word(word: &[char]) -> bool
    ensures { IsTrue result ↔ IsWord word.now }
{
    is_keyword(word) || is_name(word)
}

/// Whether a name is of a built-in thing.
fn is_built_in(side: Side, word: &[char]) -> bool
    ensures { IsTrue result ↔ Contains (spec.built_in side) word.now }
{
    match side {
        Side::Source => is_built_in_source(word),
        Side::Plain => is_built_in_plain(word),
    }
}

fn is_built_in_source(word: &[char]) -> bool
    ensures { result ≡ list_any (pointwise ◌==◌ word.now) (spec.built_in Side.Source) }
{
    is_word(word, b"Promise")
        || is_word(word, b"AsyncContext")
        || is_word(word, b"console")
        || is_word(word, b"Trace")
        || is_word(word, b"Host")
        || is_word(word, b"Error")
        || is_word(word, b"TypeError")
        || is_word(word, b"RangeError")
        || is_word(word, b"ReferenceError")
        || is_word(word, b"queueMicrotask")
}

fn is_built_in_plain(word: &[char]) -> bool
    ensures { result ≡ list_any (pointwise ◌==◌ word.now) (spec.built_in Side.Plain) }
{
    is_word(word, b"console")
        || is_word(word, b"Error")
        || is_word(word, b"TypeError")
        || is_word(word, b"RangeError")
        || is_word(word, b"ReferenceError")
        || is_word(word, b"queueMicrotask")
        || is_word(word, b"WeakMap")
        || is_word(word, b"Object")
        || is_word(word, b"__actx")
}

/// Whether a name may be bound, or assigned to.
pub fn is_binding(side: Side, name: &Name) -> bool
    ensures { IsTrue result ↔ spec.IsBinding side name.now }
{
    is_name(name.as_slice()) && !is_built_in(side, name.as_slice())
}

/// Whether a name may stand as an expression.
#[tactic(auto, using(crate::proofs::SideNames::same))]
pub fn is_reference(side: Side, name: &Name) -> bool
    ensures { IsTrue result ↔ spec.IsReference side name.now }
{
    is_binding(side, name) && !is_word(name.as_slice(), b"undefined")
}

/// Whether a name may be of a function itself, or there is none.
pub fn is_own_name(side: Side, name: &Option<Name>) -> bool
    ensures { IsTrue result ↔ spec.IsOwnName side name.now }
{
    match name {
        None => true,
        Some(name) => is_binding(side, name),
    }
}

/// Whether each of the names may be bound.
pub fn are_bindings(side: Side, names: &[Name]) -> bool
    ensures { IsTrue result ↔ All (spec.IsBinding side) names.now }
{
    names.iter().all(|name| is_binding(side, name))
}

/// Whether a name may be the key of a member: `call` belongs to a form on the plain side.
#[tactic(auto, using(crate::proofs::SideNames::same))]
pub fn is_key(side: Side, name: &Name) -> bool
    ensures { IsTrue result ↔ spec.IsKey side name.now }
{
    match side {
        Side::Source => true,
        Side::Plain => !is_word(name.as_slice(), b"call"),
    }
}
