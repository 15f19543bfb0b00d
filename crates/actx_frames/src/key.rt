//! Words as keys and names, as `if` in `{ if : 1 }` and `a.if`, and copies of tokens.

ghost use Rattle.std.specs.Prelude.{◌≡◌, ◌++◌, IfOk, OnOk};
ghost use Rattle.actx_grammar.specs.Names.{word_of};
ghost use Rattle.actx_grammar.specs.Words.{keyword_text, units_of, word_units};

use actx_data::{NoMemory, Twin, Units};
use actx_grammar::name::Name;
use actx_grammar::token::{Keyword, TokenKind};
use actx_grammar::words;
use std::alloc::Global;

/// One more character, as UTF-16 code units (ECMA-262, 11.1.1).
fn push_units(list: &mut Vec<u16>, c: char) -> Result<(), NoMemory>
    ensures { OnOk result (list.new.items ≡ list.old.items ++ units_of c) }
{
    let code = c as u32;
    if code < 0x10000 {
        list.push(code as u16)?;
    } else {
        let rest = code - 0x10000;
        list.push((0xD800 + rest / 0x400) as u16)?;
        list.push((0xDC00 + rest % 0x400) as u16)?;
    }
    Ok(())
}

/// The units of a name.
pub fn name_units(alloc: Global, name: &Name) -> Result<Units, NoMemory>
    ensures { IfOk result (λ u. u ≡ word_units name.now) }
{
    let mut list = Vec::new(alloc);
    for c in name.as_slice() {
        push_units(&mut list, *c)?;
    }
    Ok(Units::from_vec(list))
}

/// The units of a reserved word.
pub fn keyword_units(alloc: Global, keyword: Keyword) -> Result<Units, NoMemory>
    ensures { IfOk result (λ u. u ≡ word_units (keyword_text keyword)) }
{
    let list = keyword_list(alloc, keyword)?;
    Ok(Units::from_vec(list))
}

fn keyword_list(alloc: Global, keyword: Keyword) -> Result<Vec<u16>, NoMemory>
    ensures { IfOk result (λ v. v.items ≡ keyword_text keyword) }
{
    let mut list = Vec::new(alloc);
    for byte in words::keyword_text(keyword).as_bytes() {
        list.push(u16::from(*byte))?;
    }
    Ok(list)
}

/// The name that a reserved word is behind a dot.
fn keyword_name(alloc: Global, keyword: Keyword) -> Result<Name, NoMemory>
    ensures { IfOk result (λ x. x ≡ keyword_text keyword) }
{
    let mut chars = Vec::new(alloc);
    for byte in words::keyword_text(keyword).as_bytes() {
        chars.push(char::from(*byte))?;
    }
    Ok(Name::from_vec(chars))
}

/// The name that a token is behind a dot.
pub fn word_of(alloc: Global, token: &TokenKind) -> Result<Option<Name>, NoMemory>
    ensures { IfOk result (λ x. x ≡ word_of token.now) }
{
    match token {
        TokenKind::Name(name) => Ok(Some(name.copy(alloc)?)),
        TokenKind::Keyword(keyword) => Ok(Some(keyword_name(alloc, *keyword)?)),
        TokenKind::Number(_) => Ok(None),
        TokenKind::Text(_) => Ok(None),
        TokenKind::Sign(_) => Ok(None),
    }
}

/// A token once more.
pub fn copy_token(alloc: Global, token: &TokenKind) -> Result<TokenKind, NoMemory>
    ensures { IfOk result (λ t. t ≡ token.now) }
{
    match token {
        TokenKind::Name(name) => Ok(TokenKind::Name(name.copy(alloc)?)),
        TokenKind::Keyword(keyword) => Ok(TokenKind::Keyword(*keyword)),
        TokenKind::Number(n) => Ok(TokenKind::Number(*n)),
        TokenKind::Text(units) => Ok(TokenKind::Text(units.copy(alloc)?)),
        TokenKind::Sign(sign) => Ok(TokenKind::Sign(*sign)),
    }
}
