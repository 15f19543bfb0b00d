//! Texts in quotes (ECMA-262, 12.9.4) and the UTF-16 units that they stand for: `"a\n"` is 97 and 10.

ghost use Rattle.std.specs.Prelude.{◌≡◌, ◌<◌, ◌^◌, ◌++◌, Bool, length, slice_index, IfOk, IfSome, IfNone, OnOk};
ghost use Rattle.actx_grammar.specs.Words.{HasForm};
ghost use Rattle.actx_lex.specs.Lexical as spec;
ghost use Rattle.actx_lex.specs.Lexeme.{Begins, NoToken};
ghost use Rattle.actx_lex.specs.Pieces.{units_in};

use super::characters::char_at;
use super::escapes::next_piece;
use super::lexeme::Lexeme;
use actx_data::{NoMemory, Units};
use actx_grammar::token::TokenKind;
use std::alloc::Global;

/// The text in quotes that a text begins with, or `None` where it has no end or a bad escape.
pub fn first_text(alloc: Global, text: &[char]) -> Result<Option<Lexeme>, NoMemory>
    requires { spec.IsQuote (slice_index text.now 0) }
    ensures found { IfOk result (λ r. IfSome r (λ l. (fresh : Bool) → Begins fresh text.now l.kind l.len)) }
    ensures form { IfOk result (λ r. IfSome r (λ l. HasForm l.kind)) }
    ensures refused { IfOk result (λ r. IfNone r ((fresh : Bool) → NoToken fresh text.now)) }
{
    let quote = char_at(text, 0);
    let (_, mut rest) = text.split_at(1);
    let mut units = Vec::new(alloc);
    while let Some(piece) = next_piece(rest, quote) {
        push_units(&mut units, piece.code)?;
        let (_, left) = rest.split_at(piece.len);
        rest = left;
    }
    if char_at(rest, 0) != quote {
        return Ok(None);
    }
    let units = Units::from_vec(units);
    Ok(Some(Lexeme {
        kind: TokenKind::Text(units),
        len: text.len() - rest.len() + 1,
    }))
}

/// Adds the units of a code point, two above U+FFFF (ECMA-262, 11.1.1), or none where there is no code point.
fn push_units(units: &mut Vec<u16>, code: Option<u32>) -> Result<(), NoMemory>
    requires { IfSome code (λ c. c < 1114112) }
    ensures { OnOk result (units.new.items ≡ units.old.items ++ units_in code) }
{
    let Some(code) = code else {
        return Ok(());
    };
    if code < 0x1_0000 {
        units.push(code as u16)?;
        return Ok(());
    }
    let above = code - 0x1_0000;
    units.push((0xD800 + above / 1024) as u16)?;
    units.push((0xDC00 + above % 1024) as u16)?;
    Ok(())
}
