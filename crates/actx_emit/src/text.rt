//! The text of a token: a name's characters, a number in decimal, a text in quotes with its escapes.

ghost use Rattle.std.specs.Prelude.{◌≡◌, ◌++◌, ◌<◌, ◌/◌, ◌%◌, ◌∷◌, [], OnOk, string_bytes, flat_map, decimal};
ghost use Rattle.std.specs.Str.{encode_utf8_all};
ghost use Rattle.actx_emit.specs.Layout as spec;

use actx_data::Units;
use actx_grammar::name::Name;
use actx_grammar::token::TokenKind;
use actx_grammar::words::{keyword_text, sign_text};
use std::alloc::{AllocError, Global};

/// The token's own text, in UTF-8.
#[tactic(auto, using(crate::proofs::Ascii::keyword_ascii, crate::proofs::Ascii::sign_ascii))]
pub fn push_token(alloc: Global, text: &mut String, token: &TokenKind) -> Result<(), AllocError>
    ensures { OnOk result (string_bytes text.new ≡ string_bytes text.old ++ encode_utf8_all (spec.token_text token.now)) }
{
    match token {
        TokenKind::Name(name) => push_name(text, name),
        TokenKind::Keyword(keyword) => text.push_str(keyword_text(*keyword)),
        TokenKind::Number(value) => push_number(alloc, text, *value),
        TokenKind::Text(units) => push_text(text, units),
        TokenKind::Sign(sign) => text.push_str(sign_text(*sign)),
    }
}

fn push_name(text: &mut String, name: &Name) -> Result<(), AllocError>
    ensures { OnOk result (string_bytes text.new ≡ string_bytes text.old ++ encode_utf8_all name.now) }
{
    for char in name.as_slice() {
        text.push(*char)?;
    }
    Ok(())
}

#[tactic(auto, using(crate::proofs::Ascii::number_ascii))]
fn push_number(alloc: Global, text: &mut String, value: u64) -> Result<(), AllocError>
    ensures { OnOk result (string_bytes text.new ≡ string_bytes text.old ++ encode_utf8_all (decimal value)) }
{
    let digits = format!(in alloc; "{value}")?;
    text.push_str(digits.as_str())
}

/// A text in quotes, with escapes where a unit can't stand for itself (ECMA-262, 12.9.4).
fn push_text(text: &mut String, units: &Units) -> Result<(), AllocError>
    ensures { OnOk result (string_bytes text.new ≡ string_bytes text.old ++ encode_utf8_all (spec.quoted units.now)) }
{
    text.push('"')?;
    push_units(text, units.as_slice())?;
    text.push('"')
}

fn push_units(text: &mut String, units: &[u16]) -> Result<(), AllocError>
    ensures { OnOk result (string_bytes text.new ≡ string_bytes text.old ++ encode_utf8_all (flat_map spec.unit_text units.now)) }
{
    for unit in units {
        push_unit(text, *unit)?;
    }
    Ok(())
}

fn push_unit(text: &mut String, unit: u16) -> Result<(), AllocError>
    ensures { OnOk result (string_bytes text.new ≡ string_bytes text.old ++ encode_utf8_all (spec.unit_text unit)) }
{
    if unit == 34 || unit == 92 {
        text.push('\\')?;
        text.push(char::from(unit as u8))
    } else if 32 <= unit && unit <= 126 {
        text.push(char::from(unit as u8))
    } else {
        push_hex(text, unit)
    }
}

/// A unit as `\u` and four hexadecimal digits.
fn push_hex(text: &mut String, unit: u16) -> Result<(), AllocError>
    ensures { OnOk result (string_bytes text.new ≡ string_bytes text.old ++ encode_utf8_all (92 ∷ 117 ∷ spec.hex_digit (unit / 4096) ∷ spec.hex_digit (unit / 256 % 16) ∷ spec.hex_digit (unit / 16 % 16) ∷ spec.hex_digit (unit % 16) ∷ [])) }
{
    text.push('\\')?;
    text.push('u')?;
    text.push(hex_digit(unit / 4096))?;
    text.push(hex_digit(unit / 256 % 16))?;
    text.push(hex_digit(unit / 16 % 16))?;
    text.push(hex_digit(unit % 16))
}

/// A hexadecimal digit, in lower case.
fn hex_digit(value: u16) -> char
    requires { value < 16 }
    ensures digit { result ≡ spec.hex_digit value }
    ensures ascii { result < 128 }
{
    let value = value as u8;
    char::from(if value < 10 {
        b'0' + value
    } else {
        b'a' - 10 + value
    })
}
