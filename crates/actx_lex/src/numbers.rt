//! Numbers (ECMA-262, 12.9.3): whole, decimal, and at most 2^53 - 1.

ghost use Rattle.std.specs.Prelude.{◌≡◌, ◌≤◌, Bool, IsTrue, length, slice_index, IfSome, IfNone};
ghost use Rattle.std.specs.List.{prefix_len};
ghost use Rattle.actx_grammar.specs.Words.{HasForm};
ghost use Rattle.actx_lex.specs.Characters as spec;
ghost use Rattle.actx_lex.specs.Lexical as lexical;
ghost use Rattle.actx_lex.specs.Lexeme.{Begins, NoToken, number_of};

use super::characters::{char_at, is_digit, is_name_part};
use super::lexeme::Lexeme;
use actx_grammar::token::TokenKind;

/// The greatest number of a program, 2^53 - 1 (ECMA-262, 21.1.2.6).
const GREATEST_NUMBER: u64 = 9_007_199_254_740_991;

/// The number that a text begins with, or `None` where it is too great or badly written.
pub fn first_number(text: &[char]) -> Option<Lexeme>
    requires { IsTrue (spec.is_digit (slice_index text.now 0)) }
    ensures found { IfSome result (λ l. (fresh : Bool) → Begins fresh text.now l.kind l.len) }
    ensures form { IfSome result (λ l. HasForm l.kind) }
    ensures refused { IfNone result ((fresh : Bool) → NoToken fresh text.now) }
{
    let len = digits_len(text);
    if char_at(text, 0) == '0' && len > 1 {
        return None;
    }
    if !begins_free(&text[len..]) {
        return None;
    }
    let value = number_of(&text[..len])?;
    Some(Lexeme {
        kind: TokenKind::Number(value),
        len,
    })
}

/// Whether a number may stand before this text: neither a name, a digit nor a dot does directly after it.
fn begins_free(rest: &[char]) -> bool
    ensures { result ≡ lexical.begins_free rest.now }
{
    match rest {
        [] => true,
        [first, ..] => !(is_name_part(*first) || *first == '.'),
    }
}

/// Whether a number begins here, though maybe none that is taken: a digit, or a dot before one.
pub fn begins_number(text: &[char]) -> bool
    ensures { result ≡ lexical.begins_number text.now }
{
    match text {
        [] => false,
        [first] => is_digit(*first),
        [first, second, ..] => is_digit(*first) || *first == '.' && is_digit(*second),
    }
}

/// The number that digits write, or `None` where it is too great.
fn number_of(digits: &[char]) -> Option<u64>
    requires { spec.AllPass spec.is_digit digits.now }
    ensures { result ≡ number_of digits.now }
{
    let mut value = 0;
    for digit in digits {
        value = value * 10 + u64::from(u32::from(*digit) - 48);
        if value > GREATEST_NUMBER {
            return None;
        }
    }
    Some(value)
}

/// How many characters at the front of a text are digits.
fn digits_len(text: &[char]) -> usize
    ensures run { result ≡ prefix_len spec.is_digit text.now }
    ensures within { result ≤ length text.now }
{
    for (i, c) in text.iter().enumerate() {
        if !is_digit(*c) {
            return i;
        }
    }
    text.len()
}
