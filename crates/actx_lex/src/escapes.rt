//! What stands for one character in a text in quotes (ECMA-262, 12.9.4): a character, as `a`, or an escape, as `\u{61}`.

ghost use Rattle.std.specs.Prelude.{◌≡◌, ◌<◌, ◌≤◌, IsTrue, IfSome, length};
ghost use Rattle.std.specs.List.{prefix_len};
ghost use Rattle.actx_lex.specs.Characters as spec;
ghost use Rattle.actx_lex.specs.Pieces as pieces;

use super::characters::{char_at, is_digit, is_hex, is_line_end};

/// The greatest code point.
const GREATEST_CODE: u32 = 0x10_FFFF;

/// What stands for one character, or for none.
#[derive(Clone, Copy, Debug, Drop, PartialEq, Eq)]
pub struct Piece {
    /// How many characters it takes.
    pub len: usize,
    /// The code point that it stands for; a line end behind a backslash adds nothing.
    pub code: Option<u32>,
}

/// The piece that a text begins with, or `None` where none stands there, or the quote does.
pub fn next_piece(text: &[char], quote: char) -> Option<Piece>
    ensures piece { result ≡ pieces.next_piece quote text.now }
    ensures small { IfSome result (λ p. IfSome p.code (λ c. c < 1114112)) }
{
    if text.is_empty() || char_at(text, 0) == quote {
        return None;
    }
    first_piece(text)
}

/// The piece that a text begins with, or `None` where none stands there, as before a line end.
fn first_piece(text: &[char]) -> Option<Piece>
    requires { 0 < length text.now }
    ensures piece { result ≡ pieces.piece_of text.now }
    ensures small { IfSome result (λ p. IfSome p.code (λ c. c < 1114112)) }
{
    let first = text[0];
    if first == '\\' {
        if text.len() < 2 {
            None
        } else {
            escape(text[1], &text[2..])
        }
    } else if first == '\n' || first == '\r' {
        None
    } else {
        Some(Piece {
            len: 1,
            code: Some(u32::from(first)),
        })
    }
}

/// The escape of a backslash, a character and the rest of a text.
fn escape(c: char, rest: &[char]) -> Option<Piece>
    ensures piece { result ≡ pieces.escape c rest.now }
    ensures small { IfSome result (λ p. IfSome p.code (λ c. c < 1114112)) }
{
    if c == 'x' {
        fixed(rest, 2)
    } else if c == 'u' && char_at(rest, 0) == '{' {
        braced(&rest[1..])
    } else if c == 'u' {
        fixed(rest, 4)
    } else if c == '\r' && char_at(rest, 0) == '\n' {
        Some(Piece { len: 3, code: None })
    } else if is_line_end(c) {
        Some(Piece { len: 2, code: None })
    } else if c == '0' && !is_digit(char_at(rest, 0)) {
        Some(Piece {
            len: 2,
            code: Some(0),
        })
    } else if is_digit(c) {
        None
    } else {
        Some(Piece {
            len: 2,
            code: Some(single_escape(c)),
        })
    }
}

/// What a character behind a backslash stands for.
fn single_escape(c: char) -> u32
    ensures value { result ≡ spec.single_escape c }
    ensures small { result < 1114112 }
{
    match c {
        'b' => 8,
        't' => 9,
        'n' => 10,
        'v' => 11,
        'f' => 12,
        'r' => 13,
        _ => u32::from(c),
    }
}

/// `\xHH` and `\uHHHH`, behind the letter.
fn fixed(rest: &[char], digits: usize) -> Option<Piece>
    requires { digits ≤ 4 }
    ensures piece { result ≡ pieces.fixed rest.now digits }
    ensures small { IfSome result (λ p. IfSome p.code (λ c. c < 1114112)) }
{
    if rest.len() < digits {
        return None;
    }
    let code = hex_number(&rest[..digits])?;
    Some(Piece {
        len: digits + 2,
        code: Some(code),
    })
}

/// `\u{H..}`, behind the brace.
fn braced(rest: &[char]) -> Option<Piece>
    ensures piece { result ≡ pieces.braced rest.now }
    ensures small { IfSome result (λ p. IfSome p.code (λ c. c < 1114112)) }
{
    let digits = hex_len(rest);
    if digits == 0 || char_at(rest, digits) != '}' {
        return None;
    }
    let code = hex_number(&rest[..digits])?;
    Some(Piece {
        len: digits + 4,
        code: Some(code),
    })
}

/// How many characters at the front of a text are hexadecimal digits.
fn hex_len(text: &[char]) -> usize
    ensures run { result ≡ prefix_len spec.is_hex text.now }
    ensures within { result ≤ length text.now }
{
    for (i, c) in text.iter().enumerate() {
        if !is_hex(*c) {
            return i;
        }
    }
    text.len()
}

/// The code point that hexadecimal digits write, or `None` where another character is among them or it is too great.
fn hex_number(digits: &[char]) -> Option<u32>
    ensures value { result ≡ pieces.hex_number digits.now }
    ensures small { IfSome result (λ v. v < 1114112) }
{
    let mut value = 0;
    for digit in digits {
        if !is_hex(*digit) {
            return None;
        }
        value = value * 16 + hex_value(*digit);
        if value > GREATEST_CODE {
            return None;
        }
    }
    Some(value)
}

fn hex_value(digit: char) -> u32
    requires { IsTrue (spec.is_hex digit) }
    ensures value { result ≡ spec.hex_value digit }
    ensures small { result < 16 }
{
    let code = u32::from(digit);
    if is_digit(digit) {
        code - 48
    } else if digit <= 'F' {
        code - 55
    } else {
        code - 87
    }
}
