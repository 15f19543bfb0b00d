//! Texts with their tokens, and texts that are refused.

use super::pictures::spelled;
use actx_grammar::side::Side;
use actx_grammar::token::TokenKind;
use actx_lex::lex::{LexFault, lex};
use actx_lex::token::Token;
use std::alloc::{AllocError, Global};
use std::process::Abort;
use std::test::Fail;

/// A letter for each token: n for a name, k for a reserved word, d for a number, t for a text and s for a sign; and a bar
/// where a line end stands before it. A dash stands for no token, and a fault for itself.
fn letters_of(alloc: Global, text: &str) -> Result<String, AllocError> {
    let tokens = match lex(alloc, text.as_bytes(), Side::Plain) {
        Ok(tokens) => tokens,
        Err(fault) => return fault_text(alloc, fault),
    };
    let mut letters = String::new(alloc);
    for token in tokens.list.iter() {
        if token.line_before {
            letters.push('|')?;
        }
        letters.push(letter_of(&token.kind))?;
    }
    if letters.is_empty() {
        letters.push('-')?;
    }
    Ok(letters)
}

fn fault_text(alloc: Global, fault: LexFault) -> Result<String, AllocError> {
    match fault {
        LexFault::NotUtf8(at) => format!(in alloc; "utf8 {at}"),
        LexFault::BadToken(at) => format!(in alloc; "token {at}"),
        LexFault::TooLong => String::from_str(alloc, "long"),
        LexFault::BadNumber(at) => format!(in alloc; "number {at}"),
        LexFault::NoMemory => String::from_str(alloc, "memory"),
    }
}

fn letter_of(token: &TokenKind) -> char {
    match token {
        TokenKind::Name(_) => 'n',
        TokenKind::Keyword(_) => 'k',
        TokenKind::Number(_) => 'd',
        TokenKind::Text(_) => 't',
        TokenKind::Sign(_) => 's',
    }
}

/// Texts and what they give.
const CUT: &str = "console.log(1+2*3); gives nsnsdsdsdss
const gives k
constx const$ _const consT gives nnnn
0 10 9007199254740991 gives ddd
9007199254740992 gives number 0
01 gives number 0
1. gives number 0
1.5 gives number 0
a+.5 gives number 2
1a gives number 0
a?.5:b gives number 2
a?.b gives token 1
'' gives t
'a\"b' \"a'b\" gives tt
'a gives token 0
' \\n\\r\\t\\b\\f\\v\\0 ' gives t
'\\01' gives token 0
'\\1' gives token 0
'\\x4'  gives token 0
'\\x4g'  gives token 0
'\\x41' gives t
'\\u0041\\u{41}\\u{000000041}\\u{10FFFF}' gives t
'\\u{110000}' gives token 0
'\\u{}' gives token 0
'\\u{4' gives token 0
'\\u41' gives token 0
'\\q\\'\\\"\\\\' gives t
a // b gives n
a /* b */ c gives nn
/**/a/***/b gives nn
/* a gives token 0
a/b gives token 1
a /= b gives token 2
a<!--b gives token 1
a<!-b gives nsssn
--> a gives token 0
/* a */ --> a gives token 8
a-->b gives nssn
a++ +b-- gives nssns
a===b!==c=>d gives nsnsnsn
a??b?c:d&&e||f gives nsnsnsnsnsn
a+=b-=c*=d<=e>=f<g>h![] gives nsnsnsnsnsnsnsnsss
{a}.b,c; gives snssnsns
a==b gives token 1
a!=b gives token 1
a**b gives token 1
a**=b gives token 1
a%b gives token 1
a&b gives token 1
a|b gives token 1
a^b gives token 1
~a gives token 0
a<<b gives token 1
a>>b gives token 1
a>>>=b gives token 1
...a gives token 0
a..b gives nssn
a&&=b gives token 1
a||=b gives token 1
a??=b gives token 1
#a gives token 0
@a gives token 0
`a` gives token 0
  gives -
␊ ␉ gives -
/* a */ /* b */ gives -
␊a gives |n
a␍␊b c␍d gives n|nn|n
a¶b§c‡°␋␌d gives n|n|nn
a/*␊*/b/*¶*/c/* */d gives n|n|nn
a// b␊c// d␍e// f¶g gives n|n|n|n
a␊-->b gives token 2
a/*␊*/-->b gives token 6
a/**/-->b gives nssn
a␊b-->c gives n|nssn
'a␊b' gives token 0
'a␍b' gives token 0
'a\\␍␊b\\␊c\\␍d\\¶e§' gives t
é中1 é gives nn
aé😀 gives token 3
é 1é gives number 3
é'\\' gives token 2
";

#[test]
fn texts_are_cut(rt: HostRuntime) -> Result<(), Fail> {
    for line in CUT.lines() {
        let (text, wanted) = line.split_once(" gives ").unwrap_or((line, ""));
        let text = spelled(rt.alloc(), text)?;
        let letters = letters_of(rt.alloc(), text.as_str())?;
        assert_eq!(rt; letters.as_str(), wanted, "{text}");
    }
    Ok(())
}

/// The units of the first token, each behind a space.
fn units_of(alloc: Global, text: &str) -> Result<String, LexFault> {
    let tokens = lex(alloc, text.as_bytes(), Side::Source)?;
    let mut out = String::new(alloc);
    if let [
        Token {
            kind: TokenKind::Text(units),
            ..
        },
        ..
    ] = tokens.list.as_slice()
    {
        for unit in units.as_slice() {
            let word = format!(in alloc; " {unit}")?;
            out.push_str(word.as_str())?;
        }
    }
    Ok(out)
}

/// Texts in quotes and their units.
const UNITS: &str = "'' gives
'a😀' gives 97 55357 56832
'\\b\\t\\n\\v\\f\\r\\0' gives 8 9 10 11 12 13 0
'\\x4F\\u00e9\\u{1F600}\\uD800' gives 79 233 55357 56832 55296
'a\\␍␊b\\␊\\¶\\q\\\\\\😀' gives 97 98 113 92 55357 56832
'¶§\\u{10FFFF}\\u{0}' gives 8232 8233 56319 57343 0
";

#[test]
fn texts_stand_for_units(rt: HostRuntime) -> Result<(), Fail> {
    for line in UNITS.lines() {
        let (text, wanted) = line.split_once(" gives").unwrap_or((line, ""));
        let text = spelled(rt.alloc(), text)?;
        let units = units_of(rt.alloc(), text.as_str());
        assert_eq!(rt; units.is_ok_and(|u| u.as_str() == wanted), true, "{text}");
    }
    Ok(())
}

/// The fault of bytes.
fn fault_of(alloc: Global, bytes: &[u8], side: Side) -> Option<LexFault> {
    lex(alloc, bytes, side).err()
}

/// So many spaces.
fn blanks(alloc: Global, count: usize) -> Result<Vec<u8>, AllocError> {
    vec![in alloc; b' '; count]
}

#[test]
fn bytes_are_refused(rt: HostRuntime) -> Result<(), Fail> {
    assert_eq!(rt;
        fault_of(rt.alloc(), b"a\xFFb", Side::Plain),
        Some(LexFault::NotUtf8(1))
    );
    assert_eq!(rt;
        fault_of(rt.alloc(), b"# \xED\xA0\x80", Side::Plain),
        Some(LexFault::NotUtf8(2))
    );
    let longest = blanks(rt.alloc(), 1_048_576)?;
    assert_eq!(rt;
        fault_of(rt.alloc(), longest.as_slice(), Side::Source),
        None
    );
    let long = blanks(rt.alloc(), 1_048_577)?;
    assert_eq!(rt;
        fault_of(rt.alloc(), long.as_slice(), Side::Source),
        Some(LexFault::TooLong)
    );
    assert_eq!(rt; fault_of(rt.alloc(), long.as_slice(), Side::Plain), None);
    Ok(())
}
