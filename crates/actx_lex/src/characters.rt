//! Classes of characters (ECMA-262, 12), and the characters of a text by their index.

ghost use Rattle.std.specs.Prelude.{◌≡◌, ◌<◌, ◌^◌, ◌||◌, slice_index};
ghost use Rattle.actx_grammar.specs.Words as words;
ghost use Rattle.actx_lex.specs.Characters as spec;
ghost use Rattle.actx_lex.specs.Lexical.{size, has_line_end};

/// Line terminators (12.3).
pub fn is_line_end(c: char) -> bool
    ensures { result ≡ spec.is_line_end c }
{
    c == '\n' || c == '\r' || c == '\u{2028}' || c == '\u{2029}'
}

/// White space (12.2).
pub fn is_space(c: char) -> bool
    ensures { result ≡ spec.is_space c }
{
    c == '\t' || c == '\u{b}' || c == '\u{c}' || c == ' ' || c == '\u{a0}' || c == '\u{feff}'
}

/// White space and line ends.
pub fn is_blank(c: char) -> bool
    ensures { result ≡ (spec.is_space c || spec.is_line_end c) }
{
    is_space(c) || is_line_end(c)
}

/// The digits of decimal numbers.
pub fn is_digit(c: char) -> bool
    ensures { result ≡ spec.is_digit c }
{
    '0' <= c && c <= '9'
}

/// HexDigit (12.9.3).
pub fn is_hex(c: char) -> bool
    ensures { result ≡ spec.is_hex c }
{
    is_digit(c) || 'A' <= c && c <= 'F' || 'a' <= c && c <= 'f'
}

/// IdentifierStart (12.7).
pub fn is_name_start(c: char) -> bool
    ensures { result ≡ words.is_name_start c }
{
    c == '$' || c == '_' || unicode_ident::is_xid_start(c)
}

/// IdentifierPart (12.7).
pub fn is_name_part(c: char) -> bool
    ensures { result ≡ words.is_name_part c }
{
    c == '$' || unicode_ident::is_xid_continue(c)
}

/// The character at an index, or 0 past the end.
pub fn char_at(text: &[char], index: usize) -> char
    ensures { result ≡ slice_index text.now index }
{
    if index < text.len() {
        text[index]
    } else {
        '\0'
    }
}

/// How many bytes the characters take in UTF-8.
pub fn size_of(text: &[char]) -> usize
    requires { size text.now < 2 ^ 64 }
    ensures { result ≡ size text.now }
{
    let mut size = 0;
    for c in text {
        size += c.len_utf8();
    }
    size
}

/// Whether a line end stands among the characters.
pub fn has_line_end(text: &[char]) -> bool
    ensures { result ≡ has_line_end text.now }
{
    for c in text {
        if is_line_end(*c) {
            return true;
        }
    }
    false
}
