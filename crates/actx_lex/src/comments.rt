//! What stands between tokens: white space, line ends and comments (ECMA-262, 12.2 to 12.4).

ghost use Rattle.std.specs.Prelude.{◌≡◌, ◌≤◌, ◌<◌, length};
ghost use Rattle.std.specs.List.{prefix_len};
ghost use Rattle.actx_lex.specs.Lexeme.{IsGap, NoGap, is_inside_line, FirstEnd};

use super::characters::{char_at, is_blank, is_line_end};

/// How many characters the white space, line end or comment takes that a text begins with; 0 where none stands there, as
/// where a block comment has no end.
pub fn gap_len(text: &[char]) -> usize
    requires { 0 < length text.now }
    ensures found { 0 < result → IsGap text.now result }
    ensures none { result ≡ 0 → NoGap text.now }
{
    let first = char_at(text, 0);
    if is_blank(first) {
        return 1;
    }
    if first != '/' {
        return 0;
    }
    let second = char_at(text, 1);
    if second == '/' {
        return line_len(&text[2..]) + 2;
    }
    if second == '*' {
        return block_len(&text[2..]);
    }
    0
}

/// How many characters stand before the first line end.
fn line_len(text: &[char]) -> usize
    ensures run { result ≡ prefix_len is_inside_line text.now }
    ensures within { result ≤ length text.now }
{
    for (i, c) in text.iter().enumerate() {
        if is_line_end(*c) {
            return i;
        }
    }
    text.len()
}

/// How long a block comment is that goes on with these characters, or 0 where it has no end.
fn block_len(text: &[char]) -> usize
    ensures { FirstEnd text.now result }
{
    for (i, c) in text.iter().enumerate() {
        if *c == '*' && char_at(text, i + 1) == '/' {
            return i + 4;
        }
    }
    0
}
