//! Tables of texts for tests, which write line ends and white space by pictures: `a␊b` is two lines.

use std::alloc::{AllocError, Global};

/// A text of a table with the characters that its pictures stand for.
pub fn spelled(alloc: Global, text: &str) -> Result<String, AllocError> {
    text.chars().map(|c| pictured(c)).collect(alloc)
}

/// The character of a picture; any other stands for itself.
fn pictured(c: char) -> char {
    match c {
        '␉' => '\t',
        '␊' => '\n',
        '␋' => '\u{b}',
        '␌' => '\u{c}',
        '␍' => '\r',
        '¶' => '\u{2028}',
        '§' => '\u{2029}',
        '°' => '\u{a0}',
        '‡' => '\u{feff}',
        _ => c,
    }
}
