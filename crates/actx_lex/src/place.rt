//! Places in a text by bytes, and their lines and columns.

ghost use Rattle.std.specs.Prelude.{◌≡◌, ◌≤◌, List, ℕ, length, take, slice_index};
ghost use Rattle.actx_lex.specs.Lexical.{IsText};
ghost use Rattle.actx_lex.specs.Places.{IsPlace};

use super::lines::{Place, next_place, settled};

/// The line and column of a byte place. A line end is LF, CR, CR LF, U+2028 or U+2029 (ECMA-262, 12.3), and counts where it
/// ends at the place or before it.
pub fn place(text: &[u8], at: usize) -> Place
    requires within { at ≤ length text.now }
    requires utf8 { (cs : List ℕ) × IsText (take at text.now) cs }
    ensures { IsPlace text.now at result.line result.column }
{
    let mut place = Place { line: 1, column: 1 };
    let (front, _) = text.split_at(at);
    let Ok(before) = str::from_utf8(front) else {
        return place;
    };
    let mut returned = false;
    for c in before.chars() {
        place = next_place(settled(place, returned, c == '\n'), c);
        returned = c == '\r';
    }
    settled(place, returned, byte_at(text, at) == b'\n')
}

/// The byte at an index, or 0 past the end.
fn byte_at(text: &[u8], index: usize) -> u8
    ensures { result ≡ slice_index text.now index }
{
    if index < text.len() { text[index] } else { 0 }
}
