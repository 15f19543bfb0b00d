//! Words as lists of characters, and which of them are reserved: `const` is, `constant` is not (ECMA-262, 12.7.2).

ghost use Rattle.std.specs.Prelude.{◌≡◌, ◌==◌, ◌↔◌, IsTrue};
ghost use Rattle.std.specs.Cmp.Lexicographic.{pointwise};
ghost use Rattle.actx_grammar.specs.declared.token.Keyword.{Keyword};
ghost use Rattle.actx_grammar.specs.Words as spec;

use super::keywords::{is_written, keyword_of};

/// Whether the word is this one of ASCII characters.
pub fn is_word(word: &[char], text: &[u8]) -> bool
    ensures { result ≡ pointwise ◌==◌ word.now text.now }
{
    is_written(text, word)
}

/// Whether the word is reserved.
pub fn is_keyword(word: &[char]) -> bool
    ensures { IsTrue result ↔ ((k : Keyword) × (word.now ≡ spec.keyword_text k)) }
{
    match keyword_of(word) {
        Some(_) => true,
        None => false,
    }
}
