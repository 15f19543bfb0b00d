//! Names and reserved words (ECMA-262, 12.7): `a$` is a name, `const` is none.

ghost use Rattle.std.specs.Prelude.{◌≡◌, ◌≤◌, Bool, IsTrue, length, slice_index, IfOk};
ghost use Rattle.std.specs.List.{prefix_len};
ghost use Rattle.actx_grammar.specs.Words as words;
ghost use Rattle.actx_lex.specs.Lexeme.{Begins};

use super::characters::is_name_part;
use super::lexeme::Lexeme;
use actx_data::NoMemory;
use actx_grammar::keywords::keyword_of;
use actx_grammar::name::Name;
use actx_grammar::token::TokenKind;
use std::alloc::Global;

/// The name or reserved word that a text begins with.
pub fn first_word(alloc: Global, text: &[char]) -> Result<Lexeme, NoMemory>
    requires { IsTrue (words.is_name_start (slice_index text.now 0)) }
    ensures found { IfOk result (λ l. (fresh : Bool) → Begins fresh text.now l.kind l.len) }
    ensures form { IfOk result (λ l. words.HasForm l.kind) }
{
    let len = name_len(text);
    let word = &text[..len];
    let kind = match keyword_of(word) {
        Some(keyword) => TokenKind::Keyword(keyword),
        None => TokenKind::Name(Name::from_list(alloc, word)?),
    };
    Ok(Lexeme { kind, len })
}

/// How many characters at the front of a text may stand in a name.
fn name_len(text: &[char]) -> usize
    ensures run { result ≡ prefix_len words.is_name_part text.now }
    ensures within { result ≤ length text.now }
{
    for (i, c) in text.iter().enumerate() {
        if !is_name_part(*c) {
            return i;
        }
    }
    text.len()
}
