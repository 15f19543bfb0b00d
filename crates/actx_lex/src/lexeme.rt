//! The token that a text begins with.

use actx_grammar::token::TokenKind;

/// A token that a text begins with.
#[derive(Drop)]
pub struct Lexeme {
    pub kind: TokenKind,
    /// How many characters it takes.
    pub len: usize,
}
