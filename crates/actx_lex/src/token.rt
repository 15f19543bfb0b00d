//! Tokens with their places in a text.

pub use actx_grammar::side::Side;
use actx_grammar::token::TokenKind;

/// A token of a text.
#[derive(Debug, Drop)]
pub struct Token {
    pub kind: TokenKind,
    /// Its first byte.
    pub at: usize,
    /// Whether a line end stands between it and the token before it.
    pub line_before: bool,
}

/// The tokens of a text.
#[derive(Debug, Drop)]
pub struct Tokens {
    pub list: Vec<Token>,
    /// The length of the text in bytes.
    pub end: usize,
}
