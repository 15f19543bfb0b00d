//! From a text to its tokens (ECMA-262, 12): `a+1;` is the name `a`, the sign `+`, the number 1 and the sign `;`.
#![tactic(auto)]

mod characters;
mod comments;
mod escapes;
pub mod lex;
mod lexeme;
pub mod lines;
mod names;
mod numbers;
pub mod place;
mod signs;
mod spot;
mod texts;
pub mod token;
