//! Which words are reserved (ECMA-262, 12.7.2): `const` is, `constant` is not.

ghost use Rattle.std.specs.Prelude.{◌≡◌, ◌≢◌, ◌↔◌, true, IfOk, MatchOption};
ghost use Rattle.actx_grammar.specs.declared.token.Keyword.{Keyword};
ghost use Rattle.actx_grammar.specs.Spell.{word_token};
ghost use Rattle.actx_grammar.specs.Words as words;

use super::name::Name;
use super::token::{Keyword, TokenKind};
use super::words::keyword_text;
use actx_data::{NoMemory, Twin};
use std::alloc::Global;

/// The reserved words.
const KEYWORDS: [Keyword; 47] = [
    Keyword::Async,
    Keyword::Await,
    Keyword::Break,
    Keyword::Case,
    Keyword::Catch,
    Keyword::Class,
    Keyword::Const,
    Keyword::Continue,
    Keyword::Debugger,
    Keyword::Default,
    Keyword::Delete,
    Keyword::Do,
    Keyword::Else,
    Keyword::Enum,
    Keyword::Export,
    Keyword::Extends,
    Keyword::False,
    Keyword::Finally,
    Keyword::For,
    Keyword::Function,
    Keyword::If,
    Keyword::Implements,
    Keyword::Import,
    Keyword::In,
    Keyword::Instanceof,
    Keyword::Interface,
    Keyword::Let,
    Keyword::New,
    Keyword::Null,
    Keyword::Package,
    Keyword::Private,
    Keyword::Protected,
    Keyword::Public,
    Keyword::Return,
    Keyword::Static,
    Keyword::Super,
    Keyword::Switch,
    Keyword::This,
    Keyword::Throw,
    Keyword::True,
    Keyword::Try,
    Keyword::Typeof,
    Keyword::Var,
    Keyword::Void,
    Keyword::While,
    Keyword::With,
    Keyword::Yield,
];

/// The reserved word that is written so, or `None` where the word is none.
pub fn keyword_of(word: &[char]) -> Option<Keyword>
    ensures { MatchOption result ((k : Keyword) → word.now ≢ words.keyword_text k) (λ k. word.now ≡ words.keyword_text k) }
{
    for keyword in KEYWORDS.iter() {
        if is_written(keyword_text(*keyword).as_bytes(), word) {
            return Some(*keyword);
        }
    }
    None
}

/// Whether the characters are those of an ASCII text.
pub(super) fn is_written(text: &[u8], word: &[char]) -> bool
    ensures { (result ≡ true) ↔ (word.now ≡ text.now) }
{
    if text.len() != word.len() {
        return false;
    }
    for (i, c) in word.iter().enumerate() {
        if *c != char::from(text[i]) {
            return false;
        }
    }
    true
}

/// The token that is written so: a reserved word, or else a name.
///
/// # Errors
///
/// `NoMemory` where memory runs out.
#[tactic(auto, using(crate::proofs::FreeWords::word_free))]
pub fn word_token(alloc: Global, word: &Name) -> Result<TokenKind, NoMemory>
    ensures { IfOk result (λ t. t ≡ word_token word.now) }
{
    match keyword_of(word.as_slice()) {
        Some(keyword) => Ok(TokenKind::Keyword(keyword)),
        None => Ok(TokenKind::Name(word.copy(alloc)?)),
    }
}
