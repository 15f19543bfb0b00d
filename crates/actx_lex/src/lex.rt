//! From a text to its tokens (ECMA-262, 12), each the longest that begins at its place.

ghost use Rattle.std.specs.Prelude.{◌≡◌, ◌<◌, ◌≤◌, ◌^◌, ◌↔◌, ℕ, List, length, All, Bool, true, false, IfOk, IfErr, IsErrOf, ◌≢◌};
ghost use Rattle.std.specs.Str.{chars};
ghost use Rattle.actx_grammar.specs.Words.{HasForm};
ghost use Rattle.actx_grammar.specs.declared.side.Side.TheVariants.{Source as source};
ghost use Rattle.actx_lex.specs.declared.token.Token.{Token};
ghost use Rattle.actx_lex.specs.declared.lex.LexFault.TheVariants.{NoMemory as no_memory};
ghost use Rattle.actx_lex.specs.Lexical as spec;
ghost use Rattle.actx_lex.specs.Lexeme as lexeme;
ghost use Rattle.actx_lex.specs.Spots.{place_of};

use super::characters::{char_at, is_digit, is_name_start};
use super::comments::gap_len;
use super::lexeme::Lexeme;
use super::names::first_word;
use super::numbers::{begins_number, first_number};
use super::signs::first_sign;
use super::spot::Spot;
use super::texts::first_text;
use super::token::{Side, Token, Tokens};
use actx_data::NoMemory;
use std::alloc::{AllocError, AllocFailed, Global};
use thiserror::Error;

/// The greatest length in bytes of a user's text.
const LONGEST_SOURCE: usize = 1_048_576;

/// Why a text has no tokens, with a byte place.
#[derive(Clone, Copy, Debug, Drop, PartialEq, Eq, Error)]
pub enum LexFault {
    /// The text isn't UTF-8; the place is the length of its longest front that is.
    #[error("NotUtf8")]
    NotUtf8(usize),
    /// After some tokens none stands at the place.
    #[error("BadToken")]
    BadToken(usize),
    /// A user's text is longer than 1,048,576 bytes.
    #[error("TooLong")]
    TooLong,
    /// After some tokens none stands at the place, where a number begins.
    #[error("BadNumber")]
    BadNumber(usize),
    /// Memory ran out.
    #[error("NoMemory")]
    NoMemory,
}

impl From<NoMemory> for LexFault {
    ghost from_gives = { λ _ e. e ≡ no_memory };

    fn from(_refused: NoMemory) -> LexFault {
        LexFault::NoMemory
    }
}

impl From<AllocError> for LexFault {
    ghost from_gives = { λ _ e. e ≡ no_memory };

    fn from(_refused: AllocError) -> LexFault {
        LexFault::NoMemory
    }
}

impl<T: Drop> From<AllocFailed<T>> for LexFault {
    ghost from_gives = { λ _ e. e ≡ no_memory };

    fn from(_refused: AllocFailed<T>) -> LexFault {
        LexFault::NoMemory
    }
}

/// The tokens of a text in UTF-8.
///
/// # Errors
///
/// `TooLong` for a text of a user over 1,048,576 bytes, `NotUtf8` for what isn't UTF-8, `BadToken` and `BadNumber` where
/// the text can't be cut into tokens, as `a # b` and `01` can't, and `NoMemory` where memory runs out.
pub fn lex(alloc: Global, text: &[u8], side: Side) -> Result<Tokens, LexFault>
    ensures found { IfOk result (λ t. spec.Tokens text.now t.list.items × (t.end ≡ length text.now)) }
    ensures form { IfOk result (λ t. All HasForm (spec.kinds_of t.list.items)) }
    ensures only { (ts : List Token) → spec.Tokens text.now ts → IfOk result (λ t. t.list.items ≡ ts) }
    ensures too_long { IsErrOf result LexFault.TooLong ↔ ((side ≡ source) × (1048576 < length text.now)) }
    ensures not_utf8 { (n : ℕ) → IsErrOf result (LexFault.NotUtf8 n) → spec.NotText text.now n }
    ensures bad_token { (n : ℕ) → IsErrOf result (LexFault.BadToken n) → spec.Stuck text.now false n }
    ensures bad_number { (n : ℕ) → IsErrOf result (LexFault.BadNumber n) → spec.Stuck text.now true n }
{
    if side == Side::Source && text.len() > LONGEST_SOURCE {
        return Err(LexFault::TooLong);
    }
    let valid = match str::from_utf8(text) {
        Ok(valid) => valid,
        Err(fault) => return Err(LexFault::NotUtf8(fault.valid_up_to())),
    };
    let chars = characters_of(alloc, valid)?;
    let list = cut(alloc, chars.as_slice())?;
    Ok(Tokens {
        list,
        end: text.len(),
    })
}

/// The characters of a text.
fn characters_of(alloc: Global, text: &str) -> Result<Vec<char>, AllocError>
    ensures { IfOk result (λ v. v.items ≡ chars text.now) }
{
    text.chars().collect(alloc)
}

/// The tokens of some characters.
fn cut(alloc: Global, chars: &[char]) -> Result<Vec<Token>, LexFault>
    requires { spec.size chars.now < 2 ^ 64 }
    ensures found { IfOk result (λ v. lexeme.Cut chars.now v.items) }
    ensures form { IfOk result (λ v. All HasForm (spec.kinds_of v.items)) }
    ensures fault { IfErr result (lexeme.CutFault chars.now) }
{
    let mut list = Vec::new(alloc);
    let mut rest = chars;
    let mut spot = Spot::start();
    while !rest.is_empty() {
        let gap = gap_len(rest);
        if gap > 0 {
            let (passed, left) = rest.split_at(gap);
            spot = spot.passed(passed);
            rest = left;
        } else {
            let lexeme = first_lexeme(alloc, rest, spot)?;
            let (word, left) = rest.split_at(lexeme.len);
            let kind = lexeme.kind;
            list.push(Token {
                kind,
                at: spot.at,
                line_before: spot.line_before,
            })?;
            spot = spot.behind(word);
            rest = left;
        }
    }
    Ok(list)
}

/// The token that a text begins with.
fn first_lexeme(alloc: Global, text: &[char], spot: Spot) -> Result<Lexeme, LexFault>
    requires some { 0 < length text.now }
    ensures found { IfOk result (λ l. lexeme.Begins (spec.is_fresh (place_of spot)) text.now l.kind l.len) }
    ensures form { IfOk result (λ l. HasForm l.kind) }
    ensures fault { IfErr result (lexeme.NoTokenAt (spec.is_fresh (place_of spot)) text.now spot.at) }
{
    let first = char_at(text, 0);
    let lexeme = if is_name_start(first) {
        Some(first_word(alloc, text)?)
    } else if is_digit(first) {
        first_number(text)
    } else if first == '"' || first == '\'' {
        first_text(alloc, text)?
    } else {
        first_sign(text, spot.is_fresh())
    };
    lexeme.ok_or(fault_at(text, spot.at))
}

/// The fault of a text that begins with no token.
fn fault_at(text: &[char], at: usize) -> LexFault
    ensures { result ≡ lexeme.fault_at text.now at }
{
    if begins_number(text) {
        LexFault::BadNumber(at)
    } else {
        LexFault::BadToken(at)
    }
}

/// A text has one list of tokens at most.
pub fn one_cut()
    ensures { spec.OneCut }
{}

/// No text that has tokens is stuck, so that a fault comes exactly where it must.
pub fn not_stuck()
    ensures { spec.NotStuck }
{}

/// A text is stuck at one place at most.
pub fn one_stop()
    ensures { spec.OneStop }
{}
