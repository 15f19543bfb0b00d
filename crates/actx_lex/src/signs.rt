//! Punctuators (ECMA-262, 12.8): the longest that begins a text, where a token is made of it.

ghost use Rattle.std.specs.Prelude.{◌≡◌, ◌≢◌, false, slice_index, IfSome, IfNone};
ghost use Rattle.actx_grammar.specs.Words.{is_name_start, HasForm};
ghost use Rattle.actx_lex.specs.Characters as spec;
ghost use Rattle.actx_lex.specs.Lexeme as lexeme;

use super::characters::{char_at, is_digit};
use super::lexeme::Lexeme;
use actx_grammar::token::{Sign, TokenKind};
use actx_grammar::words::sign_text;

/// The sign that a text begins with, or `None` where the longest punctuator is none. `-->` is none where only white space
/// and comments stand before it on its line (ECMA-262, B.1.1).
pub fn first_sign(text: &[char], fresh: bool) -> Option<Lexeme>
    requires word { is_name_start (slice_index text.now 0) ≡ false }
    requires digit { spec.is_digit (slice_index text.now 0) ≡ false }
    requires quotes { (slice_index text.now 0 ≢ 34) × (slice_index text.now 0 ≢ 39) }
    ensures found { IfSome result (λ l. lexeme.Begins fresh text.now l.kind l.len) }
    ensures form { IfSome result (λ l. HasForm l.kind) }
    ensures refused { IfNone result (lexeme.NoToken fresh text.now) }
{
    let next = char_at(text, 1);
    let third = char_at(text, 2);
    let sign = longest_sign(char_at(text, 0), next, third, char_at(text, 3))?;
    if !may_follow(sign, next, third, fresh) {
        return None;
    }
    Some(Lexeme {
        kind: TokenKind::Sign(sign),
        len: sign_text(sign).len(),
    })
}

/// Whether a sign may stand before what follows its first character: a dot before a digit begins a number, and `-->` is a
/// comment of Annex B where only white space and comments stand before it on its line.
fn may_follow(sign: Sign, next: char, third: char, fresh: bool) -> bool
    ensures { result ≡ lexeme.may_follow fresh sign next third }
{
    match sign {
        Sign::Dot => !is_digit(next),
        Sign::Decrement => !(fresh && third == '>'),
        _ => true,
    }
}

/// The sign that begins with these characters, where 0 stands past the end of the text; `None` where no punctuator begins
/// there, or the longest one is no token of ours, as `==`, `**` and `<!--`.
fn longest_sign(first: char, second: char, third: char, fourth: char) -> Option<Sign>
    ensures { result ≡ lexeme.longest_sign first second third fourth }
{
    match first {
        '{' => Some(Sign::OpenBrace),
        '}' => Some(Sign::CloseBrace),
        '(' => Some(Sign::OpenParen),
        ')' => Some(Sign::CloseParen),
        '[' => Some(Sign::OpenBracket),
        ']' => Some(Sign::CloseBracket),
        ',' => Some(Sign::Comma),
        ';' => Some(Sign::Semicolon),
        ':' => Some(Sign::Colon),
        '.' if second == '.' && third == '.' => None,
        '.' => Some(Sign::Dot),
        '?' if second == '.' && !is_digit(third) => None,
        '?' if second == '?' && third == '=' => None,
        '?' if second == '?' => Some(Sign::Coalesce),
        '?' => Some(Sign::Question),
        '=' if second == '=' && third == '=' => Some(Sign::Same),
        '=' if second == '=' => None,
        '=' if second == '>' => Some(Sign::Arrow),
        '=' => Some(Sign::Assign),
        '+' if second == '=' => Some(Sign::AddAssign),
        '+' if second == '+' => Some(Sign::Increment),
        '+' => Some(Sign::Plus),
        '-' if second == '=' => Some(Sign::SubAssign),
        '-' if second == '-' => Some(Sign::Decrement),
        '-' => Some(Sign::Minus),
        '*' if second == '=' => Some(Sign::MulAssign),
        '*' if second == '*' => None,
        '*' => Some(Sign::Star),
        '!' if second == '=' && third == '=' => Some(Sign::NotSame),
        '!' if second == '=' => None,
        '!' => Some(Sign::Not),
        '<' if second == '<' => None,
        '<' if second == '!' && third == '-' && fourth == '-' => None,
        '<' if second == '=' => Some(Sign::LessSame),
        '<' => Some(Sign::Less),
        '>' if second == '>' => None,
        '>' if second == '=' => Some(Sign::MoreSame),
        '>' => Some(Sign::More),
        '&' if second == '&' && third == '=' => None,
        '&' if second == '&' => Some(Sign::And),
        '|' if second == '|' && third == '=' => None,
        '|' if second == '|' => Some(Sign::Or),
        _ => None,
    }
}
