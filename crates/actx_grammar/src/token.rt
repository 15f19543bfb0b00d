//! What a token is (ECMA-262, 12): a name, a reserved word, a number, a text or a punctuator.

use super::name::Name;
use actx_data::Units;

/// The reserved words, `async` and `await` among them (ECMA-262, 12.7.2).
#[derive(Clone, Copy, Debug, Drop, PartialEq, Eq)]
pub enum Keyword {
    Async,
    Await,
    Break,
    Case,
    Catch,
    Class,
    Const,
    Continue,
    Debugger,
    Default,
    Delete,
    Do,
    Else,
    Enum,
    Export,
    Extends,
    False,
    Finally,
    For,
    Function,
    If,
    Implements,
    Import,
    In,
    Instanceof,
    Interface,
    Let,
    New,
    Null,
    Package,
    Private,
    Protected,
    Public,
    Return,
    Static,
    Super,
    Switch,
    This,
    Throw,
    True,
    Try,
    Typeof,
    Var,
    Void,
    While,
    With,
    Yield,
}

/// The punctuators (ECMA-262, 12.8).
#[derive(Clone, Copy, Debug, Drop, PartialEq, Eq)]
pub enum Sign {
    /// `{`
    OpenBrace,
    /// `}`
    CloseBrace,
    /// `(`
    OpenParen,
    /// `)`
    CloseParen,
    /// `[`
    OpenBracket,
    /// `]`
    CloseBracket,
    /// `.`
    Dot,
    /// `,`
    Comma,
    /// `;`
    Semicolon,
    /// `:`
    Colon,
    /// `?`
    Question,
    /// `=>`
    Arrow,
    /// `=`
    Assign,
    /// `+=`
    AddAssign,
    /// `-=`
    SubAssign,
    /// `*=`
    MulAssign,
    /// `++`
    Increment,
    /// `--`
    Decrement,
    /// `+`
    Plus,
    /// `-`
    Minus,
    /// `*`
    Star,
    /// `!`
    Not,
    /// `<`
    Less,
    /// `<=`
    LessSame,
    /// `>`
    More,
    /// `>=`
    MoreSame,
    /// `===`
    Same,
    /// `!==`
    NotSame,
    /// `&&`
    And,
    /// `||`
    Or,
    /// `??`
    Coalesce,
}

/// What a token is.
#[derive(Debug, Drop)]
pub enum TokenKind {
    Name(Name),
    Keyword(Keyword),
    /// A whole number, from 0 to 2^53 - 1.
    Number(u64),
    /// The units that a text in quotes stands for.
    Text(Units),
    Sign(Sign),
}
