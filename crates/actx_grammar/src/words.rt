//! The reserved words and punctuators as they are written: `const`, `=>`.

ghost use Rattle.std.specs.Prelude.{◌≡◌};
ghost use Rattle.actx_grammar.specs.Words as spec;

use super::token::{Keyword, Sign};

/// The word as it is written (ECMA-262, 12.7.2).
pub fn keyword_text(keyword: Keyword) -> &'static str
    ensures { result.now ≡ spec.keyword_text keyword }
{
    match keyword {
        Keyword::Async => "async",
        Keyword::Await => "await",
        Keyword::Break => "break",
        Keyword::Case => "case",
        Keyword::Catch => "catch",
        Keyword::Class => "class",
        Keyword::Const => "const",
        Keyword::Continue => "continue",
        Keyword::Debugger => "debugger",
        Keyword::Default => "default",
        Keyword::Delete => "delete",
        Keyword::Do => "do",
        Keyword::Else => "else",
        Keyword::Enum => "enum",
        Keyword::Export => "export",
        Keyword::Extends => "extends",
        Keyword::False => "false",
        Keyword::Finally => "finally",
        Keyword::For => "for",
        Keyword::Function => "function",
        Keyword::If => "if",
        Keyword::Implements => "implements",
        Keyword::Import => "import",
        Keyword::In => "in",
        Keyword::Instanceof => "instanceof",
        Keyword::Interface => "interface",
        Keyword::Let => "let",
        Keyword::New => "new",
        Keyword::Null => "null",
        Keyword::Package => "package",
        Keyword::Private => "private",
        Keyword::Protected => "protected",
        Keyword::Public => "public",
        Keyword::Return => "return",
        Keyword::Static => "static",
        Keyword::Super => "super",
        Keyword::Switch => "switch",
        Keyword::This => "this",
        Keyword::Throw => "throw",
        Keyword::True => "true",
        Keyword::Try => "try",
        Keyword::Typeof => "typeof",
        Keyword::Var => "var",
        Keyword::Void => "void",
        Keyword::While => "while",
        Keyword::With => "with",
        Keyword::Yield => "yield",
    }
}

/// The sign as it is written (ECMA-262, 12.8).
pub fn sign_text(sign: Sign) -> &'static str
    ensures { result.now ≡ spec.sign_text sign }
{
    match sign {
        Sign::OpenBrace => "{",
        Sign::CloseBrace => "}",
        Sign::OpenParen => "(",
        Sign::CloseParen => ")",
        Sign::OpenBracket => "[",
        Sign::CloseBracket => "]",
        Sign::Dot => ".",
        Sign::Comma => ",",
        Sign::Semicolon => ";",
        Sign::Colon => ":",
        Sign::Question => "?",
        Sign::Arrow => "=>",
        Sign::Assign => "=",
        Sign::AddAssign => "+=",
        Sign::SubAssign => "-=",
        Sign::MulAssign => "*=",
        Sign::Increment => "++",
        Sign::Decrement => "--",
        Sign::Plus => "+",
        Sign::Minus => "-",
        Sign::Star => "*",
        Sign::Not => "!",
        Sign::Less => "<",
        Sign::LessSame => "<=",
        Sign::More => ">",
        Sign::MoreSame => ">=",
        Sign::Same => "===",
        Sign::NotSame => "!==",
        Sign::And => "&&",
        Sign::Or => "||",
        Sign::Coalesce => "??",
    }
}
