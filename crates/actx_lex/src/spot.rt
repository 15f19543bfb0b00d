//! Where the reading of a text stands.

ghost use Rattle.std.specs.Prelude.{◌≡◌, ◌+◌, ◌<◌, ◌^◌};
ghost use Rattle.actx_lex.specs.Lexical as spec;
ghost use Rattle.actx_lex.specs.Spots.{place_of};

use super::characters::{has_line_end, size_of};

/// Where the reading of a text stands.
#[derive(Clone, Copy, Debug, Drop, PartialEq, Eq)]
pub struct Spot {
    /// The byte place.
    pub at: usize,
    /// Whether a line end stands between it and the token before it.
    pub line_before: bool,
    /// Whether it is on the first token's line with no token before it.
    pub first: bool,
}

impl Spot {
    /// The start of a text.
    pub fn start() -> Spot
        ensures { place_of result ≡ spec.start }
    {
        Spot {
            at: 0,
            line_before: false,
            first: true,
        }
    }

    /// Whether only white space and comments stand before it on its line.
    pub fn is_fresh(self) -> bool
        ensures { result ≡ spec.is_fresh (place_of self) }
    {
        self.line_before || self.first
    }

    /// Behind characters that are no token.
    pub fn passed(self, chars: &[char]) -> Spot
        requires { self.at + spec.size chars.now < 2 ^ 64 }
        ensures { place_of result ≡ spec.passed (place_of self) chars.now }
    {
        let breaks = has_line_end(chars);
        Spot {
            at: self.at + size_of(chars),
            line_before: self.line_before || breaks,
            first: self.first,
        }
    }

    /// Behind a token.
    pub fn behind(self, chars: &[char]) -> Spot
        requires { self.at + spec.size chars.now < 2 ^ 64 }
        ensures { place_of result ≡ spec.behind (place_of self) chars.now }
    {
        Spot {
            at: self.at + size_of(chars),
            line_before: false,
            first: false,
        }
    }
}
