//! Lines and columns as they are counted, a character at a time.

ghost use Rattle.std.specs.Prelude.{◌≡◌, ◌+◌, ◌<◌, ◌^◌};
ghost use Rattle.actx_lex.specs.Counting as counted;

use super::characters::is_line_end;

/// A place in a text, both from 1; columns count characters.
#[derive(Clone, Copy, Debug, Drop, PartialEq, Eq)]
pub struct Place {
    pub line: u64,
    pub column: u64,
}

/// The place behind a CR, if there is one, where it is known whether a LF follows: CR LF ends behind the LF.
pub fn settled(place: Place, returned: bool, feeds: bool) -> Place
    requires { place.line + 1 < 2 ^ 64 }
    ensures { result ≡ counted.settled place returned feeds }
{
    if returned && !feeds {
        next_line(place)
    } else {
        place
    }
}

/// The place behind one character more, a CR being taken for a part of CR LF.
pub fn next_place(place: Place, c: char) -> Place
    requires line { place.line + 1 < 2 ^ 64 }
    requires column { place.column + 1 < 2 ^ 64 }
    ensures { result ≡ counted.next_place place c }
{
    if c != '\r' && is_line_end(c) {
        next_line(place)
    } else {
        Place {
            line: place.line,
            column: place.column + 1,
        }
    }
}

fn next_line(place: Place) -> Place
    requires { place.line + 1 < 2 ^ 64 }
    ensures { result ≡ counted.next_line place }
{
    Place {
        line: place.line + 1,
        column: 1,
    }
}
