//! Places in texts with each kind of line end.

use super::pictures::spelled;
use actx_lex::lines::Place;
use actx_lex::place::place;
use std::alloc::{AllocError, Global};
use std::test::Fail;

/// The place between two parts of a text.
fn between(alloc: Global, front: &str, rest: &str) -> Result<Place, AllocError> {
    let mut text = String::from_str(alloc, front)?;
    text.push_str(rest)?;
    Ok(place(text.as_bytes(), front.len()))
}

/// Texts that are cut at the bar, with the line and column there.
const PLACES: &str = "| gives 1:1
a|b gives 1:2
ab| gives 1:3
a|␊b gives 1:2
a␊|b gives 2:1
a␊b| gives 2:2
a␍|␊b gives 1:3
a␍␊|b gives 2:1
a␍|b gives 2:1
a␍␍|b gives 3:1
␍| gives 2:1
␍␊␍| gives 3:1
¶§é😀a| gives 3:4
a␋|b gives 1:3
";

#[test]
fn places_are_counted(rt: HostRuntime) -> Result<(), Fail> {
    for line in PLACES.lines() {
        let (text, wanted) = line.split_once(" gives ").unwrap_or((line, ""));
        let (front, rest) = text.split_once('|').unwrap_or((text, ""));
        let front = spelled(rt.alloc(), front)?;
        let rest = spelled(rt.alloc(), rest)?;
        let place = between(rt.alloc(), front.as_str(), rest.as_str())?;
        let shown = format!(in rt.alloc(); "{}:{}", place.line, place.column)?;
        assert_eq!(rt; shown.as_str(), wanted, "{text}");
    }
    Ok(())
}
