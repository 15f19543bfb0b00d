//! The parser on small texts: which it takes, and where and why it refuses the others.

mod depths;
mod fronts;
mod places;
mod plain;
mod refused;
mod source;
mod trees;

use actx_grammar::side::Side;
use actx_lex::lex::lex;
use actx_parse::parse::ParseFault::{TooDeep, TooMany, Unexpected};
use actx_parse::parse::{ParseFault, parse_plain, parse_source};
use std::alloc::{AllocError, Global};
use std::process::Abort;
use std::test::Fail;

/// Why a text is refused, or `None` where it is taken.
fn fault_in(alloc: Global, side: Side, text: &str) -> Result<Option<ParseFault>, Fail> {
    let tokens = lex(alloc, text.as_bytes(), side)?;
    let parsed = match side {
        Side::Source => parse_source(alloc, &tokens),
        Side::Plain => parse_plain(alloc, &tokens),
    };
    match parsed {
        Ok(_) => Ok(None),
        Err(fault) => Ok(Some(fault)),
    }
}

/// Each text is refused so, or taken.
fn compare(
    rt: &impl Abort,
    alloc: Global,
    side: Side,
    table: &[(&str, Option<ParseFault>)],
) -> Result<(), Fail> {
    for (text, wanted) in table {
        let fault = fault_in(alloc, side, text)?;
        assert_eq!(rt; fault, *wanted, "at {text}");
    }
    Ok(())
}

/// Each text is taken.
fn take(rt: &impl Abort, alloc: Global, side: Side, texts: &[&str]) -> Result<(), Fail> {
    for text in texts {
        let fault = fault_in(alloc, side, text)?;
        assert_eq!(rt; fault, None, "at {text}");
    }
    Ok(())
}

/// A text with some of its words many times.
fn repeated(
    alloc: Global,
    before: &str,
    many: &str,
    between: &str,
    more: &str,
    after: &str,
    count: usize,
) -> Result<String, AllocError> {
    let mut text = String::from_str(alloc, before)?;
    for _ in 0..count {
        text.push(' ')?;
        text.push_str(many)?;
    }
    text.push(' ')?;
    text.push_str(between)?;
    for _ in 0..count {
        text.push(' ')?;
        text.push_str(more)?;
    }
    text.push_str(after)?;
    Ok(text)
}
