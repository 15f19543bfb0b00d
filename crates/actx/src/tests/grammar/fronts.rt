//! Programs that end too early: each front of their tokens is a program, or is refused at its end.

use super::{ParseFault, Unexpected, parse_plain, parse_source};
use actx_grammar::side::Side;
use actx_lex::lex::lex;
use std::alloc::Global;
use std::process::Abort;
use std::test::Fail;

/// Why a text is refused, or `None` where it is taken.
fn fault_of(alloc: Global, side: Side, text: &[u8]) -> Result<Option<ParseFault>, Fail> {
    let tokens = lex(alloc, text, side)?;
    Ok(match side {
        Side::Source => parse_source(alloc, &tokens).err(),
        Side::Plain => parse_plain(alloc, &tokens).err(),
    })
}

/// Each front of a text before a token is taken, or refused as one that ends too early.
pub fn fronts(rt: &impl Abort, alloc: Global, side: Side, text: &str) -> Result<(), Fail> {
    let tokens = lex(alloc, text.as_bytes(), side)?;
    assert_eq!(rt; fault_of(alloc, side, text.as_bytes())?, None, "at {text}");
    for (count, token) in tokens.list.iter().enumerate() {
        if let Some(front) = text.as_bytes().get(..token.at) {
            let fault = fault_of(alloc, side, front)?;
            assert!(rt;
                fault.is_none() || fault == Some(Unexpected(count)),
                "{count} tokens of {text}"
            );
        }
    }
    Ok(())
}
