//! The limits of depth.

use super::{TooDeep, Unexpected, fault_in, repeated};
use actx_grammar::side::Side;
use std::alloc::Global;
use std::process::Abort;
use std::test::Fail;

/// Each row nests words about others: what is before, what is nested, the middle, what closes it, what is after, and
/// how many nests there may be.
#[test]
fn limits_of_depth(rt: HostRuntime) -> Result<(), Fail> {
    for (before, many, between, more, after, good) in [
        ("const a =", "(", "1", ")", ";", 198),
        ("", "f(", "1", ")", ";", 198),
        ("", "{", "", "}", "", 200),
        ("", "{", "1;", "}", "", 198),
        ("", "", "a", ".b", ";", 198),
        ("", "", "a", "()", ";", 198),
        ("", "", "1", "+ 1", ";", 198),
        ("const o =", "{ a:", "1", "}", ";", 198),
        ("return", "x =>", "1", "", ";", 99),
        ("", "if (a)", "b;", "", "", 198),
        ("", "a = { f() {", "", "} };", "", 50),
    ] {
        let text = repeated(rt.alloc(), before, many, between, more, after, good)?;
        assert_eq!(rt;
            fault_in(rt.alloc(), Side::Source, text.as_str())?,
            None,
            "{good} of {many}"
        );
        let past = good.saturating_add(1);
        let text = repeated(rt.alloc(), before, many, between, more, after, past)?;
        assert!(rt;
            matches!(
                fault_in(rt.alloc(), Side::Source, text.as_str())?,
                Some(TooDeep(_))
            ),
            "{past} of {many}"
        );
    }
    Ok(())
}

/// Words about others are taken as often as this on the plain side, and not once more.
fn deep(
    rt: &impl Abort,
    alloc: Global,
    row: (&str, &str, &str, &str, &str, usize),
) -> Result<(), Fail> {
    let (before, many, between, more, after, good) = row;
    let text = repeated(alloc, before, many, between, more, after, good)?;
    let fault = fault_in(alloc, Side::Plain, text.as_str())?;
    assert_eq!(rt; fault, None, "{good} of {many}");
    let past = good.saturating_add(1);
    let text = repeated(alloc, before, many, between, more, after, past)?;
    let fault = fault_in(alloc, Side::Plain, text.as_str())?;
    assert!(rt; matches!(fault, Some(TooDeep(_))), "{past} of {many}");
    Ok(())
}

#[test]
fn deep_parentheses(rt: HostRuntime) -> Result<(), Fail> {
    deep(&rt, rt.alloc(), ("const a =", "(", "1", ")", ";", 32_766))
}

#[test]
fn deep_blocks(rt: HostRuntime) -> Result<(), Fail> {
    deep(&rt, rt.alloc(), ("", "{", "", "}", "", 32_768))
}

#[test]
fn deep_operators(rt: HostRuntime) -> Result<(), Fail> {
    deep(&rt, rt.alloc(), ("", "!", "1", "", ";", 32_766))
}

#[test]
fn deep_statements(rt: HostRuntime) -> Result<(), Fail> {
    deep(&rt, rt.alloc(), ("", "if (a)", "b;", "", "", 32_766))
}

#[test]
fn deep_arrows(rt: HostRuntime) -> Result<(), Fail> {
    deep(&rt, rt.alloc(), ("return", "x =>", "1", "", ";", 16_383))
}

/// The first fault tells, however deep the rest is.
#[test]
fn the_reason_is_of_the_first_token(rt: HostRuntime) -> Result<(), Fail> {
    let text = repeated(rt.alloc(), "const a =", "(", "1 +", ")", ";", 198)?;
    assert_eq!(rt;
        fault_in(rt.alloc(), Side::Source, text.as_str())?,
        Some(TooDeep(202))
    );
    let text = repeated(rt.alloc(), "const a =", "(", ";", ")", ";", 198)?;
    assert_eq!(rt;
        fault_in(rt.alloc(), Side::Source, text.as_str())?,
        Some(Unexpected(201))
    );
    Ok(())
}
