//! Where nodes begin: the number of the first token of each, in preorder, counted by hand.

use super::{parse_plain, parse_source};
use actx_grammar::side::Side;
use actx_lex::lex::lex;
use std::alloc::Global;
use std::process::Abort;
use std::test::Fail;

/// The nodes of each text begin at these tokens.
fn begin(
    rt: &impl Abort,
    alloc: Global,
    side: Side,
    table: &[(&str, &[usize])],
) -> Result<(), Fail> {
    for (text, wanted) in table {
        let tokens = lex(alloc, text.as_bytes(), side)?;
        let parsed = match side {
            Side::Source => parse_source(alloc, &tokens)?,
            Side::Plain => parse_plain(alloc, &tokens)?,
        };
        assert_eq!(rt; parsed.places.as_slice(), *wanted, "at {text}");
    }
    Ok(())
}

#[test]
fn parentheses_round_operands_do_not_count(rt: HostRuntime) -> Result<(), Fail> {
    let table: [(&str, &[usize]); 16] = [
        ("a;", &[0, 0]),
        ("(a);", &[0, 1]),
        ("!(a);", &[0, 0, 2]),
        ("((a)) + (b);", &[0, 0, 2, 7]),
        ("(a + b) * c;", &[0, 0, 1, 1, 3, 6]),
        ("a || b || c;", &[0, 0, 0, 0, 2, 4]),
        ("(a || b) ?? c;", &[0, 0, 1, 1, 3, 6]),
        ("(a) ? (b) : (c);", &[0, 0, 1, 5, 9]),
        ("(a).b;", &[0, 0, 1, 4]),
        ("((a).b).c;", &[0, 0, 1, 2, 5, 8]),
        ("(a)((b), (c),);", &[0, 0, 1, 5, 9]),
        ("(a).call((b));", &[0, 0, 0, 1, 4, 7]),
        ("console.log((a), b);", &[0, 0, 5, 8]),
        ("a = (b);", &[0, 0, 3]),
        ("a += ((b));", &[0, 0, 4]),
        ("(a)[(b)] = (c);", &[0, 0, 1, 5, 10]),
    ];
    begin(&rt, rt.alloc(), Side::Source, table.as_slice())
}

#[test]
fn functions_and_bodies_of_arrows(rt: HostRuntime) -> Result<(), Fail> {
    let table: [(&str, &[usize]); 9] = [
        ("f = x => x;", &[0, 0, 2, 2, 4, 4]),
        ("f = (x, y) => (x);", &[0, 0, 2, 3, 5, 8, 9]),
        ("f = x => ({});", &[0, 0, 2, 2, 4, 5]),
        ("f = (() => { return 1; });", &[0, 0, 3, 7, 8]),
        ("f = async (x) => await (x);", &[0, 0, 2, 4, 7, 7, 9]),
        ("((x) => x)(1);", &[0, 0, 1, 2, 5, 5, 8]),
        ("function f(x, y) { (x).y; }", &[0, 1, 3, 5, 8, 8, 9, 12]),
        ("a = function* g() { yield (1); };", &[0, 0, 2, 4, 8, 8, 10]),
        ("a = async function () { await (b); };", &[0, 0, 2, 7, 7, 9]),
    ];
    begin(&rt, rt.alloc(), Side::Source, table.as_slice())
}

#[test]
fn methods_begin_with_their_properties(rt: HostRuntime) -> Result<(), Fail> {
    let table: [(&str, &[usize]); 7] = [
        ("a = { f() {} };", &[0, 0, 2, 3, 3]),
        (
            "a = { async g(x) { return (x); } };",
            &[0, 0, 2, 4, 3, 6, 9, 11],
        ),
        ("a = { *h() {} };", &[0, 0, 2, 4, 3]),
        ("a = { [(k)]() {} };", &[0, 0, 2, 5, 3]),
        ("a = { async: 1, async() {} };", &[0, 0, 2, 3, 5, 7, 7]),
        ("a = { b, c: (d), };", &[0, 0, 2, 3, 3, 5, 8]),
        ("a = { f: (function () {}) };", &[0, 0, 2, 3, 6]),
    ];
    begin(&rt, rt.alloc(), Side::Source, table.as_slice())
}

#[test]
fn statements_and_their_parts(rt: HostRuntime) -> Result<(), Fail> {
    let table: [(&str, &[usize]); 7] = [
        ("let a = (1), b; const c = (2);", &[0, 1, 4, 7, 9, 10, 13]),
        (
            "if ((a)) (b); else while ((c)) d;",
            &[0, 3, 6, 7, 11, 14, 17, 17],
        ),
        ("do (a); while ((b));", &[0, 1, 2, 8]),
        (
            "for (let i = (0); (i) < 9; i++) {}",
            &[0, 3, 6, 9, 10, 13, 15, 18],
        ),
        ("for (const a of (b)) (c);", &[0, 3, 6, 9, 10]),
        (
            "try { a; } catch (e) { b; } finally { c; }",
            &[0, 2, 2, 7, 10, 10, 15, 15],
        ),
        ("{ ; return (a); }", &[0, 1, 2, 4]),
    ];
    begin(&rt, rt.alloc(), Side::Source, table.as_slice())
}

#[test]
fn plain_forms(rt: HostRuntime) -> Result<(), Fail> {
    let table: [(&str, &[usize]); 2] = [
        // The numbers of clauses are no nodes, nor is the word `call` of that form.
        (
            "switch ((a)) { case 1: b; default: (c); }",
            &[0, 3, 10, 10, 14, 15],
        ),
        ("(a).call((b));", &[0, 0, 1, 7]),
    ];
    begin(&rt, rt.alloc(), Side::Plain, table.as_slice())
}
