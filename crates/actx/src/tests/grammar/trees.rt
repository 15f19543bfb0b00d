//! Texts beside others: with more marks that say the same, both are read as one program; otherwise as two.

use super::fronts::fronts;
use super::{parse_plain, parse_source};
use actx_ast::spell::spell;
use actx_ast::tree::Program;
use actx_grammar::side::Side;
use actx_lex::lex::lex;
use std::alloc::Global;
use std::process::Abort;
use std::test::Fail;

/// The program of a text, or `None` where it is refused.
fn program_of(alloc: Global, side: Side, text: &str) -> Result<Option<Program>, Fail> {
    let tokens = lex(alloc, text.as_bytes(), side)?;
    Ok(match side {
        Side::Source => parse_source(alloc, &tokens)
            .ok()
            .map(|parsed| parsed.program),
        Side::Plain => parse_plain(alloc, &tokens)
            .ok()
            .map(|parsed| parsed.program),
    })
}

/// The tokens of the program that a text is read as.
fn spelled(alloc: Global, side: Side, text: &str) -> Result<String, Fail> {
    match program_of(alloc, side, text)? {
        Some(program) => Ok(format!(in alloc; "{:?}", spell(alloc, &program)?)?),
        None => Ok(format!(in alloc; "no program: {text}")?),
    }
}

fn compare(rt: &impl Abort, alloc: Global, side: Side, table: &[(&str, &str)]) -> Result<(), Fail> {
    for (text, fuller) in table {
        let read = spelled(alloc, side, text)?;
        let wanted = spelled(alloc, side, fuller)?;
        assert!(rt; read.as_str() == wanted.as_str(), "at {text}");
        fronts(rt, alloc, side, text)?;
        fronts(rt, alloc, side, fuller)?;
    }
    Ok(())
}

/// No two of them are the same program.
fn tell_apart(
    rt: &impl Abort,
    alloc: Global,
    side: Side,
    table: &[(&str, &str)],
) -> Result<(), Fail> {
    for (text, other) in table {
        fronts(rt, alloc, side, text)?;
        fronts(rt, alloc, side, other)?;
        let first = spelled(alloc, side, text)?;
        let second = spelled(alloc, side, other)?;
        assert!(rt; first.as_str() != second.as_str(), "at {text}");
    }
    Ok(())
}

#[test]
fn operators(rt: HostRuntime) -> Result<(), Fail> {
    let table = [
        ("a - b - c;", "(a - b) - c;"),
        ("a - b + c;", "(a - b) + c;"),
        ("a + b * c;", "a + (b * c);"),
        ("a * b + c;", "(a * b) + c;"),
        ("a * b * c;", "(a * b) * c;"),
        ("a * -b;", "a * (-b);"),
        ("-a * b;", "(-a) * b;"),
        ("- -a;", "-(-a);"),
        ("!a === b;", "(!a) === b;"),
        ("a < b === c > d;", "(a < b) === (c > d);"),
        ("a === b !== c;", "(a === b) !== c;"),
        ("a < b <= c;", "(a < b) <= c;"),
        ("a + b < c - d;", "(a + b) < (c - d);"),
        ("a && b || c;", "(a && b) || c;"),
        ("a || b && c;", "a || (b && c);"),
        ("a || b || c;", "(a || b) || c;"),
        ("a && b && c;", "(a && b) && c;"),
        ("a ?? b ?? c;", "(a ?? b) ?? c;"),
        ("a ?? b === c;", "a ?? (b === c);"),
        ("a === b && c;", "(a === b) && c;"),
        ("a ? b : c ? d : e;", "a ? b : (c ? d : e);"),
        ("a ? b ? c : d : e;", "a ? (b ? c : d) : e;"),
        ("a || b ? c : d;", "(a || b) ? c : d;"),
        ("a ?? b ? c : d;", "(a ?? b) ? c : d;"),
        ("a ? b = c : d = e;", "a ? (b = c) : (d = e);"),
        ("a = b = c;", "a = (b = c);"),
        ("a += b -= c *= d;", "a += (b -= (c *= d));"),
        ("a.b = c[d] = e;", "a.b = (c[d] = e);"),
        ("a = b ? c : d;", "a = (b ? c : d);"),
        ("a = b || c;", "a = (b || c);"),
        ("typeof a.b;", "typeof (a.b);"),
        ("void f();", "void (f());"),
        ("typeof !a;", "typeof (!a);"),
        ("-a++;", "-(a++);"),
        ("!--a;", "!(--a);"),
        ("a++ + ++b;", "(a++) + (++b);"),
        ("a - -b;", "a - (-b);"),
        ("a+-b;", "a + (-b);"),
        ("a\n+\nb;", "a + b;"),
        ("a // b\n/* c */ + d;", "a + d;"),
    ];
    compare(&rt, rt.alloc(), Side::Source, table.as_slice())
}

#[test]
fn members_and_calls(rt: HostRuntime) -> Result<(), Fail> {
    let table = [
        ("a.b.c;", "((a).b).c;"),
        ("a.b[c].d;", "((a.b)[c]).d;"),
        ("a[b + c];", "a[(b + c)];"),
        ("a.b();", "(a.b)();"),
        ("a()();", "(a())();"),
        ("a().b;", "(a()).b;"),
        ("f(a, b);", "f((a), (b));"),
        ("f(a, b,);", "f(a, b);"),
        ("f(a = b, c ? d : e);", "f((a = b), (c ? d : e));"),
        ("f(x => x, y);", "f((x => x), y);"),
        ("a\n.b\n(c);", "a.b(c);"),
        ("a\n(b);", "a(b);"),
        ("a\n[b];", "a[b];"),
        ("new Error('a').message;", "(new Error('a')).message;"),
        ("new Error(a,);", "new Error(a);"),
        ("Trace.current() + 1;", "(Trace.current()) + 1;"),
        ("console.log(a,);", "console.log(a);"),
        (
            "Promise.resolve(a).then(b);",
            "(Promise.resolve(a)).then(b);",
        ),
        ("a.call(b);", "(a.call)(b);"),
        ("a.if.class.new;", "((a.if).class).new;"),
        ("a.of.get.async;", "((a.of).get).async;"),
        ("'a'.length;", "('a').length;"),
        ("f('\\x41\\u0042\\u{43}');", "f('ABC');"),
        ("f('a\\\nb');", "f('ab');"),
        ("f(\"'\", '\"');", "f('\\'', '\\\"');"),
    ];
    compare(&rt, rt.alloc(), Side::Source, table.as_slice())
}

#[test]
fn functions(rt: HostRuntime) -> Result<(), Fail> {
    let table = [
        ("a = x => x;", "a = ((x) => { return x; });"),
        ("a = (x) => x;", "a = x => { return x; };"),
        (
            "a = x => y => z;",
            "a = x => { return y => { return z; }; };",
        ),
        ("a = x => ({});", "a = x => { return {}; };"),
        ("a = x => {};", "a = (x,) => {};"),
        ("a = x => b = c;", "a = x => { return (b = c); };"),
        ("a = x => b ? c : d;", "a = x => { return (b ? c : d); };"),
        ("a = () => b;", "a = () => { return b; };"),
        ("a = (x, y,) => x;", "a = (x, y) => { return x; };"),
        (
            "a = async x => await x;",
            "a = async (x) => { return (await x); };",
        ),
        ("a = async () => b;", "a = async () => { return b; };"),
        ("a = async (x, y) => {};", "a = (async (x, y,) => {});"),
        ("a = b ? x => x : y => y;", "a = b ? (x => x) : (y => y);"),
        ("a = function (x,) {};", "a = (function (x) {});"),
        (
            "a = function* () { yield a + b; };",
            "a = function* () { yield (a + b); };",
        ),
        (
            "a = function* () { yield yield a; };",
            "a = function* () { yield (yield a); };",
        ),
        (
            "a = function* () { yield* yield; };",
            "a = function* () { yield* (yield); };",
        ),
        (
            "a = function* () { b = yield; };",
            "a = function* () { b = (yield); };",
        ),
        (
            "a = async function () { await a.b; };",
            "a = async function () { await (a.b); };",
        ),
        (
            "a = async function () { await a + b; };",
            "a = async function () { (await a) + b; };",
        ),
        (
            "a = async function () { await await a; };",
            "a = async function () { await (await a); };",
        ),
        (
            "a = async function () { !await a; };",
            "a = async function () { !(await a); };",
        ),
        ("a = { b };", "a = { 'b': b };"),
        ("a = { b, };", "a = { b: b };"),
        ("a = { if: b, 'c d': e, };", "a = { 'if': b, \"c d\": e };"),
        ("a = { undefined };", "a = { 'undefined': undefined };"),
        ("a = { f() {} };", "a = { f: function () {} };"),
        ("a = { *f(x) {} };", "a = { f: function* (x) {} };"),
        (
            "a = { async f(x, y) {} };",
            "a = { 'f': async function (x, y) {} };",
        ),
        ("a = { async() {} };", "a = { async: function () {} };"),
        (
            "a = { async: b, await: c };",
            "a = { 'async': b, 'await': c };",
        ),
        (
            "a = { [b + c]() {} };",
            "a = { [(b + c)]: function () {} };",
        ),
        (
            "a = { *[b]() {}, async [c]() {} };",
            "a = { [b]: function* () {}, [c]: async function () {} };",
        ),
        (
            "a = { get() {}, set: b };",
            "a = { 'get': function () {}, 'set': b };",
        ),
        (
            "a = { 'b'() {}, *'c'() {} };",
            "a = { b: function () {}, c: function* () {} };",
        ),
    ];
    compare(&rt, rt.alloc(), Side::Source, table.as_slice())
}

#[test]
fn statements(rt: HostRuntime) -> Result<(), Fail> {
    let apart = [
        ("if (a) if (b) c; else d;", "if (a) { if (b) c; else d; }"),
        (
            "if (a) b; else if (c) d; else e;",
            "if (a) b; else { if (c) d; else e; }",
        ),
        (
            "if (a) while (b) if (c) d; else e;",
            "if (a) while (b) { if (c) d; else e; }",
        ),
        ("do a; while (b);", "do { a; } while (b);"),
    ];
    let same = [
        ("if ((a)) b;", "if (a) b;"),
        ("while (a = b) c;", "while ((a = b)) c;"),
        ("for (a = b; c; d++) e;", "for ((a = b); (c); (d++)) e;"),
        ("for (let a = b, c; ;) d;", "for (let a = (b), c;;) d;"),
        ("for (const a of b = c) d;", "for (const a of (b = c)) d;"),
        ("return\n;", "return;"),
        ("return (a\n);", "return a;"),
        ("throw a + b;", "throw (a + b);"),
        ("try { a; } catch { b; }", "try {a;} catch {b;}"),
        ("let a = b ? c : d, e;", "let a = (b ? c : d), e;"),
        ("const a = x => x, b = 1;", "const a = (x => x), b = (1);"),
        ("({});", "(({}));"),
        ("({}).a;", "(({}).a);"),
        ("(function () {})();", "((function () {})());"),
        ("(async function () {})();", "((async function () {}))();"),
        ("async x => x;", "(async (x) => { return x; });"),
        ("x => { return; };", "((x) => { return; });"),
        (";;", "; ;"),
        ("let\u{2028}a\u{A0}=\u{FEFF}1;", "let a = 1;"),
        ("\u{3B1}.\u{6F22};", "(\u{3B1}).\u{6F22};"),
    ];
    tell_apart(&rt, rt.alloc(), Side::Source, apart.as_slice())?;
    compare(&rt, rt.alloc(), Side::Source, same.as_slice())
}

#[test]
fn plain_programs(rt: HostRuntime) -> Result<(), Fail> {
    let table = [
        (
            "switch (a) { case 1: b; default: c; }",
            "switch ((a)) { case 1: (b); default: (c); }",
        ),
        ("f.call(a, b);", "(f).call((a), (b));"),
        ("f.call(a, b,);", "f.call(a, b);"),
        ("a.b.call(c).d;", "(((a.b)).call(c)).d;"),
        ("new WeakMap().get(a);", "(new WeakMap()).get(a);"),
        ("Object.freeze({ a });", "Object.freeze({ 'a': (a) });"),
        (
            "__actx.note(a, b, c, d);",
            "__actx.note((a), (b), (c), (d));",
        ),
        (
            "x => ({ a() {} });",
            "(x) => { return { 'a': function () {} }; };",
        ),
        ("if (a) b; else c = d;", "if (a) b; else (c = d);"),
    ];
    compare(&rt, rt.alloc(), Side::Plain, table.as_slice())
}

#[test]
fn grouping_matters(rt: HostRuntime) -> Result<(), Fail> {
    let table = [
        ("a - (b - c);", "a - b - c;"),
        ("a * (b + c);", "a * b + c;"),
        ("(a || b) && c;", "a || b && c;"),
        ("a || (b || c);", "a || b || c;"),
        ("(a ?? b) || c;", "(a || b) ?? c;"),
        ("(a = b) ? c : d;", "a = b ? c : d;"),
        ("-(a + b);", "-a + b;"),
        ("(await_ => 1)();", "await_ => { return 1(); };"),
        ("(x => x)(y);", "x => { return x(y); };"),
        ("(a, b) => 1;", "a(b);"),
        ("f((a));", "f(a)();"),
        ("(a.b)();", "(a.b);"),
        ("new Error(a)(b);", "new Error(a);"),
        ("a ? b : (c ? d : e);", "(a ? b : c) ? d : e;"),
        ("a = { b: c };", "a = { [b]: c };"),
        ("a = { b() {} };", "a = { b: () => {} };"),
        ("a['b'];", "a.b;"),
    ];
    tell_apart(&rt, rt.alloc(), Side::Source, table.as_slice())
}
