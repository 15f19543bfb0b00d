//! Texts of users.

use super::{TooMany, Unexpected, compare, take};
use actx_grammar::side::Side;
use std::test::Fail;

#[test]
fn each_form_of_expressions(rt: HostRuntime) -> Result<(), Fail> {
    let texts = [
        "",
        "1; 'a'; true; false; null; undefined; this; a;",
        "!a; -a; typeof a; void a; await a; - -a; !await a;",
        "a + b; a - b; a * b; a === b; a !== b; a < b; a <= b; a > b; a >= b;",
        "a && b || c; a ?? b; (a || b) ?? c; a ?? (b && c); a && b && c;",
        "a ? b : c; a ? b ? c : d : e; a = b ? c : d;",
        "a = 1; a = b = c; a += 1; a -= 1; a *= 1; a.b = 1; a[b] = 1; a.b.c = d;",
        "a++; a--; ++a; --a; -a++; (a)(b); (a).b = 1;",
        "a.b; a.if; a[1]; a(); a(1); a(1, b,); a.b(c)[d](e);",
        "x => 1; (x) => 1; () => 1; (x, y) => { return x; }; (x,) => {};",
        "async x => 1; async (x) => await x; async () => {}; a = x => y => 1;",
        "a = function () {}; a = function f(x, y) { return x; };",
        "a = function* () { yield; yield 1; yield* b; a = yield; };",
        "a = async function () { await b; }; a = async function f(x) {};",
        "a = {}; a = { b: 1 }; a = { b, c, }; a = { 'b': 1, if: 2, [c]: 3 };",
        "a = { f() {}, *g(x) {}, async h() {}, [k]() {}, *[k]() {}, async [k]() {} };",
        "a = { async: 1, async() {}, async async() {}, *if() {}, async 'x y'() {} };",
        "console.log(); console.log(1, 2); new Promise(f); Promise.resolve(1);",
        "Promise.reject(); new AsyncContext.Variable({}); new AsyncContext.Snapshot();",
        "AsyncContext.Snapshot.wrap(f); new Error(); new TypeError('a'); new RangeError('a');",
        "new ReferenceError('a'); queueMicrotask(f); Host.on('a', f);",
        "Trace.span('a', f); Trace.current(); Trace.current().a; new Error('a').b();",
        "a.call(b); (a); ((a)) + 1; (a + b) * c; (a, b) => a; (yield_ => 1);",
    ];
    take(&rt, rt.alloc(), Side::Source, texts.as_slice())
}

#[test]
fn each_form_of_statements(rt: HostRuntime) -> Result<(), Fail> {
    let texts = [
        "let a; let a = 1; let a, b = 2, c; const a = 1; const a = 1, b = 2;",
        "function f() {} function f(x, y,) { return; } function* g() {} async function h() {}",
        "{} { a; { b; } } ;",
        "if (a) b; if (a) b; else c; if (a) {} else if (b) {} else {}",
        "if (a) while (b) if (c) d; else e;",
        "while (a) b; do a; while (b); do {} while (b); do if (a) b; while (c);",
        "for (;;) a; for (let i = 0; i < 9; i++) {} for (const a = 1; ;) {} for (a = 0; a; a++) b;",
        "for (let i, j; ;) a; for (let a of b) c; for (const a of b) { c; }",
        "while (a) { break; continue; } return; return a; throw a;",
        "try {} catch (e) {} try {} catch {} try {} finally {} try {} catch (e) {} finally {}",
        "return a +\n b; return (\n a); a\n = b; a\n (b);",
        "async (x) => x; async x => x; async function f() {} yield_; let of; of = 1;",
        "for (let of of of) {}",
    ];
    take(&rt, rt.alloc(), Side::Source, texts.as_slice())
}

#[test]
fn what_is_refused(rt: HostRuntime) -> Result<(), Fail> {
    let table = [
        ("a", Some(Unexpected(1))),
        ("a b;", Some(Unexpected(1))),
        ("const a;", Some(Unexpected(2))),
        ("const a = 1,;", Some(Unexpected(5))),
        ("const if = 1;", Some(Unexpected(1))),
        ("let console;", Some(Unexpected(1))),
        ("console;", Some(Unexpected(1))),
        ("console.lag();", Some(Unexpected(2))),
        ("new Foo();", Some(Unexpected(1))),
        ("new Promise();", Some(Unexpected(3))),
        ("new Promise(f, g);", Some(Unexpected(5))),
        ("(a) = 1;", Some(Unexpected(3))),
        ("(a)++;", Some(Unexpected(3))),
        ("a.b++;", Some(Unexpected(3))),
        ("1 = a;", Some(Unexpected(1))),
        ("a + b = c;", Some(Unexpected(3))),
        ("a ?? b || c;", Some(Unexpected(3))),
        ("a || b ?? c;", Some(Unexpected(3))),
        ("a && b ?? c;", Some(Unexpected(3))),
        ("a + x => 1;", Some(Unexpected(3))),
        ("x => {} + 1;", Some(Unexpected(4))),
        ("x\n=> 1;", Some(Unexpected(1))),
        ("async\nx => 1;", Some(Unexpected(1))),
        ("async\n(x) => 1;", Some(Unexpected(1))),
        ("async x\n=> 1;", Some(Unexpected(2))),
        ("async\nfunction f() {}", Some(Unexpected(1))),
        ("async(x);", Some(Unexpected(4))),
        ("return\na;", Some(Unexpected(1))),
        ("throw\na;", Some(Unexpected(1))),
        ("a\n++;", Some(Unexpected(1))),
        ("if (a) let b;", Some(Unexpected(4))),
        ("if (a) function f() {}", Some(Unexpected(4))),
        ("if (a) b; else else", Some(Unexpected(7))),
        ("else", Some(Unexpected(0))),
        ("function () {}", Some(Unexpected(1))),
        ("switch (a) {}", Some(Unexpected(0))),
        ("for (let a, b of c) d;", Some(Unexpected(6))),
        ("for (let a = 1 of c) d;", Some(Unexpected(6))),
        ("for (const a; ;) b;", Some(Unexpected(4))),
        ("try {}", Some(Unexpected(3))),
        ("try {} catch (if) {}", Some(Unexpected(5))),
        ("a = { a b };", Some(Unexpected(4))),
        ("a = { if };", Some(Unexpected(4))),
        ("a = { async\nb() {} };", Some(Unexpected(4))),
        ("a = { b() {} c };", Some(Unexpected(8))),
        ("a = { console };", Some(Unexpected(4))),
        ("}", Some(Unexpected(0))),
        ("{", Some(Unexpected(1))),
        ("f(,);", Some(Unexpected(2))),
        ("f(1,,);", Some(Unexpected(4))),
        ("class A {}", Some(Unexpected(0))),
        ("(function () {})", Some(Unexpected(7))),
        ("f(1, 2, 3, 4, 5, 6, 7, 8);", None),
        ("f(1, 2, 3, 4, 5, 6, 7, 8, 9);", Some(TooMany(18))),
        ("f(1, 2, 3, 4, 5, 6, 7, 8, ;", Some(Unexpected(18))),
        ("(a, b, c, d, e, f, g, h) => 1;", None),
        ("(a, b, c, d, e, f, g, h, i) => 1;", Some(TooMany(17))),
        ("console.log(1, 2, 3, 4, 5, 6, 7, 8, 9);", Some(TooMany(20))),
        ("a = { a, b, c, d, e, f, g, h, i, j };", None),
    ];
    compare(&rt, rt.alloc(), Side::Source, table.as_slice())
}
