//! Plain texts.

use super::{Unexpected, compare, take};
use actx_grammar::side::Side;
use std::test::Fail;

#[test]
fn each_plain_form(rt: HostRuntime) -> Result<(), Fail> {
    let texts = [
        "a.call(b); a.b.call(c, 1); new WeakMap(); Object.freeze(a); __actx.note(1, 2, 3, 4);",
        "__actx.on(a, b); __actx.leave(); console.log(1); new Error('a'); queueMicrotask(f);",
        "switch (a) {} switch (a) { case 1: b; case 2: default: c; } switch (a) { default: }",
        "switch (a) { case 1: { } case 2: break; }",
        "let Promise = 1; Promise.resolve(2); let Host, Trace; const AsyncContext = 1;",
        "f(1, 2, 3, 4, 5, 6, 7, 8, 9, 10); (a, b, c, d, e, f, g, h, i, j) => 1;",
        "a = { async: 1, async() {} }; x => { switch (x) { case 1: return; } };",
    ];
    take(&rt, rt.alloc(), Side::Plain, texts.as_slice())
}

#[test]
fn what_is_refused_of_plain_texts(rt: HostRuntime) -> Result<(), Fail> {
    let table = [
        ("async x => 1;", Some(Unexpected(0))),
        ("a = function* () {};", Some(Unexpected(3))),
        ("await a;", Some(Unexpected(0))),
        ("a = yield;", Some(Unexpected(2))),
        ("for (let a of b) c;", Some(Unexpected(4))),
        ("a.call;", Some(Unexpected(3))),
        ("a.call();", None),
        ("new Promise(f);", Some(Unexpected(1))),
        ("new WeakMap(1);", Some(Unexpected(3))),
        ("Object.freeze();", Some(Unexpected(4))),
        ("__actx.note(1, 2, 3);", Some(Unexpected(9))),
        ("switch (a) { default: case 1: }", Some(Unexpected(7))),
        ("switch (a) { case b: }", Some(Unexpected(6))),
        ("switch (a) { b; }", Some(Unexpected(5))),
        ("a = { *b() {} };", Some(Unexpected(3))),
        ("a = { async b() {} };", Some(Unexpected(4))),
    ];
    compare(&rt, rt.alloc(), Side::Plain, table.as_slice())
}
