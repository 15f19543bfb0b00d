//! Programs with what they answer, as ECMA-262 and the rules of variables have it.

use super::tried;
use std::test::Fail;

/// Programs of constants, arithmetic and lines.
const STRAIGHT_LINES: &str = r#"

= 0

 
= 0
console.log(1 + 2 * 3);
> 7
= 0
console.log(9007199254740991 + 1);
! actx: left the profile
= 4
const a = 2; const b = "x" + a * 3; console.log(b, a - 5);
> x6 -3
= 0
console.log("a" - 1);
! actx: left the profile
= 4
console.log("%", 1);
! actx: left the profile
= 4
if (1) {}
! actx: a.js:1:1: 13 NotYet
= 3
console.log("%");
> %
= 0
console.log();
> 
= 0
console.log(1, "a", 2,);
> 1 a 2
= 0
console.log(1,2,3,4,5,6,7,8);
> 1 2 3 4 5 6 7 8
= 0
console.log(1,2,3,4,5,6,7,8,9);
! actx: a.js:1:29: 7 TooMany
= 3
console.log(0 - 9007199254740991);
> -9007199254740991
= 0
console.log(0 - 9007199254740991 - 1);
! actx: left the profile
= 4
console.log(3037000500 * 3037000500);
! actx: left the profile
= 4
console.log(1); console.log(1 * "a"); console.log(2);
> 1
! actx: left the profile
= 4
const a = 1, b = a + 1; console.log(a - b - 1, a - (b - 1));
> -2 0
= 0
const a = 1; const a = 2;
! actx: a.js:1:20: 9 Twice
= 3
const undefined = 1;
! actx: a.js:1:7: 10 Reserved
= 3
console.log(y);
! actx: a.js:1:13: 8 Undeclared
= 3
const a = 1; a;
= 0
// nothing
= 0
"#;

/// Programs of functions.
const FUNCTIONS: &str = r#"
f(); const f = () => 1;
! actx: threw #1 ReferenceError ""
= 1
console.log(a); const a = 1;
! actx: threw #1 ReferenceError ""
= 1
const a = a;
! actx: threw #1 ReferenceError ""
= 1
const f = () => a; console.log(f()); const a = 1;
! actx: threw #1 ReferenceError ""
= 1
const f = () => a; const a = 3; console.log(f());
> 3
= 0
const a = 1; const f = a => a; console.log(f(2), a);
> 2 1
= 0
const a = 1; const f = () => { const a = 2; return a; }; console.log(f(), a);
> 2 1
= 0
const f = (a, b) => { console.log(a, b); }; f(1);
> 1 undefined
= 0
const f = a => a; console.log(f(1, 2));
> 1
= 0
const f = a => a; console.log(f(undefined));
> undefined
= 0
const f = () => {}; console.log(f());
> undefined
= 0
const f = () => { return; }; console.log(f());
> undefined
= 0
const f = a => { return a + 1; console.log("no"); }; console.log(f(1));
> 2
= 0
const add = a => b => a + b; console.log(add(1)(2), add("x")(3));
> 3 x3
= 0
const twice = f => x => f(f(x)); console.log(twice(twice(x => x * 3))(1));
> 81
= 0
console.log((x => x)(5), ((a, b,) => a - b)(5, 2,));
> 5 3
= 0
const f = () => g(); const g = () => "later"; console.log(f());
> later
= 0
const f = () => 1; console.log(f, f(), undefined);
> [function] 1 undefined
= 0
console.log(console.log(1));
> 1
> undefined
= 0
1; "a"; undefined; (() => 2); console.log(3);
> 3
= 0
const a = 1; a();
! actx: threw #1 TypeError ""
= 1
undefined();
! actx: threw #1 TypeError ""
= 1
const a = "t"; a(console.log("first"));
> first
! actx: threw #1 TypeError ""
= 1
const f = () => { console.log(1); g(); }; f(); const g = 2;
> 1
! actx: threw #1 ReferenceError ""
= 1
undefined.name;
! actx: threw #1 TypeError ""
= 1
const u = undefined; u.get(console.log("no"));
! actx: threw #1 TypeError ""
= 1
const f = () => 1; f.name;
! actx: left the profile
= 4
"text".get;
! actx: left the profile
= 4
const n = 1; n.run();
! actx: left the profile
= 4
const f = () => 1; f + 1;
! actx: left the profile
= 4
1 + undefined;
! actx: left the profile
= 4
console.log("a" + undefined);
> aundefined
= 0
const f = x
 => x;
! actx: a.js:2:2: 5 Unexpected
= 3
const f = () => { return
1; };
! actx: a.js:2:1: 5 Unexpected
= 3
const f = () => { return
; }; console.log(f());
> undefined
= 0
const f = (a, a) => a;
! actx: a.js:1:15: 9 Twice
= 3
const f = a => { const a = 1; };
! actx: a.js:1:24: 9 Twice
= 3
return 1;
! actx: a.js:1:1: 11 Misplaced
= 3
"#;

/// Programs of variables.
const VARIABLES: &str = r#"
const v = new AsyncContext.Variable({ defaultValue: "d" });
console.log(v.get());
v.run("a", () => {
  console.log(v.get());
  v.run("b", () => console.log(v.get()));
  console.log(v.get());
});
console.log(v.get());
> d
> a
> b
> a
> d
= 0
const v = new AsyncContext.Variable(); console.log(v.get(), v.name); v.run(1, 2);
> undefined 
! actx: threw #1 TypeError ""
= 1
const v = new AsyncContext.Variable({}); console.log(v.get(), v.name);
> undefined 
= 0
const v = new AsyncContext.Variable({ name: "user", defaultValue: 7 }); console.log(v.name, v.get());
> user 7
= 0
const v = new AsyncContext.Variable({ name: undefined, defaultValue: undefined }); console.log(v.name, v.get());
>  undefined
= 0
const v = new AsyncContext.Variable({ name: "a", "name": "b", default: 1, "x y": 2, }); console.log(v.name);
> b
= 0
const name = "n"; const v = new AsyncContext.Variable({ name }); console.log(v.name);
> n
= 0
new AsyncContext.Variable({ name: 1 });
! actx: left the profile
= 4
new AsyncContext.Variable({ name: () => 1 });
! actx: left the profile
= 4
const v = new AsyncContext.Variable(); new AsyncContext.Variable({ name: v });
! actx: left the profile
= 4
new AsyncContext.Variable({ name: f }); const f = 1;
! actx: threw #1 ReferenceError ""
= 1
new AsyncContext.Variable({ __proto__: 1 });
! actx: a.js:1:29: 10 Reserved
= 3
new AsyncContext.Variable(1);
! actx: a.js:1:27: 13 NotYet
= 3
new AsyncContext.Variable({}, {});
! actx: a.js:1:31: 5 Unexpected
= 3
const v = new AsyncContext.Variable({ defaultValue: "d" }); v.run(undefined, () => console.log(v.get()));
> undefined
= 0
const v = new AsyncContext.Variable(), w = new AsyncContext.Variable({ defaultValue: 0 });
v.run(1, () => w.run(2, () => console.log(v.get(), w.get())));
w.run(3, () => v.run(4, () => w.run(5, () => console.log(v.get(), w.get()))));
console.log(v.get(), w.get());
> 1 2
> 4 5
> undefined 0
= 0
const v = new AsyncContext.Variable(); console.log(v.run(1, (a, b) => a + b + v.get(), 2, 3));
> 6
= 0
const v = new AsyncContext.Variable(); v.run(0, (a, b, c, d, e, f) => console.log(a, b, c, d, e, f), 1, 2, 3, 4, 5, 6);
> 1 2 3 4 5 6
= 0
const v = new AsyncContext.Variable({ defaultValue: () => 7 }); console.log(v.get(), v.get()());
> [function] 7
= 0
const v = new AsyncContext.Variable(); console.log(v, v.get, v.run);
> [object] [function] [function]
= 0
const v = new AsyncContext.Variable(); const g = v.get; g();
! actx: threw #1 TypeError ""
= 1
const v = new AsyncContext.Variable(); const r = v.run; r(1, () => 2);
! actx: threw #1 TypeError ""
= 1
const v = new AsyncContext.Variable(); v.run(1, v.get);
! actx: threw #1 TypeError ""
= 1
const v = new AsyncContext.Variable(); v.run(1, () => v.run(2, () => { console.log(v.get()); f(); })); const f = 1;
> 2
! actx: threw #1 ReferenceError ""
= 1
const v = new AsyncContext.Variable(); v.get.name;
! actx: left the profile
= 4
const v = new AsyncContext.Variable(); v();
! actx: threw #1 TypeError ""
= 1
const v = new AsyncContext.Variable(); const later = v.run(1, () => () => v.get()); console.log(later());
> undefined
= 0
const v = new AsyncContext.Variable(); const w = v; w.run(3, () => console.log(v.get()));
> 3
= 0
"#;

#[test]
fn straight_lines_run(rt: HostRuntime) -> Result<(), Fail> {
    let (count, failed) = tried(rt.alloc(), STRAIGHT_LINES)?;
    assert_eq!(rt; failed.as_str(), "");
    assert_eq!(rt; count, 23);
    Ok(())
}

#[test]
fn functions_run(rt: HostRuntime) -> Result<(), Fail> {
    let (count, failed) = tried(rt.alloc(), FUNCTIONS)?;
    assert_eq!(rt; failed.as_str(), "");
    assert_eq!(rt; count, 38);
    Ok(())
}

#[test]
fn variables_run(rt: HostRuntime) -> Result<(), Fail> {
    let (count, failed) = tried(rt.alloc(), VARIABLES)?;
    assert_eq!(rt; failed.as_str(), "");
    assert_eq!(rt; count, 28);
    Ok(())
}
