//! The programs of examples/, texts of the language that aren't taken yet, texts that are none, and what is read of a text.

use super::tried;
use std::test::Fail;

/// The programs of examples/.
const EXAMPLES: &str = r#"
const apples = 3;
const pears = 4;
const each = 25;
console.log("fruit", apples + pears);
console.log("cents", (apples + pears) * each);
> fruit 7
> cents 175
= 0
const request = "GET /orders/17";
const user = "ada";
const status = 200;
const started = 1200, ended = 1237;
const line = user + " " + request + " " + status;
console.log(line);
console.log("took", ended - started, "ms");
> ada GET /orders/17 200
> took 37 ms
= 0
const greatest = 9007199254740991;
const least = 0 - greatest;
console.log("numbers from", least, "to", greatest);
console.log("one more leaves the profile:");
console.log(greatest + 1);
> numbers from -9007199254740991 to 9007199254740991
> one more leaves the profile:
! actx: left the profile
= 4
const request = new AsyncContext.Variable({ name: "request", defaultValue: "startup" });

const log = text => console.log("[" + request.get() + "]", text);

const order = number => {
  const started = 1200;
  log("looking up order " + number);
  return 1237 - started;
};

const serve = (user, path, handler) => request.run(user + " " + path, handler);

log("listening");
serve("ada", "GET /orders/17", () => {
  const time = order(17);
  log("took " + time + " ms");
  serve("grace", "GET /health", () => log("ok"));
  log("done");
});
log("ready");
> [startup] listening
> [ada GET /orders/17] looking up order 17
> [ada GET /orders/17] took 37 ms
> [grace GET /health] ok
> [ada GET /orders/17] done
> [startup] ready
= 0
const tenant = new AsyncContext.Variable({ name: "tenant", defaultValue: "nobody" });
const role = new AsyncContext.Variable({ name: "role" });

const label = () => tenant.get() + "/" + role.get();
const audit = (action, amount) => console.log(label(), action, amount);

const as = (name, kind, action) => tenant.run(name, () => role.run(kind, action));

audit("anonymous visit", 1);
as("acme", "admin", () => {
  audit("raised the limit by", 500);
  as("globex", "guest", () => audit("read pages", 3));
  audit("closed the session after", 37);
});

const counter = start => step => start + step;
const orders = counter(1000);
console.log(tenant.name, orders(1), orders(2));
> nobody/undefined anonymous visit 1
> acme/admin raised the limit by 500
> globex/guest read pages 3
> acme/admin closed the session after 37
> tenant 1001 1002
= 0
const port = () => settings + 80;

console.log("starting");
console.log("port", port());
const settings = 8000;
> starting
! actx: threw #1 ReferenceError ""
= 1
"#;

/// Texts that aren't taken yet.
const NOT_TAKEN: &str = r#"
let a = 1;
! actx: a.js:1:1: 13 NotYet
= 3
this;
! actx: a.js:1:1: 11 Misplaced
= 3
1 === 1;
! actx: a.js:1:1: 13 NotYet
= 3
const f = function () {};
! actx: a.js:1:11: 13 NotYet
= 3
({});
! actx: a.js:1:2: 13 NotYet
= 3
if (1) { }
! actx: a.js:1:1: 13 NotYet
= 3
{ }
! actx: a.js:1:1: 13 NotYet
= 3
try { } finally { }
! actx: a.js:1:1: 13 NotYet
= 3
const a = 1; a.b;
! actx: a.js:1:16: 13 NotYet
= 3
const v = new AsyncContext.Variable(); v.name = 1;
! actx: a.js:1:40: 13 NotYet
= 3
new WeakMap();
! actx: a.js:1:5: 5 Unexpected
= 3
const o = 1; o.call(1);
! actx: a.js:1:16: 13 NotYet
= 3
Object.freeze(1);
! actx: a.js:1:1: 8 Undeclared
= 3
new AsyncContext.Snapshot();
! actx: a.js:1:1: 13 NotYet
= 3
const f = async () => 1;
! actx: a.js:1:11: 13 NotYet
= 3
while (1) { }
! actx: a.js:1:1: 13 NotYet
= 3
const f = (a) => { let b = a; };
! actx: a.js:1:20: 13 NotYet
= 3
console.log(1 < 2);
! actx: a.js:1:13: 13 NotYet
= 3
const o = { a: 1 };
! actx: a.js:1:11: 13 NotYet
= 3
new AsyncContext.Variable({ ["n"]: 1 });
! actx: a.js:1:30: 13 NotYet
= 3
"#;

/// Texts that are no program.
const REFUSED: &str = r#"
console.log(1, [1]);
! actx: a.js:1:16: 5 Unexpected
= 3
console.log(1
! actx: a.js:2:1: 5 Unexpected
= 3
a # b
! actx: a.js:1:3: 2 BadToken
= 3
console.log(01);
! actx: a.js:1:13: 4 BadNumber
= 3
const f = x /*
*/ => x;
! actx: a.js:2:4: 5 Unexpected
= 3
console.log(1);
break;
! actx: a.js:2:1: 11 Misplaced
= 3
const été = eval;
! actx: a.js:1:13: 10 Reserved
= 3
"#;

/// Texts with comments, escapes, names of other letters, parentheses and commas that may be left out.
const READ: &str = r#"
/* a */ console.log(1); // b
> 1
= 0
// a line
console.log("it", 'is', /* here */ "so");
> it is so
= 0
console.log("\x41\u0042\u{43} \"\\", '"');
> ABC "\ "
= 0
console.log("one\ntwo");
> one
> two
= 0
console.log("\ud83d\ude00", "é");
> 😀 é
= 0
const été = 1; const π = 3; console.log(été + π);
> 4
= 0
console.log((((1 + 2))) * (3));
> 9
= 0
const f = (a, b,) => (a + b); console.log(f(1, 2,),);
> 3
= 0
const v = new AsyncContext.Variable({ "name": "n", defaultValue: 1, }); console.log((v).get(), (v.name));
> 1 n
= 0
"#;

#[test]
fn examples_run(rt: HostRuntime) -> Result<(), Fail> {
    let (count, failed) = tried(rt.alloc(), EXAMPLES)?;
    assert_eq!(rt; failed.as_str(), "");
    assert_eq!(rt; count, 6);
    Ok(())
}

#[test]
fn other_forms_are_refused(rt: HostRuntime) -> Result<(), Fail> {
    let (count, failed) = tried(rt.alloc(), NOT_TAKEN)?;
    assert_eq!(rt; failed.as_str(), "");
    assert_eq!(rt; count, 20);
    Ok(())
}

#[test]
fn other_texts_are_refused(rt: HostRuntime) -> Result<(), Fail> {
    let (count, failed) = tried(rt.alloc(), REFUSED)?;
    assert_eq!(rt; failed.as_str(), "");
    assert_eq!(rt; count, 7);
    Ok(())
}

#[test]
fn texts_are_read_whole(rt: HostRuntime) -> Result<(), Fail> {
    let (count, failed) = tried(rt.alloc(), READ)?;
    assert_eq!(rt; failed.as_str(), "");
    assert_eq!(rt; count, 9);
    Ok(())
}
