//! Small programs of the plain side, run to their ends.

use super::cases::{add_line, cases};
use actx_ast::tree::Program;
use actx_data::{End, Event, NoMemory, Shown, TraceEvent, Twin, Units};
use actx_grammar::side::Side;
use actx_lex::lex::lex;
use actx_parse::parse::parse_plain;
use actx_target::machine::Target;
use actx_target::operators::ascii;
use actx_top::shown_text;
use std::alloc::Global;
use std::test::Fail;

/// Plain programs with the events of their trace and their ends.
const PROGRAMS: &str = r#"
const f = x => x + 1;
console.log(f(1));
console.log(f("a"));
> "2"
> "a1"
= ended

const o = { a: 1 };
o.b = 2;
console.log(o.a - o.b);
Object.freeze(o);
console.log(o.b);
o.c = 3;
console.log("never");
> "-1"
> "2"
= left

const o = { a: 1 };
const m = new WeakMap();
m.set(o, 7);
console.log(m.get(o));
console.log(m.get(1));
m.set(1);
console.log("never");
> "7"
> "undefined"
= threw #1 TypeError ""

const t = function () { return this; };
const o = { t: t };
o.n = 5;
console.log(o.t().n);
console.log(t());
console.log(t.call(9));
> "5"
> "undefined"
> "9"
= ended

try {
  if (1 === 1) { console.log("yes"); }
  if (1 === 2) { console.log("no"); }
  3(console.log("argument"));
  console.log("never");
} finally {
  console.log("last");
}
> "yes"
> "argument"
> "last"
= threw #1 TypeError ""

const f = () => {
  try { return 1; } finally { console.log("last"); }
  console.log("never");
};
console.log(f());
> "last"
> "1"
= ended

const o = {};
console.log(o.a);
o.f = x => this;
console.log(o.f(1));
undefined.a = console.log("right side");
> "undefined"
> "undefined"
> "right side"
= threw #1 TypeError ""

__actx.note("get", 1, "a", undefined);
> get 1 "a"
= ended

const f = () => f();
f();
= going

const f = x => f(x);
f(1);
= going
"#;

/// How an event of a trace is written in the cases.
fn told(alloc: Global, event: &TraceEvent) -> Result<String, NoMemory> {
    match event {
        TraceEvent::Out(line) => shown_text(alloc, &Shown::Text(line.copy(alloc)?)),
        TraceEvent::Get(variable, shown) => {
            let text = shown_text(alloc, shown)?;
            Ok(format!(in alloc; "get {variable} {text}")?)
        }
        _ => Ok(String::from_str(alloc, "another event")?),
    }
}

/// How an end is written in the cases.
fn ending(alloc: Global, end: &End) -> Result<String, NoMemory> {
    match end {
        End::Going => Ok(String::from_str(alloc, "going")?),
        End::Ended => Ok(String::from_str(alloc, "ended")?),
        End::Left => Ok(String::from_str(alloc, "left")?),
        End::Threw(shown) => {
            let text = shown_text(alloc, shown)?;
            Ok(format!(in alloc; "threw {text}")?)
        }
    }
}

/// The program of a plain text; `None` where it is none.
fn plain(alloc: Global, text: &[u8]) -> Result<Option<Program>, NoMemory> {
    let Ok(tokens) = lex(alloc, text, Side::Plain) else {
        return Ok(None);
    };
    match parse_plain(alloc, &tokens) {
        Ok(parsed) => Ok(Some(parsed.program)),
        Err(_) => Ok(None),
    }
}

/// Runs a plain text for at most so many steps: its trace and its end, as the cases have them.
fn ran(alloc: Global, text: &str, steps: u64) -> Result<(String, String), NoMemory> {
    let mut out = String::new(alloc);
    let Some(program) = plain(alloc, text.as_bytes())? else {
        return Ok((out, String::from_str(alloc, "refused")?));
    };
    let mut target = Target::new(alloc, program.body.as_slice(), Vec::new(alloc))?;
    target.run(steps)?;
    for event in target.trace.iter() {
        add_line(&mut out, told(alloc, event)?.as_str())?;
    }
    let end = ending(alloc, &target.end)?;
    Ok((out, end))
}

#[test]
fn plain_programs_run(rt: HostRuntime) -> Result<(), Fail> {
    let table = cases(rt.alloc(), PROGRAMS)?;
    for case in table.iter() {
        let (out, end) = ran(rt.alloc(), case.text.as_str(), 100_000)?;
        assert_eq!(rt; out.as_str(), case.out.as_str(), "{}", case.text);
        assert_eq!(rt; end.as_str(), case.end.as_str(), "{}", case.text);
    }
    assert_eq!(rt; table.len(), 10);
    Ok(())
}

#[test]
fn host_events_do_not_change_a_run(rt: HostRuntime) -> Result<(), Fail> {
    let alloc = rt.alloc();
    let name = ascii(alloc, b"click")?;
    let text = Units::from_vec(Vec::new(alloc));
    let events = vec![in alloc; Event { name, text }]?;
    let Some(program) = plain(alloc, b"console.log(1);")? else {
        return Err(Fail::from("the program is none"));
    };
    let mut target = Target::new(alloc, program.body.as_slice(), events)?;
    target.run(1_000)?;
    assert!(rt; target.end == End::Ended);
    assert_eq!(rt; target.trace.len(), 1);
    Ok(())
}
