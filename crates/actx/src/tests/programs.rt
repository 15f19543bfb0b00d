//! The top call over cabinets and sinks in memory.

use super::cases::{Case, cases};
use actx_lex::lines::Place;
use actx_ports::{MemoryCabinet, MemorySink};
use actx_top::{TextFault, actx, lower_text};
use std::alloc::{AllocError, Global};
use std::test::Fail;

mod emitted;
mod examples;
mod language;
mod refused;

use refused::REFUSED;

/// What a call answered, and what it wrote.
#[derive(Drop)]
struct Answer {
    status: u8,
    out: String,
    fault: String,
}

/// How the ports fail: the numbers of the cabinet's calls and of the output's writes that do, and the greatest piece
/// that a write takes.
#[derive(Clone, Copy)]
struct Faults {
    call: u64,
    write: u64,
    piece: usize,
}

const NONE: Faults = Faults {
    call: 0,
    write: 0,
    piece: 1_048_577,
};

fn text_of(alloc: Global, bytes: &[u8]) -> Result<String, AllocError> {
    String::from_utf8_lossy(alloc, bytes)
}

/// Calls it with these words, where the file `a.js` has this text.
fn called(
    alloc: Global,
    words: Vec<String>,
    text: &[u8],
    fails: Faults,
) -> Result<Answer, AllocError> {
    let name = String::from_str(alloc, "a.js")?;
    let held = Vec::from_slice(alloc, text)?;
    let mut files = MemoryCabinet::new(vec![in alloc; (name, held)]?, vec![in alloc; fails.call]?);
    let mut out = MemorySink::new(alloc, vec![in alloc; fails.write]?, fails.piece);
    let mut faults = MemorySink::new(alloc, Vec::new(alloc), 64);
    let status = actx(alloc, &words, &mut files, &mut out, &mut faults);
    let out = text_of(alloc, out.written())?;
    let fault = text_of(alloc, faults.written())?;
    Ok(Answer { status, out, fault })
}

/// Runs a text.
fn ran(alloc: Global, text: &str, fails: Faults) -> Result<Answer, AllocError> {
    let mode = String::from_str(alloc, "run")?;
    let file = String::from_str(alloc, "a.js")?;
    called(alloc, vec![in alloc; mode, file]?, text.as_bytes(), fails)
}

/// Whether a program answers as a case has it.
fn holds(alloc: Global, case: &Case) -> Result<bool, AllocError> {
    let got = ran(alloc, case.text.as_str(), NONE)?;
    let status = format!(in alloc; "{}", got.status)?;
    Ok(
        status.as_str() == case.end.as_str()
            && got.out.as_str() == case.out.as_str()
            && got.fault.as_str() == case.fault.as_str(),
    )
}

/// How many cases a table has, and the programs of those that don't hold.
fn tried(alloc: Global, table: &str) -> Result<(usize, String), AllocError> {
    let mut failed = String::new(alloc);
    let table = cases(alloc, table)?;
    for case in table.iter() {
        if !holds(alloc, case)? {
            failed.push_str(case.text.as_str())?;
        }
    }
    Ok((table.len(), failed))
}

const SUM: &str = "console.log(1 + 2 * 3);";

/// How the ports fail, the status, the lines and the line on the fault.
const FAULTS: [(u64, u64, usize, u8, &str, &str); 7] = [
    (1, 0, 64, 6, "", "actx: cannot read a.js\n"),
    (2, 0, 64, 6, "", "actx: cannot read a.js\n"),
    (3, 0, 64, 6, "", "actx: cannot read a.js\n"),
    (0, 1, 64, 7, "", "actx: cannot write\n"),
    (0, 2, 1, 7, "7", "actx: cannot write\n"),
    (0, 0, 0, 7, "", "actx: cannot write\n"),
    (0, 0, 1, 0, "7\n", ""),
];

#[test]
fn ports_fail(rt: HostRuntime) -> Result<(), Fail> {
    for (call, write, piece, status, out, fault) in FAULTS {
        let got = ran(rt.alloc(), SUM, Faults { call, write, piece })?;
        assert_eq!(rt; got.status, status);
        assert_eq!(rt; got.out.as_str(), out);
        assert_eq!(rt; got.fault.as_str(), fault);
    }
    Ok(())
}

const USAGE: &str =
    "actx: usage: actx MODE [FILE] [--events FILE] [--steps N] [--seed N] [--count N]\n";

/// Words with their number, and the status.
const WORDS: [(&str, &str, usize, u8, &str); 10] = [
    ("run", "a.js", 2, 0, ""),
    ("", "", 0, 2, USAGE),
    ("run", "", 1, 2, USAGE),
    ("run", "a.js", 3, 2, USAGE),
    ("lower", "a.js", 2, 0, ""),
    ("trace", "a.js", 2, 2, USAGE),
    ("run", "--steps", 2, 2, USAGE),
    ("run", "-", 2, 2, USAGE),
    ("run", "b.js", 2, 6, "actx: cannot read b.js\n"),
    ("run", "", 2, 6, "actx: cannot read \n"),
];

#[test]
fn words_are_read(rt: HostRuntime) -> Result<(), Fail> {
    for (mode, file, count, status, fault) in WORDS {
        let mut words = Vec::new(rt.alloc());
        if count > 0 {
            words.push(String::from_str(rt.alloc(), mode)?)?;
        }
        if count > 1 {
            words.push(String::from_str(rt.alloc(), file)?)?;
        }
        if count > 2 {
            words.push(String::from_str(rt.alloc(), file)?)?;
        }
        let got = called(rt.alloc(), words, SUM.as_bytes(), NONE)?;
        assert_eq!(rt; got.status, status, "{mode} {file}");
        assert_eq!(rt; got.fault.as_str(), fault, "{mode} {file}");
    }
    Ok(())
}

#[test]
fn the_emitted_text_is_written(rt: HostRuntime) -> Result<(), Fail> {
    let mode = String::from_str(rt.alloc(), "lower")?;
    let file = String::from_str(rt.alloc(), "a.js")?;
    let words = vec![in rt.alloc(); mode, file]?;
    let got = called(rt.alloc(), words, SUM.as_bytes(), NONE)?;
    assert_eq!(rt; got.status, 0);
    assert_eq!(rt; got.fault.as_str(), "");
    assert!(rt;
        got.out
            .starts_with("\"use strict\" ;\nconst __states = new WeakMap ( ) ;\n")
    );
    assert!(rt; got.out.ends_with("}\n;\nconsole . log ( 1 + 2 * 3 ) ;\n"));
    let made = lower_text(rt.alloc(), SUM.as_bytes())?;
    assert_eq!(rt; got.out.as_bytes(), made.as_slice());
    Ok(())
}

#[test]
fn a_refusal_has_a_number_and_a_place(rt: HostRuntime) -> Result<(), Fail> {
    for (text, number, line, column, name) in REFUSED {
        let got = lower_text(rt.alloc(), text.as_bytes());
        let place = Place { line, column };
        assert_eq!(rt;
            got.err(),
            Some(TextFault::Refused { number, place }),
            "{text}"
        );
        let told = format!(in rt.alloc(); "actx: a.js:{line}:{column}: {number} {name}\n")?;
        let got = ran(rt.alloc(), text, NONE)?;
        assert_eq!(rt; got.status, 3, "{text}");
        assert_eq!(rt; got.out.as_str(), "", "{text}");
        assert_eq!(rt; got.fault.as_str(), told.as_str(), "{text}");
    }
    Ok(())
}

/// A text that is repeated, between two others.
fn repeated(
    alloc: Global,
    before: &str,
    piece: &str,
    times: u32,
    after: &str,
) -> Result<String, AllocError> {
    let mut text = String::from_str(alloc, before)?;
    for _ in 0..times {
        text.push_str(piece)?;
    }
    text.push_str(after)?;
    Ok(text)
}

/// Texts at a limit and one past it: what is repeated how often, the status, and how many bytes are printed.
const LIMITS: [(&str, &str, u32, &str, u8, usize); 8] = [
    ("console.log(1);//", "x", 1_048_559, "", 0, 2),
    ("console.log(1);//", "x", 1_048_560, "", 3, 0),
    (
        "const a = \"",
        "x",
        524_288,
        "\"; console.log(a + a);",
        0,
        1_048_577,
    ),
    (
        "const a = \"",
        "x",
        524_288,
        "\"; console.log(a + a + \"y\");",
        4,
        0,
    ),
    ("const a = \"", "x", 524_288, "\"; console.log(a, a);", 4, 0),
    ("const a = ", "(", 198, "1", 3, 0),
    ("console.log(9007199254740992", "", 0, ");", 3, 0),
    ("console.log(\"\u{e9}", "", 0, "\");", 0, 3),
];

#[test]
fn limits_are_exact(rt: HostRuntime) -> Result<(), Fail> {
    for (before, piece, times, after, status, printed) in LIMITS {
        let text = repeated(rt.alloc(), before, piece, times, after)?;
        let got = ran(rt.alloc(), text.as_str(), NONE)?;
        assert_eq!(rt; got.status, status, "{before} {times} {after}");
        assert_eq!(rt; got.out.len(), printed, "{before} {times} {after}");
    }
    Ok(())
}

#[test]
fn many_statements_run(rt: HostRuntime) -> Result<(), Fail> {
    let text = repeated(rt.alloc(), "", "console.log(1);\n", 16_384, "")?;
    let got = ran(rt.alloc(), text.as_str(), NONE)?;
    assert_eq!(rt; got.status, 0);
    assert_eq!(rt; got.out.len(), 32_768);
    Ok(())
}

#[test]
fn a_longer_text_is_refused(rt: HostRuntime) -> Result<(), Fail> {
    let text = repeated(rt.alloc(), "", "console.log(1);\n", 65_536, "\n")?;
    let got = ran(rt.alloc(), text.as_str(), NONE)?;
    assert_eq!(rt; got.status, 3);
    assert_eq!(rt; got.fault.as_str(), "actx: a.js:1:1: 3 TooLong\n");
    Ok(())
}

#[test]
fn depth_is_counted(rt: HostRuntime) -> Result<(), Fail> {
    for (pairs, status) in [(198u32, 0u8), (199, 3)] {
        let opened = repeated(rt.alloc(), "const a = ", "(", pairs, "1")?;
        let text = repeated(rt.alloc(), opened.as_str(), ")", pairs, ";")?;
        let got = ran(rt.alloc(), text.as_str(), NONE)?;
        assert_eq!(rt; got.status, status, "{pairs}");
    }
    Ok(())
}

#[test]
fn bytes_that_are_no_text_are_refused(rt: HostRuntime) -> Result<(), Fail> {
    let mode = String::from_str(rt.alloc(), "run")?;
    let file = String::from_str(rt.alloc(), "a.js")?;
    let words = vec![in rt.alloc(); mode, file]?;
    let got = called(rt.alloc(), words, b"console.log(\"\xff\");", NONE)?;
    assert_eq!(rt; got.status, 3);
    assert_eq!(rt; got.fault.as_str(), "actx: a.js:1:14: 1 NotUtf8\n");
    Ok(())
}
