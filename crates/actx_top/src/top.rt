//! The top call: all that the program does, over the words, the files and the two outputs that it is handed.

ghost use Rattle.std.specs.Prelude.{◌≡◌, ◌≢◌, ◌⊎◌, ◌==◌, ◌+◌, ℕ, List, length, take, map, Option, string_bytes, codes, Some, None, IfSome, IfNone, IfOk, IfErr};
ghost use Rattle.actx_ports.specs.Ports.{Rose};
ghost use Rattle.actx_grammar.specs.Tree.{Stmts};
ghost use Rattle.actx_ast.specs.View.{program_view};
ghost use Rattle.actx_top.specs.Accepts.{Takes};
ghost use Rattle.actx_top.specs.Answers.{begins_with_dash, mode_named, command_of, file_of, run_shows, status_of, status_in, output_in, Did, Wrote, TellsThrow, TellsRefusal, Explains};
ghost use Rattle.actx_top.specs.Faults.{Says};
ghost use Rattle.actx_top.specs.Headline.{IsLowered, Matches};
ghost use Rattle.actx_rules.specs.Low.{low};
ghost use Rattle.actx_top.specs.declared.read.TextFault.TheVariants as fault;
ghost use Rattle.actx_rules.specs.Meaning.{lines_of};

use crate::execute::{Run, emitted, execute};
use crate::fault::{Fault, tell};
use crate::mode::Mode;
use crate::read::{TextFault, read_source};
use actx_ast::tree::Program;
use actx_data::{End, NoMemory};
use actx_ports::{Cabinet, PortFault, Sink, read_whole, write_whole};
use std::alloc::Global;

/// How much of a program text is read: a byte more than a text may have.
const MOST_READ: usize = 1_048_577;

/// The mode that a word names.
fn mode_named(word: &str) -> Option<Mode>
    ensures { result ≡ mode_named word.now }
{
    if word.as_bytes() == b"run".as_slice() {
        Some(Mode::Run)
    } else if word.as_bytes() == b"lower".as_slice() {
        Some(Mode::Lower)
    } else {
        None
    }
}

/// Whether a word begins with `-`.
fn begins_with_dash(word: &str) -> bool
    ensures { result ≡ begins_with_dash word.now }
{
    match word.as_bytes() {
        [] => false,
        [first, ..] => *first == b'-',
    }
}

/// The mode of a command line; `None` exactly where the words are none.
fn mode_of(words: &[String]) -> Option<Mode>
    ensures { result ≡ command_of (map string_bytes words.now) }
{
    match words {
        [mode, file] => {
            if begins_with_dash(file.as_str()) {
                None
            } else {
                mode_named(mode.as_str())
            }
        }
        _ => None,
    }
}

/// The file that a command line names.
fn file_of(words: &[String]) -> &str
    ensures { result.now ≡ file_of (map string_bytes words.entry.now) }
{
    match words {
        [_, file, ..] => file.as_str(),
        _ => "",
    }
}

/// Tells where a run stands whose lines were written.
fn tell_end<F: Sink>(alloc: Global, end: &End, faults: &mut F) -> u8
    ensures answer { (result ≡ status_of end.now) ⊎ (result ≡ 70) }
    ensures threw { result ≡ 1 → TellsThrow end.now (F.written faults.old) (F.written faults.new) (F.faults faults.old) (F.faults faults.new) }
    ensures says { (file : List ℕ) → Explains result file (F.written faults.old) (F.written faults.new) (F.faults faults.old) (F.faults faults.new) }
{
    match end {
        End::Ended => 0,
        End::Threw(shown) => tell(alloc, faults, Fault::ThrewValue(shown)),
        End::Left => tell(alloc, faults, Fault::LeftProfile),
        End::Going => tell(alloc, faults, Fault::StillGoing),
    }
}

/// Writes the lines of a run, and tells where it stands.
fn write_run<O: Sink, F: Sink>(alloc: Global, run: &Run, out: &mut O, faults: &mut F) -> u8
    ensures wrote { Wrote result (status_of run.now.end) run.now.lines.items (O.written out.old) (O.written out.new) }
    ensures threw { result ≡ 1 → TellsThrow run.now.end (F.written faults.old) (F.written faults.new) (F.faults faults.old) (F.faults faults.new) }
    ensures unwritten { result ≡ 7 → Rose (O.faults out.old) (O.faults out.new) }
    ensures says { (file : List ℕ) → Explains result file (F.written faults.old) (F.written faults.new) (F.faults faults.old) (F.faults faults.new) }
{
    match write_whole(out, &run.lines) {
        Ok(()) => tell_end(alloc, &run.end, faults),
        Err(PortFault::Failed) => tell(alloc, faults, Fault::CannotWrite),
        Err(PortFault::NoMemory) => tell(alloc, faults, Fault::OutOfMemory),
    }
}

/// Runs a program.
fn run_program<O: Sink, F: Sink>(
    alloc: Global,
    program: &Program,
    out: &mut O,
    faults: &mut F,
) -> u8
    requires { (text : List ℕ) × Takes text (program_view program.now) }
    ensures did { Did result Mode.Run (program_view program.now) (O.written out.old) (O.written out.new) }
    ensures threw { result ≡ 1 → TellsThrow (run_shows (program_view program.now)).end (F.written faults.old) (F.written faults.new) (F.faults faults.old) (F.faults faults.new) }
    ensures never { (result ≢ 2) × ((result ≢ 3) × (result ≢ 6)) }
    ensures unwritten { result ≡ 7 → Rose (O.faults out.old) (O.faults out.new) }
    ensures says { (file : List ℕ) → Explains result file (F.written faults.old) (F.written faults.new) (F.faults faults.old) (F.faults faults.new) }
{
    match execute(alloc, program) {
        Ok(run) => write_run(alloc, &run, out, faults),
        Err(_) => tell(alloc, faults, Fault::OutOfMemory),
    }
}

/// Writes a text.
fn write_text<O: Sink, F: Sink>(alloc: Global, text: &[u8], out: &mut O, faults: &mut F) -> u8
    ensures wrote { Wrote result 0 text.now (O.written out.old) (O.written out.new) }
    ensures never { (result ≢ 1) × ((result ≢ 2) × ((result ≢ 3) × (result ≢ 6))) }
    ensures unwritten { result ≡ 7 → Rose (O.faults out.old) (O.faults out.new) }
    ensures says { (file : List ℕ) → Explains result file (F.written faults.old) (F.written faults.new) (F.faults faults.old) (F.faults faults.new) }
{
    match write_whole(out, text) {
        Ok(()) => 0,
        Err(PortFault::Failed) => tell(alloc, faults, Fault::CannotWrite),
        Err(PortFault::NoMemory) => tell(alloc, faults, Fault::OutOfMemory),
    }
}

/// Writes the text that is emitted for a program.
fn lower_program<O: Sink, F: Sink>(
    alloc: Global,
    program: &Program,
    out: &mut O,
    faults: &mut F,
) -> u8
    requires { (text : List ℕ) × Takes text (program_view program.now) }
    ensures did { Did result Mode.Lower (program_view program.now) (O.written out.old) (O.written out.new) }
    ensures never { (result ≢ 1) × ((result ≢ 2) × ((result ≢ 3) × (result ≢ 6))) }
    ensures unwritten { result ≡ 7 → Rose (O.faults out.old) (O.faults out.new) }
    ensures says { (file : List ℕ) → Explains result file (F.written faults.old) (F.written faults.new) (F.faults faults.old) (F.faults faults.new) }
{
    match emitted(alloc, program) {
        Ok(text) => write_text(alloc, &text, out, faults),
        Err(NoMemory) => tell(alloc, faults, Fault::OutOfMemory),
    }
}

/// Does what a mode does with a program.
fn do_mode<O: Sink, F: Sink>(
    alloc: Global,
    mode: Mode,
    program: &Program,
    out: &mut O,
    faults: &mut F,
) -> u8
    requires { (text : List ℕ) × Takes text (program_view program.now) }
    ensures did { Did result mode (program_view program.now) (O.written out.old) (O.written out.new) }
    ensures threw { result ≡ 1 → TellsThrow (run_shows (program_view program.now)).end (F.written faults.old) (F.written faults.new) (F.faults faults.old) (F.faults faults.new) }
    ensures never { (result ≢ 2) × ((result ≢ 3) × (result ≢ 6)) }
    ensures unwritten { result ≡ 7 → Rose (O.faults out.old) (O.faults out.new) }
    ensures says { (file : List ℕ) → Explains result file (F.written faults.old) (F.written faults.new) (F.faults faults.old) (F.faults faults.new) }
{
    match mode {
        Mode::Run => run_program(alloc, program, out, faults),
        Mode::Lower => lower_program(alloc, program, out, faults),
    }
}

/// Does what a mode does with the program that a text is.
fn do_text<O: Sink, F: Sink>(
    alloc: Global,
    mode: Mode,
    name: &str,
    text: &[u8],
    out: &mut O,
    faults: &mut F,
) -> u8
    ensures refused { result ≡ 3 → (p : Stmts) → Takes text.now p → ⊥ }
    ensures refusal { result ≡ 3 → TellsRefusal name.now text.now (F.written faults.old) (F.written faults.new) (F.faults faults.old) (F.faults faults.new) }
    ensures did { (p : Stmts) → Takes text.now p → Did result mode p (O.written out.old) (O.written out.new) }
    ensures threw { (p : Stmts) → Takes text.now p → result ≡ 1 → TellsThrow (run_shows p).end (F.written faults.old) (F.written faults.new) (F.faults faults.old) (F.faults faults.new) }
    ensures refuses { ((p : Stmts) → Takes text.now p → ⊥) → (result ≡ 3) ⊎ (result ≡ 70) }
    ensures never { (result ≢ 2) × (result ≢ 6) }
    ensures silent { result ≡ 3 → O.written out.new ≡ O.written out.old }
    ensures unwritten { result ≡ 7 → Rose (O.faults out.old) (O.faults out.new) }
    ensures says { Explains result name.now (F.written faults.old) (F.written faults.new) (F.faults faults.old) (F.faults faults.new) }
{
    match read_source(alloc, text) {
        Ok(program) => do_mode(alloc, mode, &program, out, faults),
        Err(TextFault::Refused { number, place }) => {
            tell(alloc, faults, Fault::Refused(name, number, place))
        }
        Err(TextFault::NoMemory) => tell(alloc, faults, Fault::OutOfMemory),
    }
}

/// Does what a mode does with the program of a file.
fn do_file<C: Cabinet, O: Sink, F: Sink>(
    alloc: Global,
    mode: Mode,
    name: &str,
    files: &mut C,
    out: &mut O,
    faults: &mut F,
) -> u8
    ensures refused { (bytes : List ℕ) → C.held files.old name.now ≡ Some bytes → result ≡ 3 → (p : Stmts) → Takes bytes p → ⊥ }
    ensures refusal { (bytes : List ℕ) → C.held files.old name.now ≡ Some bytes → result ≡ 3 → TellsRefusal name.now bytes (F.written faults.old) (F.written faults.new) (F.faults faults.old) (F.faults faults.new) }
    ensures did { (bytes : List ℕ) → C.held files.old name.now ≡ Some bytes → (p : Stmts) → Takes bytes p → Did result mode p (O.written out.old) (O.written out.new) }
    ensures threw { (bytes : List ℕ) → C.held files.old name.now ≡ Some bytes → (p : Stmts) → Takes bytes p → result ≡ 1 → TellsThrow (run_shows p).end (F.written faults.old) (F.written faults.new) (F.faults faults.old) (F.faults faults.new) }
    ensures refuses { (bytes : List ℕ) → C.held files.old name.now ≡ Some bytes → ((p : Stmts) → Takes bytes p → ⊥) → (result ≡ 3) ⊎ ((result ≡ 6) ⊎ (result ≡ 70)) }
    ensures never { result ≢ 2 }
    ensures silent { (result ≡ 3) ⊎ (result ≡ 6) → O.written out.new ≡ O.written out.old }
    ensures unread { result ≡ 6 → Rose (C.faults files.old name.now) (C.faults files.new name.now) }
    ensures unwritten { result ≡ 7 → Rose (O.faults out.old) (O.faults out.new) }
    ensures says { Explains result name.now (F.written faults.old) (F.written faults.new) (F.faults faults.old) (F.faults faults.new) }
{
    match read_whole(alloc, files, name, MOST_READ) {
        Ok(text) => do_text(alloc, mode, name, &text, out, faults),
        Err(PortFault::Failed) => tell(alloc, faults, Fault::CannotRead(name)),
        Err(PortFault::NoMemory) => tell(alloc, faults, Fault::OutOfMemory),
    }
}

/// The text that is emitted for the program that a user's text is (ECMA-262, 16.1, restricted): the prelude, and behind it
/// the program's own statements, printed as their tokens. The user's text has at most 1,048,576 bytes.
///
/// # Errors
///
/// `Refused` exactly where the text is no program of forms that run, with the number and the place of the first reason: of
/// its bytes, its tokens, the grammar, the static rules and the forms, in this order; `NoMemory` where memory runs out.
pub fn lower_text(alloc: Global, text: &[u8]) -> Result<Vec<u8>, TextFault>
    // What is answered is the emitted text of the text's program: it parses to q, the two runs match, and q has the
    // program's own statements.
    ensures lowered { IfOk result (λ made. IsLowered text.now made.items) }

    // A refusal has its cause at its place, and no program is refused.
    ensures refused { IfErr result (Says text.now) }
    ensures takes { (p : Stmts) → Takes text.now p → IfErr result (λ e. e ≡ fault.NoMemory) }
{
    let program = read_source(alloc, text)?;
    Ok(emitted(alloc, &program)?)
}

/// Does all that the program does, and answers its status. `words` are the words after the program's name: the mode
/// `lower` or `run`, and a file whose name doesn't begin with `-`. The program of the file is lowered and printed. `lower`
/// writes that text to `out`; `run` parses it again and runs it for at most 20,000,000 steps, and what it prints goes to
/// `out`. A line that tells a fault goes to `faults`.
///
/// 0: the text was written, or the run ended. 1: it threw, and the line shows the value. 2: the words are no command line.
/// 3: the text is no program of forms that run, and the line tells the first reason and its place. 4: the run left the
/// profile. 5: it was still going. 6: the file couldn't be read. 7: the output couldn't be written. 70: memory was wanting,
/// which may come in place of any other answer.
pub fn actx<C: Cabinet, O: Sink, F: Sink>(
    alloc: Global,
    words: &[String],
    files: &mut C,
    out: &mut O,
    faults: &mut F,
) -> u8
    // The words.
    ensures usage { result ≡ 2 → command_of (map string_bytes words.now) ≡ None }
    ensures wants_words { command_of (map string_bytes words.now) ≡ None → (result ≡ 2) ⊎ (result ≡ 70) }

    // The file: a fault of reading is answered only where its count rose.
    ensures unread { result ≡ 6 → Rose (C.faults files.old (file_of (map string_bytes words.now))) (C.faults files.new (file_of (map string_bytes words.now))) }

    // The text, where the cabinet tells its bytes.
    ensures refused { (bytes : List ℕ) → C.held files.old (file_of (map string_bytes words.now)) ≡ Some bytes → result ≡ 3 → (p : Stmts) → Takes bytes p → ⊥ }
    ensures refuses { (bytes : List ℕ) → C.held files.old (file_of (map string_bytes words.now)) ≡ Some bytes → (mode : Mode) → command_of (map string_bytes words.now) ≡ Some mode → ((p : Stmts) → Takes bytes p → ⊥) → (result ≡ 3) ⊎ ((result ≡ 6) ⊎ (result ≡ 70)) }

    // A refusal: the line tells the number of its reason, and its place.
    ensures refusal { (bytes : List ℕ) → C.held files.old (file_of (map string_bytes words.now)) ≡ Some bytes → result ≡ 3 → TellsRefusal (file_of (map string_bytes words.now)) bytes (F.written faults.old) (F.written faults.new) (F.faults faults.old) (F.faults faults.new) }

    // The mode: a program has its mode's status, and the mode's output is written.
    ensures did { (bytes : List ℕ) → C.held files.old (file_of (map string_bytes words.now)) ≡ Some bytes → (mode : Mode) → command_of (map string_bytes words.now) ≡ Some mode → (p : Stmts) → Takes bytes p → Did result mode p (O.written out.old) (O.written out.new) }

    // A throw: the line tells the value that the run threw.
    ensures threw { (bytes : List ℕ) → C.held files.old (file_of (map string_bytes words.now)) ≡ Some bytes → (p : Stmts) → Takes bytes p → result ≡ 1 → TellsThrow (run_shows p).end (F.written faults.old) (F.written faults.new) (F.faults faults.old) (F.faults faults.new) }

    // The headline: the emitted text parses to q, the two runs match, and q has the program's own statements.
    ensures matches { (bytes : List ℕ) → C.held files.old (file_of (map string_bytes words.now)) ≡ Some bytes → (p : Stmts) → Takes bytes p → Matches p (low p) }

    // The outputs.
    ensures silent { (result ≡ 2) ⊎ ((result ≡ 3) ⊎ (result ≡ 6)) → O.written out.new ≡ O.written out.old }
    ensures unwritten { result ≡ 7 → Rose (O.faults out.old) (O.faults out.new) }
    ensures says { Explains result (file_of (map string_bytes words.now)) (F.written faults.old) (F.written faults.new) (F.faults faults.old) (F.faults faults.new) }
{
    match mode_of(words) {
        Some(mode) => do_file(alloc, mode, file_of(words), files, out, faults),
        None => tell(alloc, faults, Fault::BadWords),
    }
}
