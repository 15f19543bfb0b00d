//! Faults and the lines that tell them, as `actx: cannot read a.js`.

ghost use Rattle.std.specs.Prelude.{◌≡◌, IfOk, string_bytes};
ghost use Rattle.actx_ports.specs.Ports.{AddsPart};
ghost use Rattle.actx_top.specs.Answers.{fault_line, fault_status, refusal_name, TellsAs, OutOfMemory, Refused, ThrewValue};
ghost use Rattle.actx_top.specs.FaultView.{fault_view};

use crate::shown_values::shown_text;
use actx_data::{NoMemory, Shown};
use actx_lex::lines::Place;
use actx_ports::{PortFault, Sink, write_whole};
use std::alloc::Global;

/// The line on words that are no command line.
const USAGE: &str =
    "actx: usage: actx MODE [FILE] [--events FILE] [--steps N] [--seed N] [--count N]\n";

/// The line on a run that goes on.
const STILL_GOING: &str = "actx: still going after 20000000 steps\n";

/// Why no run ended, or that its output wasn't written.
#[derive(Clone, Copy)]
pub enum Fault<'a> {
    BadWords,
    /// The text of a file is refused, for the reason with this number, at a place.
    Refused(&'a str, u8, Place),
    /// The run threw a value, which is shown so.
    ThrewValue(&'a Shown),
    LeftProfile,
    StillGoing,
    CannotRead(&'a str),
    CannotWrite,
    OutOfMemory,
}

/// The line on a value that was thrown.
fn threw_line(alloc: Global, shown: &Shown) -> Result<String, NoMemory>
    ensures { IfOk result (λ line. string_bytes line ≡ fault_line (ThrewValue shown.now)) }
{
    let text = shown_text(alloc, shown)?;
    Ok(format!(in alloc; "actx: threw {text}\n")?)
}

/// The name of the reason with this number.
fn refusal_name(number: u8) -> &'static str
    ensures { result.now ≡ refusal_name number }
{
    match number {
        1 => "NotUtf8",
        2 => "BadToken",
        3 => "TooLong",
        4 => "BadNumber",
        5 => "Unexpected",
        6 => "TooDeep",
        7 => "TooMany",
        8 => "Undeclared",
        9 => "Twice",
        10 => "Reserved",
        11 => "Misplaced",
        _ => "NotYet",
    }
}

/// The line on a text that is refused.
fn refusal_line(alloc: Global, name: &str, number: u8, place: Place) -> Result<String, NoMemory>
    ensures { IfOk result (λ line. string_bytes line ≡ fault_line (Refused name.now number place.line place.column)) }
{
    let Place { line, column } = place;
    let reason = refusal_name(number);
    Ok(format!(in alloc; "actx: {name}:{line}:{column}: {number} {reason}\n")?)
}

/// The line that tells a fault.
fn line_of(alloc: Global, fault: Fault<'_>) -> Result<String, NoMemory>
    ensures { IfOk result (λ line. string_bytes line ≡ fault_line (fault_view fault.entry)) }
{
    match fault {
        Fault::BadWords => Ok(String::from_str(alloc, USAGE)?),
        Fault::Refused(name, number, place) => refusal_line(alloc, name, number, place),
        Fault::ThrewValue(shown) => threw_line(alloc, shown),
        Fault::LeftProfile => Ok(String::from_str(alloc, "actx: left the profile\n")?),
        Fault::StillGoing => Ok(String::from_str(alloc, STILL_GOING)?),
        Fault::CannotRead(name) => Ok(format!(in alloc; "actx: cannot read {name}\n")?),
        Fault::CannotWrite => Ok(String::from_str(alloc, "actx: cannot write\n")?),
        Fault::OutOfMemory => Ok(String::from_str(alloc, "actx: out of memory\n")?),
    }
}

/// The status of a fault.
fn status_of(fault: Fault<'_>) -> u8
    ensures { result ≡ fault_status (fault_view fault.entry) }
{
    match fault {
        Fault::BadWords => 2,
        Fault::Refused(_, _, _) => 3,
        Fault::ThrewValue(_) => 1,
        Fault::LeftProfile => 4,
        Fault::StillGoing => 5,
        Fault::CannotRead(_) => 6,
        Fault::CannotWrite => 7,
        Fault::OutOfMemory => 70,
    }
}

/// Writes that memory was wanting; the line takes none.
fn tell_no_memory<F: Sink>(faults: &mut F) -> u8
    ensures status { result ≡ 70 }
    ensures part { AddsPart (F.written faults.old) (fault_line OutOfMemory) (F.written faults.new) }
{
    let _ = write_whole(faults, b"actx: out of memory\n");
    70
}

/// Writes a fault's line and answers its status; that the line isn't written changes no status but for want of memory.
pub fn tell<F: Sink>(alloc: Global, faults: &mut F, fault: Fault<'_>) -> u8
    ensures { TellsAs result (fault_view fault.entry) (F.written faults.old) (F.written faults.new) (F.faults faults.old) (F.faults faults.new) }
{
    let Ok(line) = line_of(alloc, fault) else {
        return tell_no_memory(faults);
    };
    match write_whole(faults, line.as_bytes()) {
        Ok(()) => status_of(fault),
        Err(PortFault::Failed) => status_of(fault),
        Err(PortFault::NoMemory) => 70,
    }
}
