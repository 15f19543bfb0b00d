//! The lines of a trace as they are written.

ghost use Rattle.std.specs.Prelude.{◌≡◌, ◌++◌, IfOk, OnOk};
ghost use Rattle.actx_rules.specs.Meaning.{line_bytes, event_bytes, lines_of};

use actx_data::{NoMemory, TraceEvent, Units};
use std::alloc::Global;

/// Adds a line, as UTF-8 and with its end.
fn add_line(alloc: Global, bytes: &mut Vec<u8>, line: &Units) -> Result<(), NoMemory>
    ensures { OnOk result (bytes.new.items ≡ bytes.old.items ++ line_bytes line.now) }
{
    let text = line.to_text(alloc)?;
    bytes.extend_from_slice(text.as_bytes())?;
    bytes.push(b'\n')?;
    Ok(())
}

/// Adds what an event prints.
fn add_event(alloc: Global, bytes: &mut Vec<u8>, event: &TraceEvent) -> Result<(), NoMemory>
    ensures { OnOk result (bytes.new.items ≡ bytes.old.items ++ event_bytes event.now) }
{
    match event {
        TraceEvent::Out(line) => add_line(alloc, bytes, line),
        _ => Ok(()),
    }
}

/// The lines that a trace has printed, each as UTF-8 and ended by LF.
pub fn render(alloc: Global, trace: &[TraceEvent]) -> Result<Vec<u8>, NoMemory>
    ensures { IfOk result (λ bytes. bytes.items ≡ lines_of trace.now) }
{
    let mut bytes = Vec::new(alloc);
    for event in trace {
        add_event(alloc, &mut bytes, event)?;
    }
    Ok(bytes)
}
