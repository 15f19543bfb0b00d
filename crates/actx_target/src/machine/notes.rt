//! The rows of `__actx.note`, and what is shown of values.

ghost use Rattle.std.specs.Prelude.{◌≡◌, [], ◌∷◌, IfOk, OnOk, option_map, pos, Some, None};
ghost use Rattle.std.specs.Option.{option_copied};
ghost use Rattle.actx_data.specs.declared.end.End.TheVariants.{Going, Left};
ghost use Rattle.actx_rules.specs.Properties.{show_thing, show, more_shown};
ghost use Rattle.actx_data.specs.declared.value.Value.TheVariants.{Undefined};
ghost use Rattle.actx_rules.specs.State.{Writes, Given};
ghost use Rattle.actx_rules.specs.Notes.{get_note, begin_note, finish_note, job_kind, job_note, text_note, note};
ghost use Rattle.actx_rules.specs.Machine.{takes, noted};
ghost use Rattle.actx_target.specs.MachineView.{state_of, frames_in, store_in};
ghost use Rattle.actx_target.specs.ThingView.{thing_of, things_of};
ghost use Rattle.actx_target.specs.NoteView.{counted};

use super::{Target, Task};
use crate::shown::ShownThings;
use crate::sound::Sound;
use crate::thing::Thing;
use crate::word::is_text;
use actx_data::{End, JobKind, NoMemory, Shown, TraceEvent, Twin, Units, Value};
use std::alloc::Global;

/// A thing as it is shown, with the number that it has among those shown.
fn show_thing(alloc: Global, thing: Option<&Thing<'_>>, number: u64) -> Result<Shown, NoMemory>
    ensures { IfOk result (λ shown. shown ≡ show_thing (option_map thing_of (option_copied thing.entry)) number) }
{
    match thing {
        Some(Thing::Failure(name, message)) => Ok(Shown::Failure {
            number,
            name: *name,
            message: message.copy(alloc)?,
        }),
        Some(Thing::Plain(_)) => Ok(Shown::Object(number)),
        Some(Thing::Listed(_)) => Ok(Shown::Object(number)),
        Some(Thing::Closure(_, _, _)) => Ok(Shown::Object(number)),
        Some(Thing::Native(_)) => Ok(Shown::Object(number)),
        Some(Thing::Weak(_)) => Ok(Shown::Object(number)),
        None => Ok(Shown::Object(number)),
    }
}

/// A value as it is shown, once it is among what was shown.
pub fn show(
    alloc: Global,
    heap: &[Thing<'_>],
    things: &mut ShownThings,
    value: &Value,
) -> Result<Shown, NoMemory>
    ensures things { OnOk result (things.new ≡ more_shown things.old value.now) }
    ensures shown { IfOk result (λ shown. shown ≡ show (things_of heap.now) (more_shown things.old value.now) value.now) }
{
    match value {
        Value::Undefined => Ok(Shown::Undefined),
        Value::Null => Ok(Shown::Null),
        Value::Truth(truth) => Ok(Shown::Truth(*truth)),
        Value::Num(n) => Ok(Shown::Num(*n)),
        Value::Text(units) => Ok(Shown::Text(units.copy(alloc)?)),
        Value::Thing(number) => {
            let place = things.show(*number)?;
            show_thing(alloc, heap.get(*number as usize), place)
        }
    }
}

/// The number of a value that is one from 0 up.
fn counted(value: &Value) -> Option<u64>
    ensures { result ≡ counted value.now }
{
    match value {
        Value::Num(n) => { if *n >= 0 { Some(*n as u64) } else { None } }
        _ => None,
    }
}

/// The kind of job that a word names.
fn job_kind(word: &Units) -> Option<JobKind>
    ensures { result ≡ job_kind word.now }
{
    if is_text(word, b"fulfil") {
        Some(JobKind::Fulfil)
    } else if is_text(word, b"reject") {
        Some(JobKind::Reject)
    } else if is_text(word, b"resume") {
        Some(JobKind::Resume)
    } else if is_text(word, b"raise") {
        Some(JobKind::Raise)
    } else if is_text(word, b"thenable") {
        Some(JobKind::Thenable)
    } else if is_text(word, b"span") {
        Some(JobKind::SpanEnd)
    } else if is_text(word, b"micro") {
        Some(JobKind::Micro)
    } else if is_text(word, b"host") {
        Some(JobKind::Host)
    } else {
        None
    }
}

impl<'a> Target<'a> {
    /// An event is written, and the value is `undefined`.
    fn writes(&mut self, event: TraceEvent) -> Result<(), NoMemory>
        requires { self.old.end ≡ End.Going }
        ensures { OnOk result (state_of self.new ≡ takes (Writes event (Given Undefined) (frames_in self.old) (store_in self.old)) self.old.trace.items) }
    {
        self.trace.push(event)?;
        self.task = Task::Given(Sound::undefined());
        Ok(())
    }

    /// The answer of a variable's `get`.
    fn get_note(&mut self, a: &Value, b: &Value) -> Result<(), NoMemory>
        requires { self.old.end ≡ End.Going }
        ensures { OnOk result (state_of self.new ≡ takes (noted (get_note (store_in self.old).heap (store_in self.old).shown a.now b.now) (frames_in self.old) (store_in self.old)) self.old.trace.items) }
    {
        match counted(a) {
            Some(variable) => {
                let shown = show(self.alloc, &self.heap, &mut self.shown, b)?;
                self.writes(TraceEvent::Get(variable, shown))
            }
            None => {
                self.leaves();
                Ok(())
            }
        }
    }

    /// The begin of a span.
    fn begin_note(&mut self, a: &Value, b: &Value, c: &Value) -> Result<(), NoMemory>
        requires { self.old.end ≡ End.Going }
        ensures { OnOk result (state_of self.new ≡ takes (noted (begin_note (store_in self.old).shown a.now b.now c.now) (frames_in self.old) (store_in self.old)) self.old.trace.items) }
    {
        match (counted(a), counted(b), c) {
            (Some(id), Some(parent), Value::Text(name)) => {
                let name = name.copy(self.alloc)?;
                self.writes(TraceEvent::Begin { id, parent, name })
            }
            _ => {
                self.leaves();
                Ok(())
            }
        }
    }

    /// The end of a span.
    fn finish_note(&mut self, a: &Value, b: &Value) -> Result<(), NoMemory>
        requires { self.old.end ≡ End.Going }
        ensures { OnOk result (state_of self.new ≡ takes (noted (finish_note (store_in self.old).shown a.now b.now) (frames_in self.old) (store_in self.old)) self.old.trace.items) }
    {
        match (counted(a), b) {
            (Some(id), Value::Truth(ok)) => self.writes(TraceEvent::Finish { id, ok: *ok }),
            _ => {
                self.leaves();
                Ok(())
            }
        }
    }

    /// A job that begins.
    fn job_note(&mut self, kind: Option<JobKind>, a: &Value) -> Result<(), NoMemory>
        requires { self.old.end ≡ End.Going }
        ensures { OnOk result (state_of self.new ≡ takes (noted (job_note kind (store_in self.old).heap (store_in self.old).shown a.now) (frames_in self.old) (store_in self.old)) self.old.trace.items) }
    {
        match kind {
            Some(kind) => {
                let shown = show(self.alloc, &self.heap, &mut self.shown, a)?;
                self.writes(TraceEvent::Job(kind, shown))
            }
            None => {
                self.leaves();
                Ok(())
            }
        }
    }

    /// The note of a word and three values.
    fn text_note(&mut self, word: &Units, a: &Value, b: &Value, c: &Value) -> Result<(), NoMemory>
        requires { self.old.end ≡ End.Going }
        ensures { OnOk result (state_of self.new ≡ takes (noted (text_note word.now (store_in self.old).heap (store_in self.old).shown a.now b.now c.now) (frames_in self.old) (store_in self.old)) self.old.trace.items) }
    {
        if is_text(word, b"get") {
            self.get_note(a, b)
        } else if is_text(word, b"begin") {
            self.begin_note(a, b, c)
        } else if is_text(word, b"finish") {
            self.finish_note(a, b)
        } else {
            self.job_note(job_kind(word), a)
        }
    }

    /// `__actx.note` with its four values.
    pub fn note(&mut self, values: &[Sound]) -> Result<(), NoMemory>
        requires { self.old.end ≡ End.Going }
        ensures { OnOk result (state_of self.new ≡ takes (noted (note (store_in self.old).heap (store_in self.old).shown values.now) (frames_in self.old) (store_in self.old)) self.old.trace.items) }
    {
        if let [kind, a, b, c] = values {
            if let Value::Text(word) = kind.value() {
                return self.text_note(word, a.value(), b.value(), c.value());
            }
        }
        self.leaves();
        Ok(())
    }
}
