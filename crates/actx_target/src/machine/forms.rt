//! The rows of built-in forms: what each makes of the values of its parts.

ghost use Rattle.std.specs.Prelude.{◌≡◌, [], ◌∷◌, IfOk, OnOk, slice_get};
ghost use Rattle.actx_data.specs.declared.end.End.TheVariants.{Going, Left};
ghost use Rattle.actx_rules.specs.Properties.{frozen};
ghost use Rattle.actx_rules.specs.Machine.{takes, rest, log, froze, freeze_form, call_with, form_rule};
ghost use Rattle.actx_target.specs.MachineView.{state_of, frames_in, store_in, form_of};
ghost use Rattle.actx_target.specs.MethodView.{argument, frozen_thing, done_in};
ghost use Rattle.actx_target.specs.ThingView.{thing_of, things_of};

use super::calls::argument;
use super::{PlainForm, Target, Task};
use crate::entries::Entries;
use crate::line;
use crate::sound::Sound;
use crate::thing::{Method, Thing};
use actx_data::{End, NoMemory, TraceEvent, Twin, Value, copy_all};
use std::alloc::Global;
use std::mem;

/// Makes a plain object one whose properties stay; whether it was one.
fn freeze(thing: &mut Thing<'_>) -> bool
    ensures { frozen_thing (thing_of thing.old) ≡ done_in result (thing_of thing.new) }
{
    match mem::replace(thing, Thing::Native(Method::WeakMapGet)) {
        Thing::Plain(table) => {
            *thing = Thing::Listed(table);
            true
        }
        other => {
            *thing = other;
            false
        }
    }
}

/// Freezes the thing with this number, where it is a plain object; whether it was.
fn freeze_at(heap: &mut Vec<Thing<'_>>, number: usize) -> bool
    ensures { frozen (slice_get (things_of heap.old.items) number) (things_of heap.old.items) number ≡ done_in result (things_of heap.new.items) }
{
    match heap.get_mut(number) {
        None => false,
        Some(thing) => freeze(thing),
    }
}

/// All values behind the first.
fn others(alloc: Global, values: &[Sound]) -> Result<Vec<Sound>, NoMemory>
    ensures { IfOk result (λ v. v.items ≡ rest values.now) }
{
    match values {
        [] => Ok(Vec::new(alloc)),
        [_, more @ ..] => copy_all(alloc, more),
    }
}

impl<'a> Target<'a> {
    /// `console.log` with the values of its arguments.
    fn log(&mut self, values: &[Sound]) -> Result<(), NoMemory>
        requires { self.old.end ≡ End.Going }
        ensures { OnOk result (state_of self.new ≡ takes (log values.now (frames_in self.old) (store_in self.old)) self.old.trace.items) }
    {
        match line::line_of(self.alloc, &self.heap, values)? {
            Some(text) => {
                self.trace.push(TraceEvent::Out(text))?;
                self.task = Task::Given(Sound::undefined());
            }
            None => self.leaves(),
        }
        Ok(())
    }

    /// `Object.freeze` of a plain object, which is the value.
    fn freeze_form(&mut self, values: &[Sound]) -> Result<(), NoMemory>
        requires { self.old.end ≡ End.Going }
        ensures { OnOk result (state_of self.new ≡ takes (freeze_form values.now (frames_in self.old) (store_in self.old)) self.old.trace.items) }
    {
        if let [value] = values {
            if let Value::Thing(number) = value.value() {
                if freeze_at(&mut self.heap, *number as usize) {
                    self.task = Task::Given(Sound::thing(*number));
                    return Ok(());
                }
            }
        }
        self.leaves();
        Ok(())
    }

    /// `f.call`: the call is a step of its own.
    fn call_with(&mut self, values: &[Sound]) -> Result<(), NoMemory>
        requires { self.old.end ≡ End.Going }
        ensures { OnOk result (state_of self.new ≡ takes (call_with values.now (frames_in self.old) (store_in self.old)) self.old.trace.items) }
    {
        let [callee, more @ ..] = values else {
            self.leaves();
            return Ok(());
        };
        let callee = callee.copy(self.alloc)?;
        let receiver = argument(self.alloc, more, 0)?;
        let args = others(self.alloc, more)?;
        self.task = Task::Call(callee, receiver, args);
        Ok(())
    }

    /// A built-in form with the values of its parts.
    pub fn form_rule(&mut self, form: PlainForm, values: &[Sound]) -> Result<(), NoMemory>
        requires { self.old.end ≡ End.Going }
        ensures { OnOk result (state_of self.new ≡ takes (form_rule (form_of form) values.now (frames_in self.old) (store_in self.old)) self.old.trace.items) }
    {
        match form {
            PlainForm::Log => self.log(values),
            PlainForm::NewWeakMap => self.makes(Thing::Weak(Entries::new(self.alloc))),
            PlainForm::Freeze => self.freeze_form(values),
            PlainForm::CallWith => self.call_with(values),
            PlainForm::Note => self.note(values),
        }
    }
}
