//! The rows of calls: of functions of the program and of the methods of a WeakMap (ECMA-262, 10.2.1 and 24.3.3).

ghost use Rattle.std.specs.Prelude.{◌≡◌, [], ◌∷◌, IfOk, OnOk, slice_get, option_map};
ghost use Rattle.std.specs.Option.{option_copied};
ghost use Rattle.actx_data.specs.declared.end.End.TheVariants.{Going, Left};
ghost use Rattle.actx_grammar.specs.declared.side.Side.TheVariants.{Plain};
ghost use Rattle.actx_ast.specs.View.{stmts_view};
ghost use Rattle.actx_target.specs.Chains.{chain_of};
ghost use Rattle.actx_rules.specs.State.{Goes, Given, ExecBody, CallFrame, with_call, with_names, with_params};
ghost use Rattle.actx_rules.specs.Properties.{entry_at};
ghost use Rattle.actx_rules.specs.Machine.{takes, first, rest, body_receiver, call, call_thing, method, weak_gets, weak_sets};
ghost use Rattle.actx_target.specs.MachineView.{state_of, frames_in, store_in};
ghost use Rattle.actx_target.specs.MethodView.{called, callee_view, argument, weak_answer, with_weak, weak_put, set_entry, Kept, done_in};
ghost use Rattle.actx_target.specs.ThingView.{thing_of, things_of, method_of};
ghost use Rattle.actx_target.specs.View.{answer_view};

use super::statements::declare_list;
use super::{Frame, Target, Task};
use crate::chain::{Chain, again, inside};
use crate::entries::Entries;
use crate::operators::Answer;
use crate::scope::Scope;
use crate::sound::Sound;
use crate::thing::{Method, Thing};
use actx_ast::tree::Function;
use actx_data::{End, ErrorName, NoMemory, Twin, Value};
use actx_grammar::name::Name;
use actx_grammar::operators::FunctionKind;
use std::alloc::Global;
use std::mem;

/// What a call takes of the thing that is called.
#[derive(Drop)]
pub enum Callee<'a> {
    /// A function of the program, with the scopes round it and the receiver that it keeps.
    Closure(&'a Function, Chain, Sound),
    Native(Method),
    /// No function.
    Other,
}

/// What a call takes of a thing.
fn callee_of<'a>(alloc: Global, thing: Option<&Thing<'a>>) -> Result<Callee<'a>, NoMemory>
    ensures { IfOk result (λ callee. callee_view callee ≡ called (option_map thing_of (option_copied thing.entry))) }
{
    match thing {
        Some(Thing::Closure(function, scope, kept)) => {
            Ok(Callee::Closure(function, again(scope)?, kept.copy(alloc)?))
        }
        Some(Thing::Native(method)) => Ok(Callee::Native(*method)),
        Some(Thing::Plain(_)) => Ok(Callee::Other),
        Some(Thing::Listed(_)) => Ok(Callee::Other),
        Some(Thing::Failure(_, _)) => Ok(Callee::Other),
        Some(Thing::Weak(_)) => Ok(Callee::Other),
        None => Ok(Callee::Other),
    }
}

/// What a call takes of the thing with this number.
fn callee_at<'a>(alloc: Global, heap: &[Thing<'a>], number: usize) -> Result<Callee<'a>, NoMemory>
    ensures { IfOk result (λ callee. callee_view callee ≡ called (slice_get (things_of heap.now) number)) }
{
    callee_of(alloc, heap.get(number))
}

/// The value of an argument, which is `undefined` where there is none.
pub fn argument(alloc: Global, args: &[Sound], i: usize) -> Result<Sound, NoMemory>
    ensures { IfOk result (λ value. value ≡ argument args.now i) }
{
    match args.get(i) {
        Some(value) => value.copy(alloc),
        None => Ok(Sound::undefined()),
    }
}

/// Binds parameters to the values of arguments (ECMA-262, 10.2.11).
fn bind_params(
    alloc: Global,
    scope: &mut Scope,
    params: &[Name],
    args: &[Sound],
) -> Result<(), NoMemory>
    ensures { OnOk result (scope.new ≡ with_params params.now args.now scope.old) }
{
    for (i, param) in params.iter().enumerate() {
        let value = argument(alloc, args, i)?;
        scope.bind(alloc, param, value)?;
    }
    Ok(())
}

/// The scope of a call: the parameters, and the names that the body declares.
fn scope_of_call(alloc: Global, function: &Function, args: &[Sound]) -> Result<Scope, NoMemory>
    ensures { IfOk result (λ scope. scope ≡ with_names (stmts_view function.now.body.items) (with_params function.now.params.items args.now [])) }
{
    let mut scope = Scope::new(alloc);
    bind_params(alloc, &mut scope, &function.params, args)?;
    declare_list(alloc, &mut scope, &function.body)?;
    Ok(scope)
}

/// The receiver in a function's body.
fn body_receiver(kind: FunctionKind, kept: Sound, given: Sound) -> Sound
    ensures { result ≡ body_receiver kind kept given }
{
    match kind {
        FunctionKind::Arrow => kept,
        _ => given,
    }
}

/// The value for a key, which is `undefined` where there is none.
fn entry_at(alloc: Global, key: &Value, entries: &Entries) -> Result<Sound, NoMemory>
    ensures { IfOk result (λ value. value ≡ entry_at key.now entries.now) }
{
    let Value::Thing(number) = key else {
        return Ok(Sound::undefined());
    };
    match entries.get(*number) {
        Some(value) => value.copy(alloc),
        None => Ok(Sound::undefined()),
    }
}

/// A WeakMap's `get`: what a thing has for the first argument.
fn weak_answer(alloc: Global, thing: Option<&Thing<'_>>, args: &[Sound]) -> Result<Answer, NoMemory>
    ensures { IfOk result (λ answer. answer_view answer ≡ weak_answer (option_map thing_of (option_copied thing.entry)) args.now) }
{
    let Some(Thing::Weak(entries)) = thing else {
        return Ok(Answer::Throws(ErrorName::TypeError));
    };
    let key = argument(alloc, args, 0)?;
    Ok(Answer::Gives(entry_at(alloc, key.value(), entries)?))
}

/// Sets an entry of a thing, where that is a WeakMap; whether it was.
fn put_entry(thing: &mut Thing<'_>, key: u64, value: Sound) -> Result<bool, NoMemory>
    ensures done { IfOk result (λ done. with_weak (thing_of thing.old) key value ≡ done_in done (thing_of thing.new)) }
    ensures kept { IfOk result (λ done. Kept done (thing_of thing.old) (thing_of thing.new)) }
{
    match thing {
        Thing::Weak(entries) => {
            entries.put(key, value)?;
            Ok(true)
        }
        Thing::Plain(_) => Ok(false),
        Thing::Listed(_) => Ok(false),
        Thing::Failure(_, _) => Ok(false),
        Thing::Closure(_, _, _) => Ok(false),
        Thing::Native(_) => Ok(false),
    }
}

/// Sets an entry of the thing with this number.
fn put_at(
    heap: &mut Vec<Thing<'_>>,
    number: usize,
    key: u64,
    value: Sound,
) -> Result<bool, NoMemory>
    ensures done { IfOk result (λ done. weak_put (slice_get (things_of heap.old.items) number) (things_of heap.old.items) number key value ≡ done_in done (things_of heap.new.items)) }
    ensures kept { IfOk result (λ done. Kept done (things_of heap.old.items) (things_of heap.new.items)) }
{
    match heap.get_mut(number) {
        None => Ok(false),
        Some(thing) => {
            let done = put_entry(thing, key, value)?;
            Ok(done)
        }
    }
}

impl<'a> Target<'a> {
    /// Sets an entry of the WeakMap with this number, and that is the value; a key that is no thing is refused.
    fn set_entry(&mut self, number: u64, key: &Value, value: Sound) -> Result<(), NoMemory>
        requires { self.old.end ≡ End.Going }
        ensures { OnOk result (state_of self.new ≡ takes (set_entry (slice_get (store_in self.old).heap number) number key.now value (frames_in self.old) (store_in self.old)) self.old.trace.items) }
    {
        let Value::Thing(key) = key else {
            return self.throws(ErrorName::TypeError);
        };
        if put_at(&mut self.heap, number as usize, *key, value)? {
            self.task = Task::Given(Sound::thing(number));
            Ok(())
        } else {
            self.throws(ErrorName::TypeError)
        }
    }

    /// A WeakMap's `set`.
    #[tactic(auto, using(crate::proofs::Methods::weak_sets_is))]
    fn weak_sets(&mut self, number: u64, args: &[Sound]) -> Result<(), NoMemory>
        requires { self.old.end ≡ End.Going }
        ensures { OnOk result (state_of self.new ≡ takes (weak_sets (slice_get (store_in self.old).heap number) number args.now (frames_in self.old) (store_in self.old)) self.old.trace.items) }
    {
        let key = argument(self.alloc, args, 0)?;
        let value = argument(self.alloc, args, 1)?;
        self.set_entry(number, key.value(), value)
    }

    /// A WeakMap's `get`.
    #[tactic(auto, using(crate::proofs::Methods::weak_gets_is))]
    fn weak_gets(&mut self, number: usize, args: &[Sound]) -> Result<(), NoMemory>
        requires { self.old.end ≡ End.Going }
        ensures { OnOk result (state_of self.new ≡ takes (weak_gets (slice_get (store_in self.old).heap number) args.now (frames_in self.old) (store_in self.old)) self.old.trace.items) }
    {
        let answer = weak_answer(self.alloc, self.heap.get(number), args)?;
        self.answered(answer)
    }

    /// A method of a WeakMap, which is the receiver.
    fn method(&mut self, which: Method, receiver: &Sound, args: &[Sound]) -> Result<(), NoMemory>
        requires { self.old.end ≡ End.Going }
        ensures { OnOk result (state_of self.new ≡ takes (method Plain (method_of which) receiver.now args.now (frames_in self.old) (store_in self.old)) self.old.trace.items) }
    {
        match receiver.value() {
            Value::Thing(number) => match which {
                Method::WeakMapGet => self.weak_gets(*number as usize, args),
                Method::WeakMapSet => self.weak_sets(*number, args),
            },
            _ => self.throws(ErrorName::TypeError),
        }
    }

    /// A function's body begins, in a scope of its own inside the one that the function was made in.
    fn enter(
        &mut self,
        function: &'a Function,
        scope: Chain,
        receiver: Sound,
        args: &[Sound],
    ) -> Result<(), NoMemory>
        requires { self.old.end ≡ End.Going }
        ensures { OnOk result (state_of self.new ≡ takes (Goes (ExecBody (stmts_view function.now.body.items)) (CallFrame (chain_of self.old.scope) self.old.receiver ∷ frames_in self.old) (with_call (store_in self.old) (chain_of scope) receiver (with_names (stmts_view function.now.body.items) (with_params function.now.params.items args.now [])))) self.old.trace.items) }
    {
        let cells = scope_of_call(self.alloc, function, args)?;
        let inner = inside(self.alloc, self.scopes.len(), scope)?;
        self.scopes.push(cells)?;
        let back = mem::replace(&mut self.scope, inner);
        let caller = mem::replace(&mut self.receiver, receiver);
        self.frames.push(Frame::Call(back, caller))?;
        self.task = Task::ExecBody(&function.body);
        Ok(())
    }

    /// A thing is called; one that is no function throws.
    #[tactic(auto, using(crate::proofs::Methods::call_called))]
    fn call_thing(&mut self, number: usize, receiver: Sound, args: &[Sound]) -> Result<(), NoMemory>
        requires { self.old.end ≡ End.Going }
        ensures { OnOk result (state_of self.new ≡ takes (call_thing Plain (slice_get (store_in self.old).heap number) receiver args.now (frames_in self.old) (store_in self.old)) self.old.trace.items) }
    {
        match callee_at(self.alloc, &self.heap, number)? {
            Callee::Closure(function, scope, kept) => {
                let receiver = body_receiver(function.kind, kept, receiver);
                self.enter(function, scope, receiver, args)
            }
            Callee::Native(method) => self.method(method, &receiver, args),
            Callee::Other => self.throws(ErrorName::TypeError),
        }
    }

    /// A value is called; one that is no thing throws.
    pub fn call(&mut self, callee: &Value, receiver: Sound, args: &[Sound]) -> Result<(), NoMemory>
        requires { self.old.end ≡ End.Going }
        ensures { OnOk result (state_of self.new ≡ takes (call Plain callee.now receiver args.now (frames_in self.old) (store_in self.old)) self.old.trace.items) }
    {
        match callee {
            Value::Thing(number) => self.call_thing(*number as usize, receiver, args),
            _ => self.throws(ErrorName::TypeError),
        }
    }
}
