//! The rows of expressions: what each kind of expression evaluates first.

ghost use Rattle.std.specs.Prelude.{◌≡◌, IfOk, OnOk, Some, None, option_map, if◌then◌else◌, ◌&&◌};
ghost use Rattle.actx_data.specs.declared.end.End.TheVariants.{Going, Left};
ghost use Rattle.actx_grammar.specs.declared.side.Side.TheVariants.{Plain};
ghost use Rattle.actx_grammar.specs.Grammar.{count};
ghost use Rattle.actx_grammar.specs.ParserOperands.{suits};
ghost use Rattle.actx_ast.specs.View.{expr_view, exprs_view, function_view, prop_key_view, properties_view, stmts_view};
ghost use Rattle.actx_target.specs.Cells.{found_cell};
ghost use Rattle.actx_target.specs.Chains.{chain_of};
ghost use Rattle.actx_rules.specs.State.{Closure, Stops, Goes, Given, find, cell_of, cells_at};
ghost use Rattle.actx_rules.specs.Machine.{takes, throws, answered, makes, eval_number, read_cell, kept_receiver, eval_call, eval_form, eval_function, eval_object, function_rule, has_form, is_fixed, are_fixed, eval};
ghost use Rattle.actx_target.specs.MachineView.{state_of, frames_in, store_in, form_of};
ghost use Rattle.actx_target.specs.ThingView.{thing_of};
ghost use Rattle.actx_target.specs.View.{reading_of, answer_view};

use super::{Completion, Frame, Op, Parts, PlainForm, Target, Task};
use crate::chain::{Chain, again};
use crate::operators::Answer;
use crate::scope::{Reading, Scope};
use crate::sound::Sound;
use crate::thing::Thing;
use actx_ast::tree::{Expr, Function, Key, PropKey, Property};
use actx_data::{End, ErrorName, NoMemory, Twin, Units};
use actx_grammar::name::Name;
use actx_grammar::operators::{Form, FunctionKind};
use std::alloc::Global;

/// The greatest number of the profile.
const GREATEST: u64 = 9_007_199_254_740_991;

/// What a name is in the scope with this number.
fn read_in(alloc: Global, scopes: &[Scope], number: usize, name: &Name) -> Result<Reading, NoMemory>
    ensures { IfOk result (λ reading. reading_of reading ≡ found_cell (cell_of name.now (cells_at scopes.now number))) }
{
    match scopes.get(number) {
        None => Ok(Reading::Unbound),
        Some(scope) => scope.read(alloc, name),
    }
}

/// What a name is in the open scopes, the innermost first.
fn find(alloc: Global, scopes: &[Scope], open: &Chain, name: &Name) -> Result<Reading, NoMemory>
    ensures { IfOk result (λ reading. reading_of reading ≡ found_cell (find scopes.now (chain_of «open».now) name.now)) }
{
    match open {
        Chain::Outermost => Ok(Reading::Unbound),
        Chain::Inside(link) => {
            let here = &**link;
            match read_in(alloc, scopes, here.number, name)? {
                Reading::Unbound => find(alloc, scopes, &here.outer, name),
                Reading::Unset => Ok(Reading::Unset),
                Reading::Value(value) => Ok(Reading::Value(value)),
            }
        }
    }
}

/// The receiver that a function keeps: an arrow that of the code round it.
fn kept_receiver(alloc: Global, kind: FunctionKind, receiver: &Sound) -> Result<Sound, NoMemory>
    ensures { IfOk result (λ kept. kept ≡ kept_receiver kind receiver.now) }
{
    match kind {
        FunctionKind::Arrow => receiver.copy(alloc),
        _ => Ok(Sound::undefined()),
    }
}

/// How many parts there are.
#[tactic(auto, using(crate::proofs::Forms::count_is))]
pub fn count(parts: &[Expr]) -> usize
    ensures { result ≡ count (exprs_view parts.now) }
{
    parts.len()
}

/// A form of a plain program, where it takes so many parts.
fn plain_form(form: Form, count: usize) -> Option<PlainForm>
    ensures { option_map form_of result ≡ (if has_form Plain form && suits form count then Some form else None) }
{
    match form {
        Form::Log => Some(PlainForm::Log),
        Form::NewWeakMap if count == 0 => Some(PlainForm::NewWeakMap),
        Form::Freeze if count == 1 => Some(PlainForm::Freeze),
        Form::CallWith if count >= 1 => Some(PlainForm::CallWith),
        Form::Note if count == 4 => Some(PlainForm::Note),
        _ => None,
    }
}

/// Whether a key is there before the run.
fn is_fixed(key: &PropKey) -> bool
    ensures { result ≡ is_fixed (prop_key_view key.now) }
{
    match key {
        PropKey::Fixed(_) => true,
        PropKey::Computed(_) => false,
    }
}

/// Whether all keys of a literal are there before the run.
fn are_fixed(properties: &[Property]) -> bool
    ensures { result ≡ are_fixed (properties_view properties.now) }
{
    for property in properties {
        if !is_fixed(&property.key) {
            return false;
        }
    }
    true
}

impl<'a> Target<'a> {
    /// The run leaves the profile.
    pub fn leaves(&mut self)
        ensures { state_of self.new ≡ takes (Stops Left) self.old.trace.items }
    {
        self.end = End::Left;
    }

    /// A new thing is the value.
    pub fn makes(&mut self, thing: Thing<'a>) -> Result<(), NoMemory>
        requires { self.old.end ≡ End.Going }
        ensures { OnOk result (state_of self.new ≡ takes (makes (thing_of thing.entry) (frames_in self.old) (store_in self.old)) self.old.trace.items) }
    {
        let number = self.heap.len() as u64;
        self.heap.push(thing)?;
        self.task = Task::Given(Sound::thing(number));
        Ok(())
    }

    /// A new error is thrown, with the empty message.
    pub fn throws(&mut self, name: ErrorName) -> Result<(), NoMemory>
        requires { self.old.end ≡ End.Going }
        ensures { OnOk result (state_of self.new ≡ takes (throws name (frames_in self.old) (store_in self.old)) self.old.trace.items) }
    {
        let number = self.heap.len() as u64;
        let message = Units::from_vec(Vec::new(self.alloc));
        self.heap.push(Thing::Failure(name, message))?;
        self.task = Task::Done(Completion::Throw(Sound::thing(number)));
        Ok(())
    }

    /// What an operation answered.
    pub fn answered(&mut self, answer: Answer) -> Result<(), NoMemory>
        requires { self.old.end ≡ End.Going }
        ensures { OnOk result (state_of self.new ≡ takes (answered (answer_view answer) (frames_in self.old) (store_in self.old)) self.old.trace.items) }
    {
        match answer {
            Answer::Gives(value) => {
                self.task = Task::Given(value);
                Ok(())
            }
            Answer::Throws(name) => self.throws(name),
            Answer::Leaves => {
                self.leaves();
                Ok(())
            }
        }
    }

    /// A number literal; past the greatest number it is outside the profile.
    fn eval_number(&mut self, n: u64)
        requires { self.old.end ≡ End.Going }
        ensures { state_of self.new ≡ takes (eval_number n (frames_in self.old) (store_in self.old)) self.old.trace.items }
    {
        if n <= GREATEST {
            self.task = Task::Given(Sound::number(n as i64));
        } else {
            self.leaves();
        }
    }

    /// A name; one that is bound nowhere is outside the profile, and one without a value throws.
    fn eval_name(&mut self, name: &Name) -> Result<(), NoMemory>
        requires { self.old.end ≡ End.Going }
        ensures { OnOk result (state_of self.new ≡ takes (read_cell (find (store_in self.old).scopes (store_in self.old).scope name.now) (frames_in self.old) (store_in self.old)) self.old.trace.items) }
    {
        match find(self.alloc, &self.scopes, &self.scope, name)? {
            Reading::Unbound => {
                self.leaves();
                Ok(())
            }
            Reading::Unset => self.throws(ErrorName::ReferenceError),
            Reading::Value(value) => {
                self.task = Task::Given(value);
                Ok(())
            }
        }
    }

    /// A function keeps the open scopes, and an arrow the receiver.
    fn make_function(&mut self, function: &'a Function) -> Result<(), NoMemory>
        requires { self.old.end ≡ End.Going }
        ensures { OnOk result (state_of self.new ≡ takes (makes (Closure function.now.kind function.now.params.items (stmts_view function.now.body.items) (store_in self.old).scope (kept_receiver function.now.kind (store_in self.old).receiver)) (frames_in self.old) (store_in self.old)) self.old.trace.items) }
    {
        let kept = kept_receiver(self.alloc, function.kind, &self.receiver)?;
        let scope = again(&self.scope)?;
        self.makes(Thing::Closure(function, scope, kept))
    }

    /// A function without a name: a generator and what is async are outside the profile.
    fn function_rule(&mut self, function: &'a Function) -> Result<(), NoMemory>
        requires { self.old.end ≡ End.Going }
        ensures { OnOk result (state_of self.new ≡ takes (function_rule function.now.kind function.now.params.items (stmts_view function.now.body.items) (frames_in self.old) (store_in self.old)) self.old.trace.items) }
    {
        match function.kind {
            FunctionKind::Normal => self.make_function(function),
            FunctionKind::Arrow => self.make_function(function),
            _ => {
                self.leaves();
                Ok(())
            }
        }
    }

    /// A function; one with a name of its own is outside the profile.
    fn eval_function(&mut self, function: &'a Function) -> Result<(), NoMemory>
        requires { self.old.end ≡ End.Going }
        ensures { OnOk result (state_of self.new ≡ takes (eval_function (function_view function.now) (frames_in self.old) (store_in self.old)) self.old.trace.items) }
    {
        match &function.name {
            None => self.function_rule(function),
            Some(_) => {
                self.leaves();
                Ok(())
            }
        }
    }

    /// An object literal; keys that are computed are outside the profile.
    fn eval_object(&mut self, properties: &'a [Property]) -> Result<(), NoMemory>
        requires { self.old.end ≡ End.Going }
        ensures { OnOk result (state_of self.new ≡ takes (eval_object Plain (properties_view properties.now) (frames_in self.old) (store_in self.old)) self.old.trace.items) }
    {
        if are_fixed(properties) {
            self.begin_parts(Op::MakeObject(properties), Parts::Values(properties))
        } else {
            self.leaves();
            Ok(())
        }
    }

    /// A call: of a property it has the base first, and then reads the property.
    fn eval_call(&mut self, callee: &'a Expr, args: &'a [Expr]) -> Result<(), NoMemory>
        requires { self.old.end ≡ End.Going }
        ensures { OnOk result (state_of self.new ≡ takes (eval_call Plain (expr_view callee.now) (exprs_view args.now) (frames_in self.old) (store_in self.old)) self.old.trace.items) }
    {
        if let Expr::Member(base, Key::Dot(key)) = callee {
            self.frames.push(Frame::Base(key, args))?;
            self.task = Task::Eval(base);
            return Ok(());
        }
        let op = Op::CallOf(Sound::undefined());
        self.begin_parts(op, Parts::Callee(callee, args))
    }

    /// A form that a plain program doesn't have, or with a number of parts that it doesn't take, is outside the profile.
    fn eval_form(&mut self, form: Form, parts: &'a [Expr]) -> Result<(), NoMemory>
        requires { self.old.end ≡ End.Going }
        ensures { OnOk result (state_of self.new ≡ takes (eval_form Plain form (exprs_view parts.now) (frames_in self.old) (store_in self.old)) self.old.trace.items) }
    {
        match plain_form(form, count(parts)) {
            Some(form) => self.begin_parts(Op::BuiltIn(form), Parts::List(parts)),
            None => {
                self.leaves();
                Ok(())
            }
        }
    }

    /// The value of `this`.
    fn eval_this(&mut self) -> Result<(), NoMemory>
        requires { self.old.end ≡ End.Going }
        ensures { OnOk result (state_of self.new ≡ takes (Goes (Given (store_in self.old).receiver) (frames_in self.old) (store_in self.old)) self.old.trace.items) }
    {
        let value = self.receiver.copy(self.alloc)?;
        self.task = Task::Given(value);
        Ok(())
    }

    /// An expression is evaluated.
    pub fn eval(&mut self, e: &'a Expr) -> Result<(), NoMemory>
        requires { self.old.end ≡ End.Going }
        ensures { OnOk result (state_of self.new ≡ takes (eval Plain (expr_view e.now) (frames_in self.old) (store_in self.old)) self.old.trace.items) }
    {
        match e {
            Expr::Num(n) => {
                self.eval_number(*n);
                Ok(())
            }
            Expr::Text(units) => {
                self.task = Task::Given(Sound::text(units.copy(self.alloc)?));
                Ok(())
            }
            Expr::Undefined => {
                self.task = Task::Given(Sound::undefined());
                Ok(())
            }
            Expr::This => self.eval_this(),
            Expr::Named(name) => self.eval_name(name),
            Expr::Binary(op, left, right) => {
                self.begin_parts(Op::Operator(*op), Parts::Both(left, right))
            }
            Expr::Member(base, Key::Dot(key)) => self.begin_parts(
                Op::GetKey(key),
                Parts::Right(base),
            ),
            Expr::SetMember(base, Key::Dot(key), value) => {
                self.begin_parts(Op::SetKey(key), Parts::Both(base, value))
            }
            Expr::Call(callee, args) => self.eval_call(callee, args),
            Expr::Object(properties) => self.eval_object(properties),
            Expr::Function(function) => self.eval_function(function),
            Expr::Form(form, parts) => self.eval_form(*form, parts),
            _ => {
                self.leaves();
                Ok(())
            }
        }
    }
}
