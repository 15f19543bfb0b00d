//! The rows of operations: what is made of the values of an expression's children.

ghost use Rattle.std.specs.Prelude.{◌≡◌, [], ◌∷◌, IfOk, OnOk};
ghost use Rattle.actx_data.specs.declared.end.End.TheVariants.{Going, Left};
ghost use Rattle.actx_grammar.specs.declared.side.Side.TheVariants.{Plain};
ghost use Rattle.actx_ast.specs.View.{expr_view, prop_key_view, properties_view};
ghost use Rattle.actx_rules.specs.State.{Goes, Eval, Pending};
ghost use Rattle.actx_rules.specs.Properties.{with_props, any_proto, is_proto};
ghost use Rattle.actx_rules.specs.Machine.{takes, operator_rule, get_rule, set_rule, put_done, object_rule, call_rule, rule, eval_parts, keys_of, units_of};
ghost use Rattle.actx_target.specs.MachineView.{state_of, frames_in, store_in, op_of, parts_of};
ghost use Rattle.actx_target.specs.View.{put_view};

use super::{Frame, Op, Parts, Target, Task, Waiting};
use crate::key::Key;
use crate::operators::binary;
use crate::property::{Setting, get, put};
use crate::sound::Sound;
use crate::table::Table;
use crate::thing::Thing;
use crate::word::is_text;
use actx_ast::tree::{Expr, PropKey, Property};
use actx_data::{End, ErrorName, NoMemory, Twin, Units};
use actx_grammar::name::Name;
use actx_grammar::operators::BinaryOp;
use std::alloc::Global;

/// Whether a key names an object's prototype.
fn is_proto(key: &PropKey) -> bool
    ensures { result ≡ is_proto (units_of (prop_key_view key.now)) }
{
    match key {
        PropKey::Fixed(units) => is_text(units, b"__proto__"),
        PropKey::Computed(_) => false,
    }
}

/// A key of a literal as a table has it; one that is computed has no units before the run.
fn key_of(alloc: Global, key: &PropKey) -> Result<Key, NoMemory>
    ensures { IfOk result (λ k. k ≡ units_of (prop_key_view key.now)) }
{
    match key {
        PropKey::Fixed(units) => Key::of_units(alloc, units),
        PropKey::Computed(_) => Key::of_units(alloc, &Units::from_vec(Vec::new(alloc))),
    }
}

/// Whether a key among these names an object's prototype.
fn any_proto(properties: &[Property]) -> bool
    ensures { result ≡ any_proto (keys_of (properties_view properties.now)) }
{
    for property in properties {
        if is_proto(&property.key) {
            return true;
        }
    }
    false
}

/// The properties of a literal: each key in order has its value.
fn table_of(alloc: Global, properties: &[Property], values: &[Sound]) -> Result<Table, NoMemory>
    ensures { IfOk result (λ table. table ≡ with_props (keys_of (properties_view properties.now)) values.now []) }
{
    let mut table = Table::new(alloc);
    for (i, property) in properties.iter().enumerate() {
        let Some(value) = values.get(i) else {
            return Ok(table);
        };
        let key = key_of(alloc, &property.key)?;
        table.put(key, value.copy(alloc)?)?;
    }
    Ok(table)
}

impl<'a> Target<'a> {
    /// An operator with the values of its operands.
    fn operator_rule(&mut self, op: BinaryOp, values: &[Sound]) -> Result<(), NoMemory>
        requires { self.old.end ≡ End.Going }
        ensures { OnOk result (state_of self.new ≡ takes (operator_rule op values.now (frames_in self.old) (store_in self.old)) self.old.trace.items) }
    {
        match values {
            [a, b] => {
                let answer = binary(self.alloc, op, a, b)?;
                self.answered(answer)
            }
            _ => {
                self.leaves();
                Ok(())
            }
        }
    }

    /// A property is read.
    fn get_rule(&mut self, key: &Name, values: &[Sound]) -> Result<(), NoMemory>
        requires { self.old.end ≡ End.Going }
        ensures { OnOk result (state_of self.new ≡ takes (get_rule key.now values.now (frames_in self.old) (store_in self.old)) self.old.trace.items) }
    {
        match values {
            [base] => {
                let answer = get(self.alloc, &self.heap, base.value(), key)?;
                self.answered(answer)
            }
            _ => {
                self.leaves();
                Ok(())
            }
        }
    }

    /// A property of a base is set.
    fn set_key(&mut self, key: &Name, base: &Sound, value: &Sound) -> Result<(), NoMemory>
        requires { self.old.end ≡ End.Going }
        ensures { OnOk result (state_of self.new ≡ takes (set_rule key.now (base.now ∷ value.now ∷ []) (frames_in self.old) (store_in self.old)) self.old.trace.items) }
    {
        let kept = value.copy(self.alloc)?;
        let set = value.copy(self.alloc)?;
        match put(self.alloc, &mut self.heap, base.value(), key, set)? {
            Setting::Done => {
                self.task = Task::Given(kept);
                Ok(())
            }
            Setting::Throws => self.throws(ErrorName::TypeError),
            Setting::Leaves => {
                self.leaves();
                Ok(())
            }
        }
    }

    /// A property is set.
    fn set_rule(&mut self, key: &Name, values: &[Sound]) -> Result<(), NoMemory>
        requires { self.old.end ≡ End.Going }
        ensures { OnOk result (state_of self.new ≡ takes (set_rule key.now values.now (frames_in self.old) (store_in self.old)) self.old.trace.items) }
    {
        match values {
            [base, value] => self.set_key(key, base, value),
            _ => {
                self.leaves();
                Ok(())
            }
        }
    }

    /// An object with these keys; a key `__proto__` is outside the profile.
    fn object_rule(&mut self, properties: &'a [Property], values: &[Sound]) -> Result<(), NoMemory>
        requires { self.old.end ≡ End.Going }
        ensures { OnOk result (state_of self.new ≡ takes (object_rule (keys_of (properties_view properties.now)) values.now (frames_in self.old) (store_in self.old)) self.old.trace.items) }
    {
        if any_proto(properties) {
            self.leaves();
            return Ok(());
        }
        let table = table_of(self.alloc, properties, values)?;
        self.makes(Thing::Plain(table))
    }

    /// A call: the first value is called with the others.
    fn call_rule(&mut self, receiver: Sound, values: &[Sound]) -> Result<(), NoMemory>
        requires { self.old.end ≡ End.Going }
        ensures { OnOk result (state_of self.new ≡ takes (call_rule Plain receiver values.now (frames_in self.old) (store_in self.old)) self.old.trace.items) }
    {
        match values {
            [] => {
                self.leaves();
                Ok(())
            }
            [callee, args @ ..] => self.call(callee.value(), receiver, args),
        }
    }

    /// An operation with all values there.
    fn rule(&mut self, op: Op<'a>, values: &[Sound]) -> Result<(), NoMemory>
        requires { self.old.end ≡ End.Going }
        ensures { OnOk result (state_of self.new ≡ takes (rule Plain (op_of op.entry) values.now (frames_in self.old) (store_in self.old)) self.old.trace.items) }
    {
        match op {
            Op::Operator(op) => self.operator_rule(op, values),
            Op::BuiltIn(form) => self.form_rule(form, values),
            Op::GetKey(key) => self.get_rule(key, values),
            Op::SetKey(key) => self.set_rule(key, values),
            Op::MakeObject(properties) => self.object_rule(properties, values),
            Op::CallOf(receiver) => self.call_rule(receiver, values),
        }
    }

    /// A child that is missing is evaluated.
    fn wait(
        &mut self,
        e: &'a Expr,
        op: Op<'a>,
        values: Vec<Sound>,
        rest: Parts<'a>,
    ) -> Result<(), NoMemory>
        requires { self.old.end ≡ End.Going }
        ensures { OnOk result (state_of self.new ≡ takes (Goes (Eval (expr_view e.now)) (Pending (op_of op.entry) values.items (parts_of rest.entry) ∷ frames_in self.old) (store_in self.old)) self.old.trace.items) }
    {
        let waiting = Box::new(self.alloc, Waiting { op, values, rest })?;
        self.frames.push(Frame::Pending(waiting))?;
        self.task = Task::Eval(e);
        Ok(())
    }

    /// The next child that is missing, or the rule where there is none.
    pub fn eval_parts(
        &mut self,
        op: Op<'a>,
        values: Vec<Sound>,
        rest: Parts<'a>,
    ) -> Result<(), NoMemory>
        requires { self.old.end ≡ End.Going }
        ensures { OnOk result (state_of self.new ≡ takes (eval_parts Plain (op_of op.entry) values.items (parts_of rest.entry) (frames_in self.old) (store_in self.old)) self.old.trace.items) }
    {
        match rest {
            Parts::Both(left, right) => self.wait(left, op, values, Parts::Right(right)),
            Parts::Right(right) => self.wait(right, op, values, Parts::List(&[])),
            Parts::Callee(callee, args) => self.wait(callee, op, values, Parts::List(args)),
            Parts::List([]) => self.rule(op, &values),
            Parts::List([first, rest @ ..]) => self.wait(first, op, values, Parts::List(rest)),
            Parts::Values([]) => self.rule(op, &values),
            Parts::Values([first, rest @ ..]) => {
                self.wait(&first.value, op, values, Parts::Values(rest))
            }
        }
    }

    /// The first child of an expression, or the rule where there is none.
    pub fn begin_parts(&mut self, op: Op<'a>, rest: Parts<'a>) -> Result<(), NoMemory>
        requires { self.old.end ≡ End.Going }
        ensures { OnOk result (state_of self.new ≡ takes (eval_parts Plain (op_of op.entry) [] (parts_of rest.entry) (frames_in self.old) (store_in self.old)) self.old.trace.items) }
    {
        self.eval_parts(op, Vec::new(self.alloc), rest)
    }
}
