//! The rows of values and completions, one step, and runs with a bound.

ghost use Rattle.std.specs.Prelude.{◌≡◌, [], ◌∷◌, ◌++◌, OnOk, option_map, reverse};
ghost use Rattle.actx_match.specs.Runs.{run};
ghost use Rattle.actx_data.specs.declared.end.End.TheVariants.{Going, Threw};
ghost use Rattle.actx_grammar.specs.declared.side.Side.TheVariants.{Plain};
ghost use Rattle.actx_ast.specs.View.{exprs_view, maybe_stmt, stmt_view, stmts_view};
ghost use Rattle.actx_target.specs.Chains.{chain_of};
ghost use Rattle.actx_rules.specs.State.{back_from, CallOf, TryFrame};
ghost use Rattle.actx_rules.specs.Machine.{takes, eval_parts, idle, chosen, base_given, given, finished, list_done, call_done, last_done, done, step, goes};
ghost use Rattle.actx_target.specs.MachineView.{state_of, frames_in, store_in, completion_of, task_of, frame_of, op_of, parts_of};
ghost use Rattle.actx_rules.specs.Properties.{get};

use super::notes::show;
use super::statements::set_in;
use super::{Completion, Frame, Op, Parts, Target, Task, Waiting};
use crate::chain::Chain;
use crate::operators::{Answer, is_true};
use crate::property::get;
use crate::sound::Sound;
use actx_ast::tree::{Expr, Stmt};
use actx_data::{End, NoMemory};
use actx_grammar::name::Name;
use std::mem;

impl<'a> Target<'a> {
    /// Nothing waits: the next event is dropped, since no callback waits for it, or the run has ended.
    fn idle(&mut self, task: Task<'a>)
        requires going { self.old.end ≡ End.Going }
        requires empty { frames_in self.old ≡ [] }
        ensures { state_of self.new ≡ takes (idle (task_of task.entry) (store_in self.old).events (store_in self.old)) self.old.trace.items }
    {
        match self.events.pop() {
            None => self.end = End::Ended,
            Some(_) => self.task = task,
        }
    }

    /// The branch of an if where its test succeeds, else the other where it has one.
    fn chosen(&mut self, test: bool, branch: &'a Stmt, other: &'a Option<Box<Stmt>>)
        requires { self.old.end ≡ End.Going }
        ensures { state_of self.new ≡ takes (chosen test (stmt_view branch.now) (maybe_stmt (option_map (λ b. stmt_view b.value) other.now)) (frames_in self.old) (store_in self.old)) self.old.trace.items }
    {
        if test {
            self.task = Task::Exec(branch);
            return;
        }
        match other {
            Some(other) => self.task = Task::Exec(other),
            None => self.task = Task::Done(Completion::Normal),
        }
    }

    /// The base of a call of a property: the property is read.
    fn base_given(&mut self, base: Sound, key: &'a Name, args: &'a [Expr]) -> Result<(), NoMemory>
        requires { self.old.end ≡ End.Going }
        ensures { OnOk result (state_of self.new ≡ takes (base_given (get (store_in self.old).heap base key.now) base key.now (exprs_view args.now) (frames_in self.old) (store_in self.old)) self.old.trace.items) }
    {
        match get(self.alloc, &self.heap, base.value(), key)? {
            Answer::Gives(callee) => {
                self.frames.push(Frame::Callee(base, args))?;
                self.task = Task::Given(callee);
                Ok(())
            }
            Answer::Throws(name) => {
                self.frames.push(Frame::Base(key, args))?;
                self.throws(name)
            }
            Answer::Leaves => {
                self.leaves();
                Ok(())
            }
        }
    }

    /// The value of a child of an expression.
    fn pending_given(&mut self, value: Sound, waiting: Waiting<'a>) -> Result<(), NoMemory>
        requires { self.old.end ≡ End.Going }
        ensures { OnOk result (state_of self.new ≡ takes (eval_parts Plain (op_of waiting.entry.op) (waiting.entry.values.items ++ value ∷ []) (parts_of waiting.entry.rest) (frames_in self.old) (store_in self.old)) self.old.trace.items) }
    {
        let Waiting {
            op,
            mut values,
            rest,
        } = waiting;
        values.push(value)?;
        self.eval_parts(op, values, rest)
    }

    /// The function of a call of a property.
    fn callee_given(&mut self, value: Sound, base: Sound, args: &'a [Expr]) -> Result<(), NoMemory>
        requires { self.old.end ≡ End.Going }
        ensures { OnOk result (state_of self.new ≡ takes (eval_parts Plain (CallOf base) (value ∷ []) (exprs_view args.now) (frames_in self.old) (store_in self.old)) self.old.trace.items) }
    {
        let mut values = Vec::new(self.alloc);
        values.push(value)?;
        self.eval_parts(Op::CallOf(base), values, Parts::List(args))
    }

    /// A value for a frame, which was on top.
    fn given_to(&mut self, value: Sound, frame: Frame<'a>) -> Result<(), NoMemory>
        requires { self.old.end ≡ End.Going }
        ensures { OnOk result (state_of self.new ≡ takes (given Plain value (frame_of frame.entry ∷ frames_in self.old) (store_in self.old)) self.old.trace.items) }
    {
        match frame {
            Frame::Pending(waiting) => self.pending_given(value, Box::into_inner(waiting)),
            Frame::Base(key, args) => self.base_given(value, key, args),
            Frame::Callee(base, args) => self.callee_given(value, base, args),
            Frame::Const(name, rest) => {
                set_in(self.alloc, &mut self.scopes, &self.scope, name, value)?;
                self.begin_item(rest)
            }
            Frame::Value => {
                self.task = Task::Done(Completion::Normal);
                Ok(())
            }
            Frame::Return => {
                self.task = Task::Done(Completion::Return(value));
                Ok(())
            }
            Frame::If(branch, other) => {
                self.chosen(is_true(value.value()), branch, other);
                Ok(())
            }
            Frame::Try(_, _back) => {
                self.leaves();
                Ok(())
            }
            Frame::Last(_kept) => {
                self.leaves();
                Ok(())
            }
            Frame::List(_, _back) => {
                self.leaves();
                Ok(())
            }
            Frame::Call(_back, _receiver) => {
                self.leaves();
                Ok(())
            }
        }
    }

    /// A value for the frame on top.
    fn given(&mut self, value: Sound) -> Result<(), NoMemory>
        requires { self.old.end ≡ End.Going }
        ensures { OnOk result (state_of self.new ≡ takes (given Plain value (frames_in self.old) (store_in self.old)) self.old.trace.items) }
    {
        match self.frames.pop() {
            None => {
                self.idle(Task::Given(value));
                Ok(())
            }
            Some(frame) => self.given_to(value, frame),
        }
    }

    /// A completion at no frame.
    fn finished(&mut self, completion: Completion) -> Result<(), NoMemory>
        requires going { self.old.end ≡ End.Going }
        requires empty { frames_in self.old ≡ [] }
        ensures { OnOk result (state_of self.new ≡ takes (finished (completion_of completion) (store_in self.old)) self.old.trace.items) }
    {
        match completion {
            Completion::Normal => self.idle(Task::Done(Completion::Normal)),
            Completion::Return(_value) => self.leaves(),
            Completion::Throw(value) => {
                let shown = show(self.alloc, &self.heap, &mut self.shown, value.value())?;
                self.end = End::Threw(shown);
            }
        }
        Ok(())
    }

    /// A completion of a statement in a list.
    fn list_done(
        &mut self,
        completion: Completion,
        rest: &'a [Stmt],
        back: Chain,
    ) -> Result<(), NoMemory>
        requires { self.old.end ≡ End.Going }
        ensures { OnOk result (state_of self.new ≡ takes (list_done (completion_of completion) (stmts_view rest.now) (chain_of back) (frames_in self.old) (store_in self.old)) self.old.trace.items) }
    {
        match completion {
            Completion::Normal => self.next_statement(rest, back),
            Completion::Return(value) => {
                self.scope = back;
                self.task = Task::Done(Completion::Return(value));
                Ok(())
            }
            Completion::Throw(value) => {
                self.scope = back;
                self.task = Task::Done(Completion::Throw(value));
                Ok(())
            }
        }
    }

    /// A completion of a function's body.
    fn call_done(&mut self, completion: Completion, back: Chain, receiver: Sound)
        requires { self.old.end ≡ End.Going }
        ensures { state_of self.new ≡ takes (call_done (completion_of completion) (frames_in self.old) (back_from (store_in self.old) (chain_of back) receiver)) self.old.trace.items }
    {
        self.scope = back;
        self.receiver = receiver;
        self.task = match completion {
            Completion::Normal => Task::Given(Sound::undefined()),
            Completion::Return(value) => Task::Given(value),
            Completion::Throw(value) => Task::Done(Completion::Throw(value)),
        };
    }

    /// A completion of the last part of a try replaces the one that is kept, but for a normal one.
    fn last_done(&mut self, completion: Completion, kept: Completion)
        requires { self.old.end ≡ End.Going }
        ensures { state_of self.new ≡ takes (last_done (completion_of completion) (completion_of kept) (frames_in self.old) (store_in self.old)) self.old.trace.items }
    {
        self.task = match completion {
            Completion::Normal => Task::Done(kept),
            Completion::Return(value) => Task::Done(Completion::Return(value)),
            Completion::Throw(value) => Task::Done(Completion::Throw(value)),
        };
    }

    /// A completion of the block of a try: the last part is executed.
    fn try_done(
        &mut self,
        completion: Completion,
        last: &'a [Stmt],
        back: Chain,
    ) -> Result<(), NoMemory>
        requires { self.old.end ≡ End.Going }
        ensures { OnOk result (state_of self.new ≡ takes (done (completion_of completion) (TryFrame (stmts_view last.now) (chain_of back) ∷ frames_in self.old) (store_in self.old)) self.old.trace.items) }
    {
        self.scope = back;
        self.frames.push(Frame::Last(completion))?;
        self.task = Task::ExecList(last);
        Ok(())
    }

    /// A completion for a frame, which was on top.
    fn done_at(&mut self, completion: Completion, frame: Frame<'a>) -> Result<(), NoMemory>
        requires { self.old.end ≡ End.Going }
        ensures { OnOk result (state_of self.new ≡ takes (done (completion_of completion) (frame_of frame.entry ∷ frames_in self.old) (store_in self.old)) self.old.trace.items) }
    {
        match frame {
            Frame::List(rest, back) => self.list_done(completion, rest, back),
            Frame::Call(back, receiver) => {
                self.call_done(completion, back, receiver);
                Ok(())
            }
            Frame::Try(last, back) => self.try_done(completion, last, back),
            Frame::Last(kept) => {
                self.last_done(completion, kept);
                Ok(())
            }
            _frame => {
                self.task = Task::Done(completion);
                Ok(())
            }
        }
    }

    /// A completion for the frame on top.
    fn done(&mut self, completion: Completion) -> Result<(), NoMemory>
        requires { self.old.end ≡ End.Going }
        ensures { OnOk result (state_of self.new ≡ takes (done (completion_of completion) (frames_in self.old) (store_in self.old)) self.old.trace.items) }
    {
        match self.frames.pop() {
            None => self.finished(completion),
            Some(frame) => self.done_at(completion, frame),
        }
    }

    /// One row of the step table.
    fn step(&mut self) -> Result<(), NoMemory>
        requires { self.old.end ≡ End.Going }
        ensures { OnOk result (state_of self.new ≡ step Plain (state_of self.old)) }
    {
        let task = mem::replace(&mut self.task, Task::Done(Completion::Normal));
        match task {
            Task::Eval(e) => self.eval(e),
            Task::Exec(statement) => self.exec(statement),
            Task::ExecList(list) => self.exec_list(list),
            Task::ExecBody(list) => self.exec_body(list),
            Task::Given(value) => self.given(value),
            Task::Done(completion) => self.done(completion),
            Task::Call(callee, receiver, args) => self.call(callee.value(), receiver, &args),
        }
    }

    /// Whether the run goes on.
    pub fn is_going(&self) -> bool
        ensures { result ≡ goes self.now.end }
    {
        match self.end {
            End::Going => true,
            End::Ended => false,
            End::Threw(_) => false,
            End::Left => false,
        }
    }

    /// So many steps more; a run that is over stays as it is.
    pub fn run(&mut self, steps: u64) -> Result<(), NoMemory>
        ensures { OnOk result (state_of self.new ≡ run (step Plain) steps (state_of self.old)) }
    {
        for _ in 0..steps {
            if !self.is_going() {
                return Ok(());
            }
            self.step()?;
        }
        Ok(())
    }
}
