//! The rows of statements: lists with their scopes, constants, and what each kind of statement does first.

ghost use Rattle.std.specs.Prelude.{◌≡◌, [], IfOk, OnOk};
ghost use Rattle.actx_data.specs.declared.end.End.TheVariants.{Going, Left};
ghost use Rattle.actx_grammar.specs.Tree.{next, end, Return};
ghost use Rattle.std.specs.Prelude.{option_map, slice_set};
ghost use Rattle.actx_ast.specs.View.{expr_view, stmt_view, stmts_view, consts_view, maybe_expr};
ghost use Rattle.actx_target.specs.Chains.{chain_of};
ghost use Rattle.actx_rules.specs.State.{set_in, set_cell, cells_at, with_items, with_names};
ghost use Rattle.actx_rules.specs.Machine.{takes, begin_item, exec, exec_list, exec_body, next_statement};
ghost use Rattle.actx_target.specs.MachineView.{state_of, frames_in, store_in};

use super::{Completion, Frame, Target, Task};
use crate::chain::{Chain, again, inside};
use crate::scope::Scope;
use crate::sound::Sound;
use actx_ast::tree::{ConstItem, Expr, Stmt};
use actx_data::{End, NoMemory};
use actx_grammar::name::Name;
use std::alloc::Global;
use std::mem;

/// Declares the names of items.
fn declare_items(alloc: Global, scope: &mut Scope, items: &[ConstItem]) -> Result<(), NoMemory>
    ensures { OnOk result (scope.new ≡ with_items (consts_view items.now) scope.old) }
{
    for item in items {
        scope.declare(alloc, &item.name)?;
    }
    Ok(())
}

/// Declares the names of a statement.
fn declare_statement(alloc: Global, scope: &mut Scope, statement: &Stmt) -> Result<(), NoMemory>
    ensures { OnOk result (scope.new ≡ with_names (next (stmt_view statement.now) end) scope.old) }
{
    match statement {
        Stmt::Const(items) => declare_items(alloc, scope, items),
        _ => Ok(()),
    }
}

/// Declares the names of a list of statements.
pub fn declare_list(alloc: Global, scope: &mut Scope, list: &[Stmt]) -> Result<(), NoMemory>
    ensures { OnOk result (scope.new ≡ with_names (stmts_view list.now) scope.old) }
{
    for statement in list {
        declare_statement(alloc, scope, statement)?;
    }
    Ok(())
}

/// Gives the name its value in the scope with this number.
fn set_at(
    alloc: Global,
    scopes: &mut Vec<Scope>,
    number: usize,
    name: &Name,
    value: Sound,
) -> Result<(), NoMemory>
    ensures { OnOk result (scopes.new.items ≡ slice_set scopes.old.items number (set_cell name.now value (cells_at scopes.old.items number))) }
{
    match scopes.get_mut(number) {
        None => Ok(()),
        Some(scope) => scope.set(alloc, name, value),
    }
}

/// Gives the name its value in the innermost scope.
pub fn set_in(
    alloc: Global,
    scopes: &mut Vec<Scope>,
    open: &Chain,
    name: &Name,
    value: Sound,
) -> Result<(), NoMemory>
    ensures { OnOk result (scopes.new.items ≡ set_in scopes.old.items (chain_of «open».now) name.now value) }
{
    match open {
        Chain::Outermost => Ok(()),
        Chain::Inside(link) => {
            let here = &**link;
            set_at(alloc, scopes, here.number, name, value)
        }
    }
}

impl<'a> Target<'a> {
    /// The next item of a const, or its end.
    pub fn begin_item(&mut self, items: &'a [ConstItem]) -> Result<(), NoMemory>
        requires { self.old.end ≡ End.Going }
        ensures { OnOk result (state_of self.new ≡ takes (begin_item (consts_view items.now) (frames_in self.old) (store_in self.old)) self.old.trace.items) }
    {
        match items {
            [] => self.task = Task::Done(Completion::Normal),
            [first, rest @ ..] => {
                self.frames.push(Frame::Const(&first.name, rest))?;
                self.task = Task::Eval(&first.value);
            }
        }
        Ok(())
    }

    /// A return, of `undefined` where it has no expression.
    fn exec_return(&mut self, value: &'a Option<Box<Expr>>) -> Result<(), NoMemory>
        requires { self.old.end ≡ End.Going }
        ensures { OnOk result (state_of self.new ≡ takes (exec (Return (maybe_expr (option_map (λ b. expr_view b.value) value.now))) (frames_in self.old) (store_in self.old)) self.old.trace.items) }
    {
        match value {
            None => self.task = Task::Done(Completion::Return(Sound::undefined())),
            Some(e) => {
                self.frames.push(Frame::Return)?;
                self.task = Task::Eval(e);
            }
        }
        Ok(())
    }

    /// A statement is executed.
    pub fn exec(&mut self, statement: &'a Stmt) -> Result<(), NoMemory>
        requires { self.old.end ≡ End.Going }
        ensures { OnOk result (state_of self.new ≡ takes (exec (stmt_view statement.now) (frames_in self.old) (store_in self.old)) self.old.trace.items) }
    {
        match statement {
            Stmt::Const(items) => self.begin_item(items),
            Stmt::Value(e) => {
                self.frames.push(Frame::Value)?;
                self.task = Task::Eval(e);
                Ok(())
            }
            Stmt::Return(value) => self.exec_return(value),
            Stmt::Block(list) => self.exec_list(list),
            Stmt::If(test, branch, other) => {
                self.frames.push(Frame::If(branch, other))?;
                self.task = Task::Eval(test);
                Ok(())
            }
            Stmt::Try {
                block,
                catcher: None,
                last: Some(last),
            } => {
                let back = again(&self.scope)?;
                self.frames.push(Frame::Try(last, back))?;
                self.task = Task::ExecList(block);
                Ok(())
            }
            _ => {
                self.leaves();
                Ok(())
            }
        }
    }

    /// A list is executed, in a scope with its names; an empty one has no frame and no scope.
    pub fn exec_list(&mut self, list: &'a [Stmt]) -> Result<(), NoMemory>
        requires { self.old.end ≡ End.Going }
        ensures { OnOk result (state_of self.new ≡ takes (exec_list (stmts_view list.now) (frames_in self.old) (store_in self.old)) self.old.trace.items) }
    {
        let [first, rest @ ..] = list else {
            self.task = Task::Done(Completion::Normal);
            return Ok(());
        };
        let mut cells = Scope::new(self.alloc);
        declare_list(self.alloc, &mut cells, list)?;
        let outer = again(&self.scope)?;
        let inner = inside(self.alloc, self.scopes.len(), outer)?;
        self.scopes.push(cells)?;
        let back = mem::replace(&mut self.scope, inner);
        self.frames.push(Frame::List(rest, back))?;
        self.task = Task::Exec(first);
        Ok(())
    }

    /// A function's body is executed, in the scope that its call has made.
    pub fn exec_body(&mut self, list: &'a [Stmt]) -> Result<(), NoMemory>
        requires { self.old.end ≡ End.Going }
        ensures { OnOk result (state_of self.new ≡ takes (exec_body (stmts_view list.now) (frames_in self.old) (store_in self.old)) self.old.trace.items) }
    {
        match list {
            [] => self.task = Task::Done(Completion::Normal),
            [first, rest @ ..] => {
                let back = again(&self.scope)?;
                self.frames.push(Frame::List(rest, back))?;
                self.task = Task::Exec(first);
            }
        }
        Ok(())
    }

    /// The next statement of a list, or its end, where the scopes round it come back.
    pub fn next_statement(&mut self, list: &'a [Stmt], back: Chain) -> Result<(), NoMemory>
        requires { self.old.end ≡ End.Going }
        ensures { OnOk result (state_of self.new ≡ takes (next_statement (stmts_view list.now) (chain_of back) (frames_in self.old) (store_in self.old)) self.old.trace.items) }
    {
        match list {
            [] => {
                self.scope = back;
                self.task = Task::Done(Completion::Normal);
            }
            [first, rest @ ..] => {
                self.frames.push(Frame::List(rest, back))?;
                self.task = Task::Exec(first);
            }
        }
        Ok(())
    }
}
