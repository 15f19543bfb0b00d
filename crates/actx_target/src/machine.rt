//! The machine that runs a plain program, one row of the step table a step.

ghost use Rattle.std.specs.Prelude.{◌≡◌, [], IfOk, reverse};
ghost use Rattle.actx_grammar.specs.declared.side.Side.TheVariants.{Plain};
ghost use Rattle.actx_ast.specs.View.{stmts_view};
ghost use Rattle.actx_rules.specs.Machine.{start, first_heap};
ghost use Rattle.actx_target.specs.MachineView.{state_of};
ghost use Rattle.actx_target.specs.ThingView.{things_of};

mod calls;
mod expressions;
mod forms;
mod notes;
mod operations;
mod statements;
mod step;

use crate::chain::Chain;
use crate::scope::Scope;
use crate::shown::ShownThings;
use crate::sound::Sound;
use crate::thing::{Method, Thing};
use actx_ast::tree::{ConstItem, Expr, Property, Stmt};
use actx_data::{End, Event, NoMemory, TraceEvent};
use actx_grammar::name::Name;
use actx_grammar::operators::BinaryOp;
pub use expressions::count;
use std::alloc::Global;

/// How the work on a part ended.
#[derive(Drop)]
pub enum Completion {
    Normal,
    Return(Sound),
    Throw(Sound),
}

/// What is to be done in one step.
#[derive(Drop)]
pub enum Task<'a> {
    Eval(&'a Expr),
    Exec(&'a Stmt),
    /// A list with a scope of its own, and a function's body, whose scope the call has made.
    ExecList(&'a [Stmt]),
    ExecBody(&'a [Stmt]),
    Given(Sound),
    Done(Completion),
    /// A call of the first value, with the second as the receiver.
    Call(Sound, Sound, Vec<Sound>),
}

/// The built-in forms of a plain program.
#[derive(Clone, Copy)]
pub enum PlainForm {
    Log,
    NewWeakMap,
    Freeze,
    CallWith,
    Note,
}

/// What an expression does with the values of its children.
#[derive(Drop)]
pub enum Op<'a> {
    Operator(BinaryOp),
    BuiltIn(PlainForm),
    /// A property is read, and set.
    GetKey(&'a Name),
    SetKey(&'a Name),
    /// An object with the keys of these properties.
    MakeObject(&'a [Property]),
    /// A call with this receiver.
    CallOf(Sound),
}

/// The children of an expression that are missing.
#[derive(Clone, Copy)]
pub enum Parts<'a> {
    /// Both operands.
    Both(&'a Expr, &'a Expr),
    /// The right operand, or the only one.
    Right(&'a Expr),
    /// The function that is called and its arguments.
    Callee(&'a Expr, &'a [Expr]),
    /// The arguments or parts from some one on.
    List(&'a [Expr]),
    /// The values of the properties from some one on.
    Values(&'a [Property]),
}

/// An expression that waits: its children's values so far and the children that are missing.
#[derive(Drop)]
pub struct Waiting<'a> {
    pub op: Op<'a>,
    pub values: Vec<Sound>,
    pub rest: Parts<'a>,
}

/// What waits for a value or a completion. A run may have millions of frames, so the largest kind stands in a box.
#[derive(Drop)]
pub enum Frame<'a> {
    Pending(Box<Waiting<'a>>),
    /// A call of a property with these arguments: its base is missing, or the property itself.
    Base(&'a Name, &'a [Expr]),
    Callee(Sound, &'a [Expr]),
    /// A const: the name that waits for its value, and the items behind it.
    Const(&'a Name, &'a [ConstItem]),
    /// A statement that drops its expression's value, and one that returns it.
    Value,
    Return,
    /// What is done where a test holds, and where it doesn't.
    If(&'a Stmt, &'a Option<Box<Stmt>>),
    /// The block of a try, with its last part and the scopes round it; and the last part, with the completion that is kept.
    Try(&'a [Stmt], Chain),
    Last(Completion),
    /// A list: the statements behind the one under way, and the scopes that come back.
    List(&'a [Stmt], Chain),
    /// A function's body: the caller's scopes and receiver.
    Call(Chain, Sound),
}

/// The state of a run.
#[derive(Drop)]
pub struct Target<'a> {
    pub alloc: Global,
    pub task: Task<'a>,
    /// The frame on top is the last.
    pub frames: Vec<Frame<'a>>,
    /// The open scopes, and the value of `this`.
    pub scope: Chain,
    pub receiver: Sound,
    pub scopes: Vec<Scope>,
    pub heap: Vec<Thing<'a>>,
    pub shown: ShownThings,
    /// The host events that are left, the next one last.
    pub events: Vec<Event>,
    pub trace: Vec<TraceEvent>,
    pub end: End,
}

/// The heap before the first step: the methods of every WeakMap.
fn first_heap<'a>(alloc: Global) -> Result<Vec<Thing<'a>>, NoMemory>
    ensures { IfOk result (λ heap. things_of heap.items ≡ first_heap Plain) }
{
    let mut heap = Vec::new(alloc);
    heap.push(Thing::Native(Method::WeakMapGet))?;
    heap.push(Thing::Native(Method::WeakMapSet))?;
    Ok(heap)
}

impl<'a> Target<'a> {
    /// The state before the first step: the program's list is to be executed.
    pub fn new(alloc: Global, body: &'a [Stmt], events: Vec<Event>) -> Result<Target<'a>, NoMemory>
        ensures { IfOk result (λ t. state_of t ≡ start Plain (stmts_view body.now) events.items) }
    {
        let mut left = events;
        left.reverse();
        let heap = first_heap(alloc)?;
        Ok(Target {
            alloc,
            task: Task::ExecList(body),
            frames: Vec::new(alloc),
            scope: Chain::Outermost,
            receiver: Sound::undefined(),
            scopes: Vec::new(alloc),
            heap,
            shown: ShownThings::new(alloc),
            events: left,
            trace: Vec::new(alloc),
            end: End::Going,
        })
    }
}
