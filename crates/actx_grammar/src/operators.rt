//! Operators, built-in forms and kinds of functions.

use actx_data::ErrorName;

/// The operators of one operand (ECMA-262, 13.5).
#[derive(Clone, Copy, Debug, Drop, PartialEq, Eq)]
pub enum UnaryOp {
    /// `!`
    Not,
    /// `-`
    Minus,
    Typeof,
    Void,
}

/// The operators of two operands that evaluate both (ECMA-262, 13.7, 13.8, 13.10 and 13.11).
#[derive(Clone, Copy, Debug, Drop, PartialEq, Eq)]
pub enum BinaryOp {
    Add,
    Sub,
    Mul,
    /// `===`
    Same,
    /// `!==`
    NotSame,
    /// `<`
    Less,
    /// `<=`
    LessSame,
    /// `>`
    More,
    /// `>=`
    MoreSame,
}

/// The operators that may leave their right operand aside (ECMA-262, 13.13).
#[derive(Clone, Copy, Debug, Drop, PartialEq, Eq)]
pub enum LogicOp {
    /// `&&`
    And,
    /// `||`
    Or,
    /// `??`
    Coalesce,
}

/// What a coroutine is: a generator or an async run.
#[derive(Clone, Copy, Debug, Drop, PartialEq, Eq)]
pub enum CoroutineKind {
    Generator,
    Async,
}

/// The built-in forms, and behind them the inner ones, which passes make and no text spells.
#[derive(Clone, Copy, Debug, Drop, PartialEq, Eq)]
pub enum Form {
    /// `console.log`
    Log,
    /// `new Promise`
    NewPromise,
    /// `Promise.resolve`
    PromiseResolve,
    /// `Promise.reject`
    PromiseReject,
    /// `new AsyncContext.Variable`
    NewVariable,
    /// `new AsyncContext.Snapshot`
    NewSnapshot,
    /// `AsyncContext.Snapshot.wrap`
    Wrap,
    /// `new Error` and its like
    NewError(ErrorName),
    /// `queueMicrotask`
    QueueMicrotask,
    /// `Host.on`
    HostOn,
    /// `Trace.span`
    Span,
    /// `Trace.current`
    CurrentSpan,
    /// `new WeakMap`
    NewWeakMap,
    /// `Object.freeze`
    Freeze,
    /// `f.call`, whose first part is the function
    CallWith,
    /// `__actx.note`
    Note,
    /// `__actx.on`
    On,
    /// `__actx.leave`
    Leave,
    /// A value that is iterated over.
    Iterate,
    /// A new cell without a value.
    NewCell,
    ReadCell,
    SetCell,
    /// A coroutine whose body is a step function.
    Coroutine(CoroutineKind),
}

/// The kinds of functions (ECMA-262, 15).
#[derive(Clone, Copy, Debug, Drop, PartialEq, Eq)]
pub enum FunctionKind {
    Normal,
    Arrow,
    Generator,
    Async,
    AsyncArrow,
    AsyncGenerator,
}
