//! Trees of operands that end, as the sum of `1 + 2`.

ghost use Rattle.std.specs.Prelude.{◌≡◌, IfOk, None, max, option_map};
ghost use Rattle.actx_grammar.specs.Tree.{Function as Functional, Await as Awaited, Binary, Call, Change, Choice, Logic, Member, Return, SetMember, SetName, Unary, Yield as Yielded, YieldAll, code, end, next, some_expr};
ghost use Rattle.actx_ast.specs.View.{expr_view, exprs_view, function_view, key_view, maybe_expr, stmt_view, stmts_view};

use super::state::Operand;
use actx_ast::tree::{Expr, Function, Key, Stmt};
use actx_data::NoMemory;
use actx_grammar::name::Name;
use actx_grammar::operators::{BinaryOp, FunctionKind, LogicOp, UnaryOp};
use std::alloc::Global;
use std::cmp::max;

/// A prefix operator on an operand.
pub fn unary(alloc: Global, op: UnaryOp, held: Operand) -> Result<Operand, NoMemory>
    ensures { IfOk result (λ o. (expr_view o.expr.value ≡ Unary op (expr_view held.expr.value)) × (o.reach ≡ held.reach)) }
{
    let Operand { expr, reach } = held;
    let expr = Box::new(alloc, Expr::Unary(op, expr))?;
    Ok(Operand { expr, reach })
}

/// `await e`
pub fn awaited(alloc: Global, held: Operand) -> Result<Operand, NoMemory>
    ensures { IfOk result (λ o. (expr_view o.expr.value ≡ Awaited (expr_view held.expr.value)) × (o.reach ≡ held.reach)) }
{
    let Operand { expr, reach } = held;
    let expr = Box::new(alloc, Expr::Await(expr))?;
    Ok(Operand { expr, reach })
}

/// An operator between two operands.
pub fn binary(
    alloc: Global,
    op: BinaryOp,
    left: Operand,
    right: Operand,
) -> Result<Operand, NoMemory>
    ensures { IfOk result (λ o. (expr_view o.expr.value ≡ Binary op (expr_view left.expr.value) (expr_view right.expr.value)) × (o.reach ≡ max left.reach right.reach)) }
{
    let reach = max(left.reach, right.reach);
    let expr = Box::new(alloc, Expr::Binary(op, left.expr, right.expr))?;
    Ok(Operand { expr, reach })
}

/// `&&`, `||` or `??` between two operands.
pub fn logic(alloc: Global, op: LogicOp, left: Operand, right: Operand) -> Result<Operand, NoMemory>
    ensures { IfOk result (λ o. (expr_view o.expr.value ≡ Logic op (expr_view left.expr.value) (expr_view right.expr.value)) × (o.reach ≡ max left.reach right.reach)) }
{
    let reach = max(left.reach, right.reach);
    let expr = Box::new(alloc, Expr::Logic(op, left.expr, right.expr))?;
    Ok(Operand { expr, reach })
}

/// `test ? yes : no`
pub fn choice(
    alloc: Global,
    test: Box<Expr>,
    yes: Operand,
    no: Operand,
) -> Result<Operand, NoMemory>
    ensures { IfOk result (λ o. (expr_view o.expr.value ≡ Choice (expr_view test.value) (expr_view yes.expr.value) (expr_view no.expr.value)) × (o.reach ≡ max yes.reach no.reach)) }
{
    let reach = max(yes.reach, no.reach);
    let expr = Box::new(alloc, Expr::Choice(test, yes.expr, no.expr))?;
    Ok(Operand { expr, reach })
}

/// `a = e`
pub fn set_name(alloc: Global, name: Name, value: Operand) -> Result<Operand, NoMemory>
    ensures { IfOk result (λ o. (expr_view o.expr.value ≡ SetName name (expr_view value.expr.value)) × (o.reach ≡ value.reach)) }
{
    let Operand { expr, reach } = value;
    let expr = Box::new(alloc, Expr::SetName(name, expr))?;
    Ok(Operand { expr, reach })
}

/// `a.b = e` or `a[b] = e`
pub fn set_member(
    alloc: Global,
    base: Box<Expr>,
    key: Key,
    reach: usize,
    value: Operand,
) -> Result<Operand, NoMemory>
    ensures { IfOk result (λ o. (expr_view o.expr.value ≡ SetMember (expr_view base.value) (key_view key) (expr_view value.expr.value)) × (o.reach ≡ max reach value.reach)) }
{
    let reach = max(reach, value.reach);
    let expr = Box::new(alloc, Expr::SetMember(base, key, value.expr))?;
    Ok(Operand { expr, reach })
}

/// `a += e` or its like
pub fn change(alloc: Global, name: Name, op: BinaryOp, value: Operand) -> Result<Operand, NoMemory>
    ensures { IfOk result (λ o. (expr_view o.expr.value ≡ Change name op (expr_view value.expr.value)) × (o.reach ≡ value.reach)) }
{
    let Operand { expr, reach } = value;
    let expr = Box::new(alloc, Expr::Change(name, op, expr))?;
    Ok(Operand { expr, reach })
}

fn some(expr: Box<Expr>) -> Option<Box<Expr>>
    ensures { maybe_expr (option_map (λ b. expr_view b.value) result) ≡ some_expr (expr_view expr.value) }
{
    Some(expr)
}

/// `yield e`
pub fn yielded(alloc: Global, held: Operand) -> Result<Operand, NoMemory>
    ensures { IfOk result (λ o. (expr_view o.expr.value ≡ Yielded (some_expr (expr_view held.expr.value))) × (o.reach ≡ held.reach)) }
{
    let Operand { expr, reach } = held;
    let expr = Box::new(alloc, Expr::Yield(some(expr)))?;
    Ok(Operand { expr, reach })
}

/// `yield* e`
pub fn yielded_all(alloc: Global, held: Operand) -> Result<Operand, NoMemory>
    ensures { IfOk result (λ o. (expr_view o.expr.value ≡ YieldAll (expr_view held.expr.value)) × (o.reach ≡ held.reach)) }
{
    let Operand { expr, reach } = held;
    let expr = Box::new(alloc, Expr::YieldAll(expr))?;
    Ok(Operand { expr, reach })
}

/// A function without its place.
pub fn code(name: Option<Name>, kind: FunctionKind, params: Vec<Name>, body: Vec<Stmt>) -> Function
    ensures { function_view result ≡ code name kind params.items (stmts_view body.items) }
{
    Function {
        name,
        kind,
        params,
        body,
    }
}

/// A function that is an expression.
pub fn function(
    alloc: Global,
    name: Option<Name>,
    kind: FunctionKind,
    params: Vec<Name>,
    body: Vec<Stmt>,
) -> Result<Box<Expr>, NoMemory>
    ensures { IfOk result (λ e. expr_view e.value ≡ Functional (code name kind params.items (stmts_view body.items))) }
{
    let function = Box::new(alloc, code(name, kind, params, body))?;
    Ok(Box::new(alloc, Expr::Function(function))?)
}

/// A statement that returns a value.
pub fn returning(value: Box<Expr>) -> Stmt
    ensures { stmt_view result ≡ Return (some_expr (expr_view value.value)) }
{
    Stmt::Return(some(value))
}

/// The list of one statement that returns a value.
fn returns(alloc: Global, value: Box<Expr>) -> Result<Vec<Stmt>, NoMemory>
    ensures { IfOk result (λ ss. stmts_view ss.items ≡ next (Return (some_expr (expr_view value.value))) end) }
{
    let mut body = Vec::new(alloc);
    body.push(returning(value))?;
    Ok(body)
}

/// An arrow whose body is an expression.
pub fn arrow(
    alloc: Global,
    kind: FunctionKind,
    params: Vec<Name>,
    value: Operand,
) -> Result<Operand, NoMemory>
    ensures { IfOk result (λ o. (expr_view o.expr.value ≡ Functional (code None kind params.items (next (Return (some_expr (expr_view value.expr.value))) end))) × (o.reach ≡ value.reach)) }
{
    let Operand { expr, reach } = value;
    let body = returns(alloc, expr)?;
    let expr = function(alloc, None, kind, params, body)?;
    Ok(Operand { expr, reach })
}

/// A member that is read.
pub fn member(alloc: Global, base: Box<Expr>, key: Key) -> Result<Box<Expr>, NoMemory>
    ensures { IfOk result (λ e. expr_view e.value ≡ Member (expr_view base.value) (key_view key)) }
{
    Ok(Box::new(alloc, Expr::Member(base, key))?)
}

/// A call.
pub fn call(alloc: Global, callee: Box<Expr>, args: Vec<Expr>) -> Result<Box<Expr>, NoMemory>
    ensures { IfOk result (λ e. expr_view e.value ≡ Call (expr_view callee.value) (exprs_view args.items)) }
{
    Ok(Box::new(alloc, Expr::Call(callee, args))?)
}
