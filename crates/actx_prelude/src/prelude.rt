//! The prelude that stands before every emitted program, as a tree; its text and what each function does stand in specs.

ghost use Rattle.std.specs.Prelude.{◌≡◌, IfOk, [], ◌∷◌, codes};
ghost use Rattle.actx_grammar.specs.Tree as t;
ghost use Rattle.actx_ast.specs.View.{expr_view, exprs_view, stmt_view, stmts_view};
ghost use Rattle.actx_rules.specs.Prelude as spec;

mod functions;
mod shapes;

use actx_ast::tree::{Expr, Function, Stmt};
use actx_data::{NoMemory, Units};
use actx_grammar::name::Name;
use actx_grammar::operators::{Form, FunctionKind};
use functions::{find_body, get_body, make_body, run_body, variable_body, with_body};
use shapes::{and_name, both, constant, evaluated, property, then, units};
use std::alloc::Global;

/// A function of these parameters.
fn function(
    alloc: Global,
    kind: FunctionKind,
    params: Vec<Name>,
    body: Vec<Stmt>,
) -> Result<Expr, NoMemory>
    ensures { IfOk result (λ e. expr_view e ≡ spec.function_of kind params.items (stmts_view body.items)) }
{
    let function = Function {
        name: None,
        kind,
        params,
        body,
    };
    Ok(Expr::Function(Box::new(alloc, function)?))
}

/// Two names.
fn names(alloc: Global, first: &[u8], second: &[u8]) -> Result<Vec<Name>, NoMemory>
    ensures { IfOk result (λ v. v.items ≡ first.now ∷ second.now ∷ []) }
{
    let list = and_name(alloc, Vec::new(alloc), first)?;
    and_name(alloc, list, second)
}

fn find_function(alloc: Global) -> Result<Expr, NoMemory>
    ensures { IfOk result (λ e. expr_view e ≡ spec.find_function) }
{
    let params = names(alloc, b"list", b"number")?;
    let params = and_name(alloc, params, b"other")?;
    function(alloc, FunctionKind::Arrow, params, find_body(alloc)?)
}

fn with_function(alloc: Global) -> Result<Expr, NoMemory>
    ensures { IfOk result (λ e. expr_view e ≡ spec.with_function) }
{
    let params = names(alloc, b"list", b"number")?;
    let params = and_name(alloc, params, b"value")?;
    function(alloc, FunctionKind::Arrow, params, with_body(alloc)?)
}

fn get_function(alloc: Global) -> Result<Expr, NoMemory>
    ensures { IfOk result (λ e. expr_view e ≡ spec.get_function) }
{
    function(
        alloc,
        FunctionKind::Normal,
        Vec::new(alloc),
        get_body(alloc)?,
    )
}

fn run_function(alloc: Global) -> Result<Expr, NoMemory>
    ensures { IfOk result (λ e. expr_view e ≡ spec.run_function) }
{
    let params = names(alloc, b"value", b"f")?;
    let params = and_name(alloc, params, b"a")?;
    let params = and_name(alloc, params, b"b")?;
    let params = and_name(alloc, params, b"c")?;
    let params = and_name(alloc, params, b"d")?;
    let params = and_name(alloc, params, b"e")?;
    let params = and_name(alloc, params, b"g")?;
    function(alloc, FunctionKind::Normal, params, run_body(alloc)?)
}

fn make_function(alloc: Global) -> Result<Expr, NoMemory>
    ensures { IfOk result (λ e. expr_view e ≡ spec.make_function) }
{
    let params = names(alloc, b"name", b"value")?;
    function(alloc, FunctionKind::Arrow, params, make_body(alloc)?)
}

fn variable_function(alloc: Global) -> Result<Expr, NoMemory>
    ensures { IfOk result (λ e. expr_view e ≡ spec.variable_function) }
{
    let params = and_name(alloc, Vec::new(alloc), b"options")?;
    function(alloc, FunctionKind::Arrow, params, variable_body(alloc)?)
}

/// The directive that stands before every emitted program (ECMA-262, 11.2.2).
fn use_strict(alloc: Global) -> Result<Stmt, NoMemory>
    ensures { IfOk result (λ s. stmt_view s ≡ t.Value (t.Text (codes "use strict"))) }
{
    evaluated(alloc, Expr::Text(units(alloc, b"use strict")?))
}

/// The states of variables: a WeakMap.
fn states(alloc: Global) -> Result<Stmt, NoMemory>
    ensures { IfOk result (λ s. stmt_view s ≡ spec.const spec.name_states (t.Built Form.NewWeakMap t.none)) }
{
    constant(
        alloc,
        b"__states",
        Expr::Form(Form::NewWeakMap, Vec::new(alloc)),
    )
}

/// The record of the current mapping and of how many variables there are.
fn now(alloc: Global) -> Result<Stmt, NoMemory>
    ensures { IfOk result (λ s. stmt_view s ≡ spec.const spec.name_now (t.Object (spec.keyed spec.key_mapping t.Undefined (spec.keyed spec.key_count (t.Num 0) t.no_properties)))) }
{
    let mapping = property(alloc, b"mapping", Expr::Undefined)?;
    let count = property(alloc, b"count", Expr::Num(0))?;
    constant(
        alloc,
        b"__now",
        Expr::Object(vec![in alloc; mapping, count]?),
    )
}

/// What the functions use: the states and the record of the current mapping.
fn begun(alloc: Global) -> Result<Vec<Stmt>, NoMemory>
    ensures { IfOk result (λ v. stmts_view v.items ≡ t.next (t.Value (t.Text (codes "use strict"))) (t.next (spec.const spec.name_states (t.Built Form.NewWeakMap t.none)) (t.next (spec.const spec.name_now (t.Object (spec.keyed spec.key_mapping t.Undefined (spec.keyed spec.key_count (t.Num 0) t.no_properties)))) t.end))) }
{
    let list = both(alloc, use_strict(alloc)?, states(alloc)?)?;
    then(list, now(alloc)?)
}

/// The prelude: its list of statements.
pub fn prelude(alloc: Global) -> Result<Vec<Stmt>, NoMemory>
    ensures { IfOk result (λ v. stmts_view v.items ≡ spec.prelude) }
{
    let list = begun(alloc)?;
    let list = then(list, constant(alloc, b"__find", find_function(alloc)?)?)?;
    let list = then(list, constant(alloc, b"__with", with_function(alloc)?)?)?;
    let list = then(list, constant(alloc, b"__get", get_function(alloc)?)?)?;
    let list = then(list, constant(alloc, b"__run", run_function(alloc)?)?)?;
    let list = then(list, constant(alloc, b"__make", make_function(alloc)?)?)?;
    then(
        list,
        constant(alloc, b"__variable", variable_function(alloc)?)?,
    )
}
