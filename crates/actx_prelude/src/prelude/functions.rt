//! The bodies of the prelude's functions.

ghost use Rattle.std.specs.Prelude.{◌≡◌, IfOk, [], codes};
ghost use Rattle.actx_grammar.specs.Tree as t;
ghost use Rattle.actx_ast.specs.View.{expr_view, exprs_view, stmt_view, stmts_view};
ghost use Rattle.actx_rules.specs.Prelude as spec;

use super::shapes::{
    and, and_named, both, call, call_of, constant, ended_by, evaluated, freeze, member_of, named,
    one, only, property, returned, same, set_member, then, three, two, units, when,
};
use actx_ast::tree::{Expr, Property, Stmt};
use actx_data::{NoMemory, Units};
use actx_grammar::operators::{BinaryOp, Form};
use std::alloc::Global;

/// `list.number === number`.
fn is_found(alloc: Global) -> Result<Expr, NoMemory>
    ensures { IfOk result (λ e. expr_view e ≡ t.Binary BinaryOp.Same (spec.member (t.Named spec.the_list) spec.key_number) (t.Named spec.the_number)) }
{
    let own = member_of(alloc, b"list", b"number")?;
    same(alloc, own, named(alloc, b"number")?)
}

/// A function of the prelude on the rest of the list, the number and one name more.
fn on_rest(alloc: Global, function: &[u8], last: &[u8]) -> Result<Expr, NoMemory>
    ensures { IfOk result (λ e. expr_view e ≡ t.Call (t.Named function.now) (spec.three (spec.member (t.Named spec.the_list) spec.key_rest) (t.Named spec.the_number) (t.Named last.now))) }
{
    let rest = member_of(alloc, b"list", b"rest")?;
    let number = named(alloc, b"number")?;
    let last = named(alloc, last)?;
    call_of(alloc, function, three(alloc, rest, number, last)?)
}

fn find_in_list(alloc: Global) -> Result<Vec<Stmt>, NoMemory>
    ensures { IfOk result (λ v. stmts_view v.items ≡ spec.find_in_list) }
{
    let value = member_of(alloc, b"list", b"value")?;
    let found = only(alloc, returned(alloc, value)?)?;
    let test = is_found(alloc)?;
    let rest = on_rest(alloc, b"__find", b"other")?;
    both(alloc, when(alloc, test, found)?, returned(alloc, rest)?)
}

/// The body of `__find`.
pub fn find_body(alloc: Global) -> Result<Vec<Stmt>, NoMemory>
    ensures { IfOk result (λ v. stmts_view v.items ≡ spec.find_body) }
{
    let test = named(alloc, b"list")?;
    let yes = find_in_list(alloc)?;
    let other = named(alloc, b"other")?;
    both(alloc, when(alloc, test, yes)?, returned(alloc, other)?)
}

/// An entry of a mapping.
fn entry(alloc: Global, number: Expr, value: Expr, rest: Expr) -> Result<Expr, NoMemory>
    ensures { IfOk result (λ e. expr_view e ≡ spec.entry_made (expr_view number) (expr_view value) (expr_view rest)) }
{
    let number = property(alloc, b"number", number)?;
    let value = property(alloc, b"value", value)?;
    let rest = property(alloc, b"rest", rest)?;
    freeze(alloc, vec![in alloc; number, value, rest]?)
}

fn with_found(alloc: Global) -> Result<Vec<Stmt>, NoMemory>
    ensures { IfOk result (λ v. stmts_view v.items ≡ spec.with_found) }
{
    let number = named(alloc, b"number")?;
    let value = named(alloc, b"value")?;
    let rest = member_of(alloc, b"list", b"rest")?;
    let made = entry(alloc, number, value, rest)?;
    only(alloc, returned(alloc, made)?)
}

fn with_in_list(alloc: Global) -> Result<Vec<Stmt>, NoMemory>
    ensures { IfOk result (λ v. stmts_view v.items ≡ spec.with_in_list) }
{
    let yes = with_found(alloc)?;
    let test = is_found(alloc)?;
    let number = member_of(alloc, b"list", b"number")?;
    let value = member_of(alloc, b"list", b"value")?;
    let rest = on_rest(alloc, b"__with", b"value")?;
    let made = entry(alloc, number, value, rest)?;
    both(alloc, when(alloc, test, yes)?, returned(alloc, made)?)
}

/// The body of `__with`.
pub fn with_body(alloc: Global) -> Result<Vec<Stmt>, NoMemory>
    ensures { IfOk result (λ v. stmts_view v.items ≡ spec.with_body) }
{
    let test = named(alloc, b"list")?;
    let yes = with_in_list(alloc)?;
    let number = named(alloc, b"number")?;
    let value = named(alloc, b"value")?;
    let made = entry(alloc, number, value, Expr::Undefined)?;
    both(alloc, when(alloc, test, yes)?, returned(alloc, made)?)
}

/// `const state = __states.get(this);`.
fn own_state(alloc: Global) -> Result<Stmt, NoMemory>
    ensures { IfOk result (λ s. stmt_view s ≡ spec.const spec.the_state spec.state_of_this) }
{
    let get = member_of(alloc, b"__states", b"get")?;
    let state = call(alloc, get, one(alloc, Expr::This)?)?;
    constant(alloc, b"state", state)
}

/// The value that is found for the state's number.
fn value_found(alloc: Global) -> Result<Expr, NoMemory>
    ensures { IfOk result (λ e. expr_view e ≡ t.Call (t.Named spec.name_find) (spec.three spec.now_mapping (t.Named spec.the_number) (spec.member (t.Named spec.the_state) spec.key_value))) }
{
    let mapping = member_of(alloc, b"__now", b"mapping")?;
    let number = named(alloc, b"number")?;
    let default = member_of(alloc, b"state", b"value")?;
    call_of(alloc, b"__find", three(alloc, mapping, number, default)?)
}

/// `__actx.note("get", number, value, undefined);`.
fn note(alloc: Global) -> Result<Stmt, NoMemory>
    ensures { IfOk result (λ s. stmt_view s ≡ t.Value (t.Built Form.Note (t.also (t.Text (codes "get")) (spec.three (t.Named spec.the_number) (t.Named spec.the_value) t.Undefined)))) }
{
    let parts = one(alloc, Expr::Text(units(alloc, b"get")?))?;
    let parts = and_named(alloc, parts, b"number")?;
    let parts = and_named(alloc, parts, b"value")?;
    let parts = and(parts, Expr::Undefined)?;
    evaluated(alloc, Expr::Form(Form::Note, parts))
}

/// The body of a variable's `get`.
pub fn get_body(alloc: Global) -> Result<Vec<Stmt>, NoMemory>
    ensures { IfOk result (λ v. stmts_view v.items ≡ spec.get_body) }
{
    let number = member_of(alloc, b"state", b"number")?;
    let list = both(
        alloc,
        own_state(alloc)?,
        constant(alloc, b"number", number)?,
    )?;
    let list = then(list, constant(alloc, b"value", value_found(alloc)?)?)?;
    let list = then(list, note(alloc)?)?;
    then(list, returned(alloc, named(alloc, b"value")?)?)
}

/// `f.call(undefined, a, b, c, d, e, g)`.
fn handed_on(alloc: Global) -> Result<Expr, NoMemory>
    ensures { IfOk result (λ e. expr_view e ≡ t.Built Form.CallWith (t.also (t.Named spec.the_f) (t.also t.Undefined (spec.all_named spec.the_arguments)))) }
{
    let parts = two(alloc, named(alloc, b"f")?, Expr::Undefined)?;
    let parts = and_named(alloc, parts, b"a")?;
    let parts = and_named(alloc, parts, b"b")?;
    let parts = and_named(alloc, parts, b"c")?;
    let parts = and_named(alloc, parts, b"d")?;
    let parts = and_named(alloc, parts, b"e")?;
    let parts = and_named(alloc, parts, b"g")?;
    Ok(Expr::Form(Form::CallWith, parts))
}

/// `__now.mapping = __with(old, state.number, value);`.
fn enter(alloc: Global) -> Result<Stmt, NoMemory>
    ensures { IfOk result (λ s. stmt_view s ≡ t.Value (spec.set_member (t.Named spec.name_now) spec.key_mapping (t.Call (t.Named spec.name_with) (spec.three (t.Named spec.the_old) (spec.member (t.Named spec.the_state) spec.key_number) (t.Named spec.the_value))))) }
{
    let old = named(alloc, b"old")?;
    let number = member_of(alloc, b"state", b"number")?;
    let value = named(alloc, b"value")?;
    let mapping = call_of(alloc, b"__with", three(alloc, old, number, value)?)?;
    set_member(alloc, b"__now", b"mapping", mapping)
}

/// The call in the new mapping, after which the old one is put back.
fn inside(alloc: Global) -> Result<Stmt, NoMemory>
    ensures { IfOk result (λ s. stmt_view s ≡ spec.ended_by spec.run_block spec.run_last) }
{
    let block = only(alloc, returned(alloc, handed_on(alloc)?)?)?;
    let old = named(alloc, b"old")?;
    let last = only(alloc, set_member(alloc, b"__now", b"mapping", old)?)?;
    Ok(ended_by(block, last))
}

/// The body of a variable's `run`.
pub fn run_body(alloc: Global) -> Result<Vec<Stmt>, NoMemory>
    ensures { IfOk result (λ v. stmts_view v.items ≡ spec.run_body) }
{
    let old = member_of(alloc, b"__now", b"mapping")?;
    let list = both(alloc, own_state(alloc)?, constant(alloc, b"old", old)?)?;
    let list = then(list, enter(alloc)?)?;
    then(list, inside(alloc)?)
}

/// `const number = __now.count + 1;`.
fn next_number(alloc: Global) -> Result<Stmt, NoMemory>
    ensures { IfOk result (λ s. stmt_view s ≡ spec.const spec.the_number (t.Binary BinaryOp.Add (spec.member (t.Named spec.name_now) spec.key_count) (t.Num 1))) }
{
    let left = Box::new(alloc, member_of(alloc, b"__now", b"count")?)?;
    let right = Box::new(alloc, Expr::Num(1))?;
    constant(alloc, b"number", Expr::Binary(BinaryOp::Add, left, right))
}

/// A new variable: its methods and its name.
fn new_variable(alloc: Global) -> Result<Stmt, NoMemory>
    ensures { IfOk result (λ s. stmt_view s ≡ spec.const spec.the_variable (spec.freeze (spec.keyed (codes "get") (t.Named spec.name_get) (spec.keyed (codes "run") (t.Named spec.name_run) (spec.keyed (codes "name") (t.Named spec.the_name) t.no_properties))))) }
{
    let get = property(alloc, b"get", named(alloc, b"__get")?)?;
    let run = property(alloc, b"run", named(alloc, b"__run")?)?;
    let name = property(alloc, b"name", named(alloc, b"name")?)?;
    let made = freeze(alloc, vec![in alloc; get, run, name]?)?;
    constant(alloc, b"variable", made)
}

/// The state of a new variable: its number and its value.
fn new_state(alloc: Global) -> Result<Expr, NoMemory>
    ensures { IfOk result (λ e. expr_view e ≡ spec.freeze (spec.keyed spec.key_number (t.Named spec.the_number) (spec.keyed spec.key_value (t.Named spec.the_value) t.no_properties))) }
{
    let number = property(alloc, b"number", named(alloc, b"number")?)?;
    let value = property(alloc, b"value", named(alloc, b"value")?)?;
    Ok(freeze(alloc, vec![in alloc; number, value]?)?)
}

/// The state of a new variable is kept for it.
fn keep_state(alloc: Global) -> Result<Stmt, NoMemory>
    ensures { IfOk result (λ s. stmt_view s ≡ t.Value (t.Call (spec.member (t.Named spec.name_states) (codes "set")) (spec.two (t.Named spec.the_variable) (spec.freeze (spec.keyed spec.key_number (t.Named spec.the_number) (spec.keyed spec.key_value (t.Named spec.the_value) t.no_properties)))))) }
{
    let state = new_state(alloc)?;
    let set = member_of(alloc, b"__states", b"set")?;
    let variable = named(alloc, b"variable")?;
    evaluated(alloc, call(alloc, set, two(alloc, variable, state)?)?)
}

/// The body of `__make`.
pub fn make_body(alloc: Global) -> Result<Vec<Stmt>, NoMemory>
    ensures { IfOk result (λ v. stmts_view v.items ≡ spec.make_body) }
{
    let list = both(alloc, next_number(alloc)?, new_variable(alloc)?)?;
    let number = named(alloc, b"number")?;
    let list = then(list, set_member(alloc, b"__now", b"count", number)?)?;
    let list = then(list, keep_state(alloc)?)?;
    then(list, returned(alloc, named(alloc, b"variable")?)?)
}

/// `__make(name, value)`.
fn make_call(alloc: Global, name: Expr, value: Expr) -> Result<Expr, NoMemory>
    ensures { IfOk result (λ e. expr_view e ≡ t.Call (t.Named spec.name_make) (spec.two (expr_view name) (expr_view value))) }
{
    let args = two(alloc, name, value)?;
    call_of(alloc, b"__make", args)
}

/// `return __make(name, value);`.
fn made(alloc: Global, name: Expr, value: Expr) -> Result<Stmt, NoMemory>
    ensures { IfOk result (λ s. stmt_view s ≡ spec.returns (t.Call (t.Named spec.name_make) (spec.two (expr_view name) (expr_view value)))) }
{
    returned(alloc, make_call(alloc, name, value)?)
}

/// The empty text.
fn no_text(alloc: Global) -> Result<Expr, NoMemory>
    ensures { IfOk result (λ e. expr_view e ≡ t.Text []) }
{
    Ok(Expr::Text(units(alloc, b"")?))
}

/// A variable whose options have no name.
fn unnamed(alloc: Global) -> Result<Stmt, NoMemory>
    ensures { IfOk result (λ s. stmt_view s ≡ spec.when (t.Binary BinaryOp.Same (t.Named spec.the_name) t.Undefined) spec.variable_unnamed) }
{
    let name = named(alloc, b"name")?;
    let test = same(alloc, name, Expr::Undefined)?;
    let value = named(alloc, b"value")?;
    let yes = only(alloc, made(alloc, no_text(alloc)?, value)?)?;
    when(alloc, test, yes)
}

/// A variable with options: the name has a length, or is none.
fn variable_options(alloc: Global) -> Result<Vec<Stmt>, NoMemory>
    ensures { IfOk result (λ v. stmts_view v.items ≡ spec.variable_options) }
{
    let name = constant(alloc, b"name", member_of(alloc, b"options", b"name")?)?;
    let value = member_of(alloc, b"options", b"defaultValue")?;
    let list = both(alloc, name, constant(alloc, b"value", value)?)?;
    let list = then(list, unnamed(alloc)?)?;
    let length = member_of(alloc, b"name", b"length")?;
    let list = then(list, evaluated(alloc, length)?)?;
    let name = named(alloc, b"name")?;
    then(list, made(alloc, name, named(alloc, b"value")?)?)
}

/// The body of `__variable`.
pub fn variable_body(alloc: Global) -> Result<Vec<Stmt>, NoMemory>
    ensures { IfOk result (λ v. stmts_view v.items ≡ spec.variable_body) }
{
    let test = named(alloc, b"options")?;
    let yes = variable_options(alloc)?;
    let alone = made(alloc, no_text(alloc)?, Expr::Undefined)?;
    both(alloc, when(alloc, test, yes)?, alone)
}
