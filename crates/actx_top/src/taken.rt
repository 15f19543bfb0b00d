//! Which forms of a program run today: a walk over its nodes that stops at the first whose form doesn't.

ghost use Rattle.std.specs.Prelude.{◌≡◌, ◌+◌, suc, nat_le, None, IfOk, IfErr, OnOk, option_map};
ghost use Rattle.actx_grammar.specs.Grammar.{count};
ghost use Rattle.actx_grammar.specs.Nodes.{expr_nodes, key_nodes, prop_key_nodes, exprs_nodes, properties_nodes, code_nodes, consts_nodes, maybe_nodes, stmt_nodes, stmts_nodes};
ghost use Rattle.actx_grammar.specs.Static.{is_among};
ghost use Rattle.actx_grammar.specs.Tree as t;
ghost use Rattle.actx_ast.specs.View.{expr_view, exprs_view, key_view, prop_key_view, property_view, properties_view, const_view, consts_view, function_view, maybe_expr, stmt_view, stmts_view, program_view};
ghost use Rattle.actx_top.specs.Faults.{StopsAt};
ghost use Rattle.actx_rules.specs.State.{or_else};
ghost use Rattle.actx_rules.specs.Taken as spec;

use actx_ast::tree::{ConstItem, Expr, Function, Key, Program, PropKey, Property, Stmt};
use actx_grammar::name::Name;
use actx_grammar::operators::{BinaryOp, Form, FunctionKind};
use actx_target::machine::count;
use actx_target::word::is_word;

/// The greatest number of units of a text.
const LONGEST_TEXT: usize = 1_048_576;

/// The greatest number of arguments of a call.
const MOST_ARGUMENTS: usize = 8;

/// Why a walk stops.
#[derive(Clone, Copy, Debug, Drop, PartialEq, Eq)]
pub enum Stop {
    /// The node with this number is the first whose form doesn't run.
    Untaken(u64),
    /// There are more nodes than numbers.
    TooMany,
}

/// The number behind this one.
fn after(n: u64) -> Result<u64, Stop>
    ensures next { IfOk result (λ m. m ≡ suc n) }
    ensures stop { IfErr result (λ s. s ≡ Stop.TooMany) }
{
    n.checked_add(1).ok_or(Stop::TooMany)
}

/// The number behind so many nodes.
fn after_all(n: u64, count: usize) -> Result<u64, Stop>
    ensures next { IfOk result (λ m. m ≡ n + count) }
    ensures stop { IfErr result (λ s. s ≡ Stop.TooMany) }
{
    n.checked_add(count as u64).ok_or(Stop::TooMany)
}

/// Whether an operator runs.
fn is_operator(op: BinaryOp) -> bool
    ensures { result ≡ spec.is_operator op }
{
    match op {
        BinaryOp::Add => true,
        BinaryOp::Sub => true,
        BinaryOp::Mul => true,
        _ => false,
    }
}

/// Whether a property of this name is read.
fn is_member(name: &Name) -> bool
    ensures { result ≡ is_among spec.member_names name.now }
{
    is_word(name, b"get") || is_word(name, b"run") || is_word(name, b"name")
}

/// The key of a member: a name after a dot.
fn key_taken(n: u64, key: &Key) -> Result<u64, Stop>
    ensures taken { IfOk result (λ m. (spec.untaken_key n (key_view key.now) ≡ None) × (m ≡ n + key_nodes (key_view key.now))) }
    ensures stop { IfErr result (StopsAt (spec.untaken_key n (key_view key.now))) }
{
    match key {
        Key::Dot(name) if is_member(name) => after(n),
        _ => Err(Stop::Untaken(n)),
    }
}

/// The key of a property: one that is fixed.
fn prop_key_taken(n: u64, key: &PropKey) -> Result<u64, Stop>
    ensures taken { IfOk result (λ m. (spec.untaken_prop_key n (prop_key_view key.now) ≡ None) × (m ≡ n + prop_key_nodes (prop_key_view key.now))) }
    ensures stop { IfErr result (StopsAt (spec.untaken_prop_key n (prop_key_view key.now))) }
{
    match key {
        PropKey::Fixed(_) => after(n),
        PropKey::Computed(_) => Err(Stop::Untaken(n)),
    }
}

/// An operator.
fn operator_taken(n: u64, op: BinaryOp) -> Result<u64, Stop>
    ensures taken { IfOk result (λ m. (spec.unless (spec.is_operator op) n ≡ None) × (m ≡ suc n)) }
    ensures stop { IfErr result (StopsAt (spec.unless (spec.is_operator op) n)) }
{
    if is_operator(op) {
        after(n)
    } else {
        Err(Stop::Untaken(n))
    }
}

/// A call with few arguments.
fn few_taken(n: u64, args: &Vec<Expr>) -> Result<u64, Stop>
    ensures taken { IfOk result (λ m. (spec.unless (nat_le (count (exprs_view args.now.items)) 8) n ≡ None) × (m ≡ suc n)) }
    ensures stop { IfErr result (StopsAt (spec.unless (nat_le (count (exprs_view args.now.items)) 8) n)) }
{
    if count(args) <= MOST_ARGUMENTS {
        after(n)
    } else {
        Err(Stop::Untaken(n))
    }
}

/// A property of a base.
#[cycle(taken)]
fn member_taken(n: u64, base: &Expr, key: &Key) -> Result<u64, Stop>
    ensures taken { IfOk result (λ m. (spec.untaken n (t.Member (expr_view base.now) (key_view key.now)) ≡ None) × (m ≡ n + expr_nodes (t.Member (expr_view base.now) (key_view key.now)))) }
    ensures stop { IfErr result (StopsAt (spec.untaken n (t.Member (expr_view base.now) (key_view key.now)))) }
{
    let behind = taken(after(n)?, base)?;
    key_taken(behind, key)
}

/// A function: an arrow.
#[cycle(taken)]
fn function_taken(n: u64, function: &Function) -> Result<u64, Stop>
    ensures taken { IfOk result (λ m. (spec.untaken n (t.Function (function_view function.now)) ≡ None) × (m ≡ n + expr_nodes (t.Function (function_view function.now)))) }
    ensures stop { IfErr result (StopsAt (spec.untaken n (t.Function (function_view function.now)))) }
{
    match (&function.name, function.kind) {
        (None, FunctionKind::Arrow) => {
            let behind = after_all(after(n)?, function.params.len())?;
            statements_taken(behind, &function.body)
        }
        _ => Err(Stop::Untaken(n)),
    }
}

/// An object literal in the place of options.
#[cycle(taken)]
fn literal_taken(n: u64, e: &Expr) -> Result<u64, Stop>
    ensures taken { IfOk result (λ m. (spec.untaken_literal n (expr_view e.now) ≡ None) × (m ≡ n + expr_nodes (expr_view e.now))) }
    ensures stop { IfErr result (StopsAt (spec.untaken_literal n (expr_view e.now))) }
{
    match e {
        Expr::Object(properties) => properties_taken(after(n)?, properties),
        _ => Err(Stop::Untaken(n)),
    }
}

/// A variable's constructor with its options.
#[tactic(auto, using(crate::proofs::Options::two_options))]
#[cycle(taken)]
fn variable_taken(n: u64, parts: &[Expr]) -> Result<u64, Stop>
    ensures taken { IfOk result (λ m. (spec.untaken_options n (exprs_view parts.now) ≡ None) × (m ≡ n + suc (exprs_nodes (exprs_view parts.now)))) }
    ensures stop { IfErr result (StopsAt (spec.untaken_options n (exprs_view parts.now))) }
{
    match parts {
        [] => after(n),
        [options] => literal_taken(after(n)?, options),
        [_, _, ..] => Err(Stop::Untaken(n)),
    }
}

/// A form with its parts.
#[cycle(taken)]
fn form_taken(n: u64, form: Form, parts: &Vec<Expr>) -> Result<u64, Stop>
    ensures taken { IfOk result (λ m. (spec.untaken n (t.Built form (exprs_view parts.now.items)) ≡ None) × (m ≡ n + expr_nodes (t.Built form (exprs_view parts.now.items)))) }
    ensures stop { IfErr result (StopsAt (spec.untaken n (t.Built form (exprs_view parts.now.items)))) }
{
    match form {
        Form::Log => list_taken(after(n)?, parts),
        Form::NewVariable => variable_taken(n, parts),
        _ => Err(Stop::Untaken(n)),
    }
}

/// An expression.
#[cycle(taken)]
fn taken(n: u64, e: &Expr) -> Result<u64, Stop>
    ensures taken { IfOk result (λ m. (spec.untaken n (expr_view e.now) ≡ None) × (m ≡ n + expr_nodes (expr_view e.now))) }
    ensures stop { IfErr result (StopsAt (spec.untaken n (expr_view e.now))) }
{
    match e {
        Expr::Num(_) => after(n),
        Expr::Text(units) if units.len() <= LONGEST_TEXT => after(n),
        Expr::Undefined => after(n),
        Expr::Named(_) => after(n),
        Expr::Binary(op, left, right) => {
            let between = taken(operator_taken(n, *op)?, left)?;
            Ok(taken(between, right)?)
        }
        Expr::Member(base, key) => member_taken(n, base, key),
        Expr::Call(callee, args) => {
            let behind = taken(few_taken(n, args)?, callee)?;
            Ok(list_taken(behind, args)?)
        }
        Expr::Function(function) => function_taken(n, function),
        Expr::Form(form, parts) => form_taken(n, *form, parts),
        _ => Err(Stop::Untaken(n)),
    }
}

/// Expressions.
#[cycle(taken)]
fn list_taken(n: u64, es: &Vec<Expr>) -> Result<u64, Stop>
    ensures taken { IfOk result (λ m. (spec.untaken_list n (exprs_view es.now.items) ≡ None) × (m ≡ n + exprs_nodes (exprs_view es.now.items))) }
    ensures stop { IfErr result (StopsAt (spec.untaken_list n (exprs_view es.now.items))) }
{
    let mut at = n;
    for e in es {
        at = taken(at, e)?;
    }
    Ok(at)
}

/// A property.
#[cycle(taken)]
fn property_taken(n: u64, property: &Property) -> Result<u64, Stop>
    ensures taken { IfOk result (λ m. (or_else (spec.untaken_prop_key n (property_view property.now).0) (spec.untaken (n + prop_key_nodes (property_view property.now).0) (property_view property.now).1) ≡ None) × (m ≡ n + (prop_key_nodes (property_view property.now).0 + expr_nodes (property_view property.now).1))) }
    ensures stop { IfErr result (StopsAt (or_else (spec.untaken_prop_key n (property_view property.now).0) (spec.untaken (n + prop_key_nodes (property_view property.now).0) (property_view property.now).1))) }
{
    let behind = prop_key_taken(n, &property.key)?;
    taken(behind, &property.value)
}

/// Properties.
#[cycle(taken)]
fn properties_taken(n: u64, properties: &Vec<Property>) -> Result<u64, Stop>
    ensures taken { IfOk result (λ m. (spec.untaken_properties n (properties_view properties.now.items) ≡ None) × (m ≡ n + properties_nodes (properties_view properties.now.items))) }
    ensures stop { IfErr result (StopsAt (spec.untaken_properties n (properties_view properties.now.items))) }
{
    let mut at = n;
    for property in properties {
        at = property_taken(at, property)?;
    }
    Ok(at)
}

/// An item of a const.
#[cycle(taken)]
fn item_taken(n: u64, item: &ConstItem) -> Result<u64, Stop>
    ensures taken { IfOk result (λ m. (spec.untaken (suc n) (const_view item.now).1 ≡ None) × (m ≡ suc n + expr_nodes (const_view item.now).1)) }
    ensures stop { IfErr result (StopsAt (spec.untaken (suc n) (const_view item.now).1)) }
{
    taken(after(n)?, &item.value)
}

/// Items of a const.
#[cycle(taken)]
fn items_taken(n: u64, items: &Vec<ConstItem>) -> Result<u64, Stop>
    ensures taken { IfOk result (λ m. (spec.untaken_items n (consts_view items.now.items) ≡ None) × (m ≡ n + consts_nodes (consts_view items.now.items))) }
    ensures stop { IfErr result (StopsAt (spec.untaken_items n (consts_view items.now.items))) }
{
    let mut at = n;
    for item in items {
        at = item_taken(at, item)?;
    }
    Ok(at)
}

/// What a function returns.
#[cycle(taken)]
fn value_taken(n: u64, value: &Option<Box<Expr>>) -> Result<u64, Stop>
    ensures taken { IfOk result (λ m. (spec.untaken_value n (maybe_expr (option_map (λ b. expr_view b.value) value.now)) ≡ None) × (m ≡ n + maybe_nodes (maybe_expr (option_map (λ b. expr_view b.value) value.now)))) }
    ensures stop { IfErr result (StopsAt (spec.untaken_value n (maybe_expr (option_map (λ b. expr_view b.value) value.now)))) }
{
    match value {
        None => Ok(n),
        Some(e) => taken(n, e),
    }
}

/// A statement.
#[cycle(taken)]
fn statement_taken(n: u64, statement: &Stmt) -> Result<u64, Stop>
    ensures taken { IfOk result (λ m. (spec.untaken_stmt n (stmt_view statement.now) ≡ None) × (m ≡ n + stmt_nodes (stmt_view statement.now))) }
    ensures stop { IfErr result (StopsAt (spec.untaken_stmt n (stmt_view statement.now))) }
{
    match statement {
        Stmt::Const(items) => items_taken(after(n)?, items),
        Stmt::Value(e) => taken(after(n)?, e),
        Stmt::Return(value) => value_taken(after(n)?, value),
        _ => Err(Stop::Untaken(n)),
    }
}

/// Statements.
#[cycle(taken)]
fn statements_taken(n: u64, statements: &Vec<Stmt>) -> Result<u64, Stop>
    ensures taken { IfOk result (λ m. (spec.untaken_stmts n (stmts_view statements.now.items) ≡ None) × (m ≡ n + stmts_nodes (stmts_view statements.now.items))) }
    ensures stop { IfErr result (StopsAt (spec.untaken_stmts n (stmts_view statements.now.items))) }
{
    let mut at = n;
    for statement in statements {
        at = statement_taken(at, statement)?;
    }
    Ok(at)
}

/// Whether all forms of a program run; else the walk stops at the first node whose form doesn't.
pub fn all_taken(program: &Program) -> Result<(), Stop>
    ensures taken { OnOk result (spec.IsTaken (program_view program.now)) }
    ensures stop { IfErr result (StopsAt (spec.first_untaken (program_view program.now))) }
{
    statements_taken(0, &program.body)?;
    Ok(())
}
