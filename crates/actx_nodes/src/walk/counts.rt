//! How many parts lists are.

ghost use Rattle.std.specs.Prelude.{◌≡◌, ◌+◌, IfOk, option_map};
ghost use Rattle.actx_ast.specs.View.{clauses_view, consts_view, expr_view, exprs_view, lets_view, maybe_expr, maybe_stmt, properties_view, stmt_view, stmts_view};
ghost use Rattle.actx_nodes.specs.Build.{one};
ghost use Rattle.actx_nodes.specs.Heads.{consts_count, exprs_count, lets_count, maybe_count, other_count, properties_count, stmts_count};

use actx_ast::tree::{ConstItem, Expr, LetItem, Property, Stmt};
use actx_data::NoMemory;

/// A sum, or want of memory: no memory holds so many parts.
pub fn sum(a: usize, b: usize) -> Result<usize, NoMemory>
    ensures { IfOk result (λ n. n ≡ a + b) }
{
    match a.checked_add(b) {
        Some(n) => Ok(n),
        None => Err(NoMemory),
    }
}

/// One where something is there.
pub fn one(there: bool) -> usize
    ensures { result ≡ one there }
{
    if there { 1 } else { 0 }
}

#[tactic(auto, using(crate::proofs::Counts::count_exprs))]
pub fn count_exprs(es: &[Expr]) -> usize
    ensures { result ≡ exprs_count (exprs_view es.now) }
{
    es.len()
}

/// Key and value of each property.
#[tactic(auto, using(crate::proofs::Counts::count_properties))]
pub fn count_properties(rows: &[Property]) -> Result<usize, NoMemory>
    ensures { IfOk result (λ n. n ≡ properties_count (properties_view rows.now)) }
{
    sum(rows.len(), rows.len())
}

#[tactic(auto, using(crate::proofs::Counts::count_lets))]
pub fn count_lets(items: &[LetItem]) -> usize
    ensures { result ≡ lets_count (lets_view items.now) }
{
    items.len()
}

#[tactic(auto, using(crate::proofs::Counts::count_consts))]
pub fn count_consts(items: &[ConstItem]) -> usize
    ensures { result ≡ consts_count (consts_view items.now) }
{
    items.len()
}

#[tactic(auto, using(crate::proofs::Counts::count_stmts))]
pub fn count_stmts(stmts: &[Stmt]) -> usize
    ensures { result ≡ stmts_count (stmts_view stmts.now) }
{
    stmts.len()
}

pub fn count_maybe(value: &Option<Box<Expr>>) -> usize
    ensures { result ≡ maybe_count (maybe_expr (option_map (λ b. expr_view b.value) value.now)) }
{
    match value {
        Some(_) => 1,
        None => 0,
    }
}
