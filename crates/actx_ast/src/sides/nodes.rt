//! What one node tells by itself of the sides that spell it: a `let` has an item, a `default` stands last.

ghost use Rattle.std.specs.Prelude.{◌≡◌, ◌≤◌, ◌↔◌, None, false, IsTrue};
ghost use Rattle.actx_ast.specs.Clauses.{DefaultLast, IsNumber};
ghost use Rattle.actx_grammar.specs.Grammar.{IsBody, ends_open};
ghost use Rattle.actx_grammar.specs.Sides.{IsFormOf};
ghost use Rattle.actx_grammar.specs.Tree as tree;
ghost use Rattle.actx_ast.specs.View.{clause_view, clauses_view, consts_view, exprs_view, lets_view, stmt_view};
ghost use Rattle.actx_grammar.specs.Words.{HasForm, greatest_number};
ghost use Rattle.actx_grammar.specs.declared.token.TokenKind.TheVariants as TokenKind;

use crate::tree::{Clause, ConstItem, Expr, LetItem, Stmt};
use actx_data::Units;
use actx_grammar::forms::{has_words, suits};
use actx_grammar::operators::Form;
use actx_grammar::side::Side;

/// The greatest number that is written (ECMA-262, 21.1.2.6).
const GREATEST: u64 = 9_007_199_254_740_991;

/// Whether a number is written.
pub fn is_written(n: u64) -> bool
    ensures { IsTrue result ↔ (n ≤ greatest_number) }
{
    n <= GREATEST
}

/// Whether the units stand in a text; they always do.
pub fn is_text(units: &Units) -> bool
    ensures { IsTrue result ↔ HasForm (TokenKind.Text units.now) }
{
    units.as_slice().iter().all(|unit| u32::from(*unit) < 65536)
}

/// Whether a form may have these parts, whatever they are.
pub fn is_form(side: Side, form: Form, parts: &[Expr]) -> bool
    ensures { IsTrue result ↔ IsFormOf side form (exprs_view parts.now) }
{
    match (side, form) {
        (Side::Plain, Form::CallWith) => !parts.is_empty(),
        _ => has_words(side, form) && suits(form, parts.len()),
    }
}

/// Whether a `let` has an item.
pub fn has_lets(items: &[LetItem]) -> bool
    ensures { IsTrue result ↔ (lets_view items.now ≡ tree.no_lets → ⊥) }
{
    items.len() > 0
}

/// Whether a `const` has an item.
pub fn has_consts(items: &[ConstItem]) -> bool
    ensures { IsTrue result ↔ (consts_view items.now ≡ tree.no_consts → ⊥) }
{
    items.len() > 0
}

/// Whether a statement may be a branch or a body of its own.
pub fn is_body(stmt: &Stmt) -> bool
    ensures { IsTrue result ↔ IsBody (stmt_view stmt.now) }
{
    match stmt {
        Stmt::Let(_) | Stmt::Const(_) | Stmt::Fun(_) => false,
        _ => true,
    }
}

/// Whether a statement ends in an `if` without `else`.
#[cycle(ends)]
pub fn ends_open(stmt: &Stmt) -> bool
    ensures { result ≡ ends_open (stmt_view stmt.now) }
{
    match stmt {
        Stmt::If(_, _, None) => true,
        Stmt::If(_, _, Some(other)) => ends_open(other),
        Stmt::While(_, body) => ends_open(body),
        Stmt::For(_, _, _, body) => ends_open(body),
        Stmt::ForOf { body, .. } => ends_open(body),
        Stmt::ForAwait { body, .. } => ends_open(body),
        _ => false,
    }
}

/// Whether the number of a clause is written, or there is none.
pub fn is_number(number: Option<u64>) -> bool
    ensures { IsTrue result ↔ IsNumber number }
{
    match number {
        None => true,
        Some(n) => is_written(n),
    }
}

/// Whether a clause with more behind it is a default.
fn is_early(clause: &Clause, more: bool) -> bool
    ensures early { IsTrue result → (clause_view clause.now).0 ≡ None }
    ensures more { IsTrue result → IsTrue more }
    ensures late { result ≡ false → (clause_view clause.now).0 ≡ None → more ≡ false }
{
    more && clause.number.is_none()
}

/// Whether a `default` stands last.
pub fn is_default_last(clauses: &[Clause]) -> bool
    ensures { IsTrue result ↔ DefaultLast (clauses_view clauses.now) }
{
    for i in 0..clauses.len() {
        if is_early(&clauses[i], i + 1 < clauses.len()) {
            return false;
        }
    }
    true
}
