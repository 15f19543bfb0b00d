//! The tokens of a program, with parentheses only where they are needed: `a * ( b + c )`. What is left to spell is kept in
//! a list of its own, so that no depth of a program runs out of stack.

ghost use Rattle.std.specs.Prelude.{◌≡◌, ◌<◌, ◌+◌, ◌++◌, ◌∷◌, [], OnOk, IfOk};
ghost use Rattle.actx_grammar.specs.Spell as spec;
ghost use Rattle.actx_ast.specs.Unspelled.{rest_of, text, weigh, weight};
ghost use Rattle.actx_ast.specs.View.{program_view};

mod blocks;
mod calls;
mod exprs;
mod lists;
mod loops;
mod put;
mod signs;
mod stmts;

use super::tree::{Clause, ConstItem, Expr, Function, LetItem, Program, Property, Stmt};
use actx_data::NoMemory;
use actx_grammar::operators::Form;
use actx_grammar::token::{Keyword, Sign, TokenKind};
use blocks::clauses;
use exprs::tree;
use lists::{more_consts, more_exprs, more_lets, more_properties};
use put::{put, put_form, put_head};
use std::alloc::Global;
use stmts::{statement, statements};

/// Something left to spell.
#[derive(Drop)]
enum Work<'a> {
    Mark(TokenKind),
    /// The words of a form.
    Words(Form),
    /// What stands before a function's body.
    Head(&'a Function),
    /// An expression, whether a statement begins with it, and the level of its place.
    Tree(&'a Expr, bool, u8),
    /// Each with a comma before it.
    Exprs(&'a [Expr]),
    /// Each with a comma before it.
    Properties(&'a [Property]),
    /// Each with a comma before it.
    Lets(&'a [LetItem]),
    /// Each with a comma before it.
    Consts(&'a [ConstItem]),
    Statement(&'a Stmt),
    Statements(&'a [Stmt]),
    Clauses(&'a [Clause]),
}

/// The tokens of a program, with parentheses only where they are needed. It takes time in proportion to their number.
///
/// # Errors
///
/// `NoMemory` where memory runs out.
#[tactic(auto, using(std::proofs::Common::append_assoc, crate::proofs::Unwrapped::rest_last, crate::proofs::Unwrapped::weigh_last))]
pub fn spell(alloc: Global, program: &Program) -> Result<Vec<TokenKind>, NoMemory>
    ensures { IfOk result (λ v. v.items ≡ spec.spell_program (program_view program.now)) }
{
    let mut out = Vec::new(alloc);
    let mut work = Vec::new(alloc);
    push(&mut work, Work::Statements(program.body.as_slice()))?;
    while let Some(next) = work.pop() {
        one(alloc, next, &mut out, &mut work)?;
    }
    Ok(out)
}

/// Spells a piece, or puts its own pieces in its place.
#[tactic(auto, using(std::proofs::Common::append_assoc))]
fn one<'a>(
    alloc: Global,
    next: Work<'a>,
    out: &mut Vec<TokenKind>,
    work: &mut Vec<Work<'a>>,
) -> Result<(), NoMemory>
    ensures rest { OnOk result (out.new.items ++ rest_of work.new.items ≡ out.old.items ++ (text next.entry ++ rest_of work.old.items)) }
    ensures weight { OnOk result (weigh work.new.items < weigh work.old.items + weight next.entry) }
{
    match next {
        Work::Mark(token) => put(out, token),
        Work::Words(form) => put_form(alloc, out, form),
        Work::Head(function) => put_head(alloc, out, function),
        Work::Tree(e, first, level) => tree(alloc, work, first, e, level),
        Work::Exprs(es) => more_exprs(work, es),
        Work::Properties(properties) => more_properties(alloc, work, properties),
        Work::Lets(items) => more_lets(alloc, work, items),
        Work::Consts(items) => more_consts(alloc, work, items),
        Work::Statement(stmt) => statement(alloc, work, stmt),
        Work::Statements(stmts) => statements(work, stmts),
        Work::Clauses(rows) => clauses(work, rows),
    }
}

/// A piece that is spelled next.
#[tactic(auto, using(crate::proofs::Unwrapped::rest_last, crate::proofs::Unwrapped::weigh_last))]
fn push<'a>(work: &mut Vec<Work<'a>>, next: Work<'a>) -> Result<(), NoMemory>
    ensures rest { OnOk result (rest_of work.new.items ≡ text next.entry ++ rest_of work.old.items) }
    ensures weight { OnOk result (weigh work.new.items ≡ weigh work.old.items + weight next.entry) }
{
    work.push(next)?;
    Ok(())
}

/// A token that is spelled next.
fn mark<'a>(work: &mut Vec<Work<'a>>, token: TokenKind) -> Result<(), NoMemory>
    ensures rest { OnOk result (rest_of work.new.items ≡ token ∷ rest_of work.old.items) }
    ensures weight { OnOk result (weigh work.new.items ≡ weigh work.old.items + 1) }
{
    push(work, Work::Mark(token))
}

fn sign<'a>(work: &mut Vec<Work<'a>>, sign: Sign) -> Result<(), NoMemory>
    ensures rest { OnOk result (rest_of work.new.items ≡ TokenKind.Sign sign ∷ rest_of work.old.items) }
    ensures weight { OnOk result (weigh work.new.items ≡ weigh work.old.items + 1) }
{
    mark(work, TokenKind::Sign(sign))
}

fn keyword<'a>(work: &mut Vec<Work<'a>>, keyword: Keyword) -> Result<(), NoMemory>
    ensures rest { OnOk result (rest_of work.new.items ≡ TokenKind.Keyword keyword ∷ rest_of work.old.items) }
    ensures weight { OnOk result (weigh work.new.items ≡ weigh work.old.items + 1) }
{
    mark(work, TokenKind::Keyword(keyword))
}
