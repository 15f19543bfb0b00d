//! The heads of a tree's nodes in the order of their numbers. What is left of the walk is kept in a list of its own, so that no
//! depth of a program runs out of stack.

ghost use Rattle.std.specs.Prelude.{◌≡◌, ◌<◌, ◌+◌, ◌++◌, ◌∷◌, [], OnOk, IfOk};
ghost use Rattle.actx_ast.specs.View.{program_view};
ghost use Rattle.actx_nodes.specs.Heads.{expr_head, head, names_heads, stmt_head, stmts_heads};
ghost use Rattle.actx_nodes.specs.Walk.{heads, rest_of, weigh, weight};

mod counts;
mod exprs;
mod functions;
mod lists;
mod loops;
mod stmts;

use super::label::{ExprLabel, Head, Label, StmtLabel};
use actx_ast::tree::{Clause, ConstItem, Expr, LetItem, Program, Property, Stmt};
use actx_data::{NoMemory, Twin};
use actx_grammar::name::Name;
use exprs::expr;
use lists::{clauses, consts, exprs, lets, properties, statements};
use std::alloc::Global;
use stmts::statement;

/// Something left of the walk.
#[derive(Drop)]
enum Piece<'a> {
    Head(Head),
    Names(&'a [Name]),
    Expr(&'a Expr),
    Exprs(&'a [Expr]),
    Properties(&'a [Property]),
    Lets(&'a [LetItem]),
    Consts(&'a [ConstItem]),
    Stmt(&'a Stmt),
    Stmts(&'a [Stmt]),
    Clauses(&'a [Clause]),
}

/// The heads of a program's nodes, in order.
#[tactic(auto, using(std::proofs::Common::append_assoc, crate::proofs::Pieces::rest_last, crate::proofs::Pieces::weigh_last))]
pub fn heads_of(alloc: Global, program: &Program) -> Result<Vec<Head>, NoMemory>
    ensures { IfOk result (λ v. v.items ≡ stmts_heads (program_view program.now)) }
{
    let mut out = Vec::new(alloc);
    let mut work = Vec::new(alloc);
    push(&mut work, Piece::Stmts(program.body.as_slice()))?;
    while let Some(next) = work.pop() {
        one(alloc, next, &mut out, &mut work)?;
    }
    Ok(out)
}

/// Takes a piece's head, or puts its own pieces in its place.
#[tactic(auto, using(std::proofs::Common::append_assoc))]
fn one<'a>(
    alloc: Global,
    next: Piece<'a>,
    out: &mut Vec<Head>,
    work: &mut Vec<Piece<'a>>,
) -> Result<(), NoMemory>
    ensures rest { OnOk result (out.new.items ++ rest_of work.new.items ≡ out.old.items ++ (heads next.entry ++ rest_of work.old.items)) }
    ensures weight { OnOk result (weigh work.new.items < weigh work.old.items + weight next.entry) }
{
    match next {
        Piece::Head(head) => put(out, head),
        Piece::Names(names) => put_names(alloc, out, names),
        Piece::Expr(e) => expr(alloc, work, e),
        Piece::Exprs(es) => exprs(work, es),
        Piece::Properties(rows) => properties(alloc, work, rows),
        Piece::Lets(items) => lets(alloc, work, items),
        Piece::Consts(items) => consts(alloc, work, items),
        Piece::Stmt(stmt) => statement(alloc, work, stmt),
        Piece::Stmts(stmts) => statements(work, stmts),
        Piece::Clauses(rows) => clauses(work, rows),
    }
}

fn put(out: &mut Vec<Head>, head: Head) -> Result<(), NoMemory>
    ensures { OnOk result (out.new.items ≡ out.old.items ++ head ∷ []) }
{
    out.push(head)?;
    Ok(())
}

/// The heads of names.
#[tactic(auto, using(std::proofs::Common::append_assoc))]
fn put_names(alloc: Global, out: &mut Vec<Head>, names: &[Name]) -> Result<(), NoMemory>
    ensures { OnOk result (out.new.items ≡ out.old.items ++ names_heads names.now) }
{
    for name in names {
        let name = name.copy(alloc)?;
        put(
            out,
            Head {
                label: Label::Name(name),
                parts: 0,
            },
        )?;
    }
    Ok(())
}

/// A piece that comes next.
#[tactic(auto, using(crate::proofs::Pieces::rest_last, crate::proofs::Pieces::weigh_last))]
fn push<'a>(work: &mut Vec<Piece<'a>>, next: Piece<'a>) -> Result<(), NoMemory>
    ensures rest { OnOk result (rest_of work.new.items ≡ heads next.entry ++ rest_of work.old.items) }
    ensures weight { OnOk result (weigh work.new.items ≡ weigh work.old.items + weight next.entry) }
{
    work.push(next)?;
    Ok(())
}

/// A head that comes next.
fn push_head<'a>(work: &mut Vec<Piece<'a>>, label: Label, parts: usize) -> Result<(), NoMemory>
    ensures rest { OnOk result (rest_of work.new.items ≡ head label parts ∷ rest_of work.old.items) }
    ensures weight { OnOk result (weigh work.new.items ≡ weigh work.old.items + 1) }
{
    push(work, Piece::Head(Head { label, parts }))
}

/// The head of an expression.
fn expr_head<'a>(work: &mut Vec<Piece<'a>>, label: ExprLabel, parts: usize) -> Result<(), NoMemory>
    ensures rest { OnOk result (rest_of work.new.items ≡ expr_head label parts ∷ rest_of work.old.items) }
    ensures weight { OnOk result (weigh work.new.items ≡ weigh work.old.items + 1) }
{
    push_head(work, Label::Expr(label), parts)
}

/// The head of a statement.
fn stmt_head<'a>(work: &mut Vec<Piece<'a>>, label: StmtLabel, parts: usize) -> Result<(), NoMemory>
    ensures rest { OnOk result (rest_of work.new.items ≡ stmt_head label parts ∷ rest_of work.old.items) }
    ensures weight { OnOk result (weigh work.new.items ≡ weigh work.old.items + 1) }
{
    push_head(work, Label::Stmt(label), parts)
}
