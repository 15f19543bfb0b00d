//! Where the nodes of a program begin in the tokens that spell it: a walk over its tree along the tokens. What the walk has yet
//! to do is kept in a list of its own, so that no depth of a program runs out of stack.

ghost use Rattle.std.specs.Prelude.{◌≡◌, ◌≤◌, ◌<◌, ◌+◌, ◌++◌, ◌∷◌, [], OnOk, IfOk};
ghost use Rattle.actx_ast.specs.View.{program_view};
ghost use Rattle.actx_lex.specs.Lexemes.{lexemes};
ghost use Rattle.actx_places.specs.Walk as spec;
ghost use Rattle.actx_places.specs.WalkWork.{act, acts, weigh, weight};

mod calls;
mod exprs;
mod functions;
mod groups;
mod lists;
mod loops;
mod stmts;
mod tries;
mod walk;

use actx_ast::tree::{Clause, ConstItem, Expr, LetItem, Program, Property, Stmt};
use actx_data::NoMemory;
use actx_lex::token::Token;
use exprs::{expr, spine, value};
use functions::arrow_body;
use lists::{more_consts, more_exprs, more_lets, more_properties};
use std::alloc::Global;
use stmts::{statement, statements};
use tries::clauses;
use walk::Walk;

/// How an expression is walked over.
#[derive(Clone, Copy, Drop)]
enum Manner {
    /// With its own parentheses.
    Whole,
    /// Behind those round it.
    Spine,
    /// Behind a key: a value, or a method that begins at this token.
    Value(usize),
}

/// A piece of what a walk has yet to do.
#[derive(Drop)]
enum Item<'a> {
    Step,
    /// So many tokens are passed.
    Pass(usize),
    /// A comma is passed where there is one.
    Comma,
    /// A node begins.
    Mark,
    /// The node with this number begins behind the parentheses that are still open.
    Settle(usize),
    /// Parentheses that end here are passed.
    Close,
    /// An expression has ended.
    Leave,
    Expr(Manner, &'a Expr),
    /// Each with a comma before it.
    Exprs(&'a [Expr]),
    /// Each with a comma before it.
    Properties(&'a [Property]),
    /// Each with a comma before it.
    Lets(&'a [LetItem]),
    /// Each with a comma before it.
    Consts(&'a [ConstItem]),
    Stmt(&'a Stmt),
    /// Statements, or an arrow's body.
    Stmts(bool, &'a [Stmt]),
    Clauses(&'a [Clause]),
}

/// The number of the first token of each node, in the order of the nodes. It takes time in proportion to their number.
///
/// # Errors
///
/// `NoMemory` where memory runs out.
#[tactic(auto, using(crate::proofs::WalkPieces::acts_last, crate::proofs::WalkPieces::weigh_last))]
pub fn places<'a>(
    alloc: Global,
    program: &'a Program,
    tokens: &'a [Token],
) -> Result<Vec<usize>, NoMemory>
    ensures { IfOk result (λ v. v.items ≡ spec.places_of (program_view program.now) (lexemes tokens.now)) }
{
    let mut walk = Walk::new(alloc, tokens);
    let mut work = Vec::new(alloc);
    push(&mut work, Item::Stmts(false, program.body.as_slice()))?;
    while let Some(next) = work.pop() {
        one(&mut walk, &mut work, next)?;
    }
    Ok(walk.into_places())
}

/// Does a piece, or puts its own pieces in its place.
fn one<'a>(walk: &mut Walk<'a>, work: &mut Vec<Item<'a>>, next: Item<'a>) -> Result<(), NoMemory>
    ensures walk { OnOk result (acts work.new.items walk.new ≡ acts work.old.items (act next.entry walk.old)) }
    ensures weight { OnOk result (weigh work.new.items < weigh work.old.items + weight next.entry) }
{
    match next {
        Item::Step => steps(walk, work),
        Item::Pass(count) => passes(walk, work, count),
        Item::Comma => comma(walk, work),
        Item::Mark => mark(walk, work),
        Item::Settle(node) => settle(walk, work, node),
        Item::Close => close(walk, work),
        Item::Leave => leave(walk, work),
        Item::Expr(Manner::Whole, e) => expr(walk, work, e),
        Item::Expr(Manner::Spine, e) => spine(walk, work, e),
        Item::Expr(Manner::Value(at), e) => value(walk, work, e, at),
        Item::Exprs(es) => more_exprs(walk, work, es),
        Item::Properties(properties) => more_properties(walk, work, properties),
        Item::Lets(items) => more_lets(walk, work, items),
        Item::Consts(items) => more_consts(walk, work, items),
        Item::Stmt(stmt) => statement(walk, work, stmt),
        Item::Stmts(true, stmts) => arrow_body(walk, work, stmts),
        Item::Stmts(false, stmts) => statements(walk, work, stmts),
        Item::Clauses(rows) => clauses(walk, work, rows),
    }
}

/// A piece that is done next.
#[tactic(auto, using(crate::proofs::WalkPieces::weigh_last))]
fn push<'a>(work: &mut Vec<Item<'a>>, next: Item<'a>) -> Result<(), NoMemory>
    ensures items { OnOk result (work.new.items ≡ work.old.items ++ next.entry ∷ []) }
    ensures weight { OnOk result (weigh work.new.items ≡ weigh work.old.items + weight next.entry) }
{
    work.push(next)?;
    Ok(())
}

fn steps<'a>(walk: &mut Walk<'a>, work: &mut Vec<Item<'a>>) -> Result<(), NoMemory>
    ensures walk { OnOk result (acts work.new.items walk.new ≡ acts work.old.items (spec.step walk.old)) }
    ensures same { OnOk result (work.new.items ≡ work.old.items) }
{
    let _ = work.len();
    walk.step();
    Ok(())
}

fn passes<'a>(walk: &mut Walk<'a>, work: &mut Vec<Item<'a>>, count: usize) -> Result<(), NoMemory>
    ensures walk { OnOk result (acts work.new.items walk.new ≡ acts work.old.items (spec.pass count walk.old)) }
    ensures same { OnOk result (work.new.items ≡ work.old.items) }
{
    let _ = work.len();
    walk.pass(count);
    Ok(())
}

fn comma<'a>(walk: &mut Walk<'a>, work: &mut Vec<Item<'a>>) -> Result<(), NoMemory>
    ensures walk { OnOk result (acts work.new.items walk.new ≡ acts work.old.items (spec.comma walk.old)) }
    ensures same { OnOk result (work.new.items ≡ work.old.items) }
{
    let _ = work.len();
    walk.comma();
    Ok(())
}

fn mark<'a>(walk: &mut Walk<'a>, work: &mut Vec<Item<'a>>) -> Result<(), NoMemory>
    ensures walk { OnOk result (acts work.new.items walk.new ≡ acts work.old.items (spec.mark walk.old)) }
    ensures same { OnOk result (work.new.items ≡ work.old.items) }
{
    let _ = work.len();
    walk.mark()
}

fn settle<'a>(walk: &mut Walk<'a>, work: &mut Vec<Item<'a>>, node: usize) -> Result<(), NoMemory>
    ensures walk { OnOk result (acts work.new.items walk.new ≡ acts work.old.items (spec.settle node walk.old)) }
    ensures same { OnOk result (work.new.items ≡ work.old.items) }
{
    let _ = work.len();
    walk.settle(node)
}

fn close<'a>(walk: &mut Walk<'a>, work: &mut Vec<Item<'a>>) -> Result<(), NoMemory>
    ensures walk { OnOk result (acts work.new.items walk.new ≡ acts work.old.items (spec.close walk.old)) }
    ensures same { OnOk result (work.new.items ≡ work.old.items) }
{
    let _ = work.len();
    walk.close()
}

fn leave<'a>(walk: &mut Walk<'a>, work: &mut Vec<Item<'a>>) -> Result<(), NoMemory>
    ensures walk { OnOk result (acts work.new.items walk.new ≡ acts work.old.items (spec.leave walk.old)) }
    ensures same { OnOk result (work.new.items ≡ work.old.items) }
{
    let _ = work.len();
    walk.leave();
    Ok(())
}
