//! Blocks that are tried and clauses along a walk: `try { } catch ( e ) { }`.

ghost use Rattle.std.specs.Prelude.{◌≡◌, ◌≤◌, ◌<◌, ◌+◌, OnOk, map, option_map};
ghost use Rattle.actx_ast.specs.Sizes.{catch_size, clauses_size, expr_size, last_size, stmts_size};
ghost use Rattle.actx_grammar.specs.Tree as node;
ghost use Rattle.actx_ast.specs.View.{catch_of, catcher_view, clauses_view, expr_view, last_of, stmt_view, stmts_view};
ghost use Rattle.actx_places.specs.Walk as spec;
ghost use Rattle.actx_places.specs.WalkWork.{acts, weigh};

use super::exprs::expr;
use super::stmts::braces;
use super::walk::Walk;
use super::{Item, push};
use actx_ast::tree::{Catcher, Clause, Expr, Stmt};
use actx_data::NoMemory;
use actx_grammar::name::Name;

#[tactic(auto, using(crate::proofs::WalkPieces::acts_last))]
pub(super) fn tried<'a>(
    walk: &mut Walk<'a>,
    work: &mut Vec<Item<'a>>,
    block: &'a [Stmt],
    catcher: &'a Option<Catcher>,
    last: &'a Option<Vec<Stmt>>,
) -> Result<(), NoMemory>
    ensures walk { OnOk result (acts work.new.items walk.new ≡ acts work.old.items (spec.stmt (node.Try (stmts_view block.now) (catch_of (option_map catcher_view catcher.now)) (last_of (option_map (λ v. map stmt_view v.items) last.now))) walk.old)) }
    ensures weight { OnOk result (weigh work.new.items < weigh work.old.items + 24 + stmts_size (stmts_view block.now) + catch_size (catch_of (option_map catcher_view catcher.now)) + last_size (last_of (option_map (λ v. map stmt_view v.items) last.now))) }
{
    walk.mark()?;
    walk.step();
    push_last(work, last)?;
    push_catcher(work, catcher)?;
    braces(walk, work, block)
}

/// Statements in braces are walked over next.
#[tactic(auto, using(crate::proofs::WalkPieces::acts_last))]
fn push_braces<'a>(work: &mut Vec<Item<'a>>, stmts: &'a [Stmt]) -> Result<(), NoMemory>
    ensures walk { OnOk result ((w : spec.Walk) → acts work.new.items w ≡ acts work.old.items (spec.braces (stmts_view stmts.now) w)) }
    ensures weight { OnOk result (weigh work.new.items ≤ weigh work.old.items + 6 + stmts_size (stmts_view stmts.now)) }
{
    push(work, Item::Step)?;
    push(work, Item::Stmts(false, stmts))?;
    push(work, Item::Step)
}

#[tactic(auto, using(crate::proofs::WalkPieces::acts_last))]
fn push_last<'a>(work: &mut Vec<Item<'a>>, last: &'a Option<Vec<Stmt>>) -> Result<(), NoMemory>
    ensures walk { OnOk result ((w : spec.Walk) → acts work.new.items w ≡ acts work.old.items (spec.finally (last_of (option_map (λ v. map stmt_view v.items) last.now)) w)) }
    ensures weight { OnOk result (weigh work.new.items ≤ weigh work.old.items + last_size (last_of (option_map (λ v. map stmt_view v.items) last.now))) }
{
    match last {
        None => Ok(()),
        Some(stmts) => {
            push_braces(work, stmts)?;
            push(work, Item::Step)
        }
    }
}

#[tactic(auto, using(crate::proofs::WalkPieces::acts_last))]
fn push_catcher<'a>(work: &mut Vec<Item<'a>>, catcher: &'a Option<Catcher>) -> Result<(), NoMemory>
    ensures walk { OnOk result ((w : spec.Walk) → acts work.new.items w ≡ acts work.old.items (spec.caught (catch_of (option_map catcher_view catcher.now)) w)) }
    ensures weight { OnOk result (weigh work.new.items ≤ weigh work.old.items + catch_size (catch_of (option_map catcher_view catcher.now))) }
{
    match catcher {
        None => Ok(()),
        Some(catcher) => {
            push_braces(work, &catcher.body)?;
            push_catch_head(work, &catcher.name)
        }
    }
}

#[tactic(auto, using(crate::proofs::WalkPieces::acts_last))]
fn push_catch_head<'a>(work: &mut Vec<Item<'a>>, name: &Option<Name>) -> Result<(), NoMemory>
    ensures walk { OnOk result ((w : spec.Walk) → acts work.new.items w ≡ acts work.old.items (spec.catch_head name.now w)) }
    ensures weight { OnOk result (weigh work.new.items ≤ weigh work.old.items + 3) }
{
    match name {
        None => push(work, Item::Step),
        Some(_) => {
            push(work, Item::Pass(2))?;
            push(work, Item::Mark)?;
            push(work, Item::Pass(2))
        }
    }
}

#[tactic(auto, using(crate::proofs::WalkPieces::acts_last))]
pub(super) fn switch<'a>(
    walk: &mut Walk<'a>,
    work: &mut Vec<Item<'a>>,
    e: &'a Expr,
    rows: &'a [Clause],
) -> Result<(), NoMemory>
    ensures walk { OnOk result (acts work.new.items walk.new ≡ acts work.old.items (spec.stmt (node.Switch (expr_view e.now) (clauses_view rows.now)) walk.old)) }
    ensures weight { OnOk result (weigh work.new.items ≤ weigh work.old.items + 6 + expr_size (expr_view e.now) + clauses_size (clauses_view rows.now)) }
{
    walk.mark()?;
    walk.pass(2);
    push(work, Item::Step)?;
    push(work, Item::Clauses(rows))?;
    push(work, Item::Pass(2))?;
    expr(walk, work, e)
}

pub(super) fn clauses<'a>(
    walk: &mut Walk<'a>,
    work: &mut Vec<Item<'a>>,
    rows: &'a [Clause],
) -> Result<(), NoMemory>
    ensures walk { OnOk result (acts work.new.items walk.new ≡ acts work.old.items (spec.clauses (clauses_view rows.now) walk.old)) }
    ensures weight { OnOk result (weigh work.new.items < weigh work.old.items + 1 + clauses_size (clauses_view rows.now)) }
{
    match rows {
        [] => Ok(()),
        [first, rest @ ..] => with_clauses(walk, work, first, rest),
    }
}

#[tactic(auto, using(crate::proofs::WalkPieces::acts_last))]
fn with_clauses<'a>(
    walk: &mut Walk<'a>,
    work: &mut Vec<Item<'a>>,
    first: &'a Clause,
    rest: &'a [Clause],
) -> Result<(), NoMemory>
    ensures walk { OnOk result (acts work.new.items walk.new ≡ acts work.old.items (spec.clauses (clauses_view rest.now) (spec.stmts (stmts_view first.now.body.items) (spec.pass (spec.clause_words first.now.number) walk.old)))) }
    ensures weight { OnOk result (weigh work.new.items ≡ weigh work.old.items + 2 + stmts_size (stmts_view first.now.body.items) + clauses_size (clauses_view rest.now)) }
{
    walk.pass(clause_words(first.number));
    push(work, Item::Clauses(rest))?;
    push(work, Item::Stmts(false, &first.body))
}

/// How many tokens stand before a clause's statements.
fn clause_words(number: Option<u64>) -> usize
    ensures { result ≡ spec.clause_words number }
{
    match number {
        None => 2,
        Some(_) => 3,
    }
}
