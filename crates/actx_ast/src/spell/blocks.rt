//! What has blocks and is spelled next: `try { } catch { }` and `switch ( a ) { }`.

ghost use Rattle.std.specs.Prelude.{◌≡◌, ◌≤◌, ◌<◌, ◌+◌, ◌++◌, ◌∷◌, option_map, OnOk};
ghost use Rattle.actx_ast.specs.Sizes.{catch_size, clauses_size, expr_size, stmts_size};
ghost use Rattle.actx_grammar.specs.Spell as spec;
ghost use Rattle.actx_grammar.specs.Tree as node;
ghost use Rattle.actx_ast.specs.Unspelled.{rest_of, weigh};
ghost use Rattle.actx_ast.specs.View.{catch_of, catcher_view, clause_view, clauses_view, expr_view, stmts_view};

use super::calls::block;
use super::loops::headed;
use super::{Work, keyword, mark, push, sign};
use crate::tree::{Catcher, Clause, Expr, Stmt};
use actx_data::{NoMemory, Twin};
use actx_grammar::token::{Keyword, Sign, TokenKind};
use std::alloc::Global;

/// `try { } catch { }`, where there is a `catch`.
#[tactic(auto, using(std::proofs::Common::append_assoc))]
pub(super) fn caught<'a>(
    alloc: Global,
    work: &mut Vec<Work<'a>>,
    body: &'a [Stmt],
    catcher: &'a Option<Catcher>,
) -> Result<(), NoMemory>
    ensures rest { OnOk result (rest_of work.new.items ≡ TokenKind.Keyword Keyword.Try ∷ ((spec.braced (spec.spell_program (stmts_view body.now)) ++ spec.spell_catch (catch_of (option_map catcher_view catcher.now))) ++ rest_of work.old.items)) }
    ensures weight { OnOk result (weigh work.new.items ≤ weigh work.old.items + 4 + stmts_size (stmts_view body.now) + catch_size (catch_of (option_map catcher_view catcher.now))) }
{
    catch_part(alloc, work, catcher)?;
    block(work, body)?;
    keyword(work, Keyword::Try)
}

/// `try { } catch { } finally { }`, where there may be a `catch`.
#[tactic(auto, using(std::proofs::Common::append_assoc))]
pub(super) fn caught_last<'a>(
    alloc: Global,
    work: &mut Vec<Work<'a>>,
    body: &'a [Stmt],
    catcher: &'a Option<Catcher>,
    last: &'a [Stmt],
) -> Result<(), NoMemory>
    ensures rest { OnOk result (rest_of work.new.items ≡ spec.spell_stmt (node.Try (stmts_view body.now) (catch_of (option_map catcher_view catcher.now)) (node.last (stmts_view last.now))) ++ rest_of work.old.items) }
    ensures weight { OnOk result (weigh work.new.items ≤ weigh work.old.items + 8 + stmts_size (stmts_view body.now) + catch_size (catch_of (option_map catcher_view catcher.now)) + stmts_size (stmts_view last.now)) }
{
    block(work, last)?;
    keyword(work, Keyword::Finally)?;
    caught(alloc, work, body, catcher)
}

/// The `catch` part of a `try`, if it has one.
#[tactic(auto, using(std::proofs::Common::append_assoc))]
fn catch_part<'a>(
    alloc: Global,
    work: &mut Vec<Work<'a>>,
    catcher: &'a Option<Catcher>,
) -> Result<(), NoMemory>
    ensures rest { OnOk result (rest_of work.new.items ≡ spec.spell_catch (catch_of (option_map catcher_view catcher.now)) ++ rest_of work.old.items) }
    ensures weight { OnOk result (weigh work.new.items ≤ weigh work.old.items + catch_size (catch_of (option_map catcher_view catcher.now))) }
{
    match catcher {
        None => Ok(()),
        Some(catcher) => catch_block(alloc, work, catcher),
    }
}

#[tactic(auto, using(std::proofs::Common::append_assoc))]
fn catch_block<'a>(
    alloc: Global,
    work: &mut Vec<Work<'a>>,
    catcher: &'a Catcher,
) -> Result<(), NoMemory>
    ensures rest { OnOk result (rest_of work.new.items ≡ spec.spell_catch (catcher_view catcher.now) ++ rest_of work.old.items) }
    ensures weight { OnOk result (weigh work.new.items ≤ weigh work.old.items + catch_size (catcher_view catcher.now)) }
{
    match &catcher.name {
        None => {
            block(work, catcher.body.as_slice())?;
            keyword(work, Keyword::Catch)
        }
        Some(name) => {
            block(work, catcher.body.as_slice())?;
            sign(work, Sign::CloseParen)?;
            mark(work, TokenKind::Name(name.copy(alloc)?))?;
            sign(work, Sign::OpenParen)?;
            keyword(work, Keyword::Catch)
        }
    }
}

/// `switch ( value ) { }` with its clauses.
#[tactic(auto, using(std::proofs::Common::append_assoc))]
pub(super) fn switch<'a>(
    work: &mut Vec<Work<'a>>,
    value: &'a Expr,
    rows: &'a [Clause],
) -> Result<(), NoMemory>
    ensures rest { OnOk result (rest_of work.new.items ≡ spec.spell_stmt (node.Switch (expr_view value.now) (clauses_view rows.now)) ++ rest_of work.old.items) }
    ensures weight { OnOk result (weigh work.new.items ≡ weigh work.old.items + 9 + expr_size (expr_view value.now) + clauses_size (clauses_view rows.now)) }
{
    sign(work, Sign::CloseBrace)?;
    push(work, Work::Clauses(rows))?;
    sign(work, Sign::OpenBrace)?;
    headed(work, Keyword::Switch, value)
}

/// Clauses of a `switch`, one behind another.
pub(super) fn clauses<'a>(work: &mut Vec<Work<'a>>, rows: &'a [Clause]) -> Result<(), NoMemory>
    ensures rest { OnOk result (rest_of work.new.items ≡ spec.spell_clauses (clauses_view rows.now) ++ rest_of work.old.items) }
    ensures weight { OnOk result (weigh work.new.items < weigh work.old.items + 1 + clauses_size (clauses_view rows.now)) }
{
    match rows {
        [] => Ok(()),
        [first, rest @ ..] => with_clauses(work, first, rest),
    }
}

#[tactic(auto, using(std::proofs::Common::append_assoc, crate::proofs::SpellSteps::one_clause))]
fn with_clauses<'a>(
    work: &mut Vec<Work<'a>>,
    first: &'a Clause,
    rest: &'a [Clause],
) -> Result<(), NoMemory>
    ensures rest { OnOk result (rest_of work.new.items ≡ spec.spell_clauses (node.clause (clause_view first.now).0 (clause_view first.now).1 (clauses_view rest.now)) ++ rest_of work.old.items) }
    ensures weight { OnOk result (weigh work.new.items ≤ weigh work.old.items + 5 + stmts_size (clause_view first.now).1 + clauses_size (clauses_view rest.now)) }
{
    push(work, Work::Clauses(rest))?;
    clause(work, first)
}

/// `case 1 : statements` or `default : statements`
#[tactic(auto, using(std::proofs::Common::append_assoc))]
fn clause<'a>(work: &mut Vec<Work<'a>>, row: &'a Clause) -> Result<(), NoMemory>
    ensures rest { OnOk result (rest_of work.new.items ≡ spec.spell_clauses (node.clause (clause_view row.now).0 (clause_view row.now).1 node.no_clauses) ++ rest_of work.old.items) }
    ensures weight { OnOk result (weigh work.new.items ≤ weigh work.old.items + 4 + stmts_size (clause_view row.now).1) }
{
    push(work, Work::Statements(row.body.as_slice()))?;
    sign(work, Sign::Colon)?;
    match row.number {
        None => keyword(work, Keyword::Default),
        Some(n) => {
            mark(work, TokenKind::Number(n))?;
            keyword(work, Keyword::Case)
        }
    }
}
