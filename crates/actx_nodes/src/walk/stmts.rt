//! Statements: the head, and the parts in text order behind it.

ghost use Rattle.std.specs.Prelude.{◌≡◌, ◌<◌, ◌≤◌, ◌+◌, ◌++◌, ◌∷◌, [], map, option_map, IfOk, OnOk};
ghost use Rattle.actx_ast.specs.Sizes.{catch_size, clauses_size, code_size, consts_size, expr_size, last_size, lets_size, maybe_size, other_size, stmt_size, stmts_size};
ghost use Rattle.actx_ast.specs.View.{catch_of, catcher_view, clauses_view, consts_view, expr_view, function_view, last_of, lets_view, maybe_expr, maybe_stmt, stmt_view, stmts_view};
ghost use Rattle.actx_grammar.specs.Tree as node;
ghost use Rattle.actx_nodes.specs.Build.{catch_parts};
ghost use Rattle.actx_nodes.specs.Heads.{catch_heads, catch_label, clause_labels, clauses_count, expr_heads, is_last, last_count, last_heads, stmt_head, stmt_heads, try_count, try_label};
ghost use Rattle.actx_nodes.specs.Walk.{rest_of, weigh};

use super::counts::{count_consts, count_lets, count_maybe, count_stmts, one, sum};
use super::functions::{count_parts, is_named, label_of, own_name, parts};
use super::lists::maybe;
use super::loops::{for_loop, named_loop};
use super::{Piece, push, stmt_head};
use crate::label::{CatchLabel, ClauseLabel, Clauses, StmtLabel, TryLabel};
use actx_ast::tree::{Catcher, Clause, ConstItem, Expr, Function, LetItem, Stmt};
use actx_data::NoMemory;
use std::alloc::Global;

/// A statement.
pub(super) fn statement<'a>(
    alloc: Global,
    work: &mut Vec<Piece<'a>>,
    stmt: &'a Stmt,
) -> Result<(), NoMemory>
    ensures rest { OnOk result (rest_of work.new.items ≡ stmt_heads (stmt_view stmt.now) ++ rest_of work.old.items) }
    ensures weight { OnOk result (weigh work.new.items < weigh work.old.items + stmt_size (stmt_view stmt.now)) }
{
    match stmt {
        Stmt::Let(items) => let_items(work, items),
        Stmt::Const(items) => const_items(work, items),
        Stmt::Fun(f) => function(alloc, work, f),
        Stmt::Block(body) => block(work, body),
        Stmt::If(test, branch, other) => branches(work, test, branch, other),
        Stmt::While(test, body) => while_loop(work, test, body),
        Stmt::DoWhile(body, test) => do_while(work, body, test),
        Stmt::For(start, test, update, body) => for_loop(work, start, test, update, body),
        Stmt::ForOf {
            constant,
            name,
            over,
            body,
        } => named_loop(alloc, work, StmtLabel::ForOf(*constant), name, over, body),
        Stmt::ForAwait {
            constant,
            name,
            over,
            body,
        } => named_loop(
            alloc,
            work,
            StmtLabel::ForAwait(*constant),
            name,
            over,
            body,
        ),
        Stmt::Break => stmt_head(work, StmtLabel::Break, 0),
        Stmt::Continue => stmt_head(work, StmtLabel::Continue, 0),
        Stmt::Return(value) => returned(work, value),
        Stmt::Throw(value) => one_part(work, StmtLabel::Throw, value),
        Stmt::Try {
            block,
            catcher,
            last,
        } => tried(alloc, work, block, catcher, last),
        Stmt::Value(value) => one_part(work, StmtLabel::Value, value),
        Stmt::Empty => stmt_head(work, StmtLabel::Empty, 0),
        Stmt::Switch(value, rows) => switch(alloc, work, value, rows),
    }
}

fn let_items<'a>(work: &mut Vec<Piece<'a>>, items: &'a [LetItem]) -> Result<(), NoMemory>
    ensures rest { OnOk result (rest_of work.new.items ≡ stmt_heads (node.Let (lets_view items.now)) ++ rest_of work.old.items) }
    ensures weight { OnOk result (weigh work.new.items ≡ weigh work.old.items + 2 + lets_size (lets_view items.now)) }
{
    push(work, Piece::Lets(items))?;
    stmt_head(work, StmtLabel::Let, count_lets(items))
}

fn const_items<'a>(work: &mut Vec<Piece<'a>>, items: &'a [ConstItem]) -> Result<(), NoMemory>
    ensures rest { OnOk result (rest_of work.new.items ≡ stmt_heads (node.Const (consts_view items.now)) ++ rest_of work.old.items) }
    ensures weight { OnOk result (weigh work.new.items ≡ weigh work.old.items + 2 + consts_size (consts_view items.now)) }
{
    push(work, Piece::Consts(items))?;
    stmt_head(work, StmtLabel::Const, count_consts(items))
}

fn function<'a>(
    alloc: Global,
    work: &mut Vec<Piece<'a>>,
    function: &'a Function,
) -> Result<(), NoMemory>
    ensures rest { OnOk result (rest_of work.new.items ≡ stmt_heads (node.Fun (function_view function.now)) ++ rest_of work.old.items) }
    ensures weight { OnOk result (weigh work.new.items ≤ weigh work.old.items + 1 + code_size (function_view function.now)) }
{
    let count = count_parts(function)?;
    parts(alloc, work, function)?;
    stmt_head(work, StmtLabel::Fun(label_of(function)), count)
}

fn block<'a>(work: &mut Vec<Piece<'a>>, body: &'a [Stmt]) -> Result<(), NoMemory>
    ensures rest { OnOk result (rest_of work.new.items ≡ stmt_heads (node.Block (stmts_view body.now)) ++ rest_of work.old.items) }
    ensures weight { OnOk result (weigh work.new.items ≡ weigh work.old.items + 2 + stmts_size (stmts_view body.now)) }
{
    push(work, Piece::Stmts(body))?;
    stmt_head(work, StmtLabel::Block, count_stmts(body))
}

#[tactic(auto, using(std::proofs::Common::append_assoc))]
fn branches<'a>(
    work: &mut Vec<Piece<'a>>,
    test: &'a Expr,
    branch: &'a Stmt,
    other: &'a Option<Box<Stmt>>,
) -> Result<(), NoMemory>
    ensures rest { OnOk result (rest_of work.new.items ≡ stmt_heads (node.If (expr_view test.now) (stmt_view branch.now) (maybe_stmt (option_map (λ b. stmt_view b.value) other.now))) ++ rest_of work.old.items) }
    ensures weight { OnOk result (weigh work.new.items ≤ weigh work.old.items + 1 + expr_size (expr_view test.now) + stmt_size (stmt_view branch.now) + other_size (maybe_stmt (option_map (λ b. stmt_view b.value) other.now))) }
{
    match other {
        None => {
            push(work, Piece::Stmt(branch))?;
            push(work, Piece::Expr(test))?;
            stmt_head(work, StmtLabel::If, 2)
        }
        Some(other) => {
            push(work, Piece::Stmt(other))?;
            push(work, Piece::Stmt(branch))?;
            push(work, Piece::Expr(test))?;
            stmt_head(work, StmtLabel::If, 3)
        }
    }
}

#[tactic(auto, using(std::proofs::Common::append_assoc))]
fn while_loop<'a>(work: &mut Vec<Piece<'a>>, test: &'a Expr, body: &'a Stmt) -> Result<(), NoMemory>
    ensures rest { OnOk result (rest_of work.new.items ≡ stmt_heads (node.While (expr_view test.now) (stmt_view body.now)) ++ rest_of work.old.items) }
    ensures weight { OnOk result (weigh work.new.items ≡ weigh work.old.items + 1 + expr_size (expr_view test.now) + stmt_size (stmt_view body.now)) }
{
    push(work, Piece::Stmt(body))?;
    push(work, Piece::Expr(test))?;
    stmt_head(work, StmtLabel::While, 2)
}

#[tactic(auto, using(std::proofs::Common::append_assoc))]
fn do_while<'a>(work: &mut Vec<Piece<'a>>, body: &'a Stmt, test: &'a Expr) -> Result<(), NoMemory>
    ensures rest { OnOk result (rest_of work.new.items ≡ stmt_heads (node.DoWhile (stmt_view body.now) (expr_view test.now)) ++ rest_of work.old.items) }
    ensures weight { OnOk result (weigh work.new.items ≡ weigh work.old.items + 1 + stmt_size (stmt_view body.now) + expr_size (expr_view test.now)) }
{
    push(work, Piece::Expr(test))?;
    push(work, Piece::Stmt(body))?;
    stmt_head(work, StmtLabel::DoWhile, 2)
}

fn returned<'a>(work: &mut Vec<Piece<'a>>, value: &'a Option<Box<Expr>>) -> Result<(), NoMemory>
    ensures rest { OnOk result (rest_of work.new.items ≡ stmt_heads (node.Return (maybe_expr (option_map (λ b. expr_view b.value) value.now))) ++ rest_of work.old.items) }
    ensures weight { OnOk result (weigh work.new.items ≤ weigh work.old.items + 1 + maybe_size (maybe_expr (option_map (λ b. expr_view b.value) value.now))) }
{
    maybe(work, value)?;
    stmt_head(work, StmtLabel::Return, count_maybe(value))
}

fn one_part<'a>(
    work: &mut Vec<Piece<'a>>,
    label: StmtLabel,
    value: &'a Expr,
) -> Result<(), NoMemory>
    ensures rest { OnOk result (rest_of work.new.items ≡ stmt_head label 1 ∷ (expr_heads (expr_view value.now) ++ rest_of work.old.items)) }
    ensures weight { OnOk result (weigh work.new.items ≡ weigh work.old.items + 1 + expr_size (expr_view value.now)) }
{
    push(work, Piece::Expr(value))?;
    stmt_head(work, label, 1)
}

fn catch_label_of(catcher: &Option<Catcher>) -> Option<CatchLabel>
    ensures { result ≡ catch_label (catch_of (option_map catcher_view catcher.now)) }
{
    match catcher {
        None => None,
        Some(catcher) => Some(CatchLabel {
            named: is_named(&catcher.name),
            body: count_stmts(&catcher.body),
        }),
    }
}

/// How many parts a `catch` is.
pub fn catch_parts(catcher: Option<CatchLabel>) -> Result<usize, NoMemory>
    ensures { IfOk result (λ n. n ≡ catch_parts catcher) }
{
    match catcher {
        None => Ok(0),
        Some(catcher) => sum(one(catcher.named), catcher.body),
    }
}

fn is_last_part(last: &Option<Vec<Stmt>>) -> bool
    ensures { result ≡ is_last (last_of (option_map (λ ss. map stmt_view ss.items) last.now)) }
{
    match last {
        None => false,
        Some(_) => true,
    }
}

/// How many statements a `finally` has.
fn count_last(last: &Option<Vec<Stmt>>) -> usize
    ensures { result ≡ last_count (last_of (option_map (λ ss. map stmt_view ss.items) last.now)) }
{
    match last {
        None => 0,
        Some(body) => count_stmts(body),
    }
}

#[tactic(auto, using(std::proofs::Common::append_assoc))]
fn last_part<'a>(work: &mut Vec<Piece<'a>>, last: &'a Option<Vec<Stmt>>) -> Result<(), NoMemory>
    ensures rest { OnOk result (rest_of work.new.items ≡ last_heads (last_of (option_map (λ ss. map stmt_view ss.items) last.now)) ++ rest_of work.old.items) }
    ensures weight { OnOk result (weigh work.new.items ≤ weigh work.old.items + last_size (last_of (option_map (λ ss. map stmt_view ss.items) last.now))) }
{
    match last {
        None => Ok(()),
        Some(body) => push(work, Piece::Stmts(body)),
    }
}

#[tactic(auto, using(std::proofs::Common::append_assoc))]
fn catch_part<'a>(
    alloc: Global,
    work: &mut Vec<Piece<'a>>,
    catcher: &'a Option<Catcher>,
) -> Result<(), NoMemory>
    ensures rest { OnOk result (rest_of work.new.items ≡ catch_heads (catch_of (option_map catcher_view catcher.now)) ++ rest_of work.old.items) }
    ensures weight { OnOk result (weigh work.new.items ≤ weigh work.old.items + catch_size (catch_of (option_map catcher_view catcher.now))) }
{
    match catcher {
        None => Ok(()),
        Some(catcher) => {
            push(work, Piece::Stmts(catcher.body.as_slice()))?;
            own_name(alloc, work, &catcher.name)
        }
    }
}

/// How many parts a `try` has.
fn count_try(
    block: &[Stmt],
    catcher: &Option<Catcher>,
    last: &Option<Vec<Stmt>>,
) -> Result<usize, NoMemory>
    ensures { IfOk result (λ n. n ≡ try_count (stmts_view block.now) (catch_of (option_map catcher_view catcher.now)) (last_of (option_map (λ ss. map stmt_view ss.items) last.now))) }
{
    let caught = catch_parts(catch_label_of(catcher))?;
    sum(count_stmts(block), sum(caught, count_last(last))?)
}

fn try_label_of(block: &[Stmt], catcher: &Option<Catcher>, last: &Option<Vec<Stmt>>) -> TryLabel
    ensures { result ≡ try_label (stmts_view block.now) (catch_of (option_map catcher_view catcher.now)) (last_of (option_map (λ ss. map stmt_view ss.items) last.now)) }
{
    TryLabel {
        block: count_stmts(block),
        catcher: catch_label_of(catcher),
        last: is_last_part(last),
    }
}

#[tactic(auto, using(std::proofs::Common::append_assoc))]
fn tried<'a>(
    alloc: Global,
    work: &mut Vec<Piece<'a>>,
    block: &'a [Stmt],
    catcher: &'a Option<Catcher>,
    last: &'a Option<Vec<Stmt>>,
) -> Result<(), NoMemory>
    ensures rest { OnOk result (rest_of work.new.items ≡ stmt_heads (node.Try (stmts_view block.now) (catch_of (option_map catcher_view catcher.now)) (last_of (option_map (λ ss. map stmt_view ss.items) last.now))) ++ rest_of work.old.items) }
    ensures weight { OnOk result (weigh work.new.items ≤ weigh work.old.items + 2 + stmts_size (stmts_view block.now) + catch_size (catch_of (option_map catcher_view catcher.now)) + last_size (last_of (option_map (λ ss. map stmt_view ss.items) last.now))) }
{
    let parts = count_try(block, catcher, last)?;
    last_part(work, last)?;
    catch_part(alloc, work, catcher)?;
    push(work, Piece::Stmts(block))?;
    stmt_head(
        work,
        StmtLabel::Try(try_label_of(block, catcher, last)),
        parts,
    )
}

/// The clauses of a `switch`, by which of its parts are theirs; the number of its parts is behind them.
fn clause_table(alloc: Global, rows: &[Clause]) -> Result<(Clauses, usize), NoMemory>
    ensures { IfOk result (λ r. r ≡ (clause_labels 1 (clauses_view rows.now), 1 + clauses_count (clauses_view rows.now))) }
{
    let mut table = Vec::new(alloc);
    let mut start = 1;
    for row in rows {
        let body = count_stmts(&row.body);
        table.push(ClauseLabel {
            number: row.number,
            start,
            body,
        })?;
        start = sum(start, body)?;
    }
    Ok((Clauses::from_vec(table), start))
}

#[tactic(auto, using(std::proofs::Common::append_assoc))]
fn switch<'a>(
    alloc: Global,
    work: &mut Vec<Piece<'a>>,
    value: &'a Expr,
    rows: &'a [Clause],
) -> Result<(), NoMemory>
    ensures rest { OnOk result (rest_of work.new.items ≡ stmt_heads (node.Switch (expr_view value.now) (clauses_view rows.now)) ++ rest_of work.old.items) }
    ensures weight { OnOk result (weigh work.new.items ≡ weigh work.old.items + 2 + expr_size (expr_view value.now) + clauses_size (clauses_view rows.now)) }
{
    let (table, parts) = clause_table(alloc, rows)?;
    push(work, Piece::Clauses(rows))?;
    push(work, Piece::Expr(value))?;
    stmt_head(work, StmtLabel::Switch(table), parts)
}
