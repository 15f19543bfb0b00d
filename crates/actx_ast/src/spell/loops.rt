//! Branches and loops that are spelled next: `for ( const a of b ) { }`.

ghost use Rattle.std.specs.Prelude.{◌≡◌, ◌≤◌, ◌+◌, ◌++◌, ◌∷◌, codes, option_map, OnOk};
ghost use Rattle.actx_ast.specs.Sizes.{expr_size, init_size, maybe_size, stmt_size};
ghost use Rattle.actx_grammar.specs.Spell as spec;
ghost use Rattle.actx_grammar.specs.Spell.{inner};
ghost use Rattle.actx_grammar.specs.Tree as node;
ghost use Rattle.actx_ast.specs.Unspelled.{rest_of, weigh};
ghost use Rattle.actx_ast.specs.View.{expr_view, init_view, maybe_expr, stmt_view};

use super::lists::{list_consts, list_lets};
use super::put::word;
use super::{Work, keyword, mark, push, sign};
use crate::tree::{Expr, ForInit, Stmt};
use actx_data::{NoMemory, Twin};
use actx_grammar::name::Name;
use actx_grammar::token::{Keyword, Sign, TokenKind};
use std::alloc::Global;

/// `while ( test )` and its like.
#[tactic(auto, using(std::proofs::Common::append_assoc))]
pub(super) fn headed<'a>(
    work: &mut Vec<Work<'a>>,
    word: Keyword,
    test: &'a Expr,
) -> Result<(), NoMemory>
    ensures rest { OnOk result (rest_of work.new.items ≡ TokenKind.Keyword word ∷ (spec.round (spec.spell inner (expr_view test.now) 1) ++ rest_of work.old.items)) }
    ensures weight { OnOk result (weigh work.new.items ≡ weigh work.old.items + 6 + expr_size (expr_view test.now)) }
{
    sign(work, Sign::CloseParen)?;
    push(work, Work::Tree(test, false, 1))?;
    sign(work, Sign::OpenParen)?;
    keyword(work, word)
}

/// `while ( test ) body` and its like.
#[tactic(auto, using(std::proofs::Common::append_assoc))]
pub(super) fn headed_body<'a>(
    work: &mut Vec<Work<'a>>,
    word: Keyword,
    test: &'a Expr,
    body: &'a Stmt,
) -> Result<(), NoMemory>
    ensures rest { OnOk result (rest_of work.new.items ≡ TokenKind.Keyword word ∷ ((spec.round (spec.spell inner (expr_view test.now) 1) ++ spec.spell_stmt (stmt_view body.now)) ++ rest_of work.old.items)) }
    ensures weight { OnOk result (weigh work.new.items ≡ weigh work.old.items + 6 + expr_size (expr_view test.now) + stmt_size (stmt_view body.now)) }
{
    push(work, Work::Statement(body))?;
    headed(work, word, test)
}

/// `if ( test ) branch else other`
#[tactic(auto, using(std::proofs::Common::append_assoc))]
pub(super) fn if_else<'a>(
    work: &mut Vec<Work<'a>>,
    test: &'a Expr,
    branch: &'a Stmt,
    other: &'a Stmt,
) -> Result<(), NoMemory>
    ensures rest { OnOk result (rest_of work.new.items ≡ spec.spell_stmt (node.If (expr_view test.now) (stmt_view branch.now) (node.some_stmt (stmt_view other.now))) ++ rest_of work.old.items) }
    ensures weight { OnOk result (weigh work.new.items ≡ weigh work.old.items + 7 + expr_size (expr_view test.now) + stmt_size (stmt_view branch.now) + stmt_size (stmt_view other.now)) }
{
    push(work, Work::Statement(other))?;
    keyword(work, Keyword::Else)?;
    push(work, Work::Statement(branch))?;
    headed(work, Keyword::If, test)
}

/// `do body while ( test ) ;`
#[tactic(auto, using(std::proofs::Common::append_assoc))]
pub(super) fn do_while<'a>(
    work: &mut Vec<Work<'a>>,
    body: &'a Stmt,
    test: &'a Expr,
) -> Result<(), NoMemory>
    ensures rest { OnOk result (rest_of work.new.items ≡ spec.spell_stmt (node.DoWhile (stmt_view body.now) (expr_view test.now)) ++ rest_of work.old.items) }
    ensures weight { OnOk result (weigh work.new.items ≡ weigh work.old.items + 8 + stmt_size (stmt_view body.now) + expr_size (expr_view test.now)) }
{
    sign(work, Sign::Semicolon)?;
    headed(work, Keyword::While, test)?;
    push(work, Work::Statement(body))?;
    keyword(work, Keyword::Do)
}

/// `for ( init ; test ; update ) body`
#[tactic(auto, using(std::proofs::Common::append_assoc))]
pub(super) fn for_loop<'a>(
    alloc: Global,
    work: &mut Vec<Work<'a>>,
    init: &'a ForInit,
    test: &'a Option<Box<Expr>>,
    update: &'a Option<Box<Expr>>,
    body: &'a Stmt,
) -> Result<(), NoMemory>
    ensures rest { OnOk result (rest_of work.new.items ≡ spec.spell_stmt (node.For (init_view init.now) (maybe_expr (option_map (λ b. expr_view b.value) test.now)) (maybe_expr (option_map (λ b. expr_view b.value) update.now)) (stmt_view body.now)) ++ rest_of work.old.items) }
    ensures weight { OnOk result (weigh work.new.items ≤ weigh work.old.items + 5 + init_size (init_view init.now) + maybe_size (maybe_expr (option_map (λ b. expr_view b.value) test.now)) + maybe_size (maybe_expr (option_map (λ b. expr_view b.value) update.now)) + stmt_size (stmt_view body.now)) }
{
    push(work, Work::Statement(body))?;
    sign(work, Sign::CloseParen)?;
    maybe(work, update)?;
    sign(work, Sign::Semicolon)?;
    maybe(work, test)?;
    sign(work, Sign::Semicolon)?;
    for_init(alloc, work, init)?;
    sign(work, Sign::OpenParen)?;
    keyword(work, Keyword::For)
}

/// An expression that may be absent.
fn maybe<'a>(work: &mut Vec<Work<'a>>, value: &'a Option<Box<Expr>>) -> Result<(), NoMemory>
    ensures rest { OnOk result (rest_of work.new.items ≡ spec.spell_maybe (maybe_expr (option_map (λ b. expr_view b.value) value.now)) ++ rest_of work.old.items) }
    ensures weight { OnOk result (weigh work.new.items ≤ weigh work.old.items + maybe_size (maybe_expr (option_map (λ b. expr_view b.value) value.now))) }
{
    match value {
        Some(e) => push(work, Work::Tree(e, false, 1)),
        None => Ok(()),
    }
}

/// What a `for` begins with.
fn for_init<'a>(alloc: Global, work: &mut Vec<Work<'a>>, init: &'a ForInit) -> Result<(), NoMemory>
    ensures rest { OnOk result (rest_of work.new.items ≡ spec.spell_init (init_view init.now) ++ rest_of work.old.items) }
    ensures weight { OnOk result (weigh work.new.items ≤ weigh work.old.items + init_size (init_view init.now)) }
{
    match init {
        ForInit::Nothing => Ok(()),
        ForInit::Let(items) => {
            list_lets(alloc, work, items)?;
            keyword(work, Keyword::Let)
        }
        ForInit::Const(items) => {
            list_consts(alloc, work, items)?;
            keyword(work, Keyword::Const)
        }
        ForInit::Value(e) => push(work, Work::Tree(e, false, 1)),
    }
}

/// `for ( const name of over ) body`
#[tactic(auto, using(std::proofs::Common::append_assoc))]
pub(super) fn for_of<'a>(
    alloc: Global,
    work: &mut Vec<Work<'a>>,
    constant: bool,
    name: &Name,
    over: &'a Expr,
    body: &'a Stmt,
) -> Result<(), NoMemory>
    ensures rest { OnOk result (rest_of work.new.items ≡ spec.spell_stmt (node.ForOf constant name.now (expr_view over.now) (stmt_view body.now)) ++ rest_of work.old.items) }
    ensures weight { OnOk result (weigh work.new.items ≡ weigh work.old.items + 9 + expr_size (expr_view over.now) + stmt_size (stmt_view body.now)) }
{
    push(work, Work::Statement(body))?;
    each_of(alloc, work, constant, name, over)?;
    keyword(work, Keyword::For)
}

/// `for await ( const name of over ) body`
#[tactic(auto, using(std::proofs::Common::append_assoc))]
pub(super) fn for_await<'a>(
    alloc: Global,
    work: &mut Vec<Work<'a>>,
    constant: bool,
    name: &Name,
    over: &'a Expr,
    body: &'a Stmt,
) -> Result<(), NoMemory>
    ensures rest { OnOk result (rest_of work.new.items ≡ spec.spell_stmt (node.ForAwait constant name.now (expr_view over.now) (stmt_view body.now)) ++ rest_of work.old.items) }
    ensures weight { OnOk result (weigh work.new.items ≡ weigh work.old.items + 10 + expr_size (expr_view over.now) + stmt_size (stmt_view body.now)) }
{
    push(work, Work::Statement(body))?;
    each_of(alloc, work, constant, name, over)?;
    keyword(work, Keyword::Await)?;
    keyword(work, Keyword::For)
}

/// `( const name of over )` and its like.
#[tactic(auto, using(std::proofs::Common::append_assoc))]
fn each_of<'a>(
    alloc: Global,
    work: &mut Vec<Work<'a>>,
    constant: bool,
    name: &Name,
    over: &'a Expr,
) -> Result<(), NoMemory>
    ensures rest { OnOk result (rest_of work.new.items ≡ TokenKind.Sign Sign.OpenParen ∷ TokenKind.Keyword (spec.declares constant) ∷ TokenKind.Name name.now ∷ TokenKind.Name (codes "of") ∷ (spec.spell inner (expr_view over.now) 1 ++ TokenKind.Sign Sign.CloseParen ∷ rest_of work.old.items)) }
    ensures weight { OnOk result (weigh work.new.items ≡ weigh work.old.items + 8 + expr_size (expr_view over.now)) }
{
    sign(work, Sign::CloseParen)?;
    push(work, Work::Tree(over, false, 1))?;
    mark(work, word(alloc, b"of")?)?;
    mark(work, TokenKind::Name(name.copy(alloc)?))?;
    keyword(work, declares(constant))?;
    sign(work, Sign::OpenParen)
}

fn declares(constant: bool) -> Keyword
    ensures { result ≡ spec.declares constant }
{
    if constant {
        Keyword::Const
    } else {
        Keyword::Let
    }
}
