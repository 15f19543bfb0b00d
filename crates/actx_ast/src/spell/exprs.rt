//! Expressions that are spelled next, with their parentheses and without: `a * ( b + c )`.

ghost use Rattle.std.specs.Prelude.{◌≡◌, ◌≤◌, ◌<◌, ◌+◌, ◌++◌, ◌∷◌, OnOk};
ghost use Rattle.actx_ast.specs.Sizes.{expr_size, key_size};
ghost use Rattle.actx_grammar.specs.Spell as spec;
ghost use Rattle.actx_grammar.specs.Spell.{inner};
ghost use Rattle.actx_ast.specs.Starts.{start_of};
ghost use Rattle.actx_grammar.specs.Tree as node;
ghost use Rattle.actx_ast.specs.Unspelled.{bare, needs_parens, rest_of, weigh};
ghost use Rattle.actx_ast.specs.View.{expr_view, key_view};

use super::calls::{call, form_call, function, object};
use super::put::word;
use super::signs::{bump_sign, change_sign, logic_sign, sign_of, unary_word};
use super::{Work, keyword, mark, push, sign};
use crate::levels::{is_wrapped, left_level, level_of, logic_level, right_level};
use crate::tree::{Expr, Key};
use actx_data::{NoMemory, Twin};
use actx_grammar::keywords::word_token;
use actx_grammar::name::Name;
use actx_grammar::token::{Keyword, Sign, TokenKind};
use std::alloc::Global;

/// Whether an expression stands in parentheses.
fn needs_parens(first: bool, e: &Expr, level: u8) -> bool
    ensures { result ≡ needs_parens (start_of first) (expr_view e.now) level }
{
    match e {
        Expr::Unary(_, _) | Expr::Await(_) => 9 < level,
        Expr::Binary(op, _, _) => level_of(*op) < level,
        Expr::Logic(op, _, _) => logic_level(*op) < level,
        Expr::Choice(_, _, _) => 2 < level,
        Expr::SetName(_, _)
        | Expr::SetMember(_, _, _)
        | Expr::Change(_, _, _)
        | Expr::Yield(_)
        | Expr::YieldAll(_) => 1 < level,
        Expr::Bump { .. } => 10 < level,
        Expr::Member(_, _) | Expr::Call(_, _) | Expr::Form(_, _) => 11 < level,
        Expr::Object(_) => first,
        Expr::Function(function) => is_wrapped(function.kind, first, level),
        Expr::Num(_)
        | Expr::Text(_)
        | Expr::Truth(_)
        | Expr::Null
        | Expr::Undefined
        | Expr::This
        | Expr::Named(_) => false,
    }
}

/// An expression, with its parentheses: `first` says whether a statement begins with it, `level` how tightly its place binds.
#[tactic(auto, using(std::proofs::Common::append_assoc, crate::proofs::Unwrapped::wrapped, crate::proofs::Unwrapped::unwrapped))]
pub(super) fn tree<'a>(
    alloc: Global,
    work: &mut Vec<Work<'a>>,
    first: bool,
    e: &'a Expr,
    level: u8,
) -> Result<(), NoMemory>
    ensures rest { OnOk result (rest_of work.new.items ≡ spec.spell (start_of first) (expr_view e.now) level ++ rest_of work.old.items) }
    ensures weight { OnOk result (weigh work.new.items < weigh work.old.items + 3 + expr_size (expr_view e.now)) }
{
    if needs_parens(first, e, level) {
        sign(work, Sign::CloseParen)?;
        bare(alloc, work, false, e)?;
        sign(work, Sign::OpenParen)
    } else {
        bare(alloc, work, first, e)
    }
}

/// An expression without parentheses round it.
#[tactic(auto, using(std::proofs::Common::append_assoc))]
fn bare<'a>(
    alloc: Global,
    work: &mut Vec<Work<'a>>,
    first: bool,
    e: &'a Expr,
) -> Result<(), NoMemory>
    ensures rest { OnOk result (rest_of work.new.items ≡ bare (start_of first) (expr_view e.now) ++ rest_of work.old.items) }
    ensures weight { OnOk result (weigh work.new.items < weigh work.old.items + expr_size (expr_view e.now)) }
{
    match e {
        Expr::Num(n) => mark(work, TokenKind::Number(*n)),
        Expr::Text(units) => mark(work, TokenKind::Text(units.copy(alloc)?)),
        Expr::Truth(true) => keyword(work, Keyword::True),
        Expr::Truth(false) => keyword(work, Keyword::False),
        Expr::Null => keyword(work, Keyword::Null),
        Expr::Undefined => mark(work, word(alloc, b"undefined")?),
        Expr::This => keyword(work, Keyword::This),
        Expr::Named(name) => mark(work, TokenKind::Name(name.copy(alloc)?)),
        Expr::Unary(op, a) => prefix(work, unary_word(*op), a, 9),
        Expr::Binary(op, a, b) => {
            let own = level_of(*op);
            infix(work, first, a, own, sign_of(*op), b, own + 1)
        }
        Expr::Logic(op, a, b) => {
            let left = left_level(*op, a);
            infix(work, first, a, left, logic_sign(*op), b, right_level(*op))
        }
        Expr::Choice(test, a, b) => choice(work, first, test, a, b),
        Expr::SetName(name, value) => assign(alloc, work, name, Sign::Assign, value),
        Expr::SetMember(base, key, value) => set_member(alloc, work, first, base, key, value),
        Expr::Change(name, op, value) => assign(alloc, work, name, change_sign(*op), value),
        Expr::Bump { name, up, before } => bump(alloc, work, name, *up, *before),
        Expr::Member(base, key) => member(alloc, work, first, base, key),
        Expr::Call(callee, args) => call(work, first, callee, args),
        Expr::Object(properties) => object(alloc, work, properties),
        Expr::Function(f) => function(work, f),
        Expr::Yield(None) => keyword(work, Keyword::Yield),
        Expr::Yield(Some(value)) => prefix(work, TokenKind::Keyword(Keyword::Yield), value, 1),
        Expr::YieldAll(value) => yield_all(work, value),
        Expr::Await(value) => prefix(work, TokenKind::Keyword(Keyword::Await), value, 9),
        Expr::Form(form, parts) => form_call(alloc, work, first, *form, parts),
    }
}

/// A token before an expression.
fn prefix<'a>(
    work: &mut Vec<Work<'a>>,
    token: TokenKind,
    e: &'a Expr,
    level: u8,
) -> Result<(), NoMemory>
    ensures rest { OnOk result (rest_of work.new.items ≡ token ∷ (spec.spell inner (expr_view e.now) level ++ rest_of work.old.items)) }
    ensures weight { OnOk result (weigh work.new.items ≡ weigh work.old.items + 4 + expr_size (expr_view e.now)) }
{
    push(work, Work::Tree(e, false, level))?;
    mark(work, token)
}

/// A sign between two expressions.
#[tactic(auto, using(std::proofs::Common::append_assoc))]
fn infix<'a>(
    work: &mut Vec<Work<'a>>,
    first: bool,
    a: &'a Expr,
    left: u8,
    between: Sign,
    b: &'a Expr,
    right: u8,
) -> Result<(), NoMemory>
    ensures rest { OnOk result (rest_of work.new.items ≡ (spec.spell (start_of first) (expr_view a.now) left ++ TokenKind.Sign between ∷ spec.spell inner (expr_view b.now) right) ++ rest_of work.old.items) }
    ensures weight { OnOk result (weigh work.new.items ≡ weigh work.old.items + 7 + expr_size (expr_view a.now) + expr_size (expr_view b.now)) }
{
    push(work, Work::Tree(b, false, right))?;
    sign(work, between)?;
    push(work, Work::Tree(a, first, left))
}

/// `test ? a : b`
#[tactic(auto, using(std::proofs::Common::append_assoc))]
fn choice<'a>(
    work: &mut Vec<Work<'a>>,
    first: bool,
    test: &'a Expr,
    a: &'a Expr,
    b: &'a Expr,
) -> Result<(), NoMemory>
    ensures rest { OnOk result (rest_of work.new.items ≡ bare (start_of first) (node.Choice (expr_view test.now) (expr_view a.now) (expr_view b.now)) ++ rest_of work.old.items) }
    ensures weight { OnOk result (weigh work.new.items ≡ weigh work.old.items + 11 + expr_size (expr_view test.now) + expr_size (expr_view a.now) + expr_size (expr_view b.now)) }
{
    push(work, Work::Tree(b, false, 1))?;
    sign(work, Sign::Colon)?;
    push(work, Work::Tree(a, false, 1))?;
    sign(work, Sign::Question)?;
    push(work, Work::Tree(test, first, 3))
}

/// `name = value` and `name += value`
fn assign<'a>(
    alloc: Global,
    work: &mut Vec<Work<'a>>,
    name: &Name,
    between: Sign,
    value: &'a Expr,
) -> Result<(), NoMemory>
    ensures rest { OnOk result (rest_of work.new.items ≡ TokenKind.Name name.now ∷ TokenKind.Sign between ∷ (spec.spell inner (expr_view value.now) 1 ++ rest_of work.old.items)) }
    ensures weight { OnOk result (weigh work.new.items ≡ weigh work.old.items + 5 + expr_size (expr_view value.now)) }
{
    push(work, Work::Tree(value, false, 1))?;
    sign(work, between)?;
    mark(work, TokenKind::Name(name.copy(alloc)?))
}

/// `base . key = value` and `base [ key ] = value`
#[tactic(auto, using(std::proofs::Common::append_assoc))]
fn set_member<'a>(
    alloc: Global,
    work: &mut Vec<Work<'a>>,
    first: bool,
    base: &'a Expr,
    key: &'a Key,
    value: &'a Expr,
) -> Result<(), NoMemory>
    ensures rest { OnOk result (rest_of work.new.items ≡ bare (start_of first) (node.SetMember (expr_view base.now) (key_view key.now) (expr_view value.now)) ++ rest_of work.old.items) }
    ensures weight { OnOk result (weigh work.new.items ≤ weigh work.old.items + 7 + expr_size (expr_view base.now) + key_size (key_view key.now) + expr_size (expr_view value.now)) }
{
    push(work, Work::Tree(value, false, 1))?;
    sign(work, Sign::Assign)?;
    key_tokens(alloc, work, key)?;
    push(work, Work::Tree(base, first, 11))
}

/// `++ name`, `name --` and their like
fn bump<'a>(
    alloc: Global,
    work: &mut Vec<Work<'a>>,
    name: &Name,
    up: bool,
    before: bool,
) -> Result<(), NoMemory>
    ensures rest { OnOk result (rest_of work.new.items ≡ bare inner (node.Bump name.now up before) ++ rest_of work.old.items) }
    ensures weight { OnOk result (weigh work.new.items ≡ weigh work.old.items + 2) }
{
    if before {
        mark(work, TokenKind::Name(name.copy(alloc)?))?;
        sign(work, bump_sign(up))
    } else {
        sign(work, bump_sign(up))?;
        mark(work, TokenKind::Name(name.copy(alloc)?))
    }
}

/// `base . key` and `base [ key ]`
#[tactic(auto, using(std::proofs::Common::append_assoc))]
fn member<'a>(
    alloc: Global,
    work: &mut Vec<Work<'a>>,
    first: bool,
    base: &'a Expr,
    key: &'a Key,
) -> Result<(), NoMemory>
    ensures rest { OnOk result (rest_of work.new.items ≡ (spec.spell (start_of first) (expr_view base.now) 11 ++ spec.spell_key (key_view key.now)) ++ rest_of work.old.items) }
    ensures weight { OnOk result (weigh work.new.items ≤ weigh work.old.items + 3 + expr_size (expr_view base.now) + key_size (key_view key.now)) }
{
    key_tokens(alloc, work, key)?;
    push(work, Work::Tree(base, first, 11))
}

/// A reserved word may stand behind the dot.
#[tactic(auto, using(std::proofs::Common::append_assoc))]
fn key_tokens<'a>(alloc: Global, work: &mut Vec<Work<'a>>, key: &'a Key) -> Result<(), NoMemory>
    ensures rest { OnOk result (rest_of work.new.items ≡ spec.spell_key (key_view key.now) ++ rest_of work.old.items) }
    ensures weight { OnOk result (weigh work.new.items ≤ weigh work.old.items + key_size (key_view key.now)) }
{
    match key {
        Key::Dot(name) => {
            mark(work, word_token(alloc, name)?)?;
            sign(work, Sign::Dot)
        }
        Key::Index(e) => in_brackets(work, e),
    }
}

/// `[ e ]`
#[tactic(auto, using(std::proofs::Common::append_assoc))]
pub(super) fn in_brackets<'a>(work: &mut Vec<Work<'a>>, e: &'a Expr) -> Result<(), NoMemory>
    ensures rest { OnOk result (rest_of work.new.items ≡ spec.square (spec.spell inner (expr_view e.now) 1) ++ rest_of work.old.items) }
    ensures weight { OnOk result (weigh work.new.items ≡ weigh work.old.items + 5 + expr_size (expr_view e.now)) }
{
    sign(work, Sign::CloseBracket)?;
    push(work, Work::Tree(e, false, 1))?;
    sign(work, Sign::OpenBracket)
}

/// `yield * value`
fn yield_all<'a>(work: &mut Vec<Work<'a>>, value: &'a Expr) -> Result<(), NoMemory>
    ensures rest { OnOk result (rest_of work.new.items ≡ bare inner (node.YieldAll (expr_view value.now)) ++ rest_of work.old.items) }
    ensures weight { OnOk result (weigh work.new.items ≡ weigh work.old.items + 5 + expr_size (expr_view value.now)) }
{
    push(work, Work::Tree(value, false, 1))?;
    sign(work, Sign::Star)?;
    keyword(work, Keyword::Yield)
}
