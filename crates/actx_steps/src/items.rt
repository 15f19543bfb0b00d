//! The items of `let` and `const`, as the `a = 1` of `let a = 1 , b ;`.

ghost use Rattle.std.specs.Prelude.{◌≡◌, IfOk, List};
ghost use Rattle.actx_grammar.specs.Parser.{at_const_behind, at_const_name, at_let_behind, at_let_name, at_of, const_of, let_of};
ghost use Rattle.actx_grammar.specs.ParserState.{Frame as Held, of_for};
ghost use Rattle.actx_grammar.specs.Grammar.{with_let};
ghost use Rattle.actx_grammar.specs.Tree.{no_expr};
ghost use Rattle.actx_ast.specs.View.{consts_view, lets_view};
ghost use Rattle.actx_frames.specs.ParserView.{bounds, items_of_view, move_of, stack_view};

use super::ends::{end_consts, end_lets};
use actx_ast::tree::{ConstItem, LetItem};
use actx_data::{NoMemory, Twin};
use actx_frames::limits::{Rules, fits_below};
use actx_frames::lists::with_let;
use actx_frames::moves::{go_if, need_if, need_in};
use actx_frames::stack::Stack;
use actx_frames::state::{Frame, ItemsOf, Mode, Step};
use actx_frames::word::{is_binding, is_word};
use actx_grammar::name::Name;
use actx_grammar::side::Side;
use actx_grammar::token::{Sign, TokenKind};
use std::alloc::Global;

/// A token where the name of an item of a `let` is wanted.
pub fn at_let_name(
    alloc: Global,
    rules: Rules,
    of: ItemsOf,
    items: Vec<LetItem>,
    reach: usize,
    token: &TokenKind,
) -> Result<Step, NoMemory>
    ensures { IfOk result (λ r. (s : List Held) → at_let_name rules.side (items_of_view of) (lets_view items.items) reach s token.now ≡ move_of r s) }
{
    match token {
        TokenKind::Name(name) => {
            let mode = Mode::LetBehind(of, items, name.copy(alloc)?, reach);
            Ok(go_if(is_binding(rules.side, name), mode))
        }
        TokenKind::Keyword(_) => Ok(Step::Refused),
        TokenKind::Number(_) => Ok(Step::Refused),
        TokenKind::Text(_) => Ok(Step::Refused),
        TokenKind::Sign(_) => Ok(Step::Refused),
    }
}

/// `of` behind the first name of a `for`.
fn at_of(
    side: Side,
    constant: bool,
    name: Name,
    word: &Name,
    stack: &mut Stack,
) -> Result<Step, NoMemory>
    ensures { IfOk result (λ r. at_of side constant name word.now (stack_view stack.old) ≡ move_of r (stack_view stack.new)) }
{
    let _unchanged = stack.here(); // this read tells the proof that the stack stays
    match side {
        Side::Source => {
            let test = is_word(word, b"of");
            Ok(need_if(test, Frame::ForOver(constant, name), stack)?)
        }
        Side::Plain => Ok(Step::Refused),
    }
}

/// A word behind a name without a value, in a `for`.
#[tactic(auto, using(crate::proofs::ParseItems::first_let, crate::proofs::ParseItems::later_let))]
fn let_of_for(
    rules: Rules,
    items: Vec<LetItem>,
    name: Name,
    word: &Name,
    stack: &mut Stack,
) -> Result<Step, NoMemory>
    ensures { IfOk result (λ r. let_of rules.side of_for (lets_view items.items) name word.now (stack_view stack.old) ≡ move_of r (stack_view stack.new)) }
{
    if items.is_empty() {
        Ok(at_of(rules.side, false, name, word, stack)?)
    } else {
        let _unchanged = stack.here(); // this read tells the proof that the stack stays
        Ok(Step::Refused)
    }
}

/// A word behind a name without a value.
fn let_of(
    rules: Rules,
    of: ItemsOf,
    items: Vec<LetItem>,
    name: Name,
    word: &Name,
    stack: &mut Stack,
) -> Result<Step, NoMemory>
    ensures { IfOk result (λ r. let_of rules.side (items_of_view of) (lets_view items.items) name word.now (stack_view stack.old) ≡ move_of r (stack_view stack.new)) }
{
    match of {
        ItemsOf::For => let_of_for(rules, items, name, word, stack),
        ItemsOf::Statement => {
            let _unchanged = stack.here(); // this read tells the proof that the stack stays
            Ok(Step::Refused)
        }
    }
}

/// An item without a value, behind others.
fn let_alone(items: Vec<LetItem>, name: Name) -> Result<Vec<LetItem>, NoMemory>
    ensures { IfOk result (λ is. lets_view is.items ≡ with_let (lets_view items.items) name no_expr) }
{
    with_let(items, name, None)
}

/// A token behind the name of an item of a `let`.
pub fn at_let_behind(
    alloc: Global,
    rules: Rules,
    of: ItemsOf,
    items: Vec<LetItem>,
    name: Name,
    reach: usize,
    token: &TokenKind,
    stack: &mut Stack,
) -> Result<Step, NoMemory>
    ensures { IfOk result (λ r. at_let_behind (bounds rules) rules.side (items_of_view of) (lets_view items.items) name reach (stack_view stack.old) token.now ≡ move_of r (stack_view stack.new)) }
{
    let _unchanged = stack.here(); // this read tells the proof that the stack stays
    match token {
        TokenKind::Sign(Sign::Assign) => {
            let test = fits_below(rules, stack);
            Ok(need_if(test, Frame::Let(of, items, name, reach), stack)?)
        }
        TokenKind::Sign(Sign::Comma) => {
            let items = let_alone(items, name)?;
            Ok(Step::Go(Mode::LetName(of, items, reach)))
        }
        TokenKind::Sign(Sign::Semicolon) => {
            let items = let_alone(items, name)?;
            Ok(end_lets(alloc, of, items, reach)?)
        }
        TokenKind::Name(word) => Ok(let_of(rules, of, items, name, word, stack)?),
        TokenKind::Sign(_) => Ok(Step::Refused),
        TokenKind::Keyword(_) => Ok(Step::Refused),
        TokenKind::Number(_) => Ok(Step::Refused),
        TokenKind::Text(_) => Ok(Step::Refused),
    }
}

/// A token where the name of an item of a `const` is wanted.
pub fn at_const_name(
    alloc: Global,
    rules: Rules,
    of: ItemsOf,
    items: Vec<ConstItem>,
    reach: usize,
    token: &TokenKind,
) -> Result<Step, NoMemory>
    ensures { IfOk result (λ r. (s : List Held) → at_const_name rules.side (items_of_view of) (consts_view items.items) reach s token.now ≡ move_of r s) }
{
    match token {
        TokenKind::Name(name) => {
            let mode = Mode::ConstBehind(of, items, name.copy(alloc)?, reach);
            Ok(go_if(is_binding(rules.side, name), mode))
        }
        TokenKind::Keyword(_) => Ok(Step::Refused),
        TokenKind::Number(_) => Ok(Step::Refused),
        TokenKind::Text(_) => Ok(Step::Refused),
        TokenKind::Sign(_) => Ok(Step::Refused),
    }
}

/// A word behind a name of a `const`, in a `for`.
#[tactic(auto, using(crate::proofs::ParseItems::first_const, crate::proofs::ParseItems::later_const))]
fn const_of_for(
    rules: Rules,
    items: Vec<ConstItem>,
    name: Name,
    word: &Name,
    stack: &mut Stack,
) -> Result<Step, NoMemory>
    ensures { IfOk result (λ r. const_of rules.side of_for (consts_view items.items) name word.now (stack_view stack.old) ≡ move_of r (stack_view stack.new)) }
{
    if items.is_empty() {
        Ok(at_of(rules.side, true, name, word, stack)?)
    } else {
        let _unchanged = stack.here(); // this read tells the proof that the stack stays
        Ok(Step::Refused)
    }
}

/// A word behind a name of a `const`.
fn const_of(
    rules: Rules,
    of: ItemsOf,
    items: Vec<ConstItem>,
    name: Name,
    word: &Name,
    stack: &mut Stack,
) -> Result<Step, NoMemory>
    ensures { IfOk result (λ r. const_of rules.side (items_of_view of) (consts_view items.items) name word.now (stack_view stack.old) ≡ move_of r (stack_view stack.new)) }
{
    match of {
        ItemsOf::For => const_of_for(rules, items, name, word, stack),
        ItemsOf::Statement => {
            let _unchanged = stack.here(); // this read tells the proof that the stack stays
            Ok(Step::Refused)
        }
    }
}

/// A token behind the name of an item of a `const`.
pub fn at_const_behind(
    rules: Rules,
    of: ItemsOf,
    items: Vec<ConstItem>,
    name: Name,
    reach: usize,
    token: &TokenKind,
    stack: &mut Stack,
) -> Result<Step, NoMemory>
    ensures { IfOk result (λ r. at_const_behind rules.side (items_of_view of) (consts_view items.items) name reach (stack_view stack.old) token.now ≡ move_of r (stack_view stack.new)) }
{
    let _unchanged = stack.here(); // this read tells the proof that the stack stays
    match token {
        TokenKind::Sign(Sign::Assign) => {
            Ok(need_in(Frame::Const(of, items, name, reach), stack)?)
        }
        TokenKind::Name(word) => Ok(const_of(rules, of, items, name, word, stack)?),
        TokenKind::Sign(_) => Ok(Step::Refused),
        TokenKind::Keyword(_) => Ok(Step::Refused),
        TokenKind::Number(_) => Ok(Step::Refused),
        TokenKind::Text(_) => Ok(Step::Refused),
    }
}
