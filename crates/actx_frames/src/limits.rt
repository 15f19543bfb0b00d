//! What a run allows, as 8 arguments of a call on the side of users.

ghost use Rattle.std.specs.Prelude.{◌≡◌, suc, IfOk};
ghost use Rattle.actx_grammar.specs.Grammar.{deepest, most};
ghost use Rattle.actx_grammar.specs.Parser.{limits, unlisted, unlimited};
ghost use Rattle.actx_grammar.specs.ParserOperands.{begins_statement, fits_below, has_room, is_source, takes_whole};
ghost use Rattle.actx_grammar.specs.ParserState.{at_most, fits, takes_more};
ghost use Rattle.actx_frames.specs.ParserView.{bounds, limits_view, stack_view};

use super::forms::most_parts;
use super::stack::Stack;
use super::state::Frame;
use actx_data::NoMemory;
use actx_grammar::side::Side;

/// The greatest depth, and how many parameters or arguments a list takes; none where they are put aside.
#[derive(Clone, Copy, Drop)]
pub struct Limits {
    pub depth: Option<usize>,
    pub most: Option<usize>,
}

/// The side of a text, and the limits that are kept.
#[derive(Clone, Copy, Drop)]
pub struct Rules {
    pub side: Side,
    pub limits: Limits,
}

/// The greatest depth of a text.
fn deepest(side: Side) -> usize
    ensures { result ≡ deepest side }
{
    match side {
        Side::Source => 200,
        Side::Plain => 32_768,
    }
}

/// How many parameters or arguments one list of a text may have.
fn most(side: Side) -> Option<usize>
    ensures { result ≡ most side }
{
    match side {
        Side::Source => Some(8),
        Side::Plain => None,
    }
}

/// The limits of a side.
pub fn limits_of(side: Side) -> Limits
    ensures { limits_view result ≡ limits side }
{
    Limits {
        depth: Some(deepest(side)),
        most: most(side),
    }
}

/// Those without the bound on lists.
pub fn unlisted(side: Side) -> Limits
    ensures { limits_view result ≡ unlisted side }
{
    Limits {
        depth: Some(deepest(side)),
        most: None,
    }
}

/// No limits.
pub fn unlimited() -> Limits
    ensures { limits_view result ≡ unlimited }
{
    Limits {
        depth: None,
        most: None,
    }
}

/// Whether a text is one of users.
pub fn is_source(side: Side) -> bool
    ensures { result ≡ is_source side }
{
    match side {
        Side::Source => true,
        Side::Plain => false,
    }
}

/// Whether so many are allowed.
pub fn at_most(bound: Option<usize>, count: usize) -> bool
    ensures { result ≡ at_most bound count }
{
    match bound {
        Some(most) => count <= most,
        None => true,
    }
}

/// Whether one more than so many are allowed.
fn one_more(bound: Option<usize>, count: usize) -> bool
    ensures { result ≡ at_most bound (suc count) }
{
    match bound {
        Some(most) => count < most,
        None => true,
    }
}

/// Whether a part may be so deep.
pub fn fits(rules: Rules, reach: usize) -> bool
    ensures { result ≡ fits (bounds rules) reach }
{
    at_most(rules.limits.depth, reach)
}

/// Whether a part may be one level deeper.
pub fn fits_deeper(rules: Rules, reach: usize) -> bool
    ensures { result ≡ fits (bounds rules) (suc reach) }
{
    one_more(rules.limits.depth, reach)
}

/// Whether what stands here may have parts.
pub fn fits_below(rules: Rules, stack: &Stack) -> bool
    ensures { result ≡ fits_below (bounds rules) (stack_view stack.now) }
{
    fits_deeper(rules, stack.here())
}

/// One level deeper.
pub fn deeper(reach: usize) -> Result<usize, NoMemory>
    ensures { IfOk result (λ n. n ≡ suc reach) }
{
    if reach < usize::MAX {
        Ok(reach + 1)
    } else {
        Err(NoMemory)
    }
}

/// Whether a list takes one more argument or parameter behind so many.
pub fn takes_more(rules: Rules, count: usize) -> bool
    ensures { result ≡ takes_more (bounds rules) count }
{
    one_more(rules.limits.most, count)
}

/// Whether one more operand may stand on what is open.
#[tactic(auto, using(crate::proofs::ParseStack::how_many))]
pub fn has_room(rules: Rules, stack: &Stack) -> bool
    ensures { result ≡ has_room (bounds rules) (stack_view stack.now) }
{
    match stack.top() {
        Some(Frame::Call(_, args, _)) => takes_more(rules, args.len()),
        Some(Frame::Form(form, parts, _)) => {
            takes_more(rules, parts.len()) && one_more(most_parts(*form), parts.len())
        }
        _ => true,
    }
}

/// Whether an operand of level 1 may stand on what is open: no operator waits for it.
pub fn takes_whole(stack: &Stack) -> bool
    ensures { result ≡ takes_whole (stack_view stack.now) }
{
    match stack.top() {
        Some(Frame::Unary(_)) => false,
        Some(Frame::Await) => false,
        Some(Frame::Binary(_, _)) => false,
        Some(Frame::Logic(_, _)) => false,
        _ => true,
    }
}

/// Whether an operand here begins a statement.
pub fn begins_statement(stack: &Stack) -> bool
    ensures { result ≡ begins_statement (stack_view stack.now) }
{
    match stack.top() {
        Some(Frame::Value) => true,
        _ => false,
    }
}
