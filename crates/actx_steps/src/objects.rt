//! Object literals, as `{ a : 1 , b }`.

ghost use Rattle.std.specs.Prelude.{◌≡◌, [], if◌then◌else◌, codes, IfOk, List, None};
ghost use Rattle.actx_grammar.specs.ParserFunctions.{alone, at_fixed, at_key, at_key_word, at_method, at_method_key, behind_async, behind_key, behind_key_name, behind_property};
ghost use Rattle.actx_grammar.specs.ParserState.{Frame as Held, function_head, go, method, param_next, refuse};
ghost use Rattle.actx_grammar.specs.Tree.{Fixed};
ghost use Rattle.actx_grammar.specs.Words.{keyword_text, word_units};
ghost use Rattle.actx_ast.specs.View.{prop_key_view, properties_view};
ghost use Rattle.actx_frames.specs.ParserView.{bounds, move_of, stack_view};

use actx_ast::tree::{Expr, PropKey, Property};
use actx_data::{NoMemory, Twin, Units};
use actx_frames::key::{keyword_units, name_units};
use actx_frames::limits::{Rules, deeper, fits_below, is_source};
use actx_frames::lists::with_property;
use actx_frames::moves::{go_if, have_new, need_if, need_in};
use actx_frames::stack::Stack;
use actx_frames::state::{Frame, Head, Mode, Operand, Role, Step};
use actx_frames::word::{is_binding, named};
use actx_grammar::name::Name;
use actx_grammar::operators::FunctionKind;
use actx_grammar::side::Side;
use actx_grammar::token::{Keyword, Sign, TokenKind};
use std::alloc::Global;
use std::cmp::max;

/// A key that is a word or a text.
fn at_fixed(
    rules: Rules,
    properties: Vec<Property>,
    units: Units,
    reach: usize,
    stack: &mut Stack,
) -> Step
    ensures { at_fixed (bounds rules) (properties_view properties.items) units reach (stack_view stack.old) ≡ move_of result (stack_view stack.new) }
{
    let key = PropKey::Fixed(units);
    let mode = Mode::KeyBehind(properties, key, reach);
    go_if(fits_below(rules, stack), mode)
}

/// `async` where a key is wanted.
fn key_async(
    alloc: Global,
    rules: Rules,
    properties: Vec<Property>,
    reach: usize,
    stack: &mut Stack,
) -> Result<Step, NoMemory>
    ensures { IfOk result (λ r. at_key_word (bounds rules) rules.side (properties_view properties.items) Keyword.Async reach (stack_view stack.old) ≡ move_of r (stack_view stack.new)) }
{
    match rules.side {
        Side::Source => Ok(go_if(fits_below(rules, stack), Mode::KeyAsync(properties, reach))),
        Side::Plain => {
            let units = keyword_units(alloc, Keyword::Async)?;
            Ok(at_fixed(rules, properties, units, reach, stack))
        }
    }
}

/// A reserved word where a key is wanted.
fn at_key_word(
    alloc: Global,
    rules: Rules,
    properties: Vec<Property>,
    keyword: Keyword,
    reach: usize,
    stack: &mut Stack,
) -> Result<Step, NoMemory>
    ensures { IfOk result (λ r. at_key_word (bounds rules) rules.side (properties_view properties.items) keyword reach (stack_view stack.old) ≡ move_of r (stack_view stack.new)) }
{
    match keyword {
        Keyword::Async => key_async(alloc, rules, properties, reach, stack),
        _ => {
            let units = keyword_units(alloc, keyword)?;
            Ok(at_fixed(rules, properties, units, reach, stack))
        }
    }
}

/// A sign where a key is wanted.
fn key_sign(
    alloc: Global,
    rules: Rules,
    properties: Vec<Property>,
    reach: usize,
    sign: Sign,
    stack: &mut Stack,
) -> Result<Step, NoMemory>
    ensures { IfOk result (λ r. at_key (bounds rules) rules.side (properties_view properties.items) reach (stack_view stack.old) (TokenKind.Sign sign) ≡ move_of r (stack_view stack.new)) }
{
    let _unchanged = stack.here(); // this read tells the proof that the stack stays
    match sign {
        Sign::CloseBrace => Ok(have_new(alloc, Expr::Object(properties), reach)?),
        Sign::OpenBracket => {
            let test = fits_below(rules, stack);
            need_if(test, Frame::Computed(properties, None, reach), stack)
        }
        Sign::Star => {
            let test = is_source(rules.side) && fits_below(rules, stack);
            let mode = Mode::MethodKey(properties, FunctionKind::Generator, reach);
            Ok(go_if(test, mode))
        }
        _ => Ok(Step::Refused),
    }
}

/// A token where a key is wanted.
pub fn at_key(
    alloc: Global,
    rules: Rules,
    properties: Vec<Property>,
    reach: usize,
    token: &TokenKind,
    stack: &mut Stack,
) -> Result<Step, NoMemory>
    ensures { IfOk result (λ r. at_key (bounds rules) rules.side (properties_view properties.items) reach (stack_view stack.old) token.now ≡ move_of r (stack_view stack.new)) }
{
    let _unchanged = stack.here(); // this read tells the proof that the stack stays
    match token {
        TokenKind::Name(name) => {
            let mode = Mode::KeyName(properties, name.copy(alloc)?, reach);
            Ok(go_if(fits_below(rules, stack), mode))
        }
        TokenKind::Keyword(keyword) => {
            Ok(at_key_word(alloc, rules, properties, *keyword, reach, stack)?)
        }
        TokenKind::Text(units) => {
            Ok(at_fixed(rules, properties, units.copy(alloc)?, reach, stack))
        }
        TokenKind::Sign(sign) => { Ok(key_sign(alloc, rules, properties, reach, *sign, stack)?) },
        TokenKind::Number(_) => Ok(Step::Refused),
    }
}

/// The parameters of a method begin.
fn method(
    alloc: Global,
    properties: Vec<Property>,
    kind: FunctionKind,
    key: PropKey,
    reach: usize,
) -> Step
    ensures { (s : List Held) → go (param_next (function_head (method (properties_view properties.items) (prop_key_view key) reach) kind None) []) s ≡ move_of result s }
{
    let role = Role::Method(properties, key, reach);
    let head = Head::Function(role, kind, None);
    Step::Go(Mode::ParamNext(head, Vec::new(alloc)))
}

/// A token behind a key.
pub fn behind_key(
    alloc: Global,
    properties: Vec<Property>,
    key: PropKey,
    reach: usize,
    token: &TokenKind,
    stack: &mut Stack,
) -> Result<Step, NoMemory>
    ensures { IfOk result (λ r. behind_key (properties_view properties.items) (prop_key_view key) reach (stack_view stack.old) token.now ≡ move_of r (stack_view stack.new)) }
{
    let _unchanged = stack.here(); // this read tells the proof that the stack stays
    match token {
        TokenKind::Sign(Sign::Colon) => {
            Ok(need_in(Frame::Property(properties, key, reach), stack)?)
        }
        TokenKind::Sign(Sign::OpenParen) => {
            Ok(method(alloc, properties, FunctionKind::Normal, key, reach))
        }
        TokenKind::Sign(_) => Ok(Step::Refused),
        TokenKind::Name(_) => Ok(Step::Refused),
        TokenKind::Keyword(_) => Ok(Step::Refused),
        TokenKind::Number(_) => Ok(Step::Refused),
        TokenKind::Text(_) => Ok(Step::Refused),
    }
}

/// A key that is a name.
fn name_key(alloc: Global, name: &Name) -> Result<PropKey, NoMemory>
    ensures { IfOk result (λ key. prop_key_view key ≡ Fixed (word_units name.now)) }
{
    Ok(PropKey::Fixed(name_units(alloc, name)?))
}

/// A key that is a reserved word.
fn word_key(alloc: Global, keyword: Keyword) -> Result<PropKey, NoMemory>
    ensures { IfOk result (λ key. prop_key_view key ≡ Fixed (word_units (keyword_text keyword))) }
{
    Ok(PropKey::Fixed(keyword_units(alloc, keyword)?))
}

/// A key that is a text.
fn text_key(alloc: Global, units: &Units) -> Result<PropKey, NoMemory>
    ensures { IfOk result (λ key. prop_key_view key ≡ Fixed units.now) }
{
    Ok(PropKey::Fixed(units.copy(alloc)?))
}

/// A name alone is the property with that name as its value.
fn alone(alloc: Global, properties: Vec<Property>, name: &Name) -> Result<Vec<Property>, NoMemory>
    ensures { IfOk result (λ ps. properties_view ps.items ≡ alone (properties_view properties.items) name.now) }
{
    let key = name_key(alloc, name)?;
    let value = named(alloc, name)?;
    with_property(properties, key, value)
}

/// A token behind a key that might be the whole property.
pub fn behind_key_name(
    alloc: Global,
    rules: Rules,
    properties: Vec<Property>,
    name: Name,
    reach: usize,
    token: &TokenKind,
    stack: &mut Stack,
) -> Result<Step, NoMemory>
    ensures { IfOk result (λ r. behind_key_name rules.side (properties_view properties.items) name reach (stack_view stack.old) token.now ≡ move_of r (stack_view stack.new)) }
{
    match token {
        TokenKind::Sign(Sign::Comma) => {
            let reach = max(reach, deeper(stack.here())?);
            let properties = alone(alloc, properties, &name)?;
            let test = is_binding(rules.side, &name);
            Ok(go_if(test, Mode::KeyNext(properties, reach)))
        }
        TokenKind::Sign(Sign::CloseBrace) => {
            let reach = max(reach, deeper(stack.here())?);
            let properties = alone(alloc, properties, &name)?;
            let expr = Box::new(alloc, Expr::Object(properties))?;
            let test = is_binding(rules.side, &name);
            Ok(go_if(test, Mode::Have(Operand { expr, reach })))
        }
        _ => {
            let key = name_key(alloc, &name)?;
            behind_key(alloc, properties, key, reach, token, stack)
        }
    }
}

/// A token where the key of a method is wanted.
pub fn at_method_key(
    alloc: Global,
    properties: Vec<Property>,
    kind: FunctionKind,
    reach: usize,
    token: &TokenKind,
    stack: &mut Stack,
) -> Result<Step, NoMemory>
    ensures { IfOk result (λ r. at_method_key (properties_view properties.items) kind reach (stack_view stack.old) token.now ≡ move_of r (stack_view stack.new)) }
{
    let _unchanged = stack.here(); // this read tells the proof that the stack stays
    match token {
        TokenKind::Name(name) => {
            let key = name_key(alloc, name)?;
            Ok(Step::Go(Mode::MethodOpen(properties, kind, key, reach)))
        }
        TokenKind::Keyword(keyword) => {
            let key = word_key(alloc, *keyword)?;
            Ok(Step::Go(Mode::MethodOpen(properties, kind, key, reach)))
        }
        TokenKind::Text(units) => {
            let key = text_key(alloc, units)?;
            Ok(Step::Go(Mode::MethodOpen(properties, kind, key, reach)))
        }
        TokenKind::Sign(Sign::OpenBracket) => {
            Ok(need_in(Frame::Computed(properties, Some(kind), reach), stack)?)
        }
        TokenKind::Sign(_) => Ok(Step::Refused),
        TokenKind::Number(_) => Ok(Step::Refused),
    }
}

/// A token behind `async`, which begins a method on its line.
fn async_method(
    alloc: Global,
    properties: Vec<Property>,
    reach: usize,
    token: &TokenKind,
    line_before: bool,
    stack: &mut Stack,
) -> Result<Step, NoMemory>
    ensures { IfOk result (λ r. (if line_before then refuse else at_method_key (properties_view properties.items) FunctionKind.Async reach (stack_view stack.old) token.now) ≡ move_of r (stack_view stack.new)) }
{
    if line_before {
        Ok(Step::Refused)
    } else {
        Ok(at_method_key(alloc, properties, FunctionKind::Async, reach, token, stack)?)
    }
}

/// `async` is the key itself.
fn async_key(
    alloc: Global,
    properties: Vec<Property>,
    reach: usize,
    token: &TokenKind,
    stack: &mut Stack,
) -> Result<Step, NoMemory>
    ensures { IfOk result (λ r. behind_key (properties_view properties.items) (Fixed (codes "async")) reach (stack_view stack.old) token.now ≡ move_of r (stack_view stack.new)) }
{
    let key = word_key(alloc, Keyword::Async)?;
    behind_key(alloc, properties, key, reach, token, stack)
}

/// A token behind `async` where a key is wanted.
pub fn behind_async(
    alloc: Global,
    properties: Vec<Property>,
    reach: usize,
    token: &TokenKind,
    line_before: bool,
    stack: &mut Stack,
) -> Result<Step, NoMemory>
    ensures { IfOk result (λ r. behind_async (properties_view properties.items) reach (stack_view stack.old) token.now line_before ≡ move_of r (stack_view stack.new)) }
{
    match token {
        TokenKind::Sign(Sign::Colon) => async_key(alloc, properties, reach, token, stack),
        TokenKind::Sign(Sign::OpenParen) => async_key(alloc, properties, reach, token, stack),
        _ => async_method(alloc, properties, reach, token, line_before, stack),
    }
}

/// A token where the parenthesis behind the key of a method is wanted.
pub fn at_method(
    alloc: Global,
    properties: Vec<Property>,
    kind: FunctionKind,
    key: PropKey,
    reach: usize,
    token: &TokenKind,
) -> Step
    ensures { (s : List Held) → at_method (properties_view properties.items) kind (prop_key_view key) reach s token.now ≡ move_of result s }
{
    match token {
        TokenKind::Sign(Sign::OpenParen) => method(alloc, properties, kind, key, reach),
        TokenKind::Sign(_) => Step::Refused,
        TokenKind::Name(_) => Step::Refused,
        TokenKind::Keyword(_) => Step::Refused,
        TokenKind::Number(_) => Step::Refused,
        TokenKind::Text(_) => Step::Refused,
    }
}

/// A token behind a method.
pub fn behind_property(
    alloc: Global,
    properties: Vec<Property>,
    reach: usize,
    token: &TokenKind,
) -> Result<Step, NoMemory>
    ensures { IfOk result (λ r. (s : List Held) → behind_property (properties_view properties.items) reach s token.now ≡ move_of r s) }
{
    match token {
        TokenKind::Sign(Sign::Comma) => Ok(Step::Go(Mode::KeyNext(properties, reach))),
        TokenKind::Sign(Sign::CloseBrace) => {
            Ok(have_new(alloc, Expr::Object(properties), reach)?)
        }
        TokenKind::Sign(_) => Ok(Step::Refused),
        TokenKind::Name(_) => Ok(Step::Refused),
        TokenKind::Keyword(_) => Ok(Step::Refused),
        TokenKind::Number(_) => Ok(Step::Refused),
        TokenKind::Text(_) => Ok(Step::Refused),
    }
}
