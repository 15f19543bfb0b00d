//! What operators make of values (ECMA-262, 13.15.3), as `2 + "a"` is `"2a"`.

ghost use Rattle.std.specs.Prelude.{◌≡◌, IfOk, IfSome, IsTrue};
ghost use Rattle.actx_data.specs.Number.{IsWhole};
ghost use Rattle.actx_data.specs.Units.{joined};
ghost use Rattle.actx_target.specs.Sound.{is_sound};
ghost use Rattle.actx_rules.specs.Operators.{plus, minus, times, binary, same, is_true, primitive_text, truth_text, join_before, join_after, number_or_leaves, text_or_leaves};
ghost use Rattle.actx_target.specs.View.{answer_view};

use crate::sound::Sound;
use actx_data::{ErrorName, NoMemory, Twin, Units, Value, add, join, mul, number_text, sub};
use actx_grammar::operators::BinaryOp;
use std::alloc::Global;

/// The answer of an operation.
#[derive(Drop)]
pub enum Answer {
    Gives(Sound),
    /// An error of this name is thrown.
    Throws(ErrorName),
    /// The run leaves the profile.
    Leaves,
}

/// The units of an ASCII text.
pub fn ascii(alloc: Global, text: &[u8]) -> Result<Units, NoMemory>
    ensures { IfOk result (λ u. u ≡ text.now) }
{
    let list = text.iter().map(|byte| u16::from(*byte)).collect(alloc)?;
    Ok(Units::from_vec(list))
}

/// The text of a truth value.
fn truth_text(alloc: Global, truth: bool) -> Result<Units, NoMemory>
    ensures { IfOk result (λ u. u ≡ truth_text truth) }
{
    if truth {
        ascii(alloc, b"true")
    } else {
        ascii(alloc, b"false")
    }
}

/// The text of a primitive value; a thing has none (ECMA-262, 7.1.17).
pub fn primitive_text(alloc: Global, value: &Value) -> Result<Option<Units>, NoMemory>
    ensures { IfOk result (λ found. found ≡ primitive_text value.now) }
{
    match value {
        Value::Undefined => Ok(Some(ascii(alloc, b"undefined")?)),
        Value::Null => Ok(Some(ascii(alloc, b"null")?)),
        Value::Truth(truth) => Ok(Some(truth_text(alloc, *truth)?)),
        Value::Num(n) => Ok(Some(number_text(alloc, *n)?)),
        Value::Text(units) => Ok(Some(units.copy(alloc)?)),
        Value::Thing(_) => Ok(None),
    }
}

/// The answer that is a number, where the profile has it.
fn number_or_leaves(found: Option<i64>) -> Answer
    requires { IfSome found (λ z. IsWhole z) }
    ensures { answer_view result ≡ number_or_leaves found }
{
    match found {
        Some(n) => Answer::Gives(Sound::number(n)),
        None => Answer::Leaves,
    }
}

/// One text behind another, where that is no longer than a text may be.
fn joined(alloc: Global, a: &Units, b: &Units) -> Result<Answer, NoMemory>
    ensures { IfOk result (λ answer. answer_view answer ≡ text_or_leaves (joined a.now b.now)) }
{
    match join(alloc, a, b)? {
        Some(units) => Ok(Answer::Gives(Sound::text(units))),
        None => Ok(Answer::Leaves),
    }
}

/// A text and behind it the text of a primitive value.
fn join_before(alloc: Global, text: &Units, value: &Value) -> Result<Answer, NoMemory>
    ensures { IfOk result (λ answer. answer_view answer ≡ join_before text.now (primitive_text value.now)) }
{
    match primitive_text(alloc, value)? {
        Some(other) => joined(alloc, text, &other),
        None => Ok(Answer::Leaves),
    }
}

/// The text of a primitive value and behind it a text.
fn join_after(alloc: Global, value: &Value, text: &Units) -> Result<Answer, NoMemory>
    ensures { IfOk result (λ answer. answer_view answer ≡ join_after (primitive_text value.now) text.now) }
{
    match primitive_text(alloc, value)? {
        Some(other) => joined(alloc, &other, text),
        None => Ok(Answer::Leaves),
    }
}

/// `+`: two numbers, or a text and a primitive value; all else is outside the profile.
fn plus(alloc: Global, a: &Value, b: &Value) -> Result<Answer, NoMemory>
    requires left { IsTrue (is_sound a.now) }
    requires right { IsTrue (is_sound b.now) }
    ensures { IfOk result (λ answer. answer_view answer ≡ plus a.now b.now) }
{
    match (a, b) {
        (Value::Text(text), _) => join_before(alloc, text, b),
        (_, Value::Text(text)) => join_after(alloc, a, text),
        (Value::Num(x), Value::Num(y)) => Ok(number_or_leaves(add(*x, *y))),
        _ => Ok(Answer::Leaves),
    }
}

/// `-` of two numbers; all else is outside the profile.
fn minus(a: &Value, b: &Value) -> Answer
    requires left { IsTrue (is_sound a.now) }
    requires right { IsTrue (is_sound b.now) }
    ensures { answer_view result ≡ minus a.now b.now }
{
    match (a, b) {
        (Value::Num(x), Value::Num(y)) => number_or_leaves(sub(*x, *y)),
        _ => Answer::Leaves,
    }
}

/// `*` of two numbers; all else is outside the profile.
fn times(a: &Value, b: &Value) -> Answer
    requires left { IsTrue (is_sound a.now) }
    requires right { IsTrue (is_sound b.now) }
    ensures { answer_view result ≡ times a.now b.now }
{
    match (a, b) {
        (Value::Num(x), Value::Num(y)) => number_or_leaves(mul(*x, *y)),
        _ => Answer::Leaves,
    }
}

/// `===`: primitives by their values, things by their numbers (ECMA-262, 7.2.15).
fn same(a: &Value, b: &Value) -> bool
    ensures { result ≡ same a.now b.now }
{
    match (a, b) {
        (Value::Undefined, Value::Undefined) => true,
        (Value::Null, Value::Null) => true,
        (Value::Truth(x), Value::Truth(y)) => *x == *y,
        (Value::Num(x), Value::Num(y)) => *x == *y,
        (Value::Text(x), Value::Text(y)) => x.as_slice() == y.as_slice(),
        (Value::Thing(x), Value::Thing(y)) => *x == *y,
        _ => false,
    }
}

/// Whether a test of the value succeeds (ECMA-262, 7.1.2).
pub fn is_true(value: &Value) -> bool
    ensures { result ≡ is_true value.now }
{
    match value {
        Value::Undefined => false,
        Value::Null => false,
        Value::Truth(truth) => *truth,
        Value::Num(n) => *n != 0,
        Value::Text(units) => !units.as_slice().is_empty(),
        Value::Thing(_) => true,
    }
}

/// What an operator makes of two values.
pub fn binary(alloc: Global, op: BinaryOp, a: &Sound, b: &Sound) -> Result<Answer, NoMemory>
    ensures { IfOk result (λ answer. answer_view answer ≡ binary op a.now b.now) }
{
    match op {
        BinaryOp::Add => plus(alloc, a.value(), b.value()),
        BinaryOp::Sub => Ok(minus(a.value(), b.value())),
        BinaryOp::Mul => Ok(times(a.value(), b.value())),
        BinaryOp::Same => Ok(Answer::Gives(Sound::truth(same(a.value(), b.value())))),
        _ => Ok(Answer::Leaves),
    }
}
