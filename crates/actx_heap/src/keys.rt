//! Keys of properties: the text that a value is as a key, and the number that a text is (ECMA-262, 7.1.19 and 10.4.3.5).

ghost use Rattle.std.specs.Prelude.{◌≡◌, ◌^◌, ◌-◌, IfOk, min};
ghost use Rattle.actx_heap.specs.Texts.{is_digit, all_digits, is_index, index_of};
ghost use Rattle.actx_heap.specs.Properties.{key_text};

use actx_data::{NoMemory, Twin, Units, Value, number_text};
use std::alloc::Global;

/// The unit of the digit 0.
const ZERO: u16 = 48;

/// The text that a value is as a key; only texts and numbers are keys.
pub fn key_text(alloc: Global, key: &Value) -> Result<Option<Units>, NoMemory>
    ensures { IfOk result (λ found. found ≡ key_text key.now) }
{
    Ok(match key {
        Value::Text(units) => Some(units.copy(alloc)?),
        Value::Num(number) => Some(number_text(alloc, *number)?),
        _ => None,
    })
}

/// Whether a unit is a digit.
fn is_digit(unit: u16) -> bool
    ensures { result ≡ is_digit unit }
{
    48 <= unit && unit <= 57
}

/// Whether all units are digits.
fn all_digits(units: &[u16]) -> bool
    ensures { result ≡ all_digits units.now }
{
    for unit in units {
        if !is_digit(*unit) {
            return false;
        }
    }
    true
}

/// Whether a text is a decimal whole number without a sign and without leading zeros.
pub fn is_index(units: &[u16]) -> bool
    ensures { result ≡ is_index units.now }
{
    match units {
        [] => false,
        [unit] => is_digit(*unit),
        [unit, rest @ ..] => is_digit(*unit) && (*unit != ZERO && all_digits(rest)),
    }
}

/// The number that digits are, or the greatest u64 where that is less.
pub fn index_of(units: &[u16]) -> u64
    ensures { result ≡ min (index_of units.now) (2 ^ 64 - 1) }
{
    let mut number: u64 = 0;
    for unit in units {
        let digit = u64::from(unit.saturating_sub(ZERO));
        number = number.saturating_mul(10).saturating_add(digit);
    }
    number
}
