//! Shown values as a line tells them: `"no"` of a text, `#1 TypeError ""` of an error.

ghost use Rattle.std.specs.Prelude.{◌≡◌, IfOk, string_bytes};
ghost use Rattle.json.specs.Print.{quoted};
ghost use Rattle.actx_top.specs.Answers.{shown_text, text_shown};
ghost use Rattle.actx_rules.specs.Properties.{error_text};

use actx_data::{ErrorName, NoMemory, Shown, Units};
use serde_json::Value;
use std::alloc::Global;

/// A text as a JSON string.
fn quoted(alloc: Global, text: &str) -> Result<String, NoMemory>
    ensures { IfOk result (λ line. string_bytes line ≡ quoted text.now) }
{
    Ok(Value::try_from_str(alloc, text)?.to_string(alloc)?)
}

/// Units as a JSON string.
fn text_shown(alloc: Global, units: &Units) -> Result<String, NoMemory>
    ensures { IfOk result (λ line. string_bytes line ≡ text_shown units.now) }
{
    let text = units.to_text(alloc)?;
    quoted(alloc, text.as_str())
}

/// The name of an error.
fn error_name(name: ErrorName) -> &'static str
    ensures { result.now ≡ error_text name }
{
    match name {
        ErrorName::Error => "Error",
        ErrorName::TypeError => "TypeError",
        ErrorName::RangeError => "RangeError",
        ErrorName::ReferenceError => "ReferenceError",
    }
}

/// A value as a line shows it.
pub fn shown_text(alloc: Global, shown: &Shown) -> Result<String, NoMemory>
    ensures { IfOk result (λ line. string_bytes line ≡ shown_text shown.now) }
{
    match shown {
        Shown::Undefined => Ok(String::from_str(alloc, "undefined")?),
        Shown::Null => Ok(String::from_str(alloc, "null")?),
        Shown::Truth(truth) => {
            Ok(String::from_str(alloc, if *truth { "true" } else { "false" })?)
        }
        Shown::Num(number) => Ok(format!(in alloc; "{number}")?),
        Shown::Text(units) => text_shown(alloc, units),
        Shown::Object(number) => Ok(format!(in alloc; "#{number}")?),
        Shown::Failure {
            number,
            name,
            message,
        } => {
            let name = error_name(*name);
            let message = text_shown(alloc, message)?;
            Ok(format!(in alloc; "#{number} {name} {message}")?)
        }
    }
}
