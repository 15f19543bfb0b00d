//! Tokens that are put at the end of a list: `async function * a ( b )`, or the words of a form, as `console . log`.

ghost use Rattle.std.specs.Prelude.{◌≡◌, ◌++◌, ◌∷◌, [], List, ℕ, IfOk, OnOk};
ghost use Rattle.actx_grammar.specs.Forms.{error_text, form_words};
ghost use Rattle.actx_grammar.specs.Spell.{own_name, spell_head, spell_more_names, spell_names, spell_params};

use crate::tree::Function;
use actx_data::{ErrorName, NoMemory, Twin};
use actx_grammar::name::Name;
use actx_grammar::operators::{Form, FunctionKind};
use actx_grammar::token::{Keyword, Sign, TokenKind};
use std::alloc::Global;

pub(super) fn put(out: &mut Vec<TokenKind>, token: TokenKind) -> Result<(), NoMemory>
    ensures { OnOk result (out.new.items ≡ out.old.items ++ token ∷ []) }
{
    out.push(token)?;
    Ok(())
}

fn put_sign(out: &mut Vec<TokenKind>, sign: Sign) -> Result<(), NoMemory>
    ensures { OnOk result (out.new.items ≡ out.old.items ++ TokenKind.Sign sign ∷ []) }
{
    put(out, TokenKind::Sign(sign))
}

fn put_keyword(out: &mut Vec<TokenKind>, keyword: Keyword) -> Result<(), NoMemory>
    ensures { OnOk result (out.new.items ≡ out.old.items ++ TokenKind.Keyword keyword ∷ []) }
{
    put(out, TokenKind::Keyword(keyword))
}

/// The name of these ASCII characters.
pub(super) fn word(alloc: Global, word: &[u8]) -> Result<TokenKind, NoMemory>
    ensures { IfOk result (λ t. t ≡ TokenKind.Name word.now) }
{
    let chars = word.iter().map(|byte| char::from(*byte)).collect(alloc)?;
    Ok(TokenKind::Name(Name::from_vec(chars)))
}

fn put_word(alloc: Global, out: &mut Vec<TokenKind>, letters: &[u8]) -> Result<(), NoMemory>
    ensures { OnOk result (out.new.items ≡ out.old.items ++ TokenKind.Name letters.now ∷ []) }
{
    put(out, word(alloc, letters)?)
}

/// `console . log` and its like.
#[tactic(auto, using(std::proofs::Common::append_assoc))]
fn put_words(
    alloc: Global,
    out: &mut Vec<TokenKind>,
    object: &[u8],
    method: &[u8],
) -> Result<(), NoMemory>
    ensures { OnOk result (out.new.items ≡ out.old.items ++ TokenKind.Name object.now ∷ TokenKind.Sign Sign.Dot ∷ TokenKind.Name method.now ∷ []) }
{
    put_word(alloc, out, object)?;
    put_sign(out, Sign::Dot)?;
    put_word(alloc, out, method)
}

/// `new Promise` and its like.
#[tactic(auto, using(std::proofs::Common::append_assoc))]
fn put_new(alloc: Global, out: &mut Vec<TokenKind>, class: &[u8]) -> Result<(), NoMemory>
    ensures { OnOk result (out.new.items ≡ out.old.items ++ TokenKind.Keyword Keyword.New ∷ TokenKind.Name class.now ∷ []) }
{
    put_keyword(out, Keyword::New)?;
    put_word(alloc, out, class)
}

/// `new AsyncContext . Variable` and its like.
#[tactic(auto, using(std::proofs::Common::append_assoc))]
fn put_new_words(
    alloc: Global,
    out: &mut Vec<TokenKind>,
    object: &[u8],
    class: &[u8],
) -> Result<(), NoMemory>
    ensures { OnOk result (out.new.items ≡ out.old.items ++ TokenKind.Keyword Keyword.New ∷ TokenKind.Name object.now ∷ TokenKind.Sign Sign.Dot ∷ TokenKind.Name class.now ∷ []) }
{
    put_keyword(out, Keyword::New)?;
    put_words(alloc, out, object, class)
}

/// `AsyncContext . Snapshot . wrap`.
#[tactic(auto, using(std::proofs::Common::append_assoc))]
fn put_wrap(alloc: Global, out: &mut Vec<TokenKind>) -> Result<(), NoMemory>
    ensures { OnOk result (out.new.items ≡ out.old.items ++ form_words Form.Wrap) }
{
    put_words(alloc, out, b"AsyncContext", b"Snapshot")?;
    put_sign(out, Sign::Dot)?;
    put_word(alloc, out, b"wrap")
}

/// `new TypeError` and its like.
fn put_error(alloc: Global, out: &mut Vec<TokenKind>, name: ErrorName) -> Result<(), NoMemory>
    ensures { OnOk result (out.new.items ≡ out.old.items ++ form_words (Form.NewError name)) }
{
    match name {
        ErrorName::Error => put_new(alloc, out, b"Error"),
        ErrorName::TypeError => put_new(alloc, out, b"TypeError"),
        ErrorName::RangeError => put_new(alloc, out, b"RangeError"),
        ErrorName::ReferenceError => put_new(alloc, out, b"ReferenceError"),
    }
}

/// The tokens before the arguments of a form; an inner form has none.
pub(super) fn put_form(alloc: Global, out: &mut Vec<TokenKind>, form: Form) -> Result<(), NoMemory>
    ensures { OnOk result (out.new.items ≡ out.old.items ++ form_words form) }
{
    match form {
        Form::Log => put_words(alloc, out, b"console", b"log"),
        Form::NewPromise => put_new(alloc, out, b"Promise"),
        Form::PromiseResolve => put_words(alloc, out, b"Promise", b"resolve"),
        Form::PromiseReject => put_words(alloc, out, b"Promise", b"reject"),
        Form::NewVariable => put_new_words(alloc, out, b"AsyncContext", b"Variable"),
        Form::NewSnapshot => put_new_words(alloc, out, b"AsyncContext", b"Snapshot"),
        Form::Wrap => put_wrap(alloc, out),
        Form::NewError(name) => put_error(alloc, out, name),
        Form::QueueMicrotask => put_word(alloc, out, b"queueMicrotask"),
        Form::HostOn => put_words(alloc, out, b"Host", b"on"),
        Form::Span => put_words(alloc, out, b"Trace", b"span"),
        Form::CurrentSpan => put_words(alloc, out, b"Trace", b"current"),
        Form::NewWeakMap => put_new(alloc, out, b"WeakMap"),
        Form::Freeze => put_words(alloc, out, b"Object", b"freeze"),
        Form::Note => put_words(alloc, out, b"__actx", b"note"),
        Form::On => put_words(alloc, out, b"__actx", b"on"),
        Form::Leave => put_words(alloc, out, b"__actx", b"leave"),
        Form::CallWith
        | Form::Iterate
        | Form::NewCell
        | Form::ReadCell
        | Form::SetCell
        | Form::Coroutine(_) => Ok(()),
    }
}

/// Names, each with a comma before it.
fn put_more_names(alloc: Global, out: &mut Vec<TokenKind>, names: &[Name]) -> Result<(), NoMemory>
    ensures { OnOk result (out.new.items ≡ out.old.items ++ spell_more_names names.now) }
{
    for name in names {
        put_sign(out, Sign::Comma)?;
        put(out, TokenKind::Name(name.copy(alloc)?))?;
    }
    Ok(())
}

/// Parameters in parentheses.
#[tactic(auto, using(std::proofs::Common::append_assoc))]
fn put_params(alloc: Global, out: &mut Vec<TokenKind>, params: &[Name]) -> Result<(), NoMemory>
    ensures { OnOk result (out.new.items ≡ out.old.items ++ spell_params params.now) }
{
    match params {
        [] => {
            put_sign(out, Sign::OpenParen)?;
            put_sign(out, Sign::CloseParen)
        }
        [first, rest @ ..] => {
            put_sign(out, Sign::OpenParen)?;
            put(out, TokenKind::Name(first.copy(alloc)?))?;
            put_more_names(alloc, out, rest)?;
            put_sign(out, Sign::CloseParen)
        }
    }
}

/// A function's own name, if it has one, and its parameters.
#[tactic(auto, using(std::proofs::Common::append_assoc))]
fn put_signature(
    alloc: Global,
    out: &mut Vec<TokenKind>,
    function: &Function,
) -> Result<(), NoMemory>
    ensures { OnOk result (out.new.items ≡ out.old.items ++ (own_name function.now.name ++ spell_params function.now.params.items)) }
{
    match &function.name {
        Some(name) => {
            put(out, TokenKind::Name(name.copy(alloc)?))?;
            put_params(alloc, out, &function.params)
        }
        None => put_params(alloc, out, &function.params),
    }
}

/// What stands before a function's body.
#[tactic(auto, using(std::proofs::Common::append_assoc))]
pub(super) fn put_head(
    alloc: Global,
    out: &mut Vec<TokenKind>,
    function: &Function,
) -> Result<(), NoMemory>
    ensures { OnOk result (out.new.items ≡ out.old.items ++ spell_head function.now.kind function.now.name function.now.params.items) }
{
    match function.kind {
        FunctionKind::Normal => {
            put_keyword(out, Keyword::Function)?;
            put_signature(alloc, out, function)
        }
        FunctionKind::Arrow => {
            put_params(alloc, out, &function.params)?;
            put_sign(out, Sign::Arrow)
        }
        FunctionKind::Generator => {
            put_keyword(out, Keyword::Function)?;
            put_sign(out, Sign::Star)?;
            put_signature(alloc, out, function)
        }
        FunctionKind::Async => {
            put_keyword(out, Keyword::Async)?;
            put_keyword(out, Keyword::Function)?;
            put_signature(alloc, out, function)
        }
        FunctionKind::AsyncArrow => {
            put_keyword(out, Keyword::Async)?;
            put_params(alloc, out, &function.params)?;
            put_sign(out, Sign::Arrow)
        }
        FunctionKind::AsyncGenerator => {
            put_keyword(out, Keyword::Async)?;
            put_keyword(out, Keyword::Function)?;
            put_sign(out, Sign::Star)?;
            put_signature(alloc, out, function)
        }
    }
}
