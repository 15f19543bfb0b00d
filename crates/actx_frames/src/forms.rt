//! Built-in forms that are spelled by their words, as `console.log` and `new Error`.

ghost use Rattle.std.specs.Prelude.{◌≡◌, ◌∷◌, ◌&&◌, ◌||◌, [], IfOk, length, nat_eq, suc};
ghost use Rattle.actx_grammar.specs.Forms.{form_words};
ghost use Rattle.actx_grammar.specs.declared.token.Keyword.TheVariants.{New};
ghost use Rattle.actx_grammar.specs.declared.token.Sign.TheVariants.{Dot};
ghost use Rattle.actx_grammar.specs.declared.token.TokenKind.TheVariants as kind;
ghost use Rattle.actx_grammar.specs.ParserFunctions.{at_words, open_form};
ghost use Rattle.actx_grammar.specs.ParserOperands.{begins_with, form_with, forms_of, goes_on, least_parts, most_parts, same_token, suits, words_go};
ghost use Rattle.actx_grammar.specs.ParserState.{fits};
ghost use Rattle.actx_frames.specs.ParserView.{bounds, is_word_at, move_of, stack_view};

use super::key::copy_token;
use super::limits::{Rules, at_most, fits_deeper};
use super::moves::{go_if, need_in};
use super::stack::Stack;
use super::state::{Frame, Mode, Step};
use super::word::is_word;
use actx_data::{ErrorName, NoMemory};
use actx_grammar::operators::Form;
use actx_grammar::side::Side;
use actx_grammar::token::{Keyword, Sign, TokenKind};
use std::alloc::Global;

/// The least number of parts of a form.
fn least_parts(form: Form) -> usize
    ensures { result ≡ least_parts form }
{
    match form {
        Form::NewPromise => 1,
        Form::Wrap => 1,
        Form::QueueMicrotask => 1,
        Form::HostOn => 2,
        Form::Span => 2,
        Form::Freeze => 1,
        Form::CallWith => 1,
        Form::Note => 4,
        Form::On => 2,
        _ => 0,
    }
}

/// The greatest number of parts of a form, or `None` where there is none.
pub fn most_parts(form: Form) -> Option<usize>
    ensures { result ≡ most_parts form }
{
    match form {
        Form::Log => None,
        Form::CallWith => None,
        Form::PromiseResolve => Some(1),
        Form::PromiseReject => Some(1),
        Form::NewVariable => Some(1),
        Form::NewError(_) => Some(1),
        _ => Some(least_parts(form)),
    }
}

/// Whether a form takes so many parts.
pub fn suits(form: Form, count: usize) -> bool
    ensures { result ≡ suits form count }
{
    least_parts(form) <= count && at_most(most_parts(form), count)
}

/// The forms of users' texts.
const SOURCE_FORMS: [Form; 15] = [
    Form::Log,
    Form::NewPromise,
    Form::PromiseResolve,
    Form::PromiseReject,
    Form::NewVariable,
    Form::NewSnapshot,
    Form::Wrap,
    Form::NewError(ErrorName::Error),
    Form::NewError(ErrorName::TypeError),
    Form::NewError(ErrorName::RangeError),
    Form::NewError(ErrorName::ReferenceError),
    Form::QueueMicrotask,
    Form::HostOn,
    Form::Span,
    Form::CurrentSpan,
];

/// The forms of plain texts.
const PLAIN_FORMS: [Form; 11] = [
    Form::Log,
    Form::NewError(ErrorName::Error),
    Form::NewError(ErrorName::TypeError),
    Form::NewError(ErrorName::RangeError),
    Form::NewError(ErrorName::ReferenceError),
    Form::QueueMicrotask,
    Form::NewWeakMap,
    Form::Freeze,
    Form::Note,
    Form::On,
    Form::Leave,
];

/// The forms that a side spells by their words.
fn forms_of(side: Side) -> &'static [Form]
    ensures { result.now ≡ forms_of side }
{
    match side {
        Side::Source => SOURCE_FORMS.as_slice(),
        Side::Plain => PLAIN_FORMS.as_slice(),
    }
}

/// Whether the token is this name.
fn is_name(token: &TokenKind, word: &[u8]) -> bool
    ensures { result ≡ same_token (TokenKind.Name word.now) token.now }
{
    match token {
        TokenKind::Name(name) => is_word(name, word),
        TokenKind::Keyword(_) => false,
        TokenKind::Number(_) => false,
        TokenKind::Text(_) => false,
        TokenKind::Sign(_) => false,
    }
}

fn is_new(token: &TokenKind) -> bool
    ensures { result ≡ same_token (TokenKind.Keyword Keyword.New) token.now }
{
    match token {
        TokenKind::Keyword(Keyword::New) => true,
        _ => false,
    }
}

fn is_dot(token: &TokenKind) -> bool
    ensures { result ≡ same_token (TokenKind.Sign Sign.Dot) token.now }
{
    match token {
        TokenKind::Sign(Sign::Dot) => true,
        _ => false,
    }
}

/// Whether a token is the word of a number of `OWNER . KEY`.
#[tactic(auto, using(crate::proofs::ParseForms::past_words))]
fn is_member(at: usize, token: &TokenKind, owner: &[u8], key: &[u8]) -> bool
    ensures { result ≡ is_word_at (kind.Name owner.now ∷ kind.Sign Dot ∷ kind.Name key.now ∷ []) at token.now }
{
    match at {
        0 => is_name(token, owner),
        1 => is_dot(token),
        2 => is_name(token, key),
        _ => false,
    }
}

/// Whether a token is the word of a number of `new NAME`.
#[tactic(auto, using(crate::proofs::ParseForms::past_words))]
fn is_made(at: usize, token: &TokenKind, name: &[u8]) -> bool
    ensures { result ≡ is_word_at (kind.Keyword New ∷ kind.Name name.now ∷ []) at token.now }
{
    match at {
        0 => is_new(token),
        1 => is_name(token, name),
        _ => false,
    }
}

/// Whether a token is the word of a number of `new OWNER . KEY`.
#[tactic(auto, using(crate::proofs::ParseForms::past_words))]
fn is_made_member(at: usize, token: &TokenKind, owner: &[u8], key: &[u8]) -> bool
    ensures { result ≡ is_word_at (kind.Keyword New ∷ kind.Name owner.now ∷ kind.Sign Dot ∷ kind.Name key.now ∷ []) at token.now }
{
    match at {
        0 => is_new(token),
        1 => is_name(token, owner),
        2 => is_dot(token),
        3 => is_name(token, key),
        _ => false,
    }
}

/// Whether a token is the word of a number of `AsyncContext . Snapshot . wrap`.
#[tactic(auto, using(crate::proofs::ParseForms::past_words))]
fn is_wrap(at: usize, token: &TokenKind) -> bool
    ensures { result ≡ is_word_at (form_words Form.Wrap) at token.now }
{
    match at {
        0 => is_name(token, b"AsyncContext"),
        1 => is_dot(token),
        2 => is_name(token, b"Snapshot"),
        3 => is_dot(token),
        4 => is_name(token, b"wrap"),
        _ => false,
    }
}

/// Whether a token is the word of a number of `queueMicrotask`.
#[tactic(auto, using(crate::proofs::ParseForms::past_words))]
fn is_queue(at: usize, token: &TokenKind) -> bool
    ensures { result ≡ is_word_at (form_words Form.QueueMicrotask) at token.now }
{
    match at {
        0 => is_name(token, b"queueMicrotask"),
        _ => false,
    }
}

/// Whether a token is the word of a number of an error that is made.
fn is_error(at: usize, token: &TokenKind, name: ErrorName) -> bool
    ensures { result ≡ is_word_at (form_words (Form.NewError name)) at token.now }
{
    match name {
        ErrorName::Error => is_made(at, token, b"Error"),
        ErrorName::TypeError => is_made(at, token, b"TypeError"),
        ErrorName::RangeError => is_made(at, token, b"RangeError"),
        ErrorName::ReferenceError => is_made(at, token, b"ReferenceError"),
    }
}

/// Whether a token is the word of a number of a form.
fn is_word_of(form: Form, at: usize, token: &TokenKind) -> bool
    ensures { result ≡ is_word_at (form_words form) at token.now }
{
    match form {
        Form::Log => is_member(at, token, b"console", b"log"),
        Form::NewError(name) => is_error(at, token, name),
        Form::QueueMicrotask => is_queue(at, token),
        Form::NewPromise => is_made(at, token, b"Promise"),
        Form::PromiseResolve => is_member(at, token, b"Promise", b"resolve"),
        Form::PromiseReject => is_member(at, token, b"Promise", b"reject"),
        Form::NewVariable => is_made_member(at, token, b"AsyncContext", b"Variable"),
        Form::NewSnapshot => is_made_member(at, token, b"AsyncContext", b"Snapshot"),
        Form::Wrap => is_wrap(at, token),
        Form::HostOn => is_member(at, token, b"Host", b"on"),
        Form::Span => is_member(at, token, b"Trace", b"span"),
        Form::CurrentSpan => is_member(at, token, b"Trace", b"current"),
        Form::NewWeakMap => is_made(at, token, b"WeakMap"),
        Form::Freeze => is_member(at, token, b"Object", b"freeze"),
        Form::Note => is_member(at, token, b"__actx", b"note"),
        Form::On => is_member(at, token, b"__actx", b"on"),
        Form::Leave => is_member(at, token, b"__actx", b"leave"),
        _ => false,
    }
}

/// How many words a form has.
fn words_len(form: Form) -> usize
    ensures { result ≡ length (form_words form) }
{
    match form {
        Form::Log => 3,
        Form::NewError(_) => 2,
        Form::QueueMicrotask => 1,
        Form::NewPromise => 2,
        Form::PromiseResolve => 3,
        Form::PromiseReject => 3,
        Form::NewVariable => 4,
        Form::NewSnapshot => 4,
        Form::Wrap => 5,
        Form::HostOn => 3,
        Form::Span => 3,
        Form::CurrentSpan => 3,
        Form::NewWeakMap => 2,
        Form::Freeze => 3,
        Form::Note => 3,
        Form::On => 3,
        Form::Leave => 3,
        _ => 0,
    }
}

/// Whether a form's words begin with these.
fn begins_with(form: Form, words: &[TokenKind]) -> bool
    ensures { result ≡ begins_with (form_words form) words.now }
{
    for (at, word) in words.iter().enumerate() {
        if !is_word_of(form, at, word) {
            return false;
        }
    }
    true
}

/// Whether a form's words are these.
#[tactic(auto, using(crate::proofs::ParseForms::both_begin))]
fn is_spelled(form: Form, words: &[TokenKind]) -> bool
    ensures { result ≡ (begins_with (form_words form) words.now && begins_with words.now (form_words form)) }
{
    begins_with(form, words) && words.len() == words_len(form)
}

/// Whether a form goes on from these words, with room for the arguments that it wants.
fn goes_on_as(rules: Rules, depth: usize, words: &[TokenKind], form: Form) -> bool
    ensures { result ≡ (begins_with (form_words form) words.now && (nat_eq (least_parts form) 0 || fits (bounds rules) (suc depth))) }
{
    begins_with(form, words) && (least_parts(form) == 0 || fits_deeper(rules, depth))
}

/// Whether some form goes on from these words.
fn goes_on(rules: Rules, depth: usize, words: &[TokenKind]) -> bool
    ensures { result ≡ goes_on (bounds rules) depth words.now (forms_of rules.side) }
{
    for form in forms_of(rules.side) {
        if goes_on_as(rules, depth, words, *form) {
            return true;
        }
    }
    false
}

/// The form that has exactly these words.
fn form_with(side: Side, words: &[TokenKind]) -> Option<Form>
    ensures { result ≡ form_with words.now (forms_of side) }
{
    for form in forms_of(side) {
        if is_spelled(*form, words) {
            return Some(*form);
        }
    }
    None
}

/// Some words of a form, behind which more may stand.
fn words_go(rules: Rules, words: Vec<TokenKind>, stack: &mut Stack) -> Step
    ensures { words_go (bounds rules) rules.side words.items (stack_view stack.old) ≡ move_of result (stack_view stack.new) }
{
    let test = goes_on(rules, stack.here(), &words);
    go_if(test, Mode::WordsNext(words))
}

/// The first word of a form.
pub fn first_word(
    alloc: Global,
    rules: Rules,
    token: &TokenKind,
    stack: &mut Stack,
) -> Result<Step, NoMemory>
    ensures { IfOk result (λ r. words_go (bounds rules) rules.side (token.now ∷ []) (stack_view stack.old) ≡ move_of r (stack_view stack.new)) }
{
    let mut words = Vec::new(alloc);
    words.push(copy_token(alloc, token)?)?;
    Ok(words_go(rules, words, stack))
}

/// The arguments of a form begin.
fn open_form(alloc: Global, form: Option<Form>, stack: &mut Stack) -> Result<Step, NoMemory>
    ensures { IfOk result (λ r. open_form form (stack_view stack.old) ≡ move_of r (stack_view stack.new)) }
{
    let reach = stack.here();
    match form {
        Some(form) => Ok(need_in(Frame::Form(form, Vec::new(alloc), reach), stack)?),
        None => Ok(Step::Refused),
    }
}

/// A token behind some words of a form.
pub fn at_words(
    alloc: Global,
    rules: Rules,
    words: Vec<TokenKind>,
    token: &TokenKind,
    stack: &mut Stack,
) -> Result<Step, NoMemory>
    ensures { IfOk result (λ r. at_words (bounds rules) rules.side words.items (stack_view stack.old) token.now ≡ move_of r (stack_view stack.new)) }
{
    match token {
        TokenKind::Sign(Sign::OpenParen) => {
            open_form(alloc, form_with(rules.side, &words), stack)
        }
        _ => {
            let mut words = words;
            words.push(copy_token(alloc, token)?)?;
            Ok(words_go(rules, words, stack))
        }
    }
}
