//! Texts as programs, and as emitted texts: `const a = 1;` is read as a program of one constant, and `const a = b;` is refused.

ghost use Rattle.std.specs.Prelude.{◌≡◌, ◌≤◌, length, All, IfOk, IfErr, OnOk};
ghost use Rattle.actx_grammar.specs.declared.side.Side.TheVariants.{Source};
ghost use Rattle.actx_grammar.specs.Grammar.{IsSpelled};
ghost use Rattle.actx_grammar.specs.Static.{Clean};
ghost use Rattle.actx_grammar.specs.Tree.{Stmts};
ghost use Rattle.actx_ast.specs.View.{program_view};
ghost use Rattle.actx_grammar.specs.Words.{HasForm};
ghost use Rattle.actx_lex.specs.Lexical as lexical;
ghost use Rattle.actx_lex.specs.Lexemes.{lexemes};
ghost use Rattle.actx_parse.specs.Answers.{ArePlaces};
ghost use Rattle.actx_top.specs.Accepts.{Takes, ReadsPlain};
ghost use Rattle.actx_top.specs.Faults.{Says};
ghost use Rattle.actx_top.specs.Refusals.{byte_of, IsByteOf, Refuses};
ghost use Rattle.actx_rules.specs.Taken.{IsTaken};
ghost use Rattle.actx_top.specs.declared.read.TextFault.TheVariants as fault;

use crate::taken::{Stop, all_taken};
use actx_ast::tree::Program;
use actx_data::NoMemory;
use actx_grammar::side::Side;
use actx_lex::lex::{LexFault, lex};
use actx_lex::lines::Place;
use actx_lex::place::place;
use actx_lex::token::Tokens;
use actx_parse::parse::{ParseFault, Parsed, parse_plain, parse_source};
use actx_scope::{CheckFault, check};
use std::alloc::Global;
use thiserror::Error;

/// Why a text is not lowered.
#[derive(Clone, Copy, Debug, Drop, PartialEq, Eq, Error)]
pub enum TextFault {
    /// The text is no program of forms that run. The number tells the reason: 1 NotUtf8, 2 BadToken, 3 TooLong, 4 BadNumber,
    /// 5 Unexpected, 6 TooDeep, 7 TooMany, 8 Undeclared, 9 Twice, 10 Reserved, 11 Misplaced, 13 NotYet.
    #[error("Refused")]
    Refused { number: u8, place: Place },
    /// Memory ran out.
    #[error("NoMemory")]
    NoMemory,
}

impl From<NoMemory> for TextFault {
    ghost from_gives = { λ _ e. e ≡ fault.NoMemory };

    fn from(_refused: NoMemory) -> TextFault {
        TextFault::NoMemory
    }
}

/// The refusal of a text for the reason with this number, at a byte.
#[tactic(auto, using(crate::proofs::Boundaries::refusal_within, crate::proofs::Boundaries::refusal_front, crate::proofs::Boundaries::refused_at))]
fn refused(text: &[u8], number: u8, at: usize) -> TextFault
    requires { Refuses text.now number at }
    ensures { Says text.now result }
{
    TextFault::Refused {
        number,
        place: place(text, at),
    }
}

/// The first byte of the token with this number, or the text's end.
fn token_byte(tokens: &Tokens, number: usize) -> usize
    ensures { result ≡ byte_of tokens.now.list.items tokens.now.end number }
{
    match tokens.list.get(number) {
        Some(token) => token.at,
        None => tokens.end,
    }
}

/// The first byte of the node with this number.
fn node_byte(tokens: &Tokens, parsed: &Parsed, node: u64) -> usize
    ensures { IsByteOf tokens.now.list.items parsed.now.places.items tokens.now.end node result }
{
    match parsed.places.get(node as usize) {
        Some(number) => token_byte(tokens, *number),
        None => tokens.end,
    }
}

/// The tokens of a user's text.
#[tactic(auto, using(crate::proofs::Reasons::not_long))]
fn cut(alloc: Global, text: &[u8]) -> Result<Tokens, TextFault>
    ensures short { OnOk result (length text.now ≤ 1048576) }
    ensures found { IfOk result (λ t. lexical.Tokens text.now t.list.items) }
    ensures end { IfOk result (λ t. t.end ≡ length text.now) }
    ensures form { IfOk result (λ t. All HasForm (lexical.kinds_of t.list.items)) }
    ensures fault { IfErr result (Says text.now) }
{
    match lex(alloc, text, Side::Source) {
        Ok(tokens) => Ok(tokens),
        Err(LexFault::NotUtf8(at)) => Err(refused(text, 1, at)),
        Err(LexFault::BadToken(at)) => Err(refused(text, 2, at)),
        Err(LexFault::TooLong) => Err(refused(text, 3, 0)),
        Err(LexFault::BadNumber(at)) => Err(refused(text, 4, at)),
        Err(LexFault::NoMemory) => Err(TextFault::NoMemory),
    }
}

/// The program of a text's tokens.
fn parsed(alloc: Global, text: &[u8], tokens: &Tokens) -> Result<Parsed, TextFault>
    requires short { length text.now ≤ 1048576 }
    requires cut { lexical.Tokens text.now tokens.now.list.items }
    requires end { tokens.now.end ≡ length text.now }
    requires form { All HasForm (lexical.kinds_of tokens.now.list.items) }
    ensures found { IfOk result (λ r. IsSpelled Source (program_view r.program) (lexemes tokens.now.list.items)) }
    ensures places { IfOk result (λ r. ArePlaces Source (program_view r.program) (lexemes tokens.now.list.items) r.places.items) }
    ensures fault { IfErr result (Says text.now) }
{
    match parse_source(alloc, tokens) {
        Ok(parsed) => Ok(parsed),
        Err(ParseFault::Unexpected(i)) => Err(refused(text, 5, token_byte(tokens, i))),
        Err(ParseFault::TooDeep(i)) => Err(refused(text, 6, token_byte(tokens, i))),
        Err(ParseFault::TooMany(i)) => Err(refused(text, 7, token_byte(tokens, i))),
        Err(ParseFault::NoMemory) => Err(TextFault::NoMemory),
    }
}

/// Whether a program keeps the static rules.
fn checked(alloc: Global, text: &[u8], tokens: &Tokens, parsed: &Parsed) -> Result<(), TextFault>
    requires short { length text.now ≤ 1048576 }
    requires cut { lexical.Tokens text.now tokens.now.list.items }
    requires end { tokens.now.end ≡ length text.now }
    requires spelled { IsSpelled Source (program_view parsed.now.program) (lexemes tokens.now.list.items) }
    requires places { ArePlaces Source (program_view parsed.now.program) (lexemes tokens.now.list.items) parsed.now.places.items }
    ensures clean { OnOk result (Clean (program_view parsed.now.program)) }
    ensures fault { IfErr result (Says text.now) }
{
    match check(alloc, &parsed.program) {
        Ok(_scopes) => Ok(()),
        Err(CheckFault::Undeclared(n)) => Err(refused(text, 8, node_byte(tokens, parsed, n))),
        Err(CheckFault::Twice(n)) => Err(refused(text, 9, node_byte(tokens, parsed, n))),
        Err(CheckFault::Reserved(n)) => Err(refused(text, 10, node_byte(tokens, parsed, n))),
        Err(CheckFault::Misplaced(n)) => Err(refused(text, 11, node_byte(tokens, parsed, n))),
        Err(CheckFault::NoMemory) => Err(TextFault::NoMemory),
    }
}

/// Whether all forms of a program run.
fn runs(text: &[u8], tokens: &Tokens, parsed: &Parsed) -> Result<(), TextFault>
    requires short { length text.now ≤ 1048576 }
    requires cut { lexical.Tokens text.now tokens.now.list.items }
    requires end { tokens.now.end ≡ length text.now }
    requires spelled { IsSpelled Source (program_view parsed.now.program) (lexemes tokens.now.list.items) }
    requires places { ArePlaces Source (program_view parsed.now.program) (lexemes tokens.now.list.items) parsed.now.places.items }
    requires clean { Clean (program_view parsed.now.program) }
    ensures taken { OnOk result (IsTaken (program_view parsed.now.program)) }
    ensures fault { IfErr result (Says text.now) }
{
    match all_taken(&parsed.program) {
        Ok(()) => Ok(()),
        Err(Stop::Untaken(n)) => Err(refused(text, 13, node_byte(tokens, parsed, n))),
        Err(Stop::TooMany) => Err(TextFault::NoMemory),
    }
}

/// The program that a user's text is (ECMA-262, 16.1, restricted), where all its forms run.
///
/// # Errors
///
/// `Refused` where the text is no program of forms that run, with the number and the place of the first reason: of its bytes,
/// its tokens, the grammar, the static rules and the forms, in this order; `NoMemory` where memory runs out.
#[tactic(auto, using(crate::proofs::Refusing::takes_by, crate::proofs::Refusing::takes_once))]
pub fn read_source(alloc: Global, text: &[u8]) -> Result<Program, TextFault>
    ensures found { IfOk result (λ p. Takes text.now (program_view p)) }
    ensures only { (p : Stmts) → Takes text.now p → IfOk result (λ r. program_view r ≡ p) }
    ensures fault { IfErr result (Says text.now) }
{
    let tokens = cut(alloc, text)?;
    let parsed = parsed(alloc, text, &tokens)?;
    checked(alloc, text, &tokens, &parsed)?;
    runs(text, &tokens, &parsed)?;
    Ok(parsed.program)
}

/// The plain program that a text is known to be.
///
/// # Errors
///
/// `NoMemory` where memory runs out.
pub fn read_back(alloc: Global, text: &[u8]) -> Result<Program, NoMemory>
    requires { (q : Stmts) × ReadsPlain text.now q }
    ensures { (q : Stmts) → ReadsPlain text.now q → IfOk result (λ plain. program_view plain ≡ q) }
{
    let tokens = plain_tokens(alloc, text)?;
    plain_program(alloc, text, &tokens)
}

/// The tokens of a plain text.
#[tactic(auto, using(crate::proofs::Refusing::plain_short))]
fn plain_tokens(alloc: Global, text: &[u8]) -> Result<Tokens, NoMemory>
    requires { (q : Stmts) × ReadsPlain text.now q }
    ensures found { IfOk result (λ t. lexical.Tokens text.now t.list.items) }
    ensures form { IfOk result (λ t. All HasForm (lexical.kinds_of t.list.items)) }
{
    match lex(alloc, text, Side::Plain) {
        Ok(tokens) => Ok(tokens),
        Err(LexFault::NotUtf8(_)) => unreachable!(),
        Err(LexFault::BadToken(_)) => unreachable!(),
        Err(LexFault::TooLong) => unreachable!(),
        Err(LexFault::BadNumber(_)) => unreachable!(),
        Err(LexFault::NoMemory) => Err(NoMemory),
    }
}

/// The program of a plain text's tokens.
#[tactic(auto, using(crate::proofs::Refusing::plain_spelled))]
fn plain_program(alloc: Global, text: &[u8], tokens: &Tokens) -> Result<Program, NoMemory>
    requires plain { (q : Stmts) × ReadsPlain text.now q }
    requires cut { lexical.Tokens text.now tokens.now.list.items }
    requires form { All HasForm (lexical.kinds_of tokens.now.list.items) }
    ensures { (q : Stmts) → ReadsPlain text.now q → IfOk result (λ plain. program_view plain ≡ q) }
{
    match parse_plain(alloc, tokens) {
        Ok(parsed) => Ok(parsed.program),
        Err(ParseFault::Unexpected(_)) => unreachable!(),
        Err(ParseFault::TooDeep(_)) => unreachable!(),
        Err(ParseFault::TooMany(_)) => unreachable!(),
        Err(ParseFault::NoMemory) => Err(NoMemory),
    }
}
