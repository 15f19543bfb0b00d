//! The parser: from tokens to the tree that they spell, as `const a = 1 ;` is one statement of one item.

ghost use Rattle.std.specs.Prelude.{◌≡◌, ℕ, None, All, IfErr, IfOk, IsErrOf};
ghost use Rattle.actx_grammar.specs.Exact.{Begins, BeginsWithin, UpTo};
ghost use Rattle.actx_grammar.specs.Grammar.{IsSpelled, deepest};
ghost use Rattle.actx_grammar.specs.Parser.{parse, parsed};
ghost use Rattle.actx_grammar.specs.Tree.{Stmts};
ghost use Rattle.actx_ast.specs.View.{program_view};
ghost use Rattle.actx_grammar.specs.Words.{HasForm};
ghost use Rattle.actx_lex.specs.Lexical.{kinds_of};
ghost use Rattle.actx_grammar.specs.declared.side.Side.TheVariants.{Plain, Source};
ghost use Rattle.actx_parse.specs.Answers.{ArePlaces, IsTold, RefusesAt, StopsFirst};
ghost use Rattle.actx_lex.specs.Lexemes.{lexemes};
ghost use Rattle.actx_places.specs.Walk.{places_of};
ghost use Rattle.actx_parse.specs.declared.parse.ParseFault.TheVariants as fault;

mod machine;
mod reasons;

use self::machine::{Outcome, scan};
use self::reasons::fault_at;
use actx_ast::tree::Program;
use actx_data::NoMemory;
use actx_frames::limits::{Rules, limits_of};
use actx_grammar::side::Side;
use actx_lex::token::{Token, Tokens};
use actx_places::places::places;
use std::alloc::Global;
use thiserror::Error;

/// Why there is no tree, with the number of the first token that no program goes on with; the end counts as one.
#[derive(Clone, Copy, Debug, Drop, PartialEq, Eq, Error)]
pub enum ParseFault {
    /// At no depth and with lists of any length a program goes on so.
    #[error("Unexpected")]
    Unexpected(usize),
    /// A program goes on so, but none within the depth.
    #[error("TooDeep")]
    TooDeep(usize),
    /// A program goes on so within the depth, but with more parameters or arguments than a list may have.
    #[error("TooMany")]
    TooMany(usize),
    /// Memory ran out.
    #[error("NoMemory")]
    NoMemory,
}

impl From<NoMemory> for ParseFault {
    ghost from_gives = { λ _ e. e ≡ fault.NoMemory };

    fn from(_refused: NoMemory) -> ParseFault {
        ParseFault::NoMemory
    }
}

/// A program, and where its nodes begin in the tokens that spell it.
#[derive(Drop)]
pub struct Parsed {
    pub program: Program,
    /// Entry `k` is the number of the first token of the node with number `k`, in preorder. Parentheses round an expression do
    /// not count. The function of a method begins at the first token of its property, the value of a property that is a name
    /// alone at that name, and the `Return` of an arrow's body that is an expression at the body's first token, of which
    /// parentheses are a part.
    pub places: Vec<usize>,
}

/// What the machine comes to on the tokens.
fn parse(alloc: Global, side: Side, tokens: &[Token]) -> Result<Program, ParseFault>
    ensures found { IfOk result (λ p. parse side (lexemes tokens.now) ≡ parsed (program_view p)) }
    ensures told { IfErr result (IsTold side (lexemes tokens.now)) }
{
    let limits = limits_of(side);
    match scan(alloc, Rules { side, limits }, tokens)? {
        Outcome::Parsed(program) => Ok(program),
        Outcome::Refused(at) => Err(fault_at(alloc, side, tokens, at)?),
    }
}

/// What the machine comes to, and where the nodes of its answer begin.
fn placed(alloc: Global, side: Side, tokens: &Tokens) -> Result<Parsed, ParseFault>
    ensures found { IfOk result (λ r. parse side (lexemes tokens.now.list.items) ≡ parsed (program_view r.program)) }
    ensures walked { IfOk result (λ r. r.places.items ≡ places_of (program_view r.program) (lexemes tokens.now.list.items)) }
    ensures told { IfErr result (IsTold side (lexemes tokens.now.list.items)) }
{
    let program = parse(alloc, side, tokens.list.as_slice())?;
    let places = places(alloc, &program, tokens.list.as_slice())?;
    Ok(Parsed { program, places })
}

/// The program of a user's text that the tokens spell (ECMA-262, 13 to 15, restricted).
///
/// The tokens have their kinds' forms, as those of `actx_lex::lex` do. The answer is the one program that they spell within
/// a depth of 200, in which no list has more than 8 parameters or arguments.
///
/// # Errors
///
/// `Unexpected`, `TooDeep` and `TooMany` where they spell none, with the number of the first token that no such program
/// goes on with, or the number of tokens where only the end is wrong; and `NoMemory` where memory runs out.
pub fn parse_source(alloc: Global, tokens: &Tokens) -> Result<Parsed, ParseFault>
    requires { All HasForm (kinds_of tokens.now.list.items) }
    // What is parsed is spelled so.
    ensures found { IfOk result (λ r. IsSpelled Source (program_view r.program) (lexemes tokens.now.list.items)) }
    // What is spelled is parsed, as that program, unless memory runs out.
    ensures only { (p : Stmts) → IsSpelled Source p (lexemes tokens.now.list.items) → IfOk result (λ r. program_view r.program ≡ p) }
    // Where its nodes begin.
    ensures places { IfOk result (λ r. ArePlaces Source (program_view r.program) (lexemes tokens.now.list.items) r.places.items) }
    // What is refused is the first token with which no program goes on, and for its reason.
    ensures first { IfErr result (StopsFirst Source (lexemes tokens.now.list.items)) }
    ensures told { IfErr result (IsTold Source (lexemes tokens.now.list.items)) }
    // No program within the limits goes on with a token that is refused, and none has the tokens alone.
    ensures stops { IfErr result (RefusesAt (λ i. (UpTo (BeginsWithin Source) i (lexemes tokens.now.list.items) → ⊥) × ((p : Stmts) → IsSpelled Source p (lexemes tokens.now.list.items) → ⊥))) }
    ensures unexpected { (i : ℕ) → IsErrOf result (fault.Unexpected i) → (depth : ℕ) → UpTo (Begins Source None depth) i (lexemes tokens.now.list.items) → ⊥ }
    ensures too_deep { (i : ℕ) → IsErrOf result (fault.TooDeep i) → UpTo (Begins Source None (deepest Source)) i (lexemes tokens.now.list.items) → ⊥ }
{
    placed(alloc, Side::Source, tokens)
}

/// The plain program that the tokens spell.
///
/// The tokens have their kinds' forms, as those of `actx_lex::lex` do. The answer is the one program that they spell within
/// a depth of 32,768.
///
/// # Errors
///
/// `Unexpected` and `TooDeep` where they spell none, with the number of the first token that no such program goes on with,
/// or the number of tokens where only the end is wrong; and `NoMemory` where memory runs out. `TooMany` is no answer.
pub fn parse_plain(alloc: Global, tokens: &Tokens) -> Result<Parsed, ParseFault>
    requires { All HasForm (kinds_of tokens.now.list.items) }
    ensures found { IfOk result (λ r. IsSpelled Plain (program_view r.program) (lexemes tokens.now.list.items)) }
    ensures only { (p : Stmts) → IsSpelled Plain p (lexemes tokens.now.list.items) → IfOk result (λ r. program_view r.program ≡ p) }
    // Where its nodes begin.
    ensures places { IfOk result (λ r. ArePlaces Plain (program_view r.program) (lexemes tokens.now.list.items) r.places.items) }
    // What is refused is the first token with which no program goes on, and for its reason.
    ensures first { IfErr result (StopsFirst Plain (lexemes tokens.now.list.items)) }
    ensures told { IfErr result (IsTold Plain (lexemes tokens.now.list.items)) }
    ensures stops { IfErr result (RefusesAt (λ i. (UpTo (BeginsWithin Plain) i (lexemes tokens.now.list.items) → ⊥) × ((p : Stmts) → IsSpelled Plain p (lexemes tokens.now.list.items) → ⊥))) }
    ensures unexpected { (i : ℕ) → IsErrOf result (fault.Unexpected i) → (depth : ℕ) → UpTo (Begins Plain None depth) i (lexemes tokens.now.list.items) → ⊥ }
    ensures too_deep { (i : ℕ) → IsErrOf result (fault.TooDeep i) → UpTo (Begins Plain None (deepest Plain)) i (lexemes tokens.now.list.items) → ⊥ }
    ensures never_many { (i : ℕ) → IsErrOf result (fault.TooMany i) → ⊥ }
{
    placed(alloc, Side::Plain, tokens)
}
