//! Why a token is refused: runs within looser limits on the tokens up to it tell.

ghost use Rattle.std.specs.Prelude.{◌≡◌, IfOk};
ghost use Rattle.actx_grammar.specs.Parser.{limits};
ghost use Rattle.actx_parse.specs.Answers.{IsTold};
ghost use Rattle.actx_frames.specs.ParserView.{bounds};
ghost use Rattle.actx_lex.specs.Lexemes.{lexemes};
ghost use Rattle.actx_parse.specs.Scan.{is_stopped, scan, stopped};

use super::ParseFault;
use super::machine::{Outcome, scan};
use actx_data::NoMemory;
use actx_frames::limits::{Rules, unlimited, unlisted};
use actx_grammar::side::Side;
use actx_lex::token::Token;
use std::alloc::Global;

/// Whether a run by these rules stops at the token too.
fn stops_at(alloc: Global, rules: Rules, front: &[Token], at: usize) -> Result<bool, NoMemory>
    ensures { IfOk result (λ b. b ≡ is_stopped at (scan (bounds rules) rules.side (lexemes front.now))) }
{
    match scan(alloc, rules, front)? {
        Outcome::Refused(number) => Ok(number == at),
        Outcome::Parsed(_) => Ok(false),
    }
}

/// Why a token that no program goes on with is refused.
pub fn fault_at(
    alloc: Global,
    side: Side,
    tokens: &[Token],
    at: usize,
) -> Result<ParseFault, NoMemory>
    requires { stopped at ≡ scan (limits side) side (lexemes tokens.now) }
    ensures { IfOk result (IsTold side (lexemes tokens.now)) }
{
    if at >= tokens.len() {
        return Ok(ParseFault::Unexpected(at));
    }
    let front = &tokens[..at + 1];
    let limits = unlimited();
    if stops_at(alloc, Rules { side, limits }, front, at)? {
        return Ok(ParseFault::Unexpected(at));
    }
    let limits = unlisted(side);
    if stops_at(alloc, Rules { side, limits }, front, at)? {
        Ok(ParseFault::TooDeep(at))
    } else {
        Ok(ParseFault::TooMany(at))
    }
}
