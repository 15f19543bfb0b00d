//! The text of a plain program, which is read again as the same program.

ghost use Rattle.std.specs.Prelude.{◌≡◌, ◌≤◌, ◌++◌, IfOk, string_bytes, if◌then◌else◌};
ghost use Rattle.std.specs.Str.{encode_utf8_all};
ghost use Rattle.actx_grammar.specs.declared.side.Side.TheVariants.{Plain as plain_side};
ghost use Rattle.actx_grammar.specs.Depth.{depth_program};
ghost use Rattle.actx_grammar.specs.Sides.{StmtsOn};
ghost use Rattle.actx_grammar.specs.Spell.{spell_program};
ghost use Rattle.actx_ast.specs.View.{program_view};
ghost use Rattle.actx_emit.specs.Layout as spec;
ghost use Rattle.actx_emit.specs.Reads.{ReadsBack};

use super::text::push_token;
use actx_ast::spell::spell;
use actx_ast::tree::Program;
use actx_data::NoMemory;
use actx_grammar::token::{Sign, TokenKind};
use std::alloc::Global;

/// The text of a program of the plain side that goes at most 32,768 levels deep: its tokens with a space between two, a LF
/// instead behind `;`, `{` and `}`, and a LF at the end. It takes time in proportion to the text.
///
/// # Errors
///
/// `NoMemory` where memory runs out.
pub fn emit(alloc: Global, plain: &Program) -> Result<Vec<u8>, NoMemory>
    requires side { StmtsOn plain_side (program_view plain.now) }
    requires depth { depth_program (program_view plain.now) ≤ 32768 }
    ensures text { IfOk result (λ v. v.items ≡ encode_utf8_all (spec.layout (spell_program (program_view plain.now)))) }
    ensures reads_back { IfOk result (λ v. ReadsBack v.items (program_view plain.now)) }
{
    text_of(alloc, plain)
}

/// The text of any program, of either side, as `emit` lays it out.
///
/// # Errors
///
/// `NoMemory` where memory runs out.
pub fn text_of(alloc: Global, program: &Program) -> Result<Vec<u8>, NoMemory>
    ensures { IfOk result (λ v. v.items ≡ encode_utf8_all (spec.layout (spell_program (program_view program.now)))) }
{
    let tokens = spell(alloc, program)?;
    Ok(layout(alloc, tokens.as_slice())?.into_bytes())
}

/// The text of tokens.
fn layout(alloc: Global, tokens: &[TokenKind]) -> Result<String, NoMemory>
    ensures { IfOk result (λ s. string_bytes s ≡ encode_utf8_all (spec.layout tokens.now)) }
{
    let mut text = String::new(alloc);
    for (i, token) in tokens.iter().enumerate() {
        push_token(alloc, &mut text, token)?;
        text.push(gap_after(token, i + 1 == tokens.len()))?;
    }
    if tokens.is_empty() {
        text.push('\n')?;
    }
    Ok(text)
}

/// What stands behind a token.
fn gap_after(token: &TokenKind, last: bool) -> char
    ensures { result ≡ (if last then 10 else spec.gap_after token.now) }
{
    match token {
        TokenKind::Sign(Sign::Semicolon | Sign::OpenBrace | Sign::CloseBrace) => '\n',
        _ => { if last { '\n' } else { ' ' } }
    }
}
