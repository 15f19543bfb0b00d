//! The law of the emitted text.

ghost use Rattle.std.specs.Prelude.{List};
ghost use Rattle.actx_grammar.specs.declared.side.Side.TheVariants.{Source, Plain};
ghost use Rattle.actx_grammar.specs.Grammar.{IsSpelled};
ghost use Rattle.actx_grammar.specs.Layout.{laid};
ghost use Rattle.actx_grammar.specs.Lexemes.{Lexeme};
ghost use Rattle.actx_grammar.specs.Spell.{spell_program};
ghost use Rattle.actx_grammar.specs.Tree.{Stmts};
ghost use Rattle.actx_rules.specs.Low.{low};
ghost use Rattle.actx_rules.specs.Taken.{IsTaken};

/// The emitted program's own tokens spell it on the plain side.
pub fn emitted_is_spelled()
    ensures { (p : Stmts) (x : List Lexeme) → IsSpelled Source p x → IsTaken p → IsSpelled Plain (low p) (laid (spell_program (low p))) }
{}
