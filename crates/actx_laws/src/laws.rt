//! Laws of how programs are printed and parsed. A law's function does nothing: its contract is the law.

ghost use Rattle.actx_grammar.specs.Depth.{Shallowest};
ghost use Rattle.actx_grammar.specs.Exact.{ParsesWhatIsSpelled, SpellsWhatIsParsed, NothingGoesOn, RefusesForItsReason, RefusesFirst};
ghost use Rattle.actx_grammar.specs.Grammar.{OneTree};
ghost use Rattle.actx_grammar.specs.InOrder.{EveryNodeHasAPlace, OffencesAreInOrder};
ghost use Rattle.actx_grammar.specs.Sides.{ToldByTheTree};
ghost use Rattle.actx_grammar.specs.Spell.{SpelledAgain, SpelledInForm};

/// A law: a program that some tokens spell is spelled by its own tokens too, within the same depth.
///
/// So what is parsed is parsed again from them, as the same program.
pub fn spelled_again()
    ensures { SpelledAgain }
{}

/// A law: the tokens of a program that some tokens spell have their kinds' forms.
pub fn spelled_in_form()
    ensures { SpelledInForm }
{}

/// A law: a program's own tokens go no deeper than any that spell it, and spell it within their own depth.
pub fn shallowest()
    ensures { Shallowest }
{}

/// A law: which programs have a spelling on a side is told by the program alone.
pub fn told_by_the_tree()
    ensures { ToldByTheTree }
{}

/// A law: no tokens spell two programs within the limits of a side.
pub fn one_tree()
    ensures { OneTree }
{}

/// A law: the parser's machine answers the program that tokens spell within the limits of a side.
pub fn parses_what_is_spelled()
    ensures { ParsesWhatIsSpelled }
{}

/// A law: the parser's machine answers nothing else: tokens of their kinds' forms spell what it answers.
pub fn spells_what_is_parsed()
    ensures { SpellsWhatIsParsed }
{}

/// A law: where the parser's machine refuses a token, no program within the limits goes on with it.
pub fn nothing_goes_on()
    ensures { NothingGoesOn }
{}

/// A law: what the parser's machine calls unexpected goes on at no depth, and what it calls too deep not within the depth.
pub fn refuses_for_its_reason()
    ensures { RefusesForItsReason }
{}

/// A law: the token that the parser's machine refuses is the first with which no program within the limits goes on, and
/// the reason says what it would take.
pub fn refuses_first()
    ensures { RefusesFirst }
{}

/// A law: each node of a program that tokens spell has its place among them.
pub fn every_node_has_a_place()
    ensures { EveryNodeHasAPlace }
{}

/// A law: the offences of a program stand in the order of their nodes, each at a node of its own.
pub fn offences_are_in_order()
    ensures { OffencesAreInOrder }
{}
