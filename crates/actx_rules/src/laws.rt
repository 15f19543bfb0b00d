//! The laws of the two runs, which every program's run and its emitted program's run obey. A law's function does nothing:
//! its contract is the law.

ghost use Rattle.std.specs.Prelude.{List};
ghost use Rattle.actx_data.specs.declared.event.Event.{Event};
ghost use Rattle.actx_grammar.specs.Tree.{Stmts};
ghost use Rattle.actx_match.specs.Matching.{WithinFactor};
ghost use Rattle.actx_rules.specs.Laws.{Laws};
ghost use Rattle.actx_rules.specs.Low.{low};
ghost use Rattle.actx_rules.specs.Meaning.{Same, source_shows, target_shows};
ghost use Rattle.actx_rules.specs.Taken.{IsTaken};
ghost use Rattle.actx_rules.specs.Weight.{source_cost};

/// What each function of the prelude does: how `get` finds the value in place, that `run` puts the old mapping back after
/// a value and after a throw, and what a new variable is.
pub fn prelude_keeps_the_mapping()
    ensures { Laws }
{}

/// The run of a program that is taken and the run of its emitted program match in both directions, for every list of
/// host events.
pub fn source_and_target_match()
    ensures { (p : Stmts) → IsTaken p → Same p (low p) }
{}

/// What a program shows after some steps, its emitted program shows after at most 1,024 times the weights of these steps.
pub fn emitted_work_is_bounded()
    ensures { (p : Stmts) → IsTaken p → (events : List Event) → WithinFactor 1024 (source_shows p events) (target_shows (low p) events) (source_cost p events) (λ m. m) }
{}
